//! What can be read of the world. No call takes memory.

ghost use Rattle.std.specs.Prelude.{◌≡◌, ◌%◌, ◌<◌, ◌≤◌, Some, length, slice_get};
ghost use Rattle.bench_words.specs.Memory.{word_at};
ghost use Rattle.chip_regs.specs.Registers.{cause_of};
ghost use Rattle.world_law.specs.World.{lines_of, decided, front};
ghost use Rattle.bench_state.specs.Reading.{next_fetch};

use crate::state::State;
use chip_regs::Cause;
use host_map::FRONT;
use rig_types::{Line, Report, Rig, Work};
use world_law::{Decided, Reply, Stop};

impl State {
    /// The word of host memory at an address, a multiple of 4 below 0x40_0000.
    pub fn word(&self, address: u32) -> u32
        requires aligned { address % 4 ≡ 0 }
        requires inside { address < 0x400000 }
        ensures { result ≡ word_at self.now.world.memory address }
    {
        self.words.get(address)
    }

    /// The block at FRONT.
    pub fn front(&self) -> u32
        ensures { result ≡ front self.now.world }
    {
        self.words.get(FRONT)
    }

    /// DSP, `None` exactly where the stop stage isn't Run.
    pub fn next_fetch(&self) -> Option<u32>
        ensures { result ≡ next_fetch self.now.world.stop self.now.world.regs.dsp }
    {
        match self.stop {
            Stop::Run => Some(self.regs.dsp),
            _ => None,
        }
    }

    /// Why the chip is stopped, `None` exactly where it isn't.
    pub fn cause(&self) -> Option<Cause>
        ensures { result ≡ cause_of self.now.world.regs }
    {
        self.regs.stop_cause()
    }

    /// What became of a line: `Open` also where the work has no such line.
    #[tactic(auto, using(crate::proofs::LineLists::lines_at, crate::proofs::LineLists::no_lines_at))]
    pub fn line(&self, line: Line) -> Decided
        ensures { result ≡ decided self.now.world line }
    {
        match self.lines.get(line.submitter as usize) {
            Some(lines) => lines.at(line.number),
            None => Decided::Open,
        }
    }

    /// What was decided of the lines of a submitter, in their order; none where the work has no such submitter.
    #[tactic(auto, using(crate::proofs::LineLists::lines_at, crate::proofs::LineLists::no_lines_at))]
    pub fn lines(&self, submitter: u32) -> &[Decided]
        ensures lines { result.now ≡ lines_of self.now.world submitter }
        ensures few { length result.now ≤ 2147483648 }
    {
        match self.lines.get(submitter as usize) {
            Some(lines) => lines.decided.as_slice(),
            None => &[],
        }
    }

    /// The answers to the acts that were made, in their order.
    pub fn acts(&self) -> &[Reply]
        ensures { result.now ≡ self.now.world.acts }
    {
        self.acts.as_slice()
    }

    /// The answer to an act, `None` exactly where it is open.
    pub fn act(&self, k: u32) -> Option<Reply>
        ensures { result ≡ slice_get self.now.world.acts k }
    {
        self.acts.get(k as usize).copied()
    }

    /// How many reports were made.
    pub fn report_count(&self) -> usize
        ensures { result ≡ length self.now.world.reports }
    {
        self.reports.len()
    }

    /// The n-th report, counted from 0. There are more than `n`.
    pub fn report(&self, n: usize) -> &Report
        requires { n < length self.now.world.reports }
        ensures { slice_get self.now.world.reports n ≡ Some result.now }
    {
        &self.reports[n]
    }

    /// How many entries a list of steps may have.
    pub fn step_limit(&self) -> u32
        ensures { result ≡ self.now.setting.step_limit }
    {
        self.bus.tickets.rig.step_limit
    }

    /// The rig.
    pub fn rig(&self) -> &Rig
        ensures version { result.now.version ≡ self.now.setting.version }
        ensures units { result.now.units ≡ self.now.setting.units }
        ensures retries { result.now.retries ≡ self.now.setting.retries }
        ensures step_limit { result.now.step_limit ≡ self.now.setting.step_limit }
        ensures autosense { result.now.autosense ≡ self.now.setting.autosense }
        ensures desk { result.now.units ≡ self.now.world.desk.units }
    {
        &self.bus.tickets.rig
    }

    /// The work.
    pub fn work(&self) -> &Work
        ensures submitters { result.now.submitters ≡ self.now.setting.submitters }
        ensures acts { result.now.acts ≡ self.now.setting.acts }
    {
        &self.work
    }

    /// What the chip's stop asks of the reaper.
    pub fn stop(&self) -> Stop
        ensures { result ≡ self.now.world.stop }
    {
        self.stop
    }

    /// The next act of the work.
    pub fn next_act(&self) -> u32
        ensures { result ≡ length self.now.world.acts }
    {
        self.acts.len() as u32
    }

    /// The reports, in the order in which they were made.
    pub fn reports(&self) -> &[Report]
        ensures { result.now ≡ self.now.world.reports }
    {
        self.reports.as_slice()
    }
}
