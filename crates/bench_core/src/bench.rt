//! The bench: a world, and the list of the steps that led to it.

ghost use Rattle.std.specs.Prelude.{◌≡◌, ◌<◌, ◌≤◌, ◌%◌, ◌↔◌, IsTrue, IfOk, OnOk, OnErr, length, sum, true, Some, slice_get, vec_capacity};
ghost use Rattle.bench_words.specs.Memory.{word_at};
ghost use Rattle.rig_types.specs.Works.{IsCommand, counts_of};
ghost use Rattle.chip_regs.specs.Registers.{cause_of};
ghost use Rattle.world_law.specs.World.{commands_of, decided};
ghost use Rattle.world_law.specs.Lines.{drained};
ghost use Rattle.world_law.specs.Enabling.{Enabled};
ghost use Rattle.world_law.specs.Seeing.{seen};
ghost use Rattle.world_law.specs.Laws.{longer};
ghost use Rattle.world_law.specs.Runs.{is_recorded};
ghost use Rattle.world_law.specs.Answers.{WithinLimit, Answers};
ghost use Rattle.bench_state.specs.States.{setting_of};
ghost use Rattle.bench_state.specs.Reading.{next_fetch};
ghost use Rattle.bench_core.specs.Histories.{opened_history, entered, IsReplayed};

use bench_state::State;
use chip_regs::Cause;
use rig_types::{Command, Entry, Line, Report, Rig, Step, Work};
use std::alloc::{AllocError, Global};
use std::marker::Model;
use world_law::{Decided, Reply, Seen};

/// Enters a step into a list, where its answer is recorded. The list has room for it then.
fn enter(entries: &mut Vec<Entry>, entry: Entry, recorded: bool)
    requires { recorded ≡ true → length entries.old.items < vec_capacity entries.old }
    ensures entered { entries.new.items ≡ entered recorded entries.old.items entry }
    ensures capacity { vec_capacity entries.new ≡ vec_capacity entries.old }
{
    if recorded {
        entries.push_reserved(entry);
    }
}

/// A rig and a work, the list of the steps that were made over them, and the world in which these left it. The list is
/// lawful, and the world is that of the list.
#[derive(Drop)]
pub struct Bench {
    pub(crate) state: State,
    pub(crate) entries: Vec<Entry>,
}

impl Model for Bench {
    ghost use Rattle.std.specs.Prelude.{vec_capacity};
    ghost use Rattle.bench_core.specs.Histories.{History, IsBench};

    ghost Value = { History };

    ghost view = { λ b. record { setting = b.state.setting; entries = b.entries.items; world = b.state.world } };

    ghost invariant = { λ b. IsBench b.state.setting b.entries.items b.state.world (vec_capacity b.entries) };
}

impl Bench {
    /// A bench over a rig and a work at its opening, with an empty list. It takes the memory of all its disks, and has
    /// room for as many entries as the rig allows. Its one error is want of memory.
    #[tactic(auto, using(crate::proofs::Opened::opens))]
    pub fn open(alloc: Global, rig: Rig, work: Work) -> Result<Bench, AllocError>
        ensures { IfOk result (λ b. b ≡ opened_history (setting_of rig work)) }
    {
        let entries = Vec::with_capacity(alloc, rig.step_limit as usize)?;
        let state = State::open(alloc, rig, work)?;
        Ok(Bench { state, entries })
    }

    /// Whether a caller may make a step.
    pub fn is_enabled(&self, caller: u32, step: Step) -> bool
        ensures { IsTrue result ↔ Enabled self.now.setting self.now.world caller step }
    {
        self.state.is_enabled(caller, step)
    }

    /// What a caller sees whose step isn't enabled.
    pub fn seen(&self, caller: u32, step: Step) -> Seen
        ensures { result ≡ seen self.now.setting self.now.world caller step }
    {
        self.state.seen(caller, step)
    }

    /// Whether the list has as many entries as the rig allows.
    fn is_full(&self) -> bool
        ensures { IsTrue result ↔ (length self.now.entries ≡ self.now.setting.step_limit) }
    {
        self.entries.len() == self.state.step_limit() as usize
    }

    /// Makes a step of a caller that is enabled, and enters it where its answer is recorded.
    fn make(&mut self, caller: u32, step: Step) -> Reply
        requires enabled { Enabled self.old.setting self.old.world caller step }
        requires within { WithinLimit self.old.setting (length self.old.entries) self.old.world }
        ensures setting { self.new.setting ≡ self.old.setting }
        ensures answers { Answers self.old.setting (length self.old.entries) self.old.world caller step result self.new.world }
        ensures entries { self.new.entries ≡ entered (is_recorded self.old.setting step result) self.old.entries
            (record { caller = caller; step = step }) }
    {
        let reply = self.state.make(caller, step);
        let recorded = self.state.is_recorded(step, reply);
        enter(&mut self.entries, Entry { caller, step }, recorded);
        reply
    }

    /// A step of a caller. `StepLimit` comes where the list has as many entries as the rig allows and the bench isn't
    /// drained, and else `NotNow` where the step isn't enabled, with what the caller sees. Only a Build, the acts that
    /// reset and ResetBus answer `OutOfMemory`. With these answers nothing changes. A step whose answer is recorded is
    /// one more entry of the list.
    pub fn step(&mut self, caller: u32, step: Step) -> Reply
        ensures setting { self.new.setting ≡ self.old.setting }
        ensures answers { Answers self.old.setting (length self.old.entries) self.old.world caller step result self.new.world }
        ensures entries { self.new.entries ≡ entered (is_recorded self.old.setting step result) self.old.entries
            (record { caller = caller; step = step }) }
    {
        if self.is_full() && !self.drained() {
            return Reply::StepLimit;
        }
        if !self.is_enabled(caller, step) {
            return Reply::NotNow(self.seen(caller, step));
        }
        self.make(caller, step)
    }

    /// Adds a last line to a submitter, and tells which it is. The list and the world stay, and the list is lawful over
    /// the longer work too. Its one error is want of memory, and nothing has changed then.
    ///
    /// Condition: the submitter is there, the command is in range, and the work has fewer than 2^31 commands.
    pub fn extend(&mut self, submitter: u16, command: Command) -> Result<Line, AllocError>
        requires there { submitter < length self.old.setting.submitters }
        requires in_range { IsCommand command }
        requires few { sum (counts_of self.old.setting.submitters) < 2147483648 }
        ensures line { IfOk result (λ l. l ≡ record { submitter = submitter; number = length (commands_of self.old.setting submitter) }) }
        ensures setting { OnOk result (self.new.setting ≡ longer self.old.setting submitter command) }
        ensures entries { self.new.entries ≡ self.old.entries }
        ensures world { self.new.world ≡ self.old.world }
        ensures err { OnErr result (self.new ≡ self.old) }
    {
        self.state.extend(submitter, command)
    }

    /// How many entries the list has.
    pub fn length(&self) -> u32
        ensures { result ≡ length self.now.entries }
    {
        self.entries.len() as u32
    }

    /// The list. It is lawful, and the world is that of the list.
    pub fn entries(&self) -> &[Entry]
        ensures entries { result.now ≡ self.now.entries }
        ensures replayed { IsReplayed self.now.setting self.now.entries self.now.world }
    {
        self.entries.as_slice()
    }

    /// The list is lawful, the world is that of the list, and it has at most as many entries as the rig allows. This does
    /// nothing.
    pub fn list_is_lawful(&self)
        ensures lawful { IsReplayed self.now.setting self.now.entries self.now.world }
        ensures within { length self.now.entries ≤ self.now.setting.step_limit }
        ensures limit { self.now.setting.step_limit ≤ 4194304 }
    {
        let _ = &self.entries;
    }

    /// The n-th entry of the list, counted from 0. The list has more than `n`.
    pub fn entry(&self, n: u32) -> Entry
        requires { n < length self.now.entries }
        ensures { slice_get self.now.entries n ≡ Some result }
    {
        self.entries[n as usize]
    }

    /// Whether every line and act is decided, every ticket is freed, no signal is due, FRONT is idle and no stop waits.
    pub fn drained(&self) -> bool
        ensures { result ≡ drained self.now.setting self.now.world }
    {
        self.state.is_drained()
    }

    /// The word of host memory at an address, a multiple of 4 below 0x40_0000.
    pub fn word(&self, address: u32) -> u32
        requires aligned { address % 4 ≡ 0 }
        requires inside { address < 0x400000 }
        ensures { result ≡ word_at self.now.world.memory address }
    {
        self.state.word(address)
    }

    /// DSP, `None` exactly where the stop stage isn't Run.
    pub fn next_fetch(&self) -> Option<u32>
        ensures { result ≡ next_fetch self.now.world.stop self.now.world.regs.dsp }
    {
        self.state.next_fetch()
    }

    /// Why the chip is stopped, `None` exactly where it isn't.
    pub fn cause(&self) -> Option<Cause>
        ensures { result ≡ cause_of self.now.world.regs }
    {
        self.state.cause()
    }

    /// What became of a line: `Open` also where the work has no such line.
    pub fn line(&self, line: Line) -> Decided
        ensures { result ≡ decided self.now.world line }
    {
        self.state.line(line)
    }

    /// The answer to an act, `None` exactly where it is open.
    pub fn act(&self, k: u32) -> Option<Reply>
        ensures { result ≡ slice_get self.now.world.acts k }
    {
        self.state.act(k)
    }

    /// How many reports were made.
    pub fn report_count(&self) -> usize
        ensures { result ≡ length self.now.world.reports }
    {
        self.state.report_count()
    }

    /// The n-th report, counted from 0. There are more than `n`.
    pub fn report(&self, n: usize) -> &Report
        requires { n < length self.now.world.reports }
        ensures { slice_get self.now.world.reports n ≡ Some result.now }
    {
        self.state.report(n)
    }
}
