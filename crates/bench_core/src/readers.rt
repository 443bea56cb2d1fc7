//! What can be read of a bench. No call takes memory.

ghost use Rattle.std.specs.Prelude.{◌≡◌, ◌<◌, ◌≤◌, length, slice_get, IfSome};
ghost use Rattle.desk_law.specs.Desk.{ticket, due, aborter, reaper, chip};
ghost use Rattle.world_law.specs.World.{lines_of, log_of};
ghost use Rattle.world_law.specs.Stops.{sweep};
ghost use Rattle.world_law.specs.Owners.{owner_of};
ghost use Rattle.driver_desk.specs.Stages.{least_again, least_check, least_ended, least_unlinked};
ghost use Rattle.bench_state.specs.Reading.{block_at};
ghost use Rattle.bench_core.specs.Images.{disk_at};

use crate::bench::Bench;
use rig_types::{Report, Rig, Work};
use scsi_words::Direction;
use unit_law::LogEntry;
use world_law::{Decided, Owner, Reply, Stop};

impl Bench {
    /// The rig.
    pub fn rig(&self) -> &Rig
        ensures version { result.now.version ≡ self.now.setting.version }
        ensures units { result.now.units ≡ self.now.setting.units }
        ensures retries { result.now.retries ≡ self.now.setting.retries }
        ensures step_limit { result.now.step_limit ≡ self.now.setting.step_limit }
        ensures autosense { result.now.autosense ≡ self.now.setting.autosense }
        ensures desk { result.now.units ≡ self.now.world.desk.units }
    {
        self.state.rig()
    }

    /// The work.
    pub fn work(&self) -> &Work
        ensures submitters { result.now.submitters ≡ self.now.setting.submitters }
        ensures acts { result.now.acts ≡ self.now.setting.acts }
    {
        self.state.work()
    }

    /// What the chip's stop asks of the reaper.
    pub fn stop(&self) -> Stop
        ensures { result ≡ self.now.world.stop }
    {
        self.state.stop()
    }

    /// How many submitters the work has, at most 16.
    pub fn submitter_count(&self) -> u32
        ensures submitters { result ≡ length self.now.setting.submitters }
        ensures lines { result ≡ length self.now.world.lines }
        ensures desk { result ≡ self.now.world.desk.submitters }
        ensures few { result ≤ 16 }
    {
        self.state.submitter_count()
    }

    /// The number of the aborter among the callers: it stands behind the submitters.
    pub fn aborter(&self) -> u32
        ensures { result ≡ aborter self.now.world.desk }
    {
        self.state.aborter()
    }

    /// The number of the reaper.
    pub fn reaper(&self) -> u32
        ensures { result ≡ reaper self.now.world.desk }
    {
        self.state.reaper()
    }

    /// The number of the chip.
    pub fn chip(&self) -> u32
        ensures { result ≡ chip self.now.world.desk }
    {
        self.state.chip()
    }

    /// How many signals of a caller are due; 0 where the work has no such caller.
    pub fn due(&self, caller: u32) -> u32
        ensures { result ≡ due self.now.world.desk caller }
    {
        self.state.due_of(caller)
    }

    /// The submitter of a ticket; 0 where none was built.
    pub fn submitter_of(&self, t: u32) -> u32
        ensures { result ≡ (ticket self.now.world.desk t).line.submitter }
    {
        self.state.submitter_of(t)
    }

    /// The next line of a submitter; 0 where the work has no such submitter.
    pub fn next_line(&self, submitter: u32) -> u32
        ensures { result ≡ length (lines_of self.now.world submitter) }
    {
        self.state.next_line(submitter)
    }

    /// What was decided of the lines of a submitter, in their order; none where the work has no such submitter.
    pub fn lines(&self, submitter: u32) -> &[Decided]
        ensures lines { result.now ≡ lines_of self.now.world submitter }
        ensures few { length result.now ≤ 2147483648 }
    {
        self.state.lines(submitter)
    }

    /// The next act of the work.
    pub fn next_act(&self) -> u32
        ensures { result ≡ length self.now.world.acts }
    {
        self.state.next_act()
    }

    /// The answers to the acts that were made, in their order.
    pub fn acts(&self) -> &[Reply]
        ensures { result.now ≡ self.now.world.acts }
    {
        self.state.acts()
    }

    /// The reports, in the order in which they were made.
    pub fn reports(&self) -> &[Report]
        ensures { result.now ≡ self.now.world.reports }
    {
        self.state.reports()
    }

    /// The least ticket that is to be swept. Tickets are looked through in Clear alone.
    pub fn next_sweep(&self) -> Option<u32>
        ensures { result ≡ sweep self.now.world }
    {
        self.state.next_sweep()
    }

    /// The least ticket that is to be queued again.
    pub fn least_again(&self) -> Option<u32>
        ensures { result ≡ least_again self.now.world.desk }
    {
        self.state.least_again()
    }

    /// The least ticket whose sense is to be asked for.
    pub fn least_check(&self) -> Option<u32>
        ensures { result ≡ least_check self.now.world.desk }
    {
        self.state.least_check()
    }

    /// The least ticket that ended and wasn't unlinked.
    pub fn least_ended(&self) -> Option<u32>
        ensures { result ≡ least_ended self.now.world.desk }
    {
        self.state.least_ended()
    }

    /// The least ticket that was unlinked and not freed.
    pub fn least_unlinked(&self) -> Option<u32>
        ensures { result ≡ least_unlinked self.now.world.desk }
    {
        self.state.least_unlinked()
    }

    /// The direction of a ticket's data; no data where none was built.
    pub fn direction_of(&self, t: u32) -> Direction
        ensures { result ≡ (ticket self.now.world.desk t).direction }
    {
        self.state.direction_of(t)
    }

    /// The n-th entry of a unit's log, counted from 0, `None` exactly past the end. The rig has the unit.
    pub fn log(&self, unit: u8, n: u32) -> Option<LogEntry>
        requires { unit < length self.now.setting.units }
        ensures { result ≡ slice_get (log_of self.now.world unit) n }
    {
        self.state.log(unit, n)
    }

    /// The owner of a word of host memory, by its address. A chunk is its ticket's whole. Tickets are looked through from
    /// the first that lives on.
    pub fn owner(&self, address: u32) -> Owner
        ensures { result ≡ owner_of self.now.world.desk address }
    {
        self.state.owner(address)
    }

    /// Copies a block of a unit's disk. The rig has the unit, and the unit the block. `into` has 512 bytes.
    pub fn image(&self, unit: u8, block: u32, into: &mut [u8])
        requires there { IfSome (slice_get self.now.setting.units unit) (λ r. block < r.blocks) }
        requires unit { unit < length self.now.setting.units }
        requires size { length into.old ≡ 512 }
        ensures { IfSome (slice_get self.now.setting.units unit) (λ r. into.new ≡ block_at (disk_at self.now.world.bus r) block) }
    {
        let place = self.rig().units.as_slice()[unit as usize];
        self.state.block(place.target, place.lun, block, into);
    }
}
