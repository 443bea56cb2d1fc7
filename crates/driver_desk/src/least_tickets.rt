//! The least ticket of each stage that the reaper looks for, and the last ticket of each submitter.

ghost use Rattle.std.specs.Prelude.{◌≡◌, ◌<◌};
ghost use Rattle.driver_desk.specs.Stages.{least_again, least_check, least_ended, least_unlinked};
ghost use Rattle.driver_desk.specs.LastTickets.{IsLastOf};

use crate::desk::Desk;

impl Desk {
    /// The least ticket that is to be queued again.
    pub fn least_again(&self) -> Option<u32>
        ensures { result ≡ least_again self.now }
    {
        self.stages.again.least()
    }

    /// The least ticket whose sense is to be asked for.
    pub fn least_check(&self) -> Option<u32>
        ensures { result ≡ least_check self.now }
    {
        self.stages.check.least()
    }

    /// The least ticket that ended and wasn't unlinked.
    pub fn least_ended(&self) -> Option<u32>
        ensures { result ≡ least_ended self.now }
    {
        self.stages.ended.least()
    }

    /// The least ticket that was unlinked and not freed.
    pub fn least_unlinked(&self) -> Option<u32>
        ensures { result ≡ least_unlinked self.now }
    {
        self.stages.unlinked.least()
    }

    /// The last ticket that was built of a submitter's lines, freed or not. None where there is none. The submitter is one
    /// of the work's.
    pub fn last_of(&self, submitter: u32) -> Option<u32>
        requires { submitter < self.now.submitters }
        ensures { IsLastOf self.now submitter result }
    {
        self.last_built[submitter as usize]
    }
}
