//! The least ticket of each stage that the reaper looks for. No call goes over tickets.

ghost use Rattle.std.specs.Prelude.{◌≡◌};
ghost use Rattle.driver_desk.specs.Stages.{least_again, least_check, least_ended, least_unlinked};

use crate::state::State;

impl State {
    /// The least ticket that is to be queued again.
    pub fn least_again(&self) -> Option<u32>
        ensures { result ≡ least_again self.now.world.desk }
    {
        self.bus.tickets.desk.least_again()
    }

    /// The least ticket whose sense is to be asked for.
    pub fn least_check(&self) -> Option<u32>
        ensures { result ≡ least_check self.now.world.desk }
    {
        self.bus.tickets.desk.least_check()
    }

    /// The least ticket that ended and wasn't unlinked.
    pub fn least_ended(&self) -> Option<u32>
        ensures { result ≡ least_ended self.now.world.desk }
    {
        self.bus.tickets.desk.least_ended()
    }

    /// The least ticket that was unlinked and not freed.
    pub fn least_unlinked(&self) -> Option<u32>
        ensures { result ≡ least_unlinked self.now.world.desk }
    {
        self.bus.tickets.desk.least_unlinked()
    }
}
