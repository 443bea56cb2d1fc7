//! The rig's units and the live tickets, as the bus asks for them.

ghost use Rattle.std.specs.Prelude.{◌≡◌, ◌≤◌, ℕ, List, Option, length};
ghost use Rattle.rig_types.specs.declared.rig.Unit.{Unit as RigUnit};
ghost use Rattle.target_law.specs.declared.nexus.Nexus.{Nexus as TheNexus};

use rig_types::Unit;
use target_law::Nexus;

/// What knows the units of the rig, and the live ticket of each nexus of a target.
pub trait LiveTickets {
    /// The units of the rig, in its order.
    ghost units: { Self → List RigUnit };

    /// The live ticket of a nexus of a target, if it has one.
    ghost live: { Self → ℕ → TheNexus → Option ℕ };

    /// The units of the rig in its order, at most 16.
    fn units(&self) -> &[Unit]
        ensures units { result.now ≡ units self.now }
        ensures few { length result.now ≤ 16 };

    /// The live ticket of a nexus of a target, if it has one.
    fn live_ticket(&self, target: u8, nexus: Nexus) -> Option<u32>
        ensures { result ≡ live self.now target nexus };
}
