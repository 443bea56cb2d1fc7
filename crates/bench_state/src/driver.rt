//! The driver as the bus asks for it: the rig with its units, and the desk with the live tickets.

ghost use Rattle.std.specs.Prelude.{◌≡◌, ◌<◌, IfSome, length, position};
ghost use Rattle.world_law.specs.World.{is_place, live_by};

use driver_desk::Desk;
use rig_types::{Rig, Unit};
use target_bus::LiveTickets;
use target_law::Nexus;

/// The rig, and the desk with the live tickets of its units.
#[derive(Drop)]
pub struct Driver {
    /// The rig.
    pub rig: Rig,
    /// The desk.
    pub desk: Desk,
}

/// The number in the rig of the unit with this target and LUN.
fn place_of(units: &[Unit], target: u8, lun: u8) -> Option<usize>
    ensures { result ≡ position (is_place target lun) units.now }
{
    units
        .iter()
        .position(|unit| unit.target == target && unit.lun == lun)
}

impl Driver {
    /// The live ticket with a tag of a unit, if there is such a unit.
    fn ticket_with(&self, unit: Option<usize>, tag: u8) -> Option<u32>
        requires { IfSome unit (λ u. u < 256) }
        ensures { result ≡ live_by self.now.desk tag unit }
    {
        match unit {
            Some(u) => self.desk.ticket_of(u as u8, tag),
            None => None,
        }
    }
}

impl LiveTickets for Driver {
    ghost use Rattle.std.specs.Prelude.{ℕ};
    ghost use Rattle.bench_state.specs.Driving.{live_among};

    ghost units = { λ d. d.rig.units };

    ghost live = { λ d. live_among d.rig.units d.desk };

    fn units(&self) -> &[Unit] {
        self.rig.units.as_slice()
    }

    #[tactic(auto, using(crate::proofs::Places::few_places))]
    fn live_ticket(&self, target: u8, nexus: Nexus) -> Option<u32> {
        let unit = place_of(self.rig.units.as_slice(), target, nexus.lun);
        self.ticket_with(unit, nexus.tag)
    }
}
