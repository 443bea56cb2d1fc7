//! What may reselect: counted by unit, without a look at the tasks.

ghost use Rattle.std.specs.Prelude.{◌≡◌, ◌<◌, ◌≤◌, length, slice_get, option_map, IfSome};
ghost use Rattle.target_law.specs.Target.{unit_at};
ghost use Rattle.bus_law.specs.Bus.{device_at};
ghost use Rattle.bus_law.specs.Reselections.{candidate_count, all_candidates, calls, candidate_named};
ghost use Rattle.target_bus.specs.Candidates.{candidate_of, CanReselect, IsOfUnit};

use crate::bus::TargetBus;
use rig_types::Unit;
use scsi_target::Device;

/// A task that waits, or a unit that breaks the rules.
#[derive(Clone, Copy)]
pub(crate) struct Candidate {
    /// The SCSI ID of its target.
    pub target: u8,
    /// The LUN of its unit.
    pub lun: u8,
    /// Its number among the unit's candidates, by rising tag from 0.
    pub number: u32,
}

impl TargetBus {
    /// The candidate that the word names, by the rig's order of units and then by tag. None where the bus isn't free, where
    /// bit 31 of the word is clear, and where there is no candidate.
    pub(crate) fn candidate(&self, units: &[Unit], word: u32) -> Option<Candidate>
        requires { length units.now ≤ 16 }
        ensures named { option_map candidate_of result ≡ candidate_named units.now self.now word }
        ensures can { IfSome result (λ c. CanReselect self.now (candidate_of c)) }
    {
        if !self.calls(word) {
            return None;
        }
        let count = self.candidate_total(units);
        if count == 0 {
            return None;
        }
        self.candidate_at(units, (word % 256) as u64 % count)
    }

    /// Whether the word calls for a reselection: the bus is free, and bit 31 is set.
    fn calls(&self, word: u32) -> bool
        ensures { result ≡ calls self.now word }
    {
        self.connected.is_none() & (word / 0x8000_0000 % 2 == 1)
    }

    /// How many candidates the units have together.
    fn candidate_total(&self, units: &[Unit]) -> u64
        requires { length units.now ≤ 16 }
        ensures { result ≡ length (all_candidates units.now self.now) }
    {
        let mut total = 0;
        for unit in units {
            total += self.candidates_of(unit) as u64;
        }
        total
    }

    /// The candidate with this index among those of all units.
    fn candidate_at(&self, units: &[Unit], index: u64) -> Option<Candidate>
        ensures at { option_map candidate_of result ≡ slice_get (all_candidates units.now self.now) index }
        ensures unit { IfSome result (λ c. IsOfUnit self.now (candidate_of c)) }
        ensures within { IfSome result (λ c. c.target < 7) }
    {
        let mut left = index;
        for unit in units {
            let count = self.candidates_of(unit) as u64;
            if left < count {
                return Some(Candidate {
                    target: unit.target,
                    lun: unit.lun,
                    number: left as u32,
                });
            }
            left -= count;
        }
        None
    }

    /// How many candidates a unit of the rig has.
    fn candidates_of(&self, unit: &Unit) -> u32
        ensures count { result ≡ candidate_count (unit_at (device_at self.now unit.now.target).target.units unit.now.lun) }
        ensures within { 0 < result → unit.now.target < 7 }
    {
        if self.devices.len() <= unit.target as usize {
            return 0;
        }
        candidates_at(&self.devices[unit.target as usize], unit.lun)
    }
}

/// How many candidates the unit of a LUN has, 0 where there is none.
fn candidates_at(device: &Device, lun: u8) -> u32
    ensures { result ≡ candidate_count (unit_at device.now.target.units lun) }
{
    match device.unit(lun) {
        Some(_) => device.can_reselect(lun),
        None => 0,
    }
}
