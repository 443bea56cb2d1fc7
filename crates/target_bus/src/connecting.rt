//! Selection and reselection.

ghost use Rattle.std.specs.Prelude.{◌≡◌, ◌≤◌, ◌<◌, ℕ, List, true, is_none, length, option_map, Some, None};
ghost use Rattle.rig_types.specs.declared.rig.Unit.{Unit as RigUnit};
ghost use Rattle.bus_law.specs.Reselections.{candidate_named, target_of, reselected, after_reselection, can_select, settles, after_selection};
ghost use Rattle.target_bus.specs.Candidates.{candidate_of, CanReselect};

use crate::bus::TargetBus;
use crate::candidates::Candidate;
use chip_step::Settled;
use rig_types::Unit;

impl TargetBus {
    /// Selects a target. A candidate that the word names reselects first. Otherwise the target answers where the bus is
    /// free and a unit of it isn't absent; else the selection times out, and nothing changes.
    ///
    /// Condition: these are the units of a rig, at most 16.
    pub fn select(&mut self, units: &[Unit], target: u8, word: u32) -> Settled
        requires { length units.now ≤ 16 }
        ensures settled { result ≡ settles (candidate_named units.now self.old word) (can_select self.old target) }
        ensures state { self.new ≡ after_selection (candidate_named units.now self.old word) (can_select self.old target) target word self.old }
    {
        match self.candidate(units, word) {
            Some(candidate) => {
                self.connect(&candidate, word);
                Settled::Reselected(candidate.target)
            }
            None => self.select_where_there(target),
        }
    }

    /// The target whose candidate the word names reselects. With `None` nothing changes.
    ///
    /// Condition: these are the units of a rig, at most 16.
    pub fn reselect(&mut self, units: &[Unit], word: u32) -> Option<u8>
        requires { length units.now ≤ 16 }
        ensures by { result ≡ option_map target_of (candidate_named units.now self.old word) }
        ensures state { self.new ≡ after_reselection (candidate_named units.now self.old word) word self.old }
    {
        match self.candidate(units, word) {
            Some(candidate) => {
                self.connect(&candidate, word);
                Some(candidate.target)
            }
            None => None,
        }
    }

    /// Selects a target where it is there and the bus is free.
    fn select_where_there(&mut self, target: u8) -> Settled
        requires { (units : List RigUnit) × (word : ℕ) × (None ≡ candidate_named units self.old word) }
        ensures settled { result ≡ settles None (can_select self.old target) }
        ensures state { (word : ℕ) → self.new ≡ after_selection None (can_select self.old target) target word self.old }
    {
        if !self.can_select(target) {
            return Settled::TimedOut;
        }
        self.devices[target as usize].select();
        self.connected = Some(target);
        Settled::Selected
    }

    /// A candidate reselects; a unit that breaks the rules takes its tag from the word.
    fn connect(&mut self, candidate: &Candidate, word: u32)
        requires { (units : List RigUnit) × (Some (candidate_of candidate.now) ≡ candidate_named units self.old word) × CanReselect self.old (candidate_of candidate.now) }
        ensures { self.new ≡ reselected self.old word (candidate_of candidate.now) }
    {
        let tag = (word / 256 % 256) as u8;
        self.devices[candidate.target as usize].reselect(candidate.lun, candidate.number, tag);
        self.connected = Some(candidate.target);
    }

    /// Whether a target that is there answers on a free bus.
    fn can_select(&self, id: u8) -> bool
        ensures can { result ≡ can_select self.now id }
        ensures within { result ≡ true → id < 7 }
    {
        if !self.is_free() {
            return false;
        }
        if self.devices.len() <= id as usize {
            return false;
        }
        self.devices[id as usize].answers()
    }

    /// Whether no target is connected.
    fn is_free(&self) -> bool
        ensures { result ≡ is_none self.now.connected }
    {
        matches!(self.connected, None)
    }
}
