//! The world of a run, as the code keeps it.

ghost use Rattle.std.specs.Prelude.{◌≡◌, ◌≤◌, length, slice_index_or};
ghost use Rattle.world_law.specs.declared.reply.Decided.TheVariants.{Open};

use crate::driver::Driver;
use bench_words::Words;
use chip_regs::Regs;
use rig_types::{Report, Work};
use std::marker::Model;
use target_bus::LiveBus;
use world_law::{Decided, Reply, Stop};

/// What was decided of the lines of a submitter, in their order. There is room for the rest of them.
#[derive(Drop)]
pub struct Lines {
    pub(crate) decided: Vec<Decided>,
    ghost few: { length decided.items ≤ 2147483648 },
}

impl Lines {
    /// How many lines are decided.
    pub(crate) fn count(&self) -> u32
        ensures { result ≡ length self.now.decided.items }
    {
        self.decided.len() as u32
    }

    /// What became of a line, by its number: `Open` past the end.
    pub(crate) fn at(&self, number: u32) -> Decided
        ensures { result ≡ slice_index_or self.now.decided.items number Open }
    {
        match self.decided.get(number as usize) {
            Some(decided) => *decided,
            None => Decided::Open,
        }
    }
}

/// The rig and its work, host memory, the registers, the bus, the desk, and what was decided and reported. Contracts
/// see it as the setting and the world of `world_law`.
#[derive(Drop)]
pub struct State {
    pub(crate) work: Work,
    pub(crate) words: Words,
    pub(crate) regs: Regs,
    /// The bus, with the driver that it asks: the rig and the desk.
    pub(crate) bus: LiveBus<Driver>,
    pub(crate) stop: Stop,
    pub(crate) resume: Option<u32>,
    pub(crate) lines: Vec<Lines>,
    pub(crate) acts: Vec<Reply>,
    pub(crate) reports: Vec<Report>,
    /// How many tickets live.
    pub(crate) live: u32,
    /// How many lines were refused.
    pub(crate) refused: u32,
    /// No ticket before this one lives.
    pub(crate) first: u32,
}

impl Model for State {
    ghost use Rattle.std.specs.Prelude.{◌+◌, length, vec_capacity};
    ghost use Rattle.bench_state.specs.States.{BenchState, setting_of, decided_of, rooms_of};
    ghost use Rattle.bench_state.specs.Held.{IsHeld, HasRooms};

    ghost Value = { BenchState };

    ghost view = { λ s. record {
      setting = setting_of s.bus.tickets.rig s.work;
      world = record {
        memory = s.words;
        regs = s.regs;
        bus = s.bus.bus;
        desk = s.bus.tickets.desk;
        stop = s.stop;
        resume = s.resume;
        lines = decided_of s.lines.items;
        acts = s.acts.items;
        reports = s.reports.items;
      };
    } };

    ghost invariant = { λ s. IsHeld (setting_of s.bus.tickets.rig s.work) s.words s.bus.tickets.desk (decided_of s.lines.items) s.live s.refused s.first
        × HasRooms (setting_of s.bus.tickets.rig s.work) (rooms_of s.lines.items) (length s.acts.items) (vec_capacity s.acts)
        (length s.reports.items + s.live) (vec_capacity s.reports) };
}
