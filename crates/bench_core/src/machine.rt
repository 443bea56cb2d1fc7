//! The bench as the machine of a lock.

ghost use Rattle.world_law.specs.World.{BenchSetting};
ghost use Rattle.world_law.specs.Runs.{is_recorded};
ghost use Rattle.bench_state.specs.States.{setting_of};
ghost use Rattle.seat_law.specs.Worlds.{pairs_of, Allows};

use crate::bench::Bench;
use bench_lock::Machine;
use rig_types::{Rig, Step, Work};
use std::marker::Model;
use world_law::Reply;

/// What a bench was opened with. It stands in proofs alone: no value of it is made, and contracts see it as the setting.
pub struct Setting {
    rig: Rig,
    work: Work,
}

impl Model for Setting {
    ghost Value = { BenchSetting };

    ghost view = { λ s. setting_of s.rig s.work };
}

impl Machine for Bench {
    type Step = Step;

    type Reply = Reply;

    type Opening = Setting;

    ghost opening = { λ b. b.setting };

    ghost list = { λ b. pairs_of b.entries };

    ghost allows = { Allows };

    ghost records = { is_recorded };

    fn step(&mut self, caller: u32, step: Step) -> Reply {
        self.list_is_lawful();
        Bench::step(self, caller, step)
    }

    fn length(&self) -> u32 {
        Bench::length(self)
    }
}
