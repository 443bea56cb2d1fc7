ghost use Rattle.std.specs.Prelude.{◌≡◌, ℕ, Some, IfOk};
ghost use Rattle.target_law.specs.declared.nexus.Nexus.{Nexus as TheNexus};

use super::*;
use chip_step::Settled;
use rig_types::{Pattern, Rig, Unit, Units};
use scsi_words::Phase;
use std::alloc::{AllocError, Global};
use std::process::Abort;
use std::test::Fail;
use target_law::Nexus;
use unit_law::LogEntry;

const PLAIN: Unit = Unit {
    target: 2,
    lun: 3,
    blocks: 2,
    pattern: Pattern::Count,
    depth: 2,
    disconnects: 2,
    refusals: 0,
    absent: false,
    rogue: false,
};

const ROGUE: Unit = Unit {
    target: 5,
    lun: 0,
    blocks: 1,
    pattern: Pattern::Zero,
    depth: 1,
    disconnects: 0,
    refusals: 0,
    absent: false,
    rogue: true,
};

/// A unit that keeps the rules, and one of another target that breaks them.
fn rig(alloc: Global) -> Result<Rig, AllocError> {
    Ok(Rig {
        version: 2,
        units: Units::of(Vec::from_array(alloc, [PLAIN, ROGUE])?),
        retries: 0,
        step_limit: 1,
        autosense: true,
    })
}

/// The units, and each tag's live ticket: the number of the tag.
#[derive(Drop)]
struct TagTickets {
    units: [Unit; 2],
}

impl LiveTickets for TagTickets {
    ghost units = { λ t. t.units };

    ghost live = { λ t target n. Some n.tag };

    fn units(&self) -> &[Unit] {
        &self.units
    }

    fn live_ticket(&self, _target: u8, nexus: Nexus) -> Option<u32> {
        Some(nexus.tag as u32)
    }
}

/// Hands these bytes to the connected target. False where it doesn't take each.
fn send(bus: &mut TargetBus, tickets: &TagTickets, bytes: &[u8]) -> bool {
    let mut all = true;
    for b in bytes {
        all = bus.byte_out(*b, tickets) & all;
    }
    all
}

/// How many bytes come in the phase that is asked for, and whether they count on from this one.
fn receive(bus: &mut TargetBus, first: u8) -> (u32, bool) {
    let mut count = 0u32;
    let mut next = first;
    let mut same = true;
    for _ in 0..1024 {
        match bus.byte_in() {
            Some(b) => same = same & (b == next),
            None => break,
        }
        count = count.wrapping_add(1);
        next = next.wrapping_add(1);
    }
    (count, same)
}

/// A message byte, acknowledged.
fn message(bus: &mut TargetBus) -> Option<u8> {
    if bus.phase(0) != Some(Phase::MsgIn) {
        return None;
    }
    let b = bus.byte_in();
    bus.clear_ack();
    b
}

/// The n-th entry of a unit's log, from 0.
fn entry(bus: &TargetBus, unit: &Unit, n: u32) -> Option<LogEntry> {
    if unit.target > 6 {
        return None;
    }
    let device = bus.device(unit.target);
    match device.unit(unit.lun) {
        Some(_) => device.log_entry(unit.lun, n),
        None => None,
    }
}

/// Selects the plain unit's target, and gives it READ(10) of a block under tag 7.
fn begin(bus: &mut TargetBus, tickets: &TagTickets) -> bool {
    let settled = bus.select(&tickets.units, 2, 0);
    bus.set_atn(true);
    let named = send(bus, tickets, &[0xc3, 0x20, 7]);
    bus.set_atn(false);
    let asked = bus.phase(0) == Some(Phase::Command);
    let given = send(bus, tickets, &[0x28, 0, 0, 0, 0, 0, 0, 0, 1, 0]);
    (settled == Settled::Selected) & named & asked & given
}

#[test]
fn a_read_disconnects_between_its_phases(rt: HostRuntime) -> Result<(), Fail> {
    let rig = rig(rt.alloc())?;
    let tickets = TagTickets {
        units: [PLAIN, ROGUE],
    };
    let mut bus = TargetBus::open(rt.alloc(), &rig)?;
    assert!(rt; bus.select(&tickets.units, 4, 0) == Settled::TimedOut);
    bus.reserve_at(2)?;
    assert!(rt; begin(&mut bus, &tickets));
    // One phase of 100 bytes, then SAVE DATA POINTER and DISCONNECT.
    assert!(rt; bus.phase(99) == Some(Phase::DataIn));
    assert!(rt; receive(&mut bus, 0) == (100, true));
    assert!(rt; bus.phase(0x0100_0000) == Some(Phase::MsgIn));
    assert!(rt; message(&mut bus) == Some(2) && message(&mut bus) == Some(4));
    assert!(rt; bus.shown().is_none() && bus.leave(0));
    // Without bit 31 nothing comes. With it the low byte names one of two candidates, counted round.
    assert!(rt; bus.reselect(&tickets.units, 0).is_none());
    assert!(rt; bus.reselect(&tickets.units, 0x8000_0002) == Some(2));
    assert!(rt; message(&mut bus) == Some(0x83) && message(&mut bus) == Some(0x20));
    assert!(rt; message(&mut bus) == Some(7));
    assert!(rt; bus.phase(411) == Some(Phase::DataIn));
    assert!(rt; receive(&mut bus, 100) == (412, true));
    assert!(rt; bus.phase(0) == Some(Phase::Status));
    assert!(rt; bus.byte_in() == Some(0));
    assert!(rt; message(&mut bus) == Some(0));
    assert!(rt; bus.leave(0));
    assert!(rt; entry(&bus, &PLAIN, 0) == Some(LogEntry::Look(7)));
    assert!(rt; entry(&bus, &PLAIN, 1) == Some(LogEntry::End(7)));
    assert!(rt; entry(&bus, &PLAIN, 2).is_none());
    Ok(())
}

#[test]
fn a_bus_reset_takes_both_targets(rt: HostRuntime) -> Result<(), Fail> {
    let rig = rig(rt.alloc())?;
    let tickets = TagTickets {
        units: [PLAIN, ROGUE],
    };
    let mut bus = TargetBus::open(rt.alloc(), &rig)?;
    // The word for DISCONNECT; then the second candidate comes, the unit that breaks the rules, with the tag of the word.
    assert!(rt; begin(&mut bus, &tickets));
    assert!(rt; bus.phase(0x0100_0000) == Some(Phase::MsgIn));
    assert!(rt; message(&mut bus) == Some(4) && bus.leave(0));
    assert!(rt; bus.select(&tickets.units, 2, 0x8000_4d01) == Settled::Reselected(5));
    assert!(rt; message(&mut bus) == Some(0x80) && message(&mut bus) == Some(0x20));
    assert!(rt; message(&mut bus) == Some(0x4d));
    assert!(rt; bus.phase(9) == Some(Phase::DataIn));
    assert!(rt; bus.byte_in() == Some(9));
    bus.reset()?;
    assert!(rt; bus.leave(0) && bus.shown().is_none());
    assert!(rt; entry(&bus, &PLAIN, 0) == Some(LogEntry::Drop(7, 0)));
    assert!(rt; entry(&bus, &ROGUE, 0) == Some(LogEntry::Clear));
    assert!(rt; bus.reselect(&tickets.units, 0x8000_0000) == Some(5));
    Ok(())
}

#[test]
fn room_is_given_back(rt: HostRuntime) -> Result<(), Fail> {
    let rig = rig(rt.alloc())?;
    let mut bus = TargetBus::open(rt.alloc(), &rig)?;
    let rooms = bus.rooms_at(2);
    assert!(rt; rooms == [0, 0, 0, 0, 0, 0, 0, 0]);
    bus.reserve_at(2)?;
    assert!(rt; bus.rooms_at(2) == [0, 0, 0, 8, 0, 0, 0, 0]);
    bus.give_back(2, &rooms);
    assert!(rt; bus.rooms_at(2) == rooms);
    Ok(())
}
