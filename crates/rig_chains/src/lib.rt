//! The chains in host memory: the code by which the chip finds the unit of a reselection, first by its target and then
//! by the LUN in its IDENTIFY message, and takes the unit's tag tables. They belong to the rig and are laid once.
#![tactic(auto)]

ghost use Rattle.std.specs.Prelude.{◌≡◌, ◌+◌, ◌-◌, ◌*◌, ◌%◌, ◌<◌, ◌≤◌, length, position};
ghost use Rattle.std.specs.List.{list_any};
ghost use Rattle.bench_words.specs.Memory.{word_at};
ghost use Rattle.bench_words.specs.Views.{WroteWithin};
ghost use Rattle.scripts_ops.specs.Table.{row};
ghost use Rattle.scripts_ops.specs.declared.values.Op.TheVariants.{Int};
ghost use Rattle.scripts_ops.specs.declared.values.Condition.TheVariants.{Always};
ghost use Rattle.host_map.specs.declared.TheConstants.{CHAINS};
ghost use Rattle.host_map.specs.Places.{target_chain, unit_chain};
ghost use Rattle.rig_chains.specs.Chains.{has_target, is_at, jump_if, target_ops, lun_ops, identify_ops, put_op, put_ops, with_unit, with_chains, IsLaid};

mod laws;

use bench_words::Words;
use chip_regs::places::{DSA, SFBR};
use driver_script::{Name, label};
use host_map::{CHAINS, MSGIN, tag_entry};
pub use laws::{chains_stay, units_are_found};
use rig_types::Unit;
use scripts_ops::{Address, Change, Condition, Op, encode};
use scsi_words::phase_codes::MSG_IN;

/// A bus has eight SCSI IDs, from 0 on; a target that no unit of the rig has gets no jump.
const TARGETS: u8 = 8;
/// The LUNs of a target are below this.
const LUNS: u8 = 8;
/// The vector of a target that isn't in the rig.
const UNKNOWN_TARGET: u32 = 0x0a;
/// The vector of a message that isn't IDENTIFY.
const NO_IDENTIFY: u32 = 0x08;
/// The vector of a LUN that the target doesn't have.
const UNKNOWN_LUN: u32 = 0x09;

/// Whether a unit of the rig has this target.
fn has_target(units: &[Unit], target: u8) -> bool
    ensures { result ≡ has_target units.now target }
{
    units.iter().any(|unit| unit.target == target)
}

/// The number in the rig of the unit with this target and LUN.
fn unit_at(units: &[Unit], target: u8, lun: u8) -> Option<usize>
    ensures { result ≡ position (is_at target lun) units.now }
{
    units
        .iter()
        .position(|unit| unit.target == target && unit.lun == lun)
}

/// The address of the chain of a target, below 8.
fn target_chain(target: u8) -> u32
    requires { target < 8 }
    ensures { result ≡ target_chain target }
{
    CHAINS + 0x100 + 0x80 * u32::from(target)
}

/// The address of the chain of a unit, below 16.
fn unit_chain(unit: u8) -> u32
    requires { unit < 16 }
    ensures { result ≡ unit_chain unit }
{
    CHAINS + 0x800 + 0x20 * u32::from(unit)
}

/// A jump where SFBR has this value.
fn jump_if(value: u8, address: u32) -> Op
    ensures op { result ≡ jump_if value address }
    ensures fields { (row result).fields }
{
    Op::Jump {
        on: Condition::Byte {
            not: false,
            mask: 0,
            value,
        },
        address,
    }
}

/// Writes an instruction of two words, and answers the address behind it.
fn put(words: &mut Words, address: u32, op: Op) -> u32
    requires memory { length words.old ≡ 0x400000 }
    requires aligned { address % 4 ≡ 0 }
    requires inside { address < 0x10000 }
    requires fields { (row op).fields }
    ensures wrote { words.new ≡ put_op words.old address op }
    ensures size { length words.new ≡ length words.old }
    ensures next { result ≡ address + 8 }
{
    let spelling = encode(&op);
    words.set(address, spelling.words[0]);
    words.set(address + 4, spelling.words[1]);
    address + 8
}

/// Stops the chip with a vector.
fn stop(vector: u32) -> Op
    ensures op { result ≡ Int Always vector }
    ensures fields { (row result).fields }
{
    Op::Int {
        on: Condition::Always,
        vector,
    }
}

/// Writes the instructions that read the LUN of an IDENTIFY message into SFBR, and answers the address behind them.
#[tactic(auto, unfolding(crate::specs::Chains::put_ops))]
fn lay_identify(words: &mut Words, address: u32) -> u32
    requires memory { length words.old ≡ 0x400000 }
    requires aligned { address % 4 ≡ 0 }
    requires inside { address < 0x9000 }
    ensures wrote { words.new ≡ put_ops words.old address identify_ops }
    ensures size { length words.new ≡ length words.old }
    ensures next { result ≡ address + 24 }
{
    let message = Op::Move {
        count: 1,
        address: MSGIN,
        phase: MSG_IN,
    };
    let no_identify = Op::Int {
        on: Condition::Byte {
            not: true,
            mask: 0x7f,
            value: 0x80,
        },
        vector: NO_IDENTIFY,
    };
    let lun = Op::ToSfbr {
        register: SFBR,
        change: Change::And,
        byte: 0x07,
    };
    let at = put(words, address, message);
    let at = put(words, at, no_identify);
    put(words, at, lun)
}

/// Lays the chain of the targets: for each target of the rig by rising number a jump to its chain.
fn lay_targets(words: &mut Words, units: &[Unit])
    requires { length words.old ≡ 0x400000 }
    ensures wrote { words.new ≡ put_ops words.old CHAINS (target_ops units.now) }
    ensures size { length words.new ≡ length words.old }
{
    let mut at = CHAINS;
    for target in 0..TARGETS {
        if has_target(units, target) {
            at = put(words, at, jump_if(target, target_chain(target)));
        }
    }
    put(words, at, stop(UNKNOWN_TARGET));
}

/// Lays the chain of a target below 8, from its IDENTIFY message on: for each of its units by rising LUN a jump to the
/// chain of the unit.
fn lay_luns(words: &mut Words, units: &[Unit], target: u8)
    requires memory { length words.old ≡ 0x400000 }
    requires units { length units.now ≤ 16 }
    requires target { target < 8 }
    ensures wrote { words.new ≡ put_ops words.old (target_chain target) (lun_ops units.now target) }
    ensures size { length words.new ≡ length words.old }
{
    let mut at = lay_identify(words, target_chain(target));
    for lun in 0..LUNS {
        if let Some(unit) = unit_at(units, target, lun) {
            at = put(words, at, jump_if(lun, unit_chain(unit as u8)));
        }
    }
    put(words, at, stop(UNKNOWN_LUN));
}

/// Lays the chain of a unit below 16: DSA becomes its first tag table, and the chip goes on at TAG.
#[tactic(auto, unfolding(crate::specs::Chains::put_ops))]
fn lay_unit(words: &mut Words, unit: u8)
    requires memory { length words.old ≡ 0x400000 }
    requires unit { unit < 16 }
    ensures wrote { words.new ≡ with_unit words.old unit }
    ensures size { length words.new ≡ length words.old }
{
    let table = unit_chain(unit) + 0x10;
    let load = Op::Load {
        register: DSA,
        count: 4,
        place: Address::At(table),
    };
    let at = put(words, unit_chain(unit), load);
    put(
        words,
        at,
        Op::Jump {
            on: Condition::Always,
            address: label(Name::Tag),
        },
    );
    words.set(table, tag_entry(unit, 0));
}

/// Lays the chains of a rig, whose units these are, at most 16, each with its number in the rig. Memory has 4 MiB; the
/// words of the chains lie from 0x8000 to 0x8FFF, and all other words stay. Takes no memory.
pub fn lay_chains(words: &mut Words, units: &[Unit])
    requires memory { length words.old ≡ 0x400000 }
    requires units { length units.now ≤ 16 }
    ensures wrote { words.new ≡ with_chains words.old units.now }
    ensures laid { IsLaid (word_at words.new) units.now }
    ensures within { WroteWithin (word_at words.old) (word_at words.new) 0x8000 0x9000 }
    ensures size { length words.new ≡ length words.old }
{
    lay_targets(words, units);
    for id in 0..TARGETS {
        if has_target(units, id) {
            lay_luns(words, units, id);
        }
    }
    for unit in 0..units.len() as u8 {
        lay_unit(words, unit);
    }
}

#[cfg(test)]
mod tests;
