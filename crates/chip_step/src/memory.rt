//! LOAD, STORE and MOVE MEMORY.

ghost use Rattle.std.specs.Prelude.{◌≡◌, ◌≢◌, ◌+◌, ◌≤◌, length};
ghost use Rattle.scripts_ops.specs.Table.{IsPart, IsAddress};
ghost use Rattle.chip_step.specs.Chip.{state};
ghost use Rattle.chip_step.specs.Memory.{Loads, Stores, Copies, filled, stored, copied};

use crate::addresses::{address, low_two_bits};
use crate::outcome::{StepEnd, stop};
use bench_words::Words;
use chip_regs::{Cause, Regs};
use scripts_ops::Address;

#[tactic(auto, using(crate::proofs::Places::part_place))]
fn fill(words: &Words, regs: &mut Regs, register: u8, count: u8, at: u32)
    requires part { IsPart register count }
    requires inside { at + count ≤ length words.now }
    ensures { regs.new ≡ filled count register words.now at regs.old }
{
    let size = words.len();
    prove!(at as u64 + count as u64 <= size as u64);
    for i in 0..count {
        let b = words.byte(at + i as u32);
        regs.write(register + i, b);
    }
}

#[tactic(auto, using(crate::proofs::Places::part_place))]
fn spill(words: &mut Words, regs: &Regs, register: u8, count: u8, at: u32)
    requires part { IsPart register count }
    requires inside { at + count ≤ length words.old }
    ensures stored { words.new ≡ stored count register words.old at regs.now }
    ensures size { length words.new ≡ length words.old }
{
    let size = words.len();
    prove!(at as u64 + count as u64 <= size as u64);
    for k in 0..count {
        words.set_byte(at + k as u32, regs.byte(register + k));
    }
}

fn copy_up(words: &mut Words, source: u32, target: u32, count: u32)
    requires from { source + count ≤ length words.old }
    requires to { target + count ≤ length words.old }
    ensures copied { words.new ≡ copied count words.old source target }
    ensures size { length words.new ≡ length words.old }
{
    let size = words.len();
    prove!(source as u64 + count as u64 <= size as u64);
    prove!(target as u64 + count as u64 <= size as u64);
    for i in 0..count {
        words.set_byte(target + i, words.byte(source + i));
    }
}

/// LOAD.
pub fn load<B>(
    words: &Words,
    regs: &mut Regs,
    bus: &B,
    register: u8,
    count: u8,
    from: Address,
) -> StepEnd
    requires part { IsPart register count }
    requires address { IsAddress from }
    ensures does { Loads register count from (state words.now regs.old bus.now) result (state words.now regs.new bus.now) }
    ensures not_idle { result ≢ StepEnd.Idle }
{
    if low_two_bits(regs.dsa, from) != register as u32 % 4 {
        return stop(regs, Cause::Iid);
    }
    match address(words, regs.dsa, from, count as u32) {
        None => stop(regs, Cause::Bf),
        Some(at) => {
            fill(words, regs, register, count, at);
            StepEnd::Ran
        }
    }
}

/// STORE.
pub fn store<B>(
    words: &mut Words,
    regs: &mut Regs,
    bus: &B,
    register: u8,
    count: u8,
    to: Address,
) -> StepEnd
    requires part { IsPart register count }
    requires address { IsAddress to }
    ensures does { Stores register count to (state words.old regs.old bus.now) result (state words.new regs.new bus.now) }
    ensures size { length words.new ≡ length words.old }
    ensures not_idle { result ≢ StepEnd.Idle }
{
    if low_two_bits(regs.dsa, to) != register as u32 % 4 {
        return stop(regs, Cause::Iid);
    }
    match address(words, regs.dsa, to, count as u32) {
        None => stop(regs, Cause::Bf),
        Some(at) => {
            spill(words, regs, register, count, at);
            StepEnd::Ran
        }
    }
}

/// MOVE MEMORY.
pub fn move_memory<B>(
    words: &mut Words,
    regs: &mut Regs,
    bus: &B,
    count: u32,
    source: u32,
    target: u32,
) -> StepEnd
    ensures does { Copies count source target (state words.old regs.old bus.now) result (state words.new regs.new bus.now) }
    ensures size { length words.new ≡ length words.old }
    ensures not_idle { result ≢ StepEnd.Idle }
{
    if source % 4 != target % 4 {
        return stop(regs, Cause::Iid);
    }
    let size = words.len() as u64;
    if source as u64 + count as u64 > size || target as u64 + count as u64 > size {
        return stop(regs, Cause::Bf);
    }
    copy_up(words, source, target, count);
    StepEnd::Ran
}
