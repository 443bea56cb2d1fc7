//! Bytes on their way between memory and the bus.

ghost use Rattle.std.specs.Prelude.{◌≡◌, ◌+◌, ◌≤◌, length, false, ◌&&◌};
ghost use Rattle.chip_step.specs.Bytes.{Acked, TakesIn, GoesOut};

use crate::scsi_bus::Bus;
use bench_words::Words;

fn acknowledge<B: Bus>(bus: &mut B, message: bool, later: bool)
    ensures { Acked B.moves (message && later) bus.old bus.new }
{
    if message && later {
        bus.clear_ack();
    }
}

/// Moves bytes from the bus to memory, and answers how many are left.
pub fn bytes_in<B: Bus>(words: &mut Words, bus: &mut B, message: bool, at: u32, count: u32) -> u32
    requires { at + count ≤ length words.old }
    ensures moved { TakesIn B.moves message false count words.old at bus.old result words.new bus.new }
    ensures size { length words.new ≡ length words.old }
    ensures most { result ≤ count }
{
    let size = words.len();
    prove!(at as u64 + count as u64 <= size as u64);
    for i in 0..count {
        acknowledge(bus, message, i > 0);
        match bus.byte_in() {
            Some(b) => words.set_byte(at + i, b),
            None => return count - i,
        }
    }
    0
}

/// Moves bytes from memory to the bus, and answers how many are left.
pub fn bytes_out<B: Bus>(words: &Words, bus: &mut B, at: u32, count: u32) -> u32
    requires { at + count ≤ length words.now }
    ensures moved { GoesOut B.moves count words.now at bus.old result bus.new }
    ensures most { result ≤ count }
{
    let size = words.len();
    prove!(at as u64 + count as u64 <= size as u64);
    for i in 0..count {
        if !bus.byte_out(words.byte(at + i)) {
            return count - i;
        }
    }
    0
}
