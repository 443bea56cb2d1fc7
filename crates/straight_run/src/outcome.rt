//! What a run leaves.

use bench_words::Words;
use chip_regs::Regs;

/// Memory and registers, as the straight script leaves them.
#[derive(Drop)]
pub struct Straight {
    pub words: Words,
    pub regs: Regs,
}
