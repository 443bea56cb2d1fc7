//! The serial run: rounds in which each caller tries one step.

ghost use Rattle.std.specs.Prelude.{◌≡◌, [], IfOk, OnOk, length, true};
ghost use Rattle.run_law.specs.Serial.{is_over};
ghost use Rattle.serial_run.specs.Histories.{IsRound, IsSerialHistory, IsTurn};

use crate::choices::next_step;
use crate::generator::{eager, next_word};
use bench_core::Bench;
use std::alloc::AllocError;
use world_law::Reply;

/// Makes the serial run of a seed on a bench whose list is empty, until the bench is drained or its list has as many
/// entries as the rig allows. The one error is want of memory; it also comes where no caller of a round has a step that
/// is recorded, which isn't proved to be impossible.
pub fn drive(bench: Bench, seed: u32) -> Result<Bench, AllocError>
    requires { bench.entries ≡ [] }
    ensures serial { IfOk result (IsSerialHistory bench.setting seed) }
    ensures over { IfOk result (λ b. is_over b.setting (length b.entries) b.world ≡ true) }
{
    bench.list_is_lawful();
    let mut bench = bench;
    let mut word = seed;
    while !is_over(&bench) {
        let before = bench.length();
        word = next_word(word);
        round(&mut bench, eager(word))?;
        if bench.length() <= before {
            return Err(AllocError);
        }
    }
    bench.list_is_lawful();
    Ok(bench)
}

/// Whether the run is over: the bench is drained, or its list is full.
fn is_over(bench: &Bench) -> bool
    ensures { result ≡ is_over bench.now.setting (length bench.now.entries) bench.now.world }
{
    bench.drained() || bench.length() == bench.rig().step_limit
}

/// One round: the submitters, the aborter, the reaper and the chip, which makes its choices by a word. The one error is
/// want of memory.
#[tactic(auto, using(crate::proofs::Rounds::round_begins, crate::proofs::Rounds::round_goes_on, crate::proofs::Rounds::round_ends))]
fn round(bench: &mut Bench, word: u32) -> Result<(), AllocError>
    ensures { OnOk result (IsRound word bench.old bench.new) }
{
    for caller in 0..bench.submitter_count() + 3 {
        turn(bench, caller, word)?;
    }
    Ok(())
}

/// The turn of one caller. The one error is want of memory.
#[tactic(auto, using(crate::proofs::Turns::turn_over, crate::proofs::Turns::turn_none))]
fn turn(bench: &mut Bench, caller: u32, word: u32) -> Result<(), AllocError>
    ensures { OnOk result (IsTurn caller word bench.old bench.new) }
{
    if bench.length() == bench.rig().step_limit {
        return Ok(());
    }
    match next_step(bench, caller, word) {
        None => Ok(()),
        Some(step) => match bench.step(caller, step) {
            Reply::OutOfMemory => Err(AllocError),
            _ => Ok(()),
        },
    }
}
