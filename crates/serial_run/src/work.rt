//! The generated work.

ghost use Rattle.std.specs.Prelude.{◌≡◌, ◌<◌, ◌≤◌, IfOk, length, map};
ghost use Rattle.std.specs.List.{All};
ghost use Rattle.rig_types.specs.Works.{IsCommand};
ghost use Rattle.serial_run.specs.Generated.{IsGeneratedWork, data_of, line_count, lines_of, word_for};
ghost use Rattle.run_law.specs.Serial.{next_word};

use crate::commands::command_by;
use crate::generator::next_word;
use rig_types::{Acts, Commands, Submitters, Work};
use std::alloc::{AllocError, Global};

/// `n` commands, at most 2,000, of four submitters: each reads or writes eight blocks of one of the two units, as the
/// words after `seed` say.
pub fn generated_work(alloc: Global, n: u32, seed: u32) -> Result<Work, AllocError>
    requires { n ≤ 2000 }
    ensures { IfOk result (IsGeneratedWork n seed) }
{
    let mut submitters = Vec::with_capacity(alloc, 4)?;
    submitters.push(lines_of(alloc, n, seed, 0)?)?;
    submitters.push(lines_of(alloc, n, seed, 1)?)?;
    submitters.push(lines_of(alloc, n, seed, 2)?)?;
    submitters.push(lines_of(alloc, n, seed, 3)?)?;
    Ok(Work {
        submitters: Submitters::of(submitters),
        acts: Acts::of(Vec::new(alloc)),
    })
}

// The lines of a submitter, below 4: every fourth command from that of its number on.
fn lines_of(alloc: Global, n: u32, seed: u32, submitter: u32) -> Result<Commands, AllocError>
    requires few { n ≤ 2000 }
    requires submitter { submitter < 4 }
    ensures lines { IfOk result (λ lines. map data_of lines ≡ lines_of n seed submitter) }
    ensures in_range { IfOk result (All IsCommand) }
    ensures count { IfOk result (λ lines. length lines ≡ line_count n submitter) }
{
    let count = (n + 3 - submitter) / 4;
    let mut lines = Vec::with_capacity(alloc, count as usize)?;
    let mut word = first_word(seed, submitter);
    for line in 0..count {
        lines.push(command_by(alloc, word, 4 * line + submitter)?)?;
        word = fourth_word(word);
    }
    Ok(Commands::of(lines))
}

// The word of the command with this number, below 4.
fn first_word(seed: u32, number: u32) -> u32
    ensures { result ≡ word_for seed number }
{
    let mut word = next_word(seed);
    for _ in 0..number {
        word = next_word(word);
    }
    word
}

// The word of the fourth command after this word's.
fn fourth_word(word: u32) -> u32
    ensures { result ≡ next_word (next_word (next_word (next_word word))) }
{
    next_word(next_word(next_word(next_word(word))))
}
