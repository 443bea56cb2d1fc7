//! The serial run over generated work, and the lines that tell it.

ghost use Rattle.std.specs.Prelude.{◌≡◌, ◌≤◌, ◌++◌, IfOk, length, string_bytes};
ghost use Rattle.report_text.specs.Text.{totals_text};
ghost use Rattle.bench_jobs.specs.Jobs.{LoadRuns, load_line};

use crate::running::drained_run;
use bench_core::Bench;
use refusal_lines::Refusal;
use report_text::push_totals;
use scsi_words::Bytes;
use serial_run::{generated_rig, generated_work};
use std::alloc::{AllocError, Global};

/// Makes the serial run of a seed over the generated rig and `n` commands, 0 to 2,000, that the seed draws, and tells it
/// in two lines: `n`, the seed and how many steps the list has, and the totals of the reports. Refusals come as those of
/// `step_run`.
pub fn load_text(alloc: Global, n: u32, seed: u32) -> Result<Bytes, Refusal>
    requires { n ≤ 2000 }
    ensures { LoadRuns n seed result }
{
    let rig = generated_rig(alloc)?;
    let work = generated_work(alloc, n, seed)?;
    let bench = drained_run(alloc, rig, work, seed)?;
    let text = lines_of(alloc, n, seed, &bench)?;
    Ok(text)
}

/// The two lines that tell a run of a seed over `n` commands.
fn lines_of(alloc: Global, n: u32, seed: u32, bench: &Bench) -> Result<Bytes, AllocError>
    ensures { IfOk result (λ text. text ≡ load_line n seed (length bench.now.entries) ++ totals_text bench.now.world.reports) }
{
    let mut text = Vec::new(alloc);
    let line = first_line(alloc, n, seed, bench.length())?;
    text.extend_from_slice(line.as_bytes())?;
    push_totals(alloc, &mut text, bench.reports())?;
    Ok(Bytes::of(text))
}

/// The line of `n`, the seed and the count of steps.
fn first_line(alloc: Global, n: u32, seed: u32, steps: u32) -> Result<String, AllocError>
    ensures { IfOk result (λ line. string_bytes line ≡ load_line n seed steps) }
{
    let line = format!(in alloc; "load {n} seed {seed} steps {steps}\n")?;
    Ok(line)
}
