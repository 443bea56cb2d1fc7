//! Making all lines of a trace.

ghost use Rattle.std.specs.Prelude.{◌≡◌, IfErr, OnOk, map, true};
ghost use Rattle.trace_text.specs.Grammar.{line_of};
ghost use Rattle.world_law.specs.Lines.{drained};
ghost use Rattle.bench_core.specs.Histories.{opened_history};
ghost use Rattle.replay_run.specs.Making.{RefusesEnd};
ghost use Rattle.replay_run.specs.Replays.{ReplayRefuses, ReplaysTo};

use crate::making::make_line;
use bench_core::Bench;
use refusal_lines::{Fault, Refusal};
use trace_text::TraceLine;

/// Whether nothing is left to do after the last line.
fn end(bench: &Bench) -> Result<(), Refusal>
    ensures drained { OnOk result (drained bench.now.setting bench.now.world ≡ true) }
    ensures refused { IfErr result (RefusesEnd bench.now) }
{
    if bench.drained() {
        Ok(())
    } else if bench.length() == bench.rig().step_limit {
        Err(Refusal::StepLimit)
    } else {
        Err(Refusal::Bad(Fault::NotDrained))
    }
}

/// Makes the steps of a trace's lines, in their order, on a bench whose list is empty. With `Ok` each line is an entry of
/// the list, and the bench is drained.
///
/// At each line, and after the last, `StepLimit` comes first: the list has as many entries as the rig allows, and the
/// bench isn't drained. Then a line is refused as `UnknownStep` where it names a line or an act that the work doesn't
/// have, and else as `TraceStep` where no caller may make its step or it isn't recorded; both with the number of the line,
/// from 1. After the last line comes `NotDrained`. `OutOfMemory` may come at each line. With an error, the entries before
/// the line were made.
pub fn replay(bench: &mut Bench, lines: &[TraceLine]) -> Result<(), Refusal>
    requires { bench.old ≡ opened_history bench.old.setting }
    ensures setting { bench.new.setting ≡ bench.old.setting }
    ensures entries { OnOk result (map line_of bench.new.entries ≡ lines.now) }
    ensures replayed { OnOk result (ReplaysTo bench.old.setting lines.now bench.new.world) }
    ensures refused { IfErr result (ReplayRefuses bench.old.setting lines.now) }
{
    for line in lines {
        bench.list_is_lawful();
        make_line(bench, *line)?;
    }
    bench.list_is_lawful();
    end(bench)
}
