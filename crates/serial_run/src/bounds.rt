//! How many entries a list may have, where no unit breaks the rules.

ghost use Rattle.std.specs.Prelude.{◌≡◌, ◌≤◌, ◌<◌, ◌+◌, ◌*◌, if◌then◌else◌, List, count_by, length, sum_by};
ghost use Rattle.rig_types.specs.declared.acts.Act.{Act};
ghost use Rattle.rig_types.specs.declared.commands.Command.{Command};
ghost use Rattle.bench_state.specs.States.{setting_of};
ghost use Rattle.run_law.specs.Bound.{bound, is_reset, most_disconnects};

use rig_types::{Act, ActKind, Commands, Rig, Unit, Work};

/// A bound on the entries of a list of steps over a rig and a work: 256 for each try of a command with its
/// disconnections, for each sense, each act and the opening, and 1,024 more for each reset.
pub fn bound(rig: &Rig, work: &Work) -> u64
    ensures { result ≡ bound (setting_of rig.now work.now) }
{
    let commands = command_count(work.submitters.as_slice());
    let acts = work.acts.as_slice();
    let tries = try_count(rig, commands);
    let senses = sense_count(rig, commands);
    256 * (tries + senses + acts.len() as u64 + 1) + 1024 * reset_count(acts)
}

/// How many connections so many commands may have.
#[tactic(auto, using(crate::proofs::Products::tries_fit))]
fn try_count(rig: &Rig, commands: u64) -> u64
    requires { commands ≤ 2147483648 }
    ensures count { result ≡ commands * (rig.now.retries + 1) * (most_disconnects rig.now.units + 2) }
    ensures few { result ≤ 141287244169216 }
{
    commands * (u64::from(rig.retries) + 1) * (most_disconnects(rig.units.as_slice()) + 2)
}

/// How many senses the driver may ask for.
fn sense_count(rig: &Rig, commands: u64) -> u64
    ensures count { result ≡ (if rig.now.autosense then commands else 0) }
    ensures few { result ≤ commands }
{
    if rig.autosense { commands } else { 0 }
}

/// How many commands these submitters have together.
fn command_count(submitters: &[Commands]) -> u64
    requires { sum_by (λ (cs : List Command). length cs) submitters.now ≤ 2147483648 }
    ensures { result ≡ sum_by (λ (cs : List Command). length cs) submitters.now }
{
    submitters
        .iter()
        .map(|commands| commands.as_slice().len() as u64)
        .sum()
}

/// The most often that a task of one of these units may leave the bus.
fn most_disconnects(units: &[Unit]) -> u64
    ensures most { result ≡ most_disconnects units.now }
    ensures byte { result < 256 }
{
    let mut most = 0;
    for unit in units {
        most = most.max(u64::from(unit.disconnects));
    }
    most
}

/// How many of these acts are resets.
fn reset_count(acts: &[Act]) -> u64
    ensures resets { result ≡ count_by (λ (a : Act). is_reset a.kind) acts.now }
    ensures few { result ≤ length acts.now }
{
    acts.iter()
        .filter(|act| !matches!(act.kind, ActKind::Abort(_)))
        .count() as u64
}
