//! The serial run of the generated rig and work, and how long its steps take by their kind.

ghost use Rattle.std.specs.Prelude.{◌≡◌, ◌<◌, ◌≤◌, [], IfOk};

use bench_core::Bench;
use rig_types::{Entry, Step};
use serial_run::{drive, generated_rig, generated_work};
use std::alloc::{AllocError, Global};
use std::io;
use std::time::{Duration, Instant};

/// The seed of the work and of the run.
const SEED: u32 = 7;

/// How many commands there are where no number is given, and at most.
const FEW: u32 = 4;

const MOST: u32 = 2_000;

const NANOS: u128 = 1_000_000_000;

/// The kinds of steps.
const KINDS: [&str; 14] = [
    "Build", "Link", "Queue", "Signal", "Chip", "Fix", "Sweep", "Restart", "TakeDone", "Unlink",
    "Free", "Act", "ResetBus", "Sense",
];

/// The number of a step's kind.
fn kind_of(step: Step) -> usize
    ensures { result < 14 }
{
    match step {
        Step::Build(_) => 0,
        Step::Link(_) => 1,
        Step::Queue(_) => 2,
        Step::Signal => 3,
        Step::Chip(_) => 4,
        Step::Fix => 5,
        Step::Sweep(_) => 6,
        Step::Restart => 7,
        Step::TakeDone => 8,
        Step::Unlink(_) => 9,
        Step::Free(_) => 10,
        Step::Act(_) => 11,
        Step::ResetBus => 12,
        Step::Sense(_) => 13,
    }
}

/// How many steps of each kind were made, and how long they took.
#[derive(Drop)]
struct Times {
    counts: [u32; 14],
    times: [Duration; 14],
}

impl Times {
    fn none() -> Times {
        Times {
            counts: [0; 14],
            times: [Duration::from_nanos(0); 14],
        }
    }

    fn add(&mut self, step: Step, time: Duration) {
        let kind = kind_of(step);
        self.counts[kind] = self.counts[kind].saturating_add(1);
        self.times[kind] = self.times[kind].saturating_add(time);
    }

    fn all(&self) -> Duration {
        let mut all = Duration::from_nanos(0);
        for kind in 0..14 {
            all = all.saturating_add(self.times[kind]);
        }
        all
    }
}

/// A bench over the generated rig and so many commands.
fn opened(alloc: Global, commands: u32) -> Result<Bench, AllocError>
    requires { commands ≤ 2000 }
    ensures { IfOk result (λ b. b.entries ≡ []) }
{
    let rig = generated_rig(alloc)?;
    let work = generated_work(alloc, commands, SEED)?;
    Bench::open(alloc, rig, work)
}

/// Makes these steps on a bench, and times each.
fn timed(rt: &HostRuntime, bench: &mut Bench, entries: &[Entry]) -> io::Result<Times> {
    let mut times = Times::none();
    for entry in entries {
        let start = Instant::now(rt)?;
        bench.step(entry.caller, entry.step);
        times.add(entry.step, start.elapsed(rt)?);
    }
    Ok(times)
}

/// So many in this time, a second.
fn rate(count: u32, time: Duration) -> u128 {
    u128::from(count) * NANOS / time.as_nanos().max(1)
}

fn print(rt: &HostRuntime, times: &Times) -> io::Result<()> {
    let percent = times.all().as_nanos() / 100 + 1;
    for kind in 0..14 {
        let count = times.counts[kind];
        let time = times.times[kind];
        if count > 0 {
            println!(rt;
                "steps: {} {count}, {} a second, {} % of the time",
                KINDS[kind],
                rate(count, time),
                time.as_nanos() / percent
            )?;
        }
    }
    Ok(())
}

/// Lets a bench go. One call of its own, since a check proves anew wherever a bench is let go.
fn close(_bench: Bench) {}

/// Makes these steps on a bench of so many commands, and times each.
fn again(rt: &HostRuntime, commands: u32, entries: &[Entry]) -> io::Result<Times>
    requires { commands ≤ 2000 }
{
    let mut bench = opened(rt.alloc(), commands)?;
    let times = timed(rt, &mut bench, entries);
    close(bench);
    times
}

/// Prints how many steps a second a serial run made, and then the same of its steps alone by their kind. Where no number
/// is given, no time is printed.
fn print_run(
    rt: &HostRuntime,
    bench: &Bench,
    time: Duration,
    count: Option<u32>,
) -> io::Result<()> {
    let made = bench.length();
    let commands = bench.report_count();
    let Some(count) = count else {
        return println!(rt; "steps: {commands} commands, {made} steps");
    };
    println!(rt;
        "steps: {commands} commands, {made} steps, {} a second in the serial run",
        rate(made, time)
    )?;
    let times = again(rt, count.min(MOST), bench.entries())?;
    print(rt, &times)
}

/// Prints a serial run that was made since then.
fn print_since(
    rt: &HostRuntime,
    bench: &Bench,
    start: io::Result<Instant>,
    count: Option<u32>,
) -> io::Result<()> {
    let time = start?.elapsed(rt)?;
    print_run(rt, bench, time, count)
}

/// Makes the serial run of a bench, and prints how long it took.
fn run(rt: &HostRuntime, bench: Bench, count: Option<u32>) -> io::Result<()>
    requires { bench.entries ≡ [] }
{
    let start = Instant::now(rt);
    let bench = drive(bench, SEED)?;
    let printed = print_since(rt, &bench, start, count);
    close(bench);
    printed
}

/// Makes the serial run of so many commands, and prints how long it took.
pub fn steps(rt: &HostRuntime, count: Option<u32>) -> io::Result<()> {
    let bench = opened(rt.alloc(), count.unwrap_or(FEW).min(MOST))?;
    run(rt, bench, count)
}
