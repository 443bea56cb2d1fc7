//! The driver's desk: tickets from Build to Free.

ghost use Rattle.std.specs.Prelude.{◌≡◌, length};

use bench_words::Words;
use chip_regs::Regs;
use cmd_block::{ENDED, Field, write};
use desk_law::{Stage, Taken};
use driver_desk::Desk;
use host_map::is_command_block;
use rig_reader::read_rig;
use rig_types::{Line, Request, Rig, Work};
use std::io;
use std::time::CpuClock;
use work_reader::read_work;

/// How many tickets are made where no number is given: then no time is printed.
const FEW: u32 = 100;

/// One unit that takes 256 tickets.
const RIG: &[u8] = b"version = 2\n[[unit]]\ntarget = 0\nlun = 0\nblocks = 64\ndepth = 256\n";

/// One READ(10) of a block.
const WORK: &[u8] =
    b"version = 1\n[[submitter]]\n[[submitter.command]]\nunit = 0\ncdb = \"28000000000000000100\"\nsegments = [512]\ndirection = \"in\"\n";

/// How many tickets live while another goes from Build to Free.
const LIVE: [u32; 3] = [0, 63, 255];

/// Builds, links and queues a ticket. None where one of these calls may not be made or refuses.
fn queued(desk: &mut Desk, words: &mut Words, request: &Request) -> Option<u32>
    requires memory { length words.old ≡ 0x400000 }
    ensures size { length words.new ≡ length words.old }
{
    let line = Line {
        submitter: 0,
        number: 0,
    };
    if desk.caller_count() <= 3 || desk.ticket_count() >= 0xffff_0000 {
        return None;
    }
    let Ok(t) = desk.build(words, line, request) else {
        return None;
    };
    if t >= desk.ticket_count() || !matches!(desk.stage(t), Stage::Built) {
        return None;
    }
    desk.link(words, t);
    if !matches!(desk.stage(t), Stage::Linked) || desk.due(0) >= 0xffff_0000 {
        return None;
    }
    desk.queue(words, t);
    Some(t)
}

/// Ends a ticket with the status GOOD, as the script does, and takes it. Tells whether it is one of the tickets.
fn taken(desk: &mut Desk, words: &mut Words, regs: &mut Regs, t: u32) -> bool
    requires memory { length words.old ≡ 0x400000 }
    ensures size { length words.new ≡ length words.old }
{
    if t >= desk.ticket_count() {
        return false;
    }
    let block = desk.block(t);
    write(words, block, Field::State, ENDED);
    write(words, block, Field::Status, 0);
    words.set(desk.done_slot(), block);
    if desk.ticket_at(words.get(desk.done_slot())).is_none() {
        return false;
    }
    matches!(desk.take_done(words, regs), Taken::Ended(_))
}

/// Makes SIGP, unlinks a ticket that ended, and frees it. Tells whether each call could be made.
fn freed(desk: &mut Desk, words: &mut Words, regs: &mut Regs, t: u32) -> bool
    requires memory { length words.old ≡ 0x400000 }
    ensures size { length words.new ≡ length words.old }
{
    if desk.caller_count() <= 3 || desk.due(0) == 0 {
        return false;
    }
    desk.signal(regs, 0);
    if t >= desk.ticket_count() || !matches!(desk.stage(t), Stage::Ended(_)) {
        return false;
    }
    desk.unlink(words, t);
    if !matches!(desk.stage(t), Stage::Unlinked) {
        return false;
    }
    let _report = desk.free(words, t);
    true
}

/// One ticket from Build to Free. Tells whether it got there.
fn cycle(desk: &mut Desk, words: &mut Words, regs: &mut Regs, request: &Request) -> bool
    requires memory { length words.old ≡ 0x400000 }
    ensures size { length words.new ≡ length words.old }
{
    match queued(desk, words, request) {
        Some(t) => taken(desk, words, regs, t) && freed(desk, words, regs, t),
        None => false,
    }
}

/// Queues so many tickets and leaves them there. Tells whether all were built.
fn keep(desk: &mut Desk, words: &mut Words, request: &Request, live: u32) -> bool
    requires memory { length words.old ≡ 0x400000 }
    ensures size { length words.new ≡ length words.old }
{
    let mut all = true;
    for _ in 0..live {
        all = queued(desk, words, request).is_some() && all;
    }
    all
}

/// So many tickets from Build to Free, one behind the other. Tells whether all got there.
fn cycles(
    desk: &mut Desk,
    words: &mut Words,
    regs: &mut Regs,
    request: &Request,
    count: u32,
) -> bool
    requires memory { length words.old ≡ 0x400000 }
    ensures size { length words.new ≡ length words.old }
{
    let mut all = true;
    for _ in 0..count {
        all = cycle(desk, words, regs, request) && all;
    }
    all
}

/// The request of a work's first command.
fn request_of(work: &Work) -> Option<&Request> {
    let commands = work.submitters.as_slice().first()?;
    let command = commands.as_slice().first()?;
    Some(&command.request)
}

/// Makes tickets while others live, and prints how long it took; no time where no number is given.
fn timed(
    rt: &HostRuntime,
    desk: &mut Desk,
    words: &mut Words,
    request: &Request,
    live: u32,
    count: Option<u32>,
) -> io::Result<()>
    requires memory { length words.old ≡ 0x400000 }
{
    let mut regs = Regs::new();
    if !keep(desk, words, request, live) {
        return println!(rt; "desk: {live} tickets can't live");
    }
    let times = count.unwrap_or(FEW);
    let start = rt.thread_cpu_time()?;
    let all = cycles(desk, words, &mut regs, request, times);
    let time = rt.thread_cpu_time()?.saturating_sub(start).as_millis();
    if count.is_some() {
        println!(rt;
            "desk: {times} tickets from build to free beside {live} others, all: {all}, in {time} ms of processor time"
        )
    } else {
        println!(rt; "desk: {times} tickets from build to free beside {live} others, all: {all}")
    }
}

/// Lets a desk go. One call of its own, since a check proves anew wherever a desk is let go.
fn close(_desk: Desk) {}

/// Opens a desk over memory, and makes tickets while so many others live.
fn part(
    rt: &HostRuntime,
    words: &mut Words,
    rig: &Rig,
    work: &Work,
    live: u32,
    count: Option<u32>,
) -> io::Result<()>
    requires memory { length words.old ≡ 0x400000 }
{
    let Some(request) = request_of(work) else {
        return println!(rt; "desk: no request");
    };
    let mut desk = Desk::open(rt.alloc(), rig, work)?;
    let done = timed(rt, &mut desk, words, request, live, count);
    close(desk);
    done
}

/// Makes tickets in fresh memory while so many others live.
fn part_of_memory(
    rt: &HostRuntime,
    rig: &Rig,
    work: &Work,
    live: u32,
    count: Option<u32>,
) -> io::Result<()> {
    let mut words = Words::new(rt.alloc(), 0x10_0000)?;
    if words.len() == 0x40_0000 {
        part(rt, &mut words, rig, work, live, count)
    } else {
        println!(rt; "desk: no memory")
    }
}

/// Makes tickets where none, 63 and 255 others live.
fn parts(rt: &HostRuntime, rig: &Rig, work: &Work, count: Option<u32>) -> io::Result<()> {
    for live in &LIVE {
        part_of_memory(rt, rig, work, *live, count)?;
    }
    Ok(())
}

/// Reads the rig and the work, and makes tickets over them.
pub fn desk(rt: &HostRuntime, count: Option<u32>) -> io::Result<()> {
    let alloc = rt.alloc();
    let Ok(rig) = read_rig(alloc, RIG) else {
        return println!(rt; "desk: no rig");
    };
    let Ok(work) = read_work(alloc, WORK, &rig) else {
        return println!(rt; "desk: no work");
    };
    parts(rt, &rig, &work, count)
}
