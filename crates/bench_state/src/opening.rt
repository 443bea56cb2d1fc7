//! The opening: nothing is decided, and host memory, the bus and the desk are at their opening.

ghost use Rattle.std.specs.Prelude.{◌≡◌, [], IfOk, length, replicate};
ghost use Rattle.world_law.specs.Opening.{memory_opened, opened};
ghost use Rattle.bench_state.specs.States.{setting_of, decided_of, HasLineRooms};

use crate::driver::Driver;
use crate::state::{Lines, State};
use bench_words::Words;
use chip_regs::Regs;
use driver_desk::Desk;
use opening_memory::lay_opening;
use rig_types::{Commands, Rig, Work};
use std::alloc::{AllocError, Global};
use target_bus::{LiveBus, TargetBus};
use world_law::Stop;

/// No line is decided of any submitter, and there is room for all of them.
#[tactic(auto, using(crate::proofs::OpeningLines::one_more_decided, crate::proofs::OpeningLines::one_more_room, crate::proofs::OpeningLines::rooms_all))]
fn lines_for(alloc: Global, submitters: &[Commands]) -> Result<Vec<Lines>, AllocError>
    ensures decided { IfOk result (λ ls. decided_of ls.items ≡ replicate (length submitters.now) []) }
    ensures rooms { IfOk result (λ ls. HasLineRooms submitters.now ls.items) }
{
    let mut lines = Vec::with_capacity(alloc, submitters.len())?;
    for s in 0..submitters.len() {
        let decided = Vec::with_capacity(alloc, submitters[s].as_slice().len())?;
        lines.push(Lines { decided })?;
    }
    Ok(lines)
}

/// Host memory at the opening of a rig.
#[tactic(auto, using(crate::proofs::OneOpening::opening_is))]
fn memory_for(alloc: Global, rig: &Rig) -> Result<Words, AllocError>
    ensures { IfOk result (λ m. m ≡ memory_opened rig.now.version rig.now.units) }
{
    let mut words = Words::new(alloc, 1_048_576)?;
    lay_opening(&mut words, rig.version, rig.units.as_slice());
    let size = words.len();
    prove!(size == 0x40_0000);
    Ok(words)
}

impl State {
    /// The world of a rig and a work at its opening. Its one error is want of memory.
    pub fn open(alloc: Global, rig: Rig, work: Work) -> Result<State, AllocError>
        ensures { IfOk result (λ s. (s.setting ≡ setting_of rig work) × (s.world ≡ opened (setting_of rig work))) }
    {
        let words = memory_for(alloc, &rig)?;
        let bus = TargetBus::open(alloc, &rig)?;
        let desk = Desk::open(alloc, &rig, &work)?;
        let lines = lines_for(alloc, work.submitters.as_slice())?;
        let acts = Vec::with_capacity(alloc, work.acts.as_slice().len())?;
        Ok(State {
            work,
            words,
            regs: Regs::new(),
            bus: LiveBus {
                bus,
                tickets: Driver { rig, desk },
            },
            stop: Stop::Run,
            resume: None,
            lines,
            acts,
            reports: Vec::new(alloc),
            live: 0,
            refused: 0,
            first: 0,
        })
    }
}
