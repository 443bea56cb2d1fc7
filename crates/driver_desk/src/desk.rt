//! The desk.

ghost use Rattle.std.specs.Prelude.{◌≡◌, ◌<◌, ◌≤◌, ◌+◌, ◌*◌, ◌^◌, ◌==◌, ◌++◌, ◌⊎◌, ℕ, List, map, length, true, false, Some, None, replicate, slice_get, IfOk, IfSome, IsSome, MatchOption, MatchResult};
ghost use Rattle.std.specs.List.{list_any};
ghost use Rattle.bench_words.specs.Memory.{word_at};
ghost use Rattle.host_map.specs.declared.TheConstants.{RINGP, START_RING, DONE_RING};
ghost use Rattle.host_map.specs.Places.{IsCommandBlock};
ghost use Rattle.job_rings.specs.Rings.{IsSlot, next_slot};
ghost use Rattle.desk_law.specs.Desk.{desk_opened, ticket, with_ticket, lives, live_count, is_rogue, reaper, due, paid, owed, ticket_of, ticket_at};
ghost use Rattle.desk_law.specs.Rings.{waiting, passed, done_ticket};
ghost use Rattle.desk_law.specs.Calls.{links, link_memory, queues, queue_memory, queue_caller, signalled, senses, sense_memory, unlinks, unlink_memory, ends, chunks_of, Frees};
ghost use Rattle.unit_law.specs.Request.{plain};
ghost use Rattle.desk_law.specs.Refusals.{kind_of, is_full, Refuses};
ghost use Rattle.desk_law.specs.Building.{free_block, free_tag, new_ticket, desk_built, memory_built, Builds};
ghost use Rattle.dma_buddy.specs.Regions.{Space, IsRegion, AreOut, TakesAll, RefusesAt};
ghost use Rattle.driver_desk.specs.Kept.{total};
ghost use Rattle.driver_desk.specs.Held.{core, held};
ghost use Rattle.desk_law.specs.Reporting.{report_at};
ghost use Rattle.desk_law.specs.Taking.{is_again, is_check, takes, take_memory, taken};
ghost use Rattle.desk_law.specs.declared.stage.Stage.TheVariants.{Built, Check, Unlinked};
ghost use Rattle.driver_desk.specs.Conditions.{MayQueue, MayEnd, IsEnded, FaultOf, AreFor, Accepts, step_of, next_done, answer_of};
ghost use Rattle.desk_law.specs.declared.refused.Refused.{Refused};

use crate::blocks::{begin_anew, has_status, is_marked, settle_ticket};
use crate::building::{NewTicket, new_ticket, one_less, one_more, write_ticket};
use crate::fault::BuildFault;
use crate::giving::{give_all, put_back};
use crate::refusals::kind_of;
use crate::reporting::{Room, report_of};
use crate::stage_sets::StageSets;
use bench_words::Words;
use chip_regs::Regs;
use desk_law::{Piece, Refused, Stage, Taken, Ticket};
use dma_buddy::{Chunk, Chunks, Region};
use host_map::{
    BLOCK_BYTES, BLOCKS, BUFFERS, CHUNK_COUNT, DONE_RING, FRONT, RINGP, START_RING, block_at,
    is_command_block,
};
use job_rings::{clear_done, put_start};
use place_table::PlaceTable;
use rig_types::{Line, Outcome, Report, Request, Rig, Unit, Work};
use scsi_words::Direction;
use sense_job::turn;
use std::alloc::{AllocError, Global};
use std::marker::Model;
use tag_tables::{link, unlink};

/// The status CHECK CONDITION (SCSI-2, 7.3).
const CHECK_CONDITION: u8 = 0x02;
/// The status BUSY.
const BUSY: u8 = 0x08;
/// The status QUEUE FULL.
const QUEUE_FULL: u8 = 0x28;

/// The tickets of a bench, the positions in both rings, the buffer region and the signals that are due. Contracts see
/// it as the desk's state of `desk_law`.
///
/// Beside the tickets it keeps for each block, and for each tag of each unit, the live ticket that has it, and by block
/// the memory of its report; and the numbers of the tickets in each stage that the reaper
/// looks for, and the last ticket of each submitter.
#[derive(Drop)]
pub struct Desk {
    version: u8,
    units: Vec<Unit>,
    retries: u8,
    autosense: bool,
    submitters: u16,
    tickets: Vec<Ticket>,
    by_block: PlaceTable,
    by_tag: PlaceTable,
    rooms: Vec<Option<Room>>,
    live_counts: Vec<u16>,
    put: u32,
    take: u32,
    region: Region,
    due: Vec<u32>,
    pub(crate) stages: StageSets,
    pub(crate) last_built: Vec<Option<u32>>,
}

impl Model for Desk {
    ghost use Rattle.std.specs.Prelude.{length};
    ghost use Rattle.desk_law.specs.Desk.{DeskState};
    ghost use Rattle.driver_desk.specs.Kept.{IsDesk, IsIndex};
    ghost use Rattle.driver_desk.specs.Held.{IsKept};
    ghost use Rattle.driver_desk.specs.StageSets.{AreOf};
    ghost use Rattle.driver_desk.specs.LastTickets.{AreLast};

    ghost Value = { DeskState };

    ghost view = { λ d. record {
      version = d.version;
      units = d.units.items;
      retries = d.retries;
      autosense = d.autosense;
      submitters = d.submitters;
      tickets = d.tickets.items;
      put = d.put;
      take = d.take;
      space = d.region;
      due = d.due.items;
    } };

    ghost invariant = { λ d. (IsDesk (length d.units.items) d.submitters d.retries d.put d.take (length d.due.items) d.tickets.items
        × IsIndex d.by_block d.by_tag d.tickets.items
        × IsKept d.version d.units.items d.retries d.by_block d.by_tag d.rooms.items d.live_counts.items d.region d.tickets.items)
        × AreOf d.stages d.tickets.items
        × AreLast d.submitters d.last_built.items d.tickets.items };
}

/// No live ticket of so many units.
fn no_counts(alloc: Global, units: usize) -> Result<Vec<u16>, AllocError>
    ensures { IfOk result (λ v. v.items ≡ replicate units 0) }
{
    let counts = vec![in alloc; 0; units]?;
    Ok(counts)
}

/// No ticket of so many submitters.
fn no_last_tickets(alloc: Global, submitters: usize) -> Result<Vec<Option<u32>>, AllocError>
    ensures { IfOk result (λ v. v.items ≡ replicate submitters None) }
{
    let mut lasts = Vec::with_capacity(alloc, submitters)?;
    for _ in 0..submitters {
        lasts.push(None)?;
    }
    Ok(lasts)
}

/// So many groups of 256 places without a ticket.
fn no_tickets(alloc: Global, groups: usize) -> Result<PlaceTable, AllocError>
    requires { groups ≤ 16 }
    ensures { IfOk result (λ t. t ≡ replicate (256 * groups) None) }
{
    PlaceTable::new(alloc, groups)
}

/// No memory of reports, for each block.
fn rooms(alloc: Global) -> Result<Vec<Option<Room>>, AllocError>
    ensures { IfOk result (λ v. v.items ≡ replicate 256 None) }
{
    let mut rooms = Vec::with_capacity(alloc, 256)?;
    for _ in 0..256u32 {
        rooms.push(None)?;
    }
    Ok(rooms)
}

/// The start slot behind a slot.
fn next_slot(slot: u32) -> u32
    requires { IsSlot START_RING slot }
    ensures is { result ≡ next_slot START_RING slot }
    ensures slot { IsSlot START_RING result }
{
    START_RING + (slot - START_RING + 8) % 4096
}

impl Desk {
    /// A desk without tickets, with all chunks free. Its one error is want of memory.
    #[tactic(auto, using(crate::proofs::Opening::whole_space, crate::proofs::Opening::index_of_none, crate::proofs::Opening::desk_of_none))]
    pub fn open(alloc: Global, rig: &Rig, work: &Work) -> Result<Desk, AllocError>
        ensures { IfOk result (λ d. d ≡ desk_opened rig.now.version rig.now.units rig.now.retries rig.now.autosense (length work.now.submitters)) }
    {
        let submitters = work.submitters.as_slice().len();
        Ok(Desk {
            version: rig.version,
            units: Vec::from_slice(alloc, rig.units.as_slice())?,
            retries: rig.retries,
            autosense: rig.autosense,
            submitters: submitters as u16,
            tickets: Vec::new(alloc),
            by_block: no_tickets(alloc, 1)?,
            by_tag: no_tickets(alloc, 16)?,
            rooms: rooms(alloc)?,
            live_counts: no_counts(alloc, rig.units.as_slice().len())?,
            put: START_RING,
            take: DONE_RING,
            region: Region::new(alloc, BUFFERS, CHUNK_COUNT)?,
            due: vec![in alloc; 0; submitters + 3]?,
            stages: StageSets::new(alloc)?,
            last_built: no_last_tickets(alloc, submitters)?,
        })
    }

    /// The stage of a ticket. It was built.
    pub fn stage(&self, t: u32) -> Stage
        requires { t < length self.now.tickets }
        ensures { result ≡ (ticket self.now t).stage }
    {
        self.tickets[t as usize].stage
    }

    /// The line of a ticket. It was built.
    pub fn line(&self, t: u32) -> Line
        requires { t < length self.now.tickets }
        ensures { result ≡ (ticket self.now t).line }
    {
        self.tickets[t as usize].line
    }

    /// The number of a ticket's unit in the rig. The ticket was built.
    pub fn unit(&self, t: u32) -> u8
        requires { t < length self.now.tickets }
        ensures { result ≡ (ticket self.now t).unit }
    {
        self.tickets[t as usize].unit
    }

    /// The address of a ticket's block, one of the 256 command blocks. The ticket was built.
    pub fn block(&self, t: u32) -> u32
        requires { t < length self.now.tickets }
        ensures block { result ≡ (ticket self.now t).block }
        ensures place { IsCommandBlock result }
    {
        self.tickets[t as usize].block
    }

    /// How many tickets were built.
    pub fn ticket_count(&self) -> u32
        ensures { result ≡ length self.now.tickets }
    {
        self.tickets.len() as u32
    }

    /// How many callers there are: the submitters, the aborter, the reaper and the chip.
    pub fn caller_count(&self) -> u32
        ensures due { result ≡ length self.now.due }
        ensures callers { result ≡ self.now.submitters + 3 }
    {
        u32::from(self.submitters) + 3
    }

    /// How often a ticket was queued. It was built.
    pub fn tries(&self, t: u32) -> u8
        requires { t < length self.now.tickets }
        ensures { result ≡ (ticket self.now t).tries }
    {
        self.tickets[t as usize].tries
    }

    /// The outcome of a ticket, once it has ended. It was built.
    pub fn outcome(&self, t: u32) -> Option<Outcome>
        requires { t < length self.now.tickets }
        ensures { result ≡ (ticket self.now t).outcome }
    {
        self.tickets[t as usize].outcome
    }

    /// Whether a ticket is or was in stage Check. It was built.
    pub fn checked(&self, t: u32) -> bool
        requires { t < length self.now.tickets }
        ensures { result ≡ (ticket self.now t).checked }
    {
        self.tickets[t as usize].checked
    }

    /// Whether TakeDone ended a ticket from stage Sensing. It was built.
    pub fn sensed(&self, t: u32) -> bool
        requires { t < length self.now.tickets }
        ensures { result ≡ (ticket self.now t).sensed }
    {
        self.tickets[t as usize].sensed
    }

    /// The address of the done slot that is taken next.
    pub fn done_slot(&self) -> u32
        ensures slot { result ≡ self.now.take }
        ensures place { IsSlot DONE_RING result }
    {
        self.take
    }

    /// The chunk of a ticket's segment `j`, counted from 0. The ticket was built and has that segment.
    #[tactic(auto, using(crate::proofs::GivenBack::chunk_at))]
    pub fn chunk(&self, t: u32, j: u32) -> Chunk
        requires there { t < length self.now.tickets }
        requires segment { j < length (ticket self.now t).pieces }
        ensures { slice_get (chunks_of (ticket self.now t)) j ≡ Some result }
    {
        let piece = self.tickets[t as usize].pieces.as_slice()[j as usize];
        piece.chunk
    }

    /// Which way the data of a ticket go. The ticket was built.
    pub fn direction(&self, t: u32) -> Direction
        requires { t < length self.now.tickets }
        ensures { result ≡ (ticket self.now t).direction }
    {
        self.tickets[t as usize].direction
    }

    /// The segments of a ticket's buffer, in their order. The ticket was built.
    pub fn pieces(&self, t: u32) -> &[Piece]
        requires { t < length self.now.tickets }
        ensures { result.now ≡ (ticket self.now t).pieces }
    {
        self.tickets[t as usize].pieces.as_slice()
    }

    /// How many signals of a caller are due.
    pub fn due(&self, caller: u32) -> u32
        requires { caller < length self.now.due }
        ensures { result ≡ due self.now caller }
    {
        self.due[caller as usize]
    }

    /// The live ticket with a tag of a unit. None where there is none.
    #[tactic(auto, using(crate::proofs::Index::tag_found, crate::proofs::Index::no_such_unit))]
    pub fn ticket_of(&self, unit: u8, tag: u8) -> Option<u32>
        ensures { result ≡ ticket_of self.now unit tag }
    {
        if unit < 16 {
            self.by_tag.holder(256 * unit as usize + tag as usize)
        } else {
            None
        }
    }

    /// The live ticket with a block. None where there is none.
    #[tactic(auto, using(crate::proofs::Index::block_found, crate::proofs::Index::no_such_block))]
    pub fn ticket_at(&self, block: u32) -> Option<u32>
        ensures { result ≡ ticket_at self.now block }
    {
        if is_command_block(block) {
            self.by_block
                .holder(((block - BLOCKS) / BLOCK_BYTES) as usize)
        } else {
            None
        }
    }

    /// Whether a ticket is Queued and its block doesn't wait in the start ring. The ticket was built, and RINGP is a
    /// start slot.
    pub fn passed(&self, words: &Words, t: u32) -> bool
        requires memory { length words.now ≡ 0x400000 }
        requires there { t < length self.now.tickets }
        requires slot { IsSlot START_RING (word_at words.now RINGP) }
        ensures { result ≡ passed words.now self.now (ticket self.now t) }
    {
        let k = &self.tickets[t as usize];
        matches!(k.stage, Stage::Queued) && !self.waits(words, k.block)
    }

    /// Whether a block waits in the start ring.
    #[tactic(auto, using(crate::proofs::Slots::one_slot, crate::proofs::Slots::counts_from_slot, crate::proofs::Slots::aligned_slot, crate::proofs::Slots::below_slot))]
    fn waits(&self, words: &Words, block: u32) -> bool
        requires memory { length words.now ≡ 0x400000 }
        requires slot { IsSlot START_RING (word_at words.now RINGP) }
        ensures { result ≡ list_any (λ (b : ℕ). b == block) (waiting words.now self.now) }
    {
        let first = words.get(RINGP);
        let count = (self.put + 4096 - first) % 4096 / 8;
        let mut slot = first;
        let mut found = false;
        for _ in 0..count {
            if words.get(slot) == block {
                found = true;
            }
            slot = next_slot(slot);
        }
        found
    }

    /// How many tickets of a unit live.
    #[tactic(auto, using(crate::proofs::LiveCounts::counted_live))]
    fn live_count(&self, unit: u8) -> u16
        requires { unit < length self.now.units }
        ensures { result ≡ live_count self.now unit }
    {
        self.live_counts[unit as usize]
    }

    /// Why a request is refused, but for want of chunks.
    fn refusal_before_chunks(&self, r: &Request) -> Option<Refused>
        ensures { MatchOption result
            ((kind_of self.now.units (plain r.now) ≡ None) × (is_full self.now r.now.unit ≡ false))
            (λ a. Refuses self.now (plain r.now) a) }
    {
        if let Some(kind) = kind_of(self.units.as_slice(), r) {
            return Some(Refused::BadRequest(kind));
        }
        let depth = self.units[r.unit as usize].depth;
        if self.live_count(r.unit) >= depth {
            return Some(Refused::LunFull { depth });
        }
        None
    }

    /// Takes the chunks of a request, all or none. Err holds the first length for which none is free.
    fn take_chunks(&mut self, r: &Request) -> Result<Chunks, u32>
        requires sound { kind_of self.old.units (plain r.now) ≡ None }
        ensures taken { MatchResult result
            (λ cs. TakesAll self.old.space r.now.segments cs self.new.space × AreFor self.new cs r.now.segments
            × (self.new ≡ record self.old { space = self.new.space }))
            (λ len. (self.new ≡ self.old) × RefusesAt self.old.space r.now.segments len) }
        ensures region { IsRegion self.old.space }
    {
        self.region.take_all(r.segments.as_slice())
    }

    /// Takes the chunks of a request that isn't refused. Err holds why it is refused.
    fn accept(&mut self, r: &Request) -> Result<Chunks, Refused>
        ensures { MatchResult result
            (λ cs. Accepts self.old (plain r.now) cs self.new)
            (λ a. (self.new ≡ self.old) × Refuses self.old (plain r.now) a) }
    {
        if let Some(reason) = self.refusal_before_chunks(r) {
            return Err(reason);
        }
        match self.take_chunks(r) {
            Ok(chunks) => Ok(chunks),
            Err(len) => Err(Refused::RegionFull { len }),
        }
    }

    /// Gives chunks back that were taken last and belong to no ticket.
    fn give_back(&mut self, chunks: &Chunks)
        requires out { AreOut self.old.space (held (map core self.old.tickets) ++ chunks.now) }
        ensures { (s : Space) (lens : List ℕ) → IsRegion s → TakesAll s lens chunks.now self.old.space → self.new ≡ record self.old { space = s } }
    {
        put_back(&mut self.region, chunks.as_slice(), 0);
    }

    /// The least block that no live ticket has. There is one, since a unit isn't full.
    fn free_block(&self, unit: u8) -> u32
        requires unit { unit < length self.now.units }
        requires some { is_full self.now unit ≡ false }
        ensures least { result ≡ free_block self.now }
        ensures place { IsCommandBlock result }
        ensures free { ticket_at self.now result ≡ None }
    {
        match self.by_block.least_free(0, 1) {
            Some(n) => block_at(n as u32),
            None => unreachable!(),
        }
    }

    /// The distance of two tags: in version 1 they are multiples of 4.
    fn tag_step(&self) -> u8
        ensures is { result ≡ step_of self.now.version }
        ensures one { (result ≡ 1) ⊎ (result ≡ 4) }
    {
        if self.version == 2 { 1 } else { 4 }
    }

    /// The least tag of a unit that no live ticket of it has. There is one, since the unit isn't full.
    fn free_tag(&self, unit: u8) -> u8
        requires unit { unit < length self.now.units }
        requires some { is_full self.now unit ≡ false }
        ensures least { result ≡ free_tag self.now unit }
        ensures free { ticket_of self.now unit result ≡ None }
    {
        match self.by_tag.least_free(unit as usize, self.tag_step()) {
            Some(tag) => tag,
            None => unreachable!(),
        }
    }

    /// The ticket of an accepted request with these chunks, and the memory of its report.
    fn new_ticket(&self, line: Line, r: &Request, chunks: &Chunks) -> Result<NewTicket, AllocError>
        requires sound { kind_of self.now.units (plain r.now) ≡ None }
        requires some { is_full self.now r.now.unit ≡ false }
        ensures ticket { IfOk result (λ n. n.ticket ≡ new_ticket self.now line (plain r.now) chunks.now) }
        ensures room { IfOk result (λ n. (length n.room.bytes.items ≡ length r.now.bytes) × (length n.room.sense.items ≡ 18)) }
        ensures place { IfOk result (λ n. IsCommandBlock n.ticket.block) }
        ensures free { IfOk result (λ n. (ticket_at self.now n.ticket.block ≡ None) × (ticket_of self.now r.now.unit n.ticket.tag ≡ None) × (n.ticket.tag < 256)) }
    {
        let block = self.free_block(r.unit);
        let tag = self.free_tag(r.unit);
        new_ticket(
            *self.tickets.allocator(),
            line,
            r,
            tag,
            block,
            chunks.as_slice(),
        )
    }

    /// Enters the ticket of an accepted request with these chunks, and tells its number. Its one error is want of memory.
    fn enter(&mut self, line: Line, r: &Request, chunks: &Chunks) -> Result<u32, AllocError>
        requires line { line.submitter < self.old.submitters }
        requires few { length self.old.tickets + 1 < 2 ^ 32 }
        requires sound { kind_of self.old.units (plain r.now) ≡ None }
        requires some { is_full self.old r.now.unit ≡ false }
        requires chunks { AreFor self.old chunks.now r.now.segments }
        ensures { MatchResult result
            (λ t. (t ≡ length self.old.tickets) × (self.new ≡ desk_built self.old (new_ticket self.old line (plain r.now) chunks.now)))
            (λ _. self.new ≡ self.old) }
    {
        let NewTicket { ticket, room } = self.new_ticket(line, r, chunks)?;
        let number = self.ticket_count();
        let unit = ticket.unit;
        let place = ((ticket.block - BLOCKS) / BLOCK_BYTES) as usize;
        let key = 256 * unit as usize + ticket.tag as usize;
        self.stages.reach(number)?;
        self.tickets.push(ticket)?;
        self.by_block.hold(place, number);
        self.by_tag.hold(key, number);
        self.rooms[place] = Some(room);
        self.last_built[line.submitter as usize] = Some(number);
        one_more(&mut self.live_counts, unit);
        Ok(number)
    }

    /// Writes the block of a live ticket and the bytes that were submitted.
    fn write(&self, words: &mut Words, t: u32, r: &Request)
        requires memory { length words.old ≡ 0x400000 }
        requires there { t < length self.now.tickets }
        requires lives { lives (ticket self.now t) ≡ true }
        requires cdb { length r.now.cdb ≤ 16 }
        requires lengths { total (ticket self.now t).pieces ≡ length r.now.bytes }
        ensures memory { words.new ≡ memory_built self.now words.old (ticket self.now t) (plain r.now) }
        ensures size { length words.new ≡ length words.old }
    {
        let k = &self.tickets[t as usize];
        write_ticket(words, &self.units[k.unit as usize], k, r);
    }

    /// The reason for which `build` would refuse a request now, None where nothing refuses it. The desk is as before.
    pub fn refusal(&mut self, request: &Request) -> Option<Refused>
        ensures reason { MatchOption result
            ((a : Refused) → Refuses self.old (plain request.now) a → ⊥)
            (λ a. Refuses self.old (plain request.now) a) }
        ensures desk { self.new ≡ self.old }
    {
        match self.accept(request) {
            Ok(chunks) => {
                self.give_back(&chunks);
                None
            }
            Err(reason) => Some(reason),
        }
    }

    /// Builds the ticket of a request: it has the least free block and the least free tag of its unit, and a chunk for
    /// each segment, all or none. Its block is written whole, and the submitted bytes into its buffer. After any fault
    /// the desk and memory are as before. The line is one of the work's.
    pub fn build(
        &mut self,
        words: &mut Words,
        line: Line,
        request: &Request,
    ) -> Result<u32, BuildFault>
        requires memory { length words.old ≡ 0x400000 }
        requires line { line.submitter < self.old.submitters }
        requires few { length self.old.tickets + 1 < 2 ^ 32 }
        ensures built { MatchResult result
            (λ t. Builds self.old words.old line (plain request.now) t self.new words.new)
            (λ f. (self.new ≡ self.old) × (words.new ≡ words.old) × FaultOf self.old (plain request.now) f) }
        ensures size { length words.new ≡ length words.old }
    {
        let chunks = match self.accept(request) {
            Ok(chunks) => chunks,
            Err(reason) => return Err(BuildFault::Refused(reason)),
        };
        let Ok(number) = self.enter(line, request, &chunks) else {
            self.give_back(&chunks);
            return Err(BuildFault::OutOfMemory);
        };
        self.write(words, number, request);
        Ok(number)
    }

    /// Enters the block of a built ticket under its tag.
    #[tactic(auto, using(crate::proofs::Index::index_stays, crate::proofs::Index::kept_stays))]
    pub fn link(&mut self, words: &mut Words, t: u32)
        requires memory { length words.old ≡ 0x400000 }
        requires there { t < length self.old.tickets }
        requires built { (ticket self.old t).stage ≡ Built }
        ensures desk { self.new ≡ links self.old t }
        ensures memory { words.new ≡ link_memory self.old t words.old }
        ensures size { length words.new ≡ length words.old }
    {
        let k = &mut self.tickets[t as usize];
        link(words, k.unit, k.tag, k.block);
        k.stage = Stage::Linked;
    }

    /// Sets SIGP for a signal of the caller that is due.
    pub fn signal(&mut self, regs: &mut Regs, caller: u32)
        requires there { caller < length self.old.due }
        requires due { 0 < due self.old caller }
        ensures desk { self.new ≡ paid self.old caller }
        ensures regs { regs.new ≡ signalled regs.old }
    {
        regs.sigp = true;
        self.due[caller as usize] -= 1;
    }

    /// One more signal of the caller is due.
    pub fn owe(&mut self, caller: u32)
        requires there { caller < length self.old.due }
        requires few { due self.old caller + 1 < 2 ^ 32 }
        ensures { self.new ≡ owed self.old caller }
    {
        self.due[caller as usize] += 1;
    }

    /// The caller whose signal becomes due as a ticket is queued: its submitter, or the reaper where it was refused.
    fn queue_caller(&self, t: u32) -> u32
        requires { t < length self.now.tickets }
        ensures { result ≡ queue_caller (ticket self.now t).stage self.now (ticket self.now t) }
    {
        let k = &self.tickets[t as usize];
        match k.stage {
            Stage::Again => u32::from(self.submitters) + 1,
            _ => u32::from(k.line.submitter),
        }
    }

    /// Puts the block of a ticket into the start ring, and makes a signal due: of its submitter after Link, of the
    /// reaper where it was refused. A block that was refused begins anew.
    #[tactic(auto, using(crate::proofs::Index::index_stays, crate::proofs::Index::kept_stays, crate::proofs::Stages::queueable_lives, crate::proofs::Stages::tries_before_queue))]
    pub fn queue(&mut self, words: &mut Words, t: u32)
        requires memory { length words.old ≡ 0x400000 }
        requires there { t < length self.old.tickets }
        requires ready { MayQueue (ticket self.old t).stage }
        requires few { due self.old (queue_caller (ticket self.old t).stage self.old (ticket self.old t)) + 1 < 2 ^ 32 }
        ensures desk { self.new ≡ queues self.old t }
        ensures memory { words.new ≡ queue_memory self.old t words.old }
        ensures size { length words.new ≡ length words.old }
    {
        let caller = self.queue_caller(t);
        let k = &mut self.tickets[t as usize];
        if matches!(k.stage, Stage::Again) {
            begin_anew(words, k);
        }
        let block = k.block;
        k.stage = Stage::Queued;
        k.tries += 1;
        self.stages.mark(t, Stage::Queued);
        self.put = put_start(words, self.put, block);
        self.owe(caller);
    }

    /// Turns the block of a ticket in stage Check into a REQUEST SENSE and puts it before the start ring. A signal of
    /// the reaper becomes due.
    #[tactic(auto, using(crate::proofs::Index::index_stays, crate::proofs::Index::kept_stays, crate::proofs::Stages::tries_at_most))]
    pub fn sense(&mut self, words: &mut Words, t: u32)
        requires memory { length words.old ≡ 0x400000 }
        requires there { t < length self.old.tickets }
        requires check { (ticket self.old t).stage ≡ Check }
        requires few { due self.old (reaper self.old) + 1 < 2 ^ 32 }
        ensures desk { self.new ≡ senses self.old t }
        ensures memory { words.new ≡ sense_memory self.old t words.old }
        ensures size { length words.new ≡ length words.old }
    {
        let k = &mut self.tickets[t as usize];
        let block = k.block;
        k.stage = Stage::Sensing;
        self.stages.mark(t, Stage::Sensing);
        turn(words, block);
        words.set(FRONT, block);
        self.owe(u32::from(self.submitters) + 1);
    }

    /// Whether the unit of a ticket breaks the rules.
    fn is_rogue(&self, k: &Ticket) -> bool
        requires { k.now.unit < length self.now.units }
        ensures { result ≡ is_rogue self.now k.now }
    {
        self.units[k.unit as usize].rogue
    }

    /// Whether the target answered BUSY or QUEUE FULL, and tries are left.
    fn is_again(&self, words: &Words, k: &Ticket) -> bool
        requires memory { length words.now ≡ 0x400000 }
        requires block { IsCommandBlock k.now.block }
        ensures { result ≡ is_again self.now words.now k.now }
    {
        (has_status(words, k, BUSY) || has_status(words, k, QUEUE_FULL)) && k.tries <= self.retries
    }

    /// Whether the target answered CHECK CONDITION, and the driver is to ask for the sense.
    fn is_check(&self, words: &Words, k: &Ticket) -> bool
        requires memory { length words.now ≡ 0x400000 }
        requires block { IsCommandBlock k.now.block }
        requires unit { k.now.unit < length self.now.units }
        ensures { result ≡ is_check self.now words.now k.now }
    {
        has_status(words, k, CHECK_CONDITION)
            && self.autosense
            && !self.is_rogue(k)
            && !is_marked(words, k)
    }

    /// Settles a live ticket that is taken from the done ring.
    fn settle(&mut self, words: &Words, t: u32) -> Taken
        requires memory { length words.now ≡ 0x400000 }
        requires there { t < length self.old.tickets }
        requires lives { lives (ticket self.old t) ≡ true }
        ensures desk { self.new ≡ with_ticket self.old t (taken self.old words.now (ticket self.old t)) }
        ensures answer { result ≡ answer_of (taken self.old words.now (ticket self.old t)).stage t }
    {
        let k = &self.tickets[t as usize];
        let again = self.is_again(words, k);
        let check = self.is_check(words, k);
        let k = &mut self.tickets[t as usize];
        let answer = settle_ticket(k, words, t, again, check);
        let stage = k.stage;
        self.stages.mark(t, stage);
        answer
    }

    /// Takes the ticket whose block stands in the done slot, makes the slot idle and clears INTF.
    #[tactic(auto, using(crate::proofs::Index::found_there, crate::proofs::Index::found_lives))]
    pub fn take_done(&mut self, words: &mut Words, regs: &mut Regs) -> Taken
        requires memory { length words.old ≡ 0x400000 }
        requires done { IsSome (done_ticket words.old self.old) }
        ensures desk { self.new ≡ takes self.old words.old (next_done words.old self.old) }
        ensures memory { words.new ≡ take_memory self.old words.old }
        ensures size { length words.new ≡ length words.old }
        ensures regs { regs.new ≡ record regs.old { intf = false } }
        ensures answer { result ≡ answer_of (ticket self.new (next_done words.old self.old)).stage (next_done words.old self.old) }
    {
        let t = match self.ticket_at(words.get(self.take)) {
            Some(t) => t,
            None => unreachable!(),
        };
        let answer = self.settle(words, t);
        self.take = clear_done(words, self.take);
        regs.intf = false;
        answer
    }

    /// Frees the tag entry of a ticket that ended.
    pub fn unlink(&mut self, words: &mut Words, t: u32)
        requires memory { length words.old ≡ 0x400000 }
        requires there { t < length self.old.tickets }
        requires ended { IsEnded (ticket self.old t).stage }
        ensures desk { self.new ≡ unlinks self.old t }
        ensures memory { words.new ≡ unlink_memory self.old t words.old }
        ensures size { length words.new ≡ length words.old }
    {
        let k = &mut self.tickets[t as usize];
        unlink(words, k.unit, k.tag);
        k.stage = Stage::Unlinked;
        self.stages.mark(t, Stage::Unlinked);
    }

    /// Frees a ticket that was unlinked, and makes its report. Its chunks go back in their order, and its block and its
    /// tag are free again. Memory stays.
    pub fn free(&mut self, words: &Words, t: u32) -> Report
        requires memory { length words.now ≡ 0x400000 }
        requires there { t < length self.old.tickets }
        requires unlinked { (ticket self.old t).stage ≡ Unlinked }
        ensures desk { Frees self.old t self.new }
        ensures report { result ≡ report_at self.old words.now t }
    {
        let k = &mut self.tickets[t as usize];
        let place = ((k.block - BLOCKS) / BLOCK_BYTES) as usize;
        let room = match self.rooms[place].take() {
            Some(room) => room,
            None => unreachable!(),
        };
        let report = report_of(words, t, k, room);
        give_all(&mut self.region, k.pieces.as_slice());
        self.by_block.release(place);
        self.by_tag.release(256 * k.unit as usize + k.tag as usize);
        one_less(&mut self.live_counts, k.unit);
        k.stage = Stage::Freed;
        self.stages.mark(t, Stage::Freed);
        report
    }

    /// Ends a ticket that a reset has swept: it is Queued or Sensing.
    pub fn end(&mut self, t: u32, outcome: Outcome)
        requires there { t < length self.old.tickets }
        requires running { MayEnd (ticket self.old t).stage }
        ensures { self.new ≡ ends self.old t outcome }
    {
        let k = &mut self.tickets[t as usize];
        k.stage = Stage::Ended(outcome);
        k.outcome = Some(outcome);
        self.stages.mark(t, Stage::Ended(outcome));
    }
}
