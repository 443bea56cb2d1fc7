//! A desk with the memory and the registers that it works on. Each call is made only where its condition holds; else it is
//! answered that it can't be.

use bench_words::Words;
use chip_regs::Regs;
use cmd_block::{Field, write};
use desk_law::{Stage, Taken};
use driver_desk::{BuildFault, Desk};
use driver_script::load;
use rig_types::{Line, Report, Request, Rig, Work};
use std::alloc::{AllocError, Global};
use std::process::Abort;

/// The bytes of host memory.
const MEMORY: u32 = 0x40_0000;
/// More tickets or signals than a test makes.
const MANY: u32 = 10_000;

/// A desk, memory and the registers of the chip.
#[derive(Drop)]
pub struct Stand {
    desk: Desk,
    words: Words,
    regs: Regs,
}

/// The request of a command of submitter 0.
fn request_of(work: &Work, number: u32) -> Option<&Request> {
    let commands = work.submitters.as_slice().first()?;
    let command = commands.as_slice().get(number as usize)?;
    Some(&command.request)
}

impl Stand {
    /// A fresh desk over memory with the script.
    pub fn open(
        rt: &impl Abort,
        alloc: Global,
        rig: &Rig,
        work: &Work,
    ) -> Result<Stand, AllocError> {
        let mut words = Words::new(alloc, MEMORY / 4)?;
        assert!(rt; words.len() == MEMORY && (rig.version == 1 || rig.version == 2));
        load(&mut words, rig.version);
        Ok(Stand {
            desk: Desk::open(alloc, rig, work)?,
            words,
            regs: Regs::new(),
        })
    }

    /// Builds the ticket of a command of submitter 0. None where there is no such command.
    pub fn build(&mut self, work: &Work, number: u32) -> Option<Result<u32, BuildFault>> {
        if self.words.len() != MEMORY
            || self.desk.caller_count() <= 3
            || self.desk.ticket_count() >= MANY
        {
            return None;
        }
        let request = request_of(work, number)?;
        let line = Line {
            submitter: 0,
            number,
        };
        Some(self.desk.build(&mut self.words, line, request))
    }

    /// Links a ticket that was built.
    pub fn link(&mut self, t: u32) -> bool {
        if self.words.len() != MEMORY || t >= self.desk.ticket_count() {
            return false;
        }
        if !matches!(self.desk.stage(t), Stage::Built) {
            return false;
        }
        self.desk.link(&mut self.words, t);
        true
    }

    /// Queues a ticket that was linked.
    pub fn queue(&mut self, t: u32) -> bool {
        if self.words.len() != MEMORY || t >= self.desk.ticket_count() {
            return false;
        }
        if !matches!(self.desk.stage(t), Stage::Linked) {
            return false;
        }
        let caller = u32::from(self.desk.line(t).submitter);
        if caller >= self.desk.caller_count() || self.desk.due(caller) >= MANY {
            return false;
        }
        self.desk.queue(&mut self.words, t);
        true
    }

    /// Queues a ticket that was refused, as the reaper does.
    pub fn queue_again(&mut self, t: u32) -> bool {
        if self.words.len() != MEMORY || t >= self.desk.ticket_count() {
            return false;
        }
        if !matches!(self.desk.stage(t), Stage::Again) {
            return false;
        }
        let callers = self.desk.caller_count();
        if callers <= 3 || self.desk.due(callers - 2) >= MANY {
            return false;
        }
        self.desk.queue(&mut self.words, t);
        true
    }

    /// Writes STATE of a ticket's block, as the script does.
    pub fn write_state(&mut self, t: u32, word: u32) -> bool {
        if self.words.len() != MEMORY || t >= self.desk.ticket_count() {
            return false;
        }
        let block = self.desk.block(t);
        write(&mut self.words, block, Field::State, word);
        true
    }

    /// Writes STATUS of a ticket's block, as the script does.
    pub fn write_status(&mut self, t: u32, word: u32) -> bool {
        if self.words.len() != MEMORY || t >= self.desk.ticket_count() {
            return false;
        }
        let block = self.desk.block(t);
        write(&mut self.words, block, Field::Status, word);
        true
    }

    /// Puts a ticket's block into a done slot, as the script does: so many slots behind the one that is taken next. The done
    /// ring isn't gone round.
    pub fn put_done(&mut self, t: u32, behind: u32) -> bool {
        if t >= self.desk.ticket_count() || behind >= MANY {
            return false;
        }
        let block = self.desk.block(t);
        let slot = self.desk.done_slot().saturating_add(8 * behind);
        if slot % 4 != 0 || slot >= self.words.len() {
            return false;
        }
        self.words.set(slot, block);
        true
    }

    /// Takes the ticket in the next done slot.
    pub fn take_done(&mut self) -> Option<Taken> {
        if self.words.len() != MEMORY {
            return None;
        }
        self.desk.ticket_at(self.words.get(self.desk.done_slot()))?;
        Some(self.desk.take_done(&mut self.words, &mut self.regs))
    }

    /// Unlinks and frees a ticket that ended.
    pub fn free(&mut self, t: u32) -> Option<Report> {
        if self.words.len() != MEMORY || t >= self.desk.ticket_count() {
            return None;
        }
        if !matches!(self.desk.stage(t), Stage::Ended(_)) {
            return None;
        }
        self.desk.unlink(&mut self.words, t);
        if !matches!(self.desk.stage(t), Stage::Unlinked) {
            return None;
        }
        Some(self.desk.free(&self.words, t))
    }

    /// The word at an address of memory.
    pub fn word(&self, address: u32) -> Option<u32> {
        if address % 4 == 0 && address < self.words.len() {
            Some(self.words.get(address))
        } else {
            None
        }
    }

    /// The live ticket that has this tag of a unit.
    pub fn ticket_of(&self, unit: u8, tag: u8) -> Option<u32> {
        self.desk.ticket_of(unit, tag)
    }
}
