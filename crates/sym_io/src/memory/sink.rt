//! The sink in memory.

ghost use Rattle.std.specs.Io.KnownBytes.{WriteAppends};
ghost use Rattle.std.specs.Io.{WritesAtMost};
ghost use Rattle.std.specs.Prelude.{◌≡◌, ◌+◌, ◌<◌, ◌≤◌, ◌⊎◌, ◌↔◌, [], if◌then◌else◌, IfOk, IsErr, IsTrue, OnErr, Some, length, vec_len, vec_capacity};
ghost use Rattle.sym_io.specs.Causes.{Rose};
ghost use Rattle.sym_io.specs.Memory.{SinkState, done_write, failed_write, taken, write_fails};

use crate::sink::{Failed, Sink};
use scsi_words::Counts;
use std::alloc::{AllocError, Global};
use std::marker::Model;

/// A sink in memory. It takes at most so many bytes at a call, has room for so many in all, and fails at the calls
/// that it is given, counted from 1. A write takes no memory.
#[derive(Drop)]
pub struct MemorySink {
    bytes: Vec<u8>,
    room: u32,
    most: u32,
    failing: Counts,
    calls: u32,
    faults: u64,
}

impl Model for MemorySink {
    ghost Value = { SinkState };

    ghost view = { λ s. record { bytes = s.bytes.items; room = s.room; most = s.most; failing = s.failing; calls = s.calls; faults = s.faults } };

    ghost invariant = { λ s. (vec_len s.bytes + s.room ≤ vec_capacity s.bytes) × (1 ≤ s.most) };
}

impl MemorySink {
    /// An empty sink with room for `room` bytes, which is reserved here, and which takes at most `most` bytes at a
    /// call, at least 1. The calls whose numbers are in `failing` fail.
    pub fn new(
        alloc: Global,
        room: u32,
        most: u32,
        failing: Counts,
    ) -> Result<MemorySink, AllocError>
        requires { 1 ≤ most }
        ensures { IfOk result (λ s. s ≡ record { bytes = []; room = room; most = most; failing = failing; calls = 0; faults = 0 }) }
    {
        let bytes = Vec::with_capacity(alloc, room as usize)?;
        Ok(MemorySink {
            bytes,
            room,
            most,
            failing,
            calls: 0,
            faults: 0,
        })
    }

    /// What was written.
    pub fn bytes(&self) -> &[u8]
        ensures { result.now ≡ self.now.bytes }
    {
        self.bytes.as_slice()
    }
}

impl Sink for MemorySink {
    ghost written = { λ s. Some s.bytes };

    ghost faults = { λ s. s.faults };

    /// Takes the least of the piece's length, the most at a call and the room that is left. It fails exactly at the
    /// calls that are to fail, and where no room is left for a piece that isn't empty.
    fn write(&mut self, piece: &[u8]) -> Result<usize, Failed>
        ensures fails { IsErr result ↔ IsTrue (write_fails self.old piece.now) }
        ensures takes { IfOk result (λ n. n ≡ taken self.old piece.now) }
        ensures step { self.new ≡ (if write_fails self.old piece.now then failed_write self.old else done_write self.old piece.now) }
        ensures bound { WritesAtMost result piece.now }
        ensures bytes { WriteAppends (Some self.old.bytes) (Some self.new.bytes) result piece.now }
        ensures later { self.old.faults ≤ self.new.faults }
        ensures failed { OnErr result (Rose self.old.faults self.new.faults) }
        ensures none_taken { IfOk result (λ n. n ≡ 0 → 0 < length piece.now → Rose self.old.faults self.new.faults) }
        ensures steady { IfOk result (λ n. 0 < n ⊎ (length piece.now ≡ 0) → self.new.faults ≡ self.old.faults) }
    {
        self.calls = self.calls.saturating_add(1);
        let is_full = self.room == 0 && !piece.is_empty();
        if is_full || self.failing.as_slice().contains(&self.calls) {
            self.faults = self.faults.saturating_add(1);
            return Err(Failed);
        }
        let taken = piece.len().min(self.most as usize).min(self.room as usize);
        match self.bytes.extend_from_slice(&piece[..taken]) {
            Ok(()) => {}
            Err(_) => unreachable!(),
        }
        self.room -= taken as u32;
        Ok(taken)
    }
}
