//! Whose a word of host memory is. Tickets are looked through from the first that lives on.

ghost use Rattle.std.specs.Prelude.{◌≡◌, ◌<◌, length, position};
ghost use Rattle.std.specs.List.{list_any};
ghost use Rattle.desk_law.specs.declared.ticket.Piece.{Piece};
ghost use Rattle.desk_law.specs.Desk.{ticket, lives};
ghost use Rattle.world_law.specs.Owners.{is_within, has_block_at, has_chunk_at, table_owner, ticket_owner, owner_of};

use crate::state::State;
use desk_law::{Piece, Stage};
use host_map::{BLOCK_BYTES, BUFFERS, CHAINS, DONE_RING, FRONT, START_RING, TAG_TABLES};
use world_law::Owner;

/// The first address behind the chains.
const CHAINS_END: u32 = 0x9000;
/// The size of the four tag tables of a unit.
const TABLE_BYTES: u32 = 0x400;

/// Whether an address is one of so many from another on.
fn is_within(from: u32, len: u32, address: u32) -> bool
    ensures { result ≡ is_within from len address }
{
    from <= address && u64::from(address) < u64::from(from) + u64::from(len)
}

/// Whether the chunk of one of these segments holds an address.
fn has_chunk(pieces: &[Piece], address: u32) -> bool
    ensures { result ≡ list_any (λ (p : Piece). is_within p.chunk.base p.chunk.size address) pieces.now }
{
    pieces.iter().any(|piece| is_within(piece.chunk.base, piece.chunk.size, address))
}

impl State {
    /// Whether a ticket lives. It was built.
    fn is_live(&self, t: u32) -> bool
        requires { t < length self.now.world.desk.tickets }
        ensures { result ≡ lives (ticket self.now.world.desk t) }
    {
        !matches!(self.bus.tickets.desk.stage(t), Stage::Freed)
    }

    /// Whether a ticket lives and its block holds an address. It was built.
    fn has_block_at(&self, t: u32, address: u32) -> bool
        requires { t < length self.now.world.desk.tickets }
        ensures { result ≡ has_block_at address (ticket self.now.world.desk t) }
    {
        self.is_live(t) && is_within(self.bus.tickets.desk.block(t), BLOCK_BYTES, address)
    }

    /// Whether a ticket lives and one of its chunks holds an address. It was built.
    fn has_chunk_at(&self, t: u32, address: u32) -> bool
        requires { t < length self.now.world.desk.tickets }
        ensures { result ≡ has_chunk_at address (ticket self.now.world.desk t) }
    {
        self.is_live(t) && has_chunk(self.bus.tickets.desk.pieces(t), address)
    }

    /// The first live ticket whose block holds an address.
    fn ticket_with_block_at(&self, address: u32) -> Option<u32>
        ensures { result ≡ position (has_block_at address) self.now.world.desk.tickets }
    {
        for t in self.first..self.ticket_count() {
            if self.has_block_at(t, address) {
                return Some(t);
            }
        }
        None
    }

    /// The first live ticket that has a chunk which holds an address.
    fn ticket_with_chunk_at(&self, address: u32) -> Option<u32>
        ensures { result ≡ position (has_chunk_at address) self.now.world.desk.tickets }
    {
        for t in self.first..self.ticket_count() {
            if self.has_chunk_at(t, address) {
                return Some(t);
            }
        }
        None
    }

    /// The owner of the tag tables of a unit with this number.
    fn table_owner(&self, unit: u32) -> Owner
        requires { unit < 256 }
        ensures { result ≡ table_owner (length self.now.world.desk.units) unit }
    {
        if (unit as usize) < self.rig().units.as_slice().len() {
            Owner::Table(unit as u8)
        } else {
            Owner::Free
        }
    }

    /// The owner of a word behind the chains.
    fn ticket_owner(&self, address: u32) -> Owner
        ensures { result ≡ ticket_owner self.now.world.desk address }
    {
        if address < BUFFERS {
            match self.ticket_with_block_at(address) {
                Some(t) => Owner::Block(t),
                None => Owner::Free,
            }
        } else {
            match self.ticket_with_chunk_at(address) {
                Some(t) => Owner::Chunk(t),
                None => Owner::Free,
            }
        }
    }

    /// The owner of a word of host memory, by its address.
    pub fn owner(&self, address: u32) -> Owner
        ensures { result ≡ owner_of self.now.world.desk address }
    {
        if address < FRONT {
            Owner::Program
        } else if address < START_RING {
            Owner::Control
        } else if address < DONE_RING {
            Owner::StartRing
        } else if address < TAG_TABLES {
            Owner::DoneRing
        } else if address < CHAINS {
            self.table_owner((address - TAG_TABLES) / TABLE_BYTES)
        } else if address < CHAINS_END {
            Owner::Program
        } else {
            self.ticket_owner(address)
        }
    }
}
