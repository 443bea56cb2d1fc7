//! The data moves of the driver script: sixteen segment moves and two context moves for each data phase.

ghost use Rattle.std.specs.Prelude.{◌≡◌, ◌<◌, ◌≤◌, ◌^◌, ◌+◌, ◌*◌, IfSome};
ghost use Rattle.phase_fix.specs.Moves.{IsEntry, count_field, address_field, number_of, segment_move, context_move, move_at, context_label};

use cmd_block::Field;
use driver_script::{Name, label};

/// The segments of a block.
const SEGMENTS: u32 = 16;
/// The mismatch contexts of a block.
const CONTEXTS: u32 = 2;
/// The bytes from one segment move to the next: one instruction.
const SEGMENT_MOVE: u32 = 8;
/// The bytes from one context move to the next: the move, a load of its return, and the jump there.
const CONTEXT_MOVE: u32 = 0x18;

/// The phase of a data move.
#[derive(Clone, Copy)]
pub enum DataPhase {
    /// DATA IN: from the target to the host.
    In,
    /// DATA OUT: from the host to the target.
    Out,
}

/// The table entry of a block that a data move moves.
#[derive(Clone, Copy)]
pub enum Entry {
    /// A segment, below 16.
    Segment(u8),
    /// A mismatch context, below 2.
    Context(u8),
}

/// A data move of the script.
#[derive(Clone, Copy)]
pub struct DataMove {
    /// The phase that it waits for.
    pub phase: DataPhase,
    /// What it moves.
    pub entry: Entry,
}

impl Entry {
    /// The field with the entry's count.
    pub fn count(self) -> Field
        ensures { result ≡ count_field self }
    {
        match self {
            Entry::Segment(j) => Field::SegCount(j),
            Entry::Context(k) => Field::CtxCount(k),
        }
    }

    /// The field with the entry's address.
    pub fn address(self) -> Field
        ensures { result ≡ address_field self }
    {
        match self {
            Entry::Segment(j) => Field::SegAt(j),
            Entry::Context(k) => Field::CtxAt(k),
        }
    }
}

impl DataPhase {
    /// The address of the move of a context, 0 or 1, in this phase.
    pub fn context_move(self, context: u8) -> u32
        requires { context < 2 }
        ensures { result ≡ context_label self context }
    {
        label(match (self, context) {
            (DataPhase::In, 0) => Name::Pmin0,
            (DataPhase::In, _) => Name::Pmin1,
            (DataPhase::Out, 0) => Name::Pmout0,
            (DataPhase::Out, _) => Name::Pmout1,
        })
    }
}

// The number of the place at `address` among `places` places, `apart` bytes from one to the next, from `first` on.
fn number_of(first: u32, apart: u32, places: u32, address: u32) -> Option<u8>
    requires apart { 0 < apart }
    requires places { places ≤ 256 }
    requires end { first + apart * places < 2 ^ 32 }
    ensures { result ≡ number_of first apart places address }
{
    if address >= first && address < first + apart * places && (address - first) % apart == 0 {
        Some(((address - first) / apart) as u8)
    } else {
        None
    }
}

/// The segment move of a phase at `address`.
fn segment_move(phase: DataPhase, address: u32) -> Option<DataMove>
    ensures { result ≡ segment_move phase address }
{
    let first = match phase {
        DataPhase::In => label(Name::Datain),
        DataPhase::Out => label(Name::Dataout),
    };
    let number = number_of(first, SEGMENT_MOVE, SEGMENTS, address)?;
    Some(DataMove {
        phase,
        entry: Entry::Segment(number),
    })
}

/// The context move of a phase at `address`.
fn context_move(phase: DataPhase, address: u32) -> Option<DataMove>
    ensures { result ≡ context_move phase address }
{
    let number = number_of(phase.context_move(0), CONTEXT_MOVE, CONTEXTS, address)?;
    Some(DataMove {
        phase,
        entry: Entry::Context(number),
    })
}

/// The data move at a script address, where there is one.
pub fn move_at(address: u32) -> Option<DataMove>
    ensures found { result ≡ move_at address }
    ensures entry { IfSome result (λ x. IsEntry x.entry) }
{
    segment_move(DataPhase::In, address)
        .or(segment_move(DataPhase::Out, address))
        .or(context_move(DataPhase::In, address))
        .or(context_move(DataPhase::Out, address))
}
