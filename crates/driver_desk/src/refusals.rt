//! Why Build refuses a request.

ghost use Rattle.std.specs.Prelude.{◌≡◌, ℕ, ◌==◌, ◌&&◌, ◌||◌, true, not, nat_lt, length, sum};
ghost use Rattle.std.specs.List.{list_any};
ghost use Rattle.target_law.specs.Calls.{is_whole as is_whole_block};
ghost use Rattle.unit_law.specs.Request.{plain, command};
ghost use Rattle.cdb_codec.specs.Forms.{need_of};
ghost use Rattle.cdb_codec.specs.Blocks.{cdb_of};
ghost use Rattle.desk_law.specs.Refusals.{is_same_direction as are_one_direction, has_no_data, kind_of};

use cdb_codec::{Need, cdb_length, need, read_cdb};
use desk_law::Kind;
use rig_types::{Request, Unit};
use scsi_words::Direction;

/// The most segments of a request.
const MOST_SEGMENTS: usize = 16;
/// The most bytes of a request.
const MOST_BYTES: usize = 65_536;

/// Whether a descriptor block has the length of its first byte.
fn is_whole(cdb: &[u8]) -> bool
    ensures { result ≡ is_whole_block cdb.now }
{
    !cdb.is_empty() && cdb.len() == usize::from(cdb_length(cdb[0]))
}

/// The need of a command whose descriptor block is whole.
#[tactic(auto, using(crate::proofs::WholeDescriptors::whole_some, crate::proofs::WholeDescriptors::whole_length))]
fn need_of(cdb: &[u8]) -> Need
    requires { is_whole_block cdb.now ≡ true }
    ensures { result ≡ need_of (cdb_of cdb.now) }
{
    need(&read_cdb(cdb))
}

/// Whether no data go.
fn has_no_data(direction: Direction) -> bool
    ensures { result ≡ has_no_data direction }
{
    matches!(direction, Direction::None)
}

/// Whether data go the same way.
fn is_same_direction(one: Direction, other: Direction) -> bool
    ensures { result ≡ are_one_direction one other }
{
    match (one, other) {
        (Direction::In, Direction::In) => true,
        (Direction::Out, Direction::Out) => true,
        (Direction::None, Direction::None) => true,
        _ => false,
    }
}

/// Whether data go, but no segment is there.
fn has_no_segment(r: &Request) -> bool
    ensures { result ≡ (not (has_no_data r.now.direction) && length r.now.segments == 0) }
{
    !has_no_data(r.direction) && r.segments.as_slice().is_empty()
}

/// Whether a segment has 0 bytes.
fn has_zero_segment(r: &Request) -> bool
    ensures { result ≡ list_any (λ (n : ℕ). n == 0) r.now.segments }
{
    r.segments.as_slice().iter().any(|len| *len == 0)
}

/// How many bytes the buffer has.
fn buffer_length(r: &Request) -> usize
    ensures { result ≡ sum r.now.segments }
{
    r.bytes.as_slice().len()
}

/// Whether a command with this need goes another way, or segments are there without data.
fn goes_elsewhere(r: &Request, need: Need) -> bool
    ensures { result ≡ ((nat_lt 0 need.bytes && not (are_one_direction need.direction r.now.direction)) || (has_no_data r.now.direction && nat_lt 0 (length r.now.segments))) }
{
    need.bytes > 0 && !is_same_direction(need.direction, r.direction)
        || has_no_data(r.direction) && !r.segments.as_slice().is_empty()
}

/// What is wrong with a request to one of these units, None where nothing is.
pub(crate) fn kind_of(units: &[Unit], r: &Request) -> Option<Kind>
    ensures { result ≡ kind_of units.now (plain r.now) }
{
    if usize::from(r.unit) >= units.len() {
        return Some(Kind::NoUnit);
    }
    if !is_whole(r.cdb.as_slice()) {
        return Some(Kind::CdbLength);
    }
    if r.segments.as_slice().len() > MOST_SEGMENTS {
        return Some(Kind::TooManySegments);
    }
    if has_no_segment(r) {
        return Some(Kind::NoSegment);
    }
    if has_zero_segment(r) {
        return Some(Kind::ZeroSegment);
    }
    let has = buffer_length(r);
    if has > MOST_BYTES {
        return Some(Kind::TooLarge);
    }
    let need = need_of(r.cdb.as_slice());
    if goes_elsewhere(r, need) {
        return Some(Kind::Direction);
    }
    if has < need.bytes as usize {
        return Some(Kind::TooShort {
            need: need.bytes,
            has: has as u32,
        });
    }
    None
}
