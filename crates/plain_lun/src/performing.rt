//! What a unit does with a command.

ghost use Rattle.std.specs.Prelude.{◌≡◌, ◌*◌, ◌≤◌, true, min, [], ◌++◌, length, take, drop};
ghost use Rattle.cdb_codec.specs.Forms.{need_of};
ghost use Rattle.plain_lun.specs.Performing.{perform, wants_now, good, checked, sensed, sense_now, holds, inquiry_data, capacity_data, transferred, stored, blocks_at};
ghost use Rattle.scsi_words.specs.declared.phases.kinds.Direction.TheVariants.{In, Out};
ghost use Rattle.scsi_words.specs.declared.statuses.kinds.Status.TheVariants.{Good, Check};

use crate::lun::{BLOCK_BYTES, Lun};
use crate::sense::{SENSE_BYTES, SenseCode};
use cdb_codec::{Cdb, Need};
use scsi_words::{Direction, Status};

/// Additional sense code: invalid command operation code.
const BAD_OPERATION: u8 = 0x20;
/// Additional sense code: logical block address out of range.
const BAD_ADDRESS: u8 = 0x21;
/// Additional sense code: invalid field in the command descriptor block.
const BAD_FIELD: u8 = 0x24;

/// Standard inquiry data.
const INQUIRY_DATA: [u8; 36] = *b"\x00\x00\x02\x02\x1F\x00\x00\x02SYMBENCHPLAIN UNIT      0001";

/// How a command ended. The data are the first `sent` bytes of the buffer that was handed in.
#[derive(Clone, Copy, Debug, PartialEq, Eq)]
pub struct Answer {
    /// GOOD or CHECK CONDITION.
    pub status: Status,
    /// How many bytes of data there are.
    pub sent: u32,
}

impl Lun {
    /// Which way and how many bytes the unit would move for this command now: what the command needs
    /// where it would answer GOOD, else nothing.
    #[tactic(auto, unfolding(crate::specs::Performing::wants_now, crate::specs::Performing::perform))]
    pub fn wants(&self, c: &Cdb) -> Need
        ensures { result ≡ wants_now self.now c.now }
    {
        let (direction, bytes) = match *c {
            Cdb::Inquiry { len } => (Direction::In, (len as u32).min(36)),
            Cdb::RequestSense { len } => (Direction::In, (len as u32).min(18)),
            _ if self.attention => (Direction::None, 0),
            Cdb::Read { lba, blocks, .. } if self.holds(lba, blocks) => (
                Direction::In,
                512 * blocks,
            ),
            Cdb::Write { lba, blocks, .. } if self.holds(lba, blocks) => (
                Direction::Out,
                512 * blocks,
            ),
            Cdb::ReadCapacity => (Direction::In, 8),
            _ => (Direction::None, 0),
        };
        Need { direction, bytes }
    }

    /// The status with which the unit would answer this command now.
    #[tactic(auto, unfolding(crate::specs::Performing::perform))]
    pub fn status_now(&self, c: &Cdb) -> Status
        ensures { result ≡ (perform self.now c.now []).answer.status }
    {
        match *c {
            Cdb::Inquiry { .. } | Cdb::RequestSense { .. } => Status::Good,
            _ if self.attention => Status::Check,
            Cdb::TestUnitReady | Cdb::ReadCapacity => Status::Good,
            Cdb::Read { lba, blocks, .. } if self.holds(lba, blocks) => Status::Good,
            Cdb::Write { lba, blocks, .. } if self.holds(lba, blocks) => Status::Good,
            _ => Status::Check,
        }
    }

    /// Performs a command. A write stores `received`; data go to the front of `out`, and the rest of
    /// `out` stays.
    ///
    /// Condition: for a command that sends, `out` has at least as many bytes as `wants` says, and for a
    /// WRITE `received` has just as many.
    #[tactic(auto, unfolding(crate::specs::Performing::perform, crate::specs::Performing::wants_now))]
    pub fn perform(&mut self, c: &Cdb, received: &[u8], out: &mut [u8]) -> Answer
        requires room { (need_of c.now).direction ≡ In →
            (wants_now self.old c.now).bytes ≤ length out.old }
        requires whole { (need_of c.now).direction ≡ Out →
            length received.now ≡ (wants_now self.old c.now).bytes }
        ensures unit { self.new ≡ (perform self.old c.now received.now).unit }
        ensures status { result.status ≡ (perform self.old c.now received.now).answer.status }
        ensures sent { result.sent ≡ length (perform self.old c.now received.now).answer.bytes }
        ensures bytes { out.new ≡
            (perform self.old c.now received.now).answer.bytes ++
            drop (length (perform self.old c.now received.now).answer.bytes) out.old }
    {
        match *c {
            Cdb::Inquiry { len } => self.inquiry(len, out),
            Cdb::RequestSense { len } => self.request_sense(len, out),
            _ if self.attention => self.check(SenseCode::reset_occurred()),
            Cdb::TestUnitReady => self.good(0),
            Cdb::Read { lba, blocks, .. } => self.read(lba, blocks, out),
            Cdb::Write { lba, blocks, .. } => self.write(lba, blocks, received),
            Cdb::ReadCapacity => self.read_capacity(out),
            Cdb::BadField => self.check(SenseCode::illegal(BAD_FIELD)),
            Cdb::Other => self.check(SenseCode::illegal(BAD_OPERATION)),
        }
    }

    #[tactic(auto, unfolding(crate::specs::Performing::inquiry_data))]
    fn inquiry(&mut self, len: u8, out: &mut [u8]) -> Answer
        requires { min len 36 ≤ length out.old }
        ensures unit { self.new ≡ (good self.old self.old.disk []).unit }
        ensures answer { result ≡ record { status = Good; sent = min len 36 } }
        ensures bytes { out.new ≡ take len inquiry_data ++ drop (min len 36) out.old }
    {
        let sent = INQUIRY_DATA.len().min(len as usize);
        out[..sent].copy_from_slice(&INQUIRY_DATA[..sent]);
        self.good(sent as u32)
    }

    #[tactic(auto, unfolding(crate::specs::Performing::sense_now, crate::specs::Performing::sense_data))]
    fn request_sense(&mut self, len: u8, out: &mut [u8]) -> Answer
        requires { min len 18 ≤ length out.old }
        ensures unit { self.new ≡ (sensed self.old len).unit }
        ensures answer { result ≡ record { status = Good; sent = min len 18 } }
        ensures bytes { out.new ≡ take len (sense_now self.old) ++ drop (min len 18) out.old }
    {
        let sent = SENSE_BYTES.min(len as usize);
        let data = self.sense_to_give().bytes();
        out[..sent].copy_from_slice(&data[..sent]);
        self.attention = self.attention && self.sense.is_some();
        self.good(sent as u32)
    }

    #[tactic(auto, unfolding(crate::specs::Performing::holds, crate::specs::Performing::blocks_at))]
    fn read(&mut self, lba: u32, blocks: u32, out: &mut [u8]) -> Answer
        requires { holds self.old lba blocks ≡ true → 512 * blocks ≤ length out.old }
        ensures unit { self.new ≡ (transferred (holds self.old lba blocks) self.old self.old.disk []).unit }
        ensures status { result.status ≡
            (transferred (holds self.old lba blocks) self.old self.old.disk []).answer.status }
        ensures sent { result.sent ≡
            length (transferred (holds self.old lba blocks) self.old self.old.disk
            (blocks_at self.old.disk lba blocks)).answer.bytes }
        ensures bytes { out.new ≡
            (transferred (holds self.old lba blocks) self.old self.old.disk
            (blocks_at self.old.disk lba blocks)).answer.bytes ++
            drop result.sent out.old }
    {
        if !self.holds(lba, blocks) {
            return self.check(SenseCode::illegal(BAD_ADDRESS));
        }
        let at = lba as usize * BLOCK_BYTES;
        let bytes = blocks as usize * BLOCK_BYTES;
        out[..bytes].copy_from_slice(&self.disk[at..at + bytes]);
        self.good(bytes as u32)
    }

    #[tactic(auto, unfolding(crate::specs::Performing::holds, crate::specs::Performing::stored))]
    fn write(&mut self, lba: u32, blocks: u32, received: &[u8]) -> Answer
        requires { holds self.old lba blocks ≡ true → length received.now ≡ 512 * blocks }
        ensures unit { self.new ≡
            (transferred (holds self.old lba blocks) self.old
            (stored self.old.disk (512 * lba) received.now) []).unit }
        ensures status { result.status ≡
            (transferred (holds self.old lba blocks) self.old self.old.disk []).answer.status }
        ensures sent { result.sent ≡ 0 }
    {
        if !self.holds(lba, blocks) {
            return self.check(SenseCode::illegal(BAD_ADDRESS));
        }
        let at = lba as usize * BLOCK_BYTES;
        self.disk[at..at + received.len()].copy_from_slice(received);
        self.good(0)
    }

    #[tactic(auto, unfolding(crate::specs::Performing::capacity_data))]
    fn read_capacity(&mut self, out: &mut [u8]) -> Answer
        requires { 8 ≤ length out.old }
        ensures unit { self.new ≡ (good self.old self.old.disk []).unit }
        ensures answer { result ≡ record { status = Good; sent = 8 } }
        ensures bytes { out.new ≡ capacity_data self.old ++ drop 8 out.old }
    {
        let last = (self.disk.len() / BLOCK_BYTES - 1) as u32;
        out[..4].copy_from_slice(&last.to_be_bytes());
        out[4..8].copy_from_slice(&(BLOCK_BYTES as u32).to_be_bytes());
        self.good(8)
    }

    /// All these blocks are the unit's.
    #[tactic(auto, unfolding(crate::specs::Performing::holds))]
    fn holds(&self, lba: u32, blocks: u32) -> bool
        ensures test { result ≡ holds self.now lba blocks }
        ensures few { result ≡ true → blocks ≤ 4096 }
    {
        lba as u64 + blocks as u64 <= (self.disk.len() / BLOCK_BYTES) as u64
    }

    /// GOOD, which removes the old sense.
    fn good(&mut self, sent: u32) -> Answer
        ensures unit { self.new ≡ (good self.old self.old.disk []).unit }
        ensures answer { result ≡ record { status = Good; sent = sent } }
    {
        self.sense = None;
        Answer {
            status: Status::Good,
            sent,
        }
    }

    /// CHECK CONDITION with this sense, which clears the attention.
    fn check(&mut self, sense: SenseCode) -> Answer
        ensures unit { self.new ≡ (checked self.old sense).unit }
        ensures answer { result ≡ record { status = Check; sent = 0 } }
    {
        self.sense = Some(sense);
        self.attention = false;
        Answer {
            status: Status::Check,
            sent: 0,
        }
    }
}
