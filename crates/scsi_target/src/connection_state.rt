//! What stands between the initiator and a target.

ghost use Rattle.std.specs.Prelude.{◌≡◌, ◌<◌, [], ◌∷◌, ◌++◌, length};
ghost use Rattle.target_law.specs.Bytes.{hears};
ghost use Rattle.target_law.specs.Calls.{is_whole};

use arrayvec::ArrayVec;
use cdb_codec::cdb_length;
use target_law::{Nexus, RoguePhase};
use target_session::Connection;

/// The first bytes of a message: none that acts has more than three, so four tell it.
#[derive(Drop)]
pub struct MessageBuffer {
    pub bytes: ArrayVec<u8, 4>,
}

/// The bytes of a command descriptor block so far, at most 12.
#[derive(Drop)]
pub struct Block {
    pub bytes: ArrayVec<u8, 12>,
}

impl MessageBuffer {
    /// No byte yet.
    pub fn new() -> MessageBuffer
        ensures { result.bytes.items ≡ [] }
    {
        MessageBuffer {
            bytes: ArrayVec::new(),
        }
    }

    /// A further byte, of which only the first four are kept.
    pub fn push(&mut self, b: u8)
        ensures { self.new.bytes.items ≡ hears self.old.bytes.items b }
    {
        let _ = self.bytes.try_push(b);
    }

    /// The bytes that are kept.
    pub fn as_slice(&self) -> &[u8]
        ensures { result.now ≡ self.now.bytes.items }
    {
        self.bytes.as_slice()
    }
}

impl Block {
    /// No byte yet.
    pub fn new() -> Block
        ensures { result.bytes.items ≡ [] }
    {
        Block {
            bytes: ArrayVec::new(),
        }
    }

    /// Whether it has the length of its first byte.
    pub fn is_whole(&self) -> bool
        ensures { result ≡ is_whole self.now.bytes.items }
    {
        match self.bytes.first() {
            Some(code) => self.bytes.len() == cdb_length(*code) as usize,
            None => false,
        }
    }

    /// A further byte of a block that isn't whole.
    pub fn push(&mut self, b: u8)
        requires { length self.old.bytes.items < 12 }
        ensures { self.new.bytes.items ≡ self.old.bytes.items ++ b ∷ [] }
    {
        self.bytes.push(b);
    }

    /// Its bytes.
    pub fn as_slice(&self) -> &[u8]
        ensures { result.now ≡ self.now.bytes.items }
    {
        self.bytes.as_slice()
    }
}

/// The link of a target.
#[derive(Drop)]
pub enum ConnectionState {
    /// The target isn't connected.
    BusFree,
    /// It was selected, and hears a message.
    Selected(MessageBuffer),
    /// A message named a nexus, and it takes a command descriptor block.
    TakingCommand(Nexus, Block),
    /// A task is connected.
    TaskConnected(Connection),
    /// Its units break the rules. The nexus is that of its reselection.
    RogueConnected(RoguePhase, Option<Nexus>),
}
