//! Bytes, and whether a command is whole.

ghost use Rattle.std.specs.Prelude.{◌≡◌, not};
ghost use Rattle.target_law.specs.Sound.{HaveDistinctTags};
ghost use Rattle.target_law.specs.Target.{linked};
ghost use Rattle.target_law.specs.Calls.{link_byte, sent_if, link_takes, took_if, whole_by, is_whole};
ghost use Rattle.scsi_target.specs.Views.{link_of, block_took, HoldsOn, IsBlock, IsHeld};

use crate::connection_state::{Block, ConnectionState};
use crate::device::Device;

impl Device {
    /// The next byte for the initiator. `None` exactly where no phase is shown, or the shown phase has no byte left
    /// in that direction: nothing changes then. A byte of a message waits for ACK to be released.
    pub fn byte_in(&mut self) -> Option<u8>
        ensures byte { result ≡ link_byte self.old.target.link }
        ensures state { self.new ≡ record {
          target = linked self.old.target (sent_if (link_byte self.old.target.link) self.old.target.link);
          rooms = self.old.rooms;
        } }
    {
        send(&mut self.link)
    }

    /// A byte from the initiator. False exactly where no phase is shown, or the shown phase takes no byte any more:
    /// nothing changes then.
    pub fn byte_out(&mut self, b: u8) -> bool
        ensures taken { result ≡ link_takes self.old.target.link }
        ensures state { self.new ≡ record {
          target = linked self.old.target (took_if (link_takes self.old.target.link) self.old.target.link b);
          rooms = self.old.rooms;
        } }
    {
        take(&mut self.link, b)
    }

    /// Whether COMMAND has taken its last byte, and no task was made of it. No two tasks of a unit have one tag, the
    /// connected one and those that wait.
    pub fn cdb_whole(&self) -> bool
        ensures whole { result ≡ whole_by self.now.target.link }
        ensures tags { HaveDistinctTags self.now.target }
    {
        is_whole(&self.link)
    }
}

/// Sends the byte that the target has for the initiator, if it has one.
fn send(link: &mut ConnectionState) -> Option<u8>
    requires { IsHeld link.old }
    ensures byte { result ≡ link_byte (link_of link.old) }
    ensures state { link_of link.new ≡ sent_if (link_byte (link_of link.old)) (link_of link.old) }
    ensures held { HoldsOn link.old link.new }
{
    match link {
        ConnectionState::TaskConnected(connection) => connection.byte_in(),
        ConnectionState::RogueConnected(shown, named) => {
            let byte = rogue_target::byte_for(*shown, *named)?;
            *shown = rogue_target::sent(*shown);
            Some(byte)
        }
        _ => None,
    }
}

/// Takes a byte of the initiator, if the target takes one.
fn take(link: &mut ConnectionState, b: u8) -> bool
    requires { IsHeld link.old }
    ensures taken { result ≡ link_takes (link_of link.old) }
    ensures state { link_of link.new ≡ took_if (link_takes (link_of link.old)) (link_of link.old) b }
    ensures held { HoldsOn link.old link.new }
{
    match link {
        ConnectionState::BusFree => false,
        ConnectionState::Selected(heard) => {
            heard.push(b);
            true
        }
        ConnectionState::TakingCommand(_, block) => take_block(block, b),
        ConnectionState::TaskConnected(connection) => connection.byte_out(b),
        ConnectionState::RogueConnected(shown, _) => {
            let takes = rogue_target::takes(*shown);
            *shown = rogue_target::took(*shown, b);
            takes
        }
    }
}

/// Takes a byte of a command descriptor block that isn't whole.
fn take_block(block: &mut Block, b: u8) -> bool
    requires { IsBlock block.old.bytes.items }
    ensures taken { result ≡ not (is_whole block.old.bytes.items) }
    ensures state { block.new.bytes.items ≡ block_took (is_whole block.old.bytes.items) block.old.bytes.items b }
    ensures held { IsBlock block.new.bytes.items }
{
    if block.is_whole() {
        return false;
    }
    block.push(b);
    true
}

/// Whether a command descriptor block is whole.
fn is_whole(link: &ConnectionState) -> bool
    ensures { result ≡ whole_by (link_of link.now) }
{
    match link {
        ConnectionState::TakingCommand(_, block) => block.is_whole(),
        _ => false,
    }
}
