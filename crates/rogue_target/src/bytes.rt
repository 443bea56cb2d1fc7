//! The phases of such a target, byte by byte.

ghost use Rattle.std.specs.Prelude.{◌≡◌, ◌<◌, Some, IfSome};
ghost use Rattle.target_law.specs.Bytes.{name_byte};
ghost use Rattle.target_law.specs.RoguePhases.{rogue_phase, rogue_byte, rogue_less, rogue_sent, rogue_takes, rogue_took, rogue_heard, named_byte};
ghost use Rattle.target_law.specs.declared.rogue_phase.RoguePhase.TheVariants.{Command};

use cdb_codec::cdb_length;
use scsi_words::{Message, Phase, message_byte};
use target_law::{Nexus, ReselectByte, RoguePhase};

/// The phase that the target shows, `None` where it is to choose.
pub fn phase_of(shown: RoguePhase) -> Option<Phase>
    ensures { result ≡ rogue_phase shown }
{
    match shown {
        RoguePhase::ToChoose => None,
        RoguePhase::MessageOut => Some(Phase::MsgOut),
        RoguePhase::DataIn { .. } => Some(Phase::DataIn),
        RoguePhase::DataOut { .. } => Some(Phase::DataOut),
        RoguePhase::Command { .. } => Some(Phase::Command),
        RoguePhase::Status { .. } => Some(Phase::Status),
        RoguePhase::MessageIn { .. } | RoguePhase::Reselection { .. } => Some(Phase::MsgIn),
    }
}

/// The byte that the target has for the initiator, if it has one. `named` is the nexus that its reselection named.
///
/// Condition: the LUN of the nexus is below 8.
pub fn byte_for(shown: RoguePhase, named: Option<Nexus>) -> Option<u8>
    requires { IfSome named (λ n. n.lun < 8) }
    ensures { result ≡ rogue_byte shown named }
{
    match shown {
        RoguePhase::DataIn { byte, .. } | RoguePhase::Status { byte } => Some(byte),
        RoguePhase::MessageIn { byte, sent: false } => Some(byte),
        RoguePhase::Reselection { part, sent: false } => Some(named_byte(part, named)),
        _ => None,
    }
}

/// A byte of the name, where the reselection gave one.
fn named_byte(part: ReselectByte, named: Option<Nexus>) -> u8
    requires { IfSome named (λ n. n.lun < 8) }
    ensures { result ≡ named_byte part named }
{
    match named {
        Some(nexus) => name_byte(part, nexus),
        None => 0,
    }
}

/// A byte of the name by which a target reselects.
fn name_byte(part: ReselectByte, nexus: Nexus) -> u8
    requires { nexus.lun < 8 }
    ensures { result ≡ name_byte part nexus.lun nexus.tag }
{
    match part {
        ReselectByte::Identify => message_byte(&Message::Identify {
            may_leave: false,
            lun: nexus.lun,
        }),
        ReselectByte::SimpleQueueTag => message_byte(&Message::SimpleTag),
        ReselectByte::Tag => nexus.tag,
    }
}

/// What the target shows after it sent the byte that it had.
pub fn sent(shown: RoguePhase) -> RoguePhase
    ensures { result ≡ rogue_sent shown }
{
    match shown {
        RoguePhase::DataIn { left, byte } if left > 1 => RoguePhase::DataIn {
            left: left - 1,
            byte,
        },
        RoguePhase::DataIn { .. } | RoguePhase::Status { .. } => RoguePhase::ToChoose,
        RoguePhase::MessageIn { byte, .. } => RoguePhase::MessageIn { byte, sent: true },
        RoguePhase::Reselection { part, .. } => RoguePhase::Reselection { part, sent: true },
        other => other,
    }
}

/// Whether the target takes a byte.
pub fn takes(shown: RoguePhase) -> bool
    ensures { result ≡ rogue_takes shown }
{
    matches!(
        shown,
        RoguePhase::MessageOut | RoguePhase::DataOut { .. } | RoguePhase::Command { .. }
    )
}

/// What the target shows after it took a byte.
pub fn took(shown: RoguePhase, b: u8) -> RoguePhase
    ensures { result ≡ rogue_took shown b }
{
    match shown {
        RoguePhase::DataOut { left } if left > 1 => RoguePhase::DataOut { left: left - 1 },
        RoguePhase::DataOut { .. } => RoguePhase::ToChoose,
        RoguePhase::Command { left: None } => commanded(cdb_length(b)),
        RoguePhase::Command { left: Some(left) } => commanded(left),
        other => other,
    }
}

/// COMMAND after one of `left` bytes.
fn commanded(left: u8) -> RoguePhase
    ensures { result ≡ rogue_less left (λ n. Command (Some n)) }
{
    if left > 1 {
        RoguePhase::Command {
            left: Some(left - 1),
        }
    } else {
        RoguePhase::ToChoose
    }
}

/// What the target shows after ACK was released. A name goes on to its next part.
pub fn heard(shown: RoguePhase) -> RoguePhase
    ensures { result ≡ rogue_heard shown }
{
    match shown {
        RoguePhase::MessageIn { sent: true, .. }
        | RoguePhase::Reselection {
            part: ReselectByte::Tag,
            sent: true,
        } => { RoguePhase::ToChoose }
        RoguePhase::Reselection {
            part: ReselectByte::Identify,
            sent: true,
        } => RoguePhase::Reselection {
            part: ReselectByte::SimpleQueueTag,
            sent: false,
        },
        RoguePhase::Reselection {
            part: ReselectByte::SimpleQueueTag,
            sent: true,
        } => RoguePhase::Reselection {
            part: ReselectByte::Tag,
            sent: false,
        },
        other => other,
    }
}
