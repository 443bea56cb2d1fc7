//! The nexus of a connection.

/// What a connection is about: a unit of the target and a tag (SCSI-2 6.8, an I_T_L_Q nexus with its initiator
/// and target left out).
#[derive(Clone, Copy, Debug, PartialEq, Eq)]
pub struct Nexus {
    /// The logical unit number, 0 to 7.
    pub lun: u8,
    /// The tag of the queue tag message.
    pub tag: u8,
}
