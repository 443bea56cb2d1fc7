//! Reports.

ghost use Rattle.std.specs.Prelude.{◌≡◌, List};
ghost use Rattle.rig_types.specs.declared.report.Report.{Report};

use scsi_words::Bytes;
use std::marker::Model;

/// How a ticket ended.
#[derive(Clone, Copy, Debug, PartialEq, Eq)]
pub enum Outcome {
    /// Its unit gave a status.
    Done,
    /// It was aborted.
    Cut,
    /// A reset dropped it.
    Reset,
    /// No target answered.
    NoTarget,
    /// Its unit broke the rules of the bus.
    Broken,
}

/// What a ticket came to.
#[derive(Debug, Drop)]
pub struct Report {
    /// The ticket.
    pub ticket: u32,
    /// The unit's number in the rig.
    pub unit: u8,
    /// How it ended.
    pub outcome: Outcome,
    /// The status byte of SCSI-2; 0xFF for every outcome but Done.
    pub status: u8,
    /// The bytes of the buffer that were not used; its whole length for every outcome but Done.
    pub residual: u32,
    /// How often it was queued.
    pub tries: u8,
    /// The buffer at the end, as long as the request's.
    pub bytes: Bytes,
    /// The 18 bytes that the driver asked for after CHECK CONDITION, or none.
    pub sense: Bytes,
}

/// Reports, in the order in which they were made.
#[derive(Drop)]
pub struct Reports {
    held: Vec<Report>,
}

impl Model for Reports {
    ghost Value = { List Report };

    ghost view = { λ reports. reports.held.items };
}

impl Reports {
    /// The list of a vector.
    pub fn of(held: Vec<Report>) -> Self
        ensures { result ≡ held.items }
    {
        Reports { held }
    }

    /// The reports that it holds.
    pub fn as_slice(&self) -> &[Report]
        ensures { result.now ≡ self.now }
    {
        self.held.as_slice()
    }

    /// The vector, given back.
    pub fn into_vec(self) -> Vec<Report>
        ensures { result.items ≡ self }
    {
        self.held
    }
}
