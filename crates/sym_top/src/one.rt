//! The command `one`: one READ(10) of one block, by the straight script.

ghost use Rattle.std.specs.Prelude.{◌≡◌, ◌==◌, if◌then◌else◌, length, IfOk};
ghost use Rattle.bench_words.specs.Memory.{bytes_at};
ghost use Rattle.scsi_words.specs.Statuses.{status_code};
ghost use Rattle.scsi_words.specs.declared.statuses.kinds.Status.TheVariants.{Good};
ghost use Rattle.one_target.specs.Reporting.{report_in};
ghost use Rattle.sym_top.specs.OneText.{IsOneText};

use bench_words::Words;
use one_target::OneBus;
use report_lines::report_lines;
use rig_types::{Outcome, Report};
use scsi_words::{Bytes, Direction, Status};
use std::alloc::{AllocError, Global};
use straight_run::straight;

/// The length of the request in bytes: one block.
const LENGTH: u32 = 512;
/// Where the buffer of the straight script begins.
const BUFFER: u32 = 0x20_0000;
/// Where its status byte lies.
const STATUS: u32 = 0x1_0014;

/// The text of the report of one READ(10) of the block at `lba` on unit 0.0. Its one error is want of memory.
#[tactic(none)]
pub fn one(alloc: Global, lba: u32) -> Result<Bytes, AllocError>
    ensures { IfOk result (λ text. IsOneText lba text) }
{
    let mut bus = OneBus::open(alloc)?;
    let end = straight(alloc, &mut bus, lba)?;
    let report = report_of(alloc, &end.words)?;
    report_lines(alloc, 0, 0, Direction::In, &report)
}

/// The report of ticket 0, by the status byte and the buffer that host memory holds.
fn report_of(alloc: Global, words: &Words) -> Result<Report, AllocError>
    requires { length words.now ≡ 4194304 }
    ensures { IfOk result (λ report. report ≡ report_in words.now) }
{
    let status = words.byte(STATUS);
    let bytes = buffer_of(alloc, words)?;
    Ok(Report {
        ticket: 0,
        unit: 0,
        outcome: Outcome::Done,
        status,
        residual: residual_of(status),
        tries: 1,
        bytes,
        sense: Bytes::of(Vec::new(alloc)),
    })
}

/// The bytes of the buffer in host memory.
#[tactic(none)]
fn buffer_of(alloc: Global, words: &Words) -> Result<Bytes, AllocError>
    requires { length words.now ≡ 4194304 }
    ensures { IfOk result (λ bytes. bytes ≡ bytes_at words.now 0x200000 512) }
{
    let mut bytes = vec![in alloc; 0u8; 512]?;
    words.copy_out(BUFFER, bytes.as_mut_slice());
    Ok(Bytes::of(bytes))
}

/// The residual of a read of one block with this status.
fn residual_of(status: u8) -> u32
    ensures { result ≡ (if status == status_code Good then 0 else 512) }
{
    if status == Status::Good.byte() {
        0
    } else {
        LENGTH
    }
}
