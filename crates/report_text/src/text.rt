//! The whole text of a bench.

ghost use Rattle.std.specs.Prelude.{◌≡◌, ◌<◌, ◌++◌, IfOk, OnOk, flat_map, length, slice_index_or};
ghost use Rattle.desk_law.specs.Desk.{no_unit};
ghost use Rattle.report_text.specs.Text.{report_at, report_text, unit_images, work_from};

use crate::acts::push_acts;
use crate::images::push_block;
use crate::lines::push_lines;
use crate::totals::push_totals;
use bench_core::Bench;
use report_lines::report_lines;
use rig_types::{Report, Unit};
use scsi_words::Bytes;
use std::alloc::{AllocError, Global};

/// The report text of a bench: what became of the lines and the acts of its work, its reports, the blocks that differ
/// from their opening, and the totals. The one error is want of memory.
pub fn report_text(alloc: Global, bench: &Bench) -> Result<Bytes, AllocError>
    ensures { IfOk result (λ text. text ≡ report_text bench.now.world) }
{
    let mut text = Vec::new(alloc);
    push_work(alloc, &mut text, bench)?;
    push_acts(alloc, &mut text, bench.acts())?;
    push_reports(alloc, &mut text, bench)?;
    push_images(alloc, &mut text, bench)?;
    push_totals(alloc, &mut text, bench.reports())?;
    Ok(Bytes::of(text))
}

/// Puts the lines of all submitters at the end of a text.
fn push_work(alloc: Global, text: &mut Vec<u8>, bench: &Bench) -> Result<(), AllocError>
    ensures { OnOk result (text.new.items ≡ text.old.items ++ work_from 0 bench.now.world.lines) }
{
    for submitter in 0..bench.submitter_count() {
        push_lines(alloc, text, submitter as u16, bench.lines(submitter))?;
    }
    Ok(())
}

/// Puts the reports, in their order, at the end of a text.
fn push_reports(alloc: Global, text: &mut Vec<u8>, bench: &Bench) -> Result<(), AllocError>
    ensures { OnOk result (text.new.items ≡ text.old.items ++ flat_map (report_at bench.now.world) bench.now.world.reports) }
{
    for report in bench.reports() {
        push_report(alloc, text, bench, report)?;
    }
    Ok(())
}

fn push_report(
    alloc: Global,
    text: &mut Vec<u8>,
    bench: &Bench,
    report: &Report,
) -> Result<(), AllocError>
    ensures { OnOk result (text.new.items ≡ text.old.items ++ report_at bench.now.world report.now) }
{
    let place = place_of(bench.rig().units.as_slice(), report.unit);
    let direction = bench.direction_of(report.ticket);
    let lines = report_lines(alloc, place.target, place.lun, direction, report)?;
    text.extend_from_slice(lines.as_slice())
}

// Where a unit is on the bus.
#[derive(Clone, Copy)]
struct Place {
    target: u8,
    lun: u8,
}

// The place of a unit, by its number; that of target 0 and LUN 0 where there is none.
fn place_of(units: &[Unit], number: u8) -> Place
    ensures target { result.target ≡ (slice_index_or units.now number no_unit).target }
    ensures lun { result.lun ≡ (slice_index_or units.now number no_unit).lun }
{
    match units.get(number as usize) {
        Some(unit) => Place {
            target: unit.target,
            lun: unit.lun,
        },
        None => Place { target: 0, lun: 0 },
    }
}

/// Puts the blocks of all units that differ from their opening at the end of a text.
fn push_images(alloc: Global, text: &mut Vec<u8>, bench: &Bench) -> Result<(), AllocError>
    ensures { OnOk result (text.new.items ≡ text.old.items ++ flat_map (unit_images bench.now.world) bench.now.world.desk.units) }
{
    for number in 0..bench.rig().units.as_slice().len() {
        push_unit(alloc, text, bench, number)?;
    }
    Ok(())
}

// The unit with this number.
fn push_unit(
    alloc: Global,
    text: &mut Vec<u8>,
    bench: &Bench,
    number: usize,
) -> Result<(), AllocError>
    requires { number < length bench.now.world.desk.units }
    ensures { OnOk result (text.new.items ≡ text.old.items ++ unit_images bench.now.world (slice_index_or bench.now.world.desk.units number no_unit)) }
{
    let unit = bench.rig().units.as_slice()[number];
    let mut bytes = [0; 512];
    for block in 0..unit.blocks {
        bench.image(number as u8, block, &mut bytes);
        push_block(alloc, text, &unit, block, &bytes)?;
    }
    Ok(())
}
