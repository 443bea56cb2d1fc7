//! How many reports there are, by outcome.

ghost use Rattle.std.specs.Prelude.{◌≡◌, ◌+◌, ◌<◌, ◌++◌, length, IfOk, OnOk, string_bytes};
ghost use Rattle.report_text.specs.Text.{count_of, is_broken, is_cut, is_done, is_no_target, is_reset, plus, totals_line, totals_text};

use rig_types::{Outcome, Report};
use std::alloc::{AllocError, Global};

/// Puts the line of the totals at the end of a text.
pub fn push_totals(alloc: Global, text: &mut Vec<u8>, reports: &[Report]) -> Result<(), AllocError>
    ensures { OnOk result (text.new.items ≡ text.old.items ++ totals_text reports.now) }
{
    let totals = Totals::of(reports);
    let line = totals.line(alloc)?;
    text.extend_from_slice(line.as_bytes())
}

// How many reports have each outcome.
#[derive(Clone, Copy)]
struct Totals {
    reports: usize,
    done: usize,
    cut: usize,
    reset: usize,
    no_target: usize,
    broken: usize,
}

impl Totals {
    fn of(reports: &[Report]) -> Self
        ensures reports { result.reports ≡ length reports.now }
        ensures done { result.done ≡ count_of is_done reports.now }
        ensures cut { result.cut ≡ count_of is_cut reports.now }
        ensures reset { result.reset ≡ count_of is_reset reports.now }
        ensures no_target { result.no_target ≡ count_of is_no_target reports.now }
        ensures broken { result.broken ≡ count_of is_broken reports.now }
    {
        let mut totals = Totals {
            reports: reports.len(),
            done: 0,
            cut: 0,
            reset: 0,
            no_target: 0,
            broken: 0,
        };
        for report in reports {
            totals = totals.with(report.outcome);
        }
        totals
    }

    // These totals with one more report of this outcome, which isn't among `reports` yet.
    fn with(self, outcome: Outcome) -> Self
        requires room { self.done + self.cut + self.reset + self.no_target + self.broken < self.reports }
        ensures reports { result.reports ≡ self.reports }
        ensures done { result.done ≡ plus (is_done outcome) self.done }
        ensures cut { result.cut ≡ plus (is_cut outcome) self.cut }
        ensures reset { result.reset ≡ plus (is_reset outcome) self.reset }
        ensures no_target { result.no_target ≡ plus (is_no_target outcome) self.no_target }
        ensures broken { result.broken ≡ plus (is_broken outcome) self.broken }
    {
        match outcome {
            Outcome::Done => Totals {
                done: self.done + 1,
                ..self
            },
            Outcome::Cut => Totals {
                cut: self.cut + 1,
                ..self
            },
            Outcome::Reset => Totals {
                reset: self.reset + 1,
                ..self
            },
            Outcome::NoTarget => Totals {
                no_target: self.no_target + 1,
                ..self
            },
            Outcome::Broken => Totals {
                broken: self.broken + 1,
                ..self
            },
        }
    }

    fn line(self, alloc: Global) -> Result<String, AllocError>
        ensures { IfOk result (λ line. string_bytes line ≡ totals_line self.reports self.done self.cut self.reset self.no_target self.broken) }
    {
        let Totals {
            reports,
            done,
            cut,
            reset,
            no_target,
            broken,
        } = self;
        let line = format!(in alloc;
            "total reports {reports} done {done} cut {cut} reset {reset} notarget {no_target} broken {broken}\n"
        )?;
        Ok(line)
    }
}
