//! Lists of events through `run`: a report is what the rules tell, with the one step refused that found no
//! memory.
mod rows;

use crate::driver::{Score, holds};
use kanal_core::error::NewError;
use kanal_journal::journal::{Report, run};
use rows::{ROWS, ReportRow};
use std::alloc::Global;
use std::fmt;
use std::fmt::Write;

/// Runs each list.
pub fn run_all(alloc: Global, tally: &mut Score) -> Option<()> {
    for row in ROWS {
        runs(alloc, tally, row)?;
    }
    Some(())
}

/// Runs the list; None where the report isn't what the rules tell.
fn runs(alloc: Global, tally: &mut Score, row: &ReportRow) -> Option<()> {
    let Ok(events) = Vec::from_slice(alloc, row.events) else {
        return Some(());
    };
    match run(alloc, row.capacity, events) {
        Err(NewError::NoMemory) => tally.add(),
        Err(NewError::TooLarge) => holds(row.told.is_empty()),
        Ok(report) => match row.told.iter().position(|told| is_told(&report, told)) {
            None => None,
            Some(0) => Some(()),
            Some(_refused) => tally.add(),
        },
    }
}

/// A text that is expected: what is written has to begin it, and is taken off.
#[derive(Clone, Copy)]
struct Expected {
    rest: &'static str,
}

impl fmt::Write for Expected {
    fn write_str(&mut self, text: &str) -> fmt::Result {
        match self.rest.strip_prefix(text) {
            Some(rest) => {
                self.rest = rest;
                Ok(())
            },
            None => Err(fmt::Error),
        }
    }
}

/// Whether the report is told so. It is compared as it is written, which takes no memory.
fn is_told(report: &Report<u64>, told: &'static str) -> bool {
    let mut expected = Expected { rest: told };
    write_report(&mut expected, report).is_ok() && expected.rest.is_empty()
}

/// Writes the report.
fn write_report(expected: &mut Expected, report: &Report<u64>) -> fmt::Result {
    write!(expected, "{:?} ", report.replies)?;
    for settlement in &report.settled {
        write!(
            expected,
            "{}:{} {:?} ",
            settlement.step, settlement.ticket, settlement.outcome
        )?;
    }
    write!(
        expected,
        "{:?} {:?} {:?}",
        report.drained, report.cleared, report.left
    )
}
