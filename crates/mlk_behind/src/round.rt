// From the faults of a report to the texts in which they are mended.

use crate::known::KnownFaults;
use crate::patch::Patch;
use crate::reader::Reader;
use crate::repair::patches_for;
use mlk_calls::Entries;
use mlk_explain_origins::Grounds;
use mlk_walk::{Checks, Report};
use std::alloc::{AllocError, Global};

/// What follows from a report.
#[derive(Drop)]
pub struct Round {
    /// the numbers of the rows that were not known before, in their order
    pub new: Vec<usize>,
    /// what mends the faults of the report, as far as something does
    pub patches: Vec<Patch>,
}

/// Says which faults of a report are new, and how all of them are mended. They are known from then on.
///
/// `grounds` have the texts that the report is about, and `given` is what was known of the entries before anything was mended. A
/// touch of a global is mended by a letter in place of its `^`, and with it those that need the same lock in the same entry; if a
/// call does not meet a need, the touches and releases behind that; an argument of LOCK, JOB or DO by blanks. Nothing is mended
/// where that would change which locks are held after it, but for the lock that the fault is about.
pub fn next_round(
    alloc: Global,
    grounds: &Grounds<'_>,
    checks: &Checks<'_>,
    given: &Entries<'_>,
    report: &Report,
    known: &mut KnownFaults,
) -> Result<Round, AllocError> {
    let mut new = Vec::new(alloc);
    let mut sites = Vec::new(alloc);
    let mut reader = Reader::new(alloc, grounds, checks, given, 0)?;
    for (number, (row, note)) in report.rows().iter().zip(report.notes()).enumerate() {
        reader.look_up(row.entry.routine())?;
        reader.trace(row, note)?;
        let subject = reader.subject(row, note)?;
        reader.add_sites(row, note, &subject, &mut sites)?;
        if !known.has(row, note, &subject) {
            new.push(number)?;
        }
        known.add(row, subject)?;
    }
    let patches = patches_for(alloc, grounds, sites)?;
    Ok(Round { new, patches })
}
