// The report of a program.

ghost use Rattle.std.specs.Prelude.{◌≡◌, ◌↔◌, ◌++◌, [], OnOk, IsTrue, map};
ghost use Rattle.mlk_walk.specs.Reports.{row_of};

use crate::verdict::Verdict;
use mlk_program::EntryId;
use mlk_walk_exprs::{Fault, Note};
use std::alloc::{AllocError, Global};
use std::marker::Model;

/// A row of a report: an entry and a fault of it.
#[derive(Clone, Copy, Drop, PartialEq, Eq)]
pub struct Row {
    pub entry: EntryId,
    pub fault: Fault,
}

/// The faults of a program's entries, each with a note. A contract sees the rows.
#[derive(Drop)]
pub struct Report {
    rows: Vec<Row>,
    notes: Vec<Note>,
}

impl Model for Report {
    ghost use Rattle.std.specs.Prelude.{List};
    ghost use Rattle.mlk_walk.specs.declared.report.Row.{Row};

    ghost Value = { List Row };

    ghost view = { λ r. r.rows.items };
}

impl Report {
    /// A report without rows.
    pub fn new(alloc: Global) -> Report
        ensures { result ≡ [] }
    {
        Report {
            rows: Vec::new(alloc),
            notes: Vec::new(alloc),
        }
    }

    /// The rows, in order.
    pub fn rows(&self) -> &[Row]
        ensures { result.now ≡ self.now }
    {
        self.rows.as_slice()
    }

    /// The notes, in the order of their rows.
    pub fn notes(&self) -> &[Note] {
        self.notes.as_slice()
    }

    /// Whether the report has no rows.
    pub fn is_yes(&self) -> bool
        ensures { IsTrue result ↔ (self.now ≡ []) }
    {
        self.rows.is_empty()
    }

    /// Appends the faults of an entry.
    pub fn add(&mut self, entry: EntryId, verdict: Verdict) -> Result<(), AllocError>
        ensures { OnOk result (self.new ≡ self.old ++ map (row_of entry) verdict) }
    {
        for (fault, note) in verdict.into_notes() {
            self.rows.push(Row { entry, fault })?;
            self.notes.push(note)?;
        }
        Ok(())
    }
}
