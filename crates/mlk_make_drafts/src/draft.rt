// What is known of an entry so far.

use crate::hand::rounds_in;
use crate::lists::{At, Listing, Lists};
use crate::summary::{add_needs, empty_summary};
use mlk_cert_parts::{EntryCert, Point};
use mlk_names::LockTerm;
use mlk_program::EntryId;
use mlk_syntax::Line;
use mlk_text::{LineNumber, List, Value};
use std::alloc::{AllocError, Global};
use std::collections::BTreeSet;
use std::mem;

/// What is known of an entry so far.
#[derive(Drop)]
pub struct Draft {
    pub entry: EntryId,
    /// whether the rules declare it
    pub declared: bool,
    /// its text, its summary, and while a line is walked the points that are loaded: those of the line, and that of the begin of
    /// its block
    pub block: EntryCert,
    /// its points, except those that are loaded
    pub lists: Lists,
    /// the entries whose summaries were used
    pub callees: BTreeSet<EntryId>,
    /// the number of changes when its summary changed last
    pub changed: usize,
    /// the number of changes when it was walked last; `None` before
    pub walked: Option<usize>,
}

impl Draft {
    /// An empty draft of the entry with the text `text`, whose line has the number `line`, created after `changed` changes.
    pub fn new(
        alloc: Global,
        entry: EntryId,
        line: LineNumber,
        text: Value,
        declared: bool,
        changed: usize,
    ) -> Draft {
        Draft {
            entry,
            declared,
            block: EntryCert {
                entry: text,
                summary: empty_summary(alloc),
                points: List::new(alloc),
            },
            lists: Lists::new(alloc, line),
            callees: BTreeSet::new(alloc),
            changed,
            walked: None,
        }
    }

    /// Removes the points and the exits.
    pub fn clear(&mut self, alloc: Global) {
        self.lists.clear();
        self.block.summary.exits = List::new(alloc);
    }

    /// Adds needed locks.
    pub fn add_needs(
        &mut self,
        alloc: Global,
        terms: Vec<LockTerm>,
    ) -> Result<Listing, AllocError> {
        add_needs(alloc, &mut self.block.summary, terms)
    }

    // Loads the cases of a point, if it has some.
    fn take_point(
        &mut self,
        alloc: Global,
        at: At,
        points: &mut List<Point>,
    ) -> Result<(), AllocError> {
        let Some(cases) = self.lists.take(alloc, at) else {
            return Ok(());
        };
        points.push(Point {
            line: at.line,
            round: round_number(at.round)?,
            cases,
        })
    }

    /// Loads the points of a line and that of its block's begin.
    pub fn load_line(&mut self, alloc: Global, line: &Line) -> Result<(), AllocError> {
        self.lists.walk(line.number);
        let mut points = List::new(alloc);
        for round in 0..rounds_in(&line.commands).saturating_add(1) {
            let at = At {
                line: line.number,
                round,
            };
            self.take_point(alloc, at, &mut points)?;
        }
        if let Some(first) = line.block.as_slice().first() {
            let at = At {
                line: first.number,
                round: 0,
            };
            self.take_point(alloc, at, &mut points)?;
        }
        self.block.points = points;
        Ok(())
    }

    /// Stores the loaded points.
    pub fn put_back(&mut self, alloc: Global) {
        let points = mem::replace(&mut self.block.points, List::new(alloc));
        for point in points.into_vec() {
            let at = At {
                line: point.line,
                round: point.round as usize,
            };
            self.lists.put(at, point.cases);
        }
    }
}

/// The number of a FOR, as a certificate has it. The error is that of memory if it is too large.
pub fn round_number(round: usize) -> Result<u32, AllocError> {
    match u32::try_from(round) {
        Ok(number) => Ok(number),
        Err(_) => Err(AllocError),
    }
}
