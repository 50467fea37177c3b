// The block of an entry, from everything that is known of it.

use crate::draft::{Draft, round_number};
use crate::lists::{At, Lists};
use crate::order::cases_in_order;
use mlk_cert_parts::{Case, EntryCert, ExitCase, Point, Shared, Summary};
use mlk_text::List;
use std::alloc::{AllocError, Global};

// A point with its cases in order.
fn point(alloc: Global, at: At, cases: List<Case>) -> Result<Point, AllocError> {
    Ok(Point {
        line: at.line,
        round: round_number(at.round)?,
        cases: cases_in_order(alloc, cases.into_vec())?,
    })
}

fn points(alloc: Global, lists: Lists) -> Result<List<Point>, AllocError> {
    let mut all = List::new(alloc);
    for (at, cases) in lists.into_points(alloc)? {
        all.push(point(alloc, at, cases)?)?;
    }
    Ok(all)
}

// The case at an entry's end that says no more than `exit`.
fn case_of(alloc: Global, exit: ExitCase) -> Result<Case, AllocError> {
    Ok(Case {
        test: exit.test,
        held: exit.held,
        own: Shared::new(alloc, Vec::new(alloc))?,
        kept: exit.kept,
        saved: Shared::new(alloc, Vec::new(alloc))?,
    })
}

// Exits are ordered like the cases that say no more than they do.
fn exits(alloc: Global, given: List<ExitCase>) -> Result<List<ExitCase>, AllocError> {
    let mut cases = Vec::new(alloc);
    for exit in given.into_vec() {
        cases.push(case_of(alloc, exit)?)?;
    }
    let mut all = List::new(alloc);
    for case in cases_in_order(alloc, cases)?.into_vec() {
        all.push(ExitCase {
            test: case.test,
            held: case.held,
            kept: case.kept,
        })?;
    }
    Ok(all)
}

impl Draft {
    /// The block of the entry, from everything that is known of it.
    pub fn into_block(self, alloc: Global) -> Result<EntryCert, AllocError> {
        let Draft { block, lists, .. } = self;
        let Summary {
            need,
            exits: given,
            mods,
            low,
            drops,
        } = block.summary;
        Ok(EntryCert {
            entry: block.entry,
            summary: Summary {
                need,
                exits: exits(alloc, given)?,
                mods,
                low,
                drops,
            },
            points: points(alloc, lists)?,
        })
    }
}
