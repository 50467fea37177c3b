// The state of the maker.

use crate::stop::{GaveUp, Stop, WhenStuck};
use mlk_calls::Entries;
use mlk_make_drafts::Draft;
use mlk_program::{EntryId, Program};
use mlk_rules::Rules;
use mlk_text::{Failure, LineNumber, Value};
use mlk_walk_exprs::Fault;
use std::alloc::{AllocError, Global};
use std::collections::BTreeMap;

/// What the maker works on, which doesn't change.
#[derive(Clone, Copy, Drop)]
pub(crate) struct Ground<'a> {
    pub(crate) alloc: Global,
    pub(crate) program: &'a Program<'a>,
    pub(crate) rules: &'a Rules,
    /// the declared entries, without any block
    pub(crate) declared: &'a Entries<'a>,
}

/// The drafts of all entries except the one that is walked, the changes so far, and the entries that were given up.
#[derive(Drop)]
pub(crate) struct Maker {
    pub(crate) drafts: BTreeMap<EntryId, Draft>,
    /// how many changes there were
    pub(crate) changes: usize,
    /// whether this is the last round, in which nothing may change
    pub(crate) last: bool,
    pub(crate) when_stuck: WhenStuck,
    /// where entries were given up
    pub(crate) given_up: Vec<GaveUp>,
}

impl Maker {
    /// A maker without drafts.
    pub(crate) fn new(alloc: Global, when_stuck: WhenStuck) -> Maker {
        Maker {
            drafts: BTreeMap::new(alloc),
            changes: 0,
            last: false,
            when_stuck,
            given_up: Vec::new(alloc),
        }
    }

    /// Counts a change that mends `fault`. Gives up in the last round.
    pub(crate) fn change(&mut self, fault: Fault) -> Result<(), Failure<Stop>> {
        self.changes = self.changes.saturating_add(1);
        if self.last {
            return Err(Failure::Refused(Stop::Full(fault)));
        }
        Ok(())
    }

    /// Adds an empty draft of `entry`, unless it has one, and returns whether it was added.
    pub(crate) fn add(
        &mut self,
        ground: &Ground<'_>,
        entry: EntryId,
        declared: bool,
    ) -> Result<bool, AllocError> {
        if self.drafts.contains_key(&entry) {
            return Ok(false);
        }
        let Some(text) = ground.program.text_of(ground.alloc, entry)? else {
            return Ok(false);
        };
        let draft = Draft::new(
            ground.alloc,
            entry,
            number_of(ground.program, entry),
            Value::new(text),
            declared,
            self.changes,
        );
        self.drafts.insert(entry, draft)?;
        Ok(true)
    }
}

/// The number of the line of `entry`, 1 if the program does not have it.
pub(crate) fn number_of(program: &Program<'_>, entry: EntryId) -> LineNumber {
    match program.line(entry) {
        None => LineNumber::new(1),
        Some(line) => line.number,
    }
}

/// Whether the summary of `entry` has changed since there were `walked` changes.
pub(crate) fn has_changed(maker: &Maker, entry: EntryId, walked: usize) -> bool {
    match maker.drafts.get(&entry) {
        Some(callee) => callee.changed > walked,
        None => false,
    }
}
