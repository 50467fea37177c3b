// The locks that may be held at a place.

use mlk_suggest_held::{Changes, Holding, Renaming, Tables};
use mlk_suggest_steps::{Condition, Word};
use mlk_text::push_sparing;
use std::alloc::{AllocError, Global};

/// The maximum number of cases of a state: as many as a line of a certificate can list.
const MOST_CASES: usize = 16;

/// What is known of `$TEST`.
#[derive(Clone, Copy, Drop, PartialEq, Eq)]
pub(crate) enum Test {
    /// it has the value that it had when the unit began
    Kept,
    /// it has this value
    Is(bool),
}

/// One of the ways in which a place may be reached.
#[derive(Clone, Copy, Drop, PartialEq, Eq)]
pub(crate) struct Case {
    pub(crate) test: Test,
    pub(crate) holding: Holding,
}

impl Case {
    /// The case with `$TEST` set to `is_set`.
    pub(crate) fn with_test(self, is_set: bool) -> Case {
        Case {
            test: Test::Is(is_set),
            holding: self.holding,
        }
    }

    // Whether a condition may hold in the case.
    fn may_hold(self, condition: Condition) -> bool {
        match condition {
            Condition::Always(holds) => holds,
            Condition::Test(wanted) => self.test != Test::Is(!wanted),
            Condition::Open => true,
        }
    }
}

/// The cases in which a place may be reached in a unit, and the locals that may have changed since the unit began. Without cases
/// the place is not reached.
#[derive(Drop)]
pub(crate) struct State {
    pub(crate) cases: Vec<Case>,
    pub(crate) changes: Changes,
}

impl State {
    /// The state of a place that is not reached.
    pub(crate) fn none(alloc: Global) -> State {
        State {
            cases: Vec::new(alloc),
            changes: Changes::NONE,
        }
    }

    /// A copy of the state.
    pub(crate) fn copy(&self, alloc: Global) -> Result<State, AllocError> {
        Ok(State {
            cases: Vec::from_slice(alloc, self.cases.as_slice())?,
            changes: self.changes,
        })
    }

    /// Adds `case`, unless it is there already or there are too many.
    pub(crate) fn add(&mut self, case: Case) -> Result<(), AllocError> {
        if self.cases.contains(&case) || self.cases.len() >= MOST_CASES {
            return Ok(());
        }
        push_sparing(&mut self.cases, case)
    }

    /// Adds the cases and the changes of `other`, and returns whether any of them is new.
    pub(crate) fn join(&mut self, tables: &mut Tables, other: &State) -> Result<bool, AllocError> {
        if other.cases.is_empty() {
            return Ok(false);
        }
        let count = self.cases.len();
        let changes = self.changes;
        for case in &other.cases {
            self.add(*case)?;
        }
        self.changes = tables.union(changes, other.changes)?;
        Ok(self.cases.len() > count || self.changes != changes)
    }

    /// The state with only the cases in which `condition` may hold.
    pub(crate) fn where_may_hold(
        &self,
        alloc: Global,
        condition: Condition,
    ) -> Result<State, AllocError> {
        let mut cases = Vec::new(alloc);
        for case in &self.cases {
            if case.may_hold(condition) {
                push_sparing(&mut cases, *case)?;
            }
        }
        Ok(State {
            cases,
            changes: self.changes,
        })
    }

    /// The state with `$TEST` set to `is_set` in each case.
    pub(crate) fn with_test(&self, alloc: Global, is_set: bool) -> Result<State, AllocError> {
        let mut state = State {
            cases: Vec::new(alloc),
            changes: self.changes,
        };
        for case in &self.cases {
            state.add(case.with_test(is_set))?;
        }
        Ok(state)
    }

    /// The state with its locks renamed by `renaming`.
    pub(crate) fn rename(
        &self,
        alloc: Global,
        tables: &mut Tables,
        renaming: Renaming<'_>,
    ) -> Result<State, AllocError> {
        let mut state = State {
            cases: Vec::new(alloc),
            changes: self.changes,
        };
        for case in &self.cases {
            let holding = tables.rename(case.holding, renaming)?;
            state.add(Case {
                test: case.test,
                holding,
            })?;
        }
        Ok(state)
    }

    /// The state after a change of the locals `words`.
    pub(crate) fn change(
        &self,
        alloc: Global,
        tables: &mut Tables,
        words: &[Word],
    ) -> Result<State, AllocError> {
        let mut state = self.rename(alloc, tables, Renaming::Forget(words))?;
        state.changes = tables.with_changes(self.changes, words)?;
        Ok(state)
    }
}
