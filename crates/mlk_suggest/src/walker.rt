// The walk of units.

use crate::note::Note;
use crate::state::{Case, State, Test};
use mlk_suggest_held::{Held, Renaming, Tables};
use mlk_suggest_steps::{Call, CallKind, Program, Unit, UnitId};
use mlk_text::push_sparing;
use std::alloc::{AllocError, Global};

/// A walk over the units of a program: how each returns, as far as is known, and the notes that were taken.
#[derive(Drop)]
pub(crate) struct Walker<'p, 'a> {
    pub(crate) alloc: Global,
    pub(crate) program: &'p Program<'a>,
    pub(crate) tables: Tables,
    /// how each unit returns: the locks that are held since it began, and the changed locals of its caller
    pub(crate) returns: Vec<State>,
    /// whether notes are taken
    pub(crate) is_noting: bool,
    pub(crate) notes: Vec<Note<'p, 'a>>,
}

impl<'p, 'a> Walker<'p, 'a> {
    // The state in which each unit is entered.
    fn entry_state(&mut self) -> Result<State, AllocError> {
        let holding = self.tables.holding(Held::new(self.alloc))?;
        let mut state = State::none(self.alloc);
        state.add(Case {
            test: Test::Kept,
            holding,
        })?;
        Ok(state)
    }

    // How a unit returns, as far as is known.
    fn known_returns(&mut self, unit: UnitId) -> Result<State, AllocError> {
        match self.returns.get(unit.index()) {
            Some(state) => state.copy(self.alloc),
            None => Ok(State::none(self.alloc)),
        }
    }

    // How a call of a unit returns, in the names of the caller.
    fn returns_of(&mut self, call: &Call, unit: UnitId) -> Result<State, AllocError> {
        let returns = self.known_returns(unit)?;
        let program = self.program;
        match program.unit(unit) {
            Some(called) if !called.formals.is_empty() => {
                let renaming = Renaming::ToCaller(
                    called.formals.as_slice(),
                    call.actuals.as_slice(),
                );
                returns.rename(self.alloc, &mut self.tables, renaming)
            }
            _ => Ok(returns),
        }
    }

    // The case after a call in the case `before` that returns in the case `callee`.
    fn after_return(
        &mut self,
        before: Case,
        callee: Case,
        kind: CallKind,
    ) -> Result<Case, AllocError> {
        let holding = self.tables.after_callee(before.holding, callee.holding)?;
        let test = match (kind, callee.test) {
            (CallKind::Do | CallKind::Next, Test::Is(is_set)) => Test::Is(is_set),
            _ => before.test,
        };
        Ok(Case { test, holding })
    }

    // The state after a call of a unit.
    fn after_unit(
        &mut self,
        state: &State,
        call: &Call,
        unit: UnitId,
    ) -> Result<State, AllocError> {
        let returns = self.returns_of(call, unit)?;
        let changed = Vec::from_slice(self.alloc, self.tables.changed_locals(returns.changes))?;
        let before = state.change(self.alloc, &mut self.tables, changed.as_slice())?;
        let mut after = State {
            cases: Vec::new(self.alloc),
            changes: before.changes,
        };
        for case in &before.cases {
            for callee in &returns.cases {
                let next = self.after_return(*case, *callee, call.kind)?;
                after.add(next)?;
            }
        }
        Ok(after)
    }

    /// The state after `call`. JOB changes nothing, and a call of a unit that is not given changes only what is passed by
    /// reference.
    pub(crate) fn after_call(&mut self, state: &State, call: &Call) -> Result<State, AllocError> {
        let after = match call.unit {
            Some(unit) if call.kind != CallKind::Job => self.after_unit(state, call, unit)?,
            _ => state.copy(self.alloc)?,
        };
        if call.by_reference.is_empty() {
            return Ok(after);
        }
        after.change(self.alloc, &mut self.tables, call.by_reference.as_slice())
    }

    // How a unit that ends in `state` returns to its caller, for which the unit's own locals and its changed formals are unknown.
    fn outside_state(&mut self, state: &State, unit: &Unit<'a>) -> Result<State, AllocError> {
        let mut hidden = Vec::from_slice(self.alloc, unit.own.as_slice())?;
        for formal in &unit.formals {
            if self.tables.changed_locals(state.changes).contains(formal) {
                push_sparing(&mut hidden, *formal)?;
            }
        }
        let renaming = Renaming::Forget(hidden.as_slice());
        let mut outside = state.rename(self.alloc, &mut self.tables, renaming)?;
        let changes = self
            .tables
            .without_changes(state.changes, unit.own.as_slice())?;
        outside.changes = self
            .tables
            .without_changes(changes, unit.formals.as_slice())?;
        Ok(outside)
    }

    /// Walks the unit `id`, and returns how it returns.
    pub(crate) fn walk_unit(&mut self, id: UnitId) -> Result<State, AllocError> {
        let mut returned = State::none(self.alloc);
        let program = self.program;
        let Some(unit) = program.unit(id) else {
            return Ok(returned);
        };
        let mut state = self.entry_state()?;
        for line in &unit.lines {
            state = self.walk_line(id, line.as_slice(), &state, &mut returned)?;
        }
        let _ = returned.join(&mut self.tables, &state)?;
        self.outside_state(&returned, unit)
    }
}
