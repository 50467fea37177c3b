// States while a line is walked.

use crate::state::State;
use mlk_suggest_held::Tables;
use mlk_suggest_steps::Condition;
use mlk_text::push_sparing;
use std::alloc::{AllocError, Global};
use std::mem;

// A choice before its end: the state in which no branch was taken so far, and the state after a branch that was taken.
#[derive(Drop)]
struct Choice {
    others: State,
    done: State,
}

/// The states on a line while its steps are walked in order.
#[derive(Drop)]
pub(crate) struct Flow {
    alloc: Global,
    /// the state before the next step
    pub(crate) current: State,
    choices: Vec<Choice>,
    /// the state at the begin of a round of each FOR of the line
    pub(crate) rounds: Vec<State>,
    /// the number of FORs that have begun
    depth: usize,
    /// the state after the line
    pub(crate) ended: State,
    /// the state in which the unit returns from the line
    pub(crate) returned: State,
    /// whether a round begins in a case that is new
    pub(crate) has_grown: bool,
}

impl Flow {
    /// The begin of a line in the state `current`. Its FORs begin their rounds at least in the states `rounds`.
    pub(crate) fn new(alloc: Global, current: State, rounds: Vec<State>) -> Flow {
        Flow {
            alloc,
            current,
            choices: Vec::new(alloc),
            rounds,
            depth: 0,
            ended: State::none(alloc),
            returned: State::none(alloc),
            has_grown: false,
        }
    }

    /// Removes the state before the next step: the step is then not reached.
    pub(crate) fn take(&mut self) -> State {
        let none = State::none(self.alloc);
        mem::replace(&mut self.current, none)
    }

    // Begins a round of the FOR at a depth, from 1, in a state. The depth 0 is the end of the line.
    fn begin_round(
        &mut self,
        tables: &mut Tables,
        depth: usize,
        state: &State,
    ) -> Result<(), AllocError> {
        let Some(place) = depth.checked_sub(1) else {
            let _ = self.ended.join(tables, state)?;
            return Ok(());
        };
        if let Some(round) = self.rounds.get_mut(place) {
            if round.join(tables, state)? {
                self.has_grown = true;
            }
        }
        Ok(())
    }

    /// Skips the rest of the line in `state`.
    pub(crate) fn skip(&mut self, tables: &mut Tables, state: &State) -> Result<(), AllocError> {
        let depth = self.depth;
        self.begin_round(tables, depth, state)
    }

    /// Does a QUIT: out of the innermost FOR, or out of the unit.
    pub(crate) fn quit(&mut self, tables: &mut Tables) -> Result<(), AllocError> {
        let state = self.take();
        match self.depth.checked_sub(1) {
            None => {
                let _ = self.returned.join(tables, &state)?;
                Ok(())
            }
            Some(outer) => self.begin_round(tables, outer, &state),
        }
    }

    /// Begins the rounds of a FOR. `is_limited` says whether the end of its values can end it.
    pub(crate) fn begin_for(
        &mut self,
        tables: &mut Tables,
        is_limited: bool,
    ) -> Result<(), AllocError> {
        let outer = self.depth;
        let state = self.take();
        self.depth = outer.saturating_add(1);
        self.begin_round(tables, self.depth, &state)?;
        if let Some(round) = self.rounds.get(outer) {
            self.current = round.copy(self.alloc)?;
        }
        if is_limited {
            let left = self.current.copy(self.alloc)?;
            self.begin_round(tables, outer, &left)?;
        }
        Ok(())
    }

    /// Ends the line.
    pub(crate) fn end(&mut self, tables: &mut Tables) -> Result<(), AllocError> {
        let state = self.take();
        self.skip(tables, &state)
    }

    /// Begins a choice.
    pub(crate) fn begin_choice(&mut self) -> Result<(), AllocError> {
        let choice = Choice {
            others: State::none(self.alloc),
            done: State::none(self.alloc),
        };
        push_sparing(&mut self.choices, choice)
    }

    /// Begins a branch of the innermost choice, which is taken if `condition` holds.
    pub(crate) fn begin_branch(&mut self, condition: Condition) -> Result<(), AllocError> {
        let others = self
            .current
            .where_may_hold(self.alloc, condition.opposite())?;
        self.current = self.current.where_may_hold(self.alloc, condition)?;
        if let Some(choice) = self.choices.last_mut() {
            choice.others = others;
        }
        Ok(())
    }

    /// Ends a branch.
    pub(crate) fn end_branch(&mut self, tables: &mut Tables) -> Result<(), AllocError> {
        let state = self.take();
        let none = State::none(self.alloc);
        if let Some(choice) = self.choices.last_mut() {
            let _ = choice.done.join(tables, &state)?;
            self.current = mem::replace(&mut choice.others, none);
        }
        Ok(())
    }

    /// Ends the innermost choice.
    pub(crate) fn end_choice(&mut self, tables: &mut Tables) -> Result<(), AllocError> {
        if let Some(choice) = self.choices.pop() {
            let _ = self.current.join(tables, &choice.done)?;
        }
        Ok(())
    }

    /// Does an IF with the argument `condition`.
    pub(crate) fn set_test(
        &mut self,
        tables: &mut Tables,
        condition: Condition,
    ) -> Result<(), AllocError> {
        let skipped = self
            .current
            .where_may_hold(self.alloc, condition.opposite())?;
        let skipped = skipped.with_test(self.alloc, false)?;
        self.skip(tables, &skipped)?;
        let held = self.current.where_may_hold(self.alloc, condition)?;
        self.current = held.with_test(self.alloc, true)?;
        Ok(())
    }

    /// Skips the rest of the line if `$TEST` is not `is_set`, as IF without arguments and ELSE do.
    pub(crate) fn ask_test(&mut self, tables: &mut Tables, is_set: bool) -> Result<(), AllocError> {
        let skipped = self
            .current
            .where_may_hold(self.alloc, Condition::Test(!is_set))?;
        let skipped = skipped.with_test(self.alloc, !is_set)?;
        self.skip(tables, &skipped)?;
        let held = self
            .current
            .where_may_hold(self.alloc, Condition::Test(is_set))?;
        self.current = held.with_test(self.alloc, is_set)?;
        Ok(())
    }
}
