// The walk of a line.

use crate::flow::Flow;
use crate::note::Note;
use crate::state::{Case, State, Test};
use crate::walker::Walker;
use mlk_suggest_held::{Held, Holding, Lock, Renaming};
use mlk_suggest_steps::{Claim, LockName, Rounds, Step, UnitId};
use mlk_text::push_sparing;
use std::alloc::AllocError;

/// How often a line with FORs is walked at most, until its rounds begin in no new cases.
const MOST_PASSES: usize = 8;

// The number of FORs of a line.
fn count_fors(steps: &[Step<'_>]) -> usize {
    steps
        .iter()
        .filter(|step| matches!(**step, Step::For(_)))
        .count()
}

// Whether a step is noted.
fn is_noted(step: &Step<'_>) -> bool {
    matches!(
        step,
        Step::Touch(_, _) | Step::Claim(_, _) | Step::Release(_, _) | Step::Call(_, _)
    )
}

impl<'p, 'a> Walker<'p, 'a> {
    // Adds names to the tables, and returns their locks.
    fn locks(&mut self, names: &[LockName]) -> Result<Vec<Lock>, AllocError> {
        let mut locks = Vec::new(self.alloc);
        for name in names {
            let lock = self.tables.lock(name.clone()?)?;
            push_sparing(&mut locks, lock)?;
        }
        Ok(locks)
    }

    // The held locks after a claim of locks where `before` was held.
    fn claim_locks(
        &mut self,
        before: Holding,
        locks: &[Lock],
        claim: &Claim,
    ) -> Result<Holding, AllocError> {
        let mut after = self.held_before(before, claim)?;
        for lock in locks {
            after = self.tables.claim(after, *lock)?;
        }
        Ok(after)
    }

    // The held locks before the locks of a claim are acquired, which may release all locks first.
    fn held_before(&mut self, before: Holding, claim: &Claim) -> Result<Holding, AllocError> {
        if claim.releases_all {
            return self.tables.holding(Held::all_released(self.alloc));
        }
        Ok(before)
    }

    // The state after a claim: with a timeout it may have failed.
    fn after_claim(&mut self, state: &State, claim: &Claim) -> Result<State, AllocError> {
        let locks = self.locks(claim.names.as_slice())?;
        let mut after = State {
            cases: Vec::new(self.alloc),
            changes: state.changes,
        };
        for case in &state.cases {
            let holding = self.claim_locks(case.holding, locks.as_slice(), claim)?;
            let test = if claim.is_timed {
                Test::Is(true)
            } else {
                case.test
            };
            after.add(Case { test, holding })?;
            if claim.is_timed {
                let holding = self.held_before(case.holding, claim)?;
                after.add(Case {
                    test: Test::Is(false),
                    holding,
                })?;
            }
        }
        Ok(after)
    }

    // The state after a release.
    fn after_release(&mut self, state: &State, names: &[LockName]) -> Result<State, AllocError> {
        let locks = self.locks(names)?;
        let mut after = State {
            cases: Vec::new(self.alloc),
            changes: state.changes,
        };
        for case in &state.cases {
            let mut holding = case.holding;
            for lock in &locks {
                holding = self.tables.release(holding, *lock)?;
            }
            after.add(Case {
                test: case.test,
                holding,
            })?;
        }
        Ok(after)
    }

    // The state after a release of everything.
    fn after_release_all(&mut self, state: &State) -> Result<State, AllocError> {
        let holding = self.tables.holding(Held::all_released(self.alloc))?;
        let mut after = State {
            cases: Vec::new(self.alloc),
            changes: state.changes,
        };
        for case in &state.cases {
            after.add(Case {
                test: case.test,
                holding,
            })?;
        }
        Ok(after)
    }

    // The state with each value of `$TEST`.
    fn with_any_test(&mut self, state: &State) -> Result<State, AllocError> {
        let mut after = state.with_test(self.alloc, true)?;
        let other = state.with_test(self.alloc, false)?;
        let _ = after.join(&mut self.tables, &other)?;
        Ok(after)
    }

    // The state after a step.
    fn state_after(&mut self, state: &State, step: &'p Step<'a>) -> Result<State, AllocError> {
        match step {
            Step::Claim(_, claim) => self.after_claim(state, claim),
            Step::Release(_, names) => self.after_release(state, names.as_slice()),
            Step::ReleaseAll => self.after_release_all(state),
            Step::Call(_, call) => self.after_call(state, call),
            Step::Change(word) => state.change(self.alloc, &mut self.tables, &[*word]),
            Step::ChangeAll => state.rename(self.alloc, &mut self.tables, Renaming::ForgetAll),
            Step::AnyTest => self.with_any_test(state),
            _ => state.copy(self.alloc),
        }
    }

    // Adds a note of a step with the state before it, if notes are taken and the step is reached.
    fn note(&mut self, unit: UnitId, step: &'p Step<'a>, state: &State) -> Result<(), AllocError> {
        if !self.is_noting || !is_noted(step) || state.cases.is_empty() {
            return Ok(());
        }
        let note = Note {
            unit,
            step,
            state: state.copy(self.alloc)?,
        };
        push_sparing(&mut self.notes, note)
    }

    // Does a step that decides which steps of its line follow.
    fn control(&mut self, flow: &mut Flow, step: &Step<'_>) -> Result<(), AllocError> {
        match step {
            Step::Begin => flow.begin_choice(),
            Step::When(condition) => flow.begin_branch(*condition),
            Step::Otherwise => flow.end_branch(&mut self.tables),
            Step::End => flow.end_choice(&mut self.tables),
            Step::If(condition) => flow.set_test(&mut self.tables, *condition),
            Step::OnTest(is_set) => flow.ask_test(&mut self.tables, *is_set),
            Step::For(rounds) => flow.begin_for(&mut self.tables, *rounds == Rounds::Limited),
            Step::Quit => flow.quit(&mut self.tables),
            Step::Halt => {
                let _ = flow.take();
                Ok(())
            }
            _ => Ok(()),
        }
    }

    // Walks one step of a line.
    fn step(
        &mut self,
        flow: &mut Flow,
        unit: UnitId,
        step: &'p Step<'a>,
    ) -> Result<(), AllocError> {
        match step {
            Step::Touch(_, _) => self.note(unit, step, &flow.current),
            Step::Claim(_, _)
            | Step::Release(_, _)
            | Step::ReleaseAll
            | Step::Call(_, _)
            | Step::Change(_)
            | Step::ChangeAll
            | Step::AnyTest => {
                let state = flow.take();
                self.note(unit, step, &state)?;
                flow.current = self.state_after(&state, step)?;
                Ok(())
            }
            _ => self.control(flow, step),
        }
    }

    // Walks the steps of a line once.
    fn walk_steps(
        &mut self,
        unit: UnitId,
        steps: &'p [Step<'a>],
        state: &State,
        rounds: Vec<State>,
    ) -> Result<Flow, AllocError> {
        let begin = state.copy(self.alloc)?;
        let mut flow = Flow::new(self.alloc, begin, rounds);
        for step in steps {
            self.step(&mut flow, unit, step)?;
        }
        flow.end(&mut self.tables)?;
        Ok(flow)
    }

    // Finds the states in which the rounds of a line's FORs begin.
    fn rounds(
        &mut self,
        unit: UnitId,
        steps: &'p [Step<'a>],
        state: &State,
    ) -> Result<Vec<State>, AllocError> {
        let mut rounds = Vec::new(self.alloc);
        for _ in 0..count_fors(steps) {
            let none = State::none(self.alloc);
            push_sparing(&mut rounds, none)?;
        }
        if rounds.is_empty() {
            return Ok(rounds);
        }
        let is_noting = self.is_noting;
        self.is_noting = false;
        for _ in 0..MOST_PASSES {
            let flow = self.walk_steps(unit, steps, state, rounds)?;
            rounds = flow.rounds;
            if !flow.has_grown {
                break;
            }
        }
        self.is_noting = is_noting;
        Ok(rounds)
    }

    /// Walks a line of `unit` that begins in `state`, and returns the state after it. The states in which the unit returns from it
    /// are added to `returned`.
    pub(crate) fn walk_line(
        &mut self,
        unit: UnitId,
        steps: &'p [Step<'a>],
        state: &State,
        returned: &mut State,
    ) -> Result<State, AllocError> {
        let rounds = self.rounds(unit, steps, state)?;
        let flow = self.walk_steps(unit, steps, state, rounds)?;
        let _ = returned.join(&mut self.tables, &flow.returned)?;
        flow.ended.copy(self.alloc)
    }
}
