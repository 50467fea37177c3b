// States of a walk.

ghost use Rattle.std.specs.Prelude.{◌≡◌, ◌-◌, [], IfOk, length, take, drop};
ghost use Rattle.mlk_walk_state.specs.States.{at_rest, without_last, holding, tested};

use mlk_cert_parts::{Case, Shared, Test, copy_case};
use mlk_names::{LockTerm, Sym};
use mlk_text::{Code, List, copy_of};
use std::alloc::{AllocError, Global};

/// A case, and the symbols that the running command has captured so far: those of subscripts, actuals and lock names that
/// were evaluated and not used yet, the oldest first.
#[derive(Drop, PartialEq, Eq)]
pub struct State {
    pub case: Case,
    pub captured: List<Sym>,
}

/// Why a state is refused, and the state as it was before.
#[derive(Drop)]
pub struct RefusedState {
    pub code: Code,
    pub state: State,
}

/// The last `count` symbols, or all if there are fewer.
pub fn last_of(captured: &[Sym], count: usize) -> &[Sym]
    ensures { result.now ≡ drop (length captured.now - count) captured.now }
{
    let (_, last) = captured.split_at(captured.len().saturating_sub(count));
    last
}

/// All symbols but the last `count`.
pub fn before_last(captured: &[Sym], count: usize) -> &[Sym]
    ensures { result.now ≡ take (length captured.now - count) captured.now }
{
    let (before, _) = captured.split_at(captured.len().saturating_sub(count));
    before
}

impl State {
    /// The state with the case `case` before a command, with nothing captured. It shares the case's lists.
    #[inline(always)]
    pub fn at_rest(alloc: Global, case: &Case) -> Result<State, AllocError>
        ensures { IfOk result (λ s. s ≡ at_rest case.now) }
    {
        Ok(State {
            case: copy_case(case)?,
            captured: List::new(alloc),
        })
    }

    /// Removes the last `count` captured symbols.
    #[inline(always)]
    pub fn without_last(self, count: usize) -> State
        ensures { result ≡ without_last count self }
    {
        let State { case, captured } = self;
        let mut symbols = captured.into_vec();
        symbols.truncate(symbols.len().saturating_sub(count));
        State {
            case,
            captured: List::of(symbols),
        }
    }

    /// Removes the last `count` captured symbols in place.
    #[inline(always)]
    pub fn forget_last(&mut self, count: usize)
        ensures { self.new ≡ without_last count self.old }
    {
        let left = self.captured.len().saturating_sub(count);
        self.captured.truncate(left);
    }

    /// Copies the state; the copy shares its lists.
    #[inline(always)]
    pub fn copy(&self) -> Result<State, AllocError>
        ensures { IfOk result (λ s. s ≡ self.now) }
    {
        Ok(State {
            case: copy_case(&self.case)?,
            captured: copy_of(&self.captured)?,
        })
    }

    /// The state with the held terms `held`.
    pub fn with_held(self, held: Shared<LockTerm>) -> State
        ensures { result ≡ holding held self }
    {
        let State { case, captured } = self;
        let Case {
            test,
            held: _,
            own,
            kept,
            saved,
        } = case;
        let case = Case {
            test,
            held,
            own,
            kept,
            saved,
        };
        State { case, captured }
    }

    /// The state with `test` for `$TEST`.
    pub fn with_test(mut self, test: Test) -> State
        ensures { result ≡ tested test self }
    {
        self.case.test = test;
        self
    }
}
