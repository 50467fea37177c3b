// The walk of a line.

ghost use Rattle.std.specs.Prelude.{◌≡◌, ◌↔◌, IsTrue, ◌∷◌, ◌++◌, [], IfOk, MatchOption, OnOk, map};
ghost use Rattle.mlk_walk_state.specs.States.{same_state};
ghost use Rattle.mlk_walk_exprs.specs.Walks.{Goes, Skips, Quits, Refused, add, add_all, put_state};
ghost use Rattle.mlk_walk_exprs.specs.Walks.{put_states, is_large, too_many, few, joined, with_states};
ghost use Rattle.std.specs.List.{list_any};

use mlk_calls::State;
use mlk_cert_parts::{Case, ExitCase, NameSet, Shared, Test};
use mlk_names::LockTerm;
use mlk_text::{Code, Column, LineNumber, List};
use std::alloc::{AllocError, Global};
use std::marker::Model;

/// A fault of a line: its number, counted from 1, and its column. Faults are in the order of lines, columns and numbers
/// of codes.
#[derive(Clone, Copy, Debug, Drop, PartialEq, Eq, PartialOrd, Ord)]
pub struct Fault {
    pub line: LineNumber,
    pub column: Column,
    pub code: Code,
}

/// A change that would correct a fault, of the certificate or of the program. Contracts do not depend on it.
#[derive(Drop)]
pub enum Mend {
    /// nothing is known here
    Nothing,
    /// list this case at a line or at one of its rounds
    Listed(LineNumber, usize, Case),
    /// list this exit in the summary
    Exit(ExitCase),
    /// list these names as changed in the summary
    Changes(Vec<NameSet>),
    /// lower the least rank in the summary to this one
    Rank(u32),
    /// the callee's least rank, and whether it may release all locks
    Callee(Option<u32>, bool),
    /// say in the summary that all locks may be released
    Drops,
    /// hold these locks
    Locks(Vec<LockTerm>),
}

/// The locks that were held, and what was known of `$TEST`, where a fault was found.
#[derive(Drop)]
pub struct Situation {
    pub test: Test,
    pub held: Shared<LockTerm>,
}

/// Additional information on a fault: what would correct it, and what was held and known there, unless that follows from the
/// correction or from the fault's place. Contracts do not depend on it.
#[derive(Drop)]
pub struct Note {
    pub mend: Mend,
    pub situation: Option<Situation>,
}

impl Note {
    /// A note with a correction only.
    pub fn of(mend: Mend) -> Note {
        Note {
            mend,
            situation: None,
        }
    }

    /// A note on a fault that was found in `case`.
    pub fn in_case(mend: Mend, case: &Case) -> Result<Note, AllocError> {
        let situation = Situation {
            test: case.test,
            held: case.held.clone()?,
        };
        Ok(Note {
            mend,
            situation: Some(situation),
        })
    }
}

/// A fault with its note.
#[derive(Drop)]
pub struct Found {
    pub fault: Fault,
    pub note: Note,
}

/// Faults in the order in which they were found. A contract sees the faults without their notes.
#[derive(Drop)]
pub struct Faults {
    items: Vec<Found>,
}

impl Model for Faults {
    ghost use Rattle.std.specs.Prelude.{List as Elements, map};
    ghost use Rattle.mlk_walk_exprs.specs.declared.walk.Fault.{Fault};

    ghost Value = { Elements Fault };

    ghost view = { λ l. map (λ f. f.fault) l.items.items };
}

/// A case that quit, with the column of the QUIT.
#[derive(Drop)]
pub struct Quit {
    pub column: Column,
    pub case: Case,
}

/// The intermediate result of a line's walk: the live states in `going`, each once; the cases that skipped and that quit; the
/// faults; and whether the walk is over because the line had more states than allowed.
#[derive(Drop)]
pub struct Walk {
    pub going: List<State>,
    pub skips: List<Case>,
    pub quits: List<Quit>,
    pub faults: Faults,
    pub over: bool,
}

impl Faults {
    /// No faults.
    pub fn new(alloc: Global) -> Faults
        ensures { result ≡ [] }
    {
        Faults {
            items: Vec::new(alloc),
        }
    }

    /// Appends a fault with its note.
    pub fn push(&mut self, fault: Fault, note: Note) -> Result<(), AllocError>
        ensures { OnOk result (self.new ≡ self.old ++ fault ∷ []) }
    {
        self.items.push(Found { fault, note })?;
        Ok(())
    }

    /// The faults with their notes.
    pub fn into_vec(self) -> Vec<Found>
        ensures { map (λ f. f.fault) result.items ≡ self }
    {
        self.items
    }
}

fn is_equal(state: &State, other: &State) -> bool
    ensures { IsTrue result ↔ (state.now ≡ other.now) }
{
    state == other
}

fn is_same(state: &State, other: &State) -> bool
    ensures { result ≡ same_state state.now other.now }
{
    is_equal(state, other)
}

fn is_among(states: &[State], state: &State) -> bool
    ensures { result ≡ list_any (same_state state.now) states.now }
{
    states.iter().any(|other| is_same(state, other))
}

/// Adds `state`, unless it is there.
#[inline(always)]
pub fn put(states: &mut List<State>, state: State) -> Result<(), AllocError>
    ensures { OnOk result (states.new ≡ put_state state states.old) }
{
    if is_among(states.as_slice(), &state) {
        return Ok(());
    }
    states.push(state)
}

// Whether no two of `states` are equal.
#[inline(always)]
fn are_distinct(states: &[State]) -> bool
    ensures { IsTrue result → put_states states.now [] ≡ states.now }
{
    let mut left = states;
    while let Some((last, before)) = left.split_last() {
        if is_among(before, last) {
            return false;
        }
        left = before;
    }
    true
}

/// Adds each of `new` to `states`, unless it is there.
pub fn put_all(states: List<State>, new: Vec<State>) -> Result<List<State>, AllocError>
    ensures { IfOk result (λ all. all ≡ put_states new.items states) }
{
    let mut all = states;
    for state in new {
        put(&mut all, state)?;
    }
    Ok(all)
}

fn is_large(state: &State) -> bool
    ensures { result ≡ is_large state.now }
{
    state.case.held.as_slice().len() > 16 || state.case.own.as_slice().len() > 64
}

fn some_large(states: &[State]) -> bool
    ensures { result ≡ list_any is_large states.now }
{
    states.iter().any(|state| is_large(state))
}

/// Whether there are more than 16 states, or one has more than 16 held terms or 64 items of own names.
#[tactic(auto, unfolding(crate::specs::Walks::too_many))]
pub fn too_many(states: &[State]) -> bool
    ensures { result ≡ too_many states.now }
{
    states.len() > 16 || some_large(states)
}

impl Walk {
    /// Adds a live state.
    #[inline(always)]
    pub fn add_live(&mut self, state: State) -> Result<(), AllocError>
        ensures { OnOk result (self.new ≡ add (Goes state) self.old) }
    {
        put(&mut self.going, state)
    }

    /// Adds live states.
    pub fn add_all_live(&mut self, states: Vec<State>) -> Result<(), AllocError>
        ensures { OnOk result (self.new ≡ add_all (map Goes states.items) self.old) }
    {
        for state in states {
            self.add_live(state)?;
        }
        Ok(())
    }

    /// Makes `states` the live ones, each once, if there are none: they were live before, and were changed in place.
    #[inline(always)]
    pub fn resume(&mut self, alloc: Global, states: Vec<State>) -> Result<(), AllocError>
        ensures { OnOk result (self.new ≡ with_states (put_states states.items []) self.old) }
    {
        self.going = if are_distinct(states.as_slice()) {
            List::of(states)
        } else {
            put_all(List::new(alloc), states)?
        };
        Ok(())
    }

    /// Removes duplicates among the live states.
    pub fn remove_duplicates(&mut self, alloc: Global) -> Result<(), AllocError>
        ensures { OnOk result (self.new ≡ with_states (put_states self.old.going []) self.old) }
    {
        let states = self.take_going(alloc);
        self.resume(alloc, states.into_vec())
    }

    /// Adds a case that skips the rest of its line or round.
    #[inline(always)]
    pub fn skip(&mut self, case: Case) -> Result<(), AllocError>
        ensures { OnOk result (self.new ≡ add (Skips case) self.old) }
    {
        self.skips.push(case)
    }

    /// Adds a case that quits at a column.
    pub fn quit(&mut self, column: Column, case: Case) -> Result<(), AllocError>
        ensures { OnOk result (self.new ≡ add (Quits column case) self.old) }
    {
        self.quits.push(Quit { column, case })
    }

    /// Adds the fault of a state that is refused.
    pub fn refuse(
        &mut self,
        line: LineNumber,
        column: Column,
        code: Code,
        note: Note,
    ) -> Result<(), AllocError>
        ensures { OnOk result (self.new ≡ add (Refused line column code) self.old) }
    {
        self.faults.push(Fault { line, column, code }, note)
    }

    /// Removes and returns the live state if there is exactly one; the capacity is kept.
    #[inline(always)]
    pub fn take_only(&mut self) -> Option<State>
        ensures { MatchOption result (self.new ≡ self.old)
            (λ s. (self.old.going ≡ s ∷ []) × (self.new ≡ with_states [] self.old)) }
    {
        if self.going.len() == 1 {
            self.going.pop()
        } else {
            None
        }
    }

    /// Removes and returns the live states.
    pub fn take_going(&mut self, alloc: Global) -> List<State>
        ensures rest { self.new ≡ with_states [] self.old }
        ensures going { result ≡ self.old.going }
    {
        std::mem::replace(&mut self.going, List::new(alloc))
    }

    /// Ends the walk of the line if there are too many states, with a fault at the command's word.
    #[tactic(auto, unfolding(crate::specs::Walks::few))]
    #[inline(always)]
    pub fn limit_states(
        &mut self,
        alloc: Global,
        line: LineNumber,
        word: Column,
    ) -> Result<(), AllocError>
        ensures { OnOk result (self.new ≡ few line word self.old) }
    {
        if !too_many(self.going.as_slice()) {
            return Ok(());
        }
        self.going = List::new(alloc);
        self.over = true;
        self.refuse(line, word, Code::TooManyCases, Note::of(Mend::Nothing))
    }

    /// Adds `states` before the live ones, unless the walk of the line is over.
    pub fn join(&mut self, alloc: Global, states: List<State>) -> Result<(), AllocError>
        ensures { OnOk result (self.new ≡ joined states self.old) }
    {
        if self.over {
            return Ok(());
        }
        let going = self.take_going(alloc);
        self.going = put_all(states, going.into_vec())?;
        Ok(())
    }
}
