// Calls: the callee's summary, translated by the actuals, describes everything that the callee does.

ghost use Rattle.std.specs.Prelude.{◌≡◌, ◌++◌, ◌-◌, IfOk, OnOk, Some, map, flat_map, length, take, option_map, option_copied};
ghost use Rattle.mlk_text.specs.Failures.{Answers};
ghost use Rattle.mlk_syntax.specs.ExprTrees.{actual_of, actual_trees};
ghost use Rattle.mlk_syntax.specs.Views.{line_of};
ghost use Rattle.std.specs.List.{list_any};
ghost use Rattle.mlk_cert_parts.specs.declared.case.ExitCase.{ExitCase as exit_case};
ghost use Rattle.mlk_walk_state.specs.Cases.{holds_some};
ghost use Rattle.mlk_walk_state.specs.Lists.{all_some};
ghost use Rattle.mlk_walk_state.specs.Refusals.{AnswersOf};
ghost use Rattle.mlk_walk_state.specs.Terms.{put_term, put_terms, add_terms};
ghost use Rattle.mlk_calls.specs.Changes.{marked};
ghost use Rattle.mlk_walk_state.specs.Scope.{scope_of};
ghost use Rattle.mlk_walk_state.specs.States.{last_captured, without_last};
ghost use Rattle.mlk_calls.specs.Changes.{changed_state};
ghost use Rattle.mlk_calls.specs.Calls.{Called, formals_in, called, lent_set, changed_by_call, callee_summary, changes_by};
ghost use Rattle.mlk_calls.specs.Calls.{missing_need, ranks_below, all_below, leave, SameEnds, after_call, ranks_fault};
ghost use Rattle.mlk_calls.specs.Calls.{call_fault, set_aside, call_changing, at_call, at_job, test_after, called_of};

use crate::changing::{change_fault, changed_case, mark_all};
use crate::claim::is_low_enough;
use mlk_cert_parts::{Case, ExitCase, NameSet, Shared, Summary, Test};
use mlk_names::{LockTerm, Sym, substitute};
use mlk_rules::Rules;
use mlk_syntax::{Actual, Callee, Line};
use mlk_text::{Code, Failure, List, Name, copy_of};
use mlk_walk_state::{
    RefusedState, Scope, State, before_last, copy_case, copy_terms, last_of, put_all, rank,
    take_all,
};
use std::alloc::{AllocError, Global};

/// How a callee is called.
#[derive(Clone, Copy, Drop, PartialEq, Eq)]
pub enum Calling {
    /// by DO, which takes over the callee's `$TEST`
    ByDo,
    /// as a function, which keeps `$TEST`
    Extrinsic,
}

// What is known of a callee.
#[derive(Clone, Copy, Drop)]
pub(crate) struct KnownCallee<'a> {
    pub(crate) formals: &'a [Name],
    pub(crate) summary: &'a Summary,
}

fn formals_of<'a>(line: Option<&'a Line>) -> &'a [Name]
    ensures { result.now ≡ formals_in (option_map line_of (option_copied line.entry)) }
{
    match line {
        None => &[],
        Some(line) => match line.formals.as_ref() {
            None => &[],
            Some(formals) => formals.as_slice(),
        },
    }
}

// What is known of a callee, or `None` if it is not certified.
pub(crate) fn known_callee<'a>(scope: &Scope<'a>, callee: &Callee) -> Option<KnownCallee<'a>>
    ensures { option_map called_of result ≡ called (scope_of scope.now) callee.now }
{
    let entry = scope.program.target(scope.entry.routine(), callee)?;
    let summary = scope.entries.summary(entry)?;
    let formals = formals_of(scope.program.line(entry));
    Some(KnownCallee { formals, summary })
}

// Adds the name that an actual passes by reference.
fn add_lent(names: &mut Vec<NameSet>, actual: &Actual) -> Result<(), AllocError>
    ensures { OnOk result (names.new.items ≡ names.old.items ++ lent_set (actual_of actual.now)) }
{
    match actual {
        Actual::ByRef(_, name) => {
            names.push(NameSet::Only(name.copy()?))?;
            Ok(())
        }
        Actual::Value(_) | Actual::Missing => Ok(()),
    }
}

// The names that actuals pass by reference.
pub(crate) fn lent_names(alloc: Global, given: &[Actual]) -> Result<Vec<NameSet>, AllocError>
    ensures { IfOk result (λ v. v.items ≡ flat_map lent_set (actual_trees given.now)) }
{
    let mut names = Vec::new(alloc);
    for actual in given {
        add_lent(&mut names, actual)?;
    }
    Ok(names)
}

pub(crate) fn changes(
    alloc: Global,
    mods: &[NameSet],
    lent: Vec<NameSet>,
) -> Result<Vec<NameSet>, AllocError>
    ensures { IfOk result (λ v. v.items ≡ mods.now ++ lent.items) }
{
    let mut names = Vec::from_clones(alloc, mods)?;
    let mut lent = lent;
    names.append(&mut lent)?;
    Ok(names)
}

pub(crate) fn all_given(alloc: Global, actuals: &[Sym]) -> Result<Vec<Option<Sym>>, AllocError>
    ensures { IfOk result (λ v. v.items ≡ map Some actuals.now) }
{
    let mut given = Vec::new(alloc);
    for actual in actuals {
        given.push(Some(copy_of(actual)?))?;
    }
    Ok(given)
}

fn put_term(
    alloc: Global,
    formals: &[Name],
    given: &[Option<Sym>],
    term: &LockTerm,
) -> Result<Option<LockTerm>, AllocError>
    ensures { IfOk result (λ t. t ≡ put_term formals.now given.now term.now) }
{
    let found = substitute(alloc, term, formals, given)?;
    Ok(found)
}

// Translates the callee's terms for its caller.
pub(crate) fn put_terms(
    alloc: Global,
    formals: &[Name],
    given: &[Option<Sym>],
    terms: &[LockTerm],
) -> Result<Option<Vec<LockTerm>>, AllocError>
    ensures { IfOk result (λ o. option_map (λ v. v.items) o ≡ put_terms formals.now given.now terms.now) }
{
    let mut found = Vec::new(alloc);
    let mut left = terms;
    while let Some((term, others)) = left.split_first() {
        let Some(own) = put_term(alloc, formals, given, term)? else {
            return Ok(None);
        };
        found.push(own)?;
        left = others;
    }
    Ok(Some(found))
}

fn ranks_below(low: Option<u32>, rank: Option<u32>) -> bool
    ensures { result ≡ ranks_below low rank }
{
    match (low, rank) {
        (None, _) => true,
        (Some(_), None) => false,
        (Some(low), Some(rank)) => rank < low,
    }
}

// Whether each of `terms` has a rank below `low`.
fn all_below(rules: &Rules, low: Option<u32>, terms: &[LockTerm]) -> bool
    ensures { result ≡ all_below rules.now.families low terms.now }
{
    terms.iter().all(|term| ranks_below(low, rank(rules, term)))
}

// The fault of the callee's claims and of its release of all locks, or `None`.
fn ranks_fault(scope: &Scope, summary: &Summary, aside: &[LockTerm]) -> Option<Code>
    ensures { result ≡ ranks_fault (scope_of scope.now) summary.now aside.now }
{
    if !all_below(scope.rules, summary.low, aside) {
        return Some(Code::RankOrder);
    }
    if !is_low_enough(scope.block.summary.low, summary.low) {
        return Some(Code::SummaryShort);
    }
    if summary.drops && !aside.is_empty() {
        return Some(Code::DropsFrame);
    }
    if summary.drops && !scope.block.summary.drops {
        return Some(Code::SummaryShort);
    }
    None
}

fn call_fault(
    scope: &Scope,
    summary: &Summary,
    names: &[NameSet],
    aside: &[LockTerm],
    state: &State,
) -> Option<Code>
    ensures { result ≡ call_fault (scope_of scope.now) summary.now names.now aside.now state.now }
{
    match change_fault(scope, names, state) {
        Some(code) => Some(code),
        None => ranks_fault(scope, summary, aside),
    }
}

// The held terms without the callee's needs.
fn set_aside(
    alloc: Global,
    target: &KnownCallee,
    actuals: &[Sym],
    held: &Shared<LockTerm>,
) -> Result<Shared<LockTerm>, Failure<Code>>
    ensures { Answers (λ h. h) result (set_aside (called_of target.now) actuals.now held.now) }
{
    let need = target.summary.need.as_slice();
    if need.is_empty() {
        return Ok(held.clone()?);
    }
    let given = all_given(alloc, actuals)?;
    let Some(needs) = put_terms(alloc, target.formals, given.as_slice(), need)? else {
        return Err(Failure::Refused(Code::UnknownSubscript));
    };
    let Some(aside) = take_all(copy_terms(alloc, held.as_slice())?, needs.as_slice()) else {
        return Err(Failure::Refused(Code::NeedMissing));
    };
    Ok(Shared::new(alloc, aside)?)
}

fn test_after(how: Calling, before: Test, after: Test) -> Test
    ensures { result ≡ test_after how before after }
{
    match how {
        Calling::ByDo => after,
        Calling::Extrinsic => before,
    }
}

// The terms set aside together with `terms`.
fn held_after(
    alloc: Global,
    aside: &Shared<LockTerm>,
    terms: &[LockTerm],
) -> Result<Shared<LockTerm>, AllocError>
    ensures { IfOk result (λ h. h ≡ add_terms terms.now aside.now) }
{
    if terms.is_empty() {
        return aside.clone();
    }
    Shared::new(alloc, put_all(alloc, aside.as_slice(), terms)?)
}

// How a call ends: the actuals at its end, by which the terms of exits are translated, and the terms that were set aside.
#[derive(Clone, Copy, Drop)]
struct Ending<'a> {
    how: Calling,
    formals: &'a [Name],
    given: &'a [Option<Sym>],
    aside: &'a Shared<LockTerm>,
}

// The state after an exit.
fn state_after_exit(
    alloc: Global,
    ending: &Ending<'_>,
    state: &State,
    exit: &ExitCase,
) -> Result<Option<State>, AllocError>
    ensures { IfOk result (λ s. s ≡ leave ending.now.how ending.now.formals.now ending.now.given.now ending.now.aside.now
        state.now exit.now) }
{
    let terms = put_terms(alloc, ending.formals, ending.given, exit.held.as_slice())?;
    let Some(terms) = terms else {
        return Ok(None);
    };
    let case = Case {
        test: test_after(ending.how, state.case.test, exit.test),
        held: held_after(alloc, ending.aside, terms.as_slice())?,
        own: state.case.own.clone()?,
        kept: state.case.kept.clone()?,
        saved: state.case.saved.clone()?,
    };
    let captured = copy_of(&state.captured)?;
    Ok(Some(State { case, captured }))
}

fn leave_all(
    alloc: Global,
    ending: &Ending<'_>,
    state: &State,
    exits: &[ExitCase],
) -> Result<Option<Vec<State>>, AllocError>
    ensures { IfOk result (λ o. option_map (λ v. v.items) o
        ≡ all_some (leave ending.now.how ending.now.formals.now ending.now.given.now ending.now.aside.now state.now) exits.now) }
{
    let mut found = Vec::new(alloc);
    let mut left = exits;
    while let Some((exit, others)) = left.split_first() {
        let Some(after) = state_after_exit(alloc, ending, state, exit)? else {
            return Ok(None);
        };
        found.push(after)?;
        left = others;
    }
    Ok(Some(found))
}

// The state after a change, without the last `count` captured symbols.
fn changed_before(
    alloc: Global,
    names: &[NameSet],
    count: usize,
    state: &State,
) -> Result<State, AllocError>
    ensures { IfOk result (λ s. s ≡ changed_state names.now (without_last count state.now)) }
{
    let case = changed_case(alloc, names, copy_case(&state.case)?)?;
    let captured = mark_all(alloc, names, before_last(state.captured.as_slice(), count))?;
    Ok(State {
        case,
        captured: List::of(captured),
    })
}

fn holds_some(exit: &ExitCase) -> bool
    ensures { result ≡ holds_some exit.now.held }
{
    exit.held.as_slice().len() > 0
}

fn some_hold(exits: &[ExitCase]) -> bool
    ensures { result ≡ list_any (λ (e : exit_case). holds_some e.held) exits.now }
{
    exits.iter().any(|exit| holds_some(exit))
}

// The actuals at the end of the call, for the terms of `exits`. Usually there are no terms, and then none is needed.
fn given_at_end(
    alloc: Global,
    names: &[NameSet],
    actuals: &[Sym],
    exits: &[ExitCase],
) -> Result<Vec<Option<Sym>>, AllocError>
    ensures { IfOk result (λ v. SameEnds v.items (map Some (map (marked names.now) actuals.now)) exits.now) }
{
    if !some_hold(exits) {
        return Ok(Vec::new(alloc));
    }
    let marked = mark_all(alloc, names, actuals)?;
    all_given(alloc, marked.as_slice())
}

// A call of a certified entry that may change `names`. Its `count` actuals were captured last.
#[derive(Clone, Copy, Drop)]
struct ChangingCall<'a> {
    how: Calling,
    target: &'a KnownCallee<'a>,
    names: &'a [NameSet],
    count: usize,
}

fn after_call(
    alloc: Global,
    call: &ChangingCall<'_>,
    aside: &Shared<LockTerm>,
    state: &State,
) -> Result<Vec<State>, Failure<Code>>
    ensures { Answers (λ v. v.items) result (after_call call.now.how (called_of call.now.target.now)
        (last_captured call.now.count state.now) call.now.names.now aside.now (without_last call.now.count state.now)) }
{
    let target = call.target;
    let exits = target.summary.exits.as_slice();
    let actuals = last_of(state.captured.as_slice(), call.count);
    let given = given_at_end(alloc, call.names, actuals, exits)?;
    let after = changed_before(alloc, call.names, call.count, state)?;
    let ending = Ending {
        how: call.how,
        formals: target.formals,
        given: given.as_slice(),
        aside,
    };
    let Some(states) = leave_all(alloc, &ending, &after, exits)? else {
        return Err(Failure::Refused(Code::UnknownSubscript));
    };
    Ok(states)
}

fn call_changing(
    alloc: Global,
    scope: &Scope,
    call: &ChangingCall<'_>,
    state: &State,
) -> Result<Vec<State>, Failure<Code>>
    ensures { Answers (λ v. v.items) result (call_changing (scope_of scope.now) call.now.how (called_of call.now.target.now)
        call.now.names.now (last_captured call.now.count state.now) (without_last call.now.count state.now)) }
{
    let target = call.target;
    let actuals = last_of(state.captured.as_slice(), call.count);
    let aside = set_aside(alloc, target, actuals, &state.case.held)?;
    if let Some(code) = call_fault(scope, target.summary, call.names, aside.as_slice(), state) {
        return Err(Failure::Refused(code));
    }
    let states = after_call(alloc, call, &aside, state)?;
    Ok(states)
}

// Calls a certified entry with the given actual list.
fn call_target(
    alloc: Global,
    scope: &Scope,
    how: Calling,
    target: &KnownCallee,
    given: &[Actual],
    state: &State,
) -> Result<Vec<State>, Failure<Code>>
    ensures { Answers (λ v. v.items) result (call_changing (scope_of scope.now) how (called_of target.now)
        (changed_by_call target.now.summary.now (actual_trees given.now))
        (last_captured (length (actual_trees given.now)) state.now)
        (without_last (length (actual_trees given.now)) state.now)) }
{
    let mods = target.summary.mods.as_slice();
    let lent = lent_names(alloc, given)?;
    let count = given.len();
    if lent.is_empty() {
        let call = ChangingCall {
            how,
            target,
            names: mods,
            count,
        };
        let states = call_changing(alloc, scope, &call, state)?;
        return Ok(states);
    }
    let names = changes(alloc, mods, lent)?;
    let call = ChangingCall {
        how,
        target,
        names: names.as_slice(),
        count,
    };
    let states = call_changing(alloc, scope, &call, state)?;
    Ok(states)
}

/// The effect on a state of a call with the actual list `given`, whose symbols were captured last: one state for each exit of the
/// callee. An actual whose symbol was not captured is unknown. A DO takes over the exit's `$TEST`, a function keeps it; own names
/// and saved tests are kept.
///
/// The callee's needs are taken from the held terms, and the rest is set aside. The names that it may change, by its summary or
/// by reference, are checked against all held terms and against the walked entry's summary; its claims must rank above the terms
/// set aside. Captured symbols that mention a name that it may change become unknown, those of the actuals too.
///
/// Refused by the first of: no certificate (713); a need that would have an unknown subscript (715) or is not held (711); a
/// change of a name that a held term mentions (705) or that is not listed (712); the order of ranks (708) or a least rank that is
/// not listed (712); a release of all locks while some are set aside (719) or that is not listed (712); an exit that would have
/// an unknown subscript (715). One refused exit refuses all.
pub fn at_call(
    alloc: Global,
    scope: &Scope,
    how: Calling,
    callee: &Callee,
    given: &[Actual],
    state: State,
) -> Result<Vec<State>, Failure<RefusedState>>
    ensures { AnswersOf state (λ v. v.items) result
        (at_call (scope_of scope.now) how callee.now (actual_trees given.now) state) }
{
    let Some(target) = known_callee(scope, callee) else {
        return Err(Failure::Refused(RefusedState {
            code: Code::NoCertificate,
            state,
        }));
    };
    match call_target(alloc, scope, how, &target, given, &state) {
        Ok(states) => Ok(states),
        Err(Failure::OutOfMemory) => Err(Failure::OutOfMemory),
        Err(Failure::Refused(code)) => Err(Failure::Refused(RefusedState { code, state })),
    }
}

/// The effect on a state of JOB with the actual list `given`, whose symbols were captured last. Refused if the entry is not
/// declared (713).
pub fn at_job(
    scope: &Scope,
    callee: &Callee,
    given: &[Actual],
    state: State,
) -> Result<State, Failure<RefusedState>>
    ensures { AnswersOf state (λ s. s) result
        (at_job (scope_of scope.now) callee.now (actual_trees given.now) state) }
{
    let begun = match scope.program.target(scope.entry.routine(), callee) {
        Some(entry) => scope.entries.is_declared(entry),
        None => false,
    };
    if !begun {
        return Err(Failure::Refused(RefusedState {
            code: Code::NoCertificate,
            state,
        }));
    }
    Ok(state.without_last(given.len()))
}
