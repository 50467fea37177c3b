// The report that workers make together.

ghost use Rattle.std.specs.Prelude.{◌≡◌, ◌<◌, ◌≤◌, [], IfOk, IfErr, filter, flat_map, map};
ghost use Rattle.std.specs.List.{AllZip};
ghost use Rattle.std.specs.Option.{ForSome};
ghost use Rattle.mlk_syntax.specs.Views.{routine_of};
ghost use Rattle.mlk_walk.specs.Verdicts.{verdict};
ghost use Rattle.mlk_walk.specs.Reports.{entries_from, is_checked, report, rows_of};
ghost use Rattle.mlk_machine_laws.specs.WellFormed.{AreFormed};
ghost use Rattle.mlk_check.specs.Theorem.{KeepsRules};
ghost use Rattle.mlk_pool.specs.Given.{AreInputs, AreKnown, given_of, is_certified};
ghost use Rattle.mlk_pool.specs.Boards.{IsSlotOf, next_slot};
ghost use Rattle.mlk_pool.specs.Refusals.{AreAllowed, FoundShut, HadNoMemory, IsFirstNotDone, IsShut, IsUnreported, StopsAt};

use crate::board::{Board, Outcome, Slot};
use crate::gate::Gate;
use crate::inputs::Inputs;
use crate::shared::SharedBoard;
use crate::tasks::{certified_entries, entries_of, is_certified};
use crate::worker::run_workers;
use mlk_calls::Entries;
use mlk_cert::Certificate;
use mlk_program::{EntryId, Program};
use mlk_rules::Rules;
use mlk_text::Failure;
use mlk_walk::{Checks, DEEPEST_CUT, Report, Verdict, verdict_of};
use mlk_watch::{Runner, Watch};
use std::alloc::{AllocError, Global};
use std::collections::VecDeque;
use std::marker::Brand;
use std::sync::Wait;
use std::thread::Threads;
use thiserror::Error;

/// Why workers make no report.
#[derive(Clone, Copy, Debug, Drop, PartialEq, Eq, Error)]
pub enum PoolFault {
    /// There are no workers, or more than 64.
    #[error("the number of workers must be 1 to 64")]
    Workers,
    /// The gate let nobody pass to this one of the tasks, counted from 0.
    #[error("the gate lets nobody pass to task {0}")]
    GateShut(usize),
}

/// The largest number of workers.
pub const MOST_WORKERS: usize = 64;

// The verdict of an entry after all workers have ended, where it is a task by what is at it: the one that was posted, else
// that of a walk on the caller's thread. Where the gate was shut it is asked once more.
#[tactic(auto, using(crate::proofs::Runs::verdict_given))]
fn settled_verdict<N: Inputs, G: Gate>(
    alloc: Global,
    checks: &Checks<'_>,
    entry: EntryId,
    task: usize,
    slot: Option<Slot>,
    gate: &G,
) -> Result<Verdict, Failure<PoolFault>>
    requires inputs { AreKnown N.given (map routine_of checks.now.program.now) checks.now.rules.now checks.now.entries.now }
    requires slot { ForSome slot (IsSlotOf N.given entry) }
    ensures ok { IfOk result (λ v. v ≡ verdict (map routine_of checks.now.program.now) checks.now.rules.now
        checks.now.entries.now entry) }
    ensures memory { IfOk result (λ _. HadNoMemory slot → ⊥) }
    ensures refused { IfErr result (IsShut (G.is_open gate.now) (λ t. (t ≡ task) × FoundShut slot)) }
{
    match slot {
        Some(Slot::Posted(_, Outcome::Done(verdict))) => Ok(verdict),
        Some(Slot::Posted(_, Outcome::NoMemory)) => Err(Failure::OutOfMemory),
        Some(Slot::Posted(_, Outcome::Shut)) if !gate.pass(0, task) => {
            Err(Failure::Refused(PoolFault::GateShut(task)))
        }
        _ => Ok(verdict_of(alloc, checks, entry)?),
    }
}

fn is_checked(known: &Entries<'_>, entry: EntryId) -> bool
    ensures { result ≡ is_checked known.now entry }
{
    is_certified(known, entry) || known.is_declared(entry)
}

// What is at an entry's task, where it is one. The slots of the later tasks are left.
fn next_slot(known: &Entries<'_>, entry: EntryId, slots: &mut VecDeque<Slot>) -> Option<Slot>
    ensures { (result, slots.new.items) ≡ next_slot (is_certified known.now.0 entry) slots.old.items }
{
    if is_certified(known, entry) {
        slots.pop_front()
    } else {
        None
    }
}

// The report after all workers have ended.
fn collect_report<N: Inputs, G: Gate>(
    alloc: Global,
    checks: &Checks<'_>,
    entries: &[EntryId],
    slots: Vec<Slot>,
    gate: &G,
) -> Result<Report, Failure<PoolFault>>
    requires inputs { AreKnown N.given (map routine_of checks.now.program.now) checks.now.rules.now checks.now.entries.now }
    requires slots { AllZip (IsSlotOf N.given) (filter (is_certified checks.now.entries.now.0) entries.now) slots.items }
    ensures ok { IfOk result (λ r. r ≡ flat_map
        (rows_of (map routine_of checks.now.program.now) checks.now.rules.now checks.now.entries.now) entries.now) }
    ensures refused { IfErr result (IsShut (G.is_open gate.now) (IsFirstNotDone slots.items)) }
{
    let mut report = Report::new(alloc);
    let count = slots.len();
    let mut left = VecDeque::from(slots);
    for entry in entries {
        let task = count.saturating_sub(left.len());
        let slot = next_slot(checks.entries, *entry, &mut left);
        if is_checked(checks.entries, *entry) {
            let verdict = settled_verdict::<N, G>(alloc, checks, *entry, task, slot, gate)?;
            report.add(*entry, verdict)?;
        }
    }
    Ok(report)
}

// How deep lists of lines are cut, so that no worker is without a part while few entries are left: as deep as leaves tasks times
// parts at most as many as the workers.
fn depth_for(tasks: usize, workers: usize) -> u32
    ensures { result ≤ 6 }
{
    let mut depth = 0;
    let mut parts = tasks;
    while depth < DEEPEST_CUT && 0 < parts && parts <= workers / 2 {
        depth += 1;
        parts *= 2;
    }
    depth
}

// The report of a run whose checks look into these.
fn report_with<N: Inputs + Send + Sync, G: Gate + Sync, W: Watch, R: Threads + Wait + Sync>(
    runner: &Runner<'_, R, W>,
    checks: &Checks<'_>,
    workers: usize,
    gate: &G,
) -> Result<Report, Failure<PoolFault>>
    requires inputs { AreKnown N.given (map routine_of checks.now.program.now) checks.now.rules.now checks.now.entries.now }
    requires workers { workers ≡ N.given.workers }
    requires one { 0 < workers }
    ensures ok { IfOk result (λ r. r ≡ flat_map
        (rows_of (map routine_of checks.now.program.now) checks.now.rules.now checks.now.entries.now)
        (entries_from 0 (map routine_of checks.now.program.now))) }
    ensures refused { IfErr result (IsShut (G.is_open gate.now) (StopsAt N.given)) }
{
    let alloc = runner.alloc;
    let entries = entries_of(alloc, checks.program)?;
    let tasks = certified_entries(alloc, checks.entries, entries.as_slice())?;
    let depth = depth_for(tasks.len(), workers);
    let board: SharedBoard<N> = SharedBoard::new(Board::of(alloc, tasks)?);
    let (rt, watch) = (runner.rt, runner.watch);
    run_workers(rt, alloc, checks, &board, gate, watch, workers, depth);
    let slots = board.into_board().into_slots();
    collect_report::<N, G>(alloc, checks, entries.as_slice(), slots, gate)
}

// The report of a run that is given these.
#[tactic(auto, unfolding(mlk_walk::specs::Reports::report), using(crate::proofs::Runs::known_inputs))]
fn report_on<N: Inputs + Send + Sync, G: Gate + Sync, W: Watch, R: Threads + Wait + Sync>(
    runner: &Runner<'_, R, W>,
    program: &Program<'_>,
    rules: &Rules,
    certificate: &Certificate,
    workers: usize,
    gate: &G,
) -> Result<Report, Failure<PoolFault>>
    requires inputs { AreInputs N.given (map routine_of program.now) rules.now certificate.now }
    requires workers { workers ≡ N.given.workers }
    requires one { 0 < workers }
    ensures ok { IfOk result (λ r. r ≡ report (map routine_of program.now) rules.now certificate.now) }
    ensures refused { IfErr result (IsShut (G.is_open gate.now) (StopsAt N.given)) }
{
    let entries = Entries::of(runner.alloc, program, rules, certificate.blocks())?;
    let checks = Checks {
        program,
        rules,
        entries: &entries,
    };
    report_with::<N, G, W, R>(runner, &checks, workers, gate)
}

/// The faults of a program by its rules and a certificate, found by 1 to 64 workers side by side: for each entry that is
/// declared or certified, in the program's order, those of its verdict. It is `yes` where there are none. It is the same for
/// every number of workers.
///
/// After a `yes`, every run of any number of jobs begun at the declared entries keeps the rules, whoever made the
/// certificate. Routines that were read are well formed.
///
/// The caller's thread is one of the workers. What no worker has done in the end it does, and where the gate was shut it asks
/// once more: so the refusal is that of the first task that is still not done. `watch` sees how far the work has come.
pub fn report_by<G: Gate + Sync, W: Watch, R: Threads + Wait + Sync>(
    runner: &Runner<'_, R, W>,
    program: &Program<'_>,
    rules: &Rules,
    certificate: &Certificate,
    workers: usize,
    gate: &G,
) -> Result<Report, Failure<PoolFault>>
    ensures exact { IfOk result (λ r. r ≡ report (map routine_of program.now) rules.now certificate.now) }
    ensures safe { IfOk result (λ r. r ≡ [] → AreFormed (map routine_of program.now)
        → KeepsRules (map routine_of program.now) rules.now certificate.now) }
    ensures allowed { IfOk result (λ _. AreAllowed workers) }
    ensures refused { IfErr result (IsUnreported (G.is_open gate.now)
        (given_of (map routine_of program.now) rules.now certificate.now workers)) }
{
    // What rules and certificates are by their types.
    let _ = rules.lists();
    let _ = certificate.blocks();
    if workers == 0 || workers > MOST_WORKERS {
        return Err(Failure::Refused(PoolFault::Workers));
    }
    report_on::<Brand, G, W, R>(runner, program, rules, certificate, workers, gate)
}
