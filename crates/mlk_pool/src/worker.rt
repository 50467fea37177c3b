// What workers do.

ghost use Rattle.std.specs.Prelude.{◌≡◌, ◌<◌, ◌≤◌, Some, map, slice_get};
ghost use Rattle.mlk_syntax.specs.Views.{routine_of};
ghost use Rattle.mlk_pool.specs.Given.{AreInputs, AreKnown, tasks_of};
ghost use Rattle.mlk_pool.specs.Boards.{IsOutcomeOf};

use crate::board::{Outcome, Ticket};
use crate::gate::Gate;
use crate::inputs::Inputs;
use crate::shared::SharedBoard;
use mlk_calls::Entries;
use mlk_cert::Certificate;
use mlk_program::{EntryId, Program};
use mlk_rules::Rules;
use mlk_walk::{Checks, Pieces, Unseen, verdict_split};
use mlk_watch::{Stage, Unwatched, Watch};
use std::alloc::{AllocError, Global};
use std::sync::Wait;
use std::thread;
use std::thread::Threads;

// What the walk of a claimed task gives.
fn walk_task<N: Inputs, P: Pieces + Sync, R: Threads + Sync>(
    rt: &R,
    alloc: Global,
    checks: &Checks<'_>,
    claim: &Ticket<N>,
    depth: u32,
    pieces: &P,
) -> Outcome
    requires depth { depth ≤ 6 }
    requires inputs { AreKnown N.given (map routine_of checks.now.program.now) checks.now.rules.now checks.now.entries.now }
    ensures { (entry : EntryId) → slice_get (tasks_of N.given) claim.now.task ≡ Some entry → IsOutcomeOf N.given entry result }
{
    match verdict_split(rt, alloc, checks, claim.entry(), depth, pieces) {
        Ok(verdict) => Outcome::Done(verdict),
        Err(AllocError) => Outcome::NoMemory,
    }
}

// Which worker it is, and how deep it cuts lists of lines.
#[derive(Clone, Copy, Drop)]
struct Worker {
    number: usize,
    depth: u32,
}

// Claims, asks the gate, walks, posts and notifies the gate, until no task is left to claim. As tasks are claimed in their
// order, the number of each says how many all workers together have claimed before it.
fn work_on<N: Inputs, G: Gate, W: Watch, P: Pieces + Sync, R: Threads + Wait + Sync>(
    rt: &R,
    alloc: Global,
    checks: &Checks<'_>,
    board: &SharedBoard<N>,
    gate: &G,
    watch: &W,
    worker: Worker,
    pieces: &P,
)
    requires depth { worker.depth ≤ 6 }
    requires inputs { AreKnown N.given (map routine_of checks.now.program.now) checks.now.rules.now checks.now.entries.now }
    requires worker { worker.number < N.given.workers }
{
    let count = board.task_count();
    for _ in 0..count {
        let Some(claim) = board.claim(rt, worker.number) else {
            break;
        };
        let task = claim.task();
        watch.see(Stage::Checking, task, count);
        if gate.pass(worker.number, task) {
            let outcome = walk_task(rt, alloc, checks, &claim, worker.depth, pieces);
            board.post(rt, claim, outcome);
        } else {
            board.post(rt, claim, Outcome::Shut);
        }
        gate.on_post(worker.number, task);
    }
}

/// What one worker does: it claims, asks the gate, walks, posts and notifies the gate, until no task is left to claim. It walks an
/// entry's lines in parts, side by side, as `verdict_split` does. Where there is no memory for the tables of the
/// certificate's entries, it claims nothing.
#[tactic(auto, using(crate::proofs::Runs::known_inputs))]
pub fn work<N: Inputs, G: Gate, P: Pieces + Sync, R: Threads + Wait + Sync>(
    rt: &R,
    alloc: Global,
    program: &Program<'_>,
    rules: &Rules,
    certificate: &Certificate,
    board: &SharedBoard<N>,
    gate: &G,
    worker: usize,
    depth: u32,
    pieces: &P,
)
    requires depth { depth ≤ 6 }
    requires inputs { AreInputs N.given (map routine_of program.now) rules.now certificate.now }
    requires worker { worker < N.given.workers }
{
    let Ok(entries) = Entries::of(alloc, program, rules, certificate.blocks()) else {
        return;
    };
    let checks = Checks {
        program,
        rules,
        entries: &entries,
    };
    let worker = Worker {
        number: worker,
        depth,
    };
    work_on(rt, alloc, &checks, board, gate, &Unwatched, worker, pieces);
}

/// Lets `workers` workers run, each of which walks an entry's lines in parts, cut `depth` times, and waits for them. The caller's thread
/// is worker 0, and it alone is watched; a thread that can't be started is left out, and the others do what it would have done.
pub(crate) fn run_workers<
    'x,
    N: Inputs + Send + Sync,
    G: Gate + Sync,
    W: Watch,
    R: Threads + Wait + Sync,
>(
    rt: &'x R,
    alloc: Global,
    checks: &'x Checks<'x>,
    board: &'x SharedBoard<N>,
    gate: &'x G,
    watch: &W,
    workers: usize,
    depth: u32,
)
    requires depth { depth ≤ 6 }
    requires inputs { AreKnown N.given (map routine_of checks.now.program.now) checks.now.rules.now checks.now.entries.now }
    requires workers { workers ≡ N.given.workers }
    requires one { 0 < workers }
{
    thread::scope(
        thread::scope_env(),
        rt,
        |scope|
            requires { (0 < workers) × (depth ≤ 6) × (workers ≡ N.given.workers)
                × AreKnown N.given (map routine_of checks.now.program.now) checks.now.rules.now checks.now.entries.now }
        {
            for number in 1..workers {
                let worker = Worker { number, depth };
                let _ = scope.spawn(
                    move ||
                        requires { (worker.number < N.given.workers) × (worker.depth ≤ 6)
                            × AreKnown N.given (map routine_of checks.now.program.now) checks.now.rules.now checks.now.entries.now }
                    { work_on(rt, alloc, checks, board, gate, &Unwatched, worker, &Unseen) },
                );
            }
            let caller = Worker { number: 0, depth };
            work_on(rt, alloc, checks, board, gate, watch, caller, &Unseen);
        },
    );
}
