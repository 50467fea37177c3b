// The board: which tasks are claimed and posted, and by whom.

ghost use Rattle.std.specs.Prelude.{◌≡◌, ◌<◌, ◌↔◌, ◌++◌, ◌∷◌, [], Some, IfOk, IfSome, IfNone};
ghost use Rattle.std.specs.Prelude.{IsNone, IsTrue, length, map, slice_get, slice_set, replicate};
ghost use Rattle.mlk_syntax.specs.Views.{routine_of};
ghost use Rattle.mlk_pool.specs.Given.{AreInputs, tasks_of};

use crate::inputs::Inputs;
use crate::tasks::{certified_entries, entries_of};
use mlk_calls::Entries;
use mlk_cert::Certificate;
use mlk_program::{EntryId, Program};
use mlk_rules::Rules;
use mlk_walk::Verdict;
use std::alloc::{AllocError, Global};
use std::marker::{Model, PhantomData};

/// What a worker posts of a task.
#[derive(Drop)]
pub enum Outcome {
    Done(Verdict),
    /// Memory ran out while the task was walked.
    NoMemory,
    /// The gate did not let the worker pass.
    Shut,
}

/// The state of a task: nothing yet, the worker that claimed it, or what that worker posted.
#[derive(Drop)]
pub enum Slot {
    Open,
    Claimed(usize),
    Posted(usize, Outcome),
}

/// One change of a board.
#[derive(Clone, Copy, Drop, PartialEq, Eq)]
pub enum Event {
    Claim { worker: usize, task: usize },
    Post { worker: usize, task: usize },
}

/// A task that a worker has claimed.
#[derive(Drop)]
pub struct Ticket<N: Inputs> {
    worker: usize,
    task: usize,
    entry: EntryId,
    of: PhantomData<N>,
    pub ghost is_task: { slice_get (tasks_of N.given) task ≡ Some entry },
}

impl<N: Inputs> Ticket<N> {
    /// Which of the tasks it is, counted from 0. It takes no memory.
    pub fn task(&self) -> usize
        ensures { result ≡ self.now.task }
    {
        self.task
    }

    /// The entry that the task is to walk. It takes no memory.
    pub fn entry(&self) -> EntryId
        ensures { slice_get (tasks_of N.given) self.now.task ≡ Some result }
    {
        self.entry
    }
}

/// The tasks of a run, the state of each, and the claims and posts so far. The log is a history in which each claim is of
/// the least task not yet claimed and each post is of a task that its worker had claimed; the slots are as it leaves them;
/// and each verdict that was posted is that of its task.
#[derive(Drop)]
pub struct Board<N: Inputs> {
    tasks: Vec<EntryId>,
    next: usize,
    slots: Vec<Slot>,
    log: Vec<Event>,
    of: PhantomData<N>,
}

impl<N: Inputs> Model for Board<N> {
    ghost use Rattle.mlk_pool.specs.Shown.{Shown};

    ghost Value = { Shown };

    ghost use Rattle.mlk_pool.specs.Boards.{shown_of, IsKept};

    ghost view = { λ b. shown_of b.slots b.log };

    ghost invariant = { λ b. IsKept N.given b.tasks.items b.next b.slots b.log };
}

impl<N: Inputs> Board<N> {
    ghost use Rattle.mlk_pool.specs.declared.board.Slot.TheVariants.{Open, Claimed, Posted};
    ghost use Rattle.mlk_pool.specs.declared.board.Event.TheVariants.{Claim as Claiming, Post as Posting};
    ghost use Rattle.std.specs.List.{AllZip};
    ghost use Rattle.mlk_pool.specs.Histories.{AreAllClaimed, IsNext};
    ghost use Rattle.mlk_pool.specs.Boards.{IsOutcomeOf, IsSlotOf, IsLogOf, stage_of};

    /// A board on which each certified entry of the program is an open task, with room for all that can happen on it. The
    /// number of workers takes no part in that: it says who may claim.
    pub fn new(
        alloc: Global,
        program: &Program<'_>,
        rules: &Rules,
        certificate: &Certificate,
        workers: usize,
    ) -> Result<Board<N>, AllocError>
        requires inputs { AreInputs N.given (map routine_of program.now) rules.now certificate.now }
        requires workers { workers ≡ N.given.workers }
        ensures log { IfOk result (λ b. b.log ≡ []) }
        ensures slots { IfOk result (λ b. b.slots ≡ replicate (length (tasks_of N.given)) Open) }
    {
        let known = Entries::of(alloc, program, rules, certificate.blocks())?;
        let entries = entries_of(alloc, program)?;
        Board::of(alloc, certified_entries(alloc, &known, entries.as_slice())?)
    }

    /// A board of these tasks.
    pub(crate) fn of(alloc: Global, tasks: Vec<EntryId>) -> Result<Board<N>, AllocError>
        requires { tasks.items ≡ tasks_of N.given }
        ensures log { IfOk result (λ b. b.log ≡ []) }
        ensures slots { IfOk result (λ b. b.slots ≡ replicate (length (tasks_of N.given)) Open) }
    {
        let count = tasks.len();
        let slots = open_slots(alloc, count)?;
        let log = Vec::with_capacity(alloc, 2 * count)?;
        Ok(Board {
            tasks,
            next: 0,
            slots,
            log,
            of: PhantomData,
        })
    }

    /// The next task; none where every task is claimed. It takes no memory.
    pub fn claim(&mut self, worker: usize) -> Option<Ticket<N>>
        requires { worker < N.given.workers }
        ensures none { IsNone result ↔ AreAllClaimed (map stage_of self.old.slots) }
        ensures stays { IfNone result (self.new ≡ self.old) }
        ensures next { IfSome result (λ c. IsNext (map stage_of self.old.slots) c.task × (c.worker ≡ worker)) }
        ensures slots { IfSome result (λ c. self.new.slots ≡ slice_set self.old.slots c.task (Claimed worker)) }
        ensures log { IfSome result (λ c. self.new.log ≡ self.old.log ++ Claiming worker c.task ∷ []) }
    {
        let task = self.next;
        if task >= self.tasks.len() {
            return None;
        }
        let entry = self.tasks[task];
        self.slots[task] = Slot::Claimed(worker);
        self.log.push_reserved(Event::Claim { worker, task });
        self.next = task + 1;
        Some(Ticket {
            worker,
            task,
            entry,
            of: PhantomData,
        })
    }

    /// Whether the claim came from this board and is not spent: its task is claimed by its worker and not posted. It takes
    /// no memory.
    pub fn has_claimed(&self, claim: &Ticket<N>) -> bool
        ensures { IsTrue result ↔ (slice_get self.now.slots claim.now.task ≡ Some (Claimed claim.now.worker)) }
    {
        match self.slots.get(claim.task) {
            Some(Slot::Claimed(worker)) => *worker == claim.worker,
            _ => false,
        }
    }

    /// Spends a claim that came from this board, and keeps the outcome of its task. It takes no memory.
    pub fn post(&mut self, claim: Ticket<N>, outcome: Outcome)
        requires claimed { slice_get self.old.slots claim.task ≡ Some (Claimed claim.worker) }
        requires outcome { (entry : EntryId) → slice_get (tasks_of N.given) claim.task ≡ Some entry → IsOutcomeOf N.given entry outcome }
        ensures slots { self.new.slots ≡ slice_set self.old.slots claim.task (Posted claim.worker outcome) }
        ensures log { self.new.log ≡ self.old.log ++ Posting claim.worker claim.task ∷ [] }
    {
        let Ticket {
            worker,
            task,
            entry: _,
            of: _,
        } = claim;
        self.slots[task] = Slot::Posted(worker, outcome);
        self.log.push_reserved(Event::Post { worker, task });
    }

    /// The claims and posts so far. It takes no memory.
    pub fn log(&self) -> &[Event]
        ensures log { result.now ≡ self.now.log }
        ensures history { IsLogOf self.now.log self.now.slots }
    {
        self.log.as_slice()
    }

    /// How many tasks there are. It takes no memory.
    pub(crate) fn task_count(&self) -> usize {
        self.tasks.len()
    }

    /// The state of each task, once the board is no longer shared.
    pub(crate) fn into_slots(self) -> Vec<Slot>
        ensures { AllZip (IsSlotOf N.given) (tasks_of N.given) result.items }
    {
        let Board {
            tasks: _,
            next: _,
            slots,
            log: _,
            of: _,
        } = self;
        slots
    }
}

fn open_slots(alloc: Global, count: usize) -> Result<Vec<Slot>, AllocError>
    ensures { IfOk result (λ v. v.items ≡ replicate count Slot.Open) }
{
    let mut slots = Vec::with_capacity(alloc, count)?;
    for _ in 0..count {
        slots.push(Slot::Open)?;
    }
    Ok(slots)
}
