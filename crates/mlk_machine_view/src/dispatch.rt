// The state of a job for each kind of task.

ghost use Rattle.std.specs.Prelude.{◌≡◌, ◌∷◌, List, map};
ghost use Rattle.mlk_syntax.specs.Views.{routine_of};
ghost use Rattle.mlk_machine_jobs.specs.Seen as seen;
ghost use Rattle.mlk_machine_jobs.specs.Seen.{state_in};
ghost use Rattle.mlk_machine_jobs.specs.Tasks.{Task as TaskOf};
ghost use Rattle.mlk_machine_jobs.specs.JobViews.{job_of};
ghost use Rattle.mlk_machine_jobs.specs.TaskViews.{value_task, local_task, test_task, lock_task, scope_task, line_task, task_of};
ghost use Rattle.mlk_machine_view.specs.StateViews.{state_of};

use crate::asking::{
    applies_binary, applies_unary, ends_frame, fetch_state, select_state, uses_last, uses_truth,
};
use crate::call::{call_state, goto_state, lines_state};
use crate::shown::State;
use mlk_machine_jobs::{
    Job, LineTask, LocalTask, LockTask, Pending, ScopeTask, Task, TestTask, ValueTask,
};
use mlk_program::Program;

// The state at a task of an expression.
#[tactic(auto, using(crate::proofs::AskedLemmas::fetch_shows, crate::proofs::AskedLemmas::unary_shows, crate::proofs::AskedLemmas::binary_shows, crate::proofs::AskedLemmas::select_shows, crate::proofs::AskedLemmas::selected_shows))]
fn value_state<'j>(program: &Program, job: &Job, task: &'j ValueTask) -> State<'j>
    ensures { (ts : List TaskOf) → state_of result
        ≡ state_in (map routine_of program.now) (job_of job.now) (value_task task.now ∷ ts) }
{
    match task {
        ValueTask::Fetch(name) => fetch_state(job, name),
        ValueTask::ApplyUnary(op) => applies_unary(job, *op),
        ValueTask::ApplyBinary(op) => applies_binary(job, *op),
        ValueTask::AskValue(_) => State::AsksChoice,
        ValueTask::Select(branches) => select_state(branches),
        ValueTask::Selected(_, _) => uses_truth(job, State::Silent, State::Silent),
        ValueTask::DoTouch(touch) => State::Ready(touch),
        ValueTask::Evaluate(_)
        | ValueTask::Push(_)
        | ValueTask::PushJob
        | ValueTask::PushTest
        | ValueTask::DropValues(_)
        | ValueTask::FormReference(_, _, _, _) => State::Silent,
    }
}

// The state at a task on locals.
#[tactic(auto, using(crate::proofs::AskedLemmas::store_last_shows, crate::proofs::AskedLemmas::assign_shows))]
fn local_state<'j>(program: &Program, job: &Job, task: &'j LocalTask) -> State<'j>
    ensures { (ts : List TaskOf) → state_of result
        ≡ state_in (map routine_of program.now) (job_of job.now) (local_task task.now ∷ ts) }
{
    match task {
        LocalTask::StoreAny(_) => State::AsksChoice,
        LocalTask::StoreLast(_) | LocalTask::Assign(_) => uses_last(job),
        LocalTask::Store(_, _)
        | LocalTask::KillNames(_)
        | LocalTask::NewNames(_)
        | LocalTask::Merge(_, _) => State::Silent,
    }
}

// The state at a task that depends on a truth value.
#[tactic(auto, using(crate::proofs::AskedLemmas::set_test_shows, crate::proofs::AskedLemmas::conditionally_shows))]
fn test_state<'j>(program: &Program, job: &Job, task: &'j TestTask) -> State<'j>
    ensures { (ts : List TaskOf) → state_of result
        ≡ state_in (map routine_of program.now) (job_of job.now) (test_task task.now ∷ ts) }
{
    match task {
        TestTask::SetTest | TestTask::Conditionally(_, _) => {
            uses_truth(job, State::Silent, State::Silent)
        }
        TestTask::AskTest => State::AsksChoice,
        TestTask::SkipIf(_) => State::Silent,
    }
}

// The state at a task on locks.
fn lock_state<'j>(program: &Program, job: &Job, task: &'j LockTask) -> State<'j>
    ensures { (ts : List TaskOf) → state_of result
        ≡ state_in (map routine_of program.now) (job_of job.now) (lock_task task.now ∷ ts) }
{
    match task {
        LockTask::LockNamed(_, _, _) => State::Silent,
        LockTask::Claim(names, timed) => State::Claims(names.as_slice(), *timed),
        LockTask::Release(_) | LockTask::ReleaseAll => State::Releases,
    }
}

// The state at GOTO, or at the begin of a frame, of a block or of another job.
#[tactic(auto, using(crate::proofs::AskedLemmas::call_shows, crate::proofs::AskedLemmas::call_if_shows, crate::proofs::AskedLemmas::goto_shows, crate::proofs::AskedLemmas::goto_if_shows))]
fn scope_state<'j>(program: &Program, job: &Job, task: &'j ScopeTask) -> State<'j>
    ensures { (ts : List TaskOf) → state_of result
        ≡ state_in (map routine_of program.now) (job_of job.now) (scope_task task.now ∷ ts) }
{
    match task {
        ScopeTask::Call(_, callee, _) => call_state(program, job, callee),
        ScopeTask::CallIf(callee, _) => {
            uses_truth(job, call_state(program, job, callee), State::Silent)
        }
        ScopeTask::GoTo(callee) => goto_state(program, job, callee),
        ScopeTask::GoIf(_) => uses_truth(job, State::Silent, State::Silent),
        ScopeTask::StartJob(_, _) | ScopeTask::Block(_) => State::Silent,
    }
}

// The state at a task on lines.
#[tactic(auto, using(crate::proofs::AskedLemmas::lines_show))]
fn line_state<'j>(program: &Program, job: &Job, task: &'j LineTask) -> State<'j>
    ensures { (ts : List TaskOf) → state_of result
        ≡ state_in (map routine_of program.now) (job_of job.now) (line_task task.now ∷ ts) }
{
    match task {
        LineTask::RunLines(lines) => lines_state(lines),
        LineTask::FirstRound(_, _, _) | LineTask::LaterRound(_, _, _) => State::AsksChoice,
        LineTask::RunCommands(_)
        | LineTask::NextArgument(_, _)
        | LineTask::Parameters(_, _, _)
        | LineTask::Forever(_)
        | LineTask::NextValue(_, _)
        | LineTask::QuitHere
        | LineTask::QuitWithValue
        | LineTask::HaltJob => State::Silent,
    }
}

// The state at a task.
fn task_state<'j>(program: &Program, job: &Job, task: &'j Task) -> State<'j>
    ensures { (ts : List TaskOf) → state_of result
        ≡ state_in (map routine_of program.now) (job_of job.now) (task_of task.now ∷ ts) }
{
    match task {
        Task::Value(task) => value_state(program, job, task),
        Task::Local(task) => local_state(program, job, task),
        Task::Test(task) => test_state(program, job, task),
        Task::Lock(task) => lock_state(program, job, task),
        Task::Scope(task) => scope_state(program, job, task),
        Task::Line(task) => line_state(program, job, task),
    }
}

/// What a job does next. Allocates nothing.
#[tactic(auto, using(crate::proofs::AskedLemmas::frame_shows))]
pub fn state<'j>(program: &Program, job: &'j Job) -> State<'j>
    ensures { state_of result ≡ seen.state (map routine_of program.now) (job_of job.now) }
{
    match job.pending.last() {
        Some(Pending::Task(task)) => task_state(program, job, task),
        Some(Pending::EndBlock(_, _)) => State::Silent,
        Some(Pending::EndFrame(frame, _, _)) => ends_frame(*frame),
        None => {
            if job.stopped {
                State::Stopped
            } else {
                State::Ended
            }
        }
    }
}
