// The effect of each kind of task on a job.

ghost use Rattle.std.specs.Prelude.{◌≡◌, ◌∷◌, [], OnErr, Bool, true, map};
ghost use Rattle.std.specs.List.{list_all};
ghost use Rattle.mlk_names.specs.declared.lock_name.LockName.{LockName};
ghost use Rattle.mlk_text.specs.Failures.{Answers};
ghost use Rattle.mlk_syntax.specs.Views.{routine_of};
ghost use Rattle.mlk_machine_jobs.specs.Advance.{advance};
ghost use Rattle.mlk_machine_jobs.specs.JobViews.{job_of, KeepsPending};
ghost use Rattle.mlk_machine_jobs.specs.Sound.{Sound};
ghost use Rattle.mlk_machine_jobs.specs.TaskViews.{value_task, local_task, test_task, lock_task, scope_task, line_task, task_of};
ghost use Rattle.mlk_machine_run.specs.Frames.{claimed_in};

use crate::call::{Invocation, call, call_if};
use crate::formals::count_given;
use crate::goto::go_to;
use mlk_machine_jobs::{
    Choice, Job, LineTask, LocalTask, LockTask, ScopeTask, Task, TestTask, ValueTask,
};
use mlk_machine_locks::Refusal;
use mlk_machine_steps::{
    Reference, apply_binary, apply_unary, ask_test, ask_value, assign, begin_block, choose, claim,
    drop_values, evaluate, fetch, form_reference, go_if_true, halt, kill, make_new, merge,
    name_locks, nothing_asked, push_copy, push_job, push_test, quit_here, quit_with_value, release,
    release_all, run_commands, run_first_round, run_forever, run_if_true, run_later_round,
    run_lines, run_next_value, run_parameters, select, set_test, skip_if, store, store_any,
    store_last, touch,
};
use mlk_program::Program;
use mlk_text::Failure;
use std::alloc::Global;

/// Runs a task of an expression.
pub(crate) fn value_step<'a>(
    alloc: Global,
    job: &mut Job<'a>,
    choice: Choice,
    task: &ValueTask<'a>,
) -> Result<(), Failure<Refusal>>
    ensures answer { Answers (λ _. job_of job.new) result
        (advance [] (λ n. true) choice (job_of job.old) (value_task task.now ∷ (job_of job.old).tasks)) }
    ensures stays { OnErr result (job_of job.new ≡ job_of job.old) }
    ensures room { OnErr result (KeepsPending job.old job.new) }
    ensures sound { Sound job.old → Sound job.new }
{
    match task {
        ValueTask::Evaluate(expression) => evaluate(alloc, job, &choice, expression),
        ValueTask::Push(value) => push_copy(job, &choice, value),
        ValueTask::Fetch(name) => fetch(job, &choice, name),
        ValueTask::PushJob => push_job(alloc, job, &choice),
        ValueTask::PushTest => push_test(alloc, job, &choice),
        ValueTask::ApplyUnary(op) => apply_unary(alloc, job, choice, *op),
        ValueTask::ApplyBinary(op) => apply_binary(alloc, job, choice, *op),
        ValueTask::AskValue(count) => ask_value(job, choice, *count),
        ValueTask::DropValues(count) => drop_values(job, &choice, *count),
        ValueTask::Select(branches) => select(alloc, job, &choice, branches),
        ValueTask::Selected(value, others) => choose(alloc, job, &choice, value, others),
        ValueTask::FormReference(name, count, extent, access) => {
            let reference = Reference {
                name: *name,
                count: *count,
                extent: *extent,
                access: *access,
            };
            form_reference(alloc, job, &choice, reference)
        }
        ValueTask::DoTouch(reference) => touch(job, choice, reference.access),
    }
}

/// Runs a task on locals.
pub(crate) fn local_step<'a>(
    alloc: Global,
    job: &mut Job<'a>,
    choice: Choice,
    task: &LocalTask<'a>,
) -> Result<(), Failure<Refusal>>
    requires { Sound job.old }
    ensures answer { Answers (λ _. job_of job.new) result
        (advance [] (λ n. true) choice (job_of job.old) (local_task task.now ∷ (job_of job.old).tasks)) }
    ensures stays { OnErr result (job_of job.new ≡ job_of job.old) }
    ensures room { OnErr result (KeepsPending job.old job.new) }
    ensures sound { Sound job.new }
{
    match task {
        LocalTask::Store(name, value) => store(job, &choice, name, value),
        LocalTask::StoreAny(name) => store_any(job, choice, name),
        LocalTask::StoreLast(name) => store_last(job, &choice, name),
        LocalTask::KillNames(names) => kill(alloc, job, &choice, *names),
        LocalTask::NewNames(names) => make_new(alloc, job, &choice, *names),
        LocalTask::Assign(targets) => assign(alloc, job, &choice, targets),
        LocalTask::Merge(target, source) => merge(alloc, job, &choice, target, source),
    }
}

/// Runs a task that depends on a truth value.
pub(crate) fn test_step<'a>(
    alloc: Global,
    job: &mut Job<'a>,
    choice: &Choice,
    task: &TestTask<'a>,
) -> Result<(), Failure<Refusal>>
    ensures answer { Answers (λ _. job_of job.new) result
        (advance [] (λ n. true) choice.now (job_of job.old) (test_task task.now ∷ (job_of job.old).tasks)) }
    ensures stays { OnErr result (job_of job.new ≡ job_of job.old) }
    ensures room { OnErr result (KeepsPending job.old job.new) }
    ensures sound { Sound job.old → Sound job.new }
{
    match task {
        TestTask::SetTest => set_test(job, choice),
        TestTask::AskTest => ask_test(job, choice),
        TestTask::SkipIf(test) => skip_if(job, choice, *test),
        TestTask::Conditionally(action, block) => run_if_true(alloc, job, choice, action, block),
    }
}

/// Runs a task on locks; `are_free` says whether other jobs leave the names of a claim free.
pub(crate) fn lock_step<'a>(
    alloc: Global,
    job: &mut Job<'a>,
    choice: &Choice,
    task: &LockTask<'a>,
    are_free: bool,
) -> Result<(), Failure<Refusal>>
    ensures answer { (free : LockName → Bool) → list_all free (claimed_in (lock_task task.now ∷ [])) ≡ are_free
        → Answers (λ _. job_of job.new) result
        (advance [] free choice.now (job_of job.old) (lock_task task.now ∷ (job_of job.old).tasks)) }
    ensures stays { OnErr result (job_of job.new ≡ job_of job.old) }
    ensures room { OnErr result (KeepsPending job.old job.new) }
    ensures sound { Sound job.old → Sound job.new }
{
    match task {
        LockTask::LockNamed(sign, names, timed) => {
            name_locks(alloc, job, choice, *sign, names, *timed)
        }
        LockTask::Claim(names, timed) => {
            claim(alloc, job, choice, names.as_slice(), *timed, are_free)
        }
        LockTask::Release(names) => release(job, choice, names.as_slice()),
        LockTask::ReleaseAll => release_all(alloc, job, choice),
    }
}

/// Runs GOTO, or a task that begins a frame, a block or another job, which is separate.
pub(crate) fn scope_step<'a>(
    alloc: Global,
    program: &Program<'a>,
    job: &mut Job<'a>,
    choice: &Choice,
    task: &ScopeTask<'a>,
) -> Result<(), Failure<Refusal>>
    requires { Sound job.old }
    ensures answer { Answers (λ _. job_of job.new) result
        (advance (map routine_of program.now) (λ n. true) choice.now (job_of job.old)
        (scope_task task.now ∷ (job_of job.old).tasks)) }
    ensures stays { OnErr result (job_of job.new ≡ job_of job.old) }
    ensures room { OnErr result (KeepsPending job.old job.new) }
    ensures sound { Sound job.new }
{
    match task {
        ScopeTask::Call(calling, callee, given) => {
            let invocation = Invocation {
                callee: *callee,
                given: *given,
            };
            call(alloc, program, job, choice, *calling, invocation)
        }
        ScopeTask::CallIf(callee, given) => {
            let invocation = Invocation {
                callee: *callee,
                given: *given,
            };
            call_if(alloc, program, job, choice, invocation)
        }
        ScopeTask::StartJob(_, given) => drop_values(job, choice, count_given(given)),
        ScopeTask::Block(lines) => begin_block(job, choice, lines),
        ScopeTask::GoTo(callee) => go_to(program, job, choice, callee),
        ScopeTask::GoIf(callee) => go_if_true(alloc, job, choice, callee),
    }
}

/// Runs a task on lines.
pub(crate) fn line_step<'a>(
    alloc: Global,
    job: &mut Job<'a>,
    choice: &Choice,
    task: &LineTask<'a>,
) -> Result<(), Failure<Refusal>>
    ensures answer { Answers (λ _. job_of job.new) result
        (advance [] (λ n. true) choice.now (job_of job.old) (line_task task.now ∷ (job_of job.old).tasks)) }
    ensures stays { OnErr result (job_of job.new ≡ job_of job.old) }
    ensures room { OnErr result (KeepsPending job.old job.new) }
    ensures sound { Sound job.old → Sound job.new }
{
    match task {
        LineTask::RunLines(lines) => run_lines(alloc, job, choice, lines),
        LineTask::RunCommands(rest) => run_commands(alloc, job, choice, *rest),
        LineTask::NextArgument(_, _) => nothing_asked(choice),
        LineTask::Parameters(variable, parameters, rest) => {
            run_parameters(alloc, job, choice, variable, parameters, *rest)
        }
        LineTask::Forever(rest) => run_forever(alloc, job, choice, *rest),
        LineTask::NextValue(variable, rest) => run_next_value(alloc, job, choice, variable, *rest),
        LineTask::FirstRound(variable, parameters, rest) => {
            run_first_round(alloc, job, choice, variable, parameters, *rest)
        }
        LineTask::LaterRound(variable, parameters, rest) => {
            run_later_round(alloc, job, choice, variable, parameters, *rest)
        }
        LineTask::QuitHere => quit_here(job, choice),
        LineTask::QuitWithValue => quit_with_value(job, choice),
        LineTask::HaltJob => halt(job, choice),
    }
}

/// Runs a task; `are_free` says whether other jobs leave the names of a claim free.
pub(crate) fn perform<'a>(
    alloc: Global,
    program: &Program<'a>,
    job: &mut Job<'a>,
    choice: Choice,
    task: &Task<'a>,
    are_free: bool,
) -> Result<(), Failure<Refusal>>
    requires { Sound job.old }
    ensures answer { (free : LockName → Bool) → list_all free (claimed_in (task_of task.now ∷ [])) ≡ are_free
        → Answers (λ _. job_of job.new) result
        (advance (map routine_of program.now) free choice (job_of job.old) (task_of task.now ∷ (job_of job.old).tasks)) }
    ensures stays { OnErr result (job_of job.new ≡ job_of job.old) }
    ensures room { OnErr result (KeepsPending job.old job.new) }
    ensures sound { Sound job.new }
{
    match task {
        Task::Value(task) => value_step(alloc, job, choice, task),
        Task::Local(task) => local_step(alloc, job, choice, task),
        Task::Test(task) => test_step(alloc, job, &choice, task),
        Task::Lock(task) => lock_step(alloc, job, &choice, task, are_free),
        Task::Scope(task) => scope_step(alloc, program, job, &choice, task),
        Task::Line(task) => line_step(alloc, job, &choice, task),
    }
}
