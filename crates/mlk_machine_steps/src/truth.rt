// Steps that depend on the truth value of the last value.

ghost use Rattle.std.specs.Prelude.{◌≡◌, ◌∷◌, ◌++◌, [], OnErr, OnOk, Ok};
ghost use Rattle.mlk_text.specs.Failures.{Answers};
ghost use Rattle.mlk_syntax.specs.ExprTrees.{tree_of, choices, choices_from};
ghost use Rattle.mlk_syntax.specs.Views.{action_of};
ghost use Rattle.mlk_machine_jobs.specs.Choices.{by_truth, doing};
ghost use Rattle.mlk_machine_jobs.specs.Commands.{action_parts};
ghost use Rattle.mlk_machine_jobs.specs.Lines.{tasks_if, chosen};
ghost use Rattle.mlk_machine_jobs.specs.Locking.{tested};
ghost use Rattle.mlk_machine_jobs.specs.JobViews.{job_of, KeepsPending};
ghost use Rattle.mlk_machine_jobs.specs.Sound.{Sound};
ghost use Rattle.mlk_machine_jobs.specs.TaskViews.{Adds, block_of};
ghost use Rattle.mlk_machine_jobs.specs.Tasks.{GoTo};
ghost use Rattle.mlk_machine_steps.specs.Truths.{truth_chosen, truth_known, step_truth, part_chosen};

use crate::ask::or_refused;
use mlk_machine_expressions::add;
use mlk_machine_jobs::{Choice, Job, ScopeTask, Task, ValueTask};
use mlk_machine_locks::Refusal;
use mlk_machine_tasks::action_parts;
use mlk_numbers::known_truth;
use mlk_syntax::{Action, Callee, Expr, Line};
use mlk_text::Failure;
use std::alloc::{AllocError, Global};

// The truth value that is chosen, if one has to be; otherwise `BadChoice`.
fn truth_chosen(choice: &Choice) -> Result<bool, Refusal>
    ensures { result ≡ truth_chosen choice.now }
{
    match choice {
        Choice::Truth(truth) => Ok(*truth),
        Choice::None | Choice::Value(_) => Err(Refusal::BadChoice),
    }
}

// `truth`, which is known: nothing may be chosen then.
fn truth_known(choice: &Choice, truth: bool) -> Result<bool, Refusal>
    ensures { result ≡ truth_known choice.now truth }
{
    match choice {
        Choice::None => Ok(truth),
        Choice::Value(_) | Choice::Truth(_) => Err(Refusal::BadChoice),
    }
}

// The truth value of the last value, known or chosen.
#[tactic(auto, using(crate::proofs::TruthLemmas::no_truth, crate::proofs::TruthLemmas::the_truth))]
fn last_truth(job: &Job, choice: &Choice) -> Result<bool, Refusal>
    ensures { result ≡ step_truth choice.now (job_of job.now).values }
{
    let Some(value) = job.values.value_at(0) else {
        return Err(Refusal::NotEnabled);
    };
    match known_truth(value) {
        Some(truth) => truth_known(choice, truth),
        None => truth_chosen(choice),
    }
}

/// Sets `$TEST` to the truth value of the last value.
pub fn set_test(job: &mut Job, choice: &Choice) -> Result<(), Failure<Refusal>>
    ensures answer { Answers (λ _. job_of job.new) result
        (by_truth choice.now (job_of job.old) (λ t i. Ok (doing (job_of job.old).tasks (tested t i)))) }
    ensures stays { OnErr result (job_of job.new ≡ job_of job.old) }
    ensures room { OnErr result (KeepsPending job.old job.new) }
    ensures sound { Sound job.old → Sound job.new }
{
    let truth = or_refused(last_truth(job, choice))?;
    job.use_up(1);
    job.set_test(truth);
    Ok(())
}

// The tasks of a command after its postconditional, if that is true.
fn parts_if<'a>(
    parts: &mut Vec<Task<'a>>,
    is_true: bool,
    action: &'a Action,
    block: &'a [Line],
) -> Result<(), AllocError>
    ensures { OnOk result (Adds (tasks_if is_true (action_parts (block_of block.now) (action_of action.now)))
        parts.old.items parts.new.items) }
{
    if is_true {
        action_parts(parts, block, action)
    } else {
        Ok(())
    }
}

/// Runs a command whose postconditional was evaluated.
pub fn run_if_true<'a>(
    alloc: Global,
    job: &mut Job<'a>,
    choice: &Choice,
    action: &'a Action,
    block: &'a [Line],
) -> Result<(), Failure<Refusal>>
    ensures answer { Answers (λ _. job_of job.new) result (by_truth choice.now (job_of job.old)
        (λ t i. Ok (doing (tasks_if t (action_parts (block_of block.now) (action_of action.now))
        ++ (job_of job.old).tasks) i))) }
    ensures stays { OnErr result (job_of job.new ≡ job_of job.old) }
    ensures room { OnErr result (KeepsPending job.old job.new) }
    ensures sound { Sound job.old → Sound job.new }
{
    let is_true = or_refused(last_truth(job, choice))?;
    let mut parts = Vec::new(alloc);
    parts_if(&mut parts, is_true, action, block)?;
    job.do_first(parts)?;
    job.use_up(1);
    Ok(())
}

// GOTO, if its postconditional is true.
fn go_to_if<'a>(
    parts: &mut Vec<Task<'a>>,
    is_true: bool,
    callee: &'a Callee,
) -> Result<(), AllocError>
    ensures { OnOk result (Adds (tasks_if is_true (GoTo callee.now ∷ [])) parts.old.items parts.new.items) }
{
    if is_true {
        add(parts, Task::Scope(ScopeTask::GoTo(callee)))
    } else {
        Ok(())
    }
}

/// GOTO whose own postconditional was evaluated.
pub fn go_if_true<'a>(
    alloc: Global,
    job: &mut Job<'a>,
    choice: &Choice,
    callee: &'a Callee,
) -> Result<(), Failure<Refusal>>
    ensures answer { Answers (λ _. job_of job.new) result (by_truth choice.now (job_of job.old)
        (λ t i. Ok (doing (tasks_if t (GoTo callee.now ∷ []) ++ (job_of job.old).tasks) i))) }
    ensures stays { OnErr result (job_of job.new ≡ job_of job.old) }
    ensures room { OnErr result (KeepsPending job.old job.new) }
    ensures sound { Sound job.old → Sound job.new }
{
    let is_true = or_refused(last_truth(job, choice))?;
    let mut parts = Vec::new(alloc);
    go_to_if(&mut parts, is_true, callee)?;
    job.do_first(parts)?;
    job.use_up(1);
    Ok(())
}

// The tasks after a condition of `$SELECT`.
fn part_chosen<'a>(
    parts: &mut Vec<Task<'a>>,
    value: &'a Expr,
    others: &'a [(Expr, Expr)],
    is_true: bool,
) -> Result<(), AllocError>
    ensures { OnOk result (Adds (part_chosen (tree_of value.now) (choices_from (choices others.now)) is_true ∷ [])
        parts.old.items parts.new.items) }
{
    if is_true {
        add(parts, Task::Value(ValueTask::Evaluate(value)))
    } else {
        add(parts, Task::Value(ValueTask::Select(others)))
    }
}

/// Evaluates the value for a condition of `$SELECT` if it was true, otherwise the next conditions.
pub fn choose<'a>(
    alloc: Global,
    job: &mut Job<'a>,
    choice: &Choice,
    value: &'a Expr,
    others: &'a [(Expr, Expr)],
) -> Result<(), Failure<Refusal>>
    ensures answer { Answers (λ _. job_of job.new) result (by_truth choice.now (job_of job.old)
        (chosen (tree_of value.now) (choices_from (choices others.now)) (job_of job.old).tasks)) }
    ensures stays { OnErr result (job_of job.new ≡ job_of job.old) }
    ensures room { OnErr result (KeepsPending job.old job.new) }
    ensures sound { Sound job.old → Sound job.new }
{
    let is_true = or_refused(last_truth(job, choice))?;
    let mut parts = Vec::new(alloc);
    part_chosen(&mut parts, value, others, is_true)?;
    job.do_first(parts)?;
    job.use_up(1);
    Ok(())
}
