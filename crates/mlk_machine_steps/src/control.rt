// Conditions, and steps that skip, quit or end something.

ghost use Rattle.std.specs.Prelude.{◌≡◌, OnErr, Ok, if◌then◌else◌};
ghost use Rattle.mlk_text.specs.Failures.{Answers};
ghost use Rattle.mlk_syntax.specs.ExprTrees.{choices, choices_from};
ghost use Rattle.mlk_machine_jobs.specs.Choices.{without_choice, with_truth, same_truth, doing};
ghost use Rattle.mlk_machine_jobs.specs.Lines.{skipped, selected};
ghost use Rattle.mlk_machine_jobs.specs.Locking.{tested};
ghost use Rattle.mlk_machine_jobs.specs.JobViews.{job_of, KeepsPending};
ghost use Rattle.mlk_machine_jobs.specs.Sound.{Sound};

use crate::ask::{nothing_asked, or_refused};
use crate::replace::replace;
use mlk_machine_expressions::add;
use mlk_machine_jobs::{Choice, Job, Task, ValueTask, asked_truth};
use mlk_machine_locks::Refusal;
use mlk_syntax::Expr;
use mlk_text::Failure;
use std::alloc::Global;

/// Sets `$TEST` to the truth value that is chosen.
pub fn ask_test(job: &mut Job, choice: &Choice) -> Result<(), Failure<Refusal>>
    ensures answer { Answers (λ _. job_of job.new) result
        (with_truth choice.now (λ t. Ok (tested t (job_of job.old)))) }
    ensures stays { OnErr result (job_of job.new ≡ job_of job.old) }
    ensures room { OnErr result (KeepsPending job.old job.new) }
    ensures sound { Sound job.old → Sound job.new }
{
    let truth = or_refused(asked_truth(choice))?;
    job.set_test(truth);
    Ok(())
}

// Whether the two truth values are equal.
fn same_truth(first: bool, second: bool) -> bool
    ensures { result ≡ same_truth first second }
{
    if first { second } else { !second }
}

/// Skips the rest of the line if `$TEST` is `test`.
pub fn skip_if(job: &mut Job, choice: &Choice, test: bool) -> Result<(), Failure<Refusal>>
    ensures answer { Answers (λ _. job_of job.new) result (without_choice choice.now
        (Ok (doing (if same_truth test (job_of job.old).test then skipped (job_of job.old).tasks
        else (job_of job.old).tasks) (job_of job.old)))) }
    ensures stays { OnErr result (job_of job.new ≡ job_of job.old) }
    ensures room { OnErr result (KeepsPending job.old job.new) }
    ensures sound { Sound job.old → Sound job.new }
{
    nothing_asked(choice)?;
    if same_truth(test, job.test) {
        job.skip();
    }
    Ok(())
}

/// `$SELECT`: evaluates its first condition.
pub fn select<'a>(
    alloc: Global,
    job: &mut Job<'a>,
    choice: &Choice,
    branches: &'a [(Expr, Expr)],
) -> Result<(), Failure<Refusal>>
    ensures answer { Answers (λ _. job_of job.new) result (without_choice choice.now
        (selected (choices_from (choices branches.now)) (job_of job.old).tasks (job_of job.old))) }
    ensures stays { OnErr result (job_of job.new ≡ job_of job.old) }
    ensures room { OnErr result (KeepsPending job.old job.new) }
    ensures sound { Sound job.old → Sound job.new }
{
    let Some((first, others)) = branches.split_first() else {
        return Err(Failure::Refused(Refusal::NotEnabled));
    };
    let mut parts = Vec::new(alloc);
    add(&mut parts, Task::Value(ValueTask::Evaluate(&first.0)))?;
    add(
        &mut parts,
        Task::Value(ValueTask::Selected(&first.1, others)),
    )?;
    replace(job, choice, parts)
}
