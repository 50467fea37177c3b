// Tasks that are replaced by their parts.

ghost use Rattle.std.specs.Prelude.{◌≡◌, ◌++◌, OnErr, Ok, map};
ghost use Rattle.mlk_text.specs.Failures.{Answers};
ghost use Rattle.mlk_syntax.specs.ExprTrees.{tree_of};
ghost use Rattle.mlk_machine_jobs.specs.Choices.{without_choice, doing};
ghost use Rattle.mlk_machine_jobs.specs.Expressions.{parts_of};
ghost use Rattle.mlk_machine_jobs.specs.JobViews.{job_of, KeepsPending};
ghost use Rattle.mlk_machine_jobs.specs.Sound.{Sound};
ghost use Rattle.mlk_machine_jobs.specs.TaskViews.{task_of};

use crate::ask::nothing_asked;
use mlk_machine_expressions::parts_of;
use mlk_machine_jobs::{Choice, Job, Task};
use mlk_machine_locks::Refusal;
use mlk_syntax::Expr;
use mlk_text::Failure;
use std::alloc::Global;

/// Replaces the removed task by `parts`. It asks for no choice.
pub(crate) fn replace<'a>(
    job: &mut Job<'a>,
    choice: &Choice,
    parts: Vec<Task<'a>>,
) -> Result<(), Failure<Refusal>>
    ensures answer { Answers (λ _. job_of job.new) result (without_choice choice.now
        (Ok (doing (map task_of parts.entry.items ++ (job_of job.old).tasks) (job_of job.old)))) }
    ensures stays { OnErr result (job_of job.new ≡ job_of job.old) }
    ensures room { OnErr result (KeepsPending job.old job.new) }
    ensures sound { Sound job.old → Sound job.new }
{
    nothing_asked(choice)?;
    job.do_first(parts)?;
    Ok(())
}

/// Replaces an expression by its tasks.
pub fn evaluate<'a>(
    alloc: Global,
    job: &mut Job<'a>,
    choice: &Choice,
    expression: &'a Expr,
) -> Result<(), Failure<Refusal>>
    ensures answer { Answers (λ _. job_of job.new) result (without_choice choice.now
        (Ok (doing (parts_of (tree_of expression.now) ++ (job_of job.old).tasks) (job_of job.old)))) }
    ensures stays { OnErr result (job_of job.new ≡ job_of job.old) }
    ensures room { OnErr result (KeepsPending job.old job.new) }
    ensures sound { Sound job.old → Sound job.new }
{
    let mut parts = Vec::new(alloc);
    parts_of(&mut parts, expression)?;
    replace(job, choice, parts)
}
