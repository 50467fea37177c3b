// MERGE, once the subscripts of both sides were computed.

ghost use Rattle.std.specs.Prelude.{◌≡◌, ◌++◌, ◌+◌, OnErr, Ok, take, drop};
ghost use Rattle.mlk_text.specs.Failures.{Answers};
ghost use Rattle.mlk_syntax.specs.Views.{variable_of};
ghost use Rattle.mlk_machine_jobs.specs.Choices.{without_choice, last_values, dropped, doing};
ghost use Rattle.mlk_machine_jobs.specs.Commands.{count_in};
ghost use Rattle.mlk_machine_jobs.specs.Assigning.{merge_source, merge_target};
ghost use Rattle.mlk_machine_jobs.specs.JobViews.{job_of, KeepsPending};
ghost use Rattle.mlk_machine_jobs.specs.Sound.{Sound};

use crate::ask::nothing_asked;
use mlk_machine_assignments::{merge_source, merge_target};
use mlk_machine_jobs::{Choice, Job, count_in, cut_after};
use mlk_machine_locks::Refusal;
use mlk_syntax::Variable;
use mlk_text::{Failure, Value};
use std::alloc::Global;

// The subscripts of both sides.
#[tactic(auto, using(crate::proofs::AssignSteps::taken_within))]
fn of_both<'j>(job: &'j Job, target: &Variable, source: &Variable) -> &'j [Value]
    ensures { result.now ≡ last_values (count_in (variable_of target.now) + count_in (variable_of source.now)) (job_of job.now) }
{
    let most = job.values.depth();
    let count = count_in(target).saturating_add(count_in(source));
    job.last_values(count.min(most))
}

// Drops the subscripts of both sides.
#[tactic(auto, using(crate::proofs::AssignSteps::dropped_within))]
fn use_up_both(job: &mut Job, target: &Variable, source: &Variable)
    ensures changed { job_of job.new ≡ dropped (count_in (variable_of target.now) + count_in (variable_of source.now)) (job_of job.old) }
    ensures sound { Sound job.old → Sound job.new }
{
    let most = job.values.depth();
    let count = count_in(target).saturating_add(count_in(source));
    job.use_up(count.min(most));
}

/// Reads the tree on the right, then writes the left side.
pub fn merge<'a>(
    alloc: Global,
    job: &mut Job<'a>,
    choice: &Choice,
    target: &'a Variable,
    source: &'a Variable,
) -> Result<(), Failure<Refusal>>
    ensures answer { Answers (λ _. job_of job.new) result (without_choice choice.now
        (Ok (doing (merge_source (drop (count_in (variable_of target.now))
        (last_values (count_in (variable_of target.now) + count_in (variable_of source.now)) (job_of job.old)))
        (variable_of source.now)
        ++ merge_target (take (count_in (variable_of target.now))
        (last_values (count_in (variable_of target.now) + count_in (variable_of source.now)) (job_of job.old)))
        (variable_of target.now) (variable_of source.now) ++ (job_of job.old).tasks)
        (dropped (count_in (variable_of target.now) + count_in (variable_of source.now)) (job_of job.old))))) }
    ensures stays { OnErr result (job_of job.new ≡ job_of job.old) }
    ensures room { OnErr result (KeepsPending job.old job.new) }
    ensures sound { Sound job.old → Sound job.new }
{
    nothing_asked(choice)?;
    let (of_target, of_source) = cut_after(of_both(job, target, source), count_in(target));
    let mut parts = Vec::new(alloc);
    merge_source(alloc, &mut parts, of_source, source)?;
    merge_target(alloc, &mut parts, of_target, target, source)?;
    job.do_first(parts)?;
    use_up_both(job, target, source);
    Ok(())
}
