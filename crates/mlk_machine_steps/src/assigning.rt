// SET, once everything that it needs was computed.

ghost use Rattle.std.specs.Prelude.{◌≡◌, ◌++◌, ◌+◌, ◌-◌, ◌^◌, suc, min, OnErr, Ok, map};
ghost use Rattle.mlk_text.specs.Failures.{Answers};
ghost use Rattle.mlk_syntax.specs.Views.{target_of};
ghost use Rattle.mlk_machine_jobs.specs.Choices.{without_choice, with_last, last_values, dropped, doing};
ghost use Rattle.mlk_machine_jobs.specs.Assigning.{assignments, count_parts};
ghost use Rattle.mlk_machine_jobs.specs.JobViews.{job_of, KeepsPending};
ghost use Rattle.mlk_machine_jobs.specs.Sound.{Sound};

use crate::ask::nothing_asked;
use mlk_machine_assignments::{assignments, count_parts};
use mlk_machine_jobs::{Choice, Job};
use mlk_machine_locks::Refusal;
use mlk_syntax::Target;
use mlk_text::{Failure, Value};
use std::alloc::Global;

// The number of values that SET uses: those that its targets need, and its own.
#[tactic(auto, using(crate::proofs::AssignSteps::one_more))]
fn count_used(targets: &[Target]) -> usize
    ensures { result ≡ min (count_parts (map target_of targets.now) + 1) (2 ^ 64 - 1) }
{
    count_parts(targets).saturating_add(1)
}

// The values that SET uses, its own last.
#[tactic(auto, using(crate::proofs::AssignSteps::taken_within))]
fn all_used<'j>(job: &'j Job, targets: &[Target]) -> &'j [Value]
    ensures { result.now ≡ last_values (count_parts (map target_of targets.now) + 1) (job_of job.now) }
{
    let most = job.values.depth();
    job.last_values(count_used(targets).min(most))
}

// The values that the targets of SET need: those before its own value.
#[tactic(auto, using(crate::proofs::AssignSteps::all_but_last, crate::proofs::AssignSteps::none_before))]
fn needs_of<'j>(job: &'j Job, targets: &[Target]) -> &'j [Value]
    ensures { result.now ≡ last_values (count_parts (map target_of targets.now)) (dropped 1 (job_of job.now)) }
{
    let all = all_used(job, targets);
    match all.split_last() {
        Some((_, needs)) => needs,
        None => all,
    }
}

// Drops the values that SET uses.
#[tactic(auto, using(crate::proofs::AssignSteps::dropped_within))]
fn use_up_assigned(job: &mut Job, targets: &[Target])
    ensures changed { job_of job.new ≡ dropped (count_parts (map target_of targets.now) + 1) (job_of job.old) }
    ensures sound { Sound job.old → Sound job.new }
{
    let most = job.values.depth();
    job.use_up(count_used(targets).min(most));
}

/// Adds the assignments of SET, whose value was computed last.
#[tactic(auto, using(crate::proofs::StepLemmas::no_last, crate::proofs::StepLemmas::the_last, crate::proofs::AssignSteps::one_plus))]
pub fn assign<'a>(
    alloc: Global,
    job: &mut Job<'a>,
    choice: &Choice,
    targets: &'a [Target],
) -> Result<(), Failure<Refusal>>
    ensures answer { Answers (λ _. job_of job.new) result (without_choice choice.now
        (with_last (job_of job.old).values (λ v. Ok (doing (assignments v
        (last_values (count_parts (map target_of targets.now)) (dropped 1 (job_of job.old)))
        (map target_of targets.now) ++ (job_of job.old).tasks)
        (dropped (suc (count_parts (map target_of targets.now))) (job_of job.old)))))) }
    ensures stays { OnErr result (job_of job.new ≡ job_of job.old) }
    ensures room { OnErr result (KeepsPending job.old job.new) }
    ensures sound { Sound job.old → Sound job.new }
{
    let Some(value) = job.values.value_at(0) else {
        return Err(Failure::Refused(Refusal::NotEnabled));
    };
    nothing_asked(choice)?;
    let needs = needs_of(job, targets);
    let mut parts = Vec::new(alloc);
    assignments(alloc, &mut parts, value, needs, targets)?;
    job.do_first(parts)?;
    use_up_assigned(job, targets);
    Ok(())
}
