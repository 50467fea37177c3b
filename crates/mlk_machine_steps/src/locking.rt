// LOCK, once its names were computed.

ghost use Rattle.std.specs.Prelude.{◌≡◌, ◌++◌, IfOk, OnErr, Bool, Ok, map, false, true};
ghost use Rattle.std.specs.List.{list_all};
ghost use Rattle.mlk_names.specs.declared.lock_name.LockName.{LockName};
ghost use Rattle.mlk_text.specs.Failures.{Answers};
ghost use Rattle.mlk_syntax.specs.Views.{variable_of};
ghost use Rattle.mlk_machine_jobs.specs.Choices.{without_choice, doing, dropped, last_values};
ghost use Rattle.mlk_machine_jobs.specs.Locking.{count_all, names_of, by_sign, claim_step};
ghost use Rattle.mlk_machine_locks.specs.Counts as counts;
ghost use Rattle.mlk_machine_steps.specs.Steps.{held_if, claim_if};
ghost use Rattle.mlk_machine_jobs.specs.JobViews.{job_of, releasing, holding_nothing, KeepsPending};
ghost use Rattle.mlk_machine_jobs.specs.Sound.{Sound};

use crate::ask::{nothing_asked, or_refused};
use mlk_machine_jobs::{Choice, Job, asked_truth, count_all, lock_names};
use mlk_machine_locks::{Held, Refusal};
use mlk_machine_tasks::by_sign;
use mlk_names::LockName;
use mlk_syntax::{Sign, Variable};
use mlk_text::Failure;
use std::alloc::{AllocError, Global};

/// Releases each of `names` once.
pub fn release(job: &mut Job, choice: &Choice, names: &[LockName]) -> Result<(), Failure<Refusal>>
    ensures answer { Answers (λ _. job_of job.new) result (without_choice choice.now
        (Ok (releasing names.now (job_of job.old)))) }
    ensures stays { OnErr result (job_of job.new ≡ job_of job.old) }
    ensures room { OnErr result (KeepsPending job.old job.new) }
    ensures sound { Sound job.old → Sound job.new }
{
    nothing_asked(choice)?;
    job.release(names);
    Ok(())
}

/// Releases all locks.
pub fn release_all(alloc: Global, job: &mut Job, choice: &Choice) -> Result<(), Failure<Refusal>>
    ensures answer { Answers (λ _. job_of job.new) result (without_choice choice.now
        (Ok (holding_nothing (job_of job.old)))) }
    ensures stays { OnErr result (job_of job.new ≡ job_of job.old) }
    ensures room { OnErr result (KeepsPending job.old job.new) }
    ensures sound { Sound job.old → Sound job.new }
{
    nothing_asked(choice)?;
    job.release_all(alloc);
    Ok(())
}

// The locks that are held once `names` are claimed too, or `None` if they are not free or a count would exceed the maximum.
fn held_with(
    alloc: Global,
    held: &Held,
    names: &[LockName],
    are_free: bool,
) -> Result<Held, Failure<Refusal>>
    ensures { Answers (λ h. h) result (held_if are_free (counts.claimed names.now held.now)) }
{
    if !are_free {
        return Err(Failure::Refused(Refusal::NotEnabled));
    }
    match held.with_claims(alloc, names)? {
        Some(more) => Ok(more),
        None => Err(Failure::Refused(Refusal::NotEnabled)),
    }
}

// Claims names without a timeout.
fn claim_untimed(
    alloc: Global,
    job: &mut Job,
    choice: &Choice,
    names: &[LockName],
    are_free: bool,
) -> Result<(), Failure<Refusal>>
    ensures answer { Answers (λ _. job_of job.new) result (claim_if are_free choice.now names.now false (job_of job.old)) }
    ensures stays { OnErr result (job_of job.new ≡ job_of job.old) }
    ensures room { OnErr result (KeepsPending job.old job.new) }
    ensures sound { Sound job.old → Sound job.new }
{
    let held = held_with(alloc, &job.held, names, are_free)?;
    nothing_asked(choice)?;
    job.held = held;
    Ok(())
}

// Claims names with a timeout; the claim may fail at any time.
fn claim_timed(
    alloc: Global,
    job: &mut Job,
    choice: &Choice,
    names: &[LockName],
    are_free: bool,
) -> Result<(), Failure<Refusal>>
    ensures answer { Answers (λ _. job_of job.new) result (claim_if are_free choice.now names.now true (job_of job.old)) }
    ensures stays { OnErr result (job_of job.new ≡ job_of job.old) }
    ensures room { OnErr result (KeepsPending job.old job.new) }
    ensures sound { Sound job.old → Sound job.new }
{
    let is_granted = or_refused(asked_truth(choice))?;
    if is_granted {
        let held = held_with(alloc, &job.held, names, are_free)?;
        job.held = held;
    }
    job.set_test(is_granted);
    Ok(())
}

/// Claims all names of an argument in one step; `are_free` says whether other jobs leave them free.
#[tactic(auto, using(crate::proofs::ClaimLemmas::claimed_by))]
pub fn claim(
    alloc: Global,
    job: &mut Job,
    choice: &Choice,
    names: &[LockName],
    timed: bool,
    are_free: bool,
) -> Result<(), Failure<Refusal>>
    ensures answer { (free : LockName → Bool) → list_all free names.now ≡ are_free
        → Answers (λ _. job_of job.new) result (claim_step free choice.now names.now timed (job_of job.old)) }
    ensures stays { OnErr result (job_of job.new ≡ job_of job.old) }
    ensures room { OnErr result (KeepsPending job.old job.new) }
    ensures sound { Sound job.old → Sound job.new }
{
    if timed {
        claim_timed(alloc, job, choice, names, are_free)
    } else {
        claim_untimed(alloc, job, choice, names, are_free)
    }
}

// The names of an argument, from the last values.
fn found_names(alloc: Global, job: &Job, names: &[Variable]) -> Result<Vec<LockName>, AllocError>
    ensures { IfOk result (λ found. found.items ≡ names_of
        (last_values (count_all (map variable_of names.now)) (job_of job.now)) (map variable_of names.now)) }
{
    let most = job.values.depth();
    lock_names(alloc, names, job.last_values(count_all(names).min(most)))
}

// Drops the subscripts of `names`.
fn use_up_subscripts(job: &mut Job, names: &[Variable])
    ensures changed { job_of job.new ≡ dropped (count_all (map variable_of names.now)) (job_of job.old) }
    ensures sound { Sound job.old → Sound job.new }
{
    let most = job.values.depth();
    job.use_up(count_all(names).min(most));
}

/// Adds the effect of an argument whose names' subscripts were evaluated.
pub fn name_locks<'a>(
    alloc: Global,
    job: &mut Job<'a>,
    choice: &Choice,
    sign: Sign,
    names: &'a [Variable],
    timed: bool,
) -> Result<(), Failure<Refusal>>
    ensures answer { Answers (λ _. job_of job.new) result (without_choice choice.now
        (Ok (doing (by_sign sign (names_of (last_values (count_all (map variable_of names.now)) (job_of job.old))
        (map variable_of names.now)) timed ++ (job_of job.old).tasks)
        (dropped (count_all (map variable_of names.now)) (job_of job.old))))) }
    ensures stays { OnErr result (job_of job.new ≡ job_of job.old) }
    ensures room { OnErr result (KeepsPending job.old job.new) }
    ensures sound { Sound job.old → Sound job.new }
{
    nothing_asked(choice)?;
    let found = found_names(alloc, job, names)?;
    let mut parts = Vec::new(alloc);
    by_sign(&mut parts, sign, found, timed)?;
    job.do_first(parts)?;
    use_up_subscripts(job, names);
    Ok(())
}
