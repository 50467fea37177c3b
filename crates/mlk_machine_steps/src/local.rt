// Locals: values that are stored and removed.

ghost use Rattle.std.specs.Prelude.{◌≡◌, OnErr, Ok};
ghost use Rattle.mlk_text.specs.Failures.{Answers};
ghost use Rattle.mlk_machine_jobs.specs.Choices.{without_choice, with_value, with_last, dropped, stored};
ghost use Rattle.mlk_machine_jobs.specs.Bindings.{Only};
ghost use Rattle.mlk_machine_jobs.specs.Views.{names_of};
ghost use Rattle.mlk_machine_jobs.specs.JobViews.{job_of, killing, KeepsPending};
ghost use Rattle.mlk_machine_jobs.specs.Sound.{Sound};

use crate::ask::{nothing_asked, or_refused};
use mlk_machine_jobs::{Choice, Job, Names, asked_value};
use mlk_machine_locks::Refusal;
use mlk_text::{Failure, Name, Value};
use std::alloc::Global;

/// Stores a value in a local. It asks for no choice.
pub fn store<'a>(
    job: &mut Job<'a>,
    choice: &Choice,
    name: &'a Name,
    value: &Value,
) -> Result<(), Failure<Refusal>>
    requires { Sound job.old }
    ensures answer { Answers (λ _. job_of job.new) result (without_choice choice.now
        (Ok (stored name.now value.now (job_of job.old)))) }
    ensures stays { OnErr result (job_of job.new ≡ job_of job.old) }
    ensures room { OnErr result (KeepsPending job.old job.new) }
    ensures sound { Sound job.new }
{
    nothing_asked(choice)?;
    let copy = value.copy()?;
    job.store(name.as_bytes(), copy)?;
    Ok(())
}

/// Stores the chosen value in a local.
pub fn store_any<'a>(
    job: &mut Job<'a>,
    choice: Choice,
    name: &'a Name,
) -> Result<(), Failure<Refusal>>
    requires { Sound job.old }
    ensures answer { Answers (λ _. job_of job.new) result
        (with_value choice (λ v. Ok (stored name.now v (job_of job.old)))) }
    ensures stays { OnErr result (job_of job.new ≡ job_of job.old) }
    ensures room { OnErr result (KeepsPending job.old job.new) }
    ensures sound { Sound job.new }
{
    let value = or_refused(asked_value(choice))?;
    job.store(name.as_bytes(), value)?;
    Ok(())
}

/// Stores the last value in a local.
#[tactic(auto, using(crate::proofs::StepLemmas::no_last, crate::proofs::StepLemmas::the_last))]
pub fn store_last<'a>(
    job: &mut Job<'a>,
    choice: &Choice,
    name: &'a Name,
) -> Result<(), Failure<Refusal>>
    requires { Sound job.old }
    ensures answer { Answers (λ _. job_of job.new) result (without_choice choice.now
        (with_last (job_of job.old).values (λ v. Ok (stored name.now v (dropped 1 (job_of job.old)))))) }
    ensures stays { OnErr result (job_of job.new ≡ job_of job.old) }
    ensures room { OnErr result (KeepsPending job.old job.new) }
    ensures sound { Sound job.new }
{
    let Some(value) = job.values.value_at(0) else {
        return Err(Failure::Refused(Refusal::NotEnabled));
    };
    nothing_asked(choice)?;
    let copy = value.copy()?;
    job.store(name.as_bytes(), copy)?;
    job.use_up(1);
    Ok(())
}

// KILL of one name: removes the value of its cell.
fn kill_one<'a>(job: &mut Job<'a>, choice: &Choice, name: &'a Name) -> Result<(), Failure<Refusal>>
    requires { Sound job.old }
    ensures answer { Answers (λ _. job_of job.new) result (without_choice choice.now
        (Ok (killing (Only name.now) (job_of job.old)))) }
    ensures stays { OnErr result (job_of job.new ≡ job_of job.old) }
    ensures room { OnErr result (KeepsPending job.old job.new) }
    ensures sound { Sound job.new }
{
    nothing_asked(choice)?;
    job.clear(name.as_bytes());
    Ok(())
}

// KILL of all names but some.
fn kill_all_but<'a>(
    alloc: Global,
    job: &mut Job<'a>,
    choice: &Choice,
    names: Names<'a>,
) -> Result<(), Failure<Refusal>>
    ensures answer { Answers (λ _. job_of job.new) result (without_choice choice.now
        (Ok (killing (names_of names.entry) (job_of job.old)))) }
    ensures stays { OnErr result (job_of job.new ≡ job_of job.old) }
    ensures room { OnErr result (KeepsPending job.old job.new) }
    ensures sound { Sound job.old → Sound job.new }
{
    nothing_asked(choice)?;
    job.kill(alloc, names)?;
    Ok(())
}

/// KILL: removes the values of the cells of its names.
pub fn kill<'a>(
    alloc: Global,
    job: &mut Job<'a>,
    choice: &Choice,
    names: Names<'a>,
) -> Result<(), Failure<Refusal>>
    requires { Sound job.old }
    ensures answer { Answers (λ _. job_of job.new) result (without_choice choice.now
        (Ok (killing (names_of names.entry) (job_of job.old)))) }
    ensures stays { OnErr result (job_of job.new ≡ job_of job.old) }
    ensures room { OnErr result (KeepsPending job.old job.new) }
    ensures sound { Sound job.new }
{
    match names {
        Names::Only(name) => kill_one(job, choice, name),
        Names::AllBut(_) => kill_all_but(alloc, job, choice, names),
    }
}
