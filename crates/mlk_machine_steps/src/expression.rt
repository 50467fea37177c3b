// Values of expressions, one after another.

ghost use Rattle.std.specs.Prelude.{◌≡◌, IfOk, OnErr, Ok, drop};
ghost use Rattle.std.specs.Fmt.{decimal};
ghost use Rattle.mlk_text.specs.Failures.{Answers};
ghost use Rattle.mlk_machine_jobs.specs.Bindings.{look};
ghost use Rattle.mlk_numbers.specs.Operators.{fold_before, fold_between};
ghost use Rattle.mlk_machine_jobs.specs.Choices.{without_choice, with_value, with_last};
ghost use Rattle.mlk_machine_jobs.specs.Choices.{given_or_asked, pushed, dropped, fetched, test_text};
ghost use Rattle.mlk_machine_jobs.specs.JobViews.{job_of, KeepsPending};
ghost use Rattle.mlk_machine_jobs.specs.Sound.{Sound};

use crate::ask::{nothing_asked, or_refused};
use mlk_machine_jobs::{Choice, Job, asked_value};
use mlk_machine_locks::Refusal;
use mlk_numbers::{fold, fold_unary};
use mlk_text::{Failure, Name, Op, UnaryOp, Value};
use std::alloc::{AllocError, Global};

// Pushes a value that was computed. It asks for no choice.
fn push(job: &mut Job, choice: &Choice, value: Value) -> Result<(), Failure<Refusal>>
    ensures answer { Answers (λ _. job_of job.new) result (without_choice choice.now (Ok (pushed value (job_of job.old)))) }
    ensures stays { OnErr result (job_of job.new ≡ job_of job.old) }
    ensures room { OnErr result (KeepsPending job.old job.new) }
    ensures sound { Sound job.old → Sound job.new }
{
    nothing_asked(choice)?;
    job.push(value)?;
    Ok(())
}

/// Pushes a value of the program's text. It asks for no choice.
pub fn push_copy(job: &mut Job, choice: &Choice, value: &Value) -> Result<(), Failure<Refusal>>
    ensures answer { Answers (λ _. job_of job.new) result (without_choice choice.now (Ok (pushed value.now (job_of job.old)))) }
    ensures stays { OnErr result (job_of job.new ≡ job_of job.old) }
    ensures room { OnErr result (KeepsPending job.old job.new) }
    ensures sound { Sound job.old → Sound job.new }
{
    let copy = value.copy()?;
    push(job, choice, copy)
}

/// Pushes the value of a local without subscripts, if it has one.
#[tactic(auto, using(crate::proofs::StepLemmas::none_fetched, crate::proofs::StepLemmas::some_fetched))]
pub fn fetch(job: &mut Job, choice: &Choice, name: &Name) -> Result<(), Failure<Refusal>>
    ensures answer { Answers (λ _. job_of job.new) result (without_choice choice.now
        (fetched (job_of job.old) (job_of job.old).tasks ((job_of job.old).cells (look (job_of job.old).bindings name.now)))) }
    ensures stays { OnErr result (job_of job.new ≡ job_of job.old) }
    ensures room { OnErr result (KeepsPending job.old job.new) }
    ensures sound { Sound job.old → Sound job.new }
{
    let Some(value) = job.value_of(name.as_bytes()) else {
        return Err(Failure::Refused(Refusal::NotEnabled));
    };
    let copy = value.copy()?;
    push(job, choice, copy)
}

// The decimal digits of `number`.
fn number_text(alloc: Global, number: u32) -> Result<Value, AllocError>
    ensures { IfOk result (λ text. text ≡ decimal number) }
{
    let text = number.to_string(alloc)?;
    Value::of(alloc, text.as_bytes())
}

/// Pushes `$JOB`.
pub fn push_job(alloc: Global, job: &mut Job, choice: &Choice) -> Result<(), Failure<Refusal>>
    ensures answer { Answers (λ _. job_of job.new) result (without_choice choice.now
        (Ok (pushed (decimal (job_of job.old).number) (job_of job.old)))) }
    ensures stays { OnErr result (job_of job.new ≡ job_of job.old) }
    ensures room { OnErr result (KeepsPending job.old job.new) }
    ensures sound { Sound job.old → Sound job.new }
{
    let text = number_text(alloc, job.number)?;
    push(job, choice, text)
}

// The text of `$TEST`.
fn test_text(alloc: Global, test: bool) -> Result<Value, AllocError>
    ensures { IfOk result (λ text. text ≡ test_text test) }
{
    let bytes: &[u8] = if test { b"1" } else { b"0" };
    Value::of(alloc, bytes)
}

/// Pushes `$TEST`.
pub fn push_test(alloc: Global, job: &mut Job, choice: &Choice) -> Result<(), Failure<Refusal>>
    ensures answer { Answers (λ _. job_of job.new) result (without_choice choice.now
        (Ok (pushed (test_text (job_of job.old).test) (job_of job.old)))) }
    ensures stays { OnErr result (job_of job.new ≡ job_of job.old) }
    ensures room { OnErr result (KeepsPending job.old job.new) }
    ensures sound { Sound job.old → Sound job.new }
{
    let text = test_text(alloc, job.test)?;
    push(job, choice, text)
}

/// Replaces the last `count` values by the chosen one.
pub fn ask_value(job: &mut Job, choice: Choice, count: usize) -> Result<(), Failure<Refusal>>
    ensures answer { Answers (λ _. job_of job.new) result
        (with_value choice (λ v. Ok (pushed v (dropped count (job_of job.old))))) }
    ensures stays { OnErr result (job_of job.new ≡ job_of job.old) }
    ensures room { OnErr result (KeepsPending job.old job.new) }
    ensures sound { Sound job.old → Sound job.new }
{
    let value = or_refused(asked_value(choice))?;
    job.replace_last(count, value)?;
    Ok(())
}

// Replaces the last `count` values by `known`, or by the chosen one if it is `None`.
fn give_value(
    job: &mut Job,
    choice: Choice,
    known: Option<Value>,
    count: usize,
) -> Result<(), Failure<Refusal>>
    ensures answer { Answers (λ _. job_of job.new) result
        (given_or_asked choice known (λ v. Ok (pushed v (dropped count (job_of job.old))))) }
    ensures stays { OnErr result (job_of job.new ≡ job_of job.old) }
    ensures room { OnErr result (KeepsPending job.old job.new) }
    ensures sound { Sound job.old → Sound job.new }
{
    let Some(value) = known else {
        return ask_value(job, choice, count);
    };
    nothing_asked(&choice)?;
    job.replace_last(count, value)?;
    Ok(())
}

/// Applies a unary operator to the last value.
#[tactic(auto, using(crate::proofs::StepLemmas::no_last, crate::proofs::StepLemmas::the_last))]
pub fn apply_unary(
    alloc: Global,
    job: &mut Job,
    choice: Choice,
    op: UnaryOp,
) -> Result<(), Failure<Refusal>>
    ensures answer { Answers (λ _. job_of job.new) result (with_last (job_of job.old).values
        (λ a. given_or_asked choice (fold_before op a) (λ v. Ok (pushed v (dropped 1 (job_of job.old)))))) }
    ensures stays { OnErr result (job_of job.new ≡ job_of job.old) }
    ensures room { OnErr result (KeepsPending job.old job.new) }
    ensures sound { Sound job.old → Sound job.new }
{
    let Some(operand) = job.values.value_at(0) else {
        return Err(Failure::Refused(Refusal::NotEnabled));
    };
    let known = fold_unary(alloc, op, operand)?;
    give_value(job, choice, known, 1)
}

/// Applies a binary operator to the last two values.
#[tactic(auto, using(crate::proofs::StepLemmas::no_last, crate::proofs::StepLemmas::no_second, crate::proofs::StepLemmas::last_two))]
pub fn apply_binary(
    alloc: Global,
    job: &mut Job,
    choice: Choice,
    op: Op,
) -> Result<(), Failure<Refusal>>
    ensures answer { Answers (λ _. job_of job.new) result (with_last (job_of job.old).values
        (λ b. with_last (drop 1 (job_of job.old).values) (λ a. given_or_asked choice (fold_between op a b)
        (λ v. Ok (pushed v (dropped 2 (job_of job.old))))))) }
    ensures stays { OnErr result (job_of job.new ≡ job_of job.old) }
    ensures room { OnErr result (KeepsPending job.old job.new) }
    ensures sound { Sound job.old → Sound job.new }
{
    let Some(second) = job.values.value_at(0) else {
        return Err(Failure::Refused(Refusal::NotEnabled));
    };
    let Some(first) = job.values.value_at(1) else {
        return Err(Failure::Refused(Refusal::NotEnabled));
    };
    let known = fold(alloc, op, first, second)?;
    give_value(job, choice, known, 2)
}

/// Drops the last `count` values.
pub fn drop_values(job: &mut Job, choice: &Choice, count: usize) -> Result<(), Failure<Refusal>>
    ensures answer { Answers (λ _. job_of job.new) result (without_choice choice.now (Ok (dropped count (job_of job.old)))) }
    ensures stays { OnErr result (job_of job.new ≡ job_of job.old) }
    ensures room { OnErr result (KeepsPending job.old job.new) }
    ensures sound { Sound job.old → Sound job.new }
{
    nothing_asked(choice)?;
    job.use_up(count);
    Ok(())
}
