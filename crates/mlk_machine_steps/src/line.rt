// Lines, their commands, and the rounds of FOR.

ghost use Rattle.std.specs.Prelude.{◌≡◌, ◌∷◌, ◌++◌, OnErr, Ok, map};
ghost use Rattle.mlk_text.specs.Failures.{Answers};
ghost use Rattle.mlk_syntax.specs.Views.{line_of, parameter_of};
ghost use Rattle.mlk_machine_jobs.specs.Tasks.{RunCommands, Forever, NextValue, StoreAny};
ghost use Rattle.mlk_machine_jobs.specs.Choices.{without_choice, with_truth, doing};
ghost use Rattle.mlk_machine_jobs.specs.Lines.{next_line, next_command, parameter_parts, first_round, later_round};
ghost use Rattle.mlk_machine_jobs.specs.JobViews.{job_of, KeepsPending};
ghost use Rattle.mlk_machine_jobs.specs.Sound.{Sound};
ghost use Rattle.mlk_machine_jobs.specs.TaskViews.{commands_left};

use crate::ask::{nothing_asked, or_refused};
use crate::replace::replace;
use mlk_machine_expressions::add;
use mlk_machine_jobs::{Choice, Job, LineTask, LocalTask, Rest, Task, asked_truth};
use mlk_machine_locks::Refusal;
use mlk_machine_tasks::{
    first_round, has_formals, later_round, line_parts, next_command, parameter_parts,
};
use mlk_syntax::{Line, Parameter};
use mlk_text::{Failure, Name};
use std::alloc::Global;

/// Begins the next line; a job does not continue into a line with a formal list.
#[tactic(auto, using(crate::proofs::LineSteps::line_entered, crate::proofs::LineSteps::line_refused))]
pub fn run_lines<'a>(
    alloc: Global,
    job: &mut Job<'a>,
    choice: &Choice,
    lines: &'a [Line],
) -> Result<(), Failure<Refusal>>
    ensures answer { Answers (λ _. job_of job.new) result (without_choice choice.now
        (next_line (map line_of lines.now) (job_of job.old).tasks (job_of job.old))) }
    ensures stays { OnErr result (job_of job.new ≡ job_of job.old) }
    ensures room { OnErr result (KeepsPending job.old job.new) }
    ensures sound { Sound job.old → Sound job.new }
{
    let Some((line, later)) = lines.split_first() else {
        return nothing_asked(choice);
    };
    if has_formals(line) {
        return Err(Failure::Refused(Refusal::NotEnabled));
    }
    let mut parts = Vec::new(alloc);
    line_parts(&mut parts, line, later)?;
    replace(job, choice, parts)
}

/// Runs the rest of a line.
#[tactic(auto, using(crate::proofs::LineSteps::command_then))]
pub fn run_commands<'a>(
    alloc: Global,
    job: &mut Job<'a>,
    choice: &Choice,
    rest: Rest<'a>,
) -> Result<(), Failure<Refusal>>
    ensures answer { Answers (λ _. job_of job.new) result (without_choice choice.now
        (Ok (doing (next_command (commands_left rest.entry) (line_of rest.entry.line.now) (job_of job.old).tasks)
        (job_of job.old)))) }
    ensures stays { OnErr result (job_of job.new ≡ job_of job.old) }
    ensures room { OnErr result (KeepsPending job.old job.new) }
    ensures sound { Sound job.old → Sound job.new }
{
    let mut parts = Vec::new(alloc);
    next_command(&mut parts, rest)?;
    replace(job, choice, parts)
}

/// Runs the remaining parameters of FOR.
pub fn run_parameters<'a>(
    alloc: Global,
    job: &mut Job<'a>,
    choice: &Choice,
    variable: &'a Name,
    parameters: &'a [Parameter],
    rest: Rest<'a>,
) -> Result<(), Failure<Refusal>>
    ensures answer { Answers (λ _. job_of job.new) result (without_choice choice.now
        (Ok (doing (parameter_parts variable.now (map parameter_of parameters.now) (commands_left rest.entry)
        (line_of rest.entry.line.now) ++ (job_of job.old).tasks) (job_of job.old)))) }
    ensures stays { OnErr result (job_of job.new ≡ job_of job.old) }
    ensures room { OnErr result (KeepsPending job.old job.new) }
    ensures sound { Sound job.old → Sound job.new }
{
    let mut parts = Vec::new(alloc);
    parameter_parts(&mut parts, variable, parameters, rest)?;
    replace(job, choice, parts)
}

/// Runs a round of FOR without an argument.
pub fn run_forever<'a>(
    alloc: Global,
    job: &mut Job<'a>,
    choice: &Choice,
    rest: Rest<'a>,
) -> Result<(), Failure<Refusal>>
    ensures answer { Answers (λ _. job_of job.new) result (without_choice choice.now
        (Ok (doing (RunCommands (commands_left rest.entry) (line_of rest.entry.line.now)
        ∷ Forever (commands_left rest.entry) (line_of rest.entry.line.now) ∷ (job_of job.old).tasks) (job_of job.old)))) }
    ensures stays { OnErr result (job_of job.new ≡ job_of job.old) }
    ensures room { OnErr result (KeepsPending job.old job.new) }
    ensures sound { Sound job.old → Sound job.new }
{
    let mut parts = Vec::new(alloc);
    add(&mut parts, Task::Line(LineTask::RunCommands(rest)))?;
    add(&mut parts, Task::Line(LineTask::Forever(rest)))?;
    replace(job, choice, parts)
}

/// Runs the next round of FOR without a limit: its variable may have any value.
pub fn run_next_value<'a>(
    alloc: Global,
    job: &mut Job<'a>,
    choice: &Choice,
    variable: &'a Name,
    rest: Rest<'a>,
) -> Result<(), Failure<Refusal>>
    ensures answer { Answers (λ _. job_of job.new) result (without_choice choice.now
        (Ok (doing (StoreAny variable.now ∷ RunCommands (commands_left rest.entry) (line_of rest.entry.line.now)
        ∷ NextValue variable.now (commands_left rest.entry) (line_of rest.entry.line.now) ∷ (job_of job.old).tasks)
        (job_of job.old)))) }
    ensures stays { OnErr result (job_of job.new ≡ job_of job.old) }
    ensures room { OnErr result (KeepsPending job.old job.new) }
    ensures sound { Sound job.old → Sound job.new }
{
    let mut parts = Vec::new(alloc);
    add(&mut parts, Task::Local(LocalTask::StoreAny(variable)))?;
    add(&mut parts, Task::Line(LineTask::RunCommands(rest)))?;
    add(&mut parts, Task::Line(LineTask::NextValue(variable, rest)))?;
    replace(job, choice, parts)
}

/// Decides whether there is a first round of a FOR with a limit.
pub fn run_first_round<'a>(
    alloc: Global,
    job: &mut Job<'a>,
    choice: &Choice,
    variable: &'a Name,
    parameters: &'a [Parameter],
    rest: Rest<'a>,
) -> Result<(), Failure<Refusal>>
    ensures answer { Answers (λ _. job_of job.new) result (with_truth choice.now (λ t.
        Ok (doing (first_round variable.now (map parameter_of parameters.now) (commands_left rest.entry)
        (line_of rest.entry.line.now) t ++ (job_of job.old).tasks) (job_of job.old)))) }
    ensures stays { OnErr result (job_of job.new ≡ job_of job.old) }
    ensures room { OnErr result (KeepsPending job.old job.new) }
    ensures sound { Sound job.old → Sound job.new }
{
    let is_run = or_refused(asked_truth(choice))?;
    let mut parts = Vec::new(alloc);
    first_round(&mut parts, variable, parameters, rest, is_run)?;
    job.do_first(parts)?;
    Ok(())
}

/// Decides whether there is another round of a FOR with a limit.
pub fn run_later_round<'a>(
    alloc: Global,
    job: &mut Job<'a>,
    choice: &Choice,
    variable: &'a Name,
    parameters: &'a [Parameter],
    rest: Rest<'a>,
) -> Result<(), Failure<Refusal>>
    ensures answer { Answers (λ _. job_of job.new) result (with_truth choice.now (λ t.
        Ok (doing (later_round variable.now (map parameter_of parameters.now) (commands_left rest.entry)
        (line_of rest.entry.line.now) t ++ (job_of job.old).tasks) (job_of job.old)))) }
    ensures stays { OnErr result (job_of job.new ≡ job_of job.old) }
    ensures room { OnErr result (KeepsPending job.old job.new) }
    ensures sound { Sound job.old → Sound job.new }
{
    let is_run = or_refused(asked_truth(choice))?;
    let mut parts = Vec::new(alloc);
    later_round(&mut parts, variable, parameters, rest, is_run)?;
    job.do_first(parts)?;
    Ok(())
}
