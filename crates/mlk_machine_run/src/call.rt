// Calls by DO, and of extrinsic functions.

ghost use Rattle.std.specs.Prelude.{◌≡◌, ◌∷◌, OnOk, OnErr, Ok, drop, map};
ghost use Rattle.mlk_text.specs.Failures.{Answers};
ghost use Rattle.mlk_syntax.specs.ExprTrees.{actual_trees};
ghost use Rattle.mlk_syntax.specs.Views.{line_of, routine_of};
ghost use Rattle.mlk_program.specs.Entries.{target_of};
ghost use Rattle.mlk_machine_jobs.specs.Calling as calls;
ghost use Rattle.mlk_machine_jobs.specs.Calling.{entered, called, called_if, lines_after};
ghost use Rattle.mlk_machine_jobs.specs.Choices.{without_choice, by_truth, dropped};
ghost use Rattle.mlk_machine_jobs.specs.JobViews.{frame_of, job_of, KeepsPending};
ghost use Rattle.mlk_machine_jobs.specs.Sound.{Sound};
ghost use Rattle.mlk_machine_jobs.specs.TaskViews.{is_extrinsic};
ghost use Rattle.mlk_machine_run.specs.Frames.{owed};

use crate::formals::{binders, count_given, fill_formals};
use crate::frame::{Begin, begin_frame};
use mlk_machine_jobs::{Calling, CellTable, Choice, Frame, Job, asked_truth};
use mlk_machine_locks::Refusal;
use mlk_machine_steps::{nothing_asked, or_refused};
use mlk_machine_tasks::formals_in;
use mlk_numbers::known_truth;
use mlk_program::{EntryId, Program};
use mlk_syntax::{Actual, Callee, Line};
use mlk_text::Failure;
use std::alloc::{AllocError, Global};

/// The input of a call: what its frame owes, its actuals, whose values were computed, and the number of values that were computed
/// after those.
#[derive(Clone, Copy, Drop)]
pub(crate) struct Brought<'a> {
    pub(crate) frame: Frame,
    pub(crate) given: &'a [Actual],
    pub(crate) skipped: usize,
}

/// The callee of a call, and its actuals, whose values were computed.
#[derive(Clone, Copy, Drop)]
pub(crate) struct Invocation<'a> {
    pub(crate) callee: &'a Callee,
    pub(crate) given: &'a [Actual],
}

// The lines after the first `count`.
fn from_line(lines: &[Line], count: usize) -> &[Line]
    ensures { result.now ≡ drop count lines.now }
{
    if count >= lines.len() {
        return &[];
    }
    let (_, after) = lines.split_at(count);
    after
}

/// The lines from an entry's own to the routine's end.
#[tactic(auto, using(crate::proofs::FrameLemmas::lines_some, crate::proofs::FrameLemmas::lines_none))]
pub(crate) fn lines_after<'a>(program: &Program<'a>, entry: EntryId) -> &'a [Line]
    ensures { map line_of result.now ≡ lines_after (map routine_of program.now) entry }
{
    let Some(routine) = program.routine_of(entry) else {
        return &[];
    };
    from_line(routine.lines.as_slice(), entry.line())
}

// Binds the formals of the first line, and begins its frame.
fn bind<'a>(
    alloc: Global,
    job: &mut Job<'a>,
    begin: Begin<'a>,
    given: &'a [Actual],
    skipped: usize,
) -> Result<(), AllocError>
    requires { Sound job.old }
    ensures answer { OnOk result (entered (frame_of begin.entry.frame) begin.entry.routine (actual_trees given.now)
        (line_of begin.entry.line.now ∷ map line_of begin.entry.later.now) (job_of job.old).tasks
        (dropped skipped (job_of job.old))
        ≡ Ok (job_of job.new)) }
    ensures stays { OnErr result (job_of job.new ≡ job_of job.old) }
    ensures room { OnErr result (KeepsPending job.old job.new) }
    ensures sound { Sound job.new }
{
    let formals = formals_in(begin.line);
    let count = count_given(given);
    let found = binders(
        alloc,
        job.binders.as_slice(),
        job.tables.len(),
        formals,
        given,
    )?;
    let mut table = CellTable::new(alloc);
    fill_formals(
        &mut table,
        formals,
        given,
        job.values.values_below(skipped, count),
    )?;
    begin_frame(job, begin, found, table)?;
    job.use_up(skipped);
    job.use_up(count);
    Ok(())
}

// Calls the routine at the given lines.
fn enter<'a>(
    alloc: Global,
    job: &mut Job<'a>,
    choice: &Choice,
    routine: usize,
    lines: &'a [Line],
    brought: Brought<'a>,
) -> Result<(), Failure<Refusal>>
    requires { Sound job.old }
    ensures answer { Answers (λ _. job_of job.new) result (without_choice choice.now
        (entered (frame_of brought.entry.frame) routine (actual_trees brought.entry.given.now) (map line_of lines.now)
        (job_of job.old).tasks (dropped brought.entry.skipped (job_of job.old)))) }
    ensures stays { OnErr result (job_of job.new ≡ job_of job.old) }
    ensures room { OnErr result (KeepsPending job.old job.new) }
    ensures sound { Sound job.new }
{
    let Some((line, later)) = lines.split_first() else {
        return Err(Failure::Refused(Refusal::NotEnabled));
    };
    nothing_asked(choice)?;
    let begin = Begin {
        frame: brought.frame,
        routine,
        line,
        later,
    };
    bind(alloc, job, begin, brought.given, brought.skipped)?;
    Ok(())
}

// Calls the entry that a callee names.
fn call_named<'a>(
    alloc: Global,
    program: &Program<'a>,
    job: &mut Job<'a>,
    choice: &Choice,
    callee: &Callee,
    brought: Brought<'a>,
) -> Result<(), Failure<Refusal>>
    requires { Sound job.old }
    ensures answer { Answers (λ _. job_of job.new) result (without_choice choice.now
        (called (map routine_of program.now) (frame_of brought.entry.frame)
        (target_of (map routine_of program.now) (job_of job.old).routine callee.now) (actual_trees brought.entry.given.now)
        (job_of job.old).tasks (dropped brought.entry.skipped (job_of job.old)))) }
    ensures stays { OnErr result (job_of job.new ≡ job_of job.old) }
    ensures room { OnErr result (KeepsPending job.old job.new) }
    ensures sound { Sound job.new }
{
    let Some(entry) = program.target(job.routine, callee) else {
        return Err(Failure::Refused(Refusal::NotEnabled));
    };
    let lines = lines_after(program, entry);
    enter(alloc, job, choice, entry.routine(), lines, brought)
}

// What a frame owes: that of an extrinsic call returns a value, and restores `$TEST`.
fn frame_of(calling: Calling, test: bool) -> Frame
    ensures { frame_of result ≡ owed (is_extrinsic calling) test }
{
    match calling {
        Calling::ByDo => Frame::NoValue,
        Calling::Extrinsic => Frame::AwaitsValue(test),
    }
}

/// Makes a call whose actuals were evaluated.
pub(crate) fn call<'a>(
    alloc: Global,
    program: &Program<'a>,
    job: &mut Job<'a>,
    choice: &Choice,
    calling: Calling,
    invocation: Invocation<'a>,
) -> Result<(), Failure<Refusal>>
    requires { Sound job.old }
    ensures answer { Answers (λ _. job_of job.new) result (without_choice choice.now
        (called (map routine_of program.now) (calls.call_frame (is_extrinsic calling) (job_of job.old))
        (target_of (map routine_of program.now) (job_of job.old).routine invocation.entry.callee.now)
        (actual_trees invocation.entry.given.now) (job_of job.old).tasks (job_of job.old))) }
    ensures stays { OnErr result (job_of job.new ≡ job_of job.old) }
    ensures room { OnErr result (KeepsPending job.old job.new) }
    ensures sound { Sound job.new }
{
    let brought = Brought {
        frame: frame_of(calling, job.test),
        given: invocation.given,
        skipped: 0,
    };
    call_named(alloc, program, job, choice, invocation.callee, brought)
}

// Makes a call if its postconditional is true; otherwise its actuals are dropped. The truth value was the last value.
fn call_where<'a>(
    alloc: Global,
    program: &Program<'a>,
    job: &mut Job<'a>,
    choice: &Choice,
    is_true: bool,
    invocation: Invocation<'a>,
) -> Result<(), Failure<Refusal>>
    requires { Sound job.old }
    ensures answer { Answers (λ _. job_of job.new) result (without_choice choice.now
        (called_if is_true (map routine_of program.now)
        (target_of (map routine_of program.now) (job_of job.old).routine invocation.entry.callee.now)
        (actual_trees invocation.entry.given.now) (job_of job.old).tasks (dropped 1 (job_of job.old)))) }
    ensures stays { OnErr result (job_of job.new ≡ job_of job.old) }
    ensures room { OnErr result (KeepsPending job.old job.new) }
    ensures sound { Sound job.new }
{
    if is_true {
        let brought = Brought {
            frame: Frame::NoValue,
            given: invocation.given,
            skipped: 1,
        };
        return call_named(alloc, program, job, choice, invocation.callee, brought);
    }
    nothing_asked(choice)?;
    job.use_up(1);
    job.use_up(count_given(invocation.given));
    Ok(())
}

/// Makes a call by DO with its own postconditional, which was evaluated after the actuals.
#[tactic(auto, using(crate::proofs::FrameLemmas::no_condition, crate::proofs::FrameLemmas::known_condition, crate::proofs::FrameLemmas::asked_condition))]
pub(crate) fn call_if<'a>(
    alloc: Global,
    program: &Program<'a>,
    job: &mut Job<'a>,
    choice: &Choice,
    invocation: Invocation<'a>,
) -> Result<(), Failure<Refusal>>
    requires { Sound job.old }
    ensures answer { Answers (λ _. job_of job.new) result (by_truth choice.now (job_of job.old)
        (λ t i. called_if t (map routine_of program.now)
        (target_of (map routine_of program.now) i.routine invocation.entry.callee.now)
        (actual_trees invocation.entry.given.now) (job_of job.old).tasks i)) }
    ensures stays { OnErr result (job_of job.new ≡ job_of job.old) }
    ensures room { OnErr result (KeepsPending job.old job.new) }
    ensures sound { Sound job.new }
{
    let Some(value) = job.values.value_at(0) else {
        return Err(Failure::Refused(Refusal::NotEnabled));
    };
    match known_truth(value) {
        Some(is_true) => call_where(alloc, program, job, choice, is_true, invocation),
        None => {
            let is_true = or_refused(asked_truth(choice))?;
            call_where(alloc, program, job, &Choice::None, is_true, invocation)
        }
    }
}
