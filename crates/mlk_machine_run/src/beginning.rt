// The begin of a job.

ghost use Rattle.std.specs.Prelude.{◌≡◌, ◌∷◌, [], IfOk, OnOk, Ok, Some, length, map};
ghost use Rattle.mlk_text.specs.Failures.{Answers};
ghost use Rattle.mlk_syntax.specs.Views.{line_of, routine_of};
ghost use Rattle.mlk_machine_jobs.specs.Calling.{entered};
ghost use Rattle.mlk_machine_jobs.specs.Runs.{blank, by_value, formals_at, begun};
ghost use Rattle.mlk_machine_jobs.specs.JobViews.{frame_of, job_of};
ghost use Rattle.mlk_machine_jobs.specs.Sound.{Sound};

use crate::call::lines_after;
use crate::formals::{binders, fill_first};
use crate::frame::{Begin, begin_frame};
use mlk_machine_jobs::{CellTable, Frame, Job, Stack};
use mlk_machine_locks::{Held, Refusal};
use mlk_machine_tasks::formals_in;
use mlk_program::{EntryId, Program};
use mlk_syntax::Line;
use mlk_text::{Failure, Value};
use std::alloc::{AllocError, Global};

// A job before its first frame.
fn new_job<'a>(alloc: Global, number: u32, test: bool) -> Result<Job<'a>, AllocError>
    ensures job { IfOk result (λ j. job_of j ≡ blank number test []) }
    ensures tables { IfOk result (λ j. length j.tables.items ≡ 1) }
    ensures binders { IfOk result (λ j. j.binders.items ≡ []) }
    ensures sound { IfOk result (λ j. Sound j) }
{
    let mut tables = Vec::new(alloc);
    let Ok(()) = tables.push(CellTable::new(alloc)) else {
        return Err(AllocError);
    };
    Ok(Job {
        number,
        test,
        routine: 0,
        binders: Vec::new(alloc),
        tables,
        values: Stack::of(Vec::new(alloc)),
        held: Held::new(alloc),
        pending: Vec::new(alloc),
        stopped: false,
    })
}

// The number of formals of the first of `lines`.
fn formals_at(lines: &[Line]) -> usize
    ensures { result ≡ formals_at (map line_of lines.now) }
{
    match lines.split_first() {
        Some((line, _)) => formals_in(line).len(),
        None => 0,
    }
}

// Begins the first frame of a job.
fn begin_first<'a>(
    alloc: Global,
    job: &mut Job<'a>,
    begin: Begin<'a>,
    values: &[Value],
) -> Result<(), AllocError>
    requires sound { Sound job.old }
    requires number { job_of job.old ≡ blank (job_of job.old).number (job_of job.old).test [] }
    ensures answer { OnOk result (entered (frame_of begin.entry.frame) begin.entry.routine (by_value (map Some values.now))
        (line_of begin.entry.line.now ∷ map line_of begin.entry.later.now) []
        (blank (job_of job.old).number (job_of job.old).test (map Some values.now)) ≡ Ok (job_of job.new)) }
    ensures sound { OnOk result (Sound job.new) }
{
    let formals = formals_in(begin.line);
    let found = binders(
        alloc,
        job.binders.as_slice(),
        job.tables.len(),
        formals,
        &[],
    )?;
    let mut table = CellTable::new(alloc);
    fill_first(&mut table, formals, values)?;
    begin_frame(job, begin, found, table)?;
    Ok(())
}

/// How a job begins: at an entry, as by a call, with a number, with `$TEST`, and with values for its first formals, at most as many as
/// there are formals.
#[derive(Clone, Copy, Drop)]
pub struct Beginning<'a> {
    pub entry: EntryId,
    pub number: u32,
    pub test: bool,
    pub values: &'a [Value],
}

/// A job that begins so.
pub fn begin<'a>(
    alloc: Global,
    program: &Program<'a>,
    beginning: &Beginning<'_>,
) -> Result<Job<'a>, Failure<Refusal>>
    ensures job { Answers job_of result (begun (map routine_of program.now) beginning.now.entry beginning.now.number
        beginning.now.test (map Some beginning.now.values.now)) }
    ensures sound { IfOk result (λ j. Sound j) }
{
    let Beginning {
        entry,
        number,
        test,
        values,
    } = *beginning;
    let lines = lines_after(program, entry);
    if formals_at(lines) < values.len() {
        return Err(Failure::Refused(Refusal::BadChoice));
    }
    let Some((line, later)) = lines.split_first() else {
        return Err(Failure::Refused(Refusal::NotEnabled));
    };
    let mut job = new_job(alloc, number, test)?;
    let begin = Begin {
        frame: Frame::NoValue,
        routine: entry.routine(),
        line,
        later,
    };
    begin_first(alloc, &mut job, begin, values)?;
    Ok(job)
}
