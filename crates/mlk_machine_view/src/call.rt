// The state of a job at a call, at GOTO, and at lines.

ghost use Rattle.std.specs.Prelude.{◌≡◌, map};
ghost use Rattle.mlk_machine_locks.specs.Lists.{is_some_there};
ghost use Rattle.mlk_program.specs.Entries.{target_of};
ghost use Rattle.mlk_syntax.specs.Views.{line_of, routine_of};
ghost use Rattle.mlk_machine_jobs.specs.Calling.{lines_after};
ghost use Rattle.mlk_machine_jobs.specs.JobViews.{job_of};
ghost use Rattle.mlk_machine_view.specs.Asked.{by_goto, by_lines, by_target};
ghost use Rattle.mlk_machine_view.specs.StateViews.{state_of};

use crate::shown::State;
use mlk_machine_jobs::Job;
use mlk_machine_tasks::has_formals;
use mlk_program::{EntryId, Program};
use mlk_syntax::{Callee, Line};

// Whether `entry` has a line.
#[tactic(auto, using(crate::proofs::CallLemmas::no_routine, crate::proofs::CallLemmas::some_line))]
fn has_line(program: &Program, entry: EntryId) -> bool
    ensures { result ≡ is_some_there (lines_after (map routine_of program.now) entry) }
{
    match program.routine_of(entry) {
        Some(routine) => entry.line() < routine.lines.as_slice().len(),
        None => false,
    }
}

/// The state of a job at a call.
pub(crate) fn call_state<'j>(program: &Program, job: &Job, callee: &Callee) -> State<'j>
    ensures { state_of result ≡ by_target (map routine_of program.now)
        (target_of (map routine_of program.now) (job_of job.now).routine callee.now) }
{
    match program.target(job.routine, callee) {
        Some(entry) => {
            if has_line(program, entry) {
                State::Silent
            } else {
                State::Stuck
            }
        }
        None => State::Stuck,
    }
}

/// The state of a job at GOTO.
pub(crate) fn goto_state<'j>(program: &Program, job: &Job, callee: &Callee) -> State<'j>
    ensures { state_of result ≡ by_goto (job_of job.now).routine
        (target_of (map routine_of program.now) (job_of job.now).routine callee.now) }
{
    match program.target(job.routine, callee) {
        Some(entry) => {
            if entry.routine() == job.routine {
                State::Silent
            } else {
                State::Stuck
            }
        }
        None => State::Stuck,
    }
}

/// The state of a job at lines: it does not continue into one with a formal list.
pub(crate) fn lines_state<'j>(lines: &[Line]) -> State<'j>
    ensures { state_of result ≡ by_lines (map line_of lines.now) }
{
    match lines.first() {
        Some(line) => {
            if has_formals(line) {
                State::Stuck
            } else {
                State::Silent
            }
        }
        None => State::Silent,
    }
}
