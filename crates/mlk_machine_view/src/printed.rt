// The printed lines of a system.

ghost use Rattle.std.specs.Prelude.{◌≡◌, ◌++◌, OnOk, codes, map};
ghost use Rattle.mlk_cert_lexemes.specs.Lists.{flat};
ghost use Rattle.mlk_cert_lexemes.specs.Texts.{line};
ghost use Rattle.mlk_syntax.specs.Views.{routine_of};
ghost use Rattle.mlk_machine_jobs.specs.JobViews.{job_of};
ghost use Rattle.mlk_machine_view.specs.Printed.{clash_lines, job_line, pair_line, ring_text, waits_lines};
ghost use Rattle.mlk_machine_view.specs.StateTexts.{state_text};
ghost use Rattle.mlk_machine_view.specs.Lines.{line_of_job};
ghost use Rattle.mlk_machine_view.specs.Spelling.{claim_text};
ghost use Rattle.mlk_machine_view.specs.StateViews.{state_of};

use crate::clashing::clashes;
use crate::dispatch::state;
use crate::holding::push_held;
use crate::shown::State;
use crate::spelling::push_names;
use crate::touch::push_touch;
use crate::wait::waiting_pairs;
use mlk_cert_lexemes::WrittenText;
use mlk_machine_jobs::Job;
use mlk_names::LockName;
use mlk_program::Program;
use std::alloc::{AllocError, Global};

// Appends the names of a claim, and whether there is a timeout.
fn push_claim(text: &mut WrittenText, names: &[LockName], timed: bool) -> Result<(), AllocError>
    ensures { OnOk result (text.new ≡ text.old ++ claim_text names.now timed) }
{
    push_names(text, names)?;
    if timed {
        text.push(b" timed")?;
    }
    Ok(())
}

// Appends what a job does next.
fn push_state(text: &mut WrittenText, state: State) -> Result<(), AllocError>
    ensures { OnOk result (text.new ≡ text.old ++ state_text (state_of state.entry)) }
{
    match state {
        State::Ready(touch) => {
            text.push(b"ready ")?;
            push_touch(text, touch)
        }
        State::Claims(names, timed) => {
            text.push(b"claims ")?;
            push_claim(text, names, timed)
        }
        State::Releases => text.push(b"releases"),
        State::AsksChoice => text.push(b"choice"),
        State::Stuck => text.push(b"stuck"),
        State::Silent => text.push(b"silent"),
        State::Ended => text.push(b"ended"),
        State::Stopped => text.push(b"stopped"),
    }
}

// Appends the line of a job.
fn push_job(
    alloc: Global,
    text: &mut WrittenText,
    program: &Program,
    job: &Job,
) -> Result<(), AllocError>
    ensures { OnOk result (text.new ≡ text.old ++ job_line (map routine_of program.now) (job_of job.now)) }
{
    text.push(b"job ")?;
    text.push_number(job.number)?;
    text.push_byte(b' ')?;
    push_state(text, state(program, job))?;
    text.push(b" holds ")?;
    push_held(alloc, text, &job.held)?;
    text.push_byte(b'\n')?;
    Ok(())
}

/// Appends the lines of jobs.
pub(crate) fn push_jobs<'a>(
    alloc: Global,
    text: &mut WrittenText,
    program: &Program<'a>,
    jobs: &[Job<'a>],
) -> Result<(), AllocError>
    ensures { OnOk result (text.new ≡ text.old ++ flat (line_of_job program.now) jobs.now) }
{
    for job in jobs {
        push_job(alloc, text, program, job)?;
    }
    Ok(())
}

// Appends the line of a pair of jobs.
fn push_pair(text: &mut WrittenText, word: &[u8], pair: &(u32, u32)) -> Result<(), AllocError>
    ensures { OnOk result (text.new ≡ text.old ++ pair_line word.now pair.now) }
{
    text.push(word)?;
    text.push_number(pair.0)?;
    text.push_byte(b' ')?;
    text.push_number(pair.1)?;
    text.push_byte(b'\n')?;
    Ok(())
}

// Appends the lines of pairs of jobs.
fn push_pairs(text: &mut WrittenText, word: &[u8], pairs: &[(u32, u32)]) -> Result<(), AllocError>
    ensures { OnOk result (text.new ≡ text.old ++ flat (pair_line word.now) pairs.now) }
{
    for pair in pairs {
        push_pair(text, word, pair)?;
    }
    Ok(())
}

/// Appends the lines of the jobs that clash.
pub(crate) fn push_clashes<'a>(
    alloc: Global,
    text: &mut WrittenText,
    jobs: &[Job<'a>],
) -> Result<(), AllocError>
    ensures { OnOk result (text.new ≡ text.old ++ clash_lines (map job_of jobs.now)) }
{
    let pairs = clashes(alloc, jobs)?;
    push_pairs(text, b"clash ", pairs.as_slice())?;
    Ok(())
}

/// Appends the lines of the jobs that wait.
pub(crate) fn push_waits<'a>(
    alloc: Global,
    text: &mut WrittenText,
    jobs: &[Job<'a>],
) -> Result<(), AllocError>
    ensures { OnOk result (text.new ≡ text.old ++ waits_lines (map job_of jobs.now)) }
{
    let pairs = waiting_pairs(alloc, jobs)?;
    push_pairs(text, b"waits ", pairs.as_slice())?;
    Ok(())
}

/// Appends the line that says whether some of the jobs wait in a ring.
pub(crate) fn push_ring(text: &mut WrittenText, has_ring: bool) -> Result<(), AllocError>
    ensures { OnOk result (text.new ≡ text.old ++ line (codes "ring ") (ring_text has_ring)) }
{
    if has_ring {
        text.push(b"ring yes\n")?;
    } else {
        text.push(b"ring no\n")?;
    }
    Ok(())
}
