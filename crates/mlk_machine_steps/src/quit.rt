// QUIT, HALT, and the ends of frames.

ghost use Rattle.std.specs.Prelude.{◌≡◌, [], OnErr, Ok, take};
ghost use Rattle.mlk_text.specs.Failures.{Answers};
ghost use Rattle.mlk_machine_jobs.specs.Choices.{without_choice, doing};
ghost use Rattle.mlk_machine_jobs.specs.Lines.{quit, to_end, answered};
ghost use Rattle.mlk_machine_jobs.specs.Calling.{frame_end};
ghost use Rattle.mlk_machine_jobs.specs.Views.{bindings_of};
ghost use Rattle.mlk_machine_jobs.specs.JobViews.{frame_of, job_of, KeepsPending};
ghost use Rattle.mlk_machine_jobs.specs.Sound.{Sound};
ghost use Rattle.mlk_machine_steps.specs.Steps.{left_to, IsBack};

use crate::ask::{nothing_asked, or_refused};
use crate::scope::go_back;
use mlk_machine_jobs::{Back, Choice, Frame, Job, asked_value};
use mlk_machine_locks::Refusal;
use mlk_text::Failure;

/// QUIT without a value.
pub fn quit_here(job: &mut Job, choice: &Choice) -> Result<(), Failure<Refusal>>
    ensures answer { Answers (λ _. job_of job.new) result (without_choice choice.now
        (Ok (doing (quit (job_of job.old).tasks) (job_of job.old)))) }
    ensures stays { OnErr result (job_of job.new ≡ job_of job.old) }
    ensures room { OnErr result (KeepsPending job.old job.new) }
    ensures sound { Sound job.old → Sound job.new }
{
    nothing_asked(choice)?;
    job.quit();
    Ok(())
}

/// QUIT with a value, which was computed last.
pub fn quit_with_value(job: &mut Job, choice: &Choice) -> Result<(), Failure<Refusal>>
    ensures answer { Answers (λ _. job_of job.new) result (without_choice choice.now
        (Ok (answered (job_of job.old) (to_end (job_of job.old).tasks)))) }
    ensures stays { OnErr result (job_of job.new ≡ job_of job.old) }
    ensures room { OnErr result (KeepsPending job.old job.new) }
    ensures sound { Sound job.old → Sound job.new }
{
    nothing_asked(choice)?;
    job.go_to_end();
    job.answer();
    Ok(())
}

/// HALT.
pub fn halt(job: &mut Job, choice: &Choice) -> Result<(), Failure<Refusal>>
    ensures answer { Answers (λ _. job_of job.new) result (without_choice choice.now
        (Ok (doing [] (job_of job.old)))) }
    ensures stays { OnErr result (job_of job.new ≡ job_of job.old) }
    ensures room { OnErr result (KeepsPending job.old job.new) }
    ensures sound { Sound job.old → Sound job.new }
{
    nothing_asked(choice)?;
    job.halt();
    Ok(())
}

// Restores everything to the begin of a frame, the routine too.
fn leave_frame(job: &mut Job, back: Back, routine: usize)
    requires { IsBack back job.old }
    ensures job { job_of job.new ≡ left_to (bindings_of (take back.binders job.old.binders.items)) back.next routine (job_of job.old) }
    ensures sound { Sound job.new }
{
    go_back(job, back);
    job.routine = routine;
}

/// Ends a frame: that of an extrinsic call restores `$TEST`, and returns the chosen value if QUIT provided none.
pub fn end_frame(
    job: &mut Job,
    choice: Choice,
    frame: Frame,
    back: Back,
    routine: usize,
) -> Result<(), Failure<Refusal>>
    requires back { IsBack back job.old }
    requires sound { Sound job.old }
    ensures answer { Answers (λ _. job_of job.new) result (frame_end choice (frame_of frame)
        (left_to (bindings_of (take back.binders job.old.binders.items)) back.next routine (job_of job.old))) }
    ensures stays { OnErr result (job_of job.new ≡ job_of job.old) }
    ensures room { OnErr result (KeepsPending job.old job.new) }
    ensures sound { Sound job.new }
{
    match frame {
        Frame::NoValue => {
            nothing_asked(&choice)?;
            leave_frame(job, back, routine);
            Ok(())
        }
        Frame::AwaitsValue(test) => {
            let value = or_refused(asked_value(choice))?;
            job.values.push(value)?;
            leave_frame(job, back, routine);
            job.set_test(test);
            Ok(())
        }
        Frame::HasValue(test) => {
            nothing_asked(&choice)?;
            leave_frame(job, back, routine);
            job.set_test(test);
            Ok(())
        }
    }
}
