// GOTO.

ghost use Rattle.std.specs.Prelude.{◌≡◌, OnErr, map};
ghost use Rattle.mlk_text.specs.Failures.{Answers};
ghost use Rattle.mlk_syntax.specs.Views.{routine_of};
ghost use Rattle.mlk_program.specs.Entries.{target_of};
ghost use Rattle.mlk_machine_jobs.specs.Calling.{gone};
ghost use Rattle.mlk_machine_jobs.specs.Choices.{without_choice};
ghost use Rattle.mlk_machine_jobs.specs.JobViews.{job_of, KeepsPending};
ghost use Rattle.mlk_machine_jobs.specs.Sound.{Sound};

use crate::call::lines_after;
use mlk_machine_jobs::{Choice, Job};
use mlk_machine_locks::Refusal;
use mlk_machine_steps::nothing_asked;
use mlk_program::Program;
use mlk_syntax::Callee;
use mlk_text::Failure;

/// Goes to the line that `callee` names, which has to be one of the running routine.
pub(crate) fn go_to<'a>(
    program: &Program<'a>,
    job: &mut Job<'a>,
    choice: &Choice,
    callee: &Callee,
) -> Result<(), Failure<Refusal>>
    ensures answer { Answers (λ _. job_of job.new) result (without_choice choice.now
        (gone (map routine_of program.now) (target_of (map routine_of program.now) (job_of job.old).routine callee.now)
        (job_of job.old).tasks (job_of job.old))) }
    ensures stays { OnErr result (job_of job.new ≡ job_of job.old) }
    ensures room { OnErr result (KeepsPending job.old job.new) }
    ensures sound { Sound job.old → Sound job.new }
{
    let Some(entry) = program.target(job.routine, callee) else {
        return Err(Failure::Refused(Refusal::NotEnabled));
    };
    if entry.routine() != job.routine {
        return Err(Failure::Refused(Refusal::NotEnabled));
    }
    nothing_asked(choice)?;
    job.go_to(lines_after(program, entry))?;
    Ok(())
}
