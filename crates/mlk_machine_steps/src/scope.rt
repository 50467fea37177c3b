// NEW, and blocks, at whose end the bindings of all names are restored.

ghost use Rattle.std.specs.Prelude.{◌≡◌, ◌∷◌, OnErr, Ok, take, length};
ghost use Rattle.mlk_text.specs.Failures.{Answers};
ghost use Rattle.mlk_program.specs.Entries.{as_lines};
ghost use Rattle.mlk_machine_jobs.specs.Tasks.{RunLines, EndBlock};
ghost use Rattle.mlk_machine_jobs.specs.Choices.{without_choice, doing};
ghost use Rattle.mlk_machine_jobs.specs.Locking.{tested};
ghost use Rattle.mlk_machine_jobs.specs.Calling.{back_to};
ghost use Rattle.mlk_machine_jobs.specs.Views.{names_of, bindings_of};
ghost use Rattle.mlk_machine_jobs.specs.JobViews.{job_of, KeepsPending};
ghost use Rattle.mlk_machine_jobs.specs.Sound.{Sound};
ghost use Rattle.mlk_machine_jobs.specs.TaskViews.{block_of};
ghost use Rattle.mlk_machine_steps.specs.Steps.{made_new, IsBack};

use crate::ask::nothing_asked;
use mlk_machine_jobs::{
    Back, Binder, Choice, Job, LineTask, Names, Pending, Task, add_generation, forget,
};
use mlk_machine_locks::Refusal;
use mlk_syntax::Line;
use mlk_text::Failure;
use std::alloc::Global;

// The first generation that no binder has.
fn next_generation(job: &Job) -> usize
    ensures { result ≡ length job.now.tables.items }
{
    job.tables.len()
}

/// Binds names to new cells.
pub fn make_new<'a>(
    alloc: Global,
    job: &mut Job<'a>,
    choice: &Choice,
    names: Names<'a>,
) -> Result<(), Failure<Refusal>>
    requires { Sound job.old }
    ensures answer { Answers (λ _. job_of job.new) result (without_choice choice.now
        (Ok (made_new (names_of names.entry) (job_of job.old)))) }
    ensures stays { OnErr result (job_of job.new ≡ job_of job.old) }
    ensures room { OnErr result (KeepsPending job.old job.new) }
    ensures sound { Sound job.new }
{
    nothing_asked(choice)?;
    job.binders.reserve(1)?;
    let generation = next_generation(job);
    add_generation(alloc, &mut job.tables)?;
    job.binders.push_reserved(Binder::Fresh(generation, names));
    Ok(())
}

/// Begins a block; its end restores names and `$TEST`.
#[tactic(auto, using(crate::proofs::ScopeLemmas::lines_again, crate::proofs::ScopeLemmas::block_begun, crate::proofs::ScopeLemmas::stands_with_block))]
pub fn begin_block<'a>(
    job: &mut Job<'a>,
    choice: &Choice,
    lines: &'a [Line],
) -> Result<(), Failure<Refusal>>
    requires { Sound job.old }
    ensures answer { Answers (λ _. job_of job.new) result (without_choice choice.now
        (Ok (doing (RunLines (as_lines (block_of lines.now)) ∷ EndBlock (job_of job.old).bindings (job_of job.old).next
        (job_of job.old).test ∷ (job_of job.old).tasks) (job_of job.old)))) }
    ensures stays { OnErr result (job_of job.new ≡ job_of job.old) }
    ensures room { OnErr result (KeepsPending job.old job.new) }
    ensures sound { Sound job.new }
{
    nothing_asked(choice)?;
    let back = Back {
        binders: job.binders.len(),
        next: job.tables.len(),
    };
    job.pending.reserve(2)?;
    job.pending.push_reserved(Pending::EndBlock(back, job.test));
    job.pending
        .push_reserved(Pending::Task(Task::Line(LineTask::RunLines(lines))));
    Ok(())
}

/// Restores the bindings of all names to those at the begin of a block or frame.
pub(crate) fn go_back(job: &mut Job, back: Back)
    requires { IsBack back job.old }
    ensures job { job_of job.new ≡ back_to (bindings_of (take back.binders job.old.binders.items)) back.next (job_of job.old) }
    ensures sound { Sound job.new }
{
    job.binders.truncate(back.binders);
    forget(&mut job.tables, back.next);
}

/// Ends a block.
pub fn end_block(
    job: &mut Job,
    choice: &Choice,
    back: Back,
    test: bool,
) -> Result<(), Failure<Refusal>>
    requires back { IsBack back job.old }
    requires sound { Sound job.old }
    ensures answer { Answers (λ _. job_of job.new) result (without_choice choice.now
        (Ok (tested test (back_to (bindings_of (take back.binders job.old.binders.items)) back.next (job_of job.old))))) }
    ensures stays { OnErr result (job_of job.new ≡ job_of job.old) }
    ensures room { OnErr result (KeepsPending job.old job.new) }
    ensures sound { Sound job.new }
{
    nothing_asked(choice)?;
    go_back(job, back);
    job.set_test(test);
    Ok(())
}
