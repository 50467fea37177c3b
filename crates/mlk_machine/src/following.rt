// Replay of files of events.

ghost use Rattle.std.specs.Prelude.{map};
ghost use Rattle.mlk_text.specs.Failures.{Answers};
ghost use Rattle.mlk_machine.specs.Systems.{jobs_in, routines_in, machine_of, IsSame};
ghost use Rattle.mlk_machine.specs.Files.{made, FollowedSo, ReplayedFile};
ghost use Rattle.mlk_machine.specs.InstructionViews.{asked_of};

use crate::fault::{EventsFault, EventsRefusal};
use crate::instruction::Instruction;
use crate::reading::read_events;
use crate::system::System;
use mlk_machine_locks::Refusal;
use mlk_program::{EntryId, Program};
use mlk_text::{Failure, LineNumber};
use std::alloc::Global;

// Applies one line to a system.
#[tactic(auto, using(crate::proofs::FollowLemmas::goes_on, crate::proofs::FollowLemmas::stays_there))]
fn follow_one<'a>(system: &mut System<'a>, asked: &Instruction) -> Result<(), Failure<Refusal>>
    ensures answer { Answers (λ _. jobs_in system.new) result
        (made (machine_of system.old) (routines_in system.old) (asked_of asked.now) (jobs_in system.old)) }
    ensures same { IsSame system.old system.new }
{
    match asked {
        Instruction::Happens(event) => system.step(event),
        Instruction::RunsAlone(job) => {
            let _ = system.settle(*job)?;
            Ok(())
        }
    }
}

// Applies lines to a system, one after another.
fn follow<'a>(system: &mut System<'a>, lines: &[Instruction]) -> Result<(), Failure<EventsFault>>
    ensures same { IsSame system.old system.new }
    ensures followed { FollowedSo (machine_of system.old) (routines_in system.old) (map asked_of lines.now)
        (jobs_in system.old) (jobs_in system.new) result }
{
    let mut left = lines;
    let mut number: u32 = 1;
    while let Some((asked, rest)) = left.split_first() {
        match follow_one(system, asked) {
            Ok(()) => {
                left = rest;
                number = number.saturating_add(1);
            }
            Err(Failure::OutOfMemory) => return Err(Failure::OutOfMemory),
            Err(Failure::Refused(refusal)) => {
                let line = LineNumber::new(number);
                let why = EventsRefusal::Refused(refusal);
                return Err(Failure::Refused(EventsFault { line, why }));
            }
        }
    }
    Ok(())
}

/// The system after all lines of a file of events, starting without jobs. The error is the line at which the replay stops, and
/// why. A line that is not an event, or at which a job begins at an entry that is not in the program, is reported before anything
/// is replayed.
#[tactic(auto, using(crate::proofs::FollowLemmas::form_refused, crate::proofs::FollowLemmas::all_followed, crate::proofs::FollowLemmas::follow_stopped))]
pub fn replay_events<'a>(
    alloc: Global,
    program: &'a Program<'a>,
    entries: &'a [EntryId],
    bytes: &[u8],
) -> Result<System<'a>, Failure<EventsFault>>
    ensures { ReplayedFile program.now entries.now bytes.now result }
{
    let lines = read_events(alloc, program, bytes)?;
    let mut system = System::start(alloc, program, entries);
    follow(&mut system, lines.as_slice())?;
    Ok(system)
}
