// Events, one after another.

ghost use Rattle.std.specs.Prelude.{◌≡◌, Ok, OnOk, IfErr, map};
ghost use Rattle.mlk_machine_locks.specs.Systems.{happens};
ghost use Rattle.mlk_machine.specs.Events.{act_of};
ghost use Rattle.mlk_machine.specs.Systems.{jobs_in, machine_of, IsSame};
ghost use Rattle.mlk_machine.specs.Replays.{event_of, FailsAt, Replayed};

use crate::event::Event;
use crate::system::System;
use mlk_machine_locks::Refusal;
use mlk_program::{EntryId, Program};
use mlk_text::Failure;
use std::alloc::Global;
use thiserror::Error;

/// An event that can't happen: its index, and why.
#[derive(Clone, Copy, Debug, Drop, PartialEq, Eq, Error)]
#[error("event {index}: {why}")]
pub struct Refused {
    pub index: usize,
    pub why: Refusal,
}

// Applies the event at an index to a system.
fn apply_event<'a>(
    system: &mut System<'a>,
    event: &Event,
    index: usize,
) -> Result<(), Failure<Refused>>
    ensures ok { OnOk result (happens (machine_of system.old) (jobs_in system.old) event.now.job (act_of event.now.act)
        ≡ Ok (jobs_in system.new)) }
    ensures same { IsSame system.old system.new }
    ensures refused { IfErr result (λ e. FailsAt index e
        (happens (machine_of system.old) (jobs_in system.old) event.now.job (act_of event.now.act))) }
{
    match system.step(event) {
        Ok(()) => Ok(()),
        Err(Failure::OutOfMemory) => Err(Failure::OutOfMemory),
        Err(Failure::Refused(why)) => Err(Failure::Refused(Refused { index, why })),
    }
}

/// The system after `events`, starting without jobs. The error is the first event that can't happen, and why.
pub fn replay<'a>(
    alloc: Global,
    program: &'a Program<'a>,
    entries: &'a [EntryId],
    events: &[Event],
) -> Result<System<'a>, Failure<Refused>>
    ensures { Replayed program.now entries.now (map event_of events.now) result }
{
    let mut system = System::start(alloc, program, entries);
    let mut index = 0;
    while index < events.len() {
        match apply_event(&mut system, &events[index], index) {
            Ok(()) => index += 1,
            Err(why) => return Err(why),
        }
    }
    Ok(system)
}
