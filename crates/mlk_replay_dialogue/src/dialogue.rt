// Events that are entered one after another.

ghost use Rattle.std.specs.Prelude.{IfOk, IfSome};
ghost use Rattle.mlk_replay_dialogue.specs.Entering.{AreReplayed};

use crate::line::{last_line_start, whole_line};
use mlk_machine::{EventsRefusal, System, replay_events};
use mlk_program::{EntryId, Program};
use mlk_text::Failure;
use std::alloc::{AllocError, Global};

/// The events that were entered, as a file has them, the jobs after them, and what came of the last line.
#[derive(Drop)]
pub struct Entered<'a> {
    pub events: Vec<u8>,
    pub system: System<'a>,
    pub reply: Reply,
}

/// The effect of a line that a person enters.
#[derive(Clone, Copy, Drop, PartialEq, Eq)]
pub enum Reply {
    /// it is one event more
    Taken,
    /// it removes the last event
    Undone,
    /// it can't be followed
    Refused(EventsRefusal),
    /// it asks for what is offered, and nothing is
    NothingOffered,
    /// it is a comment, or there is no event to remove
    Ignored,
}

// `events`, the jobs after all of their lines, and `reply`; or why one of the lines can't be followed.
fn follow<'a>(
    alloc: Global,
    program: &'a Program<'a>,
    entries: &'a [EntryId],
    events: Vec<u8>,
    reply: Reply,
) -> Result<Result<Entered<'a>, EventsRefusal>, AllocError>
    ensures { IfOk result (λ answer. IfOk answer (AreReplayed program.now entries.now)) }
{
    match replay_events(alloc, program, entries, events.as_slice()) {
        Ok(system) => Ok(Ok(Entered {
            events,
            system,
            reply,
        })),
        Err(Failure::OutOfMemory) => Err(AllocError),
        Err(Failure::Refused(fault)) => Ok(Err(fault.why)),
    }
}

/// The events of `given`, and the jobs after them, which begin at `entries`; `None` if one of its lines can't be followed.
pub fn resume<'a>(
    alloc: Global,
    program: &'a Program<'a>,
    entries: &'a [EntryId],
    given: &[u8],
) -> Result<Option<Entered<'a>>, AllocError>
    ensures { IfOk result (λ answer. IfSome answer (AreReplayed program.now entries.now)) }
{
    let events = Vec::from_slice(alloc, given)?;
    match follow(alloc, program, entries, events, Reply::Taken)? {
        Ok(entered) => Ok(Some(entered)),
        Err(_) => Ok(None),
    }
}

// The jobs after other events, with `reply`; `entered`, with the reason, if these events can't be followed.
fn follow_or_keep<'a>(
    alloc: Global,
    program: &'a Program<'a>,
    entries: &'a [EntryId],
    entered: Entered<'a>,
    events: Vec<u8>,
    reply: Reply,
) -> Result<Entered<'a>, AllocError>
    requires { AreReplayed program.now entries.now entered }
    ensures { IfOk result (AreReplayed program.now entries.now) }
{
    match follow(alloc, program, entries, events, reply)? {
        Ok(next) => Ok(next),
        Err(why) => Ok(Entered {
            reply: Reply::Refused(why),
            ..entered
        }),
    }
}

// Whether `line` is `undo`, which removes the last event.
fn is_undo(line: &[u8]) -> bool {
    line == b"undo".as_slice()
}

// Whether `line` is a comment, or removes the last of `events`, which has none.
fn has_no_effect(line: &[u8], events: &[u8]) -> bool {
    line.starts_with(b"#") || (is_undo(line) && events.is_empty())
}

/// Takes `line`: an event, a choice for the job of the last event, an empty line for the event that is offered, `undo`, or a
/// comment. The jobs are always those after the events.
pub fn enter<'a>(
    alloc: Global,
    program: &'a Program<'a>,
    entries: &'a [EntryId],
    entered: Entered<'a>,
    line: &[u8],
) -> Result<Entered<'a>, AllocError>
    requires { AreReplayed program.now entries.now entered }
    ensures { IfOk result (AreReplayed program.now entries.now) }
{
    if has_no_effect(line, entered.events.as_slice()) {
        return Ok(Entered {
            reply: Reply::Ignored,
            ..entered
        });
    }
    let mut events = Vec::from_slice(alloc, entered.events.as_slice())?;
    if is_undo(line) {
        let kept = last_line_start(events.as_slice());
        events.truncate(kept);
        return follow_or_keep(alloc, program, entries, entered, events, Reply::Undone);
    }
    let Some(whole) = whole_line(alloc, program, &entered, line)? else {
        return Ok(Entered {
            reply: Reply::NothingOffered,
            ..entered
        });
    };
    events.extend_from_slice(whole.as_slice())?;
    events.push(b'\n')?;
    follow_or_keep(alloc, program, entries, entered, events, Reply::Taken)
}
