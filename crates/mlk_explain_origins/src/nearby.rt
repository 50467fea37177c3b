// What a routine's text does with locks of one root near a place.

use crate::grounds::Grounds;
use crate::routine::RoutineFacts;
use mlk_cert_parts::Summary;
use mlk_names::LockTerm;
use mlk_program::EntryId;
use mlk_survey_trees::{Mention, MentionAt};
use mlk_syntax::{Callee, Expr, LockArgument, Sign, Variable};
use mlk_text::{Column, LineNumber, Root};
use mlk_walk::Checks;

/// What is done with a lock.
#[derive(Clone, Copy, Drop, PartialEq, Eq)]
pub enum LockEvent {
    /// acquired by a LOCK without a timeout
    Acquired,
    /// acquired by a LOCK with a timeout
    AcquiredInTime,
    /// acquired by a call
    AcquiredByCall,
    /// released by a LOCK
    Released,
    /// released by a call
    ReleasedByCall,
}

/// The last thing that is done with a lock before a place, and the first after it, each with its line.
#[derive(Clone, Copy, Drop)]
pub struct LockEvents {
    pub before: Option<(LockEvent, LineNumber)>,
    pub after: Option<(LockEvent, LineNumber)>,
}

/// Whether the name in a LOCK has this root.
pub fn has_root(variable: &Variable, root: &Root) -> bool {
    match (&variable.name, root) {
        (Expr::Global(_, global, _), Root::Global(other)) => *global == *other,
        (Expr::Local(local, _), Root::Local(other)) => *local == *other,
        _ => false,
    }
}

// What an argument of LOCK does with locks of a root.
fn event_of_lock(argument: &LockArgument, root: &Root) -> Option<LockEvent> {
    let is_named = argument.names.iter().any(|name| has_root(name, root));
    match argument.sign {
        Sign::Minus if is_named => Some(LockEvent::Released),
        Sign::None if !is_named => Some(LockEvent::Released),
        Sign::None | Sign::Plus if is_named && argument.timeout.is_some() => {
            Some(LockEvent::AcquiredInTime)
        }
        Sign::None | Sign::Plus if is_named => Some(LockEvent::Acquired),
        _ => None,
    }
}

fn count_of(terms: &[LockTerm], root: &Root) -> usize {
    terms.iter().filter(|term| term.root == *root).count()
}

// What a call by this summary does with locks of a root.
fn event_of_call(summary: &Summary, root: &Root) -> Option<LockEvent> {
    let needed = count_of(summary.need.as_slice(), root);
    let mut exits = summary.exits.as_slice().iter();
    if exits.any(|exit| count_of(exit.held.as_slice(), root) > needed) {
        return Some(LockEvent::AcquiredByCall);
    }
    let mut exits = summary.exits.as_slice().iter();
    if summary.drops || exits.any(|exit| count_of(exit.held.as_slice(), root) < needed) {
        return Some(LockEvent::ReleasedByCall);
    }
    None
}

// The column at which an argument of LOCK begins, by its first name.
fn column_of(argument: &LockArgument) -> Option<Column> {
    let name = argument.names.first()?;
    Some(name.column)
}

// What a routine's mentions are looked through for.
#[derive(Clone, Copy, Drop)]
struct Search<'a> {
    checks: &'a Checks<'a>,
    // the routine's number
    routine: usize,
    root: &'a Root,
}

impl<'a> Search<'a> {
    fn event_of_callee(&self, callee: &Callee) -> Option<LockEvent> {
        let entry = self.checks.program.target(self.routine, callee)?;
        event_of_call(self.checks.entries.summary(entry)?, self.root)
    }

    // What a mention does with the locks, and its column, if it has one.
    fn event(&self, mention: &Mention<'_>) -> Option<(LockEvent, Option<Column>)> {
        match mention {
            Mention::Lock(argument) => {
                let event = event_of_lock(*argument, self.root)?;
                Some((event, column_of(*argument)))
            }
            Mention::Unlock => Some((LockEvent::Released, None)),
            Mention::Call(column, callee) => {
                let event = self.event_of_callee(*callee)?;
                Some((event, Some(*column)))
            }
            _ => None,
        }
    }
}

// Whether a mention is before a place.
fn is_before(
    at: &MentionAt<'_>,
    at_column: Option<Column>,
    line: LineNumber,
    column: Column,
) -> bool {
    if at.line != line {
        return at.line < line;
    }
    match at_column {
        Some(at_column) => at_column < column,
        None => false,
    }
}

// The numbers of the first and of the last line of an entry.
fn span_of(checks: &Checks<'_>, entry: EntryId) -> Option<(LineNumber, LineNumber)> {
    let lines = checks.program.lines_of(entry);
    let first = lines.first()?;
    let last = lines.last()?;
    Some((first.number, last.number))
}

/// Finds what the lines of `entry` do with locks of `root` before a place and after it, as far as their text and the summaries
/// of callees show.
pub fn events_near(
    checks: &Checks<'_>,
    facts: &RoutineFacts<'_>,
    entry: EntryId,
    root: &Root,
    line: LineNumber,
    column: Column,
) -> LockEvents {
    let mut events = LockEvents {
        before: None,
        after: None,
    };
    let Some((first, last)) = span_of(checks, entry) else {
        return events;
    };
    let search = Search {
        checks,
        routine: entry.routine(),
        root,
    };
    for at in facts
        .mentions
        .as_slice()
        .iter()
        .skip(facts.first_mention(first))
    {
        let Some((event, at_column)) = search.event(&at.mention) else {
            continue;
        };
        if is_before(at, at_column, line, column) {
            events.before = Some((event, at.line));
        } else if at.line <= last
            && events.after.is_none()
            && !(at.line == line && at_column == Some(column))
        {
            events.after = Some((event, at.line));
        }
    }
    events
}
