// Why a lock is not held at a place, as far as the text of the routine shows.

use mlk_cert_parts::Test;
use mlk_explain_origins::{Checks, LockEvent, LockEvents, RoutineFacts, events_near};
use mlk_program::EntryId;
use mlk_text::{LineNumber, Root};
use mlk_walk_exprs::Fault;

/// Why a lock is not held at a place, with the line that says so.
#[derive(Clone, Copy, Drop)]
pub enum Reason {
    /// nothing near acquires it
    Never,
    /// it is acquired after the place
    TooLate(LineNumber),
    Released(LineNumber),
    /// the LOCK that acquires it may time out, and `$TEST` is 0
    TimedOut(LineNumber),
    /// a local takes the value of `$TEST` after the LOCK
    InFlag(LineNumber),
    /// it is acquired in a FOR
    InFor(LineNumber),
    /// it is acquired before the place, but not on each way to it
    Sometimes(LineNumber),
}

impl Reason {
    /// The number of the line that says so.
    pub fn line(self) -> Option<LineNumber> {
        match self {
            Reason::Never => None,
            Reason::TooLate(line)
            | Reason::Released(line)
            | Reason::TimedOut(line)
            | Reason::InFlag(line)
            | Reason::InFor(line)
            | Reason::Sometimes(line) => Some(line),
        }
    }
}

// Whether `$T` or `$TEST` is assigned at the front of a text.
fn takes_test(text: &[u8]) -> bool {
    match text {
        [b'=', b'$', b'T' | b't', next, ..] => !matches!(next, b'R' | b'r'),
        [b'=', b'$', b'T' | b't'] => true,
        _ => false,
    }
}

fn has_flag(line: &[u8]) -> bool {
    for place in 0..line.len() {
        if takes_test(line.get(place..).unwrap_or(&[])) {
            return true;
        }
    }
    false
}

// Whether a local takes the value of `$TEST` on these lines.
fn has_flag_between(facts: &RoutineFacts<'_>, first: LineNumber, last: LineNumber) -> bool {
    for number in first.number()..=last.number() {
        if has_flag(facts.line(LineNumber::new(number))) {
            return true;
        }
    }
    false
}

// Whether a word of a line of M is FOR.
fn has_for(line: &[u8]) -> bool {
    let mut words = line.split(|byte| *byte == b' ');
    words.any(|word| {
        matches!(
            word,
            [b'F' | b'f'] | [b'F' | b'f', b'O' | b'o', b'R' | b'r']
        )
    })
}

fn reason_of(
    facts: &RoutineFacts<'_>,
    events: LockEvents,
    place: LineNumber,
    test: Test,
) -> Reason {
    let Some((event, line)) = events.before else {
        return match events.after {
            Some((LockEvent::Released | LockEvent::ReleasedByCall, _)) | None => Reason::Never,
            Some((_, line)) => Reason::TooLate(line),
        };
    };
    match event {
        LockEvent::Released | LockEvent::ReleasedByCall => Reason::Released(line),
        LockEvent::AcquiredInTime if has_flag_between(facts, line, place) => Reason::InFlag(line),
        LockEvent::Acquired | LockEvent::AcquiredInTime if has_for(facts.line(line)) => {
            Reason::InFor(line)
        }
        LockEvent::AcquiredInTime if test == Test::Zero => Reason::TimedOut(line),
        _ => Reason::Sometimes(line),
    }
}

/// Why locks of `root` are not held where `fault` is found in `entry`, if `$TEST` is as `test` says there.
pub(crate) fn reason_at(
    checks: &Checks<'_>,
    facts: &RoutineFacts<'_>,
    entry: EntryId,
    root: &Root,
    fault: Fault,
    test: Test,
) -> Reason {
    let events = events_near(checks, facts, entry, root, fault.line, fault.column);
    reason_of(facts, events, fault.line, test)
}
