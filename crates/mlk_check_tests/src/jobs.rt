// Jobs by events: what is asked of them afterwards, and which event can't happen.

use crate::given::{Trial, passes};
use mlk_machine::{Act, Event, MOST_SILENT_STEPS, Refused, System, replay};
use mlk_machine_jobs::Choice;
use mlk_machine_locks::Refusal;
use mlk_names::LockName;
use mlk_program::{EntryId, Program};
use mlk_text::{Failure, List, Name, Root, Subscripts, Value};
use std::alloc::{AllocError, Global};

/// The routine of the jobs. Each of its entries is declared.
pub(crate) const ROUTINE: &[u8] = b"WRITE SET ^ACCT(1)=1 QUIT\n\
FIRST LOCK +^ACCT(1) LOCK +^LOG QUIT\n\
SECOND LOCK +^LOG LOCK +^ACCT(1) QUIT\n\
HOLD LOCK +^ACCT(1) SET ^ACCT(1)=5 LOCK -^ACCT(1) QUIT\n\
KEEP LOCK +^ACCT(1) QUIT\n\
LOOP FOR  SET X=1\n";

fn declared(program: &Program<'_>) -> Option<[EntryId; 6]> {
    Some([
        program.entry(b"WRITE^R")?,
        program.entry(b"FIRST^R")?,
        program.entry(b"SECOND^R")?,
        program.entry(b"HOLD^R")?,
        program.entry(b"KEEP^R")?,
        program.entry(b"LOOP^R")?,
    ])
}

// ^ACCT(1)
fn account(alloc: Global) -> Result<LockName, AllocError> {
    let mut subs = Subscripts::new(alloc);
    subs.push(Value::of(alloc, b"1")?)?;
    let root = Root::Global(Name::of(alloc, b"ACCT")?);
    Ok(LockName { root, subs })
}

/// What a job does.
#[derive(Clone, Copy, Drop)]
pub(crate) enum Does {
    /// It begins at this entry.
    Begins(&'static [u8]),
    /// It makes so many steps that leave nothing open.
    Goes(u32),
    /// It makes a step with this value.
    Takes(&'static [u8]),
    IsAborted,
}

/// What a job does beside another.
#[derive(Clone, Copy, Drop)]
pub(crate) enum JobState {
    /// at a touch of a global
    Ready,
    /// at a claim of what the other holds
    Waiting,
    Elsewhere,
    /// It never began.
    Nowhere,
}

/// What is asked of a job: its state, how often it holds `^ACCT(1)`, and how many names it holds.
#[derive(Clone, Copy, Drop)]
pub(crate) struct Asked(JobState, u32, usize);

/// What events come to.
#[derive(Clone, Copy, Drop)]
pub(crate) enum Wanted {
    /// What is asked of jobs 1 and 2, whether they wait in a ring, and how many steps job 1 then makes by itself.
    After(Asked, Asked, bool, u32),
    /// Which event can't happen, and why.
    Refused(usize, Refusal),
}

/// What jobs do in turn, each by its number.
pub(crate) type Script = &'static [(u32, Does)];

fn act_of(alloc: Global, program: &Program<'_>, does: Does) -> Option<Act> {
    Some(match does {
        Does::Begins(entry) => Act::Begin(program.entry(entry)?, false, List::new(alloc)),
        Does::Goes(_) => Act::Go(Choice::None),
        Does::Takes(value) => Act::Go(Choice::Value(Value::of(alloc, value).ok()?)),
        Does::IsAborted => Act::Abort,
    })
}

fn times(does: Does) -> u32 {
    match does {
        Does::Goes(steps) => steps,
        _ => 1,
    }
}

fn events_of(alloc: Global, program: &Program<'_>, script: Script) -> Option<Vec<Event>> {
    let mut events = Vec::new(alloc);
    for (job, does) in script {
        for _ in 0..times(*does) {
            let act = act_of(alloc, program, *does)?;
            events.push(Event { job: *job, act }).ok()?;
        }
    }
    Some(events)
}

fn state_of(system: &System<'_>, job: u32, other: u32) -> JobState {
    if system.job(job).is_none() {
        JobState::Nowhere
    } else if system.ready_touch(job).is_some() {
        JobState::Ready
    } else if system.waits_for(job, other) {
        JobState::Waiting
    } else {
        JobState::Elsewhere
    }
}

fn names_held(system: &System<'_>, job: u32) -> Option<usize> {
    Some(system.held_names(job)?.len())
}

fn is_so(system: &System<'_>, account: &LockName, job: u32, other: u32, asked: Asked) -> bool {
    let Asked(wanted, count, names) = asked;
    let is_there = match (state_of(system, job, other), wanted) {
        (JobState::Ready, JobState::Ready)
        | (JobState::Waiting, JobState::Waiting)
        | (JobState::Elsewhere, JobState::Elsewhere) => names_held(system, job) == Some(names),
        (JobState::Nowhere, JobState::Nowhere) => names_held(system, job) == None,
        _ => false,
    };
    is_there && system.hold_count(job, account) == count
}

fn are_so(system: &mut System<'_>, account: &LockName, wanted: Wanted) -> Option<bool> {
    let Wanted::After(first, second, has_ring, steps) = wanted else {
        return Some(false);
    };
    Some(
        is_so(system, account, 1, 2, first)
            && is_so(system, account, 2, 1, second)
            && system.has_ring().ok()? == has_ring
            && system.settle(1).ok()? == steps,
    )
}

fn is_refused_so(refused: Refused, wanted: Wanted) -> bool {
    match wanted {
        Wanted::Refused(index, why) => refused == Refused { index, why },
        Wanted::After(_, _, _, _) => false,
    }
}

/// Whether events come to what is wanted.
pub(crate) fn is_replayed(
    alloc: Global,
    program: &Program<'_>,
    script: Script,
    wanted: Wanted,
) -> Option<bool> {
    let account = account(alloc).ok()?;
    let entries = declared(program)?;
    let events = events_of(alloc, program, script)?;
    match replay(alloc, program, &entries, events.as_slice()) {
        Ok(mut system) => are_so(&mut system, &account, wanted),
        Err(Failure::Refused(refused)) => Some(is_refused_so(refused, wanted)),
        Err(Failure::OutOfMemory) => None,
    }
}

const NO_JOB: Asked = Asked(JobState::Nowhere, 0, 0);

const HAPPEN: &[(Script, Wanted)] = &[
    // Two jobs stand ready to write one node.
    (
        &[
            (1, Does::Begins(b"WRITE^R")),
            (2, Does::Begins(b"WRITE^R")),
            (1, Does::Goes(6)),
            (2, Does::Goes(6)),
        ],
        Wanted::After(
            Asked(JobState::Ready, 0, 0),
            Asked(JobState::Ready, 0, 0),
            false,
            0,
        ),
    ),
    // Two jobs claim two names in opposite order.
    (
        &[
            (1, Does::Begins(b"FIRST^R")),
            (2, Does::Begins(b"SECOND^R")),
            (1, Does::Goes(8)),
            (2, Does::Goes(8)),
        ],
        Wanted::After(
            Asked(JobState::Waiting, 1, 1),
            Asked(JobState::Waiting, 0, 1),
            true,
            0,
        ),
    ),
    // A job is aborted that holds what another claims.
    (
        &[
            (1, Does::Begins(b"HOLD^R")),
            (2, Does::Begins(b"HOLD^R")),
            (1, Does::Goes(5)),
            (2, Does::Goes(4)),
            (1, Does::IsAborted),
            (2, Does::Goes(1)),
        ],
        Wanted::After(
            Asked(JobState::Elsewhere, 0, 0),
            Asked(JobState::Elsewhere, 1, 1),
            false,
            0,
        ),
    ),
    // A job ends that holds a name.
    (
        &[(1, Does::Begins(b"KEEP^R")), (1, Does::Goes(9))],
        Wanted::After(Asked(JobState::Elsewhere, 1, 1), NO_JOB, false, 0),
    ),
    // A job never ends by itself.
    (
        &[(1, Does::Begins(b"LOOP^R"))],
        Wanted::After(
            Asked(JobState::Elsewhere, 0, 0),
            NO_JOB,
            false,
            MOST_SILENT_STEPS,
        ),
    ),
];

#[test]
fn events_happen_in_turn(rt: HostRuntime) {
    for (place, (script, wanted)) in HAPPEN.iter().enumerate() {
        assert!(rt;
            passes(rt.alloc(), Trial::Replay(*script, *wanted)),
            "row {place}"
        );
    }
}

const CANNOT_HAPPEN: &[(Script, Wanted)] = &[
    // Another job holds what is claimed.
    (
        &[
            (1, Does::Begins(b"HOLD^R")),
            (2, Does::Begins(b"HOLD^R")),
            (1, Does::Goes(5)),
            (2, Does::Goes(6)),
        ],
        Wanted::Refused(11, Refusal::NotEnabled),
    ),
    // A step that leaves nothing open takes no value.
    (
        &[
            (1, Does::Begins(b"WRITE^R")),
            (1, Does::Goes(1)),
            (1, Does::Takes(b"5")),
            (1, Does::Goes(1)),
        ],
        Wanted::Refused(2, Refusal::BadChoice),
    ),
    // A job that never began makes no step.
    (
        &[(1, Does::Begins(b"WRITE^R")), (3, Does::Goes(1))],
        Wanted::Refused(1, Refusal::UnknownJob),
    ),
    // A job that has ended makes no step.
    (
        &[(1, Does::Begins(b"KEEP^R")), (1, Does::Goes(10))],
        Wanted::Refused(10, Refusal::NotEnabled),
    ),
];

#[test]
fn the_first_event_that_cannot_happen_is_reported(rt: HostRuntime) {
    for (place, (script, wanted)) in CANNOT_HAPPEN.iter().enumerate() {
        assert!(rt;
            passes(rt.alloc(), Trial::Replay(*script, *wanted)),
            "row {place}"
        );
    }
}
