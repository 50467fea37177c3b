// What is known of a fault, in pieces.

use crate::trail::{place_text, trail_text, trail_to_need};
use mlk_explain_origins::{Origin, Trail};
use mlk_explain_places::Part::{Locks, Test, Words};
use mlk_explain_places::{FaultPlace, LockSet, Phrase, phrase_text, push_entry};
use mlk_explain_rules::{RuleFile, has_rules, rule_texts};
use mlk_explain_words::{act_of, help_of, need_at_call_help, origin_act_of};
use mlk_program::{EntryId, Program};
use mlk_text::Code;
use mlk_walk_exprs::Fault;
use std::alloc::{AllocError, Global};

/// A place on the way to a fault.
#[derive(Drop)]
pub struct WayPoint {
    pub entry: EntryId,
    /// where it is in the entry's routine
    pub fault: Fault,
    /// what happens there
    pub act: Vec<u8>,
}

/// The place behind a fault.
#[derive(Drop)]
pub struct OriginStory {
    pub point: WayPoint,
    /// where it is, and the calls on the way to it, the innermost first
    pub site: Vec<u8>,
    /// the calls, the one nearest to the fault first
    pub calls: Vec<WayPoint>,
}

/// What is known of a fault: what was about to happen, what was held, and what mends it.
#[derive(Drop)]
pub struct Story {
    pub act: Vec<u8>,
    /// `ENTRY line:column`
    pub site: Vec<u8>,
    /// the locks that were held, and `$TEST` if it was known; `None` if the fault is of no case
    pub held: Option<Vec<u8>>,
    /// where a lock is needed that callers hold, and that is in the way
    pub needed_by: Option<Vec<u8>>,
    pub origin: Option<OriginStory>,
    /// the rules that apply
    pub rules: Vec<Vec<u8>>,
    /// what mends the fault
    pub help: Vec<Vec<u8>>,
    /// whether the place behind the fault is where it is mended
    pub is_mended_behind: bool,
}

// What was held: what the entry acquired, and what its callers hold.
fn held_phrase(place: &FaultPlace<'_>) -> Phrase {
    match (
        place.has_locks(LockSet::Acquired),
        place.has_locks(LockSet::Required),
    ) {
        (true, true) => &[
            Locks(LockSet::Acquired),
            Words(", and by callers "),
            Locks(LockSet::Required),
            Test,
        ],
        (true, false) => &[Locks(LockSet::Acquired), Test],
        (false, true) => &[Locks(LockSet::Required), Words(" by callers"), Test],
        (false, false) => &[Words("nothing"), Test],
    }
}

fn held_text(alloc: Global, place: &FaultPlace<'_>) -> Result<Option<Vec<u8>>, AllocError> {
    if place.situation().is_none() {
        return Ok(None);
    }
    Ok(Some(phrase_text(alloc, place, held_phrase(place))?))
}

fn needed_text(alloc: Global, place: &FaultPlace<'_>) -> Result<Option<Vec<u8>>, AllocError> {
    match trail_to_need(alloc, place)? {
        Some(trail) => Ok(Some(trail_text(alloc, place.grounds.program, &trail)?)),
        None => Ok(None),
    }
}

// Whether the fault is mended at the place behind it, and not at the call.
fn is_mended_at(origin: &FaultPlace<'_>, place: &FaultPlace<'_>) -> bool {
    matches!(origin.fault.code, Code::Uncovered | Code::NotHeld)
        && !place.has_locks(LockSet::Alike)
        && !place.has_locks(LockSet::Above)
}

/// The story of the fault at `place`, as far as its own line shows it.
pub(crate) fn story_of(
    alloc: Global,
    place: &FaultPlace<'_>,
    rule_file: &RuleFile,
) -> Result<Story, AllocError> {
    let help = help_of(place, has_rules(alloc, place)?);
    Ok(Story {
        act: phrase_text(alloc, place, act_of(place))?,
        site: place_text(alloc, place)?,
        held: held_text(alloc, place)?,
        needed_by: needed_text(alloc, place)?,
        origin: None,
        rules: rule_texts(alloc, place, rule_file)?,
        help: vec![in alloc; phrase_text(alloc, place, help)?]?,
        is_mended_behind: false,
    })
}

// A call on the way to an entry.
fn call_point(
    alloc: Global,
    program: &Program<'_>,
    call: &Origin,
    callee: EntryId,
) -> Result<WayPoint, AllocError> {
    let mut act = Vec::from_slice(alloc, b"calls ")?;
    push_entry(&mut act, program, Some(callee))?;
    Ok(WayPoint {
        entry: call.entry,
        fault: call.fault,
        act,
    })
}

// The calls of a trail: each calls the entry of the next.
fn calls_of(
    alloc: Global,
    program: &Program<'_>,
    trail: &Trail,
) -> Result<Vec<WayPoint>, AllocError> {
    let mut calls = Vec::with_capacity(alloc, trail.calls.len())?;
    for (place, call) in trail.calls.iter().enumerate() {
        let callee = match trail.calls.get(place.saturating_add(1)) {
            Some(next) => next.entry,
            None => trail.origin.entry,
        };
        calls.push(call_point(alloc, program, call, callee)?)?;
    }
    Ok(calls)
}

fn origin_story(
    alloc: Global,
    origin: &FaultPlace<'_>,
    trail: &Trail,
) -> Result<OriginStory, AllocError> {
    let point = WayPoint {
        entry: origin.entry,
        fault: origin.fault,
        act: phrase_text(alloc, origin, origin_act_of(origin))?,
    };
    Ok(OriginStory {
        point,
        site: trail_text(alloc, origin.grounds.program, trail)?,
        calls: calls_of(alloc, origin.grounds.program, trail)?,
    })
}

// What mends the fault at the place behind it.
fn help_behind(
    alloc: Global,
    place: &FaultPlace<'_>,
    origin: &FaultPlace<'_>,
) -> Result<Vec<Vec<u8>>, AllocError> {
    let mut help = vec![in alloc;
        phrase_text(alloc, origin, help_of(origin, has_rules(alloc, origin)?))?,
    ]?;
    if place.fault.code == Code::NeedMissing {
        help.push(phrase_text(alloc, place, need_at_call_help(place))?)?;
    }
    Ok(help)
}

/// The story of the fault at `place`, behind which `trail` leads to `origin`.
pub(crate) fn story_behind(
    alloc: Global,
    place: &FaultPlace<'_>,
    origin: &FaultPlace<'_>,
    trail: &Trail,
    rule_file: &RuleFile,
) -> Result<Story, AllocError> {
    let mut story = story_of(alloc, place, rule_file)?;
    story.origin = Some(origin_story(alloc, origin, trail)?);
    if story.rules.is_empty() {
        story.rules = rule_texts(alloc, origin, rule_file)?;
    }
    if is_mended_at(origin, place) {
        story.help = help_behind(alloc, place, origin)?;
        story.is_mended_behind = true;
    }
    Ok(story)
}
