// Calls of routines and labels that are not given.

use crate::given::{CalledLabel, Given, Lack};
use mlk_survey_trees::{Mention, MentionAt, Position};
use mlk_text::push_sparing;
use std::alloc::{AllocError, Global};

/// Calls of one callee that is not given: the callee, what is missing, the number of calls, and the first of them.
#[derive(Clone, Copy, Drop)]
pub struct MissingCall<'a> {
    pub called: CalledLabel<'a>,
    pub lack: Lack,
    pub calls: usize,
    pub first: Position<'a>,
}

// The call at `at`, if it is one of a callee that is not given.
fn missing_call<'a>(given: &Given<'a>, at: &MentionAt<'a>) -> Option<MissingCall<'a>> {
    let Mention::Call(column, callee) = at.mention else {
        return None;
    };
    let called = CalledLabel::of(at.routine, callee);
    match given.lack(&called) {
        None => None,
        Some(lack) => Some(MissingCall {
            called,
            lack,
            calls: 1,
            first: at.position_at(column),
        }),
    }
}

// The calls of callees that are not given, one by one, in the order of the callees, the last first.
fn single_calls<'a>(
    alloc: Global,
    given: &Given<'a>,
    mentions: &[MentionAt<'a>],
) -> Result<Vec<MissingCall<'a>>, AllocError> {
    let mut calls = Vec::new(alloc);
    for at in mentions {
        if let Some(call) = missing_call(given, at) {
            push_sparing(&mut calls, call)?;
        }
    }
    calls.sort_by(|call, other| call.called.cmp(&other.called))?;
    calls.reverse();
    Ok(calls)
}

// The number of calls of the same callee that are counted already, if it is the last of `joined`.
fn counted_before(joined: &[MissingCall<'_>], call: &MissingCall<'_>) -> usize {
    match joined.last() {
        Some(last) if last.called == call.called => last.calls,
        _ => 0,
    }
}

// Joins the calls of each callee into one, and keeps the last of them here.
fn join_calls<'a>(
    alloc: Global,
    calls: Vec<MissingCall<'a>>,
) -> Result<Vec<MissingCall<'a>>, AllocError> {
    let mut joined = Vec::new(alloc);
    for call in calls {
        let before = counted_before(joined.as_slice(), &call);
        if before > 0 {
            let _ = joined.pop();
        }
        let mut all = call;
        all.calls = before.saturating_add(1);
        push_sparing(&mut joined, all)?;
    }
    joined.reverse();
    Ok(joined)
}

/// The calls among `mentions` of callees that are not given, in the order of the callees.
pub(crate) fn missing_in<'a>(
    alloc: Global,
    given: &Given<'a>,
    mentions: &[MentionAt<'a>],
) -> Result<Vec<MissingCall<'a>>, AllocError> {
    join_calls(alloc, single_calls(alloc, given, mentions)?)
}
