// Lines of one entry that are walked in parts, side by side.

use crate::given::{Trial, passes};
use crate::meeting::Meeting;
use mlk_calls::Entries;
use mlk_cert::Certificate;
use mlk_program::Program;
use mlk_rules::Rules;
use mlk_walk::{Checks, DEEPEST_CUT, Unseen, verdict_of, verdict_split};
use std::alloc::{AllocError, Global};
use std::sync::Wait;
use std::thread::Threads;

/// A routine of four lines.
pub(crate) const FOUR_LINES: &[u8] = b"E1 SET A=1\n SET A=2\n SET A=3\n QUIT\n";

// How many times three lines a long routine has, besides its first.
const TRIPLES: usize = 1365;

/// A routine of 4,096 lines, every third of which is in a block and has a fault.
pub(crate) fn long_routine(alloc: Global) -> Result<Vec<u8>, AllocError> {
    let mut text = Vec::from_slice(alloc, b"E1 SET A=1\n")?;
    for _ in 0..TRIPLES {
        text.extend_from_slice(b" IF A SET B=A\n DO:A  SET A=B\n . SET ^ACCT(A)=1\n")?;
    }
    Ok(text)
}

/// Whether the halves of four lines see each other begin.
pub(crate) fn meet_in_halves<R: Threads + Wait + Sync>(
    rt: &R,
    alloc: Global,
    program: &Program<'_>,
    rules: &Rules,
    certificate: &Certificate,
) -> Option<bool> {
    let meeting = Meeting::new(1, 3);
    let entry = program.entry(b"E1^R")?;
    let entries = Entries::of(alloc, program, rules, certificate.blocks()).ok()?;
    let checks = Checks {
        program,
        rules,
        entries: &entries,
    };
    let verdict = verdict_split(rt, alloc, &checks, entry, 1, &meeting);
    Some(verdict.is_ok() && meeting.have_met())
}

#[test]
fn both_halves_are_walked_at_once(rt: HostRuntime) {
    assert!(&rt; passes(&rt, rt.alloc(), Trial::Halves));
}

/// Whether the verdicts at all depths are that of the lines in one piece, which has a fault in each block.
pub(crate) fn are_same_at_each_depth<R: Threads + Wait + Sync>(
    rt: &R,
    alloc: Global,
    program: &Program<'_>,
    rules: &Rules,
    certificate: &Certificate,
) -> Option<bool> {
    let entry = program.entry(b"E1^R")?;
    let entries = Entries::of(alloc, program, rules, certificate.blocks()).ok()?;
    let checks = Checks {
        program,
        rules,
        entries: &entries,
    };
    let whole = verdict_of(alloc, &checks, entry).ok()?;
    for depth in 0..=DEEPEST_CUT {
        let split = verdict_split(rt, alloc, &checks, entry, depth, &Unseen).ok()?;
        if !split.iter().eq(whole.iter()) {
            return Some(false);
        }
    }
    Some(whole.iter().count() == TRIPLES)
}

#[test]
fn a_verdict_is_the_same_at_each_depth(rt: HostRuntime) {
    assert!(&rt; passes(&rt, rt.alloc(), Trial::EachDepth));
}
