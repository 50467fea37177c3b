// Phrases: what is said of a fault, as a list of parts.

use crate::names::{expression_at, push_lock, push_name, push_sets, push_written, root_of};
use crate::place::{FaultPlace, LockSet};
use mlk_cert_parts::Test;
use mlk_program::{EntryId, Program};
use mlk_report_text::Piece::{Number, Words};
use mlk_report_text::push_all;
use mlk_walk_exprs::Mend;
use std::alloc::{AllocError, Global};

/// A part of a phrase: words, or something that is known of the fault's place.
#[derive(Drop)]
pub enum Part {
    Words(&'static str),
    /// the name at the column
    Name,
    /// the root of the name at the column
    Root,
    /// ` of rank N`, of what is acquired at the column, if it is known
    OfRank,
    /// the rank in what mends the fault
    MendRank,
    /// the locals in what mends the fault
    MendLocals,
    /// the line of a certificate in what mends the fault
    MendLine,
    /// the names of these locks
    Locks(LockSet),
    /// `, and $TEST is N`, if it is known
    Test,
    /// the entry that is called at the column
    Callee,
    /// the entry that is walked
    Entry,
    /// the subscript at the column
    Subscript,
    /// `line N`, of the reason why a lock is missing
    ReasonLine,
}

/// What is said of a fault.
pub type Phrase = &'static [Part];

fn test_words(place: &FaultPlace<'_>) -> &'static str {
    match place.situation() {
        Some((Test::Zero, _)) => ", and $TEST is 0",
        Some((Test::One, _)) => ", and $TEST is 1",
        _ => "",
    }
}

fn push_rank(text: &mut Vec<u8>, before: &str, rank: Option<u32>) -> Result<(), AllocError> {
    match rank {
        Some(rank) => push_all(text, &[Words(before), Number(rank as usize)]),
        None => Ok(()),
    }
}

fn mend_rank(mend: &Mend) -> Option<u32> {
    match mend {
        Mend::Rank(rank) => Some(*rank),
        Mend::Callee(low, _) => *low,
        _ => None,
    }
}

fn push_locals(text: &mut Vec<u8>, mend: &Mend) -> Result<(), AllocError> {
    match mend {
        Mend::Changes(names) => push_sets(text, names.as_slice()),
        _ => Ok(()),
    }
}

// Appends the line of a certificate that lists the case.
fn push_mend_line(text: &mut Vec<u8>, mend: &Mend) -> Result<(), AllocError> {
    match mend {
        Mend::Listed(line, round, case) => {
            let line = Number(line.number() as usize);
            let round = Number(*round);
            push_all(text, &[Words("at "), line, Words("."), round, Words(" ")])?;
            push_written(text, case)
        }
        Mend::Exit(exit) => push_written(text, exit),
        _ => text.extend_from_slice(b"the case"),
    }
}

// Appends the names of these locks, with commas between them.
fn push_locks(text: &mut Vec<u8>, place: &FaultPlace<'_>, set: LockSet) -> Result<(), AllocError> {
    let mut before: &[u8] = b"";
    for (index, term) in place.locks(set).iter().enumerate() {
        if place.is_in(set, index, term) {
            text.extend_from_slice(before)?;
            push_lock(text, term)?;
            before = b", ";
        }
    }
    Ok(())
}

/// Appends the text of an entry; nothing if there is none.
pub fn push_entry(
    text: &mut Vec<u8>,
    program: &Program<'_>,
    entry: Option<EntryId>,
) -> Result<(), AllocError> {
    let Some(entry) = entry else {
        return Ok(());
    };
    match program.text_of(*text.allocator(), entry)? {
        Some(name) => text.extend_from_slice(name.as_slice()),
        None => Ok(()),
    }
}

fn push_reason_line(text: &mut Vec<u8>, place: &FaultPlace<'_>) -> Result<(), AllocError> {
    match place.reason.line() {
        Some(line) => push_all(text, &[Words("line "), Number(line.number() as usize)]),
        None => Ok(()),
    }
}

fn push_part(text: &mut Vec<u8>, place: &FaultPlace<'_>, part: &Part) -> Result<(), AllocError> {
    let mend = &place.note.mend;
    let program = place.grounds.program;
    match part {
        Part::Words(words) => text.extend_from_slice(words.as_bytes()),
        Part::Name => push_name(text, place.name),
        Part::Root => push_name(text, root_of(place.name)),
        Part::OfRank => push_rank(text, " of rank ", place.limit()),
        Part::MendRank => push_rank(text, "", mend_rank(mend)),
        Part::MendLocals => push_locals(text, mend),
        Part::MendLine => push_mend_line(text, mend),
        Part::Locks(set) => push_locks(text, place, *set),
        Part::Test => text.extend_from_slice(test_words(place).as_bytes()),
        Part::Callee => push_entry(text, program, place.target()),
        Part::Entry => push_entry(text, program, Some(place.entry)),
        Part::Subscript => push_name(text, expression_at(place.line, place.fault.column)),
        Part::ReasonLine => push_reason_line(text, place),
    }
}

// Appends a phrase.
fn push_phrase(
    text: &mut Vec<u8>,
    place: &FaultPlace<'_>,
    phrase: Phrase,
) -> Result<(), AllocError> {
    for part in phrase {
        push_part(text, place, part)?;
    }
    Ok(())
}

/// The text of a phrase.
pub fn phrase_text(
    alloc: Global,
    place: &FaultPlace<'_>,
    phrase: Phrase,
) -> Result<Vec<u8>, AllocError> {
    let mut text = Vec::new(alloc);
    push_phrase(&mut text, place, phrase)?;
    Ok(text)
}
