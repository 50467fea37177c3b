// Patterns of globals, and the rules that cover them.

use crate::place::LockPattern;
use crate::score::Score;
use mlk_suggest::Evidence;
use mlk_suggest_steps::{Symbol, Word};
use mlk_text::push_sparing;
use std::alloc::{AllocError, Global};

/// An element of a pattern.
#[derive(Clone, Copy, Drop, PartialEq, Eq)]
pub enum Element {
    /// a constant
    Constant(Word),
    /// any value; the word is a local that some reference has there, if there is one
    Variable(Option<Word>),
    /// the number of the job
    Job,
}

/// A pattern of nodes of a global.
#[derive(Drop)]
pub struct Pattern {
    pub global: Word,
    pub elements: Vec<Element>,
    /// whether the nodes below belong to it too
    pub is_open: bool,
}

/// A rule by which a lock covers a pattern.
#[derive(Drop)]
pub struct CoverGuess {
    pub pattern: Pattern,
    pub lock: LockPattern,
    /// a second lock
    pub also: Option<LockPattern>,
    /// the number of places at which the first lock is held
    pub score: Score,
    /// whether no lock is held at most reads
    pub reads_are_free: bool,
}

// The local that the first of the references with a local at a given subscript has there.
fn local_at(evidence: &Evidence<'_>, touches: &[usize], place: usize) -> Option<Word> {
    for touch in touches {
        if let Some(touch) = evidence.touches.get(*touch) {
            if let Some(Symbol::Local(word)) = touch.reference.subscripts.get(place) {
                return Some(*word);
            }
        }
    }
    None
}

// Whether no reference has subscripts.
fn is_scalar(evidence: &Evidence<'_>, touches: &[usize]) -> bool {
    for touch in touches {
        if let Some(touch) = evidence.touches.get(*touch) {
            if !touch.reference.subscripts.is_empty() {
                return false;
            }
        }
    }
    true
}

/// The pattern of `global` that begins with the elements `fixed` and has variables after them, `count` elements or as many as are
/// fixed. It is open, unless the `touches` of `evidence`, by their indexes, are of the global without subscripts.
pub(crate) fn pattern_of(
    alloc: Global,
    evidence: &Evidence<'_>,
    global: Word,
    touches: &[usize],
    fixed: &[Element],
    count: usize,
) -> Result<Pattern, AllocError> {
    let mut elements = Vec::from_slice(alloc, fixed)?;
    for place in fixed.len()..count.max(fixed.len()) {
        push_sparing(
            &mut elements,
            Element::Variable(local_at(evidence, touches, place)),
        )?;
    }
    Ok(Pattern {
        global,
        elements,
        is_open: !is_scalar(evidence, touches),
    })
}
