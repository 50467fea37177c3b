// The parts of a global, by the constants at one of its subscripts.

use crate::candidate::candidates_of;
use crate::score::{WHOLE, count_writes};
use indexmap::IndexMap;
use mlk_suggest::Evidence;
use mlk_suggest_ranks::is_plain;
use mlk_suggest_steps::{Program, Symbol, Word};
use mlk_text::push_sparing;
use std::alloc::{AllocError, Global};

/// The maximum number of parts of a global.
const MOST_PARTS: usize = 64;

/// The touches of a global that have the same constant at one subscript, by their indexes in the evidence.
#[derive(Drop)]
pub(crate) struct GlobalPart {
    pub(crate) constant: Word,
    pub(crate) touches: Vec<usize>,
}

/// The parts of a global by the constants at one of its subscripts, and the touches that are in no part.
#[derive(Drop)]
pub(crate) struct Split {
    /// the index of the subscript
    pub(crate) place: usize,
    pub(crate) parts: Vec<GlobalPart>,
    pub(crate) others: Vec<usize>,
}

// Returns the number of the part with a constant, and adds it if it is missing.
fn part_of(
    alloc: Global,
    parts: &mut Vec<GlobalPart>,
    numbers: &mut IndexMap<Word, usize>,
    constant: Word,
) -> Result<usize, AllocError> {
    if let Some(number) = numbers.get(&constant) {
        return Ok(*number);
    }
    let number = parts.len();
    let Ok(_) = numbers.insert(constant, number) else {
        return Err(AllocError);
    };
    let part = GlobalPart {
        constant,
        touches: Vec::new(alloc),
    };
    push_sparing(parts, part)?;
    Ok(number)
}

// The constant that a touch has at a subscript, if it can be part of a rule.
fn constant_at(
    program: &Program<'_>,
    evidence: &Evidence<'_>,
    touch: usize,
    place: usize,
) -> Option<Word> {
    let touch = evidence.touches.get(touch)?;
    match touch.reference.subscripts.get(place) {
        Some(Symbol::Constant(word)) if is_plain(program.words.text(*word)) => Some(*word),
        _ => None,
    }
}

// All parts of a global by a subscript.
fn parts_of(
    alloc: Global,
    program: &Program<'_>,
    evidence: &Evidence<'_>,
    touches: &[usize],
    place: usize,
) -> Result<Split, AllocError> {
    let mut split = Split {
        place,
        parts: Vec::new(alloc),
        others: Vec::new(alloc),
    };
    let mut numbers = IndexMap::new(alloc);
    for touch in touches {
        let Some(word) = constant_at(program, evidence, *touch, place) else {
            push_sparing(&mut split.others, *touch)?;
            continue;
        };
        let part = part_of(alloc, &mut split.parts, &mut numbers, word)?;
        if let Some(part) = split.parts.get_mut(part) {
            push_sparing(&mut part.touches, *touch)?;
        }
    }
    Ok(split)
}

/// The parts of a global by the constants at the subscript `place`, from 0; `None` if there are fewer than two or too many, or if
/// more than a tenth of the touches have no constant there.
pub(crate) fn split_at(
    alloc: Global,
    program: &Program<'_>,
    evidence: &Evidence<'_>,
    touches: &[usize],
    place: usize,
) -> Result<Option<Split>, AllocError> {
    let split = parts_of(alloc, program, evidence, touches, place)?;
    let is_split = split.parts.len() > 1
        && split.parts.len() <= MOST_PARTS
        && split.others.len().saturating_mul(10) <= touches.len();
    if is_split { Ok(Some(split)) } else { Ok(None) }
}

/// How many of `touches` are explained, in thousandths: by the best lock that is held at them, or because none of them is a
/// write.
pub(crate) fn count_explained(
    alloc: Global,
    program: &Program<'_>,
    evidence: &Evidence<'_>,
    global: Word,
    touches: &[usize],
) -> Result<usize, AllocError> {
    if count_writes(evidence, touches) == 0 {
        return Ok(touches.len().saturating_mul(WHOLE));
    }
    let candidates = candidates_of(alloc, program, evidence, global, touches)?;
    match candidates.first() {
        Some(best) if best.score.has_writes(50) => {
            Ok(best.score.write_share.saturating_add(best.score.read_share))
        }
        _ => Ok(0),
    }
}

impl Split {
    /// How many touches are explained in their parts, in thousandths.
    pub(crate) fn count_explained(
        &self,
        alloc: Global,
        program: &Program<'_>,
        evidence: &Evidence<'_>,
        global: Word,
    ) -> Result<usize, AllocError> {
        let mut sum: usize = 0;
        for part in &self.parts {
            let own = part.touches.as_slice();
            let count = count_explained(alloc, program, evidence, global, own)?;
            sum = sum.saturating_add(count);
        }
        Ok(sum)
    }
}
