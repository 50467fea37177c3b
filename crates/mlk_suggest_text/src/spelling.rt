// Names and patterns as rule files spell them.

use crate::view::View;
use mlk_report_text::Piece::{Bytes, Made, Number, Words};
use mlk_report_text::{escape_bytes, push_all, text_of};
use mlk_suggest::Lock;
use mlk_suggest_rules::{Element, FamilyName, LockPattern, Part, Pattern};
use mlk_suggest_steps::{LockName, LockRoot, Origin, Symbol, Unit, UnitId, Word};
use mlk_text::push_sparing;
use std::alloc::{AllocError, Global};

/// More levels of blocks than a routine can have.
const MOST_LEVELS: usize = 64;

// A value as a literal of M: in quotes, with each quote doubled.
fn quote(alloc: Global, value: &[u8]) -> Result<Vec<u8>, AllocError> {
    let mut text = text_of(alloc, &[Words("\"")])?;
    for byte in value {
        if *byte == b'"' {
            text.push(b'"')?;
        }
        text.push(*byte)?;
    }
    text.push(b'"')?;
    Ok(text)
}

/// The text `value`, which has only printable characters, as a TOML string.
pub(crate) fn toml_string(alloc: Global, value: &[u8]) -> Result<Vec<u8>, AllocError> {
    let mut text = text_of(alloc, &[Words("\"")])?;
    for byte in value {
        if matches!(*byte, b'"' | b'\\') {
            text.push(b'\\')?;
        }
        text.push(*byte)?;
    }
    text.push(b'"')?;
    Ok(text)
}

// Texts in parentheses, separated by commas; empty if there are none.
fn in_parentheses(alloc: Global, texts: &[Vec<u8>]) -> Result<Vec<u8>, AllocError> {
    let mut text = Vec::new(alloc);
    if texts.is_empty() {
        return Ok(text);
    }
    for (place, part) in texts.iter().enumerate() {
        let before = if place == 0 { "(" } else { "," };
        push_all(&mut text, &[Words(before), Bytes(part.as_slice())])?;
    }
    push_all(&mut text, &[Words(")")])?;
    Ok(text)
}

// A local's name in small letters; `None` if it has a character other than letters and digits, or if it is one of the elements
// before.
fn variable_of(
    alloc: Global,
    name: &[u8],
    before: &[Vec<u8>],
) -> Result<Option<Vec<u8>>, AllocError> {
    if !name.iter().all(|byte| byte.is_ascii_alphanumeric()) {
        return Ok(None);
    }
    let mut text = Vec::with_capacity(alloc, name.len())?;
    for byte in name {
        text.push(byte.to_ascii_lowercase())?;
    }
    if before.iter().any(|other| *other == text) {
        return Ok(None);
    }
    Ok(Some(text))
}

impl<'v> View<'v> {
    /// The text of `word`.
    pub(crate) fn word(&self, word: Word) -> &'v [u8] {
        self.program.words.text(word)
    }

    // A word as a literal of M.
    fn literal(&self, word: Word) -> Result<Vec<u8>, AllocError> {
        quote(self.alloc, self.word(word))
    }

    // The root of a lock name.
    fn root(&self, root: LockRoot) -> Result<Vec<u8>, AllocError> {
        match root {
            LockRoot::Global(word) => { text_of(self.alloc, &[Words("^"), Bytes(self.word(word))]) }
            LockRoot::Local(word) => text_of(self.alloc, &[Bytes(self.word(word))]),
        }
    }

    // A subscript of a lock name; `?` if it is unknown.
    fn symbol(&self, symbol: Symbol) -> Result<Vec<u8>, AllocError> {
        match symbol {
            Symbol::Constant(word) => self.literal(word),
            Symbol::Local(word) => text_of(self.alloc, &[Bytes(self.word(word))]),
            Symbol::Job => text_of(self.alloc, &[Words("$J")]),
            Symbol::Unknown => text_of(self.alloc, &[Words("?")]),
        }
    }

    // The text of a lock name: its root, and in parentheses its subscripts.
    fn lock_name(&self, name: &LockName) -> Result<Vec<u8>, AllocError> {
        let mut subscripts = Vec::new(self.alloc);
        for symbol in &name.subscripts {
            let text = self.symbol(*symbol)?;
            push_sparing(&mut subscripts, text)?;
        }
        let root = Made(self.root(name.root)?);
        let list = Made(in_parentheses(self.alloc, subscripts.as_slice())?);
        text_of(self.alloc, &[root, list])
    }

    /// The name of `lock` in the routine that holds it.
    pub(crate) fn lock(&self, lock: Lock) -> Result<Vec<u8>, AllocError> {
        match self.tables.name(lock) {
            Some(name) => self.lock_name(name),
            None => Ok(Vec::new(self.alloc)),
        }
    }

    /// The names of `locks`, separated by commas; `nothing` if there are none.
    pub(crate) fn locks_text(&self, locks: &[Lock]) -> Result<Vec<u8>, AllocError> {
        let mut text = Vec::new(self.alloc);
        for lock in locks {
            let before = if text.is_empty() { "" } else { ", " };
            let name = Made(self.lock(*lock)?);
            push_all(&mut text, &[Words(before), name])?;
        }
        if text.is_empty() {
            push_all(&mut text, &[Words("nothing")])?;
        }
        Ok(text)
    }

    /// The family `name`.
    pub(crate) fn family(&self, name: FamilyName) -> Result<Vec<u8>, AllocError> {
        let mut subscripts = Vec::new(self.alloc);
        if let Some(word) = name.constant {
            let text = self.literal(word)?;
            push_sparing(&mut subscripts, text)?;
        }
        let root = Made(self.root(name.root)?);
        let list = Made(in_parentheses(self.alloc, subscripts.as_slice())?);
        text_of(self.alloc, &[root, list])
    }

    // The element of a pattern at an index, given the texts of those before it.
    fn element(
        &self,
        place: usize,
        element: Element,
        before: &[Vec<u8>],
    ) -> Result<Vec<u8>, AllocError> {
        match element {
            Element::Constant(word) => return self.literal(word),
            Element::Job => return text_of(self.alloc, &[Words("$J")]),
            Element::Variable(Some(word)) => {
                if let Some(text) = variable_of(self.alloc, self.word(word), before)? {
                    return Ok(text);
                }
            }
            Element::Variable(None) => {}
        }
        self.numbered_variable(place, before)
    }

    // A variable named for its place: `x` and the number of the place, unless that is one of the elements before.
    fn numbered_variable(&self, place: usize, before: &[Vec<u8>]) -> Result<Vec<u8>, AllocError> {
        let number = place.saturating_add(1);
        let text = text_of(self.alloc, &[Words("x"), Number(number)])?;
        if before.iter().any(|other| *other == text) {
            return text_of(self.alloc, &[Words("any"), Number(number), Words("x")]);
        }
        Ok(text)
    }

    /// The texts of the elements of `pattern`.
    pub(crate) fn elements(&self, pattern: &Pattern) -> Result<Vec<Vec<u8>>, AllocError> {
        let mut texts = Vec::new(self.alloc);
        for (place, element) in pattern.elements.iter().enumerate() {
            let text = self.element(place, *element, texts.as_slice())?;
            push_sparing(&mut texts, text)?;
        }
        Ok(texts)
    }

    /// The text of `pattern`.
    pub(crate) fn pattern(&self, pattern: &Pattern) -> Result<Vec<u8>, AllocError> {
        let mut texts = self.elements(pattern)?;
        if pattern.is_open {
            let rest = text_of(self.alloc, &[Words("...")])?;
            push_sparing(&mut texts, rest)?;
        }
        let global = Bytes(self.word(pattern.global));
        let list = Made(in_parentheses(self.alloc, texts.as_slice())?);
        text_of(self.alloc, &[Words("^"), global, list])
    }

    // A subscript of a rule's lock, given the texts of the elements of its pattern.
    fn part(&self, part: Part, elements: &[Vec<u8>]) -> Result<Vec<u8>, AllocError> {
        match part {
            Part::Constant(word) => self.literal(word),
            Part::Place(place) => match elements.get(place) {
                Some(text) => text_of(self.alloc, &[Bytes(text.as_slice())]),
                None => self.numbered_variable(place, elements),
            },
        }
    }

    /// The lock of a rule with the pattern `pattern`.
    pub(crate) fn rule_lock(
        &self,
        lock: &LockPattern,
        pattern: &Pattern,
    ) -> Result<Vec<u8>, AllocError> {
        let elements = self.elements(pattern)?;
        let mut subscripts = Vec::new(self.alloc);
        for part in &lock.parts {
            let text = self.part(*part, elements.as_slice())?;
            push_sparing(&mut subscripts, text)?;
        }
        let root = Made(self.root(lock.root)?);
        let list = Made(in_parentheses(self.alloc, subscripts.as_slice())?);
        text_of(self.alloc, &[root, list])
    }

    // The entry at which a unit other than a block begins.
    fn entry_of(&self, unit: &Unit<'_>) -> Result<Vec<u8>, AllocError> {
        let label = Bytes(unit.label.unwrap_or(b""));
        text_of(self.alloc, &[label, Words("^"), Bytes(unit.routine)])
    }

    /// The entry at which the unit `id` begins, as `LABEL^ROUTINE`, or `^ROUTINE` if it has no label; for a block, the entry of
    /// the unit that contains it.
    pub(crate) fn entry(&self, id: UnitId) -> Result<Vec<u8>, AllocError> {
        let mut at = id;
        for _ in 0..MOST_LEVELS {
            let Some(unit) = self.program.unit(at) else {
                break;
            };
            match unit.origin {
                Origin::Block(above) => at = above,
                Origin::First | Origin::Label(_) => return self.entry_of(unit),
            }
        }
        Ok(Vec::new(self.alloc))
    }
}

/// Appends `comment` as a line of a list, and escapes the bytes that a comment can't have.
pub(crate) fn push_comment(
    text: &mut Vec<u8>,
    alloc: Global,
    comment: &[u8],
) -> Result<(), AllocError> {
    let escaped = escape_bytes(alloc, comment)?;
    push_all(text, &[Words("#   "), Words(escaped.as_str()), Words("\n")])
}
