// Lines, one after another.

ghost use Rattle.std.specs.Prelude.{◌≡◌, ◌<◌, ◌≤◌, ◌+◌, ◌||◌, ◌⊎◌, ℕ, List, length, take, is_some};
ghost use Rattle.std.specs.Prelude.{true, false, Some, None};
ghost use Rattle.std.specs.Prelude.{IfOk, IfErr, OnOk};
ghost use Rattle.std.specs.List.{prefix_len, list_all};
ghost use Rattle.mlk_dialect.specs.declared.dialect.Dialect.TheVariants as dialects;
ghost use Rattle.mlk_routine_arguments.specs.PartsRead.{ReadsPart};
ghost use Rattle.mlk_routine.specs.RoutineGrammar.{is_line_byte};
ghost use Rattle.mlk_routine.specs.Lines.{has_name, is_in, is_labelled, level_in, IsFront, FrontEnds, IsKept, Fits};
ghost use Rattle.mlk_routine.specs.Lines.{FitsAfter, head_of, IsLineOnly, IsWithLine, NoLine, IsMisplaced};

use crate::front::{Front, before_commands};
use crate::label::label;
use crate::reach::reaches_block;
use crate::seen::SeenNames;
use crate::tail::tail;
use bstr::ByteSlice;
use mlk_dialect::Dialect;
use mlk_routine_arguments::refusal_at;
use mlk_syntax::{Line, Rare};
use mlk_text::{Code, Column, Failure, Fault, LineNumber, Name, drop_and_return};
use std::alloc::{AllocError, Global};

const MOST_LEVELS: usize = 15;

/// What the reader of a line knows of the lines before it.
#[derive(Drop)]
pub(crate) struct Before<'a> {
    labels: SeenNames<'a>,
    /// the level of the previous line, 0 if there is none
    level: usize,
    /// whether the previous line has a DO without arguments
    reaches: bool,
}

impl<'a> Before<'a> {
    /// The state before the first line, which must have level 1.
    pub(crate) fn new(alloc: Global) -> Before<'a>
        ensures labels { (q : List ℕ) → has_name q result.labels.texts.keys ≡ false }
        ensures level { result.level ≡ 0 }
        ensures reaches { result.reaches ≡ true }
    {
        Before {
            labels: SeenNames::new(alloc),
            level: 0,
            reaches: true,
        }
    }

    // Whether an earlier line has the label `label`.
    #[inline(always)]
    fn has_label(&self, label: &Option<Name>) -> bool
        ensures { result ≡ is_in label.now self.now.labels.texts.keys }
    {
        match label {
            Some(label) => self.labels.has(label.as_bytes()),
            None => false,
        }
    }

    // Whether a line of `level` is more than one deeper than the previous line.
    fn is_jump(&self, level: usize) -> bool
        ensures yes { result ≡ true → self.now.level + 1 < level }
        ensures no { result ≡ false → level ≤ self.now.level + 1 }
    {
        level > self.level && level - 1 > self.level
    }

    // Whether a line of `level` begins a block that the previous line does not run.
    fn is_unreached(&self, level: usize) -> bool
        ensures yes { result ≡ true → (self.now.level < level) × (self.now.reaches ≡ false) }
        ensures no { result ≡ false → (level ≤ self.now.level) ⊎ (self.now.reaches ≡ true) }
    {
        level > self.level && !self.reaches
    }

    // The code of what is wrong with a line at this place with `front`, or `None`.
    fn misplacement(&self, dialect: Dialect, front: &Front) -> Option<Code>
        ensures code { IsMisplaced result }
        ensures none { result ≡ None → IsKept dialect front.now.label front.now.formals (level_in front.now.level) }
        ensures fits { result ≡ None → Fits self.now front.now.label (level_in front.now.level) }
        ensures some { is_some result ≡ true → IsKept dialect front.now.label front.now.formals (level_in front.now.level)
            → Fits self.now front.now.label (level_in front.now.level) → ⊥ }
    {
        let level = front.level.unwrap_or(1);
        if level > 1 && is_barred(dialect, front) {
            return Some(Code::LineForm);
        }
        if self.has_label(&front.label) {
            return Some(Code::LabelTwice);
        }
        if self.is_jump(level) {
            return Some(Code::LevelJump);
        }
        if self.is_unreached(level) {
            return Some(Code::BlockUnreached);
        }
        if level > MOST_LEVELS {
            return Some(Code::TooLarge);
        }
        None
    }

    // Adds the label of a line.
    fn add(&mut self, front: &Front, text: &'a [u8]) -> Result<(), AllocError>
        requires { (label : List ℕ) → front.now.label ≡ Some label → take (length label) text.now ≡ label }
        ensures labels { OnOk result ((q : List ℕ) → has_name q self.new.labels.texts.keys
            ≡ (is_labelled q front.now.label || has_name q self.old.labels.texts.keys)) }
        ensures level { self.new.level ≡ self.old.level }
        ensures reaches { self.new.reaches ≡ self.old.reaches }
    {
        if let Some(label) = &front.label {
            let size = label.as_bytes().len().min(text.len());
            let (written, _) = text.split_at(size);
            let _is_new = self.labels.add(written)?;
        }
        Ok(())
    }
}

// Whether a line that begins like this may not be deeper than level 1.
fn is_barred(dialect: Dialect, front: &Front) -> bool
    ensures yes { result ≡ true → (front.now.label ≡ None → ⊥) × (dialect ≡ dialects.Extended → front.now.formals ≡ None → ⊥) }
    ensures no { result ≡ false → (front.now.label ≡ None) ⊎ ((dialect ≡ dialects.Extended) × (front.now.formals ≡ None)) }
{
    match dialect {
        Dialect::Standard => front.label.is_some(),
        Dialect::Extended => front.label.is_some() && front.formals.is_some(),
    }
}

// Reads the part of a line before its commands, and returns the byte after it. A label that an earlier line has is refused
// before anything else.
fn front(alloc: Global, before: &Before, text: &[u8]) -> Result<(Front, usize), Failure<Fault>>
    ensures { ReadsPart (λ f. f) IsFront FrontEnds text.now 0 result }
{
    let (label, next) = label(alloc, text)?;
    let is_twice = before.has_label(&label);
    match before_commands(alloc, label, text, next) {
        Err(Failure::Refused(_)) if is_twice => Err(refusal_at(alloc, Code::LabelTwice, 0)),
        Err(failure) => Err(failure),
        Ok(read) => Ok(read),
    }
}

// The number of bytes before the first byte that ends a line.
fn line_bytes(text: &[u8]) -> usize
    ensures value { result ≡ prefix_len is_line_byte text.now }
    ensures within { result ≤ length text.now }
{
    match text.find_byteset(b"\n\r") {
        Some(end) => end,
        None => text.len(),
    }
}

/// Reads a line, without its block.
pub(crate) fn line<'a>(
    alloc: Global,
    dialect: Dialect,
    before: &mut Before<'a>,
    number: LineNumber,
    text: &'a [u8],
) -> Result<Line, Failure<Fault>>
    ensures line { IfOk result (λ l. IsLineOnly dialect number text.now (head_of l)) }
    ensures plain { OnOk result (list_all is_line_byte text.now ≡ true) }
    ensures fits { IfOk result (λ l. FitsAfter before.old (head_of l)) }
    ensures after { IfOk result (λ l. IsWithLine before.old before.new (head_of l)) }
    ensures refused { IfErr result (NoLine dialect before.old number text.now) }
{
    let (front, start) = front(alloc, before, text)?;
    if let Some(code) = before.misplacement(dialect, &front) {
        return Err(refusal_at(alloc, code, 0));
    }
    before.add(&front, text)?;
    let Front {
        label,
        formals,
        level,
    } = front;
    let label = Rare::of(alloc, label)?;
    let formals = Rare::of(alloc, formals)?;
    let commands = tail(alloc, dialect, level, text, start)?;
    let plain = line_bytes(text);
    if plain < text.len() {
        return Err(drop_and_return(commands, refusal_at(alloc, Code::Byte, plain)));
    }
    let level = level.unwrap_or(1);
    before.level = level;
    before.reaches = reaches_block(&commands);
    Ok(Line {
        number,
        end: Column::at(text.len() + 1),
        level,
        label,
        formals,
        commands,
        block: Vec::new(alloc),
    })
}
