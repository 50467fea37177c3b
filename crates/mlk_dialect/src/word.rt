// The words that the plain text replaces, and what replaces them.

ghost use Rattle.std.specs.Prelude.{◌≡◌, ◌∷◌, ◌≤◌, IfOk, length, replicate};
ghost use Rattle.mlk_dialect.specs.Words.{any_function, form_of, is_inert, may_begin, may_end, is_line_byte, line_bytes, text_call, named_word, dollar_word, sign_by, sign_word, word_at};

use crate::tables::{is_function, is_text_name, is_variable, is_zdata};
use mlk_text::lexeme::{is_name_byte, word_at};
use std::alloc::{AllocError, Global};

/// A word of a routine that has another form in the plain text, of the same length.
#[derive(Clone, Copy, Drop, PartialEq, Eq)]
pub enum Word {
    /// `<=`
    AtMost,
    /// `>=`
    AtLeast,
    /// `'<=`
    NotAtMost,
    /// `'>=`
    NotAtLeast,
    /// A special variable of so many bytes. It is read as any value.
    Value(usize),
    /// `$TEXT` of a line: how many bytes its name has, and how many are behind the parenthesis after it. It is read as any value.
    Line { name: usize, rest: usize },
    /// The name of a function and the parenthesis behind it, of so many bytes. It gives any value.
    Function(usize),
    /// `$ZDATA(`, which looks at what `$DATA(` does.
    Data,
}

impl Word {
    /// Whether a report rests on the premise that this word touches no data and no lock.
    pub fn is_inert(self) -> bool
        ensures { result ≡ is_inert self }
    {
        matches!(
            self,
            Word::Value(_) | Word::Line { .. } | Word::Function(_) | Word::Data
        )
    }
}

// A function that gives any value, with its parenthesis.
fn function_form(alloc: Global, len: usize) -> Result<Vec<u8>, AllocError>
    ensures { IfOk result (λ f. f.items ≡ any_function len) }
{
    match len {
        3 => Vec::from_slice(alloc, b"$A("),
        4 => Vec::from_slice(alloc, b"$FN("),
        _ => {
            let mut form = Vec::from_slice(alloc, b"$A(")?;
            let ones = Vec::from_elem(alloc, b'1', len.saturating_sub(4))?;
            form.extend_from_slice(ones.as_slice())?;
            form.push(b',')?;
            Ok(form)
        }
    }
}

// `1E` and `zeros` zeros.
fn value_form(alloc: Global, zeros: usize) -> Result<Vec<u8>, AllocError>
    ensures { IfOk result (λ f. f.items ≡ 49 ∷ 69 ∷ replicate zeros 48) }
{
    let mut form = Vec::from_slice(alloc, b"1E")?;
    let zeros = Vec::from_elem(alloc, b'0', zeros)?;
    form.extend_from_slice(zeros.as_slice())?;
    Ok(form)
}

/// What `word` is in the plain text.
pub(crate) fn form_of(alloc: Global, word: Word) -> Result<Vec<u8>, AllocError>
    ensures { IfOk result (λ f. f.items ≡ form_of word) }
{
    match word {
        Word::AtMost => Vec::from_slice(alloc, b"'>"),
        Word::AtLeast => Vec::from_slice(alloc, b"'<"),
        Word::NotAtMost => Vec::from_slice(alloc, b">++"),
        Word::NotAtLeast => Vec::from_slice(alloc, b"<++"),
        Word::Value(len) => value_form(alloc, len.saturating_sub(2)),
        Word::Line { name, rest } => {
            let mut form = value_form(alloc, name)?;
            let zeros = Vec::from_elem(alloc, b'0', rest)?;
            form.extend_from_slice(zeros.as_slice())?;
            Ok(form)
        }
        Word::Function(len) => function_form(alloc, len),
        Word::Data => Vec::from_slice(alloc, b"++++$D("),
    }
}

fn may_begin(before: u8) -> bool
    ensures { result ≡ may_begin before }
{
    !(is_name_byte(before) || matches!(before, b'%' | b'.' | b'$' | b'^' | b'"' | b')' | b'?'))
}

fn may_end(after: &[u8]) -> bool
    ensures { result ≡ may_end after.now }
{
    match after.split_first() {
        Some((first, _)) => !(is_name_byte(*first) || matches!(*first, b'%' | b'.')),
        None => true,
    }
}

fn is_line_byte(b: u8) -> bool
    ensures { result ≡ is_line_byte b }
{
    is_name_byte(b) || matches!(b, b'%' | b'+' | b'^')
}

fn line_bytes(bytes: &[u8]) -> usize
    ensures value { result ≡ line_bytes bytes.now }
    ensures within { result ≤ length bytes.now }
{
    bytes.iter().take_while(|b| is_line_byte(**b)).count()
}

// `$TEXT(..)` of a line behind its parenthesis, where its name has `name` bytes.
fn text_call(name: usize, bytes: &[u8]) -> Option<Word>
    ensures { result ≡ text_call name bytes.now }
{
    let line = line_bytes(bytes);
    let (_, rest) = bytes.split_at(line);
    match rest.split_first() {
        Some((b')', after)) if may_end(after) => Some(Word::Line {
            name,
            rest: line + 1,
        }),
        _ => None,
    }
}

// The word with `$` that `name` is, if `after` follows it.
fn named_word(name: &[u8], after: &[u8]) -> Option<Word>
    ensures { result ≡ named_word name.now after.now }
{
    let len = name.len() + 1;
    let Some((b'(', rest)) = after.split_first() else {
        return if is_variable(name) && may_end(after) {
            Some(Word::Value(len))
        } else {
            None
        };
    };
    if is_text_name(name) {
        text_call(name.len(), rest)
    } else if is_function(name) {
        Some(Word::Function(len + 1))
    } else if is_zdata(name) {
        Some(Word::Data)
    } else {
        None
    }
}

// The word with `$` whose bytes after that begin `bytes`.
fn dollar_word(bytes: &[u8]) -> Option<Word>
    ensures { result ≡ dollar_word bytes.now }
{
    let (name, after) = word_at(bytes);
    named_word(name, after)
}

// `less` if the bytes are `<=`, `more` if they are `>=`.
fn sign_by(less: Word, more: Word, first: u8, after: &[u8]) -> Option<Word>
    ensures { result ≡ sign_by less more first after.now }
{
    match (first, after.first()) {
        (b'<', Some(b'=')) => Some(less),
        (b'>', Some(b'=')) => Some(more),
        _ => None,
    }
}

// `less` if `<=` begins `bytes`, `more` if `>=` does.
fn sign_word(less: Word, more: Word, bytes: &[u8]) -> Option<Word>
    ensures { result ≡ sign_word less more bytes.now }
{
    match bytes.split_first() {
        Some((first, after)) => sign_by(less, more, *first, after),
        None => None,
    }
}

/// The word that begins with the byte `first`, behind the byte `before` and in front of `after`.
pub(crate) fn code_word(before: u8, first: u8, after: &[u8]) -> Option<Word>
    ensures { result ≡ word_at before first after.now }
{
    match first {
        b'$' if may_begin(before) => dollar_word(after),
        b'$' => None,
        b'\'' => sign_word(Word::NotAtMost, Word::NotAtLeast, after),
        _ => sign_by(Word::AtMost, Word::AtLeast, first, after),
    }
}
