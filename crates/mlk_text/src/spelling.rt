// How names, labels, roots of lock names and entries are read.

ghost use Rattle.std.specs.Prelude.{◌≡◌, option_map};
ghost use Rattle.std.specs.List.{list_all};
ghost use Rattle.mlk_text.specs.Lexemes.{digits_at, name_at, label_at, root_at, entry_of};
ghost use Rattle.mlk_text.specs.Spellings.{is_name, is_name_byte};
ghost use Rattle.mlk_text.specs.Failures.{Reads};

use crate::failure::Failure;
use crate::lexeme::{byte_of, digits, is_letter, is_name_byte, name_bytes};
use crate::limit::LONGEST_NAME;
use crate::name::Name;
use crate::root::Root;
use std::alloc::Global;
use thiserror::Error;

/// There is no such text here; the caller knows what that means.
#[derive(Clone, Copy, Debug, Drop, PartialEq, Eq, Error)]
#[error("nothing of this kind stands here")]
pub struct NotThere;

/// The label and the routine of an entry, as written.
#[derive(Clone, Copy, Drop)]
pub struct EntryText<'a> {
    /// Empty if the entry is the routine's first line.
    pub label: &'a [u8],
    pub routine: &'a [u8],
}

fn are_name_bytes(bytes: &[u8]) -> bool
    ensures { result ≡ list_all is_name_byte bytes.now }
{
    bytes.iter().all(|b| is_name_byte(*b))
}

/// Whether `text` is a name. Allocates nothing.
pub fn is_name(text: &[u8]) -> bool
    ensures { result ≡ is_name text.now }
{
    let Some((first, rest)) = text.split_first() else {
        return false;
    };
    (is_letter(*first) || *first == b'%') && (rest.len() < LONGEST_NAME && are_name_bytes(rest))
}

/// Reads the name at the front: its text, and the rest. `None` if there is none. Allocates nothing.
#[tactic(auto, unfolding(crate::specs::Lexemes::name_at))]
pub fn name_text(bytes: &[u8]) -> Option<(&[u8], &[u8])>
    ensures { option_map (λ x. (x.0.now, x.1.now)) result ≡ name_at bytes.now }
{
    let Some((first, after)) = bytes.split_first() else {
        return None;
    };
    if !is_letter(*first) && *first != b'%' {
        return None;
    }
    let n = name_bytes(after);
    if n >= LONGEST_NAME {
        return None;
    }
    Some(bytes.split_at(n + 1))
}

/// Reads the name at the front: the name, and the rest. `NotThere` if there is none.
pub fn name(alloc: Global, bytes: &[u8]) -> Result<(Name, &[u8]), Failure<NotThere>>
    ensures { Reads (λ x. (x.0, x.1.now)) result (name_at bytes.now) }
{
    let Some((text, rest)) = name_text(bytes) else {
        return Err(Failure::Refused(NotThere));
    };
    Ok((Name::of(alloc, text)?, rest))
}

/// Reads the label at the front, a name or digits: its text, and the rest. `None` if there is none. Allocates nothing.
#[tactic(auto, unfolding(crate::specs::Lexemes::label_at, crate::specs::Lexemes::digits_at))]
pub fn label_text(bytes: &[u8]) -> Option<(&[u8], &[u8])>
    ensures { option_map (λ x. (x.0.now, x.1.now)) result ≡ label_at bytes.now }
{
    if let Some(name) = name_text(bytes) {
        return Some(name);
    }
    let n = digits(bytes);
    if n == 0 {
        return None;
    }
    Some(bytes.split_at(n))
}

/// Reads the root of a lock name at the front, a caret with a global's name or a local's name: the root, and the rest.
/// `NotThere` if there is none.
#[tactic(auto, unfolding(crate::specs::Lexemes::root_at))]
pub fn root(alloc: Global, bytes: &[u8]) -> Result<(Root, &[u8]), Failure<NotThere>>
    ensures { Reads (λ x. (x.0, x.1.now)) result (root_at bytes.now) }
{
    let Some(after) = byte_of(b'^', bytes) else {
        let (local, rest) = name(alloc, bytes)?;
        return Ok((Root::Local(local), rest));
    };
    let (global, rest) = name(alloc, after)?;
    Ok((Root::Global(global), rest))
}

/// Splits the text of an entry: an optional label, a caret and a routine's name. `None` if `text` is not an entry. Allocates
/// nothing.
#[tactic(auto, unfolding(crate::specs::Lexemes::entry_of))]
pub fn entry(text: &[u8]) -> Option<EntryText<'_>>
    ensures { option_map (λ e. (e.label.now, e.routine.now)) result ≡ entry_of text.now }
{
    let (label, rest) = match label_text(text) {
        Some(found) => found,
        None => text.split_at(0),
    };
    let Some(after) = byte_of(b'^', rest) else {
        return None;
    };
    if is_name(after) {
        Some(EntryText {
            label,
            routine: after,
        })
    } else {
        None
    }
}
