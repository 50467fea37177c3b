// The readers of summary lines.

ghost use Rattle.std.specs.Prelude.{◌≡◌, ◌&&◌, [], suc, length, option_map, IfOk, codes};
ghost use Rattle.mlk_text.specs.Failures.{Reads};
ghost use Rattle.mlk_cert_parts.specs.Checks.{fit_terms, fit_mods, fits_exit, fits};
ghost use Rattle.mlk_cert.specs.Fitting.{passes};
ghost use Rattle.mlk_cert_parts.specs.Texts.{exit_text};
ghost use Rattle.mlk_cert_lexemes.specs.Reading.{part_at, listed_at, term_at};
ghost use Rattle.mlk_cert_parts.specs.Reading.{names_at, exit_at};
ghost use Rattle.mlk_cert.specs.Blocks.{ended, rest_at, low_at, drops_at, after_at, above_last, next_exit_fits, exits_at};

use crate::read::case::{exit, mods, terms};
use crate::read::fault::{BlockFault, other_form};
use crate::read::fit::{Fit, fit_both, fit_of};
use crate::read::memory::Memories;
use mlk_cert_lexemes::{front_of, is_below, number, word_of};
use mlk_cert_parts::limit::MOST_EXITS;
use mlk_cert_parts::{ExitCase, NameSet};
use mlk_names::LockTerm;
use mlk_text::lexeme::byte_of;
use mlk_text::limit::GREATEST_RANK;
use mlk_text::{Code, Failure, List};
use std::alloc::Global;

/// Reads the end of a line, after its value `value`.
pub(crate) fn line_end<'a, T: Drop>(
    value: T,
    fit: Fit,
    rest: &'a [u8],
    line: &[u8],
) -> Result<(T, &'a [u8]), Failure<BlockFault>>
    ensures { Reads (λ x. (x.0, x.1.now)) result (ended value (passes fit) rest.now) }
{
    let Some(after) = byte_of(b'\n', rest) else {
        return Err(Failure::Refused(other_form(line)));
    };
    let left = line.len();
    match fit {
        Fit::Yes => Ok((value, after)),
        Fit::Limit => Err(Failure::Refused(BlockFault {
            code: Code::CertLimit,
            left,
        })),
        Fit::Order => Err(Failure::Refused(BlockFault {
            code: Code::Order,
            left,
        })),
    }
}

/// Reads the line of the locks that a caller must hold.
#[tactic(auto, unfolding(mlk_cert_lexemes::specs::Reading::part_at, crate::specs::Blocks::rest_at))]
pub(crate) fn need_line(
    alloc: Global,
    bytes: &[u8],
) -> Result<(List<LockTerm>, &[u8]), Failure<BlockFault>>
    ensures { Reads (λ x. (x.0, x.1.now)) result (part_at (codes "need ") (rest_at
        (listed_at term_at) fit_terms) bytes.now) }
{
    let Some(rest) = word_of(b"need ", bytes) else {
        return Err(Failure::Refused(other_form(bytes)));
    };
    match terms(alloc, rest) {
        Ok((found, fit, rest)) => line_end(List::of(found), fit, rest, bytes),
        Err(Failure::OutOfMemory) => Err(Failure::OutOfMemory),
        Err(Failure::Refused(_)) => Err(Failure::Refused(other_form(bytes))),
    }
}

#[tactic(auto, unfolding(crate::specs::Blocks::low_at))]
fn low(bytes: &[u8]) -> Option<(Option<u32>, &[u8])>
    ensures { option_map (λ x. (x.0, x.1.now)) result ≡ low_at bytes.now }
{
    if let Some(rest) = byte_of(b'-', bytes) {
        return Some((None, rest));
    }
    let Some((rank, rest)) = number(GREATEST_RANK, bytes) else {
        return None;
    };
    Some((Some(rank), rest))
}

/// Reads the line of the least rank.
#[tactic(auto, unfolding(mlk_cert_lexemes::specs::Reading::part_at, crate::specs::Blocks::rest_at))]
pub(crate) fn low_line(bytes: &[u8]) -> Result<(Option<u32>, &[u8]), Failure<BlockFault>>
    ensures { Reads (λ x. (x.0, x.1.now)) result (part_at (codes "low ") (rest_at low_at fits) bytes.now) }
{
    let Some(rest) = word_of(b"low ", bytes) else {
        return Err(Failure::Refused(other_form(bytes)));
    };
    let Some((rank, rest)) = low(rest) else {
        return Err(Failure::Refused(other_form(bytes)));
    };
    line_end(rank, Fit::Yes, rest, bytes)
}

#[tactic(auto, unfolding(crate::specs::Blocks::drops_at))]
fn drops(bytes: &[u8]) -> Option<(bool, &[u8])>
    ensures { option_map (λ x. (x.0, x.1.now)) result ≡ drops_at bytes.now }
{
    if let Some(rest) = byte_of(b'0', bytes) {
        return Some((false, rest));
    }
    let Some(rest) = byte_of(b'1', bytes) else {
        return None;
    };
    Some((true, rest))
}

/// Reads the line that says whether all locks may be released.
#[tactic(auto, unfolding(mlk_cert_lexemes::specs::Reading::part_at, crate::specs::Blocks::rest_at))]
pub(crate) fn drops_line(bytes: &[u8]) -> Result<(bool, &[u8]), Failure<BlockFault>>
    ensures { Reads (λ x. (x.0, x.1.now)) result (part_at (codes "drops ") (rest_at drops_at fits) bytes.now) }
{
    let Some(rest) = word_of(b"drops ", bytes) else {
        return Err(Failure::Refused(other_form(bytes)));
    };
    let Some((drops, rest)) = drops(rest) else {
        return Err(Failure::Refused(other_form(bytes)));
    };
    line_end(drops, Fit::Yes, rest, bytes)
}

/// Reads the line of the names that may change.
#[tactic(auto, unfolding(mlk_cert_lexemes::specs::Reading::part_at, crate::specs::Blocks::rest_at))]
pub(crate) fn mods_line(
    alloc: Global,
    bytes: &[u8],
) -> Result<(List<NameSet>, &[u8]), Failure<BlockFault>>
    ensures { Reads (λ x. (x.0, x.1.now)) result (part_at (codes "mods ") (rest_at
        (listed_at names_at) fit_mods) bytes.now) }
{
    let Some(rest) = word_of(b"mods ", bytes) else {
        return Err(Failure::Refused(other_form(bytes)));
    };
    match mods(alloc, rest) {
        Ok((found, fit, rest)) => line_end(List::of(found), fit, rest, bytes),
        Err(Failure::OutOfMemory) => Err(Failure::OutOfMemory),
        Err(Failure::Refused(_)) => Err(Failure::Refused(other_form(bytes))),
    }
}

/// Whether `text` is above `last`; `true` if there is none.
pub(crate) fn is_above(last: Option<&[u8]>, text: &[u8]) -> bool
    ensures { result ≡ above_last (option_map (λ x. x.now) last.entry) text.now }
{
    match last {
        None => true,
        Some(last) => is_below(last, text),
    }
}

// Reads the rest of an exit line, after `count` exits, the last of which has the text `last`.
#[tactic(auto, unfolding(crate::specs::Blocks::after_at))]
fn exit_line<'a>(
    alloc: Global,
    memories: &mut Memories<'a>,
    count: usize,
    last: Option<&[u8]>,
    bytes: &'a [u8],
) -> Result<((ExitCase, &'a [u8]), &'a [u8]), Failure<BlockFault>>
    ensures read { Reads (λ x. (x.0.0, x.1.now)) result (after_at exit_at fits_exit (next_exit_fits count
        (option_map (λ x. x.now) last.entry)) bytes.now) }
    ensures text { IfOk result (λ x. x.0.1.now ≡ exit_text x.0.0) }
{
    match exit(alloc, memories, bytes) {
        Ok((found, fit, rest)) => {
            let text = front_of(bytes, rest);
            let next = fit_of(count < MOST_EXITS, is_above(last, text));
            let (found, rest) = line_end(found, fit_both(fit, next), rest, bytes)?;
            Ok(((found, text), rest))
        }
        Err(Failure::OutOfMemory) => Err(Failure::OutOfMemory),
        Err(Failure::Refused(_)) => Err(Failure::Refused(other_form(bytes))),
    }
}

/// Reads the lines of exits: the exits, and the rest.
pub(crate) fn exits(
    alloc: Global,
    bytes: &[u8],
) -> Result<(List<ExitCase>, &[u8]), Failure<BlockFault>>
    ensures { Reads (λ x. (x.0, x.1.now)) result (exits_at bytes.now) }
{
    let mut found: Vec<ExitCase> = Vec::new(alloc);
    let mut memories = Memories::new();
    let mut last: Option<&[u8]> = None;
    let mut rest = bytes;
    while let Some(after) = word_of(b"exit ", rest) {
        let ((item, text), after) = exit_line(alloc, &mut memories, found.len(), last, after)?;
        found.push(item)?;
        last = Some(text);
        rest = after;
    }
    Ok((List::of(found), rest))
}
