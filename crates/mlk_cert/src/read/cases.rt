// The readers of the case lines before the blocks.

ghost use Rattle.std.specs.Prelude.{◌≡◌, ◌==◌, suc, IfOk, option_map};
ghost use Rattle.mlk_text.specs.Reading.{with};
ghost use Rattle.mlk_text.specs.Failures.{Reads};
ghost use Rattle.mlk_cert_parts.specs.Texts.{case_text};
ghost use Rattle.mlk_cert.specs.Fitting.{passes};
ghost use Rattle.mlk_cert.specs.Blocks.{after_at};
ghost use Rattle.mlk_cert.specs.Numbered.{numbered_case_at, fits_numbered, next_numbered_fits, cases_in, cases_at};

use crate::read::case::case;
use crate::read::fault::{BlockFault, other_form};
use crate::read::fit::{Fit, fit_both, fit_of};
use crate::read::line::{is_above, line_end};
use crate::read::memory::Memories;
use mlk_cert_lexemes::{are_both, front_of, positive_number, word_of};
use mlk_cert_parts::Case;
use mlk_cert_parts::limit::GREATEST_CASE;
use mlk_text::Failure;
use mlk_text::lexeme::{byte_of, digits};
use std::alloc::Global;

// Whether `number` is that of the case after `count` others.
fn is_next(count: usize, number: u32) -> bool
    ensures { result ≡ (number == suc count) }
{
    number > 0 && (number - 1) as usize == count
}

// The rest after a numeral of any size and a space, or `None` if there is none.
fn after_numeral(bytes: &[u8]) -> Option<&[u8]> {
    if bytes.first() == Some(&b'0') {
        return None;
    }
    let (numeral, rest) = bytes.split_at(digits(bytes));
    if numeral.is_empty() {
        return None;
    }
    byte_of(b' ', rest)
}

// The refusal of a case line whose number is malformed or too large: 603 if the rest of the line is valid, since the number is
// then not the next one.
fn number_refused<'a>(
    alloc: Global,
    memories: &mut Memories<'a>,
    bytes: &'a [u8],
) -> Failure<BlockFault> {
    let Some(start) = after_numeral(bytes) else {
        return Failure::Refused(other_form(bytes));
    };
    match case(alloc, memories, start) {
        Ok((found, fit, rest)) => match line_end(found, fit_both(fit, Fit::Order), rest, bytes) {
            Ok(_) => Failure::Refused(other_form(bytes)),
            Err(refusal) => refusal,
        },
        Err(Failure::OutOfMemory) => Failure::OutOfMemory,
        Err(Failure::Refused(_)) => Failure::Refused(other_form(bytes)),
    }
}

// Reads the rest of a case line, after `count` cases, the last of which has the text `last`.
#[tactic(auto, unfolding(crate::specs::Blocks::after_at, crate::specs::Numbered::numbered_case_at))]
fn numbered_case<'a>(
    alloc: Global,
    memories: &mut Memories<'a>,
    count: usize,
    last: Option<&[u8]>,
    bytes: &'a [u8],
) -> Result<((u32, Case), &'a [u8], &'a [u8]), Failure<BlockFault>>
    ensures read { Reads (λ x. (x.0, x.2.now)) result (after_at numbered_case_at fits_numbered (next_numbered_fits count
        (option_map (λ x. x.now) last.entry)) bytes.now) }
    ensures text { IfOk result (λ x. x.1.now ≡ case_text x.0.1) }
{
    let Some((number, rest)) = positive_number(GREATEST_CASE, bytes) else {
        return Err(number_refused(alloc, memories, bytes));
    };
    let Some(start) = byte_of(b' ', rest) else {
        return Err(Failure::Refused(other_form(bytes)));
    };
    match case(alloc, memories, start) {
        Ok((found, fit, rest)) => {
            let text = front_of(start, rest);
            let next = fit_of(true, are_both(is_next(count, number), is_above(last, text)));
            let (numbered, rest) = line_end((number, found), fit_both(fit, next), rest, bytes)?;
            Ok((numbered, text, rest))
        }
        Err(Failure::OutOfMemory) => Err(Failure::OutOfMemory),
        Err(Failure::Refused(_)) => Err(Failure::Refused(other_form(bytes))),
    }
}

/// Reads the cases at the front: the cases, and the rest.
pub(crate) fn cases(alloc: Global, bytes: &[u8]) -> Result<(Vec<Case>, &[u8]), Failure<BlockFault>>
    ensures { Reads (λ x. (x.0.items, x.1.now)) result (with cases_in (cases_at bytes.now)) }
{
    let mut found: Vec<Case> = Vec::new(alloc);
    let mut memories = Memories::new();
    let mut last: Option<&[u8]> = None;
    let mut rest = bytes;
    while let Some(after) = word_of(b"case ", rest) {
        let (numbered, text, after) = numbered_case(
            alloc,
            &mut memories,
            found.len(),
            last,
            after,
        )?;
        let (_, case) = numbered;
        found.push(case)?;
        last = Some(text);
        rest = after;
    }
    Ok((found, rest))
}
