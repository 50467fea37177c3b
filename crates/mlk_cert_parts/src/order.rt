// The order of terms in a list.

ghost use Rattle.std.specs.Prelude.{◌≡◌, ◌≤◌, IfOk, length};
ghost use Rattle.mlk_cert_lexemes.specs.Texts.{term_text};
ghost use Rattle.mlk_cert_parts.specs.TermOrder.{terms_before};

use mlk_cert_lexemes::{Written, WrittenText, is_below};
use mlk_names::LockTerm;
use std::alloc::{AllocError, Global};

fn text_of(alloc: Global, term: &LockTerm) -> Result<WrittenText, AllocError>
    ensures { IfOk result (λ t. t ≡ term_text term.now) }
{
    let mut text = WrittenText::new(alloc);
    term.push_to(&mut text)?;
    Ok(text)
}

/// The index at which `term` belongs among `terms`, which are ordered by their texts: the number of terms before the first
/// whose text is not below that of `term`.
pub fn place_of_term(
    alloc: Global,
    terms: &[LockTerm],
    term: &LockTerm,
) -> Result<usize, AllocError>
    ensures place { IfOk result (λ n. n ≡ terms_before terms.now term.now) }
    ensures within { IfOk result (λ n. n ≤ length terms.now) }
{
    let text = text_of(alloc, term)?;
    let mut place = 0;
    let mut left = terms;
    while let Some((first, others)) = left.split_first() {
        let other = text_of(alloc, first)?;
        if !is_below(other.as_bytes(), text.as_bytes()) {
            return Ok(place);
        }
        place += 1;
        left = others;
    }
    Ok(place)
}
