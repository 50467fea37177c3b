// The readers of lists.

ghost use Rattle.std.specs.Prelude.{◌≡◌, ◌++◌, ◌∷◌, [], ℕ, List, Option, Bool, suc, length, IfOk, ◌&&◌};
ghost use Rattle.mlk_text.specs.Reading.{many, put};
ghost use Rattle.mlk_text.specs.Lexemes.{byte_at};
ghost use Rattle.mlk_text.specs.Failures.{Reads};
ghost use Rattle.mlk_cert_lexemes.specs.Lists.{ascends};
ghost use Rattle.mlk_cert_lexemes.specs.Reading.{next, list_at, listed_at};

use crate::lexeme::front_of;
use crate::written::Written;
use mlk_text::lexeme::byte_of;
use mlk_text::{Failure, NotThere, likely_length};
use std::alloc::Global;

/// An item of a list.
pub trait Item: Written + Drop + Sized {
    ghost reads: { List ℕ → Option (Self × List ℕ) };

    ghost before: { Self → Self → Bool };

    /// Reads the item at the front: the item, and the rest.
    fn read(alloc: Global, bytes: &[u8]) -> Result<(Self, &[u8]), Failure<NotThere>>
        ensures read { Reads (λ x. (x.0, x.1.now)) result (reads bytes.now) }
        ensures text { IfOk result (λ x. bytes.now ≡ Self.written x.0 ++ x.1.now) };

    /// Whether `next` may follow `self` in a list; `text` and `next_text` are their texts.
    fn is_before(&self, text: &[u8], next: &Self, next_text: &[u8]) -> bool
        requires text { text.now ≡ Self.written self.now }
        requires next_text { next_text.now ≡ Self.written next.now }
        ensures { result ≡ before self.now next.now };
}

/// Whether both are true.
pub fn are_both(first: bool, second: bool) -> bool
    ensures { result ≡ (first && second) }
{
    first && second
}

// The byte after the last item of a list.
fn end_of(between: u8) -> u8 {
    if between == b';' { b' ' } else { b')' }
}

// Reads the items after the first, and returns whether all are in order.
fn more_items<'a, T: Item>(
    alloc: Global,
    between: u8,
    first: T,
    first_text: &'a [u8],
    bytes: &'a [u8],
) -> Result<(Vec<T>, bool, &'a [u8]), Failure<NotThere>>
    requires { first_text.now ≡ T.written first }
    ensures read { Reads (λ x. (x.0.items, x.2.now)) result (put (first ∷ []) (many (byte_at between)
        (next T.reads) (suc (length bytes.now)) bytes.now)) }
    ensures order { IfOk result (λ x. x.1 ≡ ascends T.before x.0.items) }
{
    let mut found = Vec::with_capacity(alloc, likely_length(between, end_of(between), bytes))?;
    let mut last = first;
    let mut text = first_text;
    let mut ordered = true;
    let mut rest = bytes;
    while let Some(next) = byte_of(between, rest) {
        let (item, after) = T::read(alloc, next)?;
        let item_text = front_of(next, after);
        ordered = are_both(ordered, last.is_before(text, &item, item_text));
        found.push(last)?;
        last = item;
        text = item_text;
        rest = after;
    }
    found.push(last)?;
    Ok((found, ordered, rest))
}

/// Reads one or more items separated by `between`: the items, whether they are in order, and the rest.
#[tactic(auto, unfolding(crate::specs::Reading::list_at))]
pub fn items<T: Item>(
    alloc: Global,
    between: u8,
    bytes: &[u8],
) -> Result<(Vec<T>, bool, &[u8]), Failure<NotThere>>
    ensures read { Reads (λ x. (x.0.items, x.2.now)) result (list_at T.reads between bytes.now) }
    ensures order { IfOk result (λ x. x.1 ≡ ascends T.before x.0.items) }
{
    let (first, rest) = T::read(alloc, bytes)?;
    let text = front_of(bytes, rest);
    let (found, ordered, rest) = more_items(alloc, between, first, text, rest)?;
    Ok((found, ordered, rest))
}

/// Reads the list of a line: empty for a dash, otherwise one or more items separated by `;`.
#[tactic(auto, unfolding(crate::specs::Reading::listed_at))]
pub fn item_list<T: Item>(
    alloc: Global,
    bytes: &[u8],
) -> Result<(Vec<T>, bool, &[u8]), Failure<NotThere>>
    ensures read { Reads (λ x. (x.0.items, x.2.now)) result (listed_at T.reads bytes.now) }
    ensures order { IfOk result (λ x. x.1 ≡ ascends T.before x.0.items) }
{
    if let Some(rest) = byte_of(b'-', bytes) {
        return Ok((Vec::new(alloc), true, rest));
    }
    let (found, ordered, rest) = items(alloc, b';', bytes)?;
    Ok((found, ordered, rest))
}
