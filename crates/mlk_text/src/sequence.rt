// Lists: an item, then more items, each after a separator.

ghost use Rattle.std.specs.Prelude.{◌≡◌, ℕ, List, Option, option_map};
ghost use Rattle.mlk_text.specs.Failures.{Reads};
ghost use Rattle.mlk_text.specs.Reading.{Leaves, Shortens, separated};

use crate::failure::Failure;
use std::alloc::Global;

/// The readers of a list's items and of its separators.
pub trait Items {
    type Item: Drop;

    type Reason: Drop;

    ghost item_at: { Self → List ℕ → Option (Self.Item × List ℕ) };

    ghost separator_at: { Self → List ℕ → Option (ℕ × List ℕ) };

    ghost separator: { ℕ };

    /// Reads the item at the front: the item, and the rest.
    fn item<'a>(
        &self,
        alloc: Global,
        bytes: &'a [u8],
    ) -> Result<(Self::Item, &'a [u8]), Failure<Self::Reason>>
        ensures { Reads (λ x. (x.0, x.1.now)) result (item_at self.now bytes.now) };

    /// The rest after the separator at the front, or `None` if `bytes` do not begin with one.
    fn after_separator<'a>(&self, bytes: &'a [u8]) -> Option<&'a [u8]>
        ensures { option_map (λ x. (separator, x.now)) result ≡ separator_at self.now bytes.now };
}

/// Reads one or more items: the items, and the rest. Each separator must be followed by an item.
pub fn separated_items<'a, R: Items>(
    alloc: Global,
    items: &R,
    bytes: &'a [u8],
) -> Result<(Vec<R::Item>, &'a [u8]), Failure<R::Reason>>
    requires leaves { Leaves (R.item_at items.now) }
    requires shortens { Shortens (R.separator_at items.now) }
    ensures { Reads (λ x. (x.0.items, x.1.now)) result
        (separated (R.separator_at items.now) (R.item_at items.now) bytes.now) }
{
    let (first, mut rest) = items.item(alloc, bytes)?;
    let mut found = Vec::new(alloc);
    found.push(first)?;
    while let Some(next) = items.after_separator(rest) {
        let (item, after) = items.item(alloc, next)?;
        found.push(item)?;
        rest = after;
    }
    Ok((found, rest))
}
