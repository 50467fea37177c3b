// The readers of texts in rule files.

ghost use Rattle.std.specs.Prelude.{◌≡◌, bytes_eq, IfOk, option_map};
ghost use Rattle.mlk_text.specs.Failures.{Reads};
ghost use Rattle.mlk_rules_file.specs.RuleTexts.{item_at, comma_at, end_of, list_of, parts_of, spelling_of, pattern_of};

use crate::read::kinds::{SpelledItem, Spelling};
use crate::read::number::{negative_number, number};
use crate::read::quoted::quoted_value;
use mlk_names::Extent;
use mlk_text::lexeme::{byte_of, is_digit};
use mlk_text::spelling::{name, root};
use mlk_text::{Failure, Items, List, NotThere, separated_items};
use std::alloc::{AllocError, Global};

fn is_same(bytes: &[u8], text: &[u8]) -> bool
    ensures { result ≡ bytes_eq bytes.now text.now }
{
    bytes == text
}

#[tactic(auto, unfolding(crate::specs::RuleTexts::item_at))]
fn item(alloc: Global, bytes: &[u8]) -> Result<(SpelledItem, &[u8]), Failure<NotThere>>
    ensures { Reads (λ x. (x.0, x.1.now)) result (item_at bytes.now) }
{
    let Some((first, after)) = bytes.split_first() else {
        return Err(Failure::Refused(NotThere));
    };
    if *first == b'$' {
        let Some(rest) = byte_of(b'J', after) else {
            return Err(Failure::Refused(NotThere));
        };
        return Ok((SpelledItem::Job, rest));
    }
    if *first == b'-' {
        let (value, rest) = negative_number(alloc, after)?;
        return Ok((SpelledItem::Literal(value), rest));
    }
    if *first == b'"' {
        let (value, rest) = quoted_value(alloc, after)?;
        return Ok((SpelledItem::Literal(value), rest));
    }
    if *first == b'.' || is_digit(*first) {
        let (value, rest) = number(alloc, bytes)?;
        return Ok((SpelledItem::Literal(value), rest));
    }
    let (variable, rest) = name(alloc, bytes)?;
    Ok((SpelledItem::Variable(variable), rest))
}

fn comma(bytes: &[u8]) -> Option<&[u8]>
    ensures { option_map (λ x. (44, x.now)) result ≡ comma_at bytes.now }
{
    if is_same(bytes, b",...)") {
        return None;
    }
    byte_of(b',', bytes)
}

// Items separated by commas, up to a closing parenthesis or to the `...` that ends the list.
struct PatternItems;

impl Items for PatternItems {
    ghost use Rattle.mlk_rules_file.specs.RuleTexts.{item_at, comma_at};

    type Item = SpelledItem;

    type Reason = NotThere;

    ghost item_at = { λ _ xs. item_at xs };

    ghost separator_at = { λ _ xs. comma_at xs };

    ghost separator = { 44 };

    fn item<'a>(
        &self,
        alloc: Global,
        bytes: &'a [u8],
    ) -> Result<(SpelledItem, &'a [u8]), Failure<NotThere>> {
        item(alloc, bytes)
    }

    fn after_separator<'a>(&self, bytes: &'a [u8]) -> Option<&'a [u8]> {
        comma(bytes)
    }
}

fn end(bytes: &[u8]) -> Option<Extent>
    ensures { result ≡ end_of bytes.now }
{
    if is_same(bytes, b")") {
        Some(Extent::Node)
    } else if is_same(bytes, b",...)") {
        Some(Extent::Tree)
    } else {
        None
    }
}

#[tactic(auto, unfolding(crate::specs::RuleTexts::list_of))]
fn list(alloc: Global, bytes: &[u8]) -> Result<(List<SpelledItem>, Extent), Failure<NotThere>>
    ensures { Reads (λ x. x) result (list_of bytes.now) }
{
    if is_same(bytes, b"...)") {
        return Ok((List::new(alloc), Extent::Tree));
    }
    let (items, rest) = separated_items(alloc, &PatternItems, bytes)?;
    let Some(extent) = end(rest) else {
        return Err(Failure::Refused(NotThere));
    };
    Ok((List::of(items), extent))
}

#[tactic(auto, unfolding(crate::specs::RuleTexts::parts_of))]
fn parts(alloc: Global, bytes: &[u8]) -> Result<(List<SpelledItem>, Extent), Failure<NotThere>>
    ensures { Reads (λ x. x) result (parts_of bytes.now) }
{
    let Some((first, after)) = bytes.split_first() else {
        return Ok((List::new(alloc), Extent::Node));
    };
    if *first != b'(' {
        return Err(Failure::Refused(NotThere));
    }
    list(alloc, after)
}

#[tactic(auto, unfolding(crate::specs::RuleTexts::spelling_of))]
fn spelling(alloc: Global, bytes: &[u8]) -> Result<Spelling, Failure<NotThere>>
    ensures { Reads (λ x. x) result (spelling_of bytes.now) }
{
    let (root, rest) = root(alloc, bytes)?;
    let (items, extent) = parts(alloc, rest)?;
    Ok(Spelling {
        root,
        items,
        extent,
    })
}

/// `bytes` as a lock name, or `None` if it is spelled wrongly.
pub fn spelled_name(alloc: Global, bytes: &[u8]) -> Result<Option<Spelling>, AllocError>
    ensures { IfOk result (λ s. s ≡ spelling_of bytes.now) }
{
    match spelling(alloc, bytes) {
        Ok(found) => Ok(Some(found)),
        Err(Failure::Refused(_)) => Ok(None),
        Err(Failure::OutOfMemory) => Err(AllocError),
    }
}

/// `bytes` as a pattern, or `None` if it is spelled wrongly.
pub fn spelled_pattern(alloc: Global, bytes: &[u8]) -> Result<Option<Spelling>, AllocError>
    ensures { IfOk result (λ s. s ≡ pattern_of bytes.now) }
{
    let Some(_) = byte_of(b'^', bytes) else {
        return Ok(None);
    };
    spelled_name(alloc, bytes)
}
