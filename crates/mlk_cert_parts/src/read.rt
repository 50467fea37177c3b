// The readers of sets of names and of own names.

ghost use Rattle.std.specs.Prelude.{◌≡◌, ◌∷◌, IfOk};
ghost use Rattle.mlk_text.specs.Failures.{Reads};
ghost use Rattle.mlk_cert_lexemes.specs.Lists.{ascends, below};
ghost use Rattle.mlk_cert_parts.specs.Checks.{ascends_inside, ascend_inside, ascend_inside_own};
ghost use Rattle.mlk_text.specs.Lexemes.{byte_at};
ghost use Rattle.mlk_cert_parts.specs.Reading.{inside_by, names_at, own_at};

use crate::limit::DEEPEST_LEVEL;
use crate::names::{NameSet, Own};
use mlk_cert_lexemes::{Item, is_below, items, positive_number};
use mlk_text::lexeme::byte_of;
use mlk_text::spelling::name;
use mlk_text::{Failure, List, Name, NotThere};
use std::alloc::Global;

// Reads the names inside the parentheses, as the set of all others.
fn all_but(alloc: Global, bytes: &[u8]) -> Result<(NameSet, &[u8]), Failure<NotThere>>
    ensures { Reads (λ x. (x.0, x.1.now)) result (inside_by bytes.now (byte_at 41 bytes.now)) }
{
    if let Some(rest) = byte_of(b')', bytes) {
        return Ok((NameSet::AllBut(List::new(alloc)), rest));
    }
    let (names, _, rest) = items::<Name>(alloc, b',', bytes)?;
    let Some(rest) = byte_of(b')', rest) else {
        return Err(Failure::Refused(NotThere));
    };
    Ok((NameSet::AllBut(List::of(names)), rest))
}

#[tactic(auto, unfolding(crate::specs::Reading::names_at))]
fn name_set(alloc: Global, bytes: &[u8]) -> Result<(NameSet, &[u8]), Failure<NotThere>>
    ensures { Reads (λ x. (x.0, x.1.now)) result (names_at bytes.now) }
{
    let Some(rest) = byte_of(b'~', bytes) else {
        let (one, rest) = name(alloc, bytes)?;
        return Ok((NameSet::Only(one), rest));
    };
    let Some(rest) = byte_of(b'(', rest) else {
        return Err(Failure::Refused(NotThere));
    };
    let (names, rest) = all_but(alloc, rest)?;
    Ok((names, rest))
}

impl Item for NameSet {
    ghost use Rattle.mlk_cert_parts.specs.Limits.{names_below};
    ghost use Rattle.mlk_cert_parts.specs.Reading.{names_at};

    ghost reads = { names_at };

    ghost before = { names_below };

    fn read(alloc: Global, bytes: &[u8]) -> Result<(NameSet, &[u8]), Failure<NotThere>> {
        name_set(alloc, bytes)
    }

    fn is_before(&self, text: &[u8], _next: &NameSet, next_text: &[u8]) -> bool {
        is_below(text, next_text)
    }
}

#[tactic(auto, unfolding(crate::specs::Reading::own_at))]
fn own_name(alloc: Global, bytes: &[u8]) -> Result<(Own, &[u8]), Failure<NotThere>>
    ensures { Reads (λ x. (x.0, x.1.now)) result (own_at bytes.now) }
{
    let Some((level, rest)) = positive_number(DEEPEST_LEVEL, bytes) else {
        return Err(Failure::Refused(NotThere));
    };
    let Some(rest) = byte_of(b':', rest) else {
        return Err(Failure::Refused(NotThere));
    };
    let (names, rest) = name_set(alloc, rest)?;
    Ok((Own { level, names }, rest))
}

impl Item for Own {
    ghost use Rattle.mlk_cert_parts.specs.Limits.{own_below};
    ghost use Rattle.mlk_cert_parts.specs.Reading.{own_at};

    ghost reads = { own_at };

    ghost before = { own_below };

    fn read(alloc: Global, bytes: &[u8]) -> Result<(Own, &[u8]), Failure<NotThere>> {
        own_name(alloc, bytes)
    }

    fn is_before(&self, text: &[u8], next: &Own, next_text: &[u8]) -> bool {
        if self.level == next.level {
            return is_below(text, next_text);
        }
        self.level < next.level
    }
}

// Whether `names` ascend without duplicates.
fn names_ascend(names: &[Name]) -> bool
    ensures { result ≡ ascends below names.now }
{
    let Some((first, others)) = names.split_first() else {
        return true;
    };
    let mut last = first;
    for name in others {
        if !is_below(last.as_bytes(), name.as_bytes()) {
            return false;
        }
        last = name;
    }
    true
}

fn ascends_inside(names: &NameSet) -> bool
    ensures { result ≡ ascends_inside names.now }
{
    match names {
        NameSet::Only(_) => true,
        NameSet::AllBut(names) => names_ascend(names.as_slice()),
    }
}

/// Whether the names in each set ascend.
pub fn ascend_inside(sets: &[NameSet]) -> bool
    ensures { result ≡ ascend_inside sets.now }
{
    for names in sets {
        if !ascends_inside(names) {
            return false;
        }
    }
    true
}

/// Whether the names in each item of own names ascend.
pub fn ascend_inside_own(own: &[Own]) -> bool
    ensures { result ≡ ascend_inside_own own.now }
{
    for item in own {
        if !ascends_inside(&item.names) {
            return false;
        }
    }
    true
}
