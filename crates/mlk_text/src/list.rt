// Lists of any elements.

ghost use Rattle.std.specs.Prelude.{◌≡◌, ◌↔◌, ◌<◌, ◌∷◌, ◌++◌, [], IsSome, OnOk, OnErr, length, take, option_to_list, vec_len, vec_capacity};
ghost use Rattle.std.specs.Cmp.Lexicographic.{pointwise};

use std::alloc::{AllocError, Global};
use std::marker::Model;

/// A list. A contract sees the list of its elements.
#[derive(Drop, Clone)]
pub struct List<T> {
    items: Vec<T>,
}

impl<T> Model for List<T> {
    ghost use Rattle.std.specs.Prelude.{List as Elements};
    ghost use Rattle.std.specs.Coded.{coded_list};

    ghost Value = { Elements T };

    ghost coded = { coded_list T.code };

    ghost view = { λ l. l.items.items };
}

impl<T> List<T> {
    /// An empty list.
    pub fn new(alloc: Global) -> List<T>
        ensures { result ≡ [] }
    {
        List {
            items: Vec::new(alloc),
        }
    }

    /// The elements as a slice.
    pub fn as_slice(&self) -> &[T]
        ensures { result.now ≡ self.now }
    {
        self.items.as_slice()
    }

    /// The number of elements.
    pub fn len(&self) -> usize
        ensures { result ≡ length self.now }
    {
        self.items.len()
    }

    /// Removes the last element and returns it, or `None` if the list is empty. The capacity is kept.
    pub fn pop(&mut self) -> Option<T>
        ensures items { self.old ≡ self.new ++ option_to_list result }
        ensures variant { IsSome result ↔ (0 < length self.old) }
    {
        self.items.pop()
    }

    /// Keeps the first `count` elements, or all if there are fewer. The capacity is kept.
    pub fn truncate(&mut self, count: usize)
    where
        T: Drop,
        ensures { self.new ≡ take count self.old }
    {
        self.items.truncate(count);
    }

    /// The elements as a vector.
    pub fn into_vec(self) -> Vec<T>
        ensures { result.items ≡ self }
    {
        let List { items } = self;
        items
    }

    /// Appends `item`.
    #[inline(always)]
    pub fn push(&mut self, item: T) -> Result<(), AllocError>
    where
        T: Drop,
        ensures ok { OnOk result (self.new ≡ self.old ++ item ∷ []) }
        ensures err { OnErr result (self.new ≡ self.old) }
    {
        self.items.reserve(1)?;
        self.items.push_reserved(item);
        Ok(())
    }
}

impl<T: Drop> List<T> {
    /// Appends `item` to a list that usually stays short: see the function `push_sparing`.
    pub fn push_sparing(&mut self, item: T) -> Result<(), AllocError>
        ensures { OnOk result (self.new ≡ self.old ++ item ∷ []) }
    {
        push_sparing(&mut self.items, item)
    }
}

impl<T> List<T> {
    /// The list of the elements of `items`.
    pub fn of(items: Vec<T>) -> List<T>
        ensures { result ≡ items.items }
    {
        List { items }
    }
}

/// Whether `items` and `others` are equal element by element.
pub fn are_equal<T: PartialEq>(items: &[T], others: &[T]) -> bool
    ensures { result ≡ pointwise T.eq items.now others.now }
{
    let mut left = items;
    let mut left_others = others;
    while let Some((item, rest)) = left.split_first() {
        let Some((other, rest_others)) = left_others.split_first() else {
            return false;
        };
        if *item != *other {
            return false;
        }
        left = rest;
        left_others = rest_others;
    }
    left_others.is_empty()
}

/// Reserves room for one more item: for exactly one in an empty list, and for as many as there are in a full one, since most
/// lists of a routine have one or two items.
#[inline(always)]
pub fn make_room<T: Drop>(items: &mut Vec<T>) -> Result<(), AllocError>
    ensures same { OnOk result (items.new.items ≡ items.old.items) }
    ensures room { OnOk result (vec_len items.new < vec_capacity items.new) }
{
    if items.len() == items.capacity() {
        items.reserve_exact(items.len().max(1))?;
    }
    Ok(())
}

/// Appends `item` with the room that `make_room` reserves. A reader calls `make_room` before it reads the item, so that
/// nothing that was read has to be dropped if memory runs out.
#[inline(always)]
pub fn push_sparing<T: Drop>(items: &mut Vec<T>, item: T) -> Result<(), AllocError>
    ensures { OnOk result (items.new.items ≡ items.old.items ++ item ∷ []) }
{
    make_room(items)?;
    items.push_reserved(item);
    Ok(())
}

// How many bytes are looked at to guess the length of a list.
const MOST_LOOKED_AT: usize = 128;

/// A guess of the number of items of a list, where `bytes` are those from its first item on or after it, `between` separates
/// items and `end` follows the last. With it, most lists of a text are allocated in their final size. A wrong guess costs
/// little.
pub fn likely_length(between: u8, end: u8, bytes: &[u8]) -> usize {
    bytes
        .iter()
        .take(MOST_LOOKED_AT)
        .take_while(|b| **b != end)
        .filter(|b| **b == between)
        .count()
        .saturating_add(1)
}

impl<T> From<Vec<T>> for List<T> {
    ghost from_gives = { λ v l. l ≡ v.items };

    fn from(items: Vec<T>) -> List<T> {
        List { items }
    }
}

impl<T: PartialEq> PartialEq for List<T> {
    ghost use Rattle.std.specs.Cmp.Lexicographic.{pointwise, lists_per};

    ghost eq = { pointwise T.eq };

    ghost laws = { lists_per T.laws };

    fn eq(&self, other: &List<T>) -> bool {
        are_equal(self.as_slice(), other.as_slice())
    }
}

impl<T: Eq> Eq for List<T> {
    ghost use Rattle.std.specs.Cmp.Lexicographic.{lists_equiv};

    ghost laws = { lists_equiv T.Eq.laws };
}
