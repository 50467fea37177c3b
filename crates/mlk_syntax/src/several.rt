// One or more items.

ghost use Rattle.std.specs.Prelude.{◌≡◌, ◌∷◌, []};

use std::marker::Model;

// The storage of the items: a single one is stored inline.
#[derive(Drop)]
pub(crate) enum OneOrMore<T> {
    One([T; 1]),
    More(Vec<T>),
}

/// One or more items. A single one, which is the usual case, needs no memory beside the list itself. A contract sees the list.
#[derive(Drop)]
pub struct Several<T> {
    items: OneOrMore<T>,
}

impl<T> Model for Several<T> {
    ghost use Rattle.std.specs.Prelude.{List};
    ghost use Rattle.std.specs.Coded.{coded_list};
    ghost use Rattle.mlk_syntax.specs.Several.{items_of};

    ghost Value = { List T };

    ghost coded = { coded_list T.code };

    ghost view = { λ s. items_of s.items };
}

impl<T> Several<T> {
    /// A list of the single item `item`.
    pub fn one(item: T) -> Several<T>
        ensures { result ≡ item ∷ [] }
    {
        Several {
            items: OneOrMore::One([item]),
        }
    }

    /// The list of the items `items`.
    pub fn of(items: Vec<T>) -> Several<T>
        ensures { result ≡ items.items }
    {
        Several {
            items: OneOrMore::More(items),
        }
    }

    /// The items as a slice.
    pub fn as_slice(&self) -> &[T]
        ensures { result.now ≡ self.now }
    {
        match &self.items {
            OneOrMore::One(item) => item.as_slice(),
            OneOrMore::More(items) => items.as_slice(),
        }
    }
}
