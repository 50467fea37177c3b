// Indexes of names.

ghost use Rattle.std.specs.Prelude.{◌≡◌, ◌∷◌, ◌++◌, [], OnOk, IfOk, option_map};
ghost use Rattle.mlk_program.specs.Tables.{first_with, SameFirst, one_at, IsTableOf};

use indexmap::IndexMap;
use mlk_syntax::{Line, Routine};
use std::alloc::{AllocError, Global};
use std::marker::Model;

/// An item that may have a name.
pub(crate) trait Labelled {
    ghost use Rattle.std.specs.Prelude.{◌≡◌, List, ℕ, Option, option_map};

    ghost label: { Self → Option (List ℕ) };

    fn label(&self) -> Option<&[u8]>
        ensures { option_map (λ b. b.now) result ≡ label self.now };
}

impl Labelled for Routine {
    ghost use Rattle.std.specs.Prelude.{Some};

    ghost label = { λ r. Some r.name };

    fn label(&self) -> Option<&[u8]> {
        Some(self.name.as_bytes())
    }
}

impl Labelled for Line {
    ghost use Rattle.mlk_syntax.specs.Views.{line_of};
    ghost use Rattle.mlk_program.specs.Entries.{label_of};

    ghost label = { λ l. label_of (line_of l).0 };

    fn label(&self) -> Option<&[u8]> {
        match self.label.as_ref() {
            None => None,
            Some(label) => Some(label.as_bytes()),
        }
    }
}

/// Names, each with the index of the first item that has it.
#[derive(Drop)]
pub(crate) struct NamePlaces<'a> {
    places: IndexMap<&'a [u8], usize>,
}

impl<'a> Model for NamePlaces<'a> {
    ghost use Rattle.std.specs.Prelude.{List, ℕ, map};

    ghost Value = { List (List ℕ × ℕ) };

    ghost view = { λ t. map (λ p. (p.0.now, p.1)) t.places.entries };
}

impl<'a> NamePlaces<'a> {
    fn new(alloc: Global) -> NamePlaces<'a>
        ensures { result ≡ [] }
    {
        NamePlaces {
            places: IndexMap::new(alloc),
        }
    }

    /// The index of the first item with `name`, or `None`. Allocates nothing.
    pub(crate) fn place(&self, name: &[u8]) -> Option<usize>
        ensures { result ≡ first_with name.now self.now }
    {
        self.places.get(name).copied()
    }

    // Appends `name`, unless it is there.
    fn add(&mut self, name: &'a [u8], place: usize) -> Result<(), AllocError>
        ensures { OnOk result (SameFirst self.new (self.old ++ (name.now, place) ∷ [])) }
    {
        if self.places.contains_key(name) {
            return Ok(());
        }
        let Ok(_) = self.places.insert(name, place) else {
            return Err(AllocError);
        };
        Ok(())
    }

    // Appends the name of `item`, if it has one.
    fn add_label<T: Labelled>(&mut self, item: &'a T, place: usize) -> Result<(), AllocError>
        ensures { OnOk result (SameFirst self.new (self.old ++ one_at place (T.label item.now))) }
    {
        match item.label() {
            None => Ok(()),
            Some(name) => self.add(name, place),
        }
    }

    /// The index of `items`.
    pub(crate) fn of<T: Labelled>(
        alloc: Global,
        items: &'a [T],
    ) -> Result<NamePlaces<'a>, AllocError>
        ensures { IfOk result (IsTableOf T.label items.now) }
    {
        let mut table = NamePlaces::new(alloc);
        for (i, item) in items.iter().enumerate() {
            table.add_label(item, i)?;
        }
        Ok(table)
    }
}
