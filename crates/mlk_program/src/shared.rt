// Names that calls share.

ghost use Rattle.std.specs.Prelude.{◌≡◌, ◌∷◌, [], OnOk, bytes_eq, flat_map, zip, option_copied};
ghost use Rattle.std.specs.List.{list_any};
ghost use Rattle.mlk_syntax.specs.ExprTrees.{actual_of, actual_trees};
ghost use Rattle.mlk_program.specs.Program.{lent_by, received_by, received_at};
ghost use Rattle.mlk_program.specs.Linking.{Gains};

use crate::directory::item;
use indexmap::IndexSet;
use mlk_syntax::Actual;
use mlk_text::Name;
use std::alloc::{AllocError, Global};
use std::marker::Model;

/// Names that some call passes by reference, and formals that receive one.
#[derive(Drop)]
pub(crate) struct SharedNames<'a> {
    names: IndexSet<&'a [u8]>,
}

impl<'a> Model for SharedNames<'a> {
    ghost use Rattle.std.specs.Prelude.{List, ℕ, map};

    ghost Value = { List (List ℕ) };

    ghost view = { λ s. map (λ k. k.now) s.names.keys };
}

impl<'a> SharedNames<'a> {
    pub(crate) fn new(alloc: Global) -> SharedNames<'a>
        ensures { result ≡ [] }
    {
        SharedNames {
            names: IndexSet::new(alloc),
        }
    }

    /// Whether `name` is one of them. Allocates nothing.
    pub(crate) fn has(&self, name: &[u8]) -> bool
        ensures { result ≡ list_any (bytes_eq name.now) self.now }
    {
        !self.names.is_empty() && self.names.contains(name)
    }

    fn add(&mut self, name: &'a [u8]) -> Result<(), AllocError>
        ensures { OnOk result (Gains (name.now ∷ []) self.old self.new) }
    {
        let Ok(_) = self.names.insert(name) else {
            return Err(AllocError);
        };
        Ok(())
    }

    fn add_lent_by(&mut self, actual: &'a Actual) -> Result<(), AllocError>
        ensures { OnOk result (Gains (lent_by (actual_of actual.now)) self.old self.new) }
    {
        match actual {
            Actual::ByRef(_, name) => self.add(name.as_bytes()),
            Actual::Value(_) | Actual::Missing => Ok(()),
        }
    }

    fn add_received_at(
        &mut self,
        formal: Option<&'a Name>,
        actual: &Actual,
    ) -> Result<(), AllocError>
        ensures { OnOk result (Gains (received_at (option_copied formal.entry) (actual_of actual.now))
            self.old self.new) }
    {
        match (formal, actual) {
            (Some(formal), Actual::ByRef(_, _)) => self.add(formal.as_bytes()),
            _ => Ok(()),
        }
    }

    /// Adds the names that an actual list passes by reference.
    pub(crate) fn add_lent(&mut self, given: &'a [Actual]) -> Result<(), AllocError>
        ensures { OnOk result (Gains (flat_map lent_by (actual_trees given.now)) self.old self.new) }
    {
        for actual in given {
            self.add_lent_by(actual)?;
        }
        Ok(())
    }

    /// Adds the formals that receive a name.
    pub(crate) fn add_received(
        &mut self,
        formals: &'a [Name],
        given: &[Actual],
    ) -> Result<(), AllocError>
        ensures { OnOk result (Gains (flat_map received_by (zip formals.now (actual_trees given.now)))
            self.old self.new) }
    {
        for (i, actual) in given.iter().enumerate() {
            self.add_received_at(item(formals, i), actual)?;
        }
        Ok(())
    }
}
