// Names that have occurred.

ghost use Rattle.std.specs.Prelude.{◌≡◌, ◌||◌, ℕ, List, IfOk, OnOk, not, false, bytes_eq};
ghost use Rattle.mlk_routine.specs.Lines.{has_name};

use std::alloc::{AllocError, Global};
use std::collections::HashSet;

/// Names that have occurred, as slices of the text.
#[derive(Drop)]
pub(crate) struct SeenNames<'a> {
    texts: HashSet<&'a [u8]>,
}

impl<'a> SeenNames<'a> {
    /// No names.
    pub(crate) fn new(alloc: Global) -> SeenNames<'a>
        ensures { (q : List ℕ) → has_name q result.texts.keys ≡ false }
    {
        SeenNames {
            texts: HashSet::new(alloc),
        }
    }

    /// Whether `name` has occurred.
    pub(crate) fn has(&self, name: &[u8]) -> bool
        ensures { result ≡ has_name name.now self.now.texts.keys }
    {
        self.texts.contains(name)
    }

    /// Adds `name`, and returns whether it is new.
    pub(crate) fn add(&mut self, name: &'a [u8]) -> Result<bool, AllocError>
        ensures new { IfOk result (λ new. new ≡ not (has_name name.now self.old.texts.keys)) }
        ensures has { OnOk result ((q : List ℕ)
            → has_name q self.new.texts.keys ≡ (bytes_eq q name.now || has_name q self.old.texts.keys)) }
    {
        Ok(self.texts.insert(name)?)
    }
}
