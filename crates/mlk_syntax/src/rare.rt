// Optional items that are seldom present.

ghost use Rattle.std.specs.Prelude.{◌≡◌, IfOk, is_some, option_copied};

use std::alloc::{AllocError, Global};
use std::marker::Model;

/// An item that is usually absent. It takes no more room than a reference. A contract sees the optional item.
#[derive(Drop)]
pub struct Rare<T> {
    kept: Option<Box<T>>,
}

impl<T> Model for Rare<T> {
    ghost use Rattle.std.specs.Prelude.{Option, option_map};
    ghost use Rattle.std.specs.Coded.{coded_option};

    ghost Value = { Option T };

    ghost coded = { coded_option T.code };

    ghost view = { λ r. option_map (λ b. b.value) r.kept };
}

impl<T> Rare<T> {
    /// Stores `item`.
    pub fn of(alloc: Global, item: Option<T>) -> Result<Rare<T>, AllocError>
    where
        T: Drop,
        ensures { IfOk result (λ r. r ≡ item) }
    {
        let kept = match item {
            None => None,
            Some(item) => Some(Box::new(alloc, item)?),
        };
        Ok(Rare { kept })
    }

    /// A reference to the item, or `None` if there is none.
    pub fn as_ref(&self) -> Option<&T>
        ensures { option_copied result ≡ self.now }
    {
        match &self.kept {
            None => None,
            Some(kept) => Some(kept),
        }
    }

    /// Whether there is an item.
    pub fn is_some(&self) -> bool
        ensures { result ≡ is_some self.now }
    {
        self.kept.is_some()
    }
}
