// Lock names, and which of them conflict.

ghost use Rattle.std.specs.Prelude.{◌↔◌, IsTrue};
ghost use Rattle.mlk_names.specs.LockNames.{IsAbove, Conflict};

use crate::list::begins;
use mlk_text::{Root, Subscripts, Value};

/// A lock name, whose subscripts are values.
#[derive(Clone, Drop, PartialEq, Eq)]
pub struct LockName {
    pub root: Root,
    pub subs: Subscripts<Value, 4>,
}

impl LockName {
    /// Whether `self` is `other` or above it. Allocates nothing.
    pub fn is_above(&self, other: &LockName) -> bool
        ensures { IsTrue result ↔ IsAbove self.now other.now }
    {
        self.root == other.root && begins(self.subs.as_slice(), other.subs.as_slice())
    }
}

/// Whether one of the two names is the other or above it: two jobs never hold both. Allocates nothing.
pub fn conflict(first: &LockName, second: &LockName) -> bool
    ensures { IsTrue result ↔ Conflict first.now second.now }
{
    first.is_above(second) || second.is_above(first)
}
