// Lock terms: lock names as the text of a routine spells them.

ghost use Rattle.std.specs.Prelude.{◌↔◌, IsTrue, IsFalse, Contains};
ghost use Rattle.mlk_names.specs.declared.known_symbol.KnownSym.TheVariants.{Local};
ghost use Rattle.mlk_names.specs.Terms.{IsPrefix, Mentions, NamesAbove, NamesWithout};

use crate::known_symbol::KnownSym;
use crate::list::begins;
use mlk_text::{Name, Root, Subscripts};

/// The subscripts of a lock term, usually one or two.
pub type TermSubs = Subscripts<KnownSym, 2>;

/// A lock name whose subscripts are symbols, each of which denotes one value.
#[derive(Clone, Drop, PartialEq, Eq)]
pub struct LockTerm {
    pub root: Root,
    pub subs: TermSubs,
}

/// Whether `second` is `first` followed by any subscripts. Allocates nothing.
///
/// If so, `first` denotes a name at or above that of `second`, in each job at each moment.
pub fn prefix(first: &LockTerm, second: &LockTerm) -> bool
    ensures exact { IsTrue result ↔ IsPrefix first.now second.now }
    ensures above { IsTrue result → NamesAbove first.now second.now }
{
    first.root == second.root && begins(first.subs.as_slice(), second.subs.as_slice())
}

// Whether one of `symbols` is the local `name`.
fn has_local(symbols: &[KnownSym], name: &Name) -> bool
    ensures { IsTrue result ↔ Contains symbols.now (Local name.now) }
{
    symbols.iter().any(|symbol| matches!(symbol, KnownSym::Local(local) if *local == *name))
}

/// Whether a subscript of `term` is the local `name`; the root of `term` does not count. Allocates nothing.
///
/// If none is, `term` denotes the same name whatever value the local has.
pub fn mentions(term: &LockTerm, name: &Name) -> bool
    ensures exact { IsTrue result ↔ Mentions term.now name.now }
    ensures without { IsFalse result → NamesWithout term.now name.now }
{
    has_local(term.subs.as_slice(), name)
}
