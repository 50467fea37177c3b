// Locks as the text of a routine names them.

use mlk_names::{KnownSym, LockTerm, TermSubs};
use mlk_program::EntryId;
use mlk_syntax::{Expr, Special, Subscript, Variable};
use mlk_text::{Root, Subscripts};
use std::alloc::{AllocError, Global};

/// A lock that a fault is about.
#[derive(Drop)]
pub(crate) struct FaultyLock {
    /// the entry in whose terms it is
    pub(crate) entry: EntryId,
    pub(crate) term: LockTerm,
    /// whether subscripts are left out that the text does not show
    pub(crate) is_cut: bool,
    /// whether it is released there, and not held
    pub(crate) is_released: bool,
}

// The value of a subscript, as far as the text shows it.
fn symbol_of(subscript: &Subscript) -> Result<Option<KnownSym>, AllocError> {
    match &subscript.value {
        Expr::Lit(value) => Ok(Some(KnownSym::Const(value.copy()?))),
        Expr::Local(name, subscripts) if subscripts.is_empty() => {
            Ok(Some(KnownSym::Local(name.copy()?)))
        }
        Expr::Special(Special::Job) => Ok(Some(KnownSym::Job)),
        _ => Ok(None),
    }
}

// The subscripts up to the first that the text does not show.
fn shown_subscripts(alloc: Global, subscripts: &[Subscript]) -> Result<TermSubs, AllocError> {
    let mut shown = Subscripts::new(alloc);
    for subscript in subscripts {
        match symbol_of(subscript)? {
            Some(symbol) => shown.push(symbol)?,
            None => return Ok(shown),
        }
    }
    Ok(shown)
}

fn lock_of(
    alloc: Global,
    entry: EntryId,
    root: Root,
    subscripts: &[Subscript],
) -> Result<FaultyLock, AllocError> {
    let subs = shown_subscripts(alloc, subscripts)?;
    let is_cut = subs.as_slice().len() < subscripts.len();
    Ok(FaultyLock {
        entry,
        term: LockTerm { root, subs },
        is_cut,
        is_released: false,
    })
}

/// The lock that a name in a LOCK of `entry` means; `None` if it is no name.
pub(crate) fn named_lock(
    alloc: Global,
    entry: EntryId,
    variable: &Variable,
) -> Result<Option<FaultyLock>, AllocError> {
    let (root, subscripts) = match &variable.name {
        Expr::Global(_, name, subscripts) => (Root::Global(name.copy()?), subscripts),
        Expr::Local(name, subscripts) => (Root::Local(name.copy()?), subscripts),
        _ => return Ok(None),
    };
    Ok(Some(lock_of(alloc, entry, root, subscripts.as_slice())?))
}
