// Terms of a callee, translated for its caller.

ghost use Rattle.std.specs.Prelude.{◌≡◌, IfOk, IfSome, position, slice_get, bytes_eq};
ghost use Rattle.mlk_names.specs.Symbols.{known_of};
ghost use Rattle.mlk_names.specs.Actuals.{passed, put_in, Puts, PutsIn, NamesAlike};

use crate::known_symbol::KnownSym;
use crate::symbol::Sym;
use crate::term::{LockTerm, TermSubs};
use mlk_text::{Name, Subscripts, copy_of};
use std::alloc::{AllocError, Global};

// The symbol that was passed at `place`, or `None` if it is not known.
fn known_at(actuals: &[Option<Sym>], place: usize) -> Result<Option<KnownSym>, AllocError>
    ensures { IfOk result (λ found. found ≡ known_of (passed (slice_get actuals.now place))) }
{
    match actuals.get(place) {
        Some(Some(symbol)) => symbol.to_known(),
        _ => Ok(None),
    }
}

// The index of the formal `name`, or `None` if there is none.
fn place_of(name: &Name, formals: &[Name]) -> Option<usize>
    ensures { result ≡ position (λ formal. bytes_eq formal name.now) formals.now }
{
    formals.iter().position(|formal| *formal == *name)
}

// The caller's symbol for `symbol`, or `None` if it is not known.
fn put_in_one(
    symbol: &KnownSym,
    formals: &[Name],
    actuals: &[Option<Sym>],
) -> Result<Option<KnownSym>, AllocError>
    ensures { IfOk result (λ found. found ≡ known_of (put_in formals.now actuals.now symbol.now)) }
{
    if let KnownSym::Local(name) = symbol {
        if let Some(place) = place_of(name, formals) {
            return known_at(actuals, place);
        }
    }
    Ok(Some(symbol.clone()?))
}

fn put_in_all(
    alloc: Global,
    symbols: &[KnownSym],
    formals: &[Name],
    actuals: &[Option<Sym>],
) -> Result<Option<TermSubs>, AllocError>
    ensures { IfOk result (λ found. Puts formals.now actuals.now symbols.now found) }
{
    let mut found = Subscripts::new(alloc);
    for symbol in symbols {
        let Some(item) = put_in_one(symbol, formals, actuals)? else {
            return Ok(None);
        };
        found.push(item)?;
    }
    Ok(Some(found))
}

/// Translates the callee's `term` for its caller: each formal is replaced by the actual at its place. An actual that is
/// missing or past the end of the list is unknown. `None` if a subscript would become unknown.
///
/// When the call begins and when it ends, both terms denote the same name, provided that the locals which the callee's term
/// mentions then have the values that were passed for them.
pub fn substitute(
    alloc: Global,
    term: &LockTerm,
    formals: &[Name],
    actuals: &[Option<Sym>],
) -> Result<Option<LockTerm>, AllocError>
    ensures exact { IfOk result (λ found. PutsIn formals.now actuals.now term.now found) }
    ensures alike { IfOk result (λ found. IfSome found (NamesAlike formals.now actuals.now term.now)) }
{
    let Some(subs) = put_in_all(alloc, term.subs.as_slice(), formals, actuals)? else {
        return Ok(None);
    };
    let root = copy_of(&term.root)?;
    Ok(Some(LockTerm { root, subs }))
}
