// Touches as references, as far as the text shows.

use mlk_names::{Access, Reference, ReferenceSubs, Sym};
use mlk_survey_trees::{Touch, Usage};
use mlk_syntax::{Expr, Special};
use std::alloc::{AllocError, Global};

// What the text says of a subscript: a constant, the job's number, or nothing.
fn symbol_of(subscript: &Expr) -> Result<Sym, AllocError> {
    match subscript {
        Expr::Lit(value) => Ok(Sym::Const(value.clone()?)),
        Expr::Special(Special::Job) => Ok(Sym::Job),
        _ => Ok(Sym::Unknown),
    }
}

/// Whether a use reads or writes.
pub(crate) fn access_of(usage: Usage) -> Access {
    match usage {
        Usage::Read => Access::Reads,
        Usage::Write | Usage::Kill => Access::Writes,
    }
}

/// The reference of `touch`: each subscript that is no constant and not `$JOB` may have any value.
pub(crate) fn reference_of(alloc: Global, touch: &Touch<'_>) -> Result<Reference, AllocError> {
    let mut subs = ReferenceSubs::new(alloc);
    for subscript in touch.subscripts {
        subs.push(symbol_of(&subscript.value)?)?;
    }
    Ok(Reference {
        root: touch.global.clone()?,
        subs,
        extent: touch.extent,
        access: access_of(touch.usage),
    })
}
