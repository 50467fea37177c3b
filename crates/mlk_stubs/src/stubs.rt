// The stubs that routines need.

ghost use Rattle.std.specs.Prelude.{IfOk};
ghost use Rattle.mlk_stubs.specs.StubTexts.{AreStubs};

use crate::collection::collection_of;
use crate::draft::{Draft, drafts_of};
use crate::scope::{Scope, Wanted};
use crate::stub_text::StubText;
use mlk_dialect::Dialect;
use mlk_routine::read_routine;
use mlk_suggest_read::{PartlyRead, RoutineText, read_partly};
use mlk_text::{Failure, Fault, Name, push_sparing};
use std::alloc::{AllocError, Global};

// The texts of stubs, which are read back.
fn checked_texts(alloc: Global, drafts: &[Draft<'_>]) -> Result<StubText, Failure<Fault>>
    ensures { IfOk result (λ text. AreStubs text) }
{
    let mut text = StubText::new(alloc);
    for draft in drafts {
        text.push(alloc, draft.routine, draft.text.as_slice())?;
    }
    Ok(text)
}

// The stubs in `scope`.
fn stubs_in<'a>(
    alloc: Global,
    read: &'a PartlyRead,
    scope: &Scope<'a>,
) -> Result<StubText, Failure<Fault>>
    ensures { IfOk result (λ text. AreStubs text) }
{
    let collection = collection_of(alloc, read, scope)?;
    let drafts = drafts_of(alloc, &collection)?;
    checked_texts(alloc, drafts.as_slice())
}

// The names of the routines in files with these names, without their endings.
fn names_of(alloc: Global, stems: &[&str]) -> Result<Vec<Name>, Failure<Fault>> {
    let mut names = Vec::with_capacity(alloc, stems.len())?;
    for stem in stems {
        let routine = read_routine(alloc, Dialect::Standard, stem.as_bytes(), b"")?;
        push_sparing(&mut names, routine.name)?;
    }
    Ok(names)
}

// The stubs of the routines in files with these names, without their endings.
fn named_stubs(alloc: Global, read: &PartlyRead, stems: &[&str]) -> Result<StubText, Failure<Fault>>
    ensures { IfOk result (λ text. AreStubs text) }
{
    let names = names_of(alloc, stems)?;
    let scope = Scope::named(alloc, names.as_slice())?;
    stubs_in(alloc, read, &scope)
}

// The stubs of the routines that `wanted` asks for, for the routines that were read.
fn wanted_stubs(
    alloc: Global,
    read: &PartlyRead,
    wanted: Wanted<'_>,
) -> Result<StubText, Failure<Fault>>
    ensures { IfOk result (λ text. AreStubs text) }
{
    match wanted {
        Wanted::Missing => {
            let scope = Scope::missing(alloc, read)?;
            stubs_in(alloc, read, &scope)
        }
        Wanted::MissingAndUnread => {
            let scope = Scope::missing_and_unread(alloc, read)?;
            stubs_in(alloc, read, &scope)
        }
        Wanted::Named(stems) => named_stubs(alloc, read, stems),
    }
}

/// The stubs of the routines that `wanted` asks for, for the calls in the routines of `sources`. Lines are cut before the first
/// part that can't be read. Refuses a name of `wanted` that is no routine's name, and a stub that is past the limits of a routine.
pub fn stubs_for(
    alloc: Global,
    sources: &[RoutineText<'_>],
    wanted: Wanted<'_>,
) -> Result<StubText, Failure<Fault>>
    ensures { IfOk result (λ text. AreStubs text) }
{
    let read = read_partly(alloc, sources)?;
    wanted_stubs(alloc, &read, wanted)
}
