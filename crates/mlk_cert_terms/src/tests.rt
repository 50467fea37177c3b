// A table that has `^LOG` before `^ACCT(ID)`, and a case that holds both.

ghost use Rattle.std.specs.Prelude.{◌≡◌, true, IfOk};
ghost use Rattle.mlk_cert_lexemes.specs.Lists.{ascends};
ghost use Rattle.mlk_cert_lexemes.specs.Kinds.{terms_upto};
ghost use Rattle.mlk_cert_terms.specs.Examples.{account, log};
ghost use Rattle.mlk_cert_terms.specs.Numbered.{AreNumbers};

use crate::{NumCase, TermTable, case_of};
use mlk_cert_lexemes::WrittenText;
use mlk_cert_parts::{Case, Shared, Test, push_case};
use mlk_names::{KnownSym, LockTerm};
use mlk_text::{Name, Root, Subscripts};
use std::alloc::{AllocError, Global};
use std::test::Fail;

fn log(alloc: Global) -> Result<LockTerm, AllocError>
    ensures { IfOk result (λ t. t ≡ log) }
{
    Ok(LockTerm {
        root: Root::Global(Name::of(alloc, b"LOG")?),
        subs: Subscripts::new(alloc),
    })
}

fn account(alloc: Global) -> Result<LockTerm, AllocError>
    ensures { IfOk result (λ t. t ≡ account) }
{
    let mut subs = Subscripts::new(alloc);
    subs.push(KnownSym::Local(Name::of(alloc, b"ID")?))?;
    Ok(LockTerm {
        root: Root::Global(Name::of(alloc, b"ACCT")?),
        subs,
    })
}

fn holding(alloc: Global, held: Vec<LockTerm>) -> Result<Case, AllocError>
    ensures { IfOk result (λ c. c.held ≡ held.items) }
{
    Ok(Case {
        test: Test::Any,
        saved: Shared::new(alloc, Vec::new(alloc))?,
        held: Shared::new(alloc, held)?,
        own: Shared::new(alloc, Vec::new(alloc))?,
        kept: Shared::new(alloc, Vec::new(alloc))?,
    })
}

// A case that holds `^LOG`.
fn one_held(alloc: Global) -> Result<Case, AllocError>
    ensures { IfOk result (λ c. ascends terms_upto c.held ≡ true) }
{
    let mut held = Vec::new(alloc);
    held.push(log(alloc)?)?;
    holding(alloc, held)
}

// A case that holds both.
fn both_held(alloc: Global) -> Result<Case, AllocError>
    ensures { IfOk result (λ c. ascends terms_upto c.held ≡ true) }
{
    let mut held = Vec::new(alloc);
    held.push(account(alloc)?)?;
    held.push(log(alloc)?)?;
    holding(alloc, held)
}

fn shows(alloc: Global, table: &TermTable, numbers: &NumCase) -> Result<bool, AllocError>
    requires { AreNumbers table.now numbers.now.held }
{
    let case = case_of(alloc, table, numbers)?;
    let mut text = WrittenText::new(alloc);
    push_case(&mut text, &case)?;
    Ok(text.as_bytes() == b"T=* H=^ACCT(ID);^LOG O=- K=- S=-".as_slice())
}

// Whether both have their numbers, and the case of these has both in the order of their texts.
fn are_numbered(alloc: Global) -> Result<bool, AllocError> {
    let mut table = TermTable::new(alloc);
    let one = table.num_case(alloc, &one_held(alloc)?)?;
    let both = table.num_case(alloc, &both_held(alloc)?)?;
    let copy = table.copy()?;
    let right = one.held.as_slice() == [0].as_slice()
        && both.held.as_slice() == [0, 1].as_slice()
        && copy.len() == 2;
    Ok(right && shows(alloc, &copy, &both)?)
}

#[test]
fn terms_are_in_the_order_of_their_texts(rt: HostRuntime) {
    assert!(rt; matches!(are_numbered(rt.alloc()), Ok(true)));
}
