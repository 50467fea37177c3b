// Cases with numbers in place of terms.

ghost use Rattle.std.specs.Prelude.{◌≡◌, IfOk, OnOk};
ghost use Rattle.std.specs.List.{insert};
ghost use Rattle.mlk_cert_parts.specs.TermOrder.{terms_before};
ghost use Rattle.mlk_cert_terms.specs.Numbered.{AreNumbers, AreTermsOf, IsNumbered};

use crate::table::TermTable;
use mlk_cert_parts::{Case, Own, Shared, Test, place_of_term};
use mlk_names::LockTerm;
use mlk_text::{Name, copy_of};
use std::alloc::{AllocError, Global};

/// A case whose held locks are numbers of a table.
#[derive(Drop, PartialEq, Eq)]
pub struct NumCase {
    pub test: Test,
    /// What is said of the `$TEST` of each open block, the outermost first.
    pub saved: Shared<Test>,
    /// The numbers of the locks that this call holds, ascending; each as often as the call holds the lock.
    pub held: Shared<usize>,
    /// The names that NEW has made own since the call began, and that still are.
    pub own: Shared<Own>,
    /// The names that have the values of the call's begin.
    pub kept: Shared<Name>,
}

// Adds a term at its place.
fn put(alloc: Global, terms: &mut Vec<LockTerm>, term: LockTerm) -> Result<(), AllocError>
    ensures { OnOk result (terms.new.items ≡ insert terms.old.items (terms_before terms.old.items term) term) }
{
    let place = place_of_term(alloc, terms.as_slice(), &term)?;
    terms.insert(place, term)?;
    Ok(())
}

// The terms with these numbers, in the order of their texts.
fn terms_of(
    alloc: Global,
    table: &TermTable,
    numbers: &[usize],
) -> Result<Vec<LockTerm>, AllocError>
    ensures { IfOk result (λ v. AreTermsOf table.now numbers.now v.items) }
{
    let mut terms = Vec::with_capacity(alloc, numbers.len())?;
    let mut left = numbers;
    while let Some((number, others)) = left.split_first() {
        if let Some(term) = table.term(*number) {
            put(alloc, &mut terms, copy_of(term)?)?;
        }
        left = others;
    }
    Ok(terms)
}

/// The case with the terms of its numbers, in the order of their texts.
///
/// The table has the numbers, and they ascend, as those do that `num_case` gave, even after the table grew.
pub fn case_of(alloc: Global, table: &TermTable, case: &NumCase) -> Result<Case, AllocError>
    requires { AreNumbers table.now case.now.held }
    ensures { IfOk result (λ c. IsNumbered table.now case.now c) }
{
    let held = terms_of(alloc, table, case.held.as_slice())?;
    Ok(Case {
        test: case.test,
        saved: case.saved.clone()?,
        held: Shared::new(alloc, held)?,
        own: case.own.clone()?,
        kept: case.kept.clone()?,
    })
}
