// The table of lock terms.

ghost use Rattle.std.specs.Prelude.{◌≡◌, [], true, Some, slice_get, option_copied, IfOk, length};
ghost use Rattle.mlk_cert_lexemes.specs.Lists.{ascends};
ghost use Rattle.mlk_cert_lexemes.specs.Kinds.{terms_upto};
ghost use Rattle.mlk_cert_terms.specs.Numbered.{AreNumbersOf, EachOnce, Grows, IsNumbered};

use crate::case::NumCase;
use crate::key::TermKey;
use crate::numbers::put_number;
use indexmap::IndexSet;
use mlk_cert_parts::{Case, Shared};
use mlk_names::LockTerm;
use mlk_text::copy_of;
use std::alloc::{AllocError, Global};
use std::marker::Model;

/// Lock terms, each once. A term's number is its place, from 0 on; it never changes. A contract sees the list of the terms.
#[derive(Drop)]
pub struct TermTable {
    terms: IndexSet<TermKey>,
}

impl Model for TermTable {
    ghost use Rattle.std.specs.Prelude.{List};
    ghost use Rattle.mlk_names.specs.declared.term.LockTerm.{LockTerm};
    ghost use Rattle.mlk_cert_terms.specs.Keys.{terms_in};

    ghost Value = { List LockTerm };

    ghost view = { λ t. terms_in t.terms.keys };
}

impl TermTable {
    /// A table without terms, which takes no memory.
    pub fn new(alloc: Global) -> TermTable
        ensures { result ≡ [] }
    {
        TermTable {
            terms: IndexSet::new(alloc),
        }
    }

    /// A table with the same terms under the same numbers.
    pub fn copy(&self) -> Result<TermTable, AllocError>
        ensures { IfOk result (λ t. t ≡ self.now) }
    {
        Ok(TermTable {
            terms: self.terms.clone()?,
        })
    }

    /// How many terms there are.
    pub fn len(&self) -> usize
        ensures count { result ≡ length self.now }
        ensures once { EachOnce self.now }
    {
        self.terms.len()
    }

    /// The term with this number, or `None` where the table has no such number.
    pub fn term(&self, number: usize) -> Option<&LockTerm>
        ensures { option_copied result ≡ slice_get self.now number }
    {
        let key = self.terms.get_index(number)?;
        Some(&key.term)
    }

    // The number of a term, which is added at the end where it is new.
    fn number(&mut self, term: &LockTerm) -> Result<usize, AllocError>
        ensures grows { Grows self.old self.new }
        ensures at { IfOk result (λ n. slice_get self.new n ≡ Some term.now) }
    {
        let key = TermKey {
            term: copy_of(term)?,
        };
        let (number, _) = self.terms.insert_full(key)?;
        Ok(number)
    }

    // The numbers of terms, in ascending order.
    fn numbers(&mut self, alloc: Global, terms: &[LockTerm]) -> Result<Vec<usize>, AllocError>
        ensures grows { Grows self.old self.new }
        ensures ok { IfOk result (λ v. AreNumbersOf self.new v.items terms.now) }
    {
        let mut found = Vec::with_capacity(alloc, terms.len())?;
        let mut left = terms;
        while let Some((term, others)) = left.split_first() {
            let number = self.number(term)?;
            put_number(&mut found, number)?;
            left = others;
        }
        Ok(found)
    }

    /// The case with numbers in place of the terms that it holds. Terms that the table does not have are added at its end;
    /// some of them may be added even if memory runs out.
    ///
    /// The terms of the case ascend, as they do in every certificate that was read.
    pub fn num_case(&mut self, alloc: Global, case: &Case) -> Result<NumCase, AllocError>
        requires { ascends terms_upto case.now.held ≡ true }
        ensures grows { Grows self.old self.new }
        ensures ok { IfOk result (λ n. IsNumbered self.new n case.now) }
    {
        let held = self.numbers(alloc, case.held.as_slice())?;
        Ok(NumCase {
            test: case.test,
            saved: case.saved.clone()?,
            held: Shared::new(alloc, held)?,
            own: case.own.clone()?,
            kept: case.kept.clone()?,
        })
    }
}
