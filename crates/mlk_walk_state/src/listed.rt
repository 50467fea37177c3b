// Listed cases.

ghost use Rattle.std.specs.Prelude.{◌≡◌};
ghost use Rattle.std.specs.List.{list_any};
ghost use Rattle.mlk_walk_state.specs.Terms.{same_term};
ghost use Rattle.mlk_walk_state.specs.Cases.{says_no_more, pairwise, includes, is_listed, leaves_by, is_exit};

use crate::names::are_among;
use crate::term::is_same;
use mlk_cert_parts::{Case, ExitCase, Test, is_included};
use mlk_names::LockTerm;

fn includes(case: &Case, listed: &Case) -> bool
    ensures { result ≡ includes case.now listed.now }
{
    is_included(case, listed)
}

/// Whether one of the listed `cases` says no more than `case`. Allocates nothing.
pub fn is_listed(cases: &[Case], case: &Case) -> bool
    ensures { result ≡ is_listed cases.now case.now }
{
    cases.iter().any(|listed| includes(case, listed))
}

// Whether `other` says no more about `$TEST` than `test`.
fn says_no_more(test: Test, other: Test) -> bool
    ensures { result ≡ says_no_more test other }
{
    match (test, other) {
        (_, Test::Any) | (Test::Zero, Test::Zero) | (Test::One, Test::One) => true,
        (Test::Any, Test::Zero)
        | (Test::Any, Test::One)
        | (Test::Zero, Test::One)
        | (Test::One, Test::Zero) => false,
    }
}

fn same_terms(terms: &[LockTerm], others: &[LockTerm]) -> bool
    ensures { result ≡ pairwise same_term terms.now others.now }
{
    let mut left = terms;
    let mut left_others = others;
    while let Some((term, rest)) = left.split_first() {
        let Some((other, rest_others)) = left_others.split_first() else {
            return false;
        };
        if !is_same(term, other) {
            return false;
        }
        left = rest;
        left_others = rest_others;
    }
    left_others.is_empty()
}

#[tactic(auto, unfolding(crate::specs::Cases::leaves_by))]
fn leaves_by(case: &Case, exit: &ExitCase) -> bool
    ensures { result ≡ leaves_by case.now exit.now }
{
    says_no_more(case.test, exit.test)
        && same_terms(case.held.as_slice(), exit.held.as_slice())
        && are_among(case.kept.as_slice(), exit.kept.as_slice())
}

/// Whether one of `exits` says no more than `case`. Allocates nothing.
pub fn is_exit(exits: &[ExitCase], case: &Case) -> bool
    ensures { result ≡ is_exit exits.now case.now }
{
    exits.iter().any(|exit| leaves_by(case, exit))
}
