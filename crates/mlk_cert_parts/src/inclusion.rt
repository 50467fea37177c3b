// Inclusion of cases.

ghost use Rattle.std.specs.Prelude.{◌≡◌, ◌↔◌, IsTrue, Contains, Decides, bytes_eq};
ghost use Rattle.std.specs.Cmp.Lexicographic.{pointwise};
ghost use Rattle.mlk_cert_lexemes.specs.Lists.{Each, EachPair};
ghost use Rattle.mlk_cert_parts.specs.Inclusion.{Covers, Included};

use crate::case::{Case, Test};
use mlk_text::{Name, are_equal};

// Whether `second` says no more about `$TEST` than `first`.
fn covers(first: Test, second: Test) -> bool
    ensures { IsTrue result ↔ Covers first second }
{
    second == Test::Any || second == first
}

// Whether `second` says no more than `first`, test by test.
fn cover_all(first: &[Test], second: &[Test]) -> bool
    ensures { IsTrue result ↔ EachPair Covers first.now second.now }
{
    let (mut firsts, mut seconds) = (first, second);
    while let (Some((s, after)), Some((t, others))) = (
        firsts.split_first(),
        seconds.split_first(),
    ) {
        if !covers(*s, *t) {
            return false;
        }
        firsts = after;
        seconds = others;
    }
    firsts.is_empty() && seconds.is_empty()
}

// Whether each of `names` is among `all`, in any order.
fn each_is_among(names: &[Name], all: &[Name]) -> bool
    ensures { IsTrue result ↔ Each (Contains all.now) names.now }
{
    let mut left = names;
    while let Some((name, others)) = left.split_first() {
        if !all.contains(name) {
            return false;
        }
        left = others;
    }
    true
}

// Whether `names` and `others` are equal, in the same order.
#[inline(always)]
fn are_same(names: &[Name], others: &[Name]) -> bool
    ensures { result ≡ pointwise bytes_eq names.now others.now }
{
    let mut left = names;
    let mut left_others = others;
    while let Some((name, rest)) = left.split_first() {
        let Some((other, rest_others)) = left_others.split_first() else {
            return false;
        };
        if *name != *other {
            return false;
        }
        left = rest;
        left_others = rest_others;
    }
    left_others.is_empty()
}

// Whether each of `names` is among `all`. Usually the two lists are equal.
fn are_among(names: &[Name], all: &[Name]) -> bool
    ensures { IsTrue result ↔ Each (Contains all.now) names.now }
{
    are_same(names, all) || each_is_among(names, all)
}

/// Whether the two lists are equal.
pub fn are_same_lists<T: PartialEq>(first: &[T], second: &[T]) -> bool
    requires { (x y : T) → Decides (T.eq x y) (x ≡ y) }
    ensures { IsTrue result ↔ (second.now ≡ first.now) }
{
    are_equal(second, first)
}

/// Whether `second` includes `first`: it says no more than `first`, so it holds whenever `first` does. Allocates nothing.
pub fn is_included(first: &Case, second: &Case) -> bool
    ensures { IsTrue result ↔ Included first.now second.now }
{
    covers(first.test, second.test)
        && cover_all(first.saved.as_slice(), second.saved.as_slice())
        && are_same_lists(first.held.as_slice(), second.held.as_slice())
        && are_same_lists(first.own.as_slice(), second.own.as_slice())
        && are_among(second.kept.as_slice(), first.kept.as_slice())
}
