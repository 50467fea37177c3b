// Names that may change.

ghost use Rattle.std.specs.Prelude.{◌≡◌, ◌↔◌, IsTrue, IfOk, OnOk};
ghost use Rattle.std.specs.List.{list_any, list_all};
ghost use Rattle.mlk_cert_parts.specs.declared.names.Own.{Own as item};
ghost use Rattle.mlk_walk_state.specs.Cases.{same_own};
ghost use Rattle.mlk_walk_state.specs.Names.{is_among, has, have, is_own, spares, may_change, without};

use mlk_cert_parts::{NameSet, Own, Shared};
use mlk_text::Name;
use std::alloc::{AllocError, Global};

/// Whether `name` is one of `names`. Allocates nothing.
#[tactic(auto, unfolding(crate::specs::Names::is_among))]
pub fn is_among(names: &[Name], name: &Name) -> bool
    ensures { result ≡ is_among names.now name.now }
{
    names.iter().any(|other| *name == *other)
}

// Whether `set` has `name`: it is that name, or all names but some others.
#[inline(always)]
fn has_name(set: &NameSet, name: &Name) -> bool
    ensures { result ≡ has set.now name.now }
{
    match set {
        NameSet::Only(only) => *only == *name,
        NameSet::AllBut(others) => !is_among(others.as_slice(), name),
    }
}

/// Whether one of `sets` has `name`.
#[tactic(auto, unfolding(crate::specs::Names::have))]
pub fn any_has_name(sets: &[NameSet], name: &Name) -> bool
    ensures { result ≡ have sets.now name.now }
{
    sets.iter().any(|set| has_name(set, name))
}

/// Whether `name` is own: one of the items has it, at any level. Allocates nothing.
#[inline(always)]
pub fn is_own(own: &[Own], name: &Name) -> bool
    ensures { result ≡ is_own own.now name.now }
{
    own.iter().any(|item| has_name(&item.names, name))
}

fn is_equal_own(first: &Own, second: &Own) -> bool
    ensures { IsTrue result ↔ (first.now ≡ second.now) }
{
    first == second
}

/// Whether two items are equal: the same names, created at the same level. Allocates nothing.
pub fn is_same_own(first: &Own, second: &Own) -> bool
    ensures { result ≡ same_own first.now second.now }
{
    is_equal_own(first, second)
}

pub(crate) fn are_among(names: &[Name], others: &[Name]) -> bool
    ensures { result ≡ list_all (is_among names.now) others.now }
{
    others.iter().all(|name| is_among(names, name))
}

// Whether `set` is all names but some, each of which is in `names`.
#[tactic(auto, unfolding(crate::specs::Names::spares))]
fn spares(names: &[Name], set: &NameSet) -> bool
    ensures { result ≡ spares names.now set.now }
{
    match set {
        NameSet::Only(_) => false,
        NameSet::AllBut(others) => are_among(names, others.as_slice()),
    }
}

fn own_spares(names: &[Name], own: &[Own]) -> bool
    ensures { result ≡ list_any (λ (o : item). spares names.now o.names) own.now }
{
    own.iter().any(|item| spares(names, &item.names))
}

fn one_spares(names: &[Name], sets: &[NameSet]) -> bool
    ensures { result ≡ list_any (spares names.now) sets.now }
{
    sets.iter().any(|set| spares(names, set))
}

/// Whether the names of `set` may change: they are own, or listed in `mods`.
#[inline(always)]
pub fn may_change(own: &[Own], mods: &[NameSet], set: &NameSet) -> bool
    ensures { result ≡ may_change own.now mods.now set.now }
{
    match set {
        NameSet::Only(name) => is_own(own, name) || any_has_name(mods, name),
        NameSet::AllBut(names) => {
            let names = names.as_slice();
            own_spares(names, own) || one_spares(names, mods)
        }
    }
}

fn has_some(changed: &[NameSet], names: &[Name]) -> bool
    ensures { result ≡ list_any (have changed.now) names.now }
{
    names.iter().any(|name| any_has_name(changed, name))
}

fn left_without(alloc: Global, changed: &[NameSet], names: &[Name]) -> Result<Vec<Name>, AllocError>
    ensures { IfOk result (λ v. v.items ≡ without changed.now names.now) }
{
    let mut left = Vec::new(alloc);
    for name in names {
        if !any_has_name(changed, name) {
            left.push(name.copy()?)?;
        }
    }
    Ok(left)
}

/// Removes the names of `changed` from a list; if it has none of them, it stays the same shared list.
#[tactic(auto, using(crate::proofs::ListSteps::none_filtered))]
pub fn take_out(
    alloc: Global,
    changed: &[NameSet],
    names: &mut Shared<Name>,
) -> Result<(), AllocError>
    ensures { OnOk result (names.new ≡ without changed.now names.old) }
{
    if has_some(changed, names.as_slice()) {
        let left = left_without(alloc, changed, names.as_slice())?;
        *names = Shared::new(alloc, left)?;
    }
    Ok(())
}
