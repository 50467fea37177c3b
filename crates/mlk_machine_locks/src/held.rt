// The locks that a job holds.

ghost use Rattle.std.specs.Prelude.{◌≡◌, ◌<◌, ◌^◌, [], IfOk, OnOk, IfSome, length, position, nat_lt, ◌&&◌, ◌||◌};
ghost use Rattle.std.specs.List.{list_any};
ghost use Rattle.mlk_machine_locks.specs.NameTests.{are_first, in_conflict, same_name};
ghost use Rattle.mlk_machine_locks.specs.Counts.{excludes, count_of, raised, lowered, all_lowered, claimed, greatest_count};

use mlk_names::LockName;
use mlk_text::{Value, copy_of};
use std::alloc::{AllocError, Global};
use std::marker::Model;

// Whether the two names are equal.
fn is_same(first: &LockName, second: &LockName) -> bool
    ensures { result ≡ same_name first.now second.now }
{
    first == second
}

// Whether two lists of subscripts are equal up to the end of the shorter one.
#[tactic(auto, using(crate::proofs::NameLemmas::agree_none, crate::proofs::NameLemmas::agree_past, crate::proofs::NameLemmas::agree_more, crate::proofs::NameLemmas::agree_not))]
fn agree(first: &[Value], second: &[Value]) -> bool
    ensures { result ≡ (are_first first.now second.now || are_first second.now first.now) }
{
    let mut left = first;
    let mut right = second;
    while let Some((one, later)) = left.split_first() {
        let Some((two, rest)) = right.split_first() else {
            return true;
        };
        if one != two {
            return false;
        }
        left = later;
        right = rest;
    }
    true
}

// Whether one of the names is the other or above it. Each subscript is compared only once, since this is tested for all jobs.
fn in_conflict(first: &LockName, second: &LockName) -> bool
    ensures { result ≡ in_conflict first.now second.now }
{
    agree(first.subs.as_slice(), second.subs.as_slice()) && first.root == second.root
}

// Whether one of `entries` keeps `name` from other jobs.
fn some_excludes(entries: &[(LockName, u32)], name: &LockName) -> bool
    ensures { result ≡ list_any (λ h. nat_lt 0 h.1 && in_conflict name.now h.0) entries.now }
{
    let mut left = entries;
    while let Some((entry, others)) = left.split_first() {
        if entry.1 > 0 && in_conflict(name, &entry.0) {
            return true;
        }
        left = others;
    }
    false
}

// The index of the entry of `name`, or `None`.
fn place_of(entries: &[(LockName, u32)], name: &LockName) -> Option<usize>
    ensures place { result ≡ position (λ h. same_name h.0 name.now) entries.now }
    ensures within { IfSome result (λ i. i < length entries.now) }
{
    entries.iter().position(|entry| is_same(&entry.0, name))
}

// The index of the entry of `name` whose count is not 0, or `None`.
fn place_held(entries: &[(LockName, u32)], name: &LockName) -> Option<usize>
    ensures place { result ≡ position (λ h. same_name h.0 name.now && nat_lt 0 h.1) entries.now }
    ensures within { IfSome result (λ i. i < length entries.now) }
{
    entries
        .iter()
        .position(|entry| is_same(&entry.0, name) && entry.1 > 0)
}

// The count of `name`.
fn count_in(entries: &[(LockName, u32)], name: &LockName) -> u32
    requires { count_of entries.now name.now < 2 ^ 32 }
    ensures { result ≡ count_of entries.now name.now }
{
    let mut count = 0;
    let mut left = entries;
    while let Some((entry, others)) = left.split_first() {
        if is_same(&entry.0, name) {
            count += entry.1;
        }
        left = others;
    }
    count
}

// Adds one to the count of `name`.
fn raise(entries: &mut Vec<(LockName, u32)>, name: &LockName) -> Result<(), AllocError>
    requires { count_of entries.old.items name.now < greatest_count }
    ensures { OnOk result (entries.new.items ≡ raised name.now entries.old.items) }
{
    match place_of(entries.as_slice(), name) {
        Some(place) => {
            entries[place].1 += 1;
            Ok(())
        }
        None => {
            entries.push((copy_of(name)?, 1))?;
            Ok(())
        }
    }
}

// Subtracts one from the count of `name`, unless it is 0.
fn lower(entries: &mut Vec<(LockName, u32)>, name: &LockName)
    ensures { entries.new.items ≡ lowered name.now entries.old.items }
{
    let Some(place) = place_held(entries.as_slice(), name) else {
        return;
    };
    if entries[place].1 == 1 {
        let _ = entries.remove(place);
    } else {
        entries[place].1 -= 1;
    }
}

// Copies `entries`.
fn copy_entries(
    alloc: Global,
    entries: &[(LockName, u32)],
) -> Result<Vec<(LockName, u32)>, AllocError>
    ensures { IfOk result (λ copies. copies.items ≡ entries.now) }
{
    let mut copies = Vec::with_capacity(alloc, entries.len())?;
    for entry in entries {
        copies.push((copy_of(&entry.0)?, entry.1))?;
    }
    Ok(copies)
}

/// The lock names that a job holds, each with its count.
#[derive(Drop)]
pub struct Held {
    entries: Vec<(LockName, u32)>,
}

impl Model for Held {
    ghost use Rattle.std.specs.Prelude.{List, ℕ, ◌≤◌};
    ghost use Rattle.mlk_names.specs.declared.lock_name.LockName.{LockName};
    ghost use Rattle.mlk_machine_locks.specs.Counts.{count_of, greatest_count};

    ghost Value = { List (LockName × ℕ) };

    ghost view = { λ h. h.entries.items };

    ghost invariant = { λ h. (n : LockName) → count_of h.entries.items n ≤ greatest_count };
}

impl Held {
    /// No locks.
    pub fn new(alloc: Global) -> Held
        ensures { result ≡ [] }
    {
        Held {
            entries: Vec::new(alloc),
        }
    }

    /// Copies the locks.
    pub fn copy(&self) -> Result<Held, AllocError>
        ensures { IfOk result (λ copy. copy ≡ self.now) }
    {
        let entries = copy_entries(*self.entries.allocator(), self.entries.as_slice())?;
        Ok(Held { entries })
    }

    /// The names, each with its count.
    pub fn entries(&self) -> &[(LockName, u32)]
        ensures { result.now ≡ self.now }
    {
        self.entries.as_slice()
    }

    /// Whether a held name conflicts with `name`, so that no other job may hold it. Allocates nothing.
    pub fn excludes(&self, name: &LockName) -> bool
        ensures { result ≡ excludes self.now name.now }
    {
        some_excludes(self.entries.as_slice(), name)
    }

    /// The count of `name`. Allocates nothing.
    pub fn count(&self, name: &LockName) -> u32
        ensures { result ≡ count_of self.now name.now }
    {
        count_in(self.entries.as_slice(), name)
    }

    /// The locks that are held once `names` are claimed, each once more, or `None` if a count would exceed the maximum.
    pub fn with_claims(&self, alloc: Global, names: &[LockName]) -> Result<Option<Held>, AllocError>
        ensures { IfOk result (λ h. h ≡ claimed names.now self.now) }
    {
        let mut entries = Vec::from_clones(alloc, self.entries.as_slice())?;
        let mut left = names;
        while let Some((name, others)) = left.split_first() {
            if count_in(entries.as_slice(), name) == u32::MAX {
                return Ok(None);
            }
            raise(&mut entries, name)?;
            left = others;
        }
        Ok(Some(Held { entries }))
    }

    /// Releases each of `names` once, if it is held. Allocates nothing.
    pub fn release(&mut self, names: &[LockName])
        ensures { self.new ≡ all_lowered names.now self.old }
    {
        let mut left = names;
        while let Some((name, others)) = left.split_first() {
            lower(&mut self.entries, name);
            left = others;
        }
    }
}
