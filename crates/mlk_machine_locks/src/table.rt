// Lock tables: the jobs that may hold a name, by the name's keys.

ghost use Rattle.std.specs.Prelude.{◌≡◌, ◌<◌, ℕ, true, false, IfOk, OnOk};
ghost use Rattle.std.specs.List.{list_any, list_all};
ghost use Rattle.mlk_names.specs.Lists.{Among};
ghost use Rattle.mlk_names.specs.declared.lock_name.LockName.{LockName as LockNameOf};
ghost use Rattle.mlk_machine_locks.specs.Counts.{count_of};
ghost use Rattle.mlk_machine_locks.specs.Keys.{keys_of, asked_of};
ghost use Rattle.mlk_machine_locks.specs.Waiting.{is_free_among};
ghost use Rattle.mlk_machine_locks.specs.Tables.{IsListed, IsFound, ListsAll, Covers, IsFreeUnder, AreAgainst, keeps};

use crate::holders::Holders;
use crate::key::{key_below, own_key, root_key};
use crate::sharing::Seen;
use indexmap::IndexMap;
use mlk_names::LockName;
use std::alloc::{AllocError, Global};

/// The jobs that may hold names, each by its index. A job that is found is asked what it holds, so that nothing has to be removed
/// when a job releases a name.
#[derive(Drop)]
pub struct LockTable {
    alloc: Global,
    holders: IndexMap<u64, Holders>,
}

impl LockTable {
    /// A table without jobs. Allocates nothing.
    pub fn new(alloc: Global) -> LockTable
        ensures { (key place : ℕ) → IsListed result key place → ⊥ }
    {
        LockTable {
            alloc,
            holders: IndexMap::new(alloc),
        }
    }

    // Lists the job at `place` under `key`.
    fn add(&mut self, key: u64, place: usize) -> Result<(), AllocError>
        ensures ok { OnOk result (IsListed self.new key place) }
        ensures kept { ListsAll self.old self.new }
    {
        if let Some(holders) = self.holders.get_mut(&key) {
            return holders.add(place);
        }
        let mut holders = Holders::new(self.alloc);
        holders.add(place)?;
        let Ok(_) = self.holders.insert(key, holders) else {
            return Err(AllocError);
        };
        Ok(())
    }

    // Records that the job at `place` may hold `name`.
    fn list_one(&mut self, place: usize, name: &LockName) -> Result<(), AllocError>
        ensures found { OnOk result (IsFound self.new place name.now) }
        ensures kept { ListsAll self.old self.new }
    {
        let mut key = root_key(&name.root);
        let mut left = name.subs.as_slice();
        while let Some((subscript, others)) = left.split_first() {
            self.add(key, place)?;
            key = key_below(key, subscript);
            left = others;
        }
        self.add(key, place)?;
        self.add(own_key(key), place)
    }

    /// Records that the job at `place` may hold each of `names`.
    pub fn list(&mut self, place: usize, names: &[LockName]) -> Result<(), AllocError>
        ensures found { OnOk result ((n : LockNameOf) → Among n names.now → IsFound self.new place n) }
        ensures kept { ListsAll self.old self.new }
    {
        let mut left = names;
        while let Some((name, others)) = left.split_first() {
            self.list_one(place, name)?;
            left = others;
        }
        Ok(())
    }

    /// Records that the job at `place` holds the names of `entries`.
    pub(crate) fn list_held(
        &mut self,
        place: usize,
        entries: &[(LockName, u32)],
    ) -> Result<(), AllocError>
        ensures found { OnOk result ((n : LockNameOf) → 0 < count_of entries.now n → IsFound self.new place n) }
        ensures kept { ListsAll self.old self.new }
    {
        let mut left = entries;
        while let Some((entry, others)) = left.split_first() {
            self.list_one(place, &entry.0)?;
            left = others;
        }
        Ok(())
    }

    // Whether some job other than `number` that is listed under `key` keeps the name. Jobs that are tested and hold no name with
    // the key are removed from it.
    fn some_keeps<J: Seen>(&mut self, key: u64, jobs: &[J], number: u32, name: &LockName) -> bool
        requires { Covers J.seen self.old jobs.now }
        ensures kept { result ≡ true → list_any (keeps J.seen number name.now) jobs.now ≡ true }
        ensures free { result ≡ false → IsFreeUnder J.seen jobs.now number name.now key }
        ensures covers { Covers J.seen self.new jobs.now }
    {
        let Some(holders) = self.holders.get_mut(&key) else {
            return false;
        };
        holders.some_keeps(jobs, key, number, name)
    }

    /// Whether no job other than `number` holds a name that conflicts with `name`. Allocates nothing.
    pub fn is_free<J: Seen>(&mut self, jobs: &[J], number: u32, name: &LockName) -> bool
        requires { Covers J.seen self.old jobs.now }
        ensures free { result ≡ is_free_among J.seen jobs.now number name.now }
        ensures covers { Covers J.seen self.new jobs.now }
    {
        let mut key = root_key(&name.root);
        let mut left = name.subs.as_slice();
        while let Some((subscript, others)) = left.split_first() {
            if self.some_keeps(own_key(key), jobs, number, name) {
                return false;
            }
            key = key_below(key, subscript);
            left = others;
        }
        if self.some_keeps(own_key(key), jobs, number, name) {
            return false;
        }
        !self.some_keeps(key, jobs, number, name)
    }

    /// Whether each of `names` is free for the job `number`. Allocates nothing.
    pub fn are_free<J: Seen>(&mut self, jobs: &[J], number: u32, names: &[LockName]) -> bool
        requires { Covers J.seen self.old jobs.now }
        ensures free { result ≡ list_all (is_free_among J.seen jobs.now number) names.now }
        ensures covers { Covers J.seen self.new jobs.now }
    {
        let mut left = names;
        while let Some((name, others)) = left.split_first() {
            if !self.is_free(jobs, number, name) {
                return false;
            }
            left = others;
        }
        true
    }

    // Adds the jobs that are listed under `key` to `found`.
    fn add_listed(&self, found: &mut Vec<usize>, key: u64) -> Result<(), AllocError>
        ensures listed { OnOk result ((i : ℕ) → IsListed self.now key i → Among i found.new.items) }
        ensures kept { OnOk result ((i : ℕ) → Among i found.old.items → Among i found.new.items) }
    {
        if let Some(holders) = self.holders.get(&key) {
            found.extend_from_slice(holders.places())?;
        }
        Ok(())
    }

    // Adds the jobs that may hold a name which conflicts with `name` to `found`.
    fn add_against(&self, found: &mut Vec<usize>, name: &LockName) -> Result<(), AllocError>
        ensures listed { OnOk result ((key : ℕ) → Among key (asked_of name.now)
            → (i : ℕ) → IsListed self.now key i → Among i found.new.items) }
        ensures kept { OnOk result ((i : ℕ) → Among i found.old.items → Among i found.new.items) }
    {
        let mut key = root_key(&name.root);
        let mut left = name.subs.as_slice();
        while let Some((subscript, others)) = left.split_first() {
            self.add_listed(found, own_key(key))?;
            key = key_below(key, subscript);
            left = others;
        }
        self.add_listed(found, own_key(key))?;
        self.add_listed(found, key)
    }

    /// The indexes of all jobs that may hold a name which conflicts with one of `names`.
    pub(crate) fn possible_holders(&self, names: &[LockName]) -> Result<Vec<usize>, AllocError>
        ensures { IfOk result (λ found. AreAgainst self.now names.now found.items) }
    {
        let mut found = Vec::new(self.alloc);
        let mut left = names;
        while let Some((name, others)) = left.split_first() {
            self.add_against(&mut found, name)?;
            left = others;
        }
        Ok(found)
    }
}
