// Jobs that may hold names with a given key.

ghost use Rattle.std.specs.Prelude.{◌≡◌, ◌≢◌, ◌⊎◌, ◌<◌, ◌+◌, ◌^◌, ℕ, true, false, Some, IfSome, OnOk, length, slice_get};
ghost use Rattle.std.specs.List.{list_any};
ghost use Rattle.mlk_machine_locks.specs.Tables.{is_one, keeps, Spares, IsStale};
ghost use Rattle.mlk_machine_locks.specs.declared.holders.Said.TheVariants as said;

use crate::key::is_under;
use crate::sharing::{Seen, keeps};
use indexmap::IndexSet;
use mlk_names::LockName;
use std::alloc::{AllocError, Global};

/// Jobs by their indexes: each may hold a name with a given key.
#[derive(Drop)]
pub struct Holders {
    places: IndexSet<usize>,
}

// The relation of a job to a name that another job asks for.
#[derive(Clone, Copy, Drop)]
enum Said {
    // it keeps the name from the other job
    Keeps,
    // it holds no name with the key
    Stale,
    // it holds a name with the key, but does not keep the name from the other job
    Spares,
}

// The relation of the job at `place` to `name`, which the job `number` asks for.
fn ask<J: Seen>(jobs: &[J], place: usize, key: u64, number: u32, name: &LockName) -> Said
    ensures keeps { result ≡ said.Keeps → list_any (keeps J.seen number name.now) jobs.now ≡ true }
    ensures stale { result ≡ said.Stale
        → Spares J.seen jobs.now number name.now place × IsStale J.seen jobs.now key place }
    ensures spares { result ≡ said.Spares → Spares J.seen jobs.now number name.now place }
{
    let Some(job) = jobs.get(place) else {
        return Said::Stale;
    };
    if keeps(job, number, name) {
        return Said::Keeps;
    }
    if is_under(key, job.held().entries()) {
        return Said::Spares;
    }
    Said::Stale
}

impl Holders {
    /// No jobs.
    pub(crate) fn new(alloc: Global) -> Holders {
        Holders {
            places: IndexSet::new(alloc),
        }
    }

    /// The indexes of the jobs.
    pub(crate) fn places(&self) -> &[usize]
        ensures { result.now ≡ self.now.places.keys }
    {
        self.places.as_slice()
    }

    /// Adds a job, unless it is there.
    pub(crate) fn add(&mut self, place: usize) -> Result<(), AllocError>
        ensures ok { OnOk result (is_one self.new place ≡ true) }
        ensures kept { (i : ℕ) → is_one self.old i ≡ true → is_one self.new i ≡ true }
    {
        let Ok(_) = self.places.insert(place) else {
            return Err(AllocError);
        };
        Ok(())
    }

    // The job at `index`, or `None`.
    fn job_at(&self, index: usize) -> Option<usize>
        ensures place { result ≡ slice_get self.now.places.keys index }
        ensures small { IfSome result (λ p. index < 2 ^ 63) }
    {
        if index >= self.places.len() {
            return None;
        }
        self.places.get_index(index).copied()
    }

    // Removes the job at `index`.
    fn remove_at(&mut self, index: usize)
        requires { index < length self.old.places.keys }
        ensures others { (i : ℕ) → is_one self.old i ≡ true → slice_get self.old.places.keys index ≢ Some i
            → is_one self.new i ≡ true }
        ensures before { (n : ℕ) → n < index
            → slice_get self.new.places.keys n ≡ slice_get self.old.places.keys n }
        ensures less { length self.new.places.keys + 1 ≡ length self.old.places.keys }
    {
        let _ = self.places.swap_remove_index(index);
    }

    /// Whether a job other than `number` keeps the name. Jobs that are tested and hold no name with the key are removed.
    pub(crate) fn some_keeps<J: Seen>(
        &mut self,
        jobs: &[J],
        key: u64,
        number: u32,
        name: &LockName,
    ) -> bool
        ensures kept { result ≡ true → list_any (keeps J.seen number name.now) jobs.now ≡ true }
        ensures free { result ≡ false → (i : ℕ) → is_one self.old i ≡ true → Spares J.seen jobs.now number name.now i }
        ensures stays { (i : ℕ) → is_one self.old i ≡ true
            → (is_one self.new i ≡ true) ⊎ IsStale J.seen jobs.now key i }
    {
        let mut index = 0;
        while let Some(place) = self.job_at(index) {
            match ask(jobs, place, key, number, name) {
                Said::Keeps => return true,
                Said::Stale => self.remove_at(index),
                Said::Spares => index += 1,
            }
        }
        false
    }
}
