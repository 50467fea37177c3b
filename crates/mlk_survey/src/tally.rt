// Counters.

use indexmap::IndexMap;
use std::alloc::{AllocError, Global};
use std::hash::Hash;

/// A counter for each thing that was found.
#[derive(Drop)]
pub(crate) struct Tally<T: Eq + Hash> {
    counts: IndexMap<T, usize>,
}

impl<T: Copy + Drop + Eq + Hash + Ord> Tally<T> {
    /// No counters.
    pub(crate) fn new(alloc: Global) -> Tally<T> {
        Tally {
            counts: IndexMap::new(alloc),
        }
    }

    /// Counts `thing` once more.
    pub(crate) fn add(&mut self, thing: T) -> Result<(), AllocError> {
        let count = self.counts.get(&thing).copied().unwrap_or(0);
        let Ok(_) = self.counts.insert(thing, count.saturating_add(1)) else {
            return Err(AllocError);
        };
        Ok(())
    }

    /// The things in order, each with its count.
    pub(crate) fn in_order(&self, alloc: Global) -> Result<Vec<(T, usize)>, AllocError> {
        let mut counts = Vec::with_capacity(alloc, self.counts.len())?;
        for (thing, count) in &self.counts {
            let Ok(()) = counts.push((*thing, *count)) else {
                return Err(AllocError);
            };
        }
        counts.sort()?;
        Ok(counts)
    }
}
