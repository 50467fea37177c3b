// Values on a path: which of them are equal, and which reads they come from.

use mlk_names::Sym;
use mlk_text::{Name, push_sparing};
use std::alloc::{AllocError, Global};

/// A value on a path, with what is known of it.
#[derive(Clone, Drop)]
pub(crate) struct Tracked {
    /// A constant, the number of the job, or a name that is made for the value: values with the same symbol are equal.
    pub(crate) symbol: Sym,
    /// the numbers of the reads that it comes from
    pub(crate) reads: Vec<usize>,
}

impl Tracked {
    /// The value with the symbol `symbol`, which comes from no read.
    pub(crate) fn of(alloc: Global, symbol: Sym) -> Tracked {
        let reads = Vec::new(alloc);
        Tracked { symbol, reads }
    }
}

/// Makes names for values.
#[derive(Drop)]
pub(crate) struct Namer {
    alloc: Global,
    count: usize,
}

impl Namer {
    pub(crate) fn new(alloc: Global) -> Namer {
        Namer { alloc, count: 0 }
    }

    // Makes a symbol that no other value has.
    fn make_symbol(&mut self) -> Result<Sym, AllocError> {
        self.count = self.count.saturating_add(1);
        let text = format!(in self.alloc; "{}", self.count)?;
        Ok(Sym::Local(Name::of(self.alloc, text.as_bytes())?))
    }

    /// Makes a value that comes from the reads with the numbers `reads`.
    pub(crate) fn make_value(&mut self, reads: Vec<usize>) -> Result<Tracked, AllocError> {
        let symbol = self.make_symbol()?;
        Ok(Tracked { symbol, reads })
    }

    /// Makes an unknown value.
    pub(crate) fn make_unknown(&mut self) -> Result<Tracked, AllocError> {
        self.make_value(Vec::new(self.alloc))
    }

    /// The value `known`, or an unknown one if it is missing.
    pub(crate) fn known_or_made(&mut self, known: Option<Tracked>) -> Result<Tracked, AllocError> {
        match known {
            Some(value) => Ok(value),
            None => self.make_unknown(),
        }
    }

    /// Makes a value that comes from all of `parts`.
    pub(crate) fn combine(&mut self, parts: &[Tracked]) -> Result<Tracked, AllocError> {
        let mut reads = Vec::new(self.alloc);
        for part in parts {
            for read in &part.reads {
                if !reads.contains(read) {
                    push_sparing(&mut reads, *read)?;
                }
            }
        }
        self.make_value(reads)
    }
}
