// Baselines: faults that are known, and how often each is.

ghost use Rattle.std.specs.Prelude.{IfOk, length};
ghost use Rattle.mlk_baseline.specs.Known.{IsComparison};

use crate::fault_key::FaultKey;
use bstr::ByteSlice;
use indexmap::IndexMap;
use mlk_text::{Failure, LineNumber, push_sparing};
use std::alloc::{AllocError, Global};
use thiserror::Error;

/// A line of a baseline that is no count and fault.
#[derive(Clone, Copy, Debug, Drop, PartialEq, Eq, Error)]
#[error("line {line}: not a count, a blank and a fault")]
pub struct BaselineFault {
    pub line: LineNumber,
}

/// Faults that are known.
#[derive(Drop)]
pub struct Baseline<'t> {
    // by key, in the order of the lines
    counts: IndexMap<&'t [u8], usize>,
}

/// A known fault that a report does not have, or not as often.
#[derive(Clone, Copy, Drop, PartialEq, Eq)]
pub struct GoneFault<'t> {
    pub key: &'t [u8],
    /// how often it is missing
    pub count: usize,
}

/// A report beside a baseline.
#[derive(Drop)]
pub struct Comparison<'t> {
    /// the indices, from 0, of the faults that are not known, in order
    pub news: Vec<usize>,
    /// how many faults are known
    pub known: usize,
    pub gone: Vec<GoneFault<'t>>,
}

// The count that a line begins with, and the key after it.
fn parts_of(line: &[u8]) -> Option<(usize, &[u8])> {
    let (count, key) = line.split_once_str(b" ")?;
    let mut number: usize = 0;
    if count.is_empty() {
        return None;
    }
    for byte in count {
        if !byte.is_ascii_digit() {
            return None;
        }
        let digit = usize::from(byte.saturating_sub(b'0'));
        number = number.checked_mul(10)?.checked_add(digit)?;
    }
    Some((number, key))
}

// Whether a line says nothing: it is blank, or a comment.
fn is_silent(line: &[u8]) -> bool {
    line.is_empty() || line.starts_with(b"#")
}

/// Reads a baseline: lines of a count, a blank and the key of a fault; empty lines, and those that begin with `#`, are skipped. A key
/// that is there twice is known as often as both say. Refuses the first other line.
pub fn read_baseline<'t>(
    alloc: Global,
    text: &'t [u8],
) -> Result<Baseline<'t>, Failure<BaselineFault>> {
    let mut counts = IndexMap::new(alloc);
    let mut number: u32 = 0;
    for line in text.lines() {
        number = number.saturating_add(1);
        if is_silent(line) {
            continue;
        }
        let Some((count, key)) = parts_of(line) else {
            let line = LineNumber::new(number);
            return Err(Failure::Refused(BaselineFault { line }));
        };
        let before = counts.get(key).copied().unwrap_or(0);
        let Ok(_) = counts.insert(key, count.saturating_add(before)) else {
            return Err(Failure::OutOfMemory);
        };
    }
    Ok(Baseline { counts })
}

// How often each key was met.
#[derive(Drop)]
struct Met<'k> {
    counts: IndexMap<&'k [u8], usize>,
}

impl<'k> Met<'k> {
    fn count(&self, key: &[u8]) -> usize {
        self.counts.get(key).copied().unwrap_or(0)
    }

    fn add(&mut self, key: &'k [u8]) -> Result<(), AllocError> {
        let count = self.count(key).saturating_add(1);
        let Ok(_) = self.counts.insert(key, count) else {
            return Err(AllocError);
        };
        Ok(())
    }
}

impl<'t> Baseline<'t> {
    // How often a fault with this key is known.
    fn count(&self, key: &[u8]) -> usize {
        self.counts.get(key).copied().unwrap_or(0)
    }

    // The known faults that were met less often than listed.
    fn gone(&self, alloc: Global, met: &Met<'_>) -> Result<Vec<GoneFault<'t>>, AllocError> {
        let mut gone = Vec::new(alloc);
        for (key, known) in &self.counts {
            let count = known.saturating_sub(met.count(*key));
            if count > 0 {
                push_sparing(&mut gone, GoneFault { key: *key, count })?;
            }
        }
        Ok(gone)
    }

    /// Compares faults with these keys with what is known. Of faults with the same key the first are taken for the known ones.
    pub fn compare(&self, alloc: Global, keys: &[FaultKey]) -> Result<Comparison<'t>, AllocError>
        ensures { IfOk result (IsComparison (length keys.now)) }
    {
        let counts = IndexMap::new(alloc);
        let mut met = Met { counts };
        let mut news = Vec::new(alloc);
        let mut known: usize = 0;
        for key in keys {
            let number = known + news.len();
            let key = key.as_bytes();
            let is_known = met.count(key) < self.count(key);
            met.add(key)?;
            if is_known {
                known += 1;
            } else {
                push_sparing(&mut news, number)?;
            }
        }
        let gone = self.gone(alloc, &met)?;
        Ok(Comparison { news, known, gone })
    }
}
