// The text of a baseline.

use crate::fault_key::FaultKey;
use mlk_report_text::Piece::{Bytes, Number, Words};
use mlk_report_text::push_all;
use mlk_text::push_sparing;
use std::alloc::{AllocError, Global};

const HEAD: &str =
    "# Faults that are known: how often, code, entry, label+offset, the line's text.\n";

fn push_line(text: &mut Vec<u8>, count: usize, key: &[u8]) -> Result<(), AllocError> {
    push_all(text, &[Number(count), Words(" "), Bytes(key), Words("\n")])
}

// The keys in order.
fn sorted<'a>(alloc: Global, keys: &'a [FaultKey]) -> Result<Vec<&'a [u8]>, AllocError> {
    let mut sorted = Vec::with_capacity(alloc, keys.len())?;
    for key in keys {
        push_sparing(&mut sorted, key.as_bytes())?;
    }
    sorted.sort_by(|key, other| key.cmp(other))?;
    Ok(sorted)
}

/// The baseline in which the faults with these keys are known: a line for each key, in their order.
pub fn baseline_text(alloc: Global, keys: &[FaultKey]) -> Result<Vec<u8>, AllocError> {
    let mut text = Vec::from_slice(alloc, HEAD.as_bytes())?;
    let keys = sorted(alloc, keys)?;
    let mut last: Option<&[u8]> = None;
    let mut count: usize = 0;
    for key in &keys {
        if last == Some(*key) {
            count = count.saturating_add(1);
            continue;
        }
        if let Some(before) = last {
            push_line(&mut text, count, before)?;
        }
        last = Some(*key);
        count = 1;
    }
    if let Some(before) = last {
        push_line(&mut text, count, before)?;
    }
    Ok(text)
}
