// The readers of blocks.

ghost use Rattle.std.specs.Prelude.{◌≡◌, ◌++◌, ◌∷◌, [], List, ℕ, IfOk, OnOk, map, option_map, codes, not, true};
ghost use Rattle.mlk_text.specs.Failures.{Reads};
ghost use Rattle.mlk_cert_parts.specs.Checks.{has_text, fits};
ghost use Rattle.mlk_cert_lexemes.specs.Reading.{entry_at};
ghost use Rattle.mlk_cert.specs.Blocks.{rest_at, summary_at, block_at, new_entry_at, new_block_at, blocks_at};
ghost use Rattle.mlk_cert.specs.Second.{cases_of_points, cases_of_blocks};
ghost use Rattle.mlk_cert.specs.Numbered.{listed_points_at};
ghost use Rattle.mlk_cert.specs.Named.{AddsNumbers};

use crate::number::CaseNumber;
use crate::read::fault::{BlockFault, other_form};
use crate::read::fit::Fit;
use crate::read::line::{drops_line, exits, line_end, low_line, mods_line, need_line};
use crate::read::points::listed_points;
use indexmap::IndexSet;
use mlk_cert_lexemes::{entry, word_of};
use mlk_cert_parts::{Case, EntryCert, Summary};
use mlk_text::{Code, Failure, Value};
use std::alloc::{AllocError, Global};

#[tactic(auto, unfolding(crate::specs::Blocks::rest_at))]
fn entry_line(alloc: Global, bytes: &[u8]) -> Result<(Value, &[u8]), Failure<BlockFault>>
    ensures { Reads (λ x. (x.0, x.1.now)) result (rest_at entry_at fits bytes.now) }
{
    match entry(alloc, bytes) {
        Ok((found, rest)) => line_end(found, Fit::Yes, rest, bytes),
        Err(Failure::OutOfMemory) => Err(Failure::OutOfMemory),
        Err(Failure::Refused(_)) => Err(Failure::Refused(other_form(bytes))),
    }
}

#[tactic(auto, unfolding(crate::specs::Blocks::summary_at))]
fn summary(alloc: Global, bytes: &[u8]) -> Result<(Summary, &[u8]), Failure<BlockFault>>
    ensures { Reads (λ x. (x.0, x.1.now)) result (summary_at bytes.now) }
{
    let (need, rest) = need_line(alloc, bytes)?;
    let (low, rest) = low_line(rest)?;
    let (drops, rest) = drops_line(rest)?;
    let (mods, rest) = mods_line(alloc, rest)?;
    let (exits, rest) = exits(alloc, rest)?;
    let summary = Summary {
        need,
        exits,
        mods,
        low,
        drops,
    };
    Ok((summary, rest))
}

// Adds `text` to `seen`, and returns whether it is new.
fn is_new(alloc: Global, seen: &mut IndexSet<Vec<u8>>, text: &Value) -> Result<bool, AllocError>
    ensures new { IfOk result (λ b. b ≡ not (has_text (map (λ k. k.items) seen.old.keys) text.now)) }
    ensures keys { IfOk result (λ b. b ≡ true → map (λ k. k.items) seen.new.keys ≡ map
        (λ k. k.items) seen.old.keys ++ text.now ∷ []) }
{
    let key = Vec::from_slice(alloc, text.as_bytes())?;
    let new = seen.insert(key)?;
    Ok(new)
}

// Reads the line of an entry, whose text must be new.
#[tactic(auto, unfolding(crate::specs::Blocks::new_entry_at))]
fn new_entry<'a>(
    alloc: Global,
    seen: &mut IndexSet<Vec<u8>>,
    bytes: &'a [u8],
) -> Result<(Value, &'a [u8]), Failure<BlockFault>>
    ensures read { Reads (λ x. (x.0, x.1.now)) result (new_entry_at (map (λ k. k.items) seen.old.keys) bytes.now) }
    ensures keys { IfOk result (λ x. map (λ k. k.items) seen.new.keys ≡ map (λ k. k.items) seen.old.keys ++ x.0 ∷ []) }
{
    let (entry, rest) = entry_line(alloc, bytes)?;
    let new = is_new(alloc, seen, &entry)?;
    if new {
        return Ok((entry, rest));
    }
    Err(Failure::Refused(BlockFault {
        code: Code::EntryTwice,
        left: bytes.len(),
    }))
}

// Reads a block after its word; its entry must be new.
#[tactic(auto, unfolding(crate::specs::Blocks::new_block_at))]
fn block<'a>(
    alloc: Global,
    cases: Option<&[Case]>,
    named: &mut Vec<CaseNumber>,
    seen: &mut IndexSet<Vec<u8>>,
    bytes: &'a [u8],
) -> Result<(EntryCert, &'a [u8]), Failure<BlockFault>>
    ensures read { Reads (λ x. (x.0, x.1.now)) result (new_block_at (listed_points_at (option_map (λ x. x.now)
        cases.entry)) (map (λ k. k.items) seen.old.keys) bytes.now) }
    ensures keys { IfOk result (λ x. map (λ k. k.items) seen.new.keys ≡ map
        (λ k. k.items) seen.old.keys ++ x.0.entry ∷ []) }
    ensures numbers { IfOk result (λ x. AddsNumbers (option_map (λ x. x.now)
        cases.entry) named.old.items named.new.items (cases_of_points x.0.points)) }
{
    let (entry, rest) = new_entry(alloc, seen, bytes)?;
    let (summary, rest) = summary(alloc, rest)?;
    let (points, rest) = listed_points(alloc, cases, named, rest)?;
    let block = EntryCert {
        entry,
        summary,
        points,
    };
    Ok((block, rest))
}

/// Reads the blocks at the front: the blocks, and the rest. Their points refer to `cases` by number, if there are any; these
/// numbers are added to `named`.
pub(crate) fn blocks<'a>(
    alloc: Global,
    cases: Option<&[Case]>,
    named: &mut Vec<CaseNumber>,
    bytes: &'a [u8],
) -> Result<(Vec<EntryCert>, &'a [u8]), Failure<BlockFault>>
    ensures read { Reads (λ x. (x.0.items, x.1.now)) result (blocks_at (listed_points_at (option_map (λ x. x.now)
        cases.entry)) bytes.now) }
    ensures numbers { IfOk result (λ x. AddsNumbers (option_map (λ x. x.now)
        cases.entry) named.old.items named.new.items (cases_of_blocks x.0.items)) }
{
    let mut seen: IndexSet<Vec<u8>> = IndexSet::new(alloc);
    let mut found: Vec<EntryCert> = Vec::new(alloc);
    let mut rest = bytes;
    while let Some(after) = word_of(b"entry ", rest) {
        let (item, after) = block(alloc, cases, named, &mut seen, after)?;
        found.push(item)?;
        rest = after;
    }
    Ok((found, rest))
}
