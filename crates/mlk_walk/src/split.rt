// The check of an entry whose lines are walked in parts, in parallel.

ghost use Rattle.std.specs.Prelude.{◌≡◌, ◌≤◌, IfOk, map};
ghost use Rattle.mlk_syntax.specs.Views.{routine_of};
ghost use Rattle.mlk_program.specs.Entries.{lines_of};
ghost use Rattle.mlk_walk_state.specs.Scope.{scope_of, scope_with};
ghost use Rattle.mlk_walk.specs.Faults.{ascending};
ghost use Rattle.mlk_walk.specs.Parts.{IsOfEntry};
ghost use Rattle.mlk_walk.specs.Verdicts.{all_faults, verdict};

use crate::begin::own_faults;
use crate::check::{Checks, verdict_of};
use crate::entry::{formals_of, line_after, number_of};
use crate::parts::{Part, Pieces, walk_part};
use crate::verdict::Verdict;
use mlk_calls::Scope;
use mlk_cert_parts::EntryCert;
use mlk_program::{EntryId, Program};
use mlk_walk_lines::Around;
use std::alloc::{AllocError, Global};
use std::thread::Threads;

/// How often a list of lines is cut at most: into up to 64 parts.
pub const DEEPEST_CUT: u32 = 6;

// The lines of an entry.
fn lines_in<'a>(program: &Program<'a>, entry: EntryId) -> Part<'a>
    ensures { IsOfEntry (map routine_of program.now) entry result }
{
    let after = line_after(program, entry);
    let lines = program.lines_of(entry);
    Part {
        lines,
        around: Around::Frame(after),
        after,
    }
}

// The verdict of an entry that is certified by a block.
fn verdict_by<P: Pieces + Sync, R: Threads + Sync>(
    rt: &R,
    alloc: Global,
    checks: &Checks<'_>,
    entry: EntryId,
    block: &EntryCert,
    depth: u32,
    pieces: &P,
) -> Result<Verdict, AllocError>
    ensures { IfOk result (λ v. v ≡ ascending (all_faults (map routine_of checks.now.program.now) entry
        (scope_with (map routine_of checks.now.program.now) checks.now.rules.now checks.now.entries.now entry block.now))) }
{
    let scope = Scope::of(checks.program, checks.rules, checks.entries, entry, block);
    let line = checks.program.line(entry);
    let own = own_faults(alloc, &scope, number_of(line), formals_of(line))?;
    let part = lines_in(checks.program, entry);
    let walk = walk_part(rt, alloc, &scope, part, depth, pieces)?;
    let mut verdict = Verdict::new(alloc);
    verdict.put_found(walk.faults)?;
    verdict.put_own(own)?;
    Ok(verdict)
}

/// The faults of an entry that `verdict_of` returns, by a walk of its lines in parts. A list of more than one line is cut into
/// halves, the first rounded up, which are walked in parallel and cut again, up to `depth` times: 0 cuts nothing, 6 makes up to
/// 64 parts of each list. The block of a single line is cut likewise. If no thread starts, the caller walks that half itself.
#[tactic(auto, unfolding(crate::specs::Verdicts::entry_faults))]
pub fn verdict_split<P: Pieces + Sync, R: Threads + Sync>(
    rt: &R,
    alloc: Global,
    checks: &Checks<'_>,
    entry: EntryId,
    depth: u32,
    pieces: &P,
) -> Result<Verdict, AllocError>
    requires { depth ≤ 6 }
    ensures { IfOk result (λ v. v ≡ verdict (map routine_of checks.now.program.now) checks.now.rules.now
        checks.now.entries.now entry) }
{
    match checks.entries.block(entry) {
        Some(block) => verdict_by(rt, alloc, checks, entry, block, depth, pieces),
        None => verdict_of(alloc, checks, entry),
    }
}
