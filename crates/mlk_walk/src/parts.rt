// The walk of lines in parts, in parallel.

ghost use Rattle.std.specs.Prelude.{◌≡◌, ◌∷◌, ◌++◌, [], IfOk, IfSome, map, option_map, option_copied};
ghost use Rattle.std.specs.Thread.{IsSync};
ghost use Rattle.mlk_syntax.specs.Views.{line_of, lines_from};
ghost use Rattle.mlk_walk_state.specs.Scope.{scope_of};
ghost use Rattle.mlk_walk_lines.specs.Endings.{OfBlock, around_of, head_of};
ghost use Rattle.mlk_walk_lines.specs.Lines.{walk_lines};
ghost use Rattle.mlk_walk_lines.specs.Parts.{first_or};
ghost use Rattle.mlk_walk.specs.Parts.{IsJoined, IsWalk, after_of, trees_of, walk_of};

use mlk_calls::Scope;
use mlk_cert_parts::Case;
use mlk_syntax::Line;
use mlk_text::{LineNumber, List};
use mlk_walk_exprs::Note;
use mlk_walk_lines::{Around, LineFault, LineFaults, Surroundings, walk_alone, walk_lines};
use std::alloc::{AllocError, Global};
use std::thread;
use std::thread::Threads;

/// An observer of the lists of lines into which a walk is cut.
pub trait Pieces {
    /// Called when the walk of a list that is not cut further begins; `line` is the list's first line.
    fn on_begin(&self, line: LineNumber);
}

/// An observer that ignores everything.
#[derive(Clone, Copy, Drop)]
pub struct Unseen;

impl Pieces for Unseen {
    fn on_begin(&self, _line: LineNumber) {}
}

/// Consecutive lines of one level.
#[derive(Clone, Copy, Drop)]
pub(crate) struct Part<'a> {
    pub(crate) lines: &'a [Line],
    pub(crate) around: Around<'a>,
    /// the line that follows them, if there is one
    pub(crate) after: Option<&'a Line>,
}

/// The result of a part's walk: the faults in the order in which they were found, with their notes, and the cases in which the
/// block that contains the lines may end.
#[derive(Drop)]
pub(crate) struct PartWalk {
    pub(crate) faults: Vec<(LineFault, Note)>,
    pub(crate) ends: Vec<Case>,
}

// The line that follows before `later`, the remaining lines of a part.
fn next_of<'a>(part: Part<'a>, later: &'a [Line]) -> Option<&'a Line>
    ensures { option_map head_of (option_copied result)
        ≡ first_or (after_of part.entry) (lines_from (map line_of later.now)) }
{
    match later.first() {
        Some(line) => Some(line),
        None => part.after,
    }
}

// The front half, rounded up, and the back half.
fn halves<'a>(part: Part<'a>) -> (Part<'a>, Part<'a>)
    ensures lines { part.entry.lines.now ≡ result.0.lines.now ++ result.1.lines.now }
    ensures around { (result.0.around ≡ part.entry.around) × (result.1.around ≡ part.entry.around) }
    ensures after { (after_of result.0 ≡ first_or (after_of part.entry) (trees_of result.1))
        × (after_of result.1 ≡ after_of part.entry) }
{
    let (front, back) = part.lines.split_at(part.lines.len().div_ceil(2));
    let first = Part {
        lines: front,
        around: part.around,
        after: next_of(part, back),
    };
    let second = Part {
        lines: back,
        around: part.around,
        after: part.after,
    };
    (first, second)
}

// The line of a list that has exactly one, otherwise `None`.
fn only_line(lines: &[Line]) -> Option<&Line>
    ensures { IfSome result (λ l. lines.now ≡ l.now ∷ []) }
{
    match lines.split_first() {
        Some((line, later)) if later.is_empty() => Some(line),
        _ => None,
    }
}

// Joins the results of two parts, the first before the second.
fn join_parts(front: PartWalk, back: PartWalk) -> Result<PartWalk, AllocError>
    ensures { IfOk result (IsJoined front back) }
{
    let PartWalk {
        mut faults,
        mut ends,
    } = front;
    let mut back = back;
    faults.append(&mut back.faults)?;
    ends.append(&mut back.ends)?;
    Ok(PartWalk { faults, ends })
}

// Walks a part that is not cut.
fn walk_whole<'a>(
    alloc: Global,
    scope: &'a Scope<'a>,
    part: Part<'a>,
) -> Result<PartWalk, AllocError>
    ensures { IfOk result (IsWalk (walk_of (scope_of scope.now) part.entry)) }
{
    let mut found = LineFaults::new(alloc);
    let ends = walk_lines(
        alloc,
        scope,
        part.lines,
        part.around,
        part.after,
        &mut found,
    )?;
    Ok(PartWalk {
        faults: found.into_vec(),
        ends,
    })
}

// Walks the part of the single line `line`, given the result of its block.
fn walk_head<'a>(
    alloc: Global,
    scope: &'a Scope<'a>,
    part: Part<'a>,
    line: &'a Line,
    block: PartWalk,
) -> Result<PartWalk, AllocError>
    requires one { part.lines.now ≡ line.now ∷ [] }
    requires block { IsWalk (walk_lines (scope_of scope.now) OfBlock (line_of line.now).1) block }
    ensures { IfOk result (IsWalk (walk_of (scope_of scope.now) part.entry)) }
{
    let PartWalk {
        faults: mut all,
        ends: inner,
    } = block;
    let surroundings = Surroundings {
        around: part.around,
        next: part.after,
    };
    let mut found = LineFaults::new(alloc);
    let ends = walk_alone(
        alloc,
        scope,
        line,
        surroundings,
        List::of(inner),
        &mut found,
    )?;
    let mut own = found.into_vec();
    all.append(&mut own)?;
    Ok(PartWalk { faults: all, ends })
}

// Walks the part of the single line `line`, whose block may be cut.
#[cycle(split)]
fn walk_one<'a, P: Pieces + Sync, R: Threads + Sync>(
    rt: &R,
    alloc: Global,
    scope: &'a Scope<'a>,
    part: Part<'a>,
    line: &'a Line,
    depth: u32,
    pieces: &P,
) -> Result<PartWalk, AllocError>
    requires { part.lines.now ≡ line.now ∷ [] }
    ensures { IfOk result (IsWalk (walk_of (scope_of scope.now) part.entry)) }
{
    let block = Part {
        lines: line.block.as_slice(),
        around: Around::Block,
        after: None,
    };
    let inner = walk_part(rt, alloc, scope, block, depth, pieces)?;
    walk_head(alloc, scope, part, line, inner)
}

// Walks two parts in parallel.
#[cycle(split)]
fn walk_both<'a, P: Pieces + Sync, R: Threads + Sync>(
    rt: &R,
    alloc: Global,
    scope: &'a Scope<'a>,
    first: Part<'a>,
    second: Part<'a>,
    depth: u32,
    pieces: &P,
) -> (Result<PartWalk, AllocError>, Result<PartWalk, AllocError>)
    ensures first { IfOk result.0 (IsWalk (walk_of (scope_of scope.now) first.entry)) }
    ensures second { IfOk result.1 (IsWalk (walk_of (scope_of scope.now) second.entry)) }
{
    let front = move || -> Result<PartWalk, AllocError>
        requires { IsSync R.row × IsSync P.row }
        ensures { IfOk result (IsWalk (walk_of (scope_of scope.entry.now) first.entry)) }
    { walk_part(rt, alloc, scope, first, depth, pieces) };
    let back = move || -> Result<PartWalk, AllocError>
        requires { IsSync R.row × IsSync P.row }
        ensures { IfOk result (IsWalk (walk_of (scope_of scope.entry.now) second.entry)) }
    { walk_part(rt, alloc, scope, second, depth, pieces) };
    thread::join(rt, front, back)
}

// Walks a part by its halves, in parallel.
#[cycle(split)]
fn walk_halves<'a, P: Pieces + Sync, R: Threads + Sync>(
    rt: &R,
    alloc: Global,
    scope: &'a Scope<'a>,
    part: Part<'a>,
    depth: u32,
    pieces: &P,
) -> Result<PartWalk, AllocError>
    ensures { IfOk result (IsWalk (walk_of (scope_of scope.now) part.entry)) }
{
    let (first, second) = halves(part);
    let (front, back) = walk_both(rt, alloc, scope, first, second, depth, pieces);
    let front = front?;
    let back = back?;
    join_parts(front, back)
}

/// Walks a part. It is cut into halves, which are walked in parallel and cut again, up to `depth` times; if a single line is
/// left, its block is cut instead. If no thread starts, the caller walks that half.
#[cycle(split)]
pub(crate) fn walk_part<'a, P: Pieces + Sync, R: Threads + Sync>(
    rt: &R,
    alloc: Global,
    scope: &'a Scope<'a>,
    part: Part<'a>,
    depth: u32,
    pieces: &P,
) -> Result<PartWalk, AllocError>
    ensures { IfOk result (IsWalk (walk_of (scope_of scope.now) part.entry)) }
{
    if depth > 0 && part.lines.len() > 1 {
        return walk_halves(rt, alloc, scope, part, depth - 1, pieces);
    }
    if let Some(first) = part.lines.first() {
        pieces.on_begin(first.number);
    }
    match only_line(part.lines) {
        Some(line) if depth > 0 => walk_one(rt, alloc, scope, part, line, depth, pieces),
        _ => walk_whole(alloc, scope, part),
    }
}
