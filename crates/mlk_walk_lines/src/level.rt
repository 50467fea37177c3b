// Lines of one level, and their blocks.

ghost use Rattle.std.specs.Prelude.{◌≡◌, ◌++◌, IfOk, OnOk, Option, drop, map, option_map, option_copied};
ghost use Rattle.mlk_syntax.specs.Views.{line_of, lines_from};
ghost use Rattle.mlk_walk_exprs.specs.declared.spot.Block.{Block};
ghost use Rattle.mlk_walk_state.specs.Scope.{scope_of};
ghost use Rattle.mlk_walk_lines.specs.Endings.{OfBlock, around_of, head_of, number_of};
ghost use Rattle.mlk_walk_lines.specs.Lines.{block_with, head_walk, line_walk, found_in, walk_lines};
ghost use Rattle.mlk_walk_lines.specs.Parts.{first_or, part_walk};

use crate::control::{begin, commands};
use crate::ending::Ends;
use crate::found::LineFaults;
use crate::line_end::{Around, LineEnd, Surroundings};
use mlk_calls::Scope;
use mlk_cert_parts::Case;
use mlk_syntax::Line;
use mlk_text::{Column, List};
use mlk_walk_exprs::{Block, Spot};
use std::alloc::{AllocError, Global};

// The line at which a job continues: the first of `later`, otherwise `after`, if there is one.
fn next_of<'a>(later: &'a [Line], after: Option<&'a Line>) -> Option<&'a Line>
    ensures { option_map head_of (option_copied result)
        ≡ first_or (option_map head_of (option_copied after.entry)) (lines_from (map line_of later.now)) }
{
    match later.first() {
        Some(line) => Some(line),
        None => after,
    }
}

// The block of a line, with the cases in which it may end.
fn block_of(lines: &[Line], ends: List<Case>) -> Option<Block>
    ensures { result ≡ block_with (lines_from (map line_of lines.now)) ends }
{
    let first = lines.first()?;
    Some(Block {
        first: first.number,
        ends,
    })
}

// Walks a line to its end.
fn walk_head<'a>(
    alloc: Global,
    scope: &'a Scope<'a>,
    around: Around<'a>,
    next: Option<&'a Line>,
    block: &'a Option<Block>,
    line: &'a Line,
) -> Result<Ends, AllocError>
    ensures { IfOk result (λ e. e ≡ head_walk (scope_of scope.now) (around_of around.entry) (option_map head_of (option_copied next.entry))
        block.now (head_of line.now)) }
{
    let Ok(level) = u32::try_from(line.level) else {
        return Err(AllocError);
    };
    let spot = Spot {
        alloc,
        scope,
        line: line.number,
        level,
        block: block.as_ref(),
        word: Column::new(1),
    };
    let mut walk = begin(alloc, scope.listed_cases(line.number, 0))?;
    commands(&spot, &line.commands, &mut walk)?;
    let end = LineEnd {
        alloc,
        scope,
        around,
        next,
        line: line.number,
        level: line.level,
        column: line.end,
    };
    end.close(walk)
}

fn without_first(lines: &[Line]) -> &[Line]
    ensures { result.now ≡ drop 1 lines.now }
{
    match lines.split_first() {
        None => lines,
        Some((_, later)) => later,
    }
}

/// Walks one line alone, whose block may end in the cases `inner`. Adds the faults, and returns the cases in which the block
/// that contains the line may end.
pub fn walk_alone<'a>(
    alloc: Global,
    scope: &'a Scope<'a>,
    line: &'a Line,
    surroundings: Surroundings<'a>,
    inner: List<Case>,
    found: &mut LineFaults,
) -> Result<Vec<Case>, AllocError>
    ensures faults { OnOk result (found.new ≡ found.old
        ++ map (found_in (number_of (head_of line.now))) (head_walk (scope_of scope.now)
        (around_of surroundings.entry.around) (option_map head_of (option_copied surroundings.entry.next))
        (block_with (line_of line.now).1 inner) (head_of line.now)).faults) }
    ensures ends { IfOk result (λ v. v.items ≡ (head_walk (scope_of scope.now)
        (around_of surroundings.entry.around) (option_map head_of (option_copied surroundings.entry.next))
        (block_with (line_of line.now).1 inner) (head_of line.now)).cases) }
{
    let block = block_of(line.block.as_slice(), inner);
    let Surroundings { around, next } = surroundings;
    let ends = walk_head(alloc, scope, around, next, &block, line)?;
    found.add(line.number, ends.faults)?;
    Ok(ends.cases.into_vec())
}

// Walks the block of a line. Most lines have none.
#[cycle(level)]
#[tactic(auto, using(crate::proofs::Parts::block_whole))]
#[inline(always)]
fn walk_block<'a>(
    alloc: Global,
    scope: &'a Scope<'a>,
    lines: &'a [Line],
    found: &mut LineFaults,
) -> Result<Vec<Case>, AllocError>
    ensures faults { OnOk result (found.new ≡ found.old
        ++ (walk_lines (scope_of scope.now) OfBlock (lines_from (map line_of lines.now))).faults) }
    ensures ends { IfOk result (λ v. v.items
        ≡ (walk_lines (scope_of scope.now) OfBlock (lines_from (map line_of lines.now))).ends) }
{
    if lines.is_empty() {
        return Ok(Vec::new(alloc));
    }
    walk_lines(alloc, &*scope, lines, Around::Block, None, found)
}

// Walks a line, after its block.
#[cycle(level)]
fn walk_line<'a>(
    alloc: Global,
    scope: &'a Scope<'a>,
    line: &'a Line,
    around: Around<'a>,
    next: Option<&'a Line>,
    found: &mut LineFaults,
) -> Result<Vec<Case>, AllocError>
    ensures faults { OnOk result (found.new ≡ found.old
        ++ ((walk_lines (scope_of scope.now) OfBlock (line_of line.now).1).faults
        ++ map (found_in (number_of (head_of line.now))) (line_walk (scope_of scope.now) (around_of around.entry)
        (option_map head_of (option_copied next.entry)) (head_of line.now) (line_of line.now).1
        (walk_lines (scope_of scope.now) OfBlock (line_of line.now).1)).faults)) }
    ensures ends { IfOk result (λ v. v.items ≡ (line_walk (scope_of scope.now) (around_of around.entry)
        (option_map head_of (option_copied next.entry)) (head_of line.now) (line_of line.now).1
        (walk_lines (scope_of scope.now) OfBlock (line_of line.now).1)).cases) }
{
    let block = line.block.as_slice();
    let inner = walk_block(alloc, &*scope, block, found)?;
    let block = block_of(block, List::of(inner));
    let ends = walk_head(alloc, &*scope, around, next, &block, &*line)?;
    found.add(line.number, ends.faults)?;
    Ok(ends.cases.into_vec())
}

/// Walks consecutive lines of one level, and their blocks. Adds the faults, and returns the cases in which the block that
/// contains the lines may end. After the last of them a job continues at `after`, if there is such a line. A line past all points
/// of the scope is only looked at.
#[cycle(level)]
pub fn walk_lines<'a>(
    alloc: Global,
    scope: &'a Scope<'a>,
    lines: &'a [Line],
    around: Around<'a>,
    after: Option<&'a Line>,
    found: &mut LineFaults,
) -> Result<Vec<Case>, AllocError>
    ensures faults { OnOk result (found.new ≡ found.old ++ (part_walk (scope_of scope.now) (around_of around.entry)
        (option_map head_of (option_copied after.entry)) (lines_from (map line_of lines.now))).faults) }
    ensures ends { IfOk result (λ v. v.items ≡ (part_walk (scope_of scope.now) (around_of around.entry)
        (option_map head_of (option_copied after.entry)) (lines_from (map line_of lines.now))).ends) }
{
    let mut all = Vec::new(alloc);
    let mut later = lines;
    let mut here = *scope;
    for line in lines {
        later = without_first(later);
        if here.is_past(line.number) && line.block.as_slice().is_empty() {
            continue;
        }
        here = here.starting_at(line.number);
        let mut ends = walk_line(alloc, &here, line, around, next_of(later, after), found)?;
        all.append(&mut ends)?;
    }
    Ok(all)
}
