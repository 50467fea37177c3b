// Blocks under the lines that head them.

ghost use Rattle.std.specs.Prelude.{◌≡◌, ◌<◌, ◌∷◌, suc, map, false, IfOk, MatchOption};
ghost use Rattle.mlk_routine.specs.RoutineGrammar.{level_of};
ghost use Rattle.mlk_syntax.specs.Views.{line_of, lines_from};
ghost use Rattle.mlk_routine.specs.Lines.{head_of, Upto, IsBlock, IsNotDeeper};

use mlk_syntax::Line;
use mlk_text::{drop_and_return, make_room};
use std::alloc::{AllocError, Global};
use std::collections::VecDeque;

// Removes and returns the next line if it is deeper than `level`, otherwise `None`.
fn take_deeper(level: usize, lines: &mut VecDeque<Line>) -> Option<Line>
    ensures { MatchOption result
        ((lines.new.items ≡ lines.old.items) × IsNotDeeper level lines.old.items)
        (λ l. (lines.old.items ≡ l ∷ lines.new.items) × (level < level_of (head_of l))) }
{
    match lines.front() {
        Some(next) if next.level > level => lines.pop_front(),
        _ => None,
    }
}

// The number of lines at the front that are deeper than `level`: those of the block, or more if some have blocks of their own.
fn deeper_count(level: usize, lines: &VecDeque<Line>) -> usize {
    lines.iter().take_while(|line| line.level > level).count()
}

// Whether the next line is deeper than `level`.
fn is_deeper(level: usize, lines: &VecDeque<Line>) -> bool
    ensures { result ≡ false → IsNotDeeper level lines.now.items }
{
    match lines.front() {
        Some(next) => next.level > level,
        None => false,
    }
}

// The block under a line of `level`, as `block` returns it. Most lines have none, and then `block` is not called.
#[cycle(blocks)]
#[inline(always)]
fn block_under(
    alloc: Global,
    level: usize,
    lines: &mut VecDeque<Line>,
) -> Result<Vec<Line>, AllocError>
    requires { Upto (suc level) (map head_of lines.old.items) }
    ensures { IfOk result (λ v. IsBlock level (lines_from (map line_of v.items))
        (map head_of lines.old.items) (map head_of lines.new.items)) }
{
    if is_deeper(level, lines) {
        return block(alloc, level, lines);
    }
    Ok(Vec::new(alloc))
}

/// Removes the lines at the front that are deeper than `level` and returns them, each with its block.
#[cycle(blocks)]
pub(crate) fn block(
    alloc: Global,
    level: usize,
    lines: &mut VecDeque<Line>,
) -> Result<Vec<Line>, AllocError>
    requires { Upto (suc level) (map head_of lines.old.items) }
    ensures { IfOk result (λ v. IsBlock level (lines_from (map line_of v.items))
        (map head_of lines.old.items) (map head_of lines.new.items)) }
{
    let mut found = Vec::with_capacity(alloc, deeper_count(level, lines))?;
    while let Some(mut line) = take_deeper(level, lines) {
        let Ok(inner) = block_under(alloc, line.level, lines) else {
            return Err(drop_and_return(line, AllocError));
        };
        line.block = inner;
        let Ok(()) = make_room(&mut found) else {
            return Err(drop_and_return(line, AllocError));
        };
        found.push_reserved(line);
    }
    found.shrink_to_fit();
    Ok(found)
}
