// The texts of routines, read side by side.

ghost use Rattle.std.specs.Prelude.{◌≡◌, ◌≤◌, ◌<◌, ◌++◌, List, drop, length, map, IfOk, IfErr};
ghost use Rattle.std.specs.List.{AllZip};
ghost use Rattle.mlk_syntax.specs.Views.{routine_of};
ghost use Rattle.mlk_reading.specs.Answers.{IsAnswer};
ghost use Rattle.mlk_reading.specs.Reading.{AreRead, RefusesFirst};
ghost use Rattle.mlk_reading.specs.declared.source.Source.{Source};

use crate::readers::{read_all, reader_answers};
use crate::source::Source;
use mlk_syntax::Routine;
use mlk_text::{Failure, Fault};
use mlk_watch::{Runner, Stage, Watch};
use std::alloc::AllocError;
use std::thread::Threads;

// How many texts are read at once, so that it is seen how far the reading has come, and that it ends where one is refused.
const AT_ONCE: usize = 256;

// The texts that are read at once after this number of them.
fn next_texts<'s, 'a>(sources: &'s [Source<'a>], done: usize) -> &'s [Source<'a>]
    requires { done < length sources.now }
    ensures cut { (after : List Source) × (result.now ++ after ≡ drop done sources.now) }
    ensures some { 0 < length result.now }
{
    let (_, left) = sources.split_at(done);
    let (next, _) = left.split_at(left.len().min(AT_ONCE));
    next
}

/// The routines of the texts `sources`, in their order, or the first refusal.
pub fn read_routines<R: Threads + Sync, W: Watch>(
    runner: &Runner<'_, R, W>,
    sources: &[Source<'_>],
) -> Result<Vec<Routine>, Failure<Fault>>
    ensures ok { IfOk result (λ r. AreRead sources.now (map routine_of r.items)) }
    ensures refused { IfErr result (RefusesFirst sources.now) }
{
    let count = sources.len();
    let mut routines = Vec::new(runner.alloc);
    let mut done = 0;
    while done < count {
        runner.watch.see(Stage::Reading, done, count);
        let next = next_texts(sources, done);
        match read_all(runner.rt, runner.alloc, next) {
            Ok(mut read) => routines.append(&mut read)?,
            Err(failure) => {
                runner.watch.discard(routines);
                return Err(failure);
            }
        }
        done += next.len();
    }
    Ok(routines)
}

/// For each of the texts `sources` its routine, or why it is none, in their order: each is read by itself, and one that is
/// refused stops nothing.
pub fn read_each<R: Threads + Sync, W: Watch>(
    runner: &Runner<'_, R, W>,
    sources: &[Source<'_>],
) -> Result<Vec<Result<Routine, Failure<Fault>>>, AllocError>
    ensures { IfOk result (λ found. AllZip IsAnswer sources.now found.items) }
{
    let count = sources.len();
    let mut found = Vec::new(runner.alloc);
    let mut done = 0;
    while done < count {
        runner.watch.see(Stage::Reading, done, count);
        let next = next_texts(sources, done);
        let mut read = reader_answers(runner.rt, runner.alloc, next)?;
        found.append(&mut read)?;
        done += next.len();
    }
    Ok(found)
}
