// The text of a system, with notes on where its jobs are.

ghost use Rattle.std.specs.Prelude.{◌≡◌, ◌≤◌, ◌∷◌, ◌++◌, IfOk, IfSome, length};
ghost use Rattle.mlk_machine.specs.Systems.{jobs_in, routines_in};
ghost use Rattle.mlk_machine_view.specs.Printed.{system_text};
ghost use Rattle.mlk_replay_text.specs.Explained.{IsExplained, Continues};

use crate::note::note_of;
use mlk_machine::System;
use mlk_machine_view::system_text;
use std::alloc::{AllocError, Global};

/// A routine as its lines are shown: its path, its text, and the text that is read, which is the same or has other words of the
/// same length.
#[derive(Clone, Copy, Drop)]
pub struct ShownRoutine<'t> {
    pub path: &'t str,
    pub text: &'t [u8],
    pub plain: &'t [u8],
}

// The number of bytes before the first line feed.
fn line_length(text: &[u8]) -> usize
    ensures { result ≤ length text.now }
{
    text.iter().take_while(|byte| **byte != b'\n').count()
}

// The notes on the jobs of a system, in their order.
fn notes_of(
    alloc: Global,
    system: &System<'_>,
    texts: &[ShownRoutine<'_>],
) -> Result<Vec<Vec<u8>>, AllocError> {
    let mut notes = Vec::new(alloc);
    for job in system.jobs() {
        let note = note_of(alloc, system.program(), job, texts)?;
        notes.push(note)?;
    }
    Ok(notes)
}

// The first line of `text` without its end, and what is after it; `None` if no line ends.
#[tactic(auto, using(crate::proofs::ExplainedLemmas::line_cut))]
fn first_line(text: &[u8]) -> Option<(&[u8], &[u8])>
    ensures { IfSome result (λ parts. text.now ≡ parts.0.now ++ 10 ∷ parts.1.now) }
{
    let (line, end) = text.split_at(line_length(text));
    match end {
        [b'\n', rest @ ..] => Some((line, rest)),
        _ => None,
    }
}

// Appends the first line of `left`, and `note` below it; returns the rest. Nothing is appended if no line ends.
#[tactic(auto, using(crate::proofs::ExplainedLemmas::same_continues, crate::proofs::ExplainedLemmas::line_continues))]
fn push_noted<'p>(text: &mut Vec<u8>, left: &'p [u8], note: &[u8]) -> Result<&'p [u8], AllocError>
    ensures { IfOk result (λ rest. Continues text.old.items left.now text.new.items rest.now) }
{
    let Some((line, rest)) = first_line(left) else {
        return Ok(left);
    };
    text.extend_from_slice(line)?;
    text.push(b'\n')?;
    text.extend_from_slice(note)?;
    Ok(rest)
}

// The text `plain`, with a note below each of its first lines.
#[tactic(auto, using(crate::proofs::ExplainedLemmas::same_continues, crate::proofs::ExplainedLemmas::continues_further, crate::proofs::ExplainedLemmas::reaches_end))]
fn with_notes(alloc: Global, plain: &[u8], notes: &[Vec<u8>]) -> Result<Vec<u8>, AllocError>
    ensures { IfOk result (λ text. IsExplained plain.now text.items) }
{
    let mut text = Vec::new(alloc);
    let mut left = plain;
    for note in notes {
        left = push_noted(&mut text, left, note.as_slice())?;
    }
    text.extend_from_slice(left)?;
    Ok(text)
}

/// The text of `system` with a note below the line of each job: the line of M where it is, and what its next step asks for. The
/// texts of the routines are in the order of the program.
pub fn explained_text(
    alloc: Global,
    system: &System<'_>,
    texts: &[ShownRoutine<'_>],
) -> Result<Vec<u8>, AllocError>
    ensures { IfOk result (λ text. IsExplained (system_text (routines_in system.now) (jobs_in system.now)) text.items) }
{
    let plain = system_text(alloc, system)?;
    let notes = notes_of(alloc, system, texts)?;
    with_notes(alloc, plain.as_bytes(), notes.as_slice())
}
