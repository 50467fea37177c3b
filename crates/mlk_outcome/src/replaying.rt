// From the text of events to that of the jobs.

ghost use Rattle.std.specs.Prelude.{◌≡◌, IfOk, IfErr, map};
ghost use Rattle.mlk_syntax.specs.Views.{routine_of};
ghost use Rattle.mlk_machine.specs.Systems.{jobs_in, routines_in};
ghost use Rattle.mlk_machine_view.specs.Printed.{system_text};
ghost use Rattle.mlk_outcome.specs.Replaying.{AreDeclared, ReportsEntry, IsUndeclared, IsShown, IsShownAs};
ghost use Rattle.mlk_outcome.specs.Replaying.{IsStopped, IsReplayed, IsUnreplayed, has_notes};

use crate::refusal::NoReport;
use mlk_machine::{System, replay_events};
use mlk_machine_view::system_text;
use mlk_pool::CheckError;
use mlk_program::{EntryId, Program};
use mlk_replay_text::{ShownRoutine, explained_text};
use mlk_rules::{Rules, entries};
use mlk_text::Value;
use std::alloc::{AllocError, Global};

// Reports `entry`, which is not in the routines.
fn entry_missing(alloc: Global, entry: &[u8]) -> NoReport
    ensures { ReportsEntry entry.now result }
{
    match Vec::from_slice(alloc, entry) {
        Ok(text) => NoReport::Check(CheckError::Entry(Value::new(text))),
        Err(_) => NoReport::Check(CheckError::OutOfMemory),
    }
}

/// The entries that `texts` name; refuses the first text that names none (901).
pub fn declared_entries(
    alloc: Global,
    program: &Program<'_>,
    texts: &[Value],
) -> Result<Vec<EntryId>, NoReport>
    ensures ok { IfOk result (λ found. AreDeclared (map routine_of program.now) texts.now found.items) }
    ensures refused { IfErr result (IsUndeclared (map routine_of program.now) texts.now) }
{
    let mut found = Vec::new(alloc);
    let mut left = texts;
    while let Some((text, others)) = left.split_first() {
        let Some(entry) = program.entry(text.as_bytes()) else {
            return Err(entry_missing(alloc, text.as_bytes()));
        };
        if found.push(entry).is_err() {
            return Err(NoReport::Check(CheckError::OutOfMemory));
        }
        left = others;
    }
    Ok(found)
}

/// How jobs are shown.
#[derive(Clone, Copy, Drop)]
pub enum Showing<'t> {
    Plain,
    /// with notes on where they are, in these texts of the routines
    Explained(&'t [ShownRoutine<'t>]),
}

// The text that shows the jobs of `system`.
fn shown_text(
    alloc: Global,
    system: &System<'_>,
    showing: Showing<'_>,
) -> Result<Vec<u8>, AllocError>
    ensures { IfOk result (λ text. IsShownAs (has_notes showing.entry)
        (system_text (routines_in system.now) (jobs_in system.now)) text.items) }
{
    match showing {
        Showing::Plain => {
            let text = system_text(alloc, system)?;
            Ok(text.into_bytes())
        }
        Showing::Explained(texts) => explained_text(alloc, system, texts),
    }
}

// The text that shows the jobs of `program` after all lines of `events`, begun at `entries`.
fn text_after<'a>(
    alloc: Global,
    program: &'a Program<'a>,
    entries: &'a [EntryId],
    events: &[u8],
    showing: Showing<'_>,
) -> Result<Vec<u8>, NoReport>
    ensures ok { IfOk result
        (λ text. IsShown (has_notes showing.entry) program.now entries.now events.now text.items) }
    ensures refused { IfErr result (IsStopped program.now entries.now events.now) }
{
    let system = replay_events(alloc, program, entries, events)?;
    let text = shown_text(alloc, &system, showing)?;
    Ok(text)
}

/// The text that shows the jobs of `program` after all lines of `events`, as `showing` says. Jobs begin at the entries that its
/// rules declare.
///
/// Refuses the first declared entry that is not in `program` (901), and the first line of `events` that can't be followed (501 to
/// 504).
pub fn jobs_text(
    alloc: Global,
    program: &Program<'_>,
    rules: &Rules,
    events: &[u8],
    showing: Showing<'_>,
) -> Result<Vec<u8>, NoReport>
    ensures ok { IfOk result (λ text. IsReplayed (has_notes showing.entry)
        (map routine_of program.now) rules.now events.now text.items) }
    ensures refused { IfErr result (IsUnreplayed (map routine_of program.now) rules.now events.now) }
{
    let listed = declared_entries(alloc, program, entries(rules))?;
    text_after(alloc, program, listed.as_slice(), events, showing)
}
