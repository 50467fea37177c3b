// A suggestion of rules, from the texts of routines.

ghost use Rattle.std.specs.Prelude.{IfOk};
ghost use Rattle.mlk_suggest_text.specs.RuleTexts.{IsRuleText};

use crate::file::suggestion_text;
use crate::rule_text::{RuleText, checked_text};
use crate::view::View;
use mlk_report_text::Piece::{Bytes, Words};
use mlk_report_text::push_all;
use mlk_suggest::evidence_of;
use mlk_suggest_read::{PartlyRead, RoutineText, read_partly};
use mlk_suggest_rules::{KnownRules, guess_of};
use mlk_suggest_steps::{Program, program_of};
use mlk_syntax::Routine;
use mlk_text::{Failure, push_sparing};
use std::alloc::{AllocError, Global};

// The routines that were read, in the order of their names.
fn in_order<'a>(alloc: Global, read: &'a PartlyRead) -> Result<Vec<&'a Routine>, AllocError> {
    let mut routines = Vec::with_capacity(alloc, read.routines.len())?;
    for routine in &read.routines {
        push_sparing(&mut routines, routine)?;
    }
    routines.sort_by(|routine, other| routine.name.as_bytes().cmp(other.name.as_bytes()))?;
    Ok(routines)
}

// The text of the suggestion for a program.
fn program_text(
    alloc: Global,
    read: &PartlyRead,
    program: &Program<'_>,
    known: KnownRules<'_>,
) -> Result<Vec<u8>, AllocError> {
    let evidence = evidence_of(alloc, program)?;
    let guess = guess_of(alloc, &*program, &evidence, known)?;
    let view = View {
        alloc,
        read,
        program,
        tables: &evidence.tables,
        guess: &guess,
    };
    suggestion_text(&view)
}

// The text of the suggestion for the routines that were read.
fn routines_text(
    alloc: Global,
    read: &PartlyRead,
    known: KnownRules<'_>,
) -> Result<Vec<u8>, AllocError> {
    let routines = in_order(alloc, read)?;
    let program = program_of(alloc, routines.as_slice())?;
    program_text(alloc, read, &program, known)
}

// The lines of a text as comments.
fn as_comments(alloc: Global, text: &[u8]) -> Result<Vec<u8>, AllocError> {
    let mut comments = Vec::new(alloc);
    push_all(
        &mut comments,
        &[Words(
            "# By a bug in mlock, this suggestion is not a valid rule file. So each line is a comment.\n",
        )],
    )?;
    for line in text.split(|byte| *byte == b'\n') {
        push_all(&mut comments, &[Words("# "), Bytes(line), Words("\n")])?;
    }
    Ok(comments)
}

// Reads the text back. If it is not a valid rule file, which would be a bug, its lines become comments.
fn read_back(alloc: Global, text: Vec<u8>) -> Result<RuleText, AllocError>
    ensures { IfOk result (λ text. IsRuleText text) }
{
    let comments = as_comments(alloc, text.as_slice())?;
    match checked_text(alloc, text) {
        Ok(checked) => Ok(checked),
        Err(Failure::OutOfMemory) => Err(AllocError),
        Err(Failure::Refused(_)) => match checked_text(alloc, comments) {
            Ok(checked) => Ok(checked),
            Err(_) => Err(AllocError),
        },
    }
}

/// The rule file that is suggested for the routines of `sources`, without rules for what `known` covers. Lines are cut before the
/// first part that can't be read. `read_rules` has accepted the text before it is returned.
pub fn suggested_rules(
    alloc: Global,
    sources: &[RoutineText<'_>],
    known: KnownRules<'_>,
) -> Result<RuleText, AllocError>
    ensures { IfOk result (λ text. IsRuleText text) }
{
    let read = read_partly(alloc, sources)?;
    let text = routines_text(alloc, &read, known)?;
    read_back(alloc, text)
}
