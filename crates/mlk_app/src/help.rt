// What explains a refusal to people.

use crate::refused::{Refused, refused_spot};
use crate::stuck::push_faults;
use crate::work::style_in;
use mlk_cert::CertFault;
use mlk_cli::ProgramRequest;
use mlk_dialect::Dialect;
use mlk_files::{Files, Sources};
use mlk_outcome::NoReport;
use mlk_pool::CheckError;
use mlk_refusal_lines::refusal_code;
use mlk_refusal_text::{
    GivenFile, Spot, code_help, entry_help, extended_note, line_help, routine_help, rules_help,
    unread_help,
};
use mlk_rules_file::RulesFault;
use mlk_text::{Code, Fault};
use mlk_watch::{Runner, Watch};
use std::alloc::{AllocError, Global};
use std::sync::Wait;
use std::thread::Threads;

/// How much is explained to whoever reads the error stream.
#[derive(Clone, Copy, PartialEq, Eq)]
pub enum Explaining {
    /// what the words ask for
    AsAsked,
    /// refusals too, if the words don't ask for it: people read the stream on a terminal
    Refusals,
}

/// Whether a refusal of `program` is to be explained.
pub(crate) fn is_refusal_explained(program: &ProgramRequest<'_>, explaining: Explaining) -> bool {
    style_in(&program.asked).is_explained || explaining == Explaining::Refusals
}

// What explains why the routine in `file` is refused, which is read in `dialect`.
fn routine_explanation(
    alloc: Global,
    dialect: Dialect,
    file: &GivenFile<'_>,
    fault: &Fault,
) -> Result<Vec<u8>, AllocError> {
    let note = match dialect {
        Dialect::Standard => extended_note(alloc, file, fault)?,
        Dialect::Extended => None,
    };
    routine_help(alloc, file, fault, note)
}

// What explains a refusal of this code in a file, where routines are read in `dialect`.
fn explanation(
    alloc: Global,
    code: Code,
    refusal: &NoReport,
    dialect: Dialect,
    file: &GivenFile<'_>,
) -> Result<Vec<u8>, AllocError> {
    match refusal {
        NoReport::Check(CheckError::Rules(fault)) => rules_help(alloc, file, fault),
        NoReport::Check(CheckError::Entry(entry)) => entry_help(alloc, file, entry.as_bytes()),
        NoReport::Check(CheckError::Routine(fault)) => {
            routine_explanation(alloc, dialect, file, fault)
        }
        _ => match refused_spot(alloc, refusal, file.text) {
            Ok(Some(spot)) => line_help(alloc, code, file, spot),
            Ok(None) => code_help(alloc, code),
            Err(AllocError) => Err(AllocError),
        },
    }
}

/// Writes what explains a refusal below its line: the line of the file, what is wrong there and what helps. Nothing is written
/// unless an explanation is asked for. If no certificate can be made, the faults of the other entries follow, if the words ask for
/// explanations.
pub(crate) fn refusal_help<R: Threads + Wait + Sync, W: Watch>(
    runner: &Runner<'_, R, W>,
    refused: &Refused<'_>,
    program: &ProgramRequest<'_>,
    sources: &Sources<'_>,
    explaining: Explaining,
) -> Result<Vec<u8>, AllocError> {
    let alloc = runner.alloc;
    let code = match refusal_code(refused.why) {
        Some(code) if is_refusal_explained(program, explaining) => code,
        _ => return Ok(Vec::new(alloc)),
    };
    let mut help = match refused.file(program, sources) {
        Some(file) => explanation(alloc, code, refused.why, sources.dialect(), &file)?,
        None => code_help(alloc, code)?,
    };
    if code == Code::GaveUp && style_in(&program.asked).is_explained {
        push_faults(runner, &mut help, sources)?;
    }
    Ok(help)
}

/// Writes what explains why the certificate at `path`, which has this text, is refused; nothing unless `explaining` asks for it.
pub(crate) fn certificate_help<'a>(
    alloc: Global,
    path: &'a str,
    text: &'a [u8],
    fault: &CertFault,
    explaining: Explaining,
) -> Result<Vec<u8>, AllocError> {
    if explaining == Explaining::AsAsked {
        return Ok(Vec::new(alloc));
    }
    let file = GivenFile { path, text };
    let spot = Spot {
        line: fault.line,
        column: None,
    };
    line_help(alloc, fault.code, &file, spot)
}

/// Writes what explains why the rule file at `path`, which has this text, is refused; nothing unless `explaining` asks for it.
pub(crate) fn rule_file_help<'a>(
    alloc: Global,
    path: &'a str,
    text: &'a [u8],
    fault: &RulesFault,
    explaining: Explaining,
) -> Result<Vec<u8>, AllocError> {
    if explaining == Explaining::AsAsked {
        return Ok(Vec::new(alloc));
    }
    rules_help(alloc, &GivenFile { path, text }, fault)
}

/// Writes what explains why no stubs are written; nothing unless `explaining` asks for it.
pub(crate) fn stub_help(
    alloc: Global,
    fault: &Fault,
    explaining: Explaining,
) -> Result<Vec<u8>, AllocError> {
    if explaining == Explaining::AsAsked {
        return Ok(Vec::new(alloc));
    }
    code_help(alloc, fault.code)
}

/// Writes why the file at `path` can't be read, below the line that says so; for this it is read once more. Nothing is written
/// unless it is to be explained, or if it can be read now.
pub(crate) fn why_unread<F: Files>(
    alloc: Global,
    files: &F,
    path: &str,
    is_explained: bool,
) -> Result<Vec<u8>, AllocError> {
    if !is_explained {
        return Ok(Vec::new(alloc));
    }
    match files.read(alloc, path) {
        Ok(_) => Ok(Vec::new(alloc)),
        Err(error) => unread_help(alloc, path, error.kind()),
    }
}
