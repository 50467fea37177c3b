// What is refused, and where.

use crate::stuck::none_if_refused;
use mlk_cli::{Asked, ProgramRequest};
use mlk_files::{Sources, Work};
use mlk_outcome::NoReport;
use mlk_pool::CheckError;
use mlk_reading::Source;
use mlk_refusal_text::{GivenFile, Spot, entry_place, rules_place};
use mlk_routine::read_routine;
use mlk_text::Code;
use std::alloc::{AllocError, Global};

// Whether a file with this stem is that of the routine of this name, in which a leading `%` may be a `_` of the stem.
fn is_stem_of(stem: &[u8], name: &[u8]) -> bool {
    if stem == name {
        return true;
    }
    let Some(stem) = stem.strip_prefix(b"_") else {
        return false;
    };
    let Some(name) = name.strip_prefix(b"%") else {
        return false;
    };
    stem == name
}

// Whether `source` is what is refused with this code, where all before it that have its routine's name are not: if the name is
// refused, the second of that name; otherwise the first that can't be read.
fn is_refused(
    alloc: Global,
    source: &Source<'_>,
    code: Code,
    is_second: bool,
) -> Result<bool, AllocError> {
    if code == Code::RoutineTwice {
        return Ok(is_second);
    }
    let read = read_routine(alloc, source.dialect, source.stem, source.text.as_slice());
    Ok(none_if_refused(read)?.is_none())
}

// The number of the text that is refused with this code, of those of the routine of this name. If all can be read, there is one.
fn refused_number(
    alloc: Global,
    sources: &[Source<'_>],
    name: &[u8],
    code: Code,
) -> Result<Option<usize>, AllocError> {
    let mut found = None;
    for (number, source) in sources.iter().enumerate() {
        if is_stem_of(source.stem, name) {
            let is_second = found.is_some();
            found = Some(number);
            if is_refused(alloc, source, code, is_second)? {
                break;
            }
        }
    }
    Ok(found)
}

// The file of the certificate, if one was given, or of the events.
fn work_file<'a>(program: &ProgramRequest<'a>, sources: &'a Sources<'a>) -> Option<GivenFile<'a>> {
    let path = match &program.asked {
        Asked::Check { certificate, .. } => *certificate,
        Asked::Replay { events, .. } => *events,
        Asked::Make { .. } | Asked::Verify { .. } => return None,
    };
    let text = match &sources.work {
        Work::Check { certificate, .. } => certificate.as_slice(),
        Work::Replay(events) => events.as_slice(),
        Work::Make { .. } | Work::Verify { .. } => return None,
    };
    Some(GivenFile { path, text })
}

/// The rule file.
pub(crate) fn rule_file<'a>(
    program: &ProgramRequest<'a>,
    sources: &'a Sources<'a>,
) -> GivenFile<'a> {
    GivenFile {
        path: program.rules,
        text: sources.rules.as_slice(),
    }
}

// The routine's name in `LABEL^ROUTINE`.
fn routine_in(entry: &[u8]) -> &[u8] {
    match entry.iter().position(|byte| *byte == b'^') {
        Some(caret) => entry.get(caret.saturating_add(1)..).unwrap_or(entry),
        None => entry,
    }
}

/// A refusal, and the number of the routine's text that is refused, if one is.
#[derive(Drop)]
pub(crate) struct Refused<'r> {
    pub(crate) why: &'r NoReport,
    number: Option<usize>,
}

impl<'r> Refused<'r> {
    /// Finds which of these texts of routines is refused.
    pub(crate) fn of(
        alloc: Global,
        why: &'r NoReport,
        sources: &[Source<'_>],
    ) -> Result<Refused<'r>, AllocError> {
        let number = match why {
            NoReport::Check(CheckError::Routine(fault)) => {
                let name = fault.place.routine.as_bytes();
                refused_number(alloc, sources, name, fault.code)?
            }
            NoReport::GaveUp(entry, _) => {
                refused_number(alloc, sources, routine_in(entry.as_bytes()), Code::GaveUp)?
            }
            _ => None,
        };
        Ok(Refused { why, number })
    }

    // The file of the routine that is refused.
    fn routine_file<'a>(
        &self,
        program: &ProgramRequest<'a>,
        sources: &'a Sources<'a>,
    ) -> Option<GivenFile<'a>> {
        let number = self.number?;
        let path = program.routines.as_slice().get(number).copied()?;
        let source = sources.routines.as_slice().get(number)?;
        Some(GivenFile {
            path,
            text: source.text.as_slice(),
        })
    }

    /// The file that is refused; `None` if no file is.
    pub(crate) fn file<'a>(
        &self,
        program: &ProgramRequest<'a>,
        sources: &'a Sources<'a>,
    ) -> Option<GivenFile<'a>> {
        match self.why {
            NoReport::Check(CheckError::Routine(_)) | NoReport::GaveUp(_, _) => {
                self.routine_file(program, sources)
            }
            NoReport::Check(CheckError::Certificate(_)) | NoReport::Events(_) => {
                work_file(program, sources)
            }
            NoReport::Check(CheckError::Rules(_) | CheckError::Entry(_)) => {
                Some(rule_file(program, sources))
            }
            NoReport::Check(
                CheckError::OutOfMemory | CheckError::Workers | CheckError::GateShut(_),
            ) => None,
        }
    }
}

/// Finds where a file with this text is refused; `None` if the refusal is at no line.
pub(crate) fn refused_spot(
    alloc: Global,
    refusal: &NoReport,
    text: &[u8],
) -> Result<Option<Spot>, AllocError> {
    match refusal {
        NoReport::Check(CheckError::Routine(fault)) => Ok(Some(Spot {
            line: fault.place.line,
            column: Some(fault.place.column),
        })),
        NoReport::GaveUp(_, fault) => Ok(Some(Spot {
            line: fault.line,
            column: Some(fault.column),
        })),
        NoReport::Check(CheckError::Certificate(fault)) => Ok(Some(Spot {
            line: fault.line,
            column: None,
        })),
        NoReport::Events(fault) => Ok(Some(Spot {
            line: fault.line,
            column: None,
        })),
        NoReport::Check(CheckError::Rules(fault)) => rules_place(alloc, text, fault),
        NoReport::Check(CheckError::Entry(entry)) => entry_place(alloc, text, entry.as_bytes()),
        _ => Ok(None),
    }
}

/// Finds where `file` is refused; `None` if no file is, or the refusal is at no line of it.
pub(crate) fn spot_in(
    alloc: Global,
    refusal: &NoReport,
    file: &Option<GivenFile<'_>>,
) -> Result<Option<Spot>, AllocError> {
    match file {
        Some(file) => refused_spot(alloc, refusal, file.text),
        None => Ok(None),
    }
}
