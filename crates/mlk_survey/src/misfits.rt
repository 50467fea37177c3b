// Calls whose actuals do not fit the formals of the called line.

use crate::given::{CalledLabel, Given, ListLength};
use mlk_program::{CallSite, calls_of};
use mlk_survey_trees::Position;
use mlk_syntax::{Line, Routine};
use mlk_text::{LineNumber, push_sparing};
use std::alloc::{AllocError, Global};

/// A call whose actuals do not fit the formals of the called line: 303 once the routines are linked.
#[derive(Clone, Copy, Drop)]
pub struct MisfitCall<'a> {
    pub called: CalledLabel<'a>,
    pub position: Position<'a>,
    /// the number of actuals
    pub actuals: ListLength,
    /// the number of formals of the line
    pub formals: ListLength,
}

// Whether a line with the given number of formals accepts the given number of actuals.
fn takes(formals: ListLength, actuals: ListLength) -> bool {
    match (formals, actuals) {
        (ListLength::NoList, ListLength::NoList) => true,
        (ListLength::NoList, ListLength::Items(_)) => false,
        (ListLength::Items(formals), ListLength::NoList) => formals == 0,
        (ListLength::Items(formals), ListLength::Items(actuals)) => actuals <= formals,
    }
}

// A call that does not fit the called line, otherwise `None`. A call of a line that is not given is ignored.
fn misfit<'a>(
    given: &Given<'a>,
    routine: &'a [u8],
    line: LineNumber,
    site: &CallSite<'a>,
) -> Option<MisfitCall<'a>> {
    let called = CalledLabel::of(routine, site.callee);
    let formals = given.formals(&called)?;
    let actuals = match site.actuals {
        Some(actuals) => ListLength::Items(actuals.len()),
        None => ListLength::NoList,
    };
    if takes(formals, actuals) {
        return None;
    }
    Some(MisfitCall {
        called,
        position: Position {
            routine,
            line,
            column: site.column,
        },
        actuals,
        formals,
    })
}

// Adds the calls of a line that do not fit, without those of its block.
fn add_line<'a>(
    alloc: Global,
    misfits: &mut Vec<MisfitCall<'a>>,
    given: &Given<'a>,
    routine: &'a [u8],
    line: &'a Line,
) -> Result<(), AllocError> {
    let sites = calls_of(alloc, &line.commands)?;
    for site in sites.iter() {
        if let Some(call) = misfit(given, routine, line.number, site) {
            push_sparing(misfits, call)?;
        }
    }
    Ok(())
}

// Adds the calls of lines that do not fit, those of their blocks included.
fn add_lines<'a>(
    alloc: Global,
    misfits: &mut Vec<MisfitCall<'a>>,
    given: &Given<'a>,
    routine: &'a [u8],
    lines: &'a [Line],
) -> Result<(), AllocError> {
    for line in lines {
        add_line(alloc, misfits, given, routine, line)?;
        add_lines(alloc, misfits, given, routine, line.block.as_slice())?;
    }
    Ok(())
}

/// The calls of `routines` that do not fit, in the order of their places.
pub(crate) fn misfits_in<'a>(
    alloc: Global,
    given: &Given<'a>,
    routines: &[&'a Routine],
) -> Result<Vec<MisfitCall<'a>>, AllocError> {
    let mut misfits = Vec::new(alloc);
    for routine in routines {
        let name = routine.name.as_bytes();
        add_lines(alloc, &mut misfits, given, name, routine.lines.as_slice())?;
    }
    Ok(misfits)
}
