// Routines, read as far as they can be.

use crate::cut::readable_front;
use bstr::ByteSlice;
use mlk_dialect::Dialect;
use mlk_routine::read_routine;
use mlk_syntax::Routine;
use mlk_text::{Code, Column, Failure, Fault, LineNumber, Place, push_sparing};
use std::alloc::{AllocError, Global};

/// How often a line is cut at most. If it still can't be read, its commands are dropped.
const MOST_CUTS: usize = 8;

/// The maximum number of lines whose commands are dropped although each of them can be read separately. If the routine still
/// can't be read, it counts as unread.
const MOST_LEFT_OUT: usize = 16;

/// A routine's text.
#[derive(Clone, Copy, Drop)]
pub struct RoutineText<'t> {
    pub dialect: Dialect,
    /// the name of its file up to the last dot
    pub stem: &'t [u8],
    pub text: &'t [u8],
}

/// Routines that were read as far as they can be.
#[derive(Drop)]
pub struct PartlyRead {
    /// those with at least some readable lines, in the order of their texts
    pub routines: Vec<Routine>,
    /// the first fault of each of their lines that was cut
    pub cuts: Vec<Fault>,
    /// a fault for each routine that could not be read at all
    pub unread: Vec<Fault>,
}

// The number of bytes before the commands of a line without a label: blanks, and the periods of its level.
fn lead_of(line: &[u8]) -> usize {
    match line.first() {
        Some(b' ' | b'\t') => line
            .iter()
            .take_while(|byte| matches!(**byte, b' ' | b'\t' | b'.'))
            .count(),
        _ => 0,
    }
}

// A line as a routine of its own: without the periods of its level, which need a line above.
fn line_alone(alloc: Global, line: &[u8]) -> Result<Vec<u8>, AllocError> {
    let lead = lead_of(line);
    let mut text = Vec::with_capacity(alloc, line.len())?;
    if lead > 0 {
        text.push(b' ')?;
    }
    let commands = text_from(line, lead);
    text.extend_from_slice(commands)?;
    Ok(text)
}

// The fault of `text` if it is read as the routine of `source`.
fn fault_of(
    alloc: Global,
    source: &RoutineText<'_>,
    text: &[u8],
) -> Result<Option<Fault>, AllocError> {
    match read_routine(alloc, source.dialect, source.stem, text) {
        Ok(_routine) => Ok(None),
        Err(Failure::Refused(fault)) => Ok(Some(fault)),
        Err(Failure::OutOfMemory) => Err(AllocError),
    }
}

// The text from `place` on; empty past its end.
fn text_from(text: &[u8], place: usize) -> &[u8] {
    text.get(place..).unwrap_or(b"")
}

// A line with other commands, at the same level.
fn with_commands(alloc: Global, line: &[u8], commands: &[u8]) -> Result<Vec<u8>, AllocError> {
    let lead = lead_of(line);
    let front = line.get(..lead).unwrap_or(b"");
    let mut text = Vec::from_slice(alloc, front)?;
    let blanks = usize::from(lead > 0);
    let others = text_from(commands, blanks);
    text.extend_from_slice(others)?;
    Ok(text)
}

// The readable front of a line, and the line's first fault, if it has one.
fn readable_part(
    alloc: Global,
    source: &RoutineText<'_>,
    line: &[u8],
) -> Result<(Vec<u8>, Option<Fault>), AllocError> {
    let text = line_alone(alloc, line)?;
    let Some(first) = fault_of(alloc, source, text.as_slice())? else {
        return Ok((Vec::from_slice(alloc, line)?, None));
    };
    let front = readable_front(text.as_slice(), &first);
    let commands = readable_commands(alloc, source, front)?;
    let left = with_commands(alloc, line, commands.as_slice())?;
    Ok((left, Some(first)))
}

// The readable part of commands after the maximum number of cuts; empty if that can't be read either.
fn readable_commands(
    alloc: Global,
    source: &RoutineText<'_>,
    commands: &[u8],
) -> Result<Vec<u8>, AllocError> {
    let mut left = Vec::from_slice(alloc, commands)?;
    for _ in 0..MOST_CUTS {
        let Some(fault) = fault_of(alloc, source, left.as_slice())? else {
            return Ok(left);
        };
        let front = Vec::from_slice(alloc, readable_front(left.as_slice(), &fault))?;
        left = front;
    }
    Ok(Vec::new(alloc))
}

// The lines of a routine, as far as each can be read separately, and the first fault of each line that was cut.
#[derive(Drop)]
struct Readable {
    lines: Vec<Vec<u8>>,
    faults: Vec<Fault>,
}

// The number of periods at the begin of a line.
fn level_of(line: &[u8]) -> usize {
    line.iter()
        .take(lead_of(line))
        .filter(|byte| **byte == b'.')
        .count()
}

// Adds a DO to a line that was cut, if there is a block below it: the line's own DO may be cut.
fn call_block(
    found: &mut Readable,
    place: usize,
    line: &[u8],
    next: Option<&&[u8]>,
) -> Result<(), AllocError> {
    let Some(next) = next else {
        return Ok(());
    };
    if level_of(next) <= level_of(line) {
        return Ok(());
    }
    if let Some(left) = found.lines.get_mut(place) {
        left.extend_from_slice(b" D")?;
    }
    Ok(())
}

// The fault of a line that was read separately, at its place in the routine, where the line has the number `line` and the lead
// `lead`.
fn placed_fault(fault: Fault, line: usize, lead: usize) -> Fault {
    let Fault {
        code,
        place,
        left_out,
    } = fault;
    let Place {
        routine,
        column,
        ..
    } = place;
    let before = lead.saturating_sub(1);
    let column = Column::at((column.number() as usize).saturating_add(before));
    let line = LineNumber::new(u32::try_from(line).unwrap_or(u32::MAX));
    let place = Place {
        routine,
        line,
        column,
    };
    Fault {
        code,
        place,
        left_out,
    }
}

// The lines of a text, as far as each can be read separately.
fn readable_lines(alloc: Global, source: &RoutineText<'_>) -> Result<Readable, AllocError> {
    let mut found = Readable {
        lines: Vec::new(alloc),
        faults: Vec::new(alloc),
    };
    let lines: Vec<&[u8]> = source.text.lines().collect(alloc)?;
    for (place, line) in lines.iter().enumerate() {
        let (left, fault) = readable_part(alloc, source, line)?;
        push_sparing(&mut found.lines, left)?;
        if let Some(fault) = fault {
            let next = lines.get(place.saturating_add(1));
            call_block(&mut found, place, line, next)?;
            let fault = placed_fault(fault, place.saturating_add(1), lead_of(line));
            push_sparing(&mut found.faults, fault)?;
        }
    }
    Ok(found)
}

// The text of lines, each with a terminator.
fn join_lines(alloc: Global, lines: &[Vec<u8>]) -> Result<Vec<u8>, AllocError> {
    let mut text = Vec::new(alloc);
    for line in lines {
        text.extend_from_slice(line.as_slice())?;
        text.extend_from_slice(b"\n")?;
    }
    Ok(text)
}

// Drops the commands of the line that has `fault`.
fn leave_out(alloc: Global, lines: &mut Vec<Vec<u8>>, fault: &Fault) -> Result<(), AllocError> {
    let place = (fault.place.line.number() as usize).saturating_sub(1);
    if let Some(line) = lines.get_mut(place) {
        let left = with_commands(alloc, line.as_slice(), b"")?;
        *line = left;
    }
    Ok(())
}

// The routine of lines each of which can be read separately, without the commands of some that can't be read together; a fault if
// there are too many of these.
fn read_together(
    alloc: Global,
    source: &RoutineText<'_>,
    found: &mut Readable,
) -> Result<Result<Routine, Fault>, AllocError> {
    for _ in 0..MOST_LEFT_OUT {
        let text = join_lines(alloc, found.lines.as_slice())?;
        match read_routine(alloc, source.dialect, source.stem, text.as_slice()) {
            Ok(routine) => return Ok(Ok(routine)),
            Err(Failure::OutOfMemory) => return Err(AllocError),
            Err(Failure::Refused(fault)) => {
                leave_out(alloc, &mut found.lines, &fault)?;
                push_sparing(&mut found.faults, fault)?;
            }
        }
    }
    let text = join_lines(alloc, found.lines.as_slice())?;
    match read_routine(alloc, source.dialect, source.stem, text.as_slice()) {
        Ok(routine) => Ok(Ok(routine)),
        Err(Failure::OutOfMemory) => Err(AllocError),
        Err(Failure::Refused(fault)) => Ok(Err(fault)),
    }
}

// Whether cutting lines can't help: the fault is that of the routine's name or size.
fn is_hopeless(fault: &Fault) -> bool {
    fault.code == Code::RoutineName || fault.code == Code::TooLarge
}

impl PartlyRead {
    // Adds the routine of `source`, as far as it can be read.
    fn add(&mut self, alloc: Global, source: &RoutineText<'_>) -> Result<(), AllocError> {
        let fault = match read_routine(alloc, source.dialect, source.stem, source.text) {
            Ok(routine) => return push_sparing(&mut self.routines, routine),
            Err(Failure::OutOfMemory) => return Err(AllocError),
            Err(Failure::Refused(fault)) => fault,
        };
        if is_hopeless(&fault) {
            return push_sparing(&mut self.unread, fault);
        }
        let mut found = readable_lines(alloc, source)?;
        match read_together(alloc, source, &mut found)? {
            Ok(routine) => {
                push_sparing(&mut self.routines, routine)?;
                for fault in found.faults {
                    push_sparing(&mut self.cuts, fault)?;
                }
                Ok(())
            }
            Err(fault) => push_sparing(&mut self.unread, fault),
        }
    }
}

/// Reads each of `sources` as far as it can be read.
pub fn read_partly(alloc: Global, sources: &[RoutineText<'_>]) -> Result<PartlyRead, AllocError> {
    let mut read = PartlyRead {
        routines: Vec::new(alloc),
        cuts: Vec::new(alloc),
        unread: Vec::new(alloc),
    };
    for source in sources {
        read.add(alloc, source)?;
    }
    Ok(read)
}
