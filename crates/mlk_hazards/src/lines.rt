// Lines that a system may cut, and labels that it may take for each other.

use crate::hazard::{Hazard, HazardAt};
use mlk_survey_trees::Position;
use mlk_syntax::{Line, Routine};
use mlk_text::{Column, LineNumber, push_sparing};
use std::alloc::{AllocError, Global};

/// The number of bytes of a line that GT.M reads.
const LONGEST_LINE: u32 = 8192;

/// The number of characters of a label that GT.M reads.
const LONGEST_LABEL: usize = 31;

// Adds a hazard of `routine`.
fn add<'a>(
    hazards: &mut Vec<HazardAt<'a>>,
    routine: &'a [u8],
    line: LineNumber,
    column: Column,
    hazard: Hazard,
) -> Result<(), AllocError> {
    let position = Position {
        routine,
        line,
        column,
    };
    push_sparing(hazards, HazardAt { position, hazard })
}

/// Adds those of `lines`, and of the blocks below them, that are longer than `LONGEST_LINE`, each at its first byte past it.
pub(crate) fn add_long_lines<'a>(
    hazards: &mut Vec<HazardAt<'a>>,
    routine: &'a [u8],
    lines: &[Line],
) -> Result<(), AllocError> {
    for line in lines {
        if line.end.number() > LONGEST_LINE + 1 {
            let column = Column::new(LONGEST_LINE + 1);
            add(hazards, routine, line.number, column, Hazard::LongLine)?;
        }
        add_long_lines(hazards, routine, line.block.as_slice())?;
    }
    Ok(())
}

// The part of a line's label that a system reads, if that may be less than the label.
fn cut_label(line: &Line) -> Option<&[u8]> {
    let label = line.label.as_ref()?.as_bytes();
    let (read, _) = label.split_at_checked(LONGEST_LABEL)?;
    Some(read)
}

// The line of the label at `place`, if the label before it is read as the same.
fn line_alike(labels: &[(&[u8], LineNumber)], place: usize) -> Option<LineNumber> {
    let (label, line) = labels.get(place)?;
    let (before, _) = labels.get(place.checked_sub(1)?)?;
    if label == before { Some(*line) } else { None }
}

/// Adds the labels of `routine` whose first `LONGEST_LABEL` characters are those of an earlier label.
pub(crate) fn add_labels_alike<'a>(
    alloc: Global,
    hazards: &mut Vec<HazardAt<'a>>,
    routine: &'a Routine,
) -> Result<(), AllocError> {
    let mut labels = Vec::new(alloc);
    for line in &routine.lines {
        if let Some(read) = cut_label(line) {
            push_sparing(&mut labels, (read, line.number))?;
        }
    }
    labels.sort()?;
    for place in 1..labels.len() {
        if let Some(line) = line_alike(labels.as_slice(), place) {
            let name = routine.name.as_bytes();
            add(hazards, name, line, Column::new(1), Hazard::LabelsAlike)?;
        }
    }
    Ok(())
}
