// Places in units.

use mlk_suggest_steps::UnitId;
use mlk_survey_trees::Position;
use mlk_text::{Column, LineNumber};

/// A place in the routine of a unit.
#[derive(Clone, Copy, Drop, PartialEq, Eq)]
pub struct Spot {
    pub unit: UnitId,
    pub line: LineNumber,
    pub column: Column,
}

impl Spot {
    /// The place of `position` in `unit`.
    pub(crate) fn of(unit: UnitId, position: &Position<'_>) -> Spot {
        Spot {
            unit,
            line: position.line,
            column: position.column,
        }
    }
}
