// Why a file of events can't be replayed.

use mlk_machine_locks::Refusal;
use mlk_text::LineNumber;
use thiserror::Error;

/// What is wrong with a line.
#[derive(Clone, Copy, Debug, Drop, PartialEq, Eq, Error)]
pub enum EventsRefusal {
    /// It is not an event, or a job begins at an entry that is not in the program.
    #[error("no event, or a job at an entry that is not in the program")]
    Form,
    /// It can't happen at that moment.
    #[error("{0}")]
    Refused(Refusal),
}

/// The line at which a replay stops, and why.
#[derive(Debug, Drop, PartialEq, Eq, Error)]
#[error("no replay past line {line}: {why}")]
pub struct EventsFault {
    pub line: LineNumber,
    pub why: EventsRefusal,
}
