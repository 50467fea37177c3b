// Places that a `yes` leaves open: where a real system may differ from the model, or a value may be out of date.

ghost use Rattle.std.specs.Prelude.{◌≡◌};
ghost use Rattle.mlk_hazards.specs.Words.{hazard_word};

use mlk_survey_trees::Position;

/// What may go wrong at a place.
#[derive(Clone, Copy, Drop, PartialEq, Eq)]
pub enum Hazard {
    /// an extrinsic call right of `&`, `!`, `'&` or `'!`: it may not run
    SkippedCall,
    /// two names of a LOCK argument without sign that may be one name: it may be counted once
    PerhapsOneName,
    /// a name that occurs twice in one LOCK argument
    RepeatedName,
    /// a block that ends directly before a line with a formal list: its end may be an error
    BlockBeforeFormals,
    /// a line of more than 8,192 bytes: the rest may run as a line of its own
    LongLine,
    /// a label whose first 31 characters are those of an earlier label: a call of it may go to that one
    LabelsAlike,
    /// a write of a value that was read before the lock was acquired: an update may be lost
    StaleWrite,
}

impl Hazard {
    /// The word that is printed.
    pub fn word(self) -> &'static str
        ensures { result.now ≡ hazard_word self }
    {
        match self {
            Hazard::SkippedCall => "SkippedCall",
            Hazard::PerhapsOneName => "PerhapsOneName",
            Hazard::RepeatedName => "RepeatedName",
            Hazard::BlockBeforeFormals => "BlockBeforeFormals",
            Hazard::LongLine => "LongLine",
            Hazard::LabelsAlike => "LabelsAlike",
            Hazard::StaleWrite => "StaleWrite",
        }
    }

    /// What can be done about it.
    pub fn advice(self) -> &'static str {
        match self {
            Hazard::SkippedCall => {
                "call it in a SET of its own before, or compile with gtm_boolean=1"
            }
            Hazard::PerhapsOneName => "use LOCK +(..), or names that surely differ",
            Hazard::RepeatedName => "name it once",
            Hazard::BlockBeforeFormals => "put a line with QUIT between them",
            Hazard::LongLine => "break the line up",
            Hazard::LabelsAlike => "use labels that differ in their first 31 characters",
            Hazard::StaleWrite => {
                "read the node again under the lock, or claim the lock before the first read"
            }
        }
    }
}

/// A hazard, with its place.
#[derive(Clone, Copy, Drop)]
pub struct HazardAt<'a> {
    pub position: Position<'a>,
    pub hazard: Hazard,
}
