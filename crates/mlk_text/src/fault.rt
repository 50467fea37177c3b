// Where a routine text is refused, and why.

ghost use Rattle.std.specs.Prelude.{◌≡◌};
ghost use Rattle.mlk_text.specs.Words.{left_out_word};

use crate::code::Code;
use crate::place::Place;
use crate::value::Value;
use thiserror::Error;

/// The part of M that `mlock` does not read, for a fault of 102 or 206.
#[derive(Debug, Drop)]
pub enum LeftOut {
    /// `@`
    Indirection,
    /// `^(`
    Naked,
    /// `^|`
    Environment,
    /// `^$`
    Ssvn,
    /// `$&`
    External,
    /// `label+`
    Offset,
    /// a function that is not read
    Function,
    /// a special variable that is not read, or SET or NEW of one
    Special,
    /// a global reference or a call in a position whose evaluation order is not certain
    Order,
    /// READ into a global
    GlobalRead,
    /// a subscripted variable of FOR
    ForVariable,
    /// QUIT with an argument inside a FOR or a block
    QuitValue,
    /// `:` after an argument of JOB or of LOCK with a minus
    Timeout,
    /// a command, with its full word in upper case
    Command(Value),
}

impl LeftOut {
    /// The word that is printed after the code's name.
    pub fn word(&self) -> &[u8]
        ensures { result.now ≡ left_out_word self.now }
    {
        match self {
            LeftOut::Indirection => b"INDIRECTION",
            LeftOut::Naked => b"NAKED",
            LeftOut::Environment => b"ENVIRONMENT",
            LeftOut::Ssvn => b"SSVN",
            LeftOut::External => b"EXTERNAL",
            LeftOut::Offset => b"OFFSET",
            LeftOut::Function => b"FUNCTION",
            LeftOut::Special => b"SPECIAL",
            LeftOut::Order => b"ORDER",
            LeftOut::GlobalRead => b"GLOBALREAD",
            LeftOut::ForVariable => b"FORVARIABLE",
            LeftOut::QuitValue => b"QUITVALUE",
            LeftOut::Timeout => b"TIMEOUT",
            LeftOut::Command(word) => word.as_bytes(),
        }
    }
}

/// Why a routine text, or the linking of routines, is refused.
#[derive(Drop, Debug, Error)]
#[error("{code}, at line {}, column {}", .place.line, .place.column)]
pub struct Fault {
    pub code: Code,
    pub place: Place,
    /// The part that is not read, for `Code::ExprLeftOut` and `Code::CommandLeftOut`.
    pub left_out: Option<LeftOut>,
}
