// Symbols: what is known of a subscript without running the code.

ghost use Rattle.std.specs.Prelude.{◌≡◌, IfOk};
ghost use Rattle.mlk_names.specs.Symbols.{known_of};

use crate::known_symbol::KnownSym;
use mlk_text::{Name, Value};
use std::alloc::{AllocError, Global};
use std::default::MadeWith;

/// The symbol of a subscript or of an actual.
#[derive(Clone, Drop, PartialEq, Eq)]
pub enum Sym {
    /// a constant
    Const(Value),
    /// the value of a local
    Local(Name),
    /// the number of the job
    Job,
    /// any value
    Unknown,
}

impl Sym {
    /// The same symbol as a `KnownSym`, or `None` if it may have any value.
    pub fn to_known(&self) -> Result<Option<KnownSym>, AllocError>
        ensures { IfOk result (λ found. found ≡ known_of self.now) }
    {
        match self {
            Sym::Const(value) => Ok(Some(KnownSym::Const(value.clone()?))),
            Sym::Local(name) => Ok(Some(KnownSym::Local(name.clone()?))),
            Sym::Job => Ok(Some(KnownSym::Job)),
            Sym::Unknown => Ok(None),
        }
    }
}

// The filler of inline slots that hold no subscript yet.
impl MadeWith<Global> for Sym {
    fn made_with(_alloc: Global) -> Sym {
        Sym::Unknown
    }
}
