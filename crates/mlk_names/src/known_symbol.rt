// Symbols that denote one value.

use mlk_text::{Name, Value};
use std::alloc::Global;
use std::default::MadeWith;

/// A symbol that denotes one value in a job at a moment.
///
/// It is a type of its own, so that a lock term can't have an unknown subscript: a term then denotes one name, and no
/// function on terms has an impossible case.
#[derive(Clone, Drop, PartialEq, Eq)]
pub enum KnownSym {
    /// this value
    Const(Value),
    /// the value of a local
    Local(Name),
    /// the number of the job
    Job,
}

// The filler of inline slots that hold no subscript yet.
impl MadeWith<Global> for KnownSym {
    fn made_with(_alloc: Global) -> KnownSym {
        KnownSym::Job
    }
}
