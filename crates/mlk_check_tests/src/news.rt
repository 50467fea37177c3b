// Names that `NEW` makes new.

use crate::given::{Trial, passes};
use mlk_program::{NewNames, Program, new_names};
use std::alloc::Global;

/// The routine.
pub(crate) const ROUTINE: &[u8] = b" NEW A NEW (B,C) DO  NEW\n . NEW D\n FOR I=1 NEW E,F QUIT\n";

fn is_one(new: &NewNames<'_>, column: u32, wanted: &[u8]) -> bool {
    match new {
        NewNames::One(at, name) => at.number() == column && name.as_bytes() == wanted,
        NewNames::AllBut(_) => false,
    }
}

fn is_all_but(new: &NewNames<'_>, wanted: usize) -> bool {
    match new {
        NewNames::One(_, _) => false,
        NewNames::AllBut(names) => names.len() == wanted,
    }
}

/// Whether the names are new in order: those after FOR too, not those of the block; without arguments all of them.
pub(crate) fn are_new(alloc: Global, program: &Program<'_>) -> Option<bool> {
    let entry = program.entry(b"^R")?;
    let names = new_names(alloc, program.lines_of(entry)).ok()?;
    let [first, second, third, fourth, fifth] = names.as_slice() else {
        return Some(false);
    };
    Some(
        is_one(first, 6, b"A")
            && is_all_but(second, 2)
            && is_all_but(third, 0)
            && is_one(fourth, 14, b"E")
            && is_one(fifth, 16, b"F"),
    )
}

#[test]
fn names_that_are_made_new(rt: HostRuntime) {
    assert!(rt; passes(rt.alloc(), Trial::NewNames));
}
