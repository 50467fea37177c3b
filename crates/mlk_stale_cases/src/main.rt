//! Finds stale writes in programs that are given in one text, and prints them.
//!
//! The text is read from standard input. Everything before the first line that begins with `== ` is a comment. Each such line
//! begins a case and describes it. It is followed by the case's rules, unless they are those of `RULES`, and by its routines, each
//! after a line of `-- ` and its name; they are read in the extended dialect. For each case its first line is printed, and then a
//! line for each stale write: its place, and the place of the read that its value comes from.
#![tactic(auto)]

use bstr::ByteSlice;
use mlk_dialect::Dialect;
use mlk_program::link;
use mlk_routine::read_routine;
use mlk_rules::Rules;
use mlk_rules_file::read_rules;
use mlk_stale::stale_writes;
use mlk_survey_trees::Position;
use mlk_syntax::Routine;
use mlk_text::push_sparing;
use std::alloc::{AllocError, Global};
use std::io::{self, Read, Write};

// The mark before the description of a case.
const CASE: &[u8] = b"\n== ";

// The mark before a routine's name.
const ROUTINE: &[u8] = b"\n-- ";

// The rules of cases that have none.
const RULES: &[u8] = b"lock = [{name = \"^PAT\", rank = 1}, {name = \"^WARD\", rank = 2}]\n\
cover = [{global = \"^PAT(id,...)\", lock = \"^PAT(id)\"}, {global = \"^WARD(w,...)\", lock = \"^WARD(w)\"}]\n\
private = [{global = \"^TMP($J,...)\"}]\n";

// What is printed for a case whose routines or rules are refused.
const REFUSED: &[u8] = b"refused\n";

// The bytes of `text` before the first `mark`, or all of them if there is none.
fn front_of<'a>(text: &'a [u8], mark: &[u8]) -> &'a [u8] {
    match text.split_once_str(mark) {
        None => text,
        Some((front, _)) => front,
    }
}

// The bytes of `text` after the first `mark`, or none if there is none.
fn rest_of<'a>(text: &'a [u8], mark: &[u8]) -> &'a [u8] {
    match text.split_once_str(mark) {
        None => b"",
        Some((_, rest)) => rest,
    }
}

// The routines of a case, or `None` if one of them is refused.
fn routines_of(alloc: Global, case: &[u8]) -> Result<Option<Vec<Routine>>, AllocError> {
    let mut routines = Vec::new(alloc);
    for part in case.split_str(ROUTINE).skip(1) {
        let name = front_of(part, b"\n");
        match read_routine(alloc, Dialect::Extended, name, rest_of(part, b"\n")) {
            Ok(routine) => push_sparing(&mut routines, routine)?,
            Err(_) => return Ok(None),
        }
    }
    Ok(Some(routines))
}

// Adds the place `place` to `out`.
fn push_place(alloc: Global, out: &mut Vec<u8>, place: &Position<'_>) -> Result<(), AllocError> {
    out.extend_from_slice(place.routine)?;
    let text = format!(in alloc; ":{}:{}", place.line, place.column)?;
    out.extend_from_slice(text.as_bytes())
}

// Adds the stale writes of `routines` by `rules` to `out`.
fn push_writes(
    alloc: Global,
    out: &mut Vec<u8>,
    routines: &[Routine],
    rules: &Rules,
) -> Result<(), AllocError> {
    let Ok(program) = link(alloc, routines) else {
        return out.extend_from_slice(REFUSED);
    };
    let mut writes = stale_writes(alloc, &program, rules)?;
    writes.sort_by(|write, other| write.position.cmp(&other.position))?;
    for write in &writes {
        push_place(alloc, out, &write.position)?;
        out.extend_from_slice(b" from ")?;
        push_place(alloc, out, &write.source.position)?;
        out.extend_from_slice(b"\n")?;
    }
    Ok(())
}

// Adds a case and its stale writes to `out`.
fn push_case(alloc: Global, out: &mut Vec<u8>, case: &[u8]) -> Result<(), AllocError> {
    let heading = front_of(case, ROUTINE);
    out.extend_from_slice(b"== ")?;
    out.extend_from_slice(front_of(heading, b"\n"))?;
    out.extend_from_slice(b"\n")?;
    let own = rest_of(heading, b"\n");
    let text = if own.is_empty() { RULES } else { own };
    let Ok(rules) = read_rules(alloc, text) else {
        return out.extend_from_slice(REFUSED);
    };
    match routines_of(alloc, case)? {
        Some(routines) => push_writes(alloc, out, routines.as_slice(), &rules),
        None => out.extend_from_slice(REFUSED),
    }
}

fn main(rt: HostRuntime) -> io::Result<()> {
    let alloc = rt.alloc();
    let mut text: Vec<u8> = Vec::new(alloc);
    let mut out: Vec<u8> = Vec::new(alloc);
    rt.stdin().read_to_end(&mut text)?;
    for case in text.as_slice().split_str(CASE).skip(1) {
        push_case(alloc, &mut out, case)?;
    }
    rt.stdout().write_all(out.as_slice())
}
