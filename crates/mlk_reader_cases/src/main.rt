//! Reads parts of expressions, numbers, routines, programs of one routine, rule files and certificates, one per line of
//! standard input, and prints the reader's answer on a line for each. A line that begins with `# ` describes the next ones,
//! and is printed unchanged.
//!
//! A line has the reader, the byte of the text at which the reader begins, and the text, in which `\` and two hexadecimal
//! digits are one byte. The answer is `to` and the byte after the part that was read, or the fault: its code, its column, and the
//! word of the part of M that is not read. The reader is `expr`, `ref` or `actuals`, also with `-no-calls` or `-no-touches` if
//! these are not allowed, and with `-by-value` if nothing is passed by reference. `tree`, `list` and `list-by-value` are `expr`,
//! `actuals` and `actuals-by-value`, `callee`, `label` and `name` read the names in calls and commands: they print what was read
//! before its end, a tree to the depth of its operands.
//!
//! Or a line has `canonical` or `whole` and a text: the answer is the number, or `none`. Or it has `routine`, `program`,
//! `rules` or `cert` and a text: then the answer is `read`, or the fault. For a routine, which is named `R`, that is its place,
//! its code, and the word of the part of M that is not read; likewise for a program of such a single routine. `extended` is a
//! routine that is read in the extended dialect; the others are read in the standard one. For rules the fault is the section, the
//! index in it, and the code; for a certificate the line and the code. `families` are rules, and prints the rank of each family
//! and the bytes of its subscripts; `needs` is a certificate, and prints the bytes of the constants in its needs.
#![tactic(auto)]

mod number;
mod part;
mod tree;

ghost use Rattle.std.specs.Prelude.{◌<◌};

use crate::number::{answer_canonical, answer_whole};
use crate::part::answer_part;
use bstr::ByteSlice;
use mlk_cert::{CertFault, Certificate, Summary, read_cert};
use mlk_dialect::Dialect;
use mlk_names::{KnownSym, LockTerm};
use mlk_program::link;
use mlk_routine::read_routine;
use mlk_rules_file::{Family, Rules, RulesFault, read_rules};
use mlk_text::{Failure, Fault};
use std::alloc::{AllocError, Global};
use std::io::{self, ErrorKind, Read, Write};

// A hexadecimal digit.
fn digit(byte: u8) -> u8
    ensures { result < 16 }
{
    match byte {
        b'0'..=b'9' => byte - b'0',
        b'a'..=b'f' => byte - b'a' + 10,
        _ => 0,
    }
}

// Adds the text after a `\`.
fn add_coded(text: &mut Vec<u8>, piece: &[u8]) -> Result<(), AllocError> {
    match piece {
        [high, low, rest @ ..] => {
            text.push(digit(*high) * 16 + digit(*low))?;
            text.extend_from_slice(rest)
        }
        _ => Ok(()),
    }
}

/// Decodes the text `written`.
pub(crate) fn text_of(alloc: Global, written: &[u8]) -> Result<Vec<u8>, AllocError> {
    let mut text = Vec::new(alloc);
    for (place, piece) in written.split_str(b"\\").enumerate() {
        if place == 0 {
            text.extend_from_slice(piece)?;
        } else {
            add_coded(&mut text, piece)?;
        }
    }
    Ok(text)
}

// Ends a line with the word of the part of M that is not read, if the fault has one.
fn write_left_out(fault: &Fault, out: &mut Vec<u8>) -> io::Result<()> {
    if let Some(left_out) = &fault.left_out {
        out.push(b' ')?;
        out.extend_from_slice(left_out.word())?;
    }
    writeln!(out)
}

/// Adds a fault of a part of an expression.
pub(crate) fn write_fault(fault: &Fault, out: &mut Vec<u8>) -> io::Result<()> {
    let code = fault.code.number();
    let column = fault.place.column.number();
    write!(out, "{code} {column}")?;
    write_left_out(fault, out)
}

// The fault of a routine or a program.
fn write_placed(fault: &Fault, out: &mut Vec<u8>) -> io::Result<()> {
    let line = fault.place.line.number();
    let column = fault.place.column.number();
    let code = fault.code.number();
    out.extend_from_slice(fault.place.routine.as_bytes())?;
    write!(out, " {line}:{column} {code}")?;
    write_left_out(fault, out)
}

fn write_rules_fault(fault: &RulesFault, out: &mut Vec<u8>) -> io::Result<()> {
    let index = fault.index;
    let code = fault.code.number();
    out.extend_from_slice(fault.section.word())?;
    writeln!(out, " {index} {code}")
}

pub(crate) fn no_memory() -> io::Error {
    io::Error::from(ErrorKind::OutOfMemory)
}

fn read_alone(alloc: Global, dialect: Dialect, text: &[u8]) -> Result<(), Failure<Fault>> {
    read_routine(alloc, dialect, b"R", text)?;
    Ok(())
}

fn link_alone(alloc: Global, text: &[u8]) -> Result<(), Failure<Fault>> {
    let routines = [read_routine(alloc, Dialect::Standard, b"R", text)?];
    link(alloc, &routines)?;
    Ok(())
}

// Adds the answer for the text of a routine, or of a program.
fn write_read(read: Result<(), Failure<Fault>>, out: &mut Vec<u8>) -> io::Result<()> {
    match &read {
        Ok(()) => writeln!(out, "read"),
        Err(Failure::Refused(fault)) => write_placed(fault, out),
        Err(Failure::OutOfMemory) => Err(no_memory()),
    }
}

fn answer_routine(
    alloc: Global,
    dialect: Dialect,
    written: &[u8],
    out: &mut Vec<u8>,
) -> io::Result<()> {
    let text = text_of(alloc, written)?;
    write_read(read_alone(alloc, dialect, text.as_slice()), out)
}

fn answer_program(alloc: Global, written: &[u8], out: &mut Vec<u8>) -> io::Result<()> {
    let text = text_of(alloc, written)?;
    write_read(link_alone(alloc, text.as_slice()), out)
}

// Adds the answer for the text of rules.
fn write_rules_read(read: Result<Rules, Failure<RulesFault>>, out: &mut Vec<u8>) -> io::Result<()> {
    match &read {
        Ok(_) => writeln!(out, "read"),
        Err(Failure::Refused(fault)) => write_rules_fault(fault, out),
        Err(Failure::OutOfMemory) => Err(no_memory()),
    }
}

// Adds the rank of a family, and the bytes of its subscripts.
fn write_family(family: &Family, out: &mut Vec<u8>) -> io::Result<()> {
    write!(out, "{}", family.rank)?;
    for subscript in family.name.subs.as_slice() {
        write!(out, " {:?}", subscript.as_bytes())?;
    }
    writeln!(out)
}

fn write_families(read: Result<Rules, Failure<RulesFault>>, out: &mut Vec<u8>) -> io::Result<()> {
    match &read {
        Ok(rules) => {
            for family in rules.families() {
                write_family(family, out)?;
            }
            Ok(())
        }
        Err(Failure::Refused(fault)) => write_rules_fault(fault, out),
        Err(Failure::OutOfMemory) => Err(no_memory()),
    }
}

fn answer_families(alloc: Global, written: &[u8], out: &mut Vec<u8>) -> io::Result<()> {
    let text = text_of(alloc, written)?;
    write_families(read_rules(alloc, text.as_slice()), out)
}

fn answer_rules(alloc: Global, written: &[u8], out: &mut Vec<u8>) -> io::Result<()> {
    let text = text_of(alloc, written)?;
    write_rules_read(read_rules(alloc, text.as_slice()), out)
}

fn write_cert_fault(fault: &CertFault, out: &mut Vec<u8>) -> io::Result<()> {
    writeln!(out, "{} {}", fault.line.number(), fault.code.number())
}

// Adds the answer for the text of a certificate.
fn write_cert_read(
    read: Result<Certificate, Failure<CertFault>>,
    out: &mut Vec<u8>,
) -> io::Result<()> {
    match &read {
        Ok(_) => writeln!(out, "read"),
        Err(Failure::Refused(fault)) => write_cert_fault(fault, out),
        Err(Failure::OutOfMemory) => Err(no_memory()),
    }
}

// Adds the bytes of the constants in a term.
fn write_constants(term: &LockTerm, out: &mut Vec<u8>) -> io::Result<()> {
    for subscript in term.subs.as_slice() {
        if let KnownSym::Const(value) = subscript {
            write!(out, "{:?}", value.as_bytes())?;
        }
    }
    writeln!(out)
}

fn write_needs_of(summary: &Summary, out: &mut Vec<u8>) -> io::Result<()> {
    for term in summary.need.as_slice() {
        write_constants(term, out)?;
    }
    Ok(())
}

fn write_needs(read: Result<Certificate, Failure<CertFault>>, out: &mut Vec<u8>) -> io::Result<()> {
    match &read {
        Ok(certificate) => {
            for block in certificate.blocks() {
                write_needs_of(&block.summary, out)?;
            }
            Ok(())
        }
        Err(Failure::Refused(fault)) => write_cert_fault(fault, out),
        Err(Failure::OutOfMemory) => Err(no_memory()),
    }
}

fn answer_needs(alloc: Global, written: &[u8], out: &mut Vec<u8>) -> io::Result<()> {
    let text = text_of(alloc, written)?;
    write_needs(read_cert(alloc, text.as_slice()), out)
}

fn answer_cert(alloc: Global, written: &[u8], out: &mut Vec<u8>) -> io::Result<()> {
    let text = text_of(alloc, written)?;
    write_cert_read(read_cert(alloc, text.as_slice()), out)
}

// Copies a line that describes the next ones.
fn copy_line(line: &[u8], out: &mut Vec<u8>) -> io::Result<()> {
    out.extend_from_slice(line)?;
    writeln!(out)
}

// Adds the answer for a line.
fn answer(alloc: Global, line: &[u8], out: &mut Vec<u8>) -> io::Result<()> {
    match line.split_once_str(b" ") {
        None => Err(io::Error::from(ErrorKind::InvalidInput)),
        Some((b"#", _)) => copy_line(line, out),
        Some((b"canonical", written)) => answer_canonical(alloc, written, out),
        Some((b"whole", written)) => answer_whole(alloc, written, out),
        Some((b"cert", written)) => answer_cert(alloc, written, out),
        Some((b"needs", written)) => answer_needs(alloc, written, out),
        Some((b"rules", written)) => answer_rules(alloc, written, out),
        Some((b"families", written)) => answer_families(alloc, written, out),
        Some((b"routine", written)) => answer_routine(alloc, Dialect::Standard, written, out),
        Some((b"extended", written)) => answer_routine(alloc, Dialect::Extended, written, out),
        Some((b"program", written)) => answer_program(alloc, written, out),
        Some((reader, rest)) => answer_part(alloc, reader, rest, out),
    }
}

fn answer_all(alloc: Global, text: &[u8]) -> io::Result<Vec<u8>> {
    let mut out: Vec<u8> = Vec::new(alloc);
    for line in text.lines() {
        answer(alloc, line, &mut out)?;
    }
    Ok(out)
}

fn main(rt: HostRuntime) -> io::Result<()> {
    let mut text: Vec<u8> = Vec::new(rt.alloc());
    rt.stdin().read_to_end(&mut text)?;
    let out = answer_all(rt.alloc(), text.as_slice())?;
    rt.stdout().write_all(out.as_slice())
}
