// Parts of expressions, and the names in calls and commands.

ghost use Rattle.std.specs.Prelude.{◌≤◌, length};

use crate::tree::{write_actuals, write_callee, write_tree};
use crate::{no_memory, text_of, write_fault};
use bstr::ByteSlice;
use mlk_expr::{
    Actual, Allows, Callee, Expr, Passing, read_actuals, read_actuals_where, read_callee,
    read_expr, read_expr_where, read_label, read_name, read_ref, read_ref_where,
};
use mlk_numbers::whole_number;
use mlk_text::{Failure, Fault, Name};
use std::alloc::Global;
use std::io::{self, ErrorKind, Write};

// The result of a reader.
type Read<T> = Result<(T, usize), Failure<Fault>>;

// The byte at which a reader stops.
fn end<T: Drop>(read: Read<T>) -> Result<usize, Failure<Fault>> {
    match read {
        Ok((_, next)) => Ok(next),
        Err(failure) => Err(failure),
    }
}

// The byte at which the reader with this name stops, one for places in which not everything is allowed.
fn end_of_less(
    alloc: Global,
    reader: &[u8],
    text: &[u8],
    at: usize,
) -> Result<usize, Failure<Fault>>
    requires { at ≤ length text.now }
{
    let (quiet, all) = (Allows::NoTouches, Allows::Everything);
    match reader {
        b"expr-no-calls" => end(read_expr_where(alloc, Allows::NoCalls, text, at)),
        b"expr-no-touches" => end(read_expr_where(alloc, quiet, text, at)),
        b"ref-no-calls" => end(read_ref_where(alloc, Allows::NoCalls, text, at)),
        b"ref-no-touches" => end(read_ref_where(alloc, quiet, text, at)),
        b"actuals-no-touches" => {
            end(read_actuals_where(alloc, quiet, Passing::ByReference, text, at))
        }
        _ => end(read_actuals_where(alloc, all, Passing::ByValue, text, at)),
    }
}

// The byte at which the reader with this name stops.
fn end_of(alloc: Global, reader: &[u8], text: &[u8], at: usize) -> Result<usize, Failure<Fault>>
    requires { at ≤ length text.now }
{
    match reader {
        b"expr" => end(read_expr(alloc, text, at)),
        b"ref" => end(read_ref(alloc, text, at)),
        b"actuals" => end(read_actuals(alloc, text, at)),
        _ => end_of_less(alloc, reader, text, at),
    }
}

// A place in a text.
fn place_of(digits: &[u8], text: &[u8]) -> usize
    ensures { result ≤ length text.now }
{
    match whole_number(digits) {
        Some(place) => usize::try_from(place).unwrap_or(0).min(text.len()),
        None => 0,
    }
}

// Adds why nothing is read.
fn write_failure(failure: &Failure<Fault>, out: &mut Vec<u8>) -> io::Result<()> {
    match failure {
        Failure::Refused(fault) => write_fault(fault, out),
        Failure::OutOfMemory => Err(no_memory()),
    }
}

// Adds the byte at which a reader stops.
fn write_end(end: Result<usize, Failure<Fault>>, out: &mut Vec<u8>) -> io::Result<()> {
    match &end {
        Ok(end) => writeln!(out, "to {end}"),
        Err(failure) => write_failure(failure, out),
    }
}

fn write_tree_read(read: Read<Expr>, out: &mut Vec<u8>) -> io::Result<()> {
    match &read {
        Ok((tree, next)) => {
            write_tree(tree, out)?;
            writeln!(out, " to {next}")
        }
        Err(failure) => write_failure(failure, out),
    }
}

fn write_list_read(read: Read<Vec<Actual>>, out: &mut Vec<u8>) -> io::Result<()> {
    match &read {
        Ok((actuals, next)) => {
            write_actuals(actuals.as_slice(), out)?;
            writeln!(out, " to {next}")
        }
        Err(failure) => write_failure(failure, out),
    }
}

fn write_callee_read(read: Read<Callee>, out: &mut Vec<u8>) -> io::Result<()> {
    match &read {
        Ok((callee, next)) => {
            write_callee(callee, out)?;
            writeln!(out, " to {next}")
        }
        Err(failure) => write_failure(failure, out),
    }
}

fn write_name_read(read: Read<Name>, out: &mut Vec<u8>) -> io::Result<()> {
    match &read {
        Ok((name, next)) => {
            out.extend_from_slice(name.as_bytes())?;
            writeln!(out, " to {next}")
        }
        Err(failure) => write_failure(failure, out),
    }
}

// Adds the answer of the reader with this name.
fn write_answer(
    alloc: Global,
    reader: &[u8],
    text: &[u8],
    at: usize,
    out: &mut Vec<u8>,
) -> io::Result<()>
    requires { at ≤ length text.now }
{
    let (all, by_value) = (Allows::Everything, Passing::ByValue);
    match reader {
        b"tree" => write_tree_read(read_expr(alloc, text, at), out),
        b"list" => write_list_read(read_actuals(alloc, text, at), out),
        b"list-by-value" => {
            write_list_read(read_actuals_where(alloc, all, by_value, text, at), out)
        }
        b"callee" => write_callee_read(read_callee(alloc, text, at), out),
        b"label" => write_name_read(read_label(alloc, text, at), out),
        b"name" => write_name_read(read_name(alloc, text, at), out),
        _ => write_end(end_of(alloc, reader, text, at), out),
    }
}

fn answer_text(
    alloc: Global,
    reader: &[u8],
    at: &[u8],
    written: &[u8],
    out: &mut Vec<u8>,
) -> io::Result<()> {
    let text = text_of(alloc, written)?;
    let at = place_of(at, text.as_slice());
    write_answer(alloc, reader, text.as_slice(), at, out)
}

/// Adds the answer for a part of an expression, which comes after its place.
pub(crate) fn answer_part(
    alloc: Global,
    reader: &[u8],
    rest: &[u8],
    out: &mut Vec<u8>,
) -> io::Result<()> {
    match rest.split_once_str(b" ") {
        Some((at, written)) => answer_text(alloc, reader, at, written, out),
        None => Err(io::Error::from(ErrorKind::InvalidInput)),
    }
}
