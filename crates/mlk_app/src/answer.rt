// What the program answers, and how it is said.

ghost use Rattle.std.specs.Prelude.{◌≡◌, ◌⊎◌, OnOk};
ghost use Rattle.std.specs.Io.KnownBytes.{Appends};
ghost use Rattle.mlk_app.specs.Ran.{IsRefusalSaid, IsSaid};

use mlk_plain_report::ReportText;
use std::io::{self, Write};

pub(crate) const YES: u8 = 0;

pub(crate) const NO: u8 = 1;

pub(crate) const REFUSED: u8 = 2;

pub(crate) const FAILED: u8 = 3;

/// What the program says, before it is said.
#[derive(Drop)]
pub(crate) enum Answer {
    /// The text of a report, of a certificate, of jobs, of a survey, of suggested rules, of stubs or of a page, and the status that it ends with.
    Report(ReportText, u8),
    /// The line that says why the input is refused, what is printed beside it, if a form is asked for, and what explains it
    /// below the line, if that is asked for.
    Refused(ReportText, Option<ReportText>, Vec<u8>),
    /// The line that says which file can't be read or written, and what explains it.
    Unread(ReportText, Vec<u8>),
    /// `clap`'s text, if the words ask for nothing.
    Usage(String),
    OutOfMemory,
}

/// Writes `line` to the error stream, whose faults change nothing.
pub(crate) fn write_error<E: Write>(err: &mut E, line: &[u8]) {
    let _ = err.write_all(line);
    let _ = err.flush();
}

/// Writes that memory ran out, and answers the status.
pub(crate) fn write_memory_error<E: Write>(err: &mut E) -> u8
    ensures { result ≡ 3 }
{
    write_error(err, b"error memory\n");
    FAILED
}

fn write<O: Write>(out: &mut O, text: &ReportText) -> io::Result<()>
    ensures { OnOk result (Appends (O.contents out.old) (O.contents out.new) text.now) }
{
    out.write_all(text.as_bytes())?;
    out.flush()
}

fn print<O: Write, E: Write>(out: &mut O, err: &mut E, text: &ReportText, status: u8) -> u8
    ensures { (result ≡ 3) ⊎ ((result ≡ status) × Appends (O.contents out.old) (O.contents out.new) text.now) }
{
    match write(out, text) {
        Ok(()) => status,
        Err(_) => {
            write_error(err, b"error file -\n");
            FAILED
        }
    }
}

// Prints what is printed beside the line of a refusal.
fn print_beside<O: Write, E: Write>(notice: &Option<ReportText>, out: &mut O, err: &mut E) -> u8
    ensures { IsRefusalSaid notice.now (O.contents out.old) (O.contents out.new) result }
{
    match notice {
        None => REFUSED,
        Some(text) => print(out, err, text, REFUSED),
    }
}

/// Says `answer`, and answers the status.
pub(crate) fn print_answer<O: Write, E: Write>(answer: &Answer, out: &mut O, err: &mut E) -> u8
    ensures { IsSaid answer.now (O.contents out.old) (O.contents out.new) result }
{
    match answer {
        Answer::Report(text, status) => print(out, err, text, *status),
        Answer::Refused(line, notice, help) => {
            write_error(err, line.as_bytes());
            write_error(err, help.as_slice());
            print_beside(notice, out, err)
        }
        Answer::Unread(line, help) => {
            write_error(err, line.as_bytes());
            write_error(err, help.as_slice());
            FAILED
        }
        Answer::Usage(text) => {
            write_error(err, text.as_bytes());
            REFUSED
        }
        Answer::OutOfMemory => write_memory_error(err),
    }
}
