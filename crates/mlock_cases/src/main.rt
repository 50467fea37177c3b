//! Runs command lines of `mlock` over files given beside them in one text, and prints what each answers.
//!
//! The text comes on standard input, as `mlk_case_text` reads it. For each command line its words are printed and what it shows,
//! then what it prints, then what it writes to the error stream, then what it shows to a person, with the lines of the file `stdin`,
//! which that person enters, and the files that it writes, each after `-- ` and its path, then `= ` and its status. A path that ends
//! with a slash is that of a folder.
#![tactic(auto)]

use bstr::ByteSlice;
use mlk_app::{Explaining, Files, Runner, Unwatched, run};
use mlk_case_text::{Case, cases_of};
use std::alloc::{AllocError, Global};
use std::cell::{Cell, RefCell};
use std::io::{self, Read, Write};
use std::sync::Wait;
use std::thread::Threads;

// The files given with a command line, and what is written.
#[derive(Drop)]
struct CaseFiles<'a> {
    case: &'a Case<'a>,
    written: RefCell<Vec<u8>>,
    // the number of lines of the file `stdin` that were entered
    entered: Cell<usize>,
}

// The line number `number`, from 0, of the file `stdin`; `None` after the last one.
fn nth_line(alloc: Global, case: &Case<'_>, number: usize) -> io::Result<Option<Vec<u8>>> {
    let Ok(text) = case.read(alloc, "stdin") else {
        return Ok(None);
    };
    match text.as_slice().lines().nth(number) {
        Some(line) => Ok(Some(Vec::from_slice(alloc, line)?)),
        None => Ok(None),
    }
}

// Adds the paths of the routines below a folder.
fn push_routines(
    alloc: Global,
    case: &Case<'_>,
    folder: &str,
    routines: &mut Vec<String>,
) -> Result<(), AllocError> {
    for name in case.names(alloc)? {
        if name.starts_with(folder.as_bytes()) && name.ends_with(b".m") {
            routines.push(String::from_utf8_lossy(alloc, name)?)?;
        }
    }
    Ok(())
}

impl Files for CaseFiles<'_> {
    fn read(&self, alloc: Global, path: &str) -> io::Result<Vec<u8>> {
        self.case.read(alloc, path)
    }

    fn routines_below(&self, alloc: Global, path: &str) -> io::Result<Option<Vec<String>>> {
        if !path.ends_with('/') {
            return Ok(None);
        }
        let mut routines = Vec::new(alloc);
        push_routines(alloc, self.case, path, &mut routines)?;
        routines.sort()?;
        Ok(Some(routines))
    }

    fn write(&self, path: &str, text: &[u8]) -> io::Result<()> {
        let mut written = self.written.try_borrow_mut()?;
        written.extend_from_slice(b"-- ")?;
        written.extend_from_slice(path.as_bytes())?;
        written.extend_from_slice(b"\n")?;
        written.extend_from_slice(text)?;
        Ok(())
    }

    fn ask(&self, alloc: Global, shown: &[u8]) -> io::Result<Option<Vec<u8>>> {
        let mut written = self.written.try_borrow_mut()?;
        written.extend_from_slice(shown)?;
        let line = nth_line(alloc, self.case, self.entered.get())?;
        self.entered.set(self.entered.get().saturating_add(1));
        if let Some(line) = &line {
            written.extend_from_slice(line.as_slice())?;
        }
        written.push(b'\n')?;
        Ok(line)
    }
}

// Adds what a command line answers.
fn push_answer<R: Threads + Wait + Sync>(
    rt: &R,
    alloc: Global,
    case: &Case<'_>,
    out: &mut Vec<u8>,
) -> io::Result<()> {
    let words = case.words(alloc, "mlock")?;
    let mut errors: Vec<u8> = Vec::new(alloc);
    case.push_heading(out)?;
    let files = CaseFiles {
        case,
        written: RefCell::new(Vec::new(alloc)),
        entered: Cell::new(0),
    };
    let runner = Runner {
        rt,
        alloc,
        watch: &Unwatched,
    };
    let status = run(
        &runner,
        words.as_slice(),
        &files,
        Explaining::AsAsked,
        out,
        &mut errors,
    );
    out.extend_from_slice(errors.as_slice())?;
    let written = files.written.into_inner();
    out.extend_from_slice(written.as_slice())?;
    writeln!(out, "= {status}")
}

fn main(rt: HostRuntime) -> io::Result<()> {
    let alloc = rt.alloc();
    let mut text: Vec<u8> = Vec::new(alloc);
    let mut out: Vec<u8> = Vec::new(alloc);
    rt.stdin().read_to_end(&mut text)?;
    for case in cases_of(alloc, text.as_slice())?.as_slice() {
        push_answer(&rt, alloc, case, &mut out)?;
    }
    rt.stdout().write_all(out.as_slice())
}
