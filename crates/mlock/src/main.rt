//! `mlock`: checks that M routines touch shared data only under their locks.
#![tactic(auto)]

mod folder;
mod progress;
#[cfg(test)]
mod tests;

use crate::folder::{is_folder, routines_below};
use crate::progress::Progress;
use mlk_app::{Explaining, Files, Runner, read_line, read_whole, run, wrong_words};
use std::alloc::Global;
use std::fs::{self, File};
use std::io::{self, IsTerminal, Write};
use std::process::ExitCode;

// The files of the system.
#[derive(Drop)]
struct Disk<'a> {
    rt: &'a HostRuntime,
}

impl Files for Disk<'_> {
    fn read(&self, alloc: Global, path: &str) -> io::Result<Vec<u8>> {
        read_whole(alloc, File::open(self.rt, path)?)
    }

    fn routines_below(&self, _alloc: Global, path: &str) -> io::Result<Option<Vec<String>>> {
        if !is_folder(self.rt, path) {
            return Ok(None);
        }
        Ok(Some(routines_below(self.rt, path)?))
    }

    fn write(&self, path: &str, text: &[u8]) -> io::Result<()> {
        fs::write(self.rt, path, text)
    }

    fn ask(&self, alloc: Global, shown: &[u8]) -> io::Result<Option<Vec<u8>>> {
        self.rt.stderr().write_all(shown)?;
        let line = read_line(alloc, &mut self.rt.stdin())?;
        show_entered(self.rt, &line)?;
        Ok(line)
    }
}

// Shows the line that was entered, unless a terminal has shown it, or that the input has ended.
fn show_entered(rt: &HostRuntime, line: &Option<Vec<u8>>) -> io::Result<()> {
    let mut err = rt.stderr();
    if let Some(line) = line {
        if rt.stdin().is_terminal() {
            return Ok(());
        }
        err.write_all(line.as_slice())?;
    }
    err.write_all(b"\n")
}

// The words of the command line; one that is no UTF-8 is refused as a whole.
fn words_of(rt: &HostRuntime) -> io::Result<Vec<String>> {
    let words = std::env::args(rt)?;
    Ok(words.collect(rt.alloc())?)
}

// Refusals are explained to people.
fn explaining(rt: &HostRuntime) -> Explaining {
    if rt.stderr().is_terminal() {
        Explaining::Refusals
    } else {
        Explaining::AsAsked
    }
}

fn main(rt: HostRuntime) -> ExitCode {
    let mut out = rt.stdout();
    let mut err = rt.stderr();
    let status = match words_of(&rt) {
        Ok(words) => {
            let disk = Disk { rt: &rt };
            let progress = Progress::new(&rt);
            let runner = Runner {
                rt: &rt,
                alloc: rt.alloc(),
                watch: &progress,
            };
            run(
                &runner,
                words.as_slice(),
                &disk,
                explaining(&rt),
                &mut out,
                &mut err,
            )
        }
        Err(error) => wrong_words(&error, &mut err),
    };
    ExitCode::from(status)
}
