// Faults of the command line, of files, of streams and of memory.

use super::{CERT, CHECK, Memory, RULES, TAKE, texts};
use mlk_app::{Explaining, Files, Runner, Unwatched, run};
use std::alloc::{AllocError, Global};
use std::io::{self, ErrorKind, Write};
use std::sync::Wait;
use std::test::Fail;
use std::thread::Threads;

// A writer that takes so many bytes and then fails.
#[derive(Drop)]
struct Short {
    room: usize,
}

impl Write for Short {
    fn write(&mut self, buf: &[u8]) -> io::Result<usize> {
        if self.room == 0 {
            return Err(io::Error::from(io::ErrorKind::StorageFull));
        }
        let count = buf.len().min(self.room);
        self.room -= count;
        Ok(count)
    }

    fn flush(&mut self) -> io::Result<()> {
        Ok(())
    }
}

// Files, one of which can't be read, for this reason.
#[derive(Drop)]
struct Broken<'a> {
    path: &'a str,
    kind: ErrorKind,
}

impl Files for Broken<'_> {
    fn read(&self, alloc: Global, path: &str) -> io::Result<Vec<u8>> {
        if path == self.path {
            return Err(io::Error::from(self.kind));
        }
        Ok(Vec::from_slice(alloc, b"\xff [[[")?)
    }

    fn routines_below(&self, _alloc: Global, _path: &str) -> io::Result<Option<Vec<String>>> {
        Ok(None)
    }

    fn write(&self, _path: &str, _text: &[u8]) -> io::Result<()> {
        Err(io::Error::from(self.kind))
    }

    fn ask(&self, _alloc: Global, _shown: &[u8]) -> io::Result<Option<Vec<u8>>> {
        Err(io::Error::from(self.kind))
    }
}

// Whether the words are refused with a text that tells why, and nothing is printed.
fn is_usage<R: Threads + Wait + Sync>(
    rt: &R,
    alloc: Global,
    words: &[&str],
) -> Result<bool, AllocError> {
    let words = texts(alloc, words)?;
    let mut out: Vec<u8> = Vec::new(alloc);
    let mut err: Vec<u8> = Vec::new(alloc);
    let files = Memory {
        files: &[("rules.toml", RULES), ("cert", CERT), ("ONE.m", TAKE)],
    };
    let runner = Runner {
        rt,
        alloc,
        watch: &Unwatched,
    };
    let status = run(
        &runner,
        words.as_slice(),
        &files,
        Explaining::AsAsked,
        &mut out,
        &mut err,
    );
    Ok(status == 2 && out.is_empty() && !err.is_empty())
}

// No words, and a call for help, are answered with the whole text; others are rows of `mlock_cases`.
#[test]
fn help_goes_to_the_error_stream(rt: HostRuntime) -> Result<(), Fail> {
    for words in [
        ["mlock"].as_slice(),
        ["mlock", "--help"].as_slice(),
        ["mlock", "--help", "--", "--", "--"].as_slice(),
    ] {
        assert!(&rt; is_usage(&rt, rt.alloc(), words)?);
    }
    Ok(())
}

const PATHS: [&str; 6] = ["mlock", "check", "rules.toml", "cert", "ONE.m", "far/TWO.m"];

#[test]
fn files_that_are_too_large(rt: HostRuntime) -> Result<(), Fail> {
    let alloc = rt.alloc();
    let words = texts(alloc, &PATHS)?;
    let rows = [
        ("rules.toml", "error file rules.toml\n"),
        ("cert", "error file cert\n"),
        ("ONE.m", "error file ONE.m\n"),
        ("far/TWO.m", "error file far/TWO.m\n"),
    ];
    for (path, line) in rows {
        let mut out: Vec<u8> = Vec::new(alloc);
        let mut err: Vec<u8> = Vec::new(alloc);
        let kind = ErrorKind::FileTooLarge;
        let files = Broken { path, kind };
        let runner = Runner {
            rt: &rt,
            alloc,
            watch: &Unwatched,
        };
        let status = run(
            &runner,
            words.as_slice(),
            &files,
            Explaining::AsAsked,
            &mut out,
            &mut err,
        );
        assert_eq!(&rt; status, 3);
        assert!(&rt; out.is_empty());
        assert!(&rt; err.as_slice() == line.as_bytes(), "not {line}");
    }
    Ok(())
}

#[test]
fn want_of_memory(rt: HostRuntime) -> Result<(), Fail> {
    let alloc = rt.alloc();
    let words = texts(alloc, &PATHS)?;
    let mut out: Vec<u8> = Vec::new(alloc);
    let mut err: Vec<u8> = Vec::new(alloc);
    let files = Broken {
        path: "cert",
        kind: ErrorKind::OutOfMemory,
    };
    let runner = Runner {
        rt: &rt,
        alloc,
        watch: &Unwatched,
    };
    let status = run(
        &runner,
        words.as_slice(),
        &files,
        Explaining::AsAsked,
        &mut out,
        &mut err,
    );
    assert_eq!(&rt; status, 3);
    assert!(&rt; out.is_empty());
    assert!(&rt; err.as_slice() == b"error memory\n".as_slice());
    Ok(())
}

#[test]
fn output_that_fails(rt: HostRuntime) -> Result<(), Fail> {
    let alloc = rt.alloc();
    let words = texts(alloc, &CHECK)?;
    let late = "TAKE SET ^ACCT(1)=5 LOCK +^ACCT(1) LOCK -^ACCT(1) QUIT\n";
    for (routine, length) in [(TAKE, 4), (late, 33)] {
        let files = Memory {
            files: &[("rules.toml", RULES), ("cert", CERT), ("ONE.m", routine)],
        };
        for room in 0..length {
            let mut out = Short { room };
            let mut err: Vec<u8> = Vec::new(alloc);
            let runner = Runner {
                rt: &rt,
                alloc,
                watch: &Unwatched,
            };
            let status = run(
                &runner,
                words.as_slice(),
                &files,
                Explaining::AsAsked,
                &mut out,
                &mut err,
            );
            assert_eq!(&rt; status, 3);
            assert!(&rt; err.as_slice() == b"error file -\n".as_slice());
        }
    }
    Ok(())
}

#[test]
fn errors_that_fail(rt: HostRuntime) -> Result<(), Fail> {
    let alloc = rt.alloc();
    let none = "[[entry]]\nlabel = \"X^NONE\"\n";
    let files = Memory {
        files: &[("rules.toml", none), ("cert", CERT), ("ONE.m", TAKE)],
    };
    for (path, wanted) in [("ONE.m", 2), ("absent", 3)] {
        let words = texts(alloc, &["mlock", "check", "rules.toml", "cert", path])?;
        let mut out: Vec<u8> = Vec::new(alloc);
        let mut err = Short { room: 3 };
        let runner = Runner {
            rt: &rt,
            alloc,
            watch: &Unwatched,
        };
        let status = run(
            &runner,
            words.as_slice(),
            &files,
            Explaining::AsAsked,
            &mut out,
            &mut err,
        );
        assert_eq!(&rt; status, wanted);
        assert!(&rt; out.is_empty());
    }
    Ok(())
}
