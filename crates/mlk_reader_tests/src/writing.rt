// Certificates that are not written.

use crate::making::{block_with, case_with};
use mlk_cert::{
    Case, Certificate, EntryCert, Point, Test, WriteFault, certificate_of, read_cert, write_cert,
};
use mlk_text::{Failure, LineNumber, List};
use std::alloc::{AllocError, Global};
use std::io;
use std::io::Write;
use std::test::Fail;

// A writer that always fails.
#[derive(Drop)]
struct Broken;

impl Write for Broken {
    fn write(&mut self, _buf: &[u8]) -> io::Result<usize> {
        Err(io::Error::from(io::ErrorKind::BrokenPipe))
    }

    fn flush(&mut self) -> io::Result<()> {
        Ok(())
    }
}

fn fails(alloc: Global) -> bool {
    let Ok(certificate) = read_cert(alloc, b"mlock-cert 1\nend\n") else {
        return false;
    };
    matches!(
        write_cert(alloc, &certificate, &mut Broken),
        Err(Failure::Refused(WriteFault::Io(_)))
    )
}

#[test]
fn a_writer_fault_is_reported(rt: HostRuntime) {
    assert!(rt; fails(rt.alloc()));
}

// A case with this number of signs of open blocks.
fn long_case(alloc: Global, signs: usize) -> Result<Case, AllocError> {
    let mut saved = Vec::new(alloc);
    saved.resize(signs, Test::Any)?;
    case_with(alloc, Vec::new(alloc), saved)
}

fn long_point(alloc: Global, signs: usize) -> Result<Point, AllocError> {
    let mut cases = List::new(alloc);
    cases.push(long_case(alloc, signs)?)?;
    Ok(Point {
        line: LineNumber::new(1),
        round: 0,
        cases,
    })
}

fn long_block(alloc: Global, signs: usize) -> Result<EntryCert, AllocError> {
    let mut points = List::new(alloc);
    points.push(long_point(alloc, signs)?)?;
    block_with(alloc, points)
}

// A certificate with this number of signs.
fn long_certificate(alloc: Global, signs: usize) -> Result<Certificate, Failure<Vec<EntryCert>>> {
    let mut blocks = Vec::new(alloc);
    blocks.push(long_block(alloc, signs)?)?;
    certificate_of(alloc, blocks)
}

// How many bytes are written, and the number and the line that are reported.
fn written_of(alloc: Global, certificate: &Certificate) -> (usize, u16, u32) {
    let mut text: Vec<u8> = Vec::new(alloc);
    match write_cert(alloc, certificate, &mut text) {
        Err(Failure::Refused(WriteFault::TooLong(fault))) => {
            (text.len(), fault.code.number(), fault.line.number())
        }
        _ => (text.len(), 0, 0),
    }
}

fn written(alloc: Global, signs: usize) -> (usize, u16, u32) {
    match &long_certificate(alloc, signs) {
        Ok(certificate) => written_of(alloc, certificate),
        Err(_) => (0, 0, 0),
    }
}

#[test]
fn a_text_that_is_too_long_is_not_begun(rt: HostRuntime) {
    let alloc = rt.alloc();
    let front = written(alloc, 1).0.saturating_sub(1);
    let signs = 67_108_864usize.saturating_sub(front);
    assert!(rt; written(alloc, signs) == (67_108_864, 0, 0));
    assert!(rt; written(alloc, signs.saturating_add(1)) == (0, 605, 1));
}
