// Certificates and their parts, made of what keeps to the limits, and given back where it does not.

use mlk_cert::{
    Case, EntryCert, Point, Shared, Summary, Test, block_of, certificate_of, checked_case,
    point_of, with_case,
};
use mlk_text::{Failure, LineNumber, List, Name, Value};
use std::alloc::{AllocError, Global};
use std::test::Fail;

// A line, and a case for each of these letters.
type Spelled<'a> = (u32, &'a str);

// Names of one letter each.
fn names(alloc: Global, letters: &[u8]) -> Result<Vec<Name>, AllocError> {
    let mut names: Vec<Name> = Vec::new(alloc);
    for letter in letters {
        names.push(Name::of(alloc, &[*letter])?)?;
    }
    Ok(names)
}

/// A case that keeps these names, with these signs of open blocks.
pub(crate) fn case_with(
    alloc: Global,
    kept: Vec<Name>,
    saved: Vec<Test>,
) -> Result<Case, AllocError> {
    Ok(Case {
        test: Test::Any,
        held: Shared::new(alloc, Vec::new(alloc))?,
        own: Shared::new(alloc, Vec::new(alloc))?,
        kept: Shared::new(alloc, kept)?,
        saved: Shared::new(alloc, saved)?,
    })
}

// A case that keeps names of these letters.
fn case(alloc: Global, kept: &[u8]) -> Result<Case, AllocError> {
    case_with(alloc, names(alloc, kept)?, Vec::new(alloc))
}

fn cases(alloc: Global, letters: &str) -> Result<List<Case>, AllocError> {
    let mut cases = List::new(alloc);
    for letter in letters.as_bytes() {
        cases.push(case(alloc, &[*letter])?)?;
    }
    Ok(cases)
}

// A point at the start of a line.
fn point(alloc: Global, spelled: Spelled) -> Result<Point, AllocError> {
    Ok(Point {
        line: LineNumber::new(spelled.0),
        round: 0,
        cases: cases(alloc, spelled.1)?,
    })
}

fn points(alloc: Global, spelled: &[Spelled]) -> Result<List<Point>, AllocError> {
    let mut points = List::new(alloc);
    for one in spelled {
        points.push(point(alloc, *one)?)?;
    }
    Ok(points)
}

/// The block of an entry with these points.
pub(crate) fn block_with(alloc: Global, points: List<Point>) -> Result<EntryCert, AllocError> {
    let summary = Summary {
        need: List::new(alloc),
        exits: List::new(alloc),
        mods: List::new(alloc),
        low: None,
        drops: false,
    };
    Ok(EntryCert {
        entry: Value::of(alloc, b"E^R")?,
        summary,
        points,
    })
}

fn block(alloc: Global, spelled: &[Spelled]) -> Result<EntryCert, AllocError> {
    block_with(alloc, points(alloc, spelled)?)
}

// How many blocks of a certificate with these points come back; none where it is made.
fn given_back(alloc: Global, spelled: &[Spelled]) -> Result<usize, AllocError> {
    let mut blocks = Vec::new(alloc);
    blocks.push(block(alloc, spelled)?)?;
    match certificate_of(alloc, blocks) {
        Ok(_) => Ok(0),
        Err(Failure::OutOfMemory) => Err(AllocError),
        Err(Failure::Refused(back)) => Ok(back.len()),
    }
}

// Points, and whether they make a block and a certificate: each has cases, and a place of its own, in order.
const BLOCKS: &[(&[Spelled], bool)] = &[
    (&[(1, "AB"), (2, "A")], true),
    (&[(1, "A"), (2, "")], false),
    (&[(1, ""), (2, "A")], false),
    (&[(1, "A"), (1, "B")], false),
    (&[(2, "A"), (1, "B")], false),
    (&[(0, "A"), (1, "B")], false),
];

#[test]
fn points_make_a_certificate(rt: HostRuntime) -> Result<(), Fail> {
    for (points, is_made) in BLOCKS {
        let back = given_back(rt.alloc(), points)?;
        assert!(rt; (back == 0) == *is_made, "{points:?}");
        let block = block_of(rt.alloc(), block(rt.alloc(), points)?);
        assert!(rt; block.is_ok() == *is_made, "{points:?}");
    }
    Ok(())
}

fn is_case(alloc: Global, kept: &str) -> Result<bool, AllocError> {
    Ok(checked_case(alloc, case(alloc, kept.as_bytes())?).is_ok())
}

const KEPT: &[(&str, bool)] = &[("AB", true), ("BA", false), ("AA", false), ("7", false)];

#[test]
fn cases_in_order_are_made(rt: HostRuntime) -> Result<(), Fail> {
    for (kept, is_made) in KEPT {
        assert!(rt; is_case(rt.alloc(), kept)? == *is_made, "{kept}");
    }
    Ok(())
}

fn is_point(alloc: Global, spelled: Spelled) -> Result<bool, AllocError> {
    Ok(point_of(alloc, point(alloc, spelled)?).is_ok())
}

const POINTS: &[(Spelled, bool)] = &[
    ((1, "ABCDEFGHIJKLMNOP"), true),
    ((1, "ABCDEFGHIJKLMNOPQ"), false),
    ((65_536, "A"), false),
];

#[test]
fn points_of_a_few_cases_are_made(rt: HostRuntime) -> Result<(), Fail> {
    for (spelled, is_made) in POINTS {
        assert!(rt; is_point(rt.alloc(), *spelled)? == *is_made, "{spelled:?}");
    }
    Ok(())
}

// The letter of the only name that a case keeps, and 0 where there is none.
fn letter_of(case: &Case) -> u8 {
    let [name] = case.kept.as_slice() else {
        return 0;
    };
    match name.as_bytes() {
        [letter] => *letter,
        _ => 0,
    }
}

// How many cases a point has, and the letter that the second keeps.
fn second_of(point: &Point) -> (usize, u8) {
    match point.cases.as_slice() {
        [_, second, others @ ..] => (others.len().saturating_add(2), letter_of(second)),
        cases => (cases.len(), 0),
    }
}

// Whether a point with one more case is made, how many cases it has, and the letter that the second keeps.
fn one_more(alloc: Global, letters: &str, letter: u8) -> Result<(bool, usize, u8), AllocError> {
    let (is_made, (count, second)) = match with_case(
        alloc,
        point(alloc, (1, letters))?,
        case(alloc, &[letter])?,
    ) {
        Ok(point) => (true, second_of(&point)),
        Err(Failure::OutOfMemory) => return Err(AllocError),
        Err(Failure::Refused(point)) => (false, second_of(&point)),
    };
    Ok((is_made, count, second))
}

// Cases of a point, one more, and whether it is taken, with how many cases there are then.
const MORE: &[(&str, u8, (bool, usize, u8))] = &[
    ("AC", b'B', (true, 3, b'B')),
    ("BC", b'A', (true, 3, b'B')),
    ("A", b'B', (true, 2, b'B')),
    ("AB", b'B', (false, 3, b'B')),
    ("ABCDEFGHIJKLMNOP", b'Q', (false, 17, b'B')),
];

#[test]
fn one_more_case_is_inserted_or_returned(rt: HostRuntime) -> Result<(), Fail> {
    for (letters, letter, wanted) in MORE {
        let found = one_more(rt.alloc(), letters, *letter)?;
        assert!(rt; found == *wanted, "{letters}");
    }
    Ok(())
}
