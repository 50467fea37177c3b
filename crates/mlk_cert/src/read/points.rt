// The readers of points.

ghost use Rattle.std.specs.Prelude.{◌≡◌, ◌==◌, ◌&&◌, OnOk, IfOk, option_map, option_copied, List, ℕ};
ghost use Rattle.mlk_text.specs.Failures.{Reads};
ghost use Rattle.mlk_cert_parts.specs.Checks.{fits_case};
ghost use Rattle.mlk_cert.specs.Fitting.{passes};
ghost use Rattle.mlk_cert_lexemes.specs.Lists.{last_of};
ghost use Rattle.mlk_cert_parts.specs.Texts.{case_text};
ghost use Rattle.mlk_cert.specs.Blocks.{place_at, listed_case_at, fits_listed, after_at, add_case};
ghost use Rattle.mlk_cert.specs.Blocks.{point_of, with_case, next_case_fits, points_at};
ghost use Rattle.mlk_cert.specs.Second.{cases_of_points};
ghost use Rattle.mlk_cert.specs.Numbered.{listed_points_at};
ghost use Rattle.mlk_cert.specs.Named.{AddsNumbers};

use crate::number::CaseNumber;
use crate::read::case::case;
use crate::read::fault::{BlockFault, other_form};
use crate::read::fit::{Fit, fit_both, fit_of};
use crate::read::line::{is_above, line_end};
use crate::read::memory::Memories;
use crate::read::numbered::numbered_points;
use mlk_cert_lexemes::{front_of, number, positive_number, word_of};
use mlk_cert_parts::limit::{GREATEST_LINE, GREATEST_ROUND, MOST_CASES};
use mlk_cert_parts::{Case, Point};
use mlk_text::lexeme::byte_of;
use mlk_text::{Failure, LineNumber, List};
use std::alloc::{AllocError, Global};

/// Reads the place of a point: the place, and the rest; otherwise `None`.
#[tactic(auto, unfolding(crate::specs::Blocks::place_at))]
pub(crate) fn place(bytes: &[u8]) -> Option<((u32, u32), &[u8])>
    ensures { option_map (λ x. (x.0, x.1.now)) result ≡ place_at bytes.now }
{
    let Some((line, rest)) = positive_number(GREATEST_LINE, bytes) else {
        return None;
    };
    let Some(rest) = byte_of(b'.', rest) else {
        return None;
    };
    let Some((round, rest)) = number(GREATEST_ROUND, rest) else {
        return None;
    };
    Some(((line, round), rest))
}

fn is_at(point: &Point, line: u32, round: u32) -> bool
    ensures { result ≡ ((point.now.line == line) && (point.now.round == round)) }
{
    point.line.number() == line && point.round == round
}

// Whether a case with the text `text` may follow at this place.
fn next_fit(point: Option<&Point>, last: Option<&[u8]>, line: u32, round: u32, text: &[u8]) -> Fit
    ensures { passes result ≡ next_case_fits (option_copied point.entry) (option_map
        (λ x. x.now) last.entry) line round text.now }
{
    let Some(point) = point else {
        return Fit::Yes;
    };
    if is_at(point, line, round) {
        return fit_of(
            point.cases.as_slice().len() < MOST_CASES,
            is_above(last, text),
        );
    }
    fit_of(
        true,
        point.line.number() < line || (point.line.number() == line && point.round < round),
    )
}

// Reads the rest of an `at` line, after `point`, whose last case has the text `last`.
#[tactic(auto, unfolding(crate::specs::Blocks::after_at, crate::specs::Blocks::listed_case_at))]
fn at_line<'a>(
    alloc: Global,
    memories: &mut Memories<'a>,
    point: Option<&Point>,
    last: Option<&[u8]>,
    bytes: &'a [u8],
) -> Result<((u32, u32, Case), &'a [u8], &'a [u8]), Failure<BlockFault>>
    ensures read { Reads (λ x. (x.0, x.2.now)) result (after_at listed_case_at fits_listed
        (λ l. next_case_fits (option_copied point.entry) (option_map (λ x. x.now) last.entry) l.0 l.1
        (case_text l.2)) bytes.now) }
    ensures text { IfOk result (λ x. x.1.now ≡ case_text x.0.2) }
{
    let Some(((line, round), rest)) = place(bytes) else {
        return Err(Failure::Refused(other_form(bytes)));
    };
    let Some(start) = byte_of(b' ', rest) else {
        return Err(Failure::Refused(other_form(bytes)));
    };
    match case(alloc, memories, start) {
        Ok((found, fit, rest)) => {
            let text = front_of(start, rest);
            let next = next_fit(point, last, line, round, text);
            let (listed, rest) = line_end((line, round, found), fit_both(fit, next), rest, bytes)?;
            Ok((listed, text, rest))
        }
        Err(Failure::OutOfMemory) => Err(Failure::OutOfMemory),
        Err(Failure::Refused(_)) => Err(Failure::Refused(other_form(bytes))),
    }
}

fn new_point(alloc: Global, line: u32, round: u32, case: Case) -> Result<Point, AllocError>
    ensures { IfOk result (λ p. p ≡ point_of (line, round, case)) }
{
    let mut cases = Vec::with_capacity(alloc, 1)?;
    cases.push(case)?;
    Ok(Point {
        line: LineNumber::new(line),
        round,
        cases: List::of(cases),
    })
}

fn one_more(point: Point, case: Case) -> Result<Point, AllocError>
    ensures { IfOk result (λ p. p ≡ with_case point case) }
{
    let Point {
        line,
        round,
        mut cases,
    } = point;
    cases.push_sparing(case)?;
    Ok(Point { line, round, cases })
}

// Adds a case: to the last point if it is at the same place, otherwise to a new one.
fn add(alloc: Global, points: &mut Vec<Point>, listed: (u32, u32, Case)) -> Result<(), AllocError>
    ensures { OnOk result (points.new.items ≡ add_case points.old.items listed) }
{
    let (line, round, case) = listed;
    let Some(last) = points.pop() else {
        points.push(new_point(alloc, line, round, case)?)?;
        return Ok(());
    };
    if is_at(&last, line, round) {
        points.push(one_more(last, case)?)?;
        return Ok(());
    }
    points.push(last)?;
    points.push(new_point(alloc, line, round, case)?)?;
    Ok(())
}

/// Reads the points at the front: the points, and the rest.
pub(crate) fn points(
    alloc: Global,
    bytes: &[u8],
) -> Result<(List<Point>, &[u8]), Failure<BlockFault>>
    ensures { Reads (λ x. (x.0, x.1.now)) result (points_at bytes.now) }
{
    let mut found: Vec<Point> = Vec::new(alloc);
    let mut memories = Memories::new();
    let mut last: Option<&[u8]> = None;
    let mut rest = bytes;
    while let Some(after) = word_of(b"at ", rest) {
        let (listed, text, after) = at_line(
            alloc,
            &mut memories,
            found.as_slice().last(),
            last,
            after,
        )?;
        add(alloc, &mut found, listed)?;
        last = Some(text);
        rest = after;
    }
    Ok((List::of(found), rest))
}

/// Reads the points at the front, with their cases or the numbers of these: the points, and the rest. The numbers are added
/// to `named`.
pub(crate) fn listed_points<'a>(
    alloc: Global,
    cases: Option<&[Case]>,
    named: &mut Vec<CaseNumber>,
    bytes: &'a [u8],
) -> Result<(List<Point>, &'a [u8]), Failure<BlockFault>>
    ensures read { Reads (λ x. (x.0, x.1.now)) result (listed_points_at (option_map
        (λ x. x.now) cases.entry) bytes.now) }
    ensures numbers { IfOk result (λ x. AddsNumbers (option_map (λ x. x.now)
        cases.entry) named.old.items named.new.items (cases_of_points x.0)) }
{
    match cases {
        None => points(alloc, bytes),
        Some(cases) => numbered_points(alloc, cases, named, bytes),
    }
}
