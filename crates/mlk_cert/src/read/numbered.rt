// The readers of points that refer to cases by number.

ghost use Rattle.std.specs.Prelude.{◌≡◌, ◌++◌, ◌-◌, IfOk, OnOk, Some, option_copied, option_to_list, slice_get, length};
ghost use Rattle.mlk_text.specs.Failures.{Reads};
ghost use Rattle.mlk_cert.specs.Fitting.{passes};
ghost use Rattle.mlk_cert.specs.Blocks.{after_at};
ghost use Rattle.mlk_cert.specs.Second.{cases_of_points};
ghost use Rattle.mlk_cert.specs.Named.{AddsNumbers};
ghost use Rattle.mlk_cert.specs.Numbered.{are_upto, numbers_at, fits_numbers, numbered_point_at, fits_numbered_point};
ghost use Rattle.mlk_cert.specs.Numbered.{next_place_fits, cases_by, point_by, numbered_points_at};

use crate::number::CaseNumber;
use crate::read::fault::{BlockFault, other_form};
use crate::read::fit::{Fit, fit_both, fit_of};
use crate::read::line::line_end;
use crate::read::points::place;
use mlk_cert_lexemes::{items, word_of};
use mlk_cert_parts::limit::MOST_CASES;
use mlk_cert_parts::{Case, Point, copy_case};
use mlk_text::lexeme::byte_of;
use mlk_text::{Failure, LineNumber, List, NotThere};
use std::alloc::{AllocError, Global};

fn are_upto(most: usize, numbers: &[CaseNumber]) -> bool
    ensures { result ≡ are_upto most numbers.now }
{
    for number in numbers {
        if number.number() as usize > most {
            return false;
        }
    }
    true
}

// Reads the numbers of a point in a certificate with `most` cases, and returns whether they respect their limits.
#[tactic(auto, unfolding(crate::specs::Numbered::numbers_at))]
fn numbers(
    alloc: Global,
    most: usize,
    bytes: &[u8],
) -> Result<(Vec<CaseNumber>, Fit, &[u8]), Failure<NotThere>>
    ensures read { Reads (λ x. (x.0.items, x.2.now)) result (numbers_at most bytes.now) }
    ensures fit { IfOk result (λ x. passes x.1 ≡ fits_numbers x.0.items) }
{
    let (found, ordered, rest) = items::<CaseNumber>(alloc, b';', bytes)?;
    if !are_upto(most, found.as_slice()) {
        return Err(Failure::Refused(NotThere));
    }
    let fit = fit_of(found.len() <= MOST_CASES, ordered);
    Ok((found, fit, rest))
}

// Whether a point at this place may follow `point`.
fn next_fit(point: Option<&Point>, line: u32, round: u32) -> Fit
    ensures { passes result ≡ next_place_fits (option_copied point.entry) line round }
{
    let Some(point) = point else {
        return Fit::Yes;
    };
    fit_of(
        true,
        point.line.number() < line || (point.line.number() == line && point.round < round),
    )
}

// Reads the rest of the line of a point, after `point`, in a certificate with `most` cases.
#[tactic(auto, unfolding(crate::specs::Blocks::after_at, crate::specs::Numbered::numbered_point_at))]
fn numbered_point<'a>(
    alloc: Global,
    most: usize,
    point: Option<&Point>,
    bytes: &'a [u8],
) -> Result<((u32, u32, List<CaseNumber>), &'a [u8]), Failure<BlockFault>>
    ensures { Reads (λ x. (x.0, x.1.now)) result (after_at (numbered_point_at most) fits_numbered_point
        (λ p. next_place_fits (option_copied point.entry) p.0 p.1) bytes.now) }
{
    let Some(((line, round), rest)) = place(bytes) else {
        return Err(Failure::Refused(other_form(bytes)));
    };
    let Some(start) = byte_of(b' ', rest) else {
        return Err(Failure::Refused(other_form(bytes)));
    };
    match numbers(alloc, most, start) {
        Ok((found, fit, rest)) => {
            let fit = fit_both(fit, next_fit(point, line, round));
            line_end((line, round, List::of(found)), fit, rest, bytes)
        }
        Err(Failure::OutOfMemory) => Err(Failure::OutOfMemory),
        Err(Failure::Refused(_)) => Err(Failure::Refused(other_form(bytes))),
    }
}

// Appends the case with the number `number`, if there is one.
fn add_case(found: &mut Vec<Case>, cases: &[Case], number: CaseNumber) -> Result<(), AllocError>
    ensures { OnOk result (found.new.items ≡ found.old.items ++ option_to_list (slice_get cases.now (number - 1))) }
{
    let Some(case) = cases.get(number.place()) else {
        return Ok(());
    };
    found.push(copy_case(case)?)?;
    Ok(())
}

// The cases with the numbers `numbers`.
fn cases_by(alloc: Global, cases: &[Case], numbers: &[CaseNumber]) -> Result<Vec<Case>, AllocError>
    ensures { IfOk result (λ v. v.items ≡ cases_by cases.now numbers.now) }
{
    let mut found = Vec::with_capacity(alloc, numbers.len())?;
    for number in numbers {
        add_case(&mut found, cases, *number)?;
    }
    Ok(found)
}

// The point with the cases of its numbers; these numbers are added to `named`.
fn point_by(
    alloc: Global,
    cases: &[Case],
    named: &mut Vec<CaseNumber>,
    numbered: (u32, u32, List<CaseNumber>),
) -> Result<Point, AllocError>
    ensures point { IfOk result (λ p. p ≡ point_by cases.now numbered) }
    ensures numbers { OnOk result (named.new.items ≡ named.old.items ++ numbered.2) }
{
    let (line, round, numbers) = numbered;
    named.extend_from_slice(numbers.as_slice())?;
    let cases = cases_by(alloc, cases, numbers.as_slice())?;
    Ok(Point {
        line: LineNumber::new(line),
        round,
        cases: List::of(cases),
    })
}

/// Reads the points at the front, which refer to `cases`: the points, and the rest. The numbers are added to `named`.
pub(crate) fn numbered_points<'a>(
    alloc: Global,
    cases: &[Case],
    named: &mut Vec<CaseNumber>,
    bytes: &'a [u8],
) -> Result<(List<Point>, &'a [u8]), Failure<BlockFault>>
    ensures read { Reads (λ x. (x.0, x.1.now)) result (numbered_points_at cases.now bytes.now) }
    ensures numbers { IfOk result (λ x. AddsNumbers (Some cases.now) named.old.items named.new.items (cases_of_points x.0)) }
{
    let mut found: Vec<Point> = Vec::new(alloc);
    let mut rest = bytes;
    while let Some(after) = word_of(b"at ", rest) {
        let (numbered, after) = numbered_point(alloc, cases.len(), found.as_slice().last(), after)?;
        found.push(point_by(alloc, cases, named, numbered)?)?;
        rest = after;
    }
    Ok((List::of(found), rest))
}
