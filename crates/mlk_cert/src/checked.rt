// Certificates and their parts that were constructed instead of read: they are checked by reading their texts back.

ghost use Rattle.std.specs.Prelude.{◌≡◌, ◌↔◌, ◌≤◌, IsTrue, IfOk, IfErr, length};
ghost use Rattle.mlk_cert_parts.specs.Limits.{IsCase, IsPoint, IsBlock, IsCertificate};
ghost use Rattle.mlk_cert.specs.Making.{Made, GivesBack, before, with_more};

use crate::named::text_of;
use crate::read::case::case;
use crate::read::memory::Memories;
use crate::read::points::points;
use crate::read::whole::first_body;
use mlk_cert_lexemes::{WrittenText, are_both, is_below, push_flat};
use mlk_cert_parts::{Case, Certificate, EntryCert, Point, are_same_lists};
use mlk_text::{Failure, List};
use std::alloc::{AllocError, Global};
use std::slice;

fn is_case(alloc: Global, made: &Case) -> Result<bool, AllocError>
    ensures { IfOk result (λ b. IsTrue b ↔ IsCase made.now) }
{
    let text = text_of(alloc, made)?;
    let mut memories = Memories::new();
    match case(alloc, &mut memories, text.as_bytes()) {
        Ok((found, fit, _)) => {
            let equal = are_same_lists(slice::from_ref(made), slice::from_ref(&found));
            Ok(are_both(fit.is_yes(), equal))
        }
        Err(Failure::OutOfMemory) => Err(AllocError),
        Err(Failure::Refused(_)) => Ok(false),
    }
}

fn is_point(alloc: Global, made: &Point) -> Result<bool, AllocError>
    ensures { IfOk result (λ b. IsTrue b ↔ IsPoint made.now) }
{
    let mut text = WrittenText::new(alloc);
    push_flat(&mut text, slice::from_ref(made))?;
    match points(alloc, text.as_bytes()) {
        Ok((found, _)) => Ok(are_same_lists(slice::from_ref(made), found.as_slice())),
        Err(Failure::OutOfMemory) => Err(AllocError),
        Err(Failure::Refused(_)) => Ok(false),
    }
}

fn are_certificate(alloc: Global, made: &[EntryCert]) -> Result<bool, AllocError>
    ensures { IfOk result (λ b. IsTrue b ↔ IsCertificate made.now) }
{
    let mut text = WrittenText::new(alloc);
    push_flat(&mut text, made)?;
    text.push(b"end\n")?;
    match first_body(alloc, text.as_bytes()) {
        Ok(found) => Ok(are_same_lists(made, found.as_slice())),
        Err(Failure::OutOfMemory) => Err(AllocError),
        Err(Failure::Refused(_)) => Ok(false),
    }
}

/// Checks that `made` respects all limits and orders; otherwise `Refused` returns it.
pub fn checked_case(alloc: Global, made: Case) -> Result<Case, Failure<Case>>
    ensures made { IfOk result (Made IsCase made) }
    ensures refused { IfErr result (GivesBack IsCase made) }
{
    if is_case(alloc, &made)? {
        Ok(made)
    } else {
        Err(Failure::Refused(made))
    }
}

/// Checks that `made` and its cases respect all limits and orders; otherwise `Refused` returns it.
pub fn point_of(alloc: Global, made: Point) -> Result<Point, Failure<Point>>
    ensures made { IfOk result (Made IsPoint made) }
    ensures refused { IfErr result (GivesBack IsPoint made) }
{
    if is_point(alloc, &made)? {
        Ok(made)
    } else {
        Err(Failure::Refused(made))
    }
}

/// Checks that `made` and all its parts respect all limits and orders; otherwise `Refused` returns it.
pub fn block_of(alloc: Global, made: EntryCert) -> Result<EntryCert, Failure<EntryCert>>
    ensures made { IfOk result (Made IsBlock made) }
    ensures refused { IfErr result (GivesBack IsBlock made) }
{
    if are_certificate(alloc, slice::from_ref(&made))? {
        Ok(made)
    } else {
        Err(Failure::Refused(made))
    }
}

/// Checks that the blocks `made` respect all limits and orders; otherwise `Refused` returns them.
pub fn certificate_of(
    alloc: Global,
    made: Vec<EntryCert>,
) -> Result<Certificate, Failure<Vec<EntryCert>>>
    ensures made { IfOk result (Made IsCertificate made.items) }
    ensures refused { IfErr result (GivesBack (λ v. IsCertificate v.items) made) }
{
    if are_certificate(alloc, made.as_slice())? {
        Ok(Certificate::of(made))
    } else {
        Err(Failure::Refused(made))
    }
}

// The number of cases before the first whose text is not below `text`.
fn place_of(alloc: Global, cases: &[Case], text: &[u8]) -> Result<usize, AllocError>
    ensures place { IfOk result (λ n. n ≡ before cases.now text.now) }
    ensures within { IfOk result (λ n. n ≤ length cases.now) }
{
    let mut place = 0;
    let mut left = cases;
    while let Some((first, others)) = left.split_first() {
        let other = text_of(alloc, first)?;
        if !is_below(other.as_bytes(), text) {
            return Ok(place);
        }
        place += 1;
        left = others;
    }
    Ok(place)
}

/// Inserts `more` into `point`, ordered by the texts of cases. If the result breaks a limit, or has a case twice, `Refused`
/// returns it with all its cases.
pub fn with_case(alloc: Global, point: Point, more: Case) -> Result<Point, Failure<Point>>
    ensures made { IfOk result (Made IsPoint (with_more point more)) }
    ensures refused { IfErr result (GivesBack IsPoint (with_more point more)) }
{
    let text = text_of(alloc, &more)?;
    let place = place_of(alloc, point.cases.as_slice(), text.as_bytes())?;
    let Point { line, round, cases } = point;
    let mut cases = cases.into_vec();
    cases.insert(place, more)?;
    let cases = List::of(cases);
    point_of(alloc, Point { line, round, cases })
}
