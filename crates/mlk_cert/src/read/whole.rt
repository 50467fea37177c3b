// The reader of whole certificates.

ghost use Rattle.std.specs.Prelude.{◌≡◌, ◌≤◌, ◌+◌, length, map, option_map, IfOk, IfErr, List, None, true};
ghost use Rattle.mlk_text.specs.Failures.{Reads};
ghost use Rattle.mlk_cert_lexemes.specs.Lists.{ascends, below};
ghost use Rattle.mlk_cert_parts.specs.Limits.{longest};
ghost use Rattle.mlk_cert_parts.specs.Texts.{case_text};
ghost use Rattle.mlk_cert.specs.Faults.{IsLater, at_first};
ghost use Rattle.mlk_cert.specs.Blocks.{blocks_at, finished, body_at};
ghost use Rattle.mlk_cert.specs.Second.{cases_of_blocks};
ghost use Rattle.mlk_cert.specs.Numbered.{listed_points_at, all_named, second_body_at, body_in, head_at};
ghost use Rattle.mlk_cert.specs.Named.{texts_by, AddsNumbers};
ghost use Rattle.mlk_cert.specs.Theorem.{Spells, IsReading};
ghost use Rattle.mlk_cert.specs.Refusals.{IsPlaced, lines_in};

use crate::format::CertFormat;
use crate::number::CaseNumber;
use crate::read::block::blocks;
use crate::read::cases::cases;
use crate::read::fault::{BlockFault, CertFault, other_form};
use crate::read::unnamed::first_unnamed;
use mlk_cert_lexemes::word_of;
use mlk_cert_parts::limit::LONGEST_TEXT;
use mlk_cert_parts::{Case, Certificate, EntryCert};
use mlk_text::{Code, Failure, LineNumber};
use std::alloc::Global;

fn lines_in(bytes: &[u8]) -> u32
    requires { length bytes.now ≤ longest }
    ensures count { result ≡ lines_in bytes.now }
    ensures bound { result ≤ length bytes.now }
{
    let mut lines = 0;
    for b in bytes {
        if *b == b'\n' {
            lines += 1;
        }
    }
    lines
}

// Gives a fault after the head line its line; if the text ends too early, that is the number of complete lines.
fn fault_at(bytes: &[u8], refusal: BlockFault) -> CertFault
    requires { length bytes.now ≤ longest }
    ensures { IsLater bytes.now result }
{
    let code = refusal.code;
    if code == Code::NoEnd {
        let line = LineNumber::new(lines_in(bytes) + 1);
        return CertFault { code, line };
    }
    let (front, _) = bytes.split_at(bytes.len().saturating_sub(refusal.left));
    let line = LineNumber::new(lines_in(front) + 2);
    CertFault { code, line }
}

// Checks that nothing follows the last line.
fn finished(found: Vec<EntryCert>, after: &[u8]) -> Result<Vec<EntryCert>, Failure<BlockFault>>
    ensures { Reads (λ x. x.items) result (finished found.items after.now) }
{
    let None = after.split_first() else {
        return Err(Failure::Refused(BlockFault {
            code: Code::Form,
            left: after.len(),
        }));
    };
    Ok(found)
}

// Reads the blocks and the end line. Points refer to `cases` by number, if there are any; these numbers are added to `named`.
#[tactic(auto, unfolding(crate::specs::Blocks::body_at))]
fn body(
    alloc: Global,
    cases: Option<&[Case]>,
    named: &mut Vec<CaseNumber>,
    bytes: &[u8],
) -> Result<Vec<EntryCert>, Failure<BlockFault>>
    ensures read { Reads (λ x. x.items) result (body_at (listed_points_at (option_map
        (λ x. x.now) cases.entry)) bytes.now) }
    ensures numbers { IfOk result (λ v. AddsNumbers (option_map (λ x. x.now)
        cases.entry) named.old.items named.new.items (cases_of_blocks v.items)) }
{
    let (found, rest) = blocks(alloc, cases, named, bytes)?;
    let Some(after) = word_of(b"end\n", rest) else {
        return Err(Failure::Refused(other_form(rest)));
    };
    let whole = finished(found, after)?;
    Ok(whole)
}

/// Reads the blocks and the end line of the first format, whose points contain their cases.
pub(crate) fn first_body(alloc: Global, bytes: &[u8]) -> Result<Vec<EntryCert>, Failure<BlockFault>>
    ensures { Reads (λ x. x.items) result (body_at (listed_points_at None) bytes.now) }
{
    let mut named: Vec<CaseNumber> = Vec::new(alloc);
    let found = body(alloc, None, &mut named, bytes)?;
    Ok(found)
}

// The number of bytes after the first `lines` lines.
fn left_after(lines: usize, bytes: &[u8]) -> usize {
    let mut passed: usize = 0;
    let mut left = bytes.len();
    for b in bytes {
        if passed >= lines {
            return left;
        }
        left = left.saturating_sub(1);
        if *b == b'\n' {
            passed = passed.saturating_add(1);
        }
    }
    left
}

// Returns the blocks `found` if points refer to each of `cases`, by the numbers `named`.
fn all_named(
    alloc: Global,
    cases: &[Case],
    named: &[CaseNumber],
    found: Vec<EntryCert>,
    bytes: &[u8],
) -> Result<Vec<EntryCert>, Failure<BlockFault>>
    requires order { ascends below (map case_text cases.now) ≡ true }
    requires numbers { texts_by cases.now named.now ≡ cases_of_blocks found.items }
    ensures { Reads (λ x. x.items) result (all_named cases.now found.items) }
{
    match first_unnamed(alloc, cases, named)? {
        None => Ok(found),
        Some(place) => Err(Failure::Refused(BlockFault {
            code: Code::CaseUnused,
            left: left_after(place, bytes),
        })),
    }
}

// Reads the cases at the front, then the blocks and the end line of the second format.
#[tactic(auto, unfolding(crate::specs::Numbered::second_body_at))]
fn second_body(alloc: Global, bytes: &[u8]) -> Result<Vec<EntryCert>, Failure<BlockFault>>
    ensures { Reads (λ x. x.items) result (second_body_at bytes.now) }
{
    let (found, rest) = cases(alloc, bytes)?;
    let mut named: Vec<CaseNumber> = Vec::new(alloc);
    let listed = body(alloc, Some(found.as_slice()), &mut named, rest)?;
    let whole = all_named(alloc, found.as_slice(), named.as_slice(), listed, bytes)?;
    Ok(whole)
}

// Reads the text after the head line, in the given format.
fn body_in(
    alloc: Global,
    format: CertFormat,
    bytes: &[u8],
) -> Result<Vec<EntryCert>, Failure<BlockFault>>
    ensures { Reads (λ x. x.items) result (body_in format bytes.now) }
{
    match format {
        CertFormat::First => first_body(alloc, bytes),
        CertFormat::Second => second_body(alloc, bytes),
    }
}

// Reads the head line: the format, and the rest; otherwise `None`.
fn head(bytes: &[u8]) -> Option<(CertFormat, &[u8])>
    ensures { option_map (λ x. (x.0, x.1.now)) result ≡ head_at bytes.now }
{
    if let Some(rest) = word_of(b"mlock-cert 1\n", bytes) {
        return Some((CertFormat::First, rest));
    }
    let Some(rest) = word_of(b"mlock-cert 2\n", bytes) else {
        return None;
    };
    Some((CertFormat::Second, rest))
}

/// The refusal of a whole text, at its first line.
pub(crate) fn at_first(code: Code) -> CertFault
    ensures { result ≡ at_first code }
{
    let line = LineNumber::new(1);
    CertFault { code, line }
}

/// Reads the certificate of a text, in either format.
pub fn read_cert(alloc: Global, bytes: &[u8]) -> Result<Certificate, Failure<CertFault>>
    // The certificate has this text.
    ensures ok { IfOk result (λ c. Spells c bytes.now) }
    // A certificate that has this text is read, and no other, unless memory runs out.
    ensures back { IsReading bytes.now result }
    // A refusal has one of the certificate codes and its line.
    ensures place { IfErr result (λ e. IsPlaced bytes.now e) }
{
    if bytes.len() > LONGEST_TEXT {
        return Err(Failure::Refused(at_first(Code::CertLimit)));
    }
    let Some((format, rest)) = head(bytes) else {
        return Err(Failure::Refused(at_first(Code::Head)));
    };
    match body_in(alloc, format, rest) {
        Ok(found) => Ok(Certificate::of(found)),
        Err(Failure::OutOfMemory) => Err(Failure::OutOfMemory),
        Err(Failure::Refused(refusal)) => Err(Failure::Refused(fault_at(rest, refusal))),
    }
}
