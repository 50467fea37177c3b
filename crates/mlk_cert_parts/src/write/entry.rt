// The writers of points, summaries and blocks.

ghost use Rattle.std.specs.Prelude.{◌≡◌, ◌++◌, ◌∷◌, OnOk, codes};
ghost use Rattle.mlk_cert_lexemes.specs.Texts.{line, listed, term_text};
ghost use Rattle.mlk_cert_parts.specs.Texts.{names_text, exit_line, place_text, case_line, point_text};
ghost use Rattle.mlk_cert_parts.specs.Texts.{low_text, drops_text, summary_text, block_text};

use crate::block::{EntryCert, Point, Summary};
use crate::case::{Case, ExitCase};
use crate::write::line::{push_case, push_exit};
use mlk_cert_lexemes::{Written, WrittenText, push_flat, push_listed};
use std::alloc::AllocError;

impl Written for ExitCase {
    ghost use Rattle.mlk_cert_parts.specs.Texts.{exit_line};

    ghost written = { exit_line };

    fn push_to(&self, text: &mut WrittenText) -> Result<(), AllocError> {
        text.push(b"exit ")?;
        push_exit(text, self)?;
        text.push_byte(b'\n')
    }
}

/// Appends the place of a point.
pub fn push_place(text: &mut WrittenText, line: u32, round: u32) -> Result<(), AllocError>
    ensures { OnOk result (text.new ≡ text.old ++ place_text line round) }
{
    text.push_number(line)?;
    text.push_byte(b'.')?;
    text.push_number(round)?;
    Ok(())
}

fn push_case_line(
    text: &mut WrittenText,
    line: u32,
    round: u32,
    case: &Case,
) -> Result<(), AllocError>
    ensures { OnOk result (text.new ≡ text.old ++ case_line line round case.now) }
{
    text.push(b"at ")?;
    push_place(text, line, round)?;
    text.push_byte(b' ')?;
    push_case(text, case)?;
    text.push_byte(b'\n')?;
    Ok(())
}

impl Written for Point {
    ghost use Rattle.mlk_cert_parts.specs.Texts.{point_text};

    ghost written = { point_text };

    fn push_to(&self, text: &mut WrittenText) -> Result<(), AllocError> {
        for case in self.cases.as_slice() {
            push_case_line(text, self.line.number(), self.round, case)?;
        }
        Ok(())
    }
}

fn push_low(text: &mut WrittenText, low: Option<u32>) -> Result<(), AllocError>
    ensures { OnOk result (text.new ≡ text.old ++ low_text low) }
{
    match low {
        None => text.push(b"-"),
        Some(rank) => text.push_number(rank),
    }
}

fn push_drops(text: &mut WrittenText, drops: bool) -> Result<(), AllocError>
    ensures { OnOk result (text.new ≡ text.old ++ drops_text drops) }
{
    if drops {
        text.push(b"1")
    } else {
        text.push(b"0")
    }
}

// Appends the needs and the least rank.
fn push_need(text: &mut WrittenText, summary: &Summary) -> Result<(), AllocError>
    ensures { OnOk result (text.new ≡ text.old ++ (line (codes "need ")
        (listed term_text summary.now.need) ++ line (codes "low ") (low_text summary.now.low))) }
{
    text.push(b"need ")?;
    push_listed(text, summary.need.as_slice())?;
    text.push(b"\nlow ")?;
    push_low(text, summary.low)?;
    text.push(b"\n")?;
    Ok(())
}

// Appends whether all locks may be released, and the names that may change.
fn push_changes(text: &mut WrittenText, summary: &Summary) -> Result<(), AllocError>
    ensures { OnOk result (text.new ≡ text.old ++ (line (codes "drops ")
        (drops_text summary.now.drops) ++ line (codes "mods ") (listed names_text summary.now.mods))) }
{
    text.push(b"drops ")?;
    push_drops(text, summary.drops)?;
    text.push(b"\nmods ")?;
    push_listed(text, summary.mods.as_slice())?;
    text.push(b"\n")?;
    Ok(())
}

fn push_summary(text: &mut WrittenText, summary: &Summary) -> Result<(), AllocError>
    ensures { OnOk result (text.new ≡ text.old ++ summary_text summary.now) }
{
    push_need(text, summary)?;
    push_changes(text, summary)?;
    push_flat(text, summary.exits.as_slice())?;
    Ok(())
}

/// Appends the lines of a block before its points.
pub fn push_front(text: &mut WrittenText, block: &EntryCert) -> Result<(), AllocError>
    ensures { OnOk result (text.new ≡ text.old ++ (line (codes "entry ") block.now.entry ++ summary_text block.now.summary)) }
{
    text.push(b"entry ")?;
    text.push(block.entry.as_bytes())?;
    text.push(b"\n")?;
    push_summary(text, &block.summary)?;
    Ok(())
}

impl Written for EntryCert {
    ghost use Rattle.mlk_cert_parts.specs.Texts.{block_text};

    ghost written = { block_text };

    fn push_to(&self, text: &mut WrittenText) -> Result<(), AllocError> {
        push_front(text, self)?;
        push_flat(text, self.points.as_slice())?;
        Ok(())
    }
}
