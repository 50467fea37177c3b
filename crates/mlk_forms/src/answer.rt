// The answer of a report, beside known faults or without.

ghost use Rattle.std.specs.Prelude.{◌≡◌, ◌++◌, IfOk, OnOk};
ghost use Rattle.mlk_forms.specs.Rendering.{AreBelow, AreGone, answer_line, known_line, rests_line};

use mlk_baseline::{Comparison, GoneFault};
use mlk_plain_report::{ReportText, push_answer};
use mlk_report_text::Piece::{Bytes, Number, Words};
use mlk_report_text::push_all;
use mlk_walk::Row;
use std::alloc::{AllocError, Global};

// Appends `known N`.
fn push_known(text: &mut ReportText, known: usize) -> Result<(), AllocError>
    ensures { OnOk result (text.new ≡ text.old ++ known_line known) }
{
    text.push(b"known ")?;
    text.push_number(known)?;
    text.push(b"\n")
}

/// Appends the answer of a report with these rows, besides which `known` faults are known: `no N`, if there are rows; else `known N`
/// if some are known, and `yes` if none is.
#[tactic(auto, using(crate::proofs::Answering::answer_known, crate::proofs::Answering::answer_new))]
pub(crate) fn push_verdict(
    text: &mut ReportText,
    rows: &[Row],
    known: usize,
) -> Result<(), AllocError>
    ensures { OnOk result (text.new ≡ text.old ++ answer_line known rows.now) }
{
    if known == 0 {
        return push_answer(text, rows);
    }
    if rows.is_empty() {
        return push_known(text, known);
    }
    push_answer(text, rows)
}

// `gone COUNT FAULT`
fn push_gone(text: &mut Vec<u8>, gone: &GoneFault<'_>) -> Result<(), AllocError> {
    push_all(
        text,
        &[
            Words("gone "),
            Number(gone.count),
            Words(" "),
            Bytes(gone.key),
            Words("\n"),
        ],
    )
}

// The lines of the known faults that do not occur, or not as often as they are known.
fn gone_lines(alloc: Global, comparison: Option<&Comparison<'_>>) -> Result<Vec<u8>, AllocError>
    ensures { IfOk result (λ gone. AreGone comparison.entry gone.items) }
{
    let mut text = Vec::new(alloc);
    if let Some(comparison) = comparison {
        for gone in &comparison.gone {
            push_gone(&mut text, gone)?;
        }
    }
    Ok(text)
}

// Appends on how many words a report with these rows rests, if on any.
#[tactic(auto, using(crate::proofs::Answering::rests_not, crate::proofs::Answering::rests_on_none, crate::proofs::Answering::rests_on_some, crate::proofs::Answering::no_rests))]
fn push_rests(text: &mut Vec<u8>, rows: &[Row], rests: Option<usize>) -> Result<(), AllocError>
    ensures { OnOk result (text.new.items ≡ text.old.items ++ rests_line rows.now rests) }
{
    let Some(inert) = rests else {
        return Ok(());
    };
    if inert == 0 {
        return Ok(());
    }
    if rows.is_empty() {
        return push_all(
            text,
            &[Words("rests on inert "), Number(inert), Words("\n")],
        );
    }
    Ok(())
}

/// The lines below the answer of a report with these rows: the known faults that do not occur, and on how many words beyond the
/// subset it rests.
pub(crate) fn lines_below(
    alloc: Global,
    comparison: Option<&Comparison<'_>>,
    rows: &[Row],
    rests: Option<usize>,
) -> Result<Vec<u8>, AllocError>
    ensures { IfOk result (λ below. AreBelow comparison.entry (rests_line rows.now rests) below.items) }
{
    let mut below = gone_lines(alloc, comparison)?;
    push_rests(&mut below, rows, rests)?;
    Ok(below)
}
