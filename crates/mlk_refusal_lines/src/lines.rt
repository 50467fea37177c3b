// The lines that the program prints.

ghost use Rattle.std.specs.Prelude.{◌≡◌, IfOk};
ghost use Rattle.mlk_report_text.specs.Pieces.{pieces_text};
ghost use Rattle.mlk_refusal_lines.specs.Lines.{left_out_text, fault_line, missing_line, workers_line, rules_line, certificate_line};
ghost use Rattle.mlk_refusal_lines.specs.Lines.{events_line, stuck_line, baseline_line, file_line, no_page_line};

use crate::codes::events_code;
use mlk_baseline::BaselineFault;
use mlk_cert::CertFault;
use mlk_machine::EventsFault;
use mlk_plain_report::ReportText;
use mlk_report_text::Piece::{At, Bytes, CodeName, Made, Number, Words};
use mlk_report_text::{Piece, text_of};
use mlk_rules_file::RulesFault;
use mlk_text::{Code, Fault, LeftOut, Value};
use std::alloc::{AllocError, Global};

fn line_of(alloc: Global, pieces: &[Piece<'_>]) -> Result<ReportText, AllocError>
    ensures { IfOk result (λ t. t ≡ pieces_text pieces.now) }
{
    Ok(ReportText::of(text_of(alloc, pieces)?))
}

fn left_out_text(alloc: Global, what: &Option<LeftOut>) -> Result<Vec<u8>, AllocError>
    ensures { IfOk result (λ t. t.items ≡ left_out_text what.now) }
{
    match what {
        Some(what) => text_of(alloc, &[Words(" "), Bytes(what.word())]),
        None => Ok(Vec::new(alloc)),
    }
}

/// `refused ROUTINE line:column CODE NAME`
pub fn fault_line(alloc: Global, fault: &Fault) -> Result<ReportText, AllocError>
    ensures { IfOk result (λ t. t ≡ fault_line fault.now) }
{
    let left_out = left_out_text(alloc, &fault.left_out)?;
    line_of(
        alloc,
        &[
            Words("refused "),
            Bytes(fault.place.routine.as_bytes()),
            Words(" "),
            At(fault.place.line, fault.place.column),
            Words(" "),
            CodeName(fault.code),
            Made(left_out),
            Words("\n"),
        ],
    )
}

/// `refused entry TEXT 901 EntryMissing`
pub fn missing_line(alloc: Global, entry: &Value) -> Result<ReportText, AllocError>
    ensures { IfOk result (λ t. t ≡ missing_line entry.now) }
{
    line_of(
        alloc,
        &[
            Words("refused entry "),
            Bytes(entry.as_bytes()),
            Words(" "),
            CodeName(Code::EntryMissing),
            Words("\n"),
        ],
    )
}

/// `refused workers 902 Workers`
pub fn workers_line(alloc: Global) -> Result<ReportText, AllocError>
    ensures { IfOk result (λ t. t ≡ workers_line) }
{
    let code = CodeName(Code::Workers);
    line_of(alloc, &[Words("refused workers "), code, Words("\n")])
}

/// `refused LABEL^ROUTINE line:column 801 GaveUp`
pub fn stuck_line(
    alloc: Global,
    entry: &Value,
    fault: &mlk_walk_exprs::Fault,
) -> Result<ReportText, AllocError>
    ensures { IfOk result (λ t. t ≡ stuck_line entry.now fault.now) }
{
    line_of(
        alloc,
        &[
            Words("refused "),
            Bytes(entry.as_bytes()),
            Words(" "),
            At(fault.line, fault.column),
            Words(" "),
            CodeName(Code::GaveUp),
            Words("\n"),
        ],
    )
}

/// `refused rules SECTION INDEX CODE NAME`
pub fn rules_line(alloc: Global, fault: &RulesFault) -> Result<ReportText, AllocError>
    ensures { IfOk result (λ t. t ≡ rules_line fault.now) }
{
    line_of(
        alloc,
        &[
            Words("refused rules "),
            Bytes(fault.section.word()),
            Words(" "),
            Number(fault.index),
            Words(" "),
            CodeName(fault.code),
            Words("\n"),
        ],
    )
}

/// `refused cert LINE CODE NAME`
pub fn certificate_line(alloc: Global, fault: &CertFault) -> Result<ReportText, AllocError>
    ensures { IfOk result (λ t. t ≡ certificate_line fault.now) }
{
    line_of(
        alloc,
        &[
            Words("refused cert "),
            Number(fault.line.number() as usize),
            Words(" "),
            CodeName(fault.code),
            Words("\n"),
        ],
    )
}

/// `refused line LINE CODE NAME`
pub fn events_line(alloc: Global, fault: &EventsFault) -> Result<ReportText, AllocError>
    ensures { IfOk result (λ t. t ≡ events_line fault.now) }
{
    line_of(
        alloc,
        &[
            Words("refused line "),
            Number(fault.line.number() as usize),
            Words(" "),
            CodeName(events_code(fault.why)),
            Words("\n"),
        ],
    )
}

/// `refused baseline LINE`
pub fn baseline_line(alloc: Global, fault: &BaselineFault) -> Result<ReportText, AllocError>
    ensures { IfOk result (λ t. t ≡ baseline_line fault.now) }
{
    line_of(
        alloc,
        &[
            Words("refused baseline "),
            Number(fault.line.number() as usize),
            Words("\n"),
        ],
    )
}

/// `error file PATH`
pub fn file_line(alloc: Global, path: &str) -> Result<ReportText, AllocError>
    ensures { IfOk result (λ t. t ≡ file_line path.now) }
{
    line_of(alloc, &[Words("error file "), Words(path), Words("\n")])
}

/// `error: no code TEXT`
pub fn no_page_line(alloc: Global, text: &str) -> Result<ReportText, AllocError>
    ensures { IfOk result (λ t. t ≡ no_page_line text.now) }
{
    line_of(alloc, &[Words("error: no code "), Words(text), Words("\n")])
}
