// Known faults: which faults of a report are new beside them, and the file in which all of them are known.

ghost use Rattle.std.specs.Prelude.{◌≡◌, IfErr, IfOk, is_some, length};
ghost use Rattle.mlk_baseline.specs.Known.{IsComparison};
ghost use Rattle.mlk_app.specs.Printing.{RefusesGiven};
ghost use Rattle.mlk_app.specs.Ran.{AreCompared};

use mlk_baseline::{Baseline, BaselineFault, Comparison, baseline_text, fault_keys, read_baseline};
use mlk_cli::ProgramRequest;
use mlk_explain::Grounds;
use mlk_files::Sources;
use mlk_text::Failure;
use mlk_walk::Report;
use std::alloc::{AllocError, Global};

/// What the faults of a report are beside known ones.
#[derive(Drop)]
pub(crate) struct KnownBeside<'b> {
    /// which of them are known, if known ones are given
    pub(crate) comparison: Option<Comparison<'b>>,
    /// the text of the baseline in which all of them are known, if that is asked for
    pub(crate) new_baseline: Option<Vec<u8>>,
}

/// Whether faults are compared with known ones, or listed as such.
pub(crate) fn uses_keys(request: &ProgramRequest<'_>) -> bool {
    request.baseline.is_some() || request.new_baseline.is_some()
}

/// Reads the faults that are known, if they are given.
pub(crate) fn known_faults<'s>(
    alloc: Global,
    sources: &'s Sources<'_>,
) -> Result<Option<Baseline<'s>>, Failure<BaselineFault>>
    ensures ok { IfOk result (λ known. is_some known ≡ is_some sources.now.baseline) }
    ensures refused { IfErr result (RefusesGiven sources.now.baseline) }
{
    match &sources.baseline {
        Some(text) => Ok(Some(read_baseline(alloc, text.as_slice())?)),
        None => Ok(None),
    }
}

// Compares the faults of `report` with `known` ones.
fn compare_with<'b>(
    alloc: Global,
    grounds: &Grounds<'_>,
    report: &Report,
    known: &Baseline<'b>,
) -> Result<Comparison<'b>, AllocError>
    ensures { IfOk result (IsComparison (length report.now)) }
{
    let keys = fault_keys(alloc, grounds.program, grounds.texts, report)?;
    known.compare(alloc, keys.as_slice())
}

// Writes down the faults of `report` as known ones.
fn known_text(
    alloc: Global,
    grounds: &Grounds<'_>,
    report: &Report,
) -> Result<Vec<u8>, AllocError> {
    let keys = fault_keys(alloc, grounds.program, grounds.texts, report)?;
    baseline_text(alloc, keys.as_slice())
}

/// Compares the faults of `report` with `known` ones, and writes down all of them as known ones, each if it is asked for.
pub(crate) fn compare_faults<'b>(
    alloc: Global,
    grounds: &Grounds<'_>,
    report: &Report,
    known: Option<&Baseline<'b>>,
    request: &ProgramRequest<'_>,
) -> Result<KnownBeside<'b>, AllocError>
    ensures { IfOk result (λ beside. AreCompared known.entry report.now beside.comparison) }
{
    let new_baseline = match request.new_baseline {
        Some(_) => Some(known_text(alloc, grounds, report)?),
        None => None,
    };
    let comparison = match known {
        Some(known) => Some(compare_with(alloc, grounds, report, known)?),
        None => None,
    };
    Ok(KnownBeside {
        comparison,
        new_baseline,
    })
}
