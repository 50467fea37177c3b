// The certificate of the drafts.

ghost use Rattle.std.specs.Prelude.{IfOk, IfErr};
ghost use Rattle.mlk_text.specs.Failures.{IfRefused};
ghost use Rattle.mlk_cert.specs.declared.format.CertFormat.TheVariants.{First};
ghost use Rattle.mlk_make.specs.Missing.{IsUnspelled};
ghost use Rattle.mlk_make.specs.Texts.{SpellsIn};

use crate::maker::Maker;
use crate::stop::{GaveUp, MakeError};
use crate::text::text_in;
use mlk_cert::{CertFault, CertFormat, Certificate, EntryCert, Spelled, certificate_of, spell};
use mlk_program::EntryId;
use mlk_text::{Code, Column, Failure, LineNumber};
use mlk_walk_exprs::Fault;
use std::alloc::{AllocError, Global};

fn blocks(alloc: Global, maker: Maker) -> Result<Vec<EntryCert>, AllocError> {
    let mut all = Vec::new(alloc);
    for (_, draft) in maker.drafts {
        all.push(draft.into_block(alloc)?)?;
    }
    Ok(all)
}

// The error for blocks that are no certificate. No such blocks are known.
fn no_certificate() -> MakeError
    ensures { IsUnspelled result }
{
    MakeError::GaveUp(GaveUp {
        entry: EntryId::new(0, 0),
        fault: Fault {
            line: LineNumber::new(1),
            column: Column::new(1),
            code: Code::CaseNotListed,
        },
    })
}

// The error for blocks whose text is refused.
fn make_error(fault: CertFault) -> MakeError
    ensures { IsUnspelled result }
{
    if fault.code == Code::CertLimit && fault.line.number() == 1 {
        return MakeError::TooLong(fault);
    }
    no_certificate()
}

// The certificate of `made`, and its text in the first format, from which it is read back.
#[tactic(auto, using(crate::proofs::FirstText::first_text))]
fn spell_blocks(alloc: Global, made: Vec<EntryCert>) -> Result<Spelled, Failure<MakeError>>
    ensures spells { IfOk result (λ s. SpellsIn First s.certificate s.text.items) }
    ensures refused { IfErr result (λ e. IfRefused e IsUnspelled) }
{
    match spell(alloc, made) {
        Ok(made) => Ok(made),
        Err(Failure::OutOfMemory) => Err(Failure::OutOfMemory),
        Err(Failure::Refused(fault)) => Err(Failure::Refused(make_error(fault))),
    }
}

// The certificate of `made`, and its text in `format`, which is written from it.
fn write_blocks(
    alloc: Global,
    made: Vec<EntryCert>,
    format: CertFormat,
) -> Result<Spelled, Failure<MakeError>>
    ensures spells { IfOk result (λ s. SpellsIn format s.certificate s.text.items) }
    ensures refused { IfErr result (λ e. IfRefused e IsUnspelled) }
{
    match certificate_of(alloc, made) {
        Ok(certificate) => match text_in(alloc, &certificate, format) {
            Ok(text) => Ok(Spelled { certificate, text }),
            Err(Failure::OutOfMemory) => Err(Failure::OutOfMemory),
            Err(Failure::Refused(fault)) => Err(Failure::Refused(MakeError::TooLong(fault))),
        },
        Err(Failure::OutOfMemory) => Err(Failure::OutOfMemory),
        Err(Failure::Refused(_)) => Err(Failure::Refused(no_certificate())),
    }
}

/// The certificate of all drafts. It has no text, so no limit on texts applies.
pub(crate) fn certificate_in(alloc: Global, maker: Maker) -> Result<Certificate, Failure<MakeError>>
    ensures refused { IfErr result (λ e. IfRefused e IsUnspelled) }
{
    let made = blocks(alloc, maker)?;
    match certificate_of(alloc, made) {
        Ok(certificate) => Ok(certificate),
        Err(Failure::OutOfMemory) => Err(Failure::OutOfMemory),
        Err(Failure::Refused(_)) => Err(Failure::Refused(no_certificate())),
    }
}

/// The certificate of all drafts, and its text in `format`.
pub(crate) fn finish(
    alloc: Global,
    maker: Maker,
    format: CertFormat,
) -> Result<Spelled, Failure<MakeError>>
    ensures spells { IfOk result (λ s. SpellsIn format s.certificate s.text.items) }
    ensures refused { IfErr result (λ e. IfRefused e IsUnspelled) }
{
    let made = blocks(alloc, maker)?;
    match format {
        CertFormat::First => spell_blocks(alloc, made),
        CertFormat::Second => write_blocks(alloc, made, format),
    }
}
