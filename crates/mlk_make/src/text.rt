// The text of a certificate.

ghost use Rattle.std.specs.Prelude.{OnOk, IfOk, IfErr};
ghost use Rattle.mlk_cert.specs.Writing.{IsWritten, IsUnwritten};
ghost use Rattle.mlk_make.specs.Texts.{IsShortText, IsPastLimit};

use mlk_cert::{CertFault, CertFormat, Certificate, WriteFault, write_cert, write_cert2};
use mlk_text::Failure;
use std::alloc::Global;
use std::io::Write;

// Writes the text of a certificate in `format`.
fn write_in<W: Write>(
    alloc: Global,
    certificate: &Certificate,
    format: CertFormat,
    writer: &mut W,
) -> Result<(), Failure<WriteFault>>
    ensures written { OnOk result (IsWritten format certificate.now (W.contents writer.old) (W.contents writer.new)) }
    ensures refused { IfErr result (IsUnwritten format certificate.now writer.old writer.new) }
{
    match format {
        CertFormat::First => write_cert(alloc, certificate, writer),
        CertFormat::Second => write_cert2(alloc, certificate, writer),
    }
}

/// The text of a certificate in `format`.
pub fn text_in(
    alloc: Global,
    certificate: &Certificate,
    format: CertFormat,
) -> Result<Vec<u8>, Failure<CertFault>>
    ensures text { IfOk result (λ text. IsShortText format certificate.now text.items) }
    // If there is none, it is too long.
    ensures refused { IfErr result (IsPastLimit format certificate.now) }
{
    let mut text = Vec::new(alloc);
    match write_in(alloc, certificate, format, &mut text) {
        Ok(()) => Ok(text),
        Err(Failure::OutOfMemory) => Err(Failure::OutOfMemory),
        Err(Failure::Refused(WriteFault::TooLong(fault))) => Err(Failure::Refused(fault)),
        // A vector refuses bytes only if memory runs out.
        Err(Failure::Refused(WriteFault::Io(_))) => Err(Failure::OutOfMemory),
    }
}
