// The writer of certificates.

ghost use Rattle.std.specs.Prelude.{◌≡◌, ◌++◌, ◌≤◌, OnOk, IfOk, IfErr, length};
ghost use Rattle.std.specs.Io.KnownBytes.{Appends};
ghost use Rattle.mlk_cert_parts.specs.Limits.{longest};
ghost use Rattle.mlk_cert_parts.specs.Texts.{certificate_text};
ghost use Rattle.mlk_cert.specs.Writing.{IsWritten, IsUnwritten, IsTextUnwritten};
ghost use Rattle.mlk_cert.specs.declared.format.CertFormat.TheVariants.{First, Second};

use crate::read::CertFault;
use crate::read::whole::at_first;
use crate::table::{case_texts, numbered_text};
use mlk_cert_lexemes::{WrittenText, push_flat};
use mlk_cert_parts::limit::LONGEST_TEXT;
use mlk_cert_parts::{Certificate, EntryCert};
use mlk_text::{Code, Failure};
use std::alloc::{AllocError, Global};
use std::io;
use std::io::Write;
use thiserror::Error;

/// Why a certificate was not written.
#[derive(Debug, Drop, Error)]
pub enum WriteFault {
    /// The text has more than 64 MiB; nothing was written.
    #[error("{0}")]
    TooLong(CertFault),
    /// The error of the writer.
    #[error("{0}")]
    Io(io::Error),
}

/// The text of `blocks` in the first format.
pub(crate) fn certificate_text(
    alloc: Global,
    blocks: &[EntryCert],
) -> Result<WrittenText, AllocError>
    ensures { IfOk result (λ t. t ≡ certificate_text blocks.now) }
{
    let mut text = WrittenText::new(alloc);
    text.push(b"mlock-cert 1\n")?;
    push_flat(&mut text, blocks)?;
    text.push(b"end\n")?;
    Ok(text)
}

// Writes all of `text`, or nothing if it is too long.
fn write_text<W: Write>(text: &[u8], writer: &mut W) -> Result<(), Failure<WriteFault>>
    ensures written { OnOk result (Appends (W.contents writer.old) (W.contents writer.new) text.now) }
    ensures short { OnOk result (length text.now ≤ longest) }
    ensures refused { IfErr result (IsTextUnwritten text.now writer.old writer.new) }
{
    if text.len() > LONGEST_TEXT {
        return Err(Failure::Refused(WriteFault::TooLong(at_first(Code::CertLimit))));
    }
    match writer.write_all(text) {
        Ok(()) => Ok(()),
        Err(error) => Err(Failure::Refused(WriteFault::Io(error))),
    }
}

/// Writes the text of a certificate in the first format; if it is too long, nothing is written.
pub fn write_cert<W: Write>(
    alloc: Global,
    certificate: &Certificate,
    writer: &mut W,
) -> Result<(), Failure<WriteFault>>
    // Without an error, exactly the text is written.
    ensures written { OnOk result (IsWritten First certificate.now (W.contents writer.old) (W.contents writer.new)) }
    // A text that is too long is refused at its first line, and nothing is written.
    ensures refused { IfErr result (IsUnwritten First certificate.now writer.old writer.new) }
{
    let text = certificate_text(alloc, certificate.blocks())?;
    write_text(text.as_bytes(), writer)
}

/// Writes the text of a certificate in the second format; if it is too long, nothing is written.
pub fn write_cert2<W: Write>(
    alloc: Global,
    certificate: &Certificate,
    writer: &mut W,
) -> Result<(), Failure<WriteFault>>
    // Without an error, exactly the text is written.
    ensures written { OnOk result (IsWritten Second certificate.now (W.contents writer.old) (W.contents writer.new)) }
    // A text that is too long is refused at its first line, and nothing is written.
    ensures refused { IfErr result (IsUnwritten Second certificate.now writer.old writer.new) }
{
    let texts = case_texts(alloc, certificate.blocks())?;
    if texts.len() > LONGEST_TEXT {
        return Err(Failure::Refused(WriteFault::TooLong(at_first(Code::CertLimit))));
    }
    let text = numbered_text(alloc, &texts, certificate.blocks())?;
    write_text(text.as_bytes(), writer)
}
