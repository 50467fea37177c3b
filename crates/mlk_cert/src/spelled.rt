// Certificates with their texts.

ghost use Rattle.std.specs.Prelude.{◌≡◌, IfOk, IfErr};
ghost use Rattle.mlk_cert_parts.specs.Texts.{certificate_text};
ghost use Rattle.mlk_cert.specs.Theorem.{Spells};
ghost use Rattle.mlk_cert.specs.Writing.{IsUnspelled};

use crate::read::{CertFault, read_cert};
use crate::write::certificate_text;
use mlk_cert_parts::{Certificate, EntryCert};
use mlk_text::Failure;
use std::alloc::Global;

/// A certificate and its text.
#[derive(Drop)]
pub struct Spelled {
    pub certificate: Certificate,
    pub text: Vec<u8>,
}

/// Writes the text of the blocks `made`, and reads the certificate from it. `Refused` if they break a limit or an order, or
/// if the text is too long.
pub fn spell(alloc: Global, made: Vec<EntryCert>) -> Result<Spelled, Failure<CertFault>>
    // The text is the one text of the certificate,
    ensures spells { IfOk result (λ s. Spells s.certificate s.text.items) }
    // and of the blocks.
    ensures text { IfOk result (λ s. s.text.items ≡ certificate_text made.items) }
    // If the blocks are refused, they are not a certificate, or their text is too long.
    ensures refused { IfErr result (IsUnspelled made.items) }
{
    let text = certificate_text(alloc, made.as_slice())?.into_bytes();
    let certificate = read_cert(alloc, text.as_slice())?;
    Ok(Spelled { certificate, text })
}
