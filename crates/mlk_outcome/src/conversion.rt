// A certificate in another format.

ghost use Rattle.std.specs.Prelude.{IfOk, IfErr};
ghost use Rattle.mlk_outcome.specs.Conversion.{IsConverted, IsUnconverted};

use mlk_cert::{CertFault, CertFormat, read_cert};
use mlk_make::text_in;
use mlk_text::Failure;
use mlk_watch::Watch;
use std::alloc::Global;

/// Converts the text `given` of a certificate, in either format, to the text of that certificate in `format`.
///
/// Refuses a text that spells none, with the code and the place of its first fault (601 to 607), and one whose certificate is too
/// long in `format` (605).
pub fn convert<W: Watch>(
    alloc: Global,
    given: &[u8],
    format: CertFormat,
    watch: &W,
) -> Result<Vec<u8>, Failure<CertFault>>
    ensures ok { IfOk result (λ text. IsConverted format given.now text.items) }
    ensures refused { IfErr result (IsUnconverted format given.now) }
{
    match read_cert(alloc, given) {
        Ok(certificate) => {
            let text = text_in(alloc, &certificate, format);
            watch.discard(certificate);
            text
        }
        Err(failure) => Err(failure),
    }
}
