// Quoted texts.

ghost use Rattle.mlk_text.specs.Failures.{Reads};
ghost use Rattle.mlk_rules_file.specs.RuleTexts.{quoted};

use mlk_text::lexeme::byte_of;
use mlk_text::{Failure, NotThere, Value};
use std::alloc::Global;

/// Reads the value up to the closing quote: the value, and the rest. Any byte is allowed in it.
pub fn quoted_value(alloc: Global, bytes: &[u8]) -> Result<(Value, &[u8]), Failure<NotThere>>
    ensures { Reads (λ x. (x.0, x.1.now)) result (quoted bytes.now) }
{
    let mut value = Vec::new(alloc);
    let mut rest = bytes;
    while let Some((first, after)) = rest.split_first() {
        if *first != b'"' {
            value.push(*first)?;
            rest = after;
            continue;
        }
        let Some(after) = byte_of(b'"', after) else {
            return Ok((Value::new(value), after));
        };
        value.push(b'"')?;
        rest = after;
    }
    Err(Failure::Refused(NotThere))
}
