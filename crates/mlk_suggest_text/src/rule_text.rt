// Texts that are rule files.

ghost use Rattle.std.specs.Prelude.{◌≡◌, IfOk};
ghost use Rattle.mlk_suggest_text.specs.RuleTexts.{IsRuleText};

use mlk_rules_file::{RulesFault, read_rules};
use mlk_text::Failure;
use std::alloc::Global;
use std::marker::Model;

/// The text of a rule file: bytes that `read_rules` accepts.
#[derive(Drop)]
pub struct RuleText {
    bytes: Vec<u8>,
}

impl Model for RuleText {
    ghost use Rattle.std.specs.Prelude.{List, ℕ};

    ghost Value = { List ℕ };

    ghost view = { λ t. t.bytes.items };
}

impl RuleText {
    /// The bytes of the text.
    pub fn into_bytes(self) -> Vec<u8>
        ensures { result.items ≡ self }
    {
        let RuleText { bytes } = self;
        bytes
    }
}

/// The text of `bytes`, which are read as a rule file to check them. The error is that of `read_rules`.
pub fn checked_text(alloc: Global, bytes: Vec<u8>) -> Result<RuleText, Failure<RulesFault>>
    ensures { IfOk result (λ text. IsRuleText text) }
{
    match read_rules(alloc, bytes.as_slice()) {
        Ok(_rules) => Ok(RuleText { bytes }),
        Err(failure) => Err(failure),
    }
}
