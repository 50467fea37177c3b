// Numbers of cases.

ghost use Rattle.std.specs.Prelude.{◌≡◌, ◌-◌};

use mlk_cert_lexemes::{Item, Written, WrittenText, positive_number};
use mlk_cert_parts::limit::GREATEST_CASE;
use mlk_text::{Failure, NotThere};
use std::alloc::{AllocError, Global};
use std::marker::Model;

/// The number of a case before the blocks, counted from 1.
#[derive(Clone, Copy, Drop)]
pub(crate) struct CaseNumber {
    number: u32,
}

impl Model for CaseNumber {
    ghost use Rattle.std.specs.Prelude.{ℕ};

    ghost Value = { ℕ };

    ghost view = { λ c. c.number };

    ghost inverse = { λ n. record { number = n } };
}

impl CaseNumber {
    /// The case number `number`.
    pub fn new(number: u32) -> CaseNumber
        ensures { result ≡ number }
    {
        CaseNumber { number }
    }

    /// The number, as it is written.
    pub fn number(self) -> u32
        ensures { result ≡ self }
    {
        self.number
    }

    /// The index of the case.
    pub fn place(self) -> usize
        ensures { result ≡ self - 1 }
    {
        self.number.saturating_sub(1) as usize
    }
}

impl Written for CaseNumber {
    ghost use Rattle.std.specs.Fmt.{decimal};

    ghost written = { decimal };

    fn push_to(&self, text: &mut WrittenText) -> Result<(), AllocError> {
        text.push_number(self.number)
    }
}

impl Item for CaseNumber {
    ghost use Rattle.std.specs.Prelude.{nat_lt};
    ghost use Rattle.mlk_cert_lexemes.specs.Reading.{counted_at};
    ghost use Rattle.mlk_cert.specs.Numbered.{greatest};

    ghost reads = { counted_at greatest };

    ghost before = { nat_lt };

    fn read(_alloc: Global, bytes: &[u8]) -> Result<(CaseNumber, &[u8]), Failure<NotThere>> {
        match positive_number(GREATEST_CASE, bytes) {
            Some((number, rest)) => Ok((CaseNumber { number }, rest)),
            None => Err(Failure::Refused(NotThere)),
        }
    }

    fn is_before(&self, _text: &[u8], next: &CaseNumber, _next_text: &[u8]) -> bool {
        self.number < next.number
    }
}
