// A text that is put together piece by piece.

ghost use Rattle.std.specs.Prelude.{◌≡◌, ◌++◌, [], OnOk};
ghost use Rattle.std.specs.Fmt.{decimal};
ghost use Rattle.mlk_plain_report.specs.Texts.{code_text, place_text};

use mlk_text::{Code, Column, LineNumber};
use std::alloc::{AllocError, Global};
use std::marker::Model;

/// A text that is put together piece by piece.
#[derive(Drop)]
pub struct ReportText {
    bytes: Vec<u8>,
}

impl Model for ReportText {
    ghost use Rattle.std.specs.Prelude.{List, ℕ};

    ghost Value = { List ℕ };

    ghost view = { λ t. t.bytes.items };
}

impl ReportText {
    /// A text without a byte.
    pub fn new(alloc: Global) -> ReportText
        ensures { result ≡ [] }
    {
        ReportText {
            bytes: Vec::new(alloc),
        }
    }

    /// The text of these bytes.
    pub fn of(bytes: Vec<u8>) -> ReportText
        ensures { result ≡ bytes.items }
    {
        ReportText { bytes }
    }

    /// Its bytes.
    pub fn as_bytes(&self) -> &[u8]
        ensures { result.now ≡ self.now }
    {
        self.bytes.as_slice()
    }

    /// More bytes at its end.
    pub fn push(&mut self, piece: &[u8]) -> Result<(), AllocError>
        ensures { OnOk result (self.new ≡ self.old ++ piece.now) }
    {
        self.bytes.extend_from_slice(piece)?;
        Ok(())
    }

    /// The digits of a number at its end.
    pub fn push_number(&mut self, number: usize) -> Result<(), AllocError>
        ensures { OnOk result (self.new ≡ self.old ++ decimal number) }
    {
        let digits = number.to_string(*self.bytes.allocator())?;
        self.bytes.extend_from_slice(digits.as_bytes())?;
        Ok(())
    }

    /// `CODE NAME` at its end.
    pub fn push_code(&mut self, code: Code) -> Result<(), AllocError>
        ensures { OnOk result (self.new ≡ self.old ++ code_text code) }
    {
        self.push_number(usize::from(code.number()))?;
        self.push(b" ")?;
        self.push(code.word())?;
        Ok(())
    }

    /// `line:column` at its end.
    pub fn push_place(&mut self, line: LineNumber, column: Column) -> Result<(), AllocError>
        ensures { OnOk result (self.new ≡ self.old ++ place_text line column) }
    {
        self.push_number(line.number() as usize)?;
        self.push(b":")?;
        self.push_number(column.number() as usize)?;
        Ok(())
    }
}
