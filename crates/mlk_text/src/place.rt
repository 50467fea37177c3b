// Places in the texts of routines.

ghost use Rattle.std.specs.Prelude.{◌≡◌};
ghost use Rattle.mlk_text.specs.Places.{column_at};

use crate::value::Value;
use std::fmt::{self, Display, Formatter, Write};
use std::marker::Model;

/// The number of a line, counted from 1.
#[derive(Clone, Copy, Debug, Drop, PartialEq, Eq, PartialOrd, Ord)]
pub struct LineNumber {
    number: u32,
}

impl Model for LineNumber {
    ghost use Rattle.std.specs.Prelude.{ℕ};

    ghost Value = { ℕ };

    ghost view = { λ l. l.number };

    ghost inverse = { λ n. record { number = n } };
}

impl LineNumber {
    /// The line number `number`.
    pub fn new(number: u32) -> LineNumber
        ensures { result ≡ number }
    {
        LineNumber { number }
    }

    /// The number, as it is printed.
    pub fn number(self) -> u32
        ensures { result ≡ self }
    {
        self.number
    }
}

impl Display for LineNumber {
    fn fmt<W: Write>(&self, f: &mut Formatter<W>) -> fmt::Result {
        write!(f, "{}", self.number)
    }
}

/// The place of a byte in its line, counted from 1. Places past the greatest column count as the greatest.
#[derive(Clone, Copy, Debug, Drop, PartialEq, Eq, PartialOrd, Ord)]
pub struct Column {
    number: u32,
}

impl Model for Column {
    ghost use Rattle.std.specs.Prelude.{ℕ};

    ghost Value = { ℕ };

    ghost view = { λ c. c.number };

    ghost inverse = { λ n. record { number = n } };
}

impl Column {
    /// The column `number`.
    pub fn new(number: u32) -> Column
        ensures { result ≡ number }
    {
        Column { number }
    }

    /// The column of byte number `place` of a line, counted from 1.
    pub fn at(place: usize) -> Column
        ensures { result ≡ column_at place }
    {
        if place >= u32::MAX as usize {
            Column { number: u32::MAX }
        } else {
            Column {
                number: place as u32,
            }
        }
    }

    /// The number, as it is printed.
    pub fn number(self) -> u32
        ensures { result ≡ self }
    {
        self.number
    }
}

impl Display for Column {
    fn fmt<W: Write>(&self, f: &mut Formatter<W>) -> fmt::Result {
        write!(f, "{}", self.number)
    }
}

/// A place in a routine text.
#[derive(Debug, Drop)]
pub struct Place {
    /// The routine's name as the program prints it: a text, since a file's stem may not be a name.
    pub routine: Value,
    pub line: LineNumber,
    pub column: Column,
}
