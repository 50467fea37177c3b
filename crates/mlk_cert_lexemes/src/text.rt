// A text that is built piece by piece.

ghost use Rattle.std.specs.Prelude.{◌≡◌, ◌<◌, ◌++◌, ◌∷◌, [], OnOk, decimal};
ghost use Rattle.std.specs.Vec.{vec_len, vec_capacity};

use std::alloc::{AllocError, Global};
use std::marker::Model;

/// A text that is built piece by piece.
#[derive(Drop)]
pub struct WrittenText {
    bytes: Vec<u8>,
}

// Makes room for one more byte.
fn make_room(bytes: &mut Vec<u8>) -> Result<(), AllocError>
    ensures items { bytes.new.items ≡ bytes.old.items }
    ensures room { OnOk result (vec_len bytes.new < vec_capacity bytes.new) }
{
    if bytes.len() < bytes.capacity() {
        return Ok(());
    }
    bytes.reserve(1)
}

impl Model for WrittenText {
    ghost use Rattle.std.specs.Prelude.{List, ℕ};

    ghost Value = { List ℕ };

    ghost view = { λ t. t.bytes.items };
}

impl WrittenText {
    /// An empty text.
    pub fn new(alloc: Global) -> WrittenText
        ensures { result ≡ [] }
    {
        WrittenText {
            bytes: Vec::new(alloc),
        }
    }

    /// The bytes of the text.
    pub fn as_bytes(&self) -> &[u8]
        ensures { result.now ≡ self.now }
    {
        self.bytes.as_slice()
    }

    /// Appends `byte`.
    pub fn push_byte(&mut self, byte: u8) -> Result<(), AllocError>
        ensures { OnOk result (self.new ≡ self.old ++ byte ∷ []) }
    {
        make_room(&mut self.bytes)?;
        self.bytes.push_reserved(byte);
        Ok(())
    }

    /// Appends `piece`.
    pub fn push(&mut self, piece: &[u8]) -> Result<(), AllocError>
        ensures { OnOk result (self.new ≡ self.old ++ piece.now) }
    {
        for byte in piece {
            self.push_byte(*byte)?;
        }
        Ok(())
    }

    /// Appends the decimal digits of `number`.
    #[tactic(auto, using(crate::proofs::NumberFormats::one_digit, crate::proofs::NumberFormats::last_digit))]
    pub fn push_number(&mut self, number: u32) -> Result<(), AllocError>
        ensures { OnOk result (self.new ≡ self.old ++ decimal number) }
    {
        if number < 10 {
            return self.push_byte(b'0' + number as u8);
        }
        self.push_number(number / 10)?;
        self.push_byte(b'0' + (number % 10) as u8)
    }

    /// The bytes of the text, as a vector.
    pub fn into_bytes(self) -> Vec<u8>
        ensures { result.items ≡ self }
    {
        self.bytes
    }
}
