// Texts that are stubs.

ghost use Rattle.std.specs.Prelude.{◌≡◌, OnOk};
ghost use Rattle.mlk_stubs.specs.StubTexts.{AreStubs};

use mlk_dialect::Dialect;
use mlk_routine::read_routine;
use mlk_text::{Failure, Fault};
use std::alloc::Global;
use std::marker::Model;

/// The texts of stubs, one after another. A contract sees the bytes.
#[derive(Drop)]
pub struct StubText {
    bytes: Vec<u8>,
}

impl Model for StubText {
    ghost use Rattle.std.specs.Prelude.{List, ℕ};

    ghost Value = { List ℕ };

    ghost view = { λ t. t.bytes.items };
}

impl StubText {
    /// No stub.
    pub(crate) fn new(alloc: Global) -> StubText
        ensures { AreStubs result }
    {
        StubText {
            bytes: Vec::new(alloc),
        }
    }

    /// The bytes of the texts.
    pub fn into_bytes(self) -> Vec<u8>
        ensures { result.items ≡ self }
    {
        let StubText { bytes } = self;
        bytes
    }

    /// Appends the stub of `routine` with the text `stub`, which is read as a routine to check it. The error is that of
    /// `read_routine`.
    pub(crate) fn push(
        &mut self,
        alloc: Global,
        routine: &[u8],
        stub: &[u8],
    ) -> Result<(), Failure<Fault>>
        ensures { OnOk result (AreStubs self.old → AreStubs self.new) }
    {
        let _routine = read_routine(alloc, Dialect::Standard, routine, stub)?;
        self.bytes.extend_from_slice(stub)?;
        Ok(())
    }
}
