// What a fault is known by, so that it is found again when lines move.

ghost use Rattle.std.specs.Prelude.{◌≡◌, IfOk, length};

use crate::labels::{RelativeLine, RoutineLines};
use mlk_program::{EntryId, Program};
use mlk_report_text::Piece::{Bytes, Number, Words};
use mlk_report_text::text_of;
use mlk_text::{Code, LineNumber, push_sparing};
use mlk_walk::{Report, Row};
use std::alloc::{AllocError, Global};

/// What a fault is known by: `CODE ENTRY LABEL+OFFSET TEXT`, its code, the entry that was walked, its line by the label above, and
/// the text of that line. Faults of one line with the same code have the same key.
#[derive(Drop, PartialEq, Eq, PartialOrd, Ord)]
pub struct FaultKey {
    bytes: Vec<u8>,
}

impl FaultKey {
    /// The key as it is written in a baseline.
    pub fn as_bytes(&self) -> &[u8] {
        self.bytes.as_slice()
    }
}

// `CODE ENTRY LABEL+OFFSET TEXT`
fn key_text<'a>(
    alloc: Global,
    code: Code,
    entry: &'a [u8],
    line: &'a RelativeLine<'a>,
) -> Result<Vec<u8>, AllocError> {
    text_of(
        alloc,
        &[
            Number(usize::from(code.number())),
            Words(" "),
            Bytes(entry),
            Words(" "),
            Bytes(line.label),
            Words("+"),
            Number(line.offset),
            Words(" "),
            Bytes(line.text),
        ],
    )
}

// Keys of faults, by the lines of the routine that the last fault was in.
#[derive(Drop)]
struct Keys<'p, 'a> {
    alloc: Global,
    program: &'p Program<'a>,
    texts: &'a [Vec<u8>],
    // the number of a routine, and its lines
    last: Option<(usize, RoutineLines<'a>)>,
}

impl<'p, 'a> Keys<'p, 'a> {
    // Looks up the lines of the routine with this number, unless the last fault was in it too.
    fn look_up(&mut self, number: usize) -> Result<(), AllocError> {
        if let Some((last, _)) = &self.last {
            if *last == number {
                return Ok(());
            }
        }
        self.last = None;
        let Some(routine) = self.program.routines().get(number) else {
            return Ok(());
        };
        let text: &'a [u8] = match self.texts.get(number) {
            Some(text) => text.as_slice(),
            None => b"",
        };
        let lines = RoutineLines::of(self.alloc, routine, text)?;
        self.last = Some((number, lines));
        Ok(())
    }

    fn entry_text(&self, entry: EntryId) -> Result<Vec<u8>, AllocError> {
        match self.program.text_of(self.alloc, entry)? {
            Some(text) => Ok(text),
            None => Ok(Vec::new(self.alloc)),
        }
    }

    // A line by the label above it, in the routine that was looked up.
    fn relative(&self, line: LineNumber) -> RelativeLine<'a> {
        match &self.last {
            Some((_, lines)) => lines.relative(line),
            None => RelativeLine {
                label: b"",
                offset: 0,
                text: b"",
            },
        }
    }

    // The key of a fault.
    fn key(&mut self, row: &Row) -> Result<FaultKey, AllocError> {
        self.look_up(row.entry.routine())?;
        let entry = self.entry_text(row.entry)?;
        let line = self.relative(row.fault.line);
        let bytes = key_text(self.alloc, row.fault.code, entry.as_slice(), &line)?;
        Ok(FaultKey { bytes })
    }
}

/// The keys of the faults of `report` on `program`, in their order. `texts` are the texts of its routines, in their order.
pub fn fault_keys<'a>(
    alloc: Global,
    program: &Program<'a>,
    texts: &'a [Vec<u8>],
    report: &Report,
) -> Result<Vec<FaultKey>, AllocError>
    ensures { IfOk result (λ keys. length keys.items ≡ length report.now) }
{
    let mut keys = Keys {
        alloc,
        program,
        texts,
        last: None,
    };
    let rows = report.rows();
    let mut found = Vec::with_capacity(alloc, rows.len())?;
    for row in rows {
        push_sparing(&mut found, keys.key(row)?)?;
    }
    Ok(found)
}
