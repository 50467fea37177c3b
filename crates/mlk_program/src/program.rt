// Programs.

ghost use Rattle.std.specs.Prelude.{◌≡◌, IfOk, map, option_map, option_copied, slice_get};
ghost use Rattle.mlk_syntax.specs.Views.{line_of, routine_of};
ghost use Rattle.mlk_program.specs.Entries.{target_of, entry_by, line_of_entry, lines_of, line_after, text_of_entry};
ghost use Rattle.mlk_program.specs.Program.{is_shared, is_shared_in};

use crate::directory::Directory;
use crate::entry::EntryId;
use crate::frames::Frames;
use crate::shared::SharedNames;
use mlk_syntax::{Callee, Line, Routine};
use mlk_text::Name;
use std::alloc::{AllocError, Global};
use std::marker::Model;

/// Routines in which each call has a line that accepts its actuals. They are borrowed.
#[derive(Drop)]
pub struct Program<'a> {
    pub(crate) directory: Directory<'a>,
    pub(crate) shared: SharedNames<'a>,
    pub(crate) frames: Frames<'a>,
}

impl<'a> Model for Program<'a> {
    ghost use Rattle.std.specs.Prelude.{List, [], ℕ, ◌≡◌, map, bytes_eq};
    ghost use Rattle.std.specs.List.{list_any};
    ghost use Rattle.std.specs.Coded.{codes};
    ghost use Rattle.mlk_syntax.specs.contracts.routine.Line as line;
    ghost use Rattle.mlk_syntax.specs.declared.routine.Routine.{Routine};
    ghost use Rattle.mlk_syntax.specs.Views.{routine_of};
    ghost use Rattle.mlk_program.specs.Program.{IsProgram, is_shared, calls_of};
    ghost use Rattle.mlk_program.specs.Frames.{Learns, fillings, passed_from};
    ghost use Rattle.mlk_program.specs.Tables.{trees};

    ghost Value = { List Routine };

    ghost coded = { Prim.hlevel (codes, line.the_row.coded) };

    ghost view = { λ p. p.directory };

    ghost invariant = { λ p. IsProgram (map routine_of p.directory)
        × ((name : List ℕ) → list_any (bytes_eq name) p.shared ≡ is_shared (map routine_of p.directory) name)
        × Learns (fillings (trees p.directory) (calls_of (trees p.directory))) (passed_from 0 p.directory) ([], [])
        p.frames };
}

impl<'a> Program<'a> {
    /// The routines, in the given order.
    pub fn routines(&self) -> &'a [Routine]
        ensures { result.now ≡ self.now }
    {
        self.directory.routines()
    }

    /// The entry that `text` names: `LABEL^ROUTINE`, or `^ROUTINE` for the routine's first line; `None` if the program does not
    /// have it. Allocates nothing.
    pub fn entry(&self, text: &[u8]) -> Option<EntryId>
        ensures { result ≡ entry_by (map routine_of self.now) text.now }
    {
        self.directory.entry(text)
    }

    /// The entry that `callee` names if the call is in the routine with the index `routine`: a label alone is one of that
    /// routine. `None` if the program does not have it. Allocates nothing.
    pub fn target(&self, routine: usize, callee: &Callee) -> Option<EntryId>
        ensures { result ≡ target_of (map routine_of self.now) routine callee.now }
    {
        self.directory.target(routine, callee)
    }

    /// The routine of `entry`, or `None` if the program does not have it. Allocates nothing.
    pub fn routine_of(&self, entry: EntryId) -> Option<&'a Routine>
        ensures { option_copied result ≡ slice_get self.now entry.routine }
    {
        self.directory.routine_of(entry)
    }

    /// The text of `entry`: `LABEL^ROUTINE`, or `^ROUTINE` for a first line without a label; `None` if the program does not have
    /// it. If the first line has a label, both `^ROUTINE` and the text with that label name its entry, whose own text has the
    /// label.
    pub fn text_of(&self, alloc: Global, entry: EntryId) -> Result<Option<Vec<u8>>, AllocError>
        ensures { IfOk result
            (λ o. option_map (λ v. v.items) o ≡ text_of_entry (map routine_of self.now) entry) }
    {
        self.directory.text_of(alloc, entry)
    }

    /// The line of `entry`, or `None` if the program does not have it. Allocates nothing.
    pub fn line(&self, entry: EntryId) -> Option<&'a Line>
        ensures { option_map (λ l. line_of l.now) result ≡ line_of_entry (map routine_of self.now) entry }
    {
        self.directory.line(entry)
    }

    /// The lines of `entry`, from its own to the routine's end, or up to the next line that has a formal list; empty if the
    /// program does not have it. Allocates nothing.
    pub fn lines_of(&self, entry: EntryId) -> &'a [Line]
        ensures { map line_of result.now ≡ lines_of (map routine_of self.now) entry }
    {
        self.directory.lines_of(entry)
    }

    /// The line after the lines of `entry`, which has a formal list, or `None` if they extend to the routine's end. Allocates
    /// nothing.
    pub fn line_after(&self, entry: EntryId) -> Option<&'a Line>
        ensures { option_map (λ l. line_of l.now) result ≡ line_after (map routine_of self.now) entry }
    {
        self.directory.line_after(entry)
    }

    /// Whether `name` is shared: some call of the program passes it by reference (`.X`), or a formal of this name receives a name
    /// passed by reference, in any routine. Allocates nothing.
    pub fn is_shared(&self, name: &Name) -> bool
        ensures { result ≡ is_shared (map routine_of self.now) name.now }
    {
        self.shared.has(name.as_bytes())
    }

    /// Whether `name` is shared in the frames of `entry` because of the entry itself: it is a formal of the entry to which some
    /// call of the program passes by reference, or the entry's lines or their blocks pass it by reference. Allocates nothing.
    pub fn is_shared_in(&self, entry: EntryId, name: &Name) -> bool
        ensures { result ≡ is_shared_in (map routine_of self.now) entry name.now }
    {
        let name = name.as_bytes();
        self.frames.has_filled(entry, name)
            || self.frames.has_passed(self.directory.part_of(entry), name)
    }
}
