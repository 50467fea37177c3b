// The input of the walk of an entry's lines.

ghost use Rattle.std.specs.Prelude.{◌≡◌, ◌++◌, [], IfOk, OnOk, map, filter_map, option_copied, option_map, slice_get};
ghost use Rattle.mlk_syntax.specs.Views.{line_of, routine_of};
ghost use Rattle.mlk_program.specs.Entries.{entry_by};
ghost use Rattle.mlk_cert_parts.specs.Limits.{points_below};
ghost use Rattle.mlk_cert_lexemes.specs.Lists.{ascends};
ghost use Rattle.mlk_walk_state.specs.Ends.{IsEnd};
ghost use Rattle.mlk_walk_state.specs.Names.{is_own};

use crate::names::is_own;
use crate::points::{
    are_earlier, are_earlier_in_order, are_in_order, cases_ahead, cases_at, from_line,
};
use indexmap::{IndexMap, IndexSet};
use mlk_cert_parts::{Case, EntryCert, Own, Point, Summary};
use mlk_program::{EntryId, Program};
use mlk_rules::{Rules, entries};
use mlk_syntax::{Callee, Line};
use mlk_text::{LineNumber, Name, Value};
use std::alloc::{AllocError, Global};
use std::marker::Model;

/// What is known of entries: the blocks of the certified ones, and which are declared. A contract sees the two lists.
#[derive(Drop)]
pub struct Entries<'a> {
    certified: IndexMap<EntryId, &'a EntryCert>,
    declared: IndexSet<EntryId>,
}

impl<'a> Model for Entries<'a> {
    ghost use Rattle.std.specs.Prelude.{List, map};
    ghost use Rattle.mlk_program.specs.declared.entry.EntryId.{EntryId};
    ghost use Rattle.mlk_cert_parts.specs.declared.block.EntryCert.{EntryCert};

    ghost Value = { List (EntryId × EntryCert) × List EntryId };

    ghost view = { λ e. (map (λ p. (p.0, p.1.now)) e.certified.entries, e.declared.keys) };
}

impl<'a> Entries<'a> {
    ghost use Rattle.mlk_walk_state.specs.Entries.{further, gained, gained_if};
    ghost use Rattle.mlk_walk_state.specs.Scope.{certified, declared, firsts, block_in, block_at, has_entry};

    fn new(alloc: Global) -> Entries<'a>
        ensures { result ≡ ([], []) }
    {
        Entries {
            certified: IndexMap::new(alloc),
            declared: IndexSet::new(alloc),
        }
    }

    // Adds the block of `entry`, unless it has one.
    fn certify(&mut self, entry: EntryId, block: &'a EntryCert) -> Result<(), AllocError>
        ensures blocks { OnOk result (self.new.0 ≡ gained (λ p. p.0) self.old.0 (entry, block.now)) }
        ensures declared { OnOk result (self.new.1 ≡ self.old.1) }
    {
        if self.certified.contains_key(&entry) {
            return Ok(());
        }
        let Ok(_) = self.certified.insert(entry, block) else {
            return Err(AllocError);
        };
        Ok(())
    }

    fn declare(&mut self, entry: EntryId) -> Result<(), AllocError>
        ensures declared { OnOk result (self.new.1 ≡ gained (λ e. e) self.old.1 entry) }
        ensures blocks { OnOk result (self.new.0 ≡ self.old.0) }
    {
        self.declared.insert(entry)?;
        Ok(())
    }

    fn certify_block(&mut self, program: &Program, block: &'a EntryCert) -> Result<(), AllocError>
        ensures blocks { OnOk result
            (self.new.0 ≡ gained_if (λ p. p.0) self.old.0 (block_in (map routine_of program.now) block.now)) }
        ensures declared { OnOk result (self.new.1 ≡ self.old.1) }
    {
        match program.entry(block.entry.as_bytes()) {
            None => Ok(()),
            Some(entry) => self.certify(entry, block),
        }
    }

    fn declare_text(&mut self, program: &Program, text: &Value) -> Result<(), AllocError>
        ensures declared { OnOk result
            (self.new.1 ≡ gained_if (λ e. e) self.old.1 (entry_by (map routine_of program.now) text.now)) }
        ensures blocks { OnOk result (self.new.0 ≡ self.old.0) }
    {
        match program.entry(text.as_bytes()) {
            None => Ok(()),
            Some(entry) => self.declare(entry),
        }
    }

    fn certify_all(&mut self, program: &Program, blocks: &'a [EntryCert]) -> Result<(), AllocError>
        ensures blocks { OnOk result (self.new.0 ≡ self.old.0 ++ further (λ p. p.0) self.old.0
            (firsts (λ p. p.0) (filter_map (block_in (map routine_of program.now)) blocks.now))) }
        ensures declared { OnOk result (self.new.1 ≡ self.old.1) }
    {
        let mut left = blocks;
        while let Some((block, others)) = left.split_first() {
            self.certify_block(program, block)?;
            left = others;
        }
        Ok(())
    }

    fn declare_all(&mut self, program: &Program, texts: &[Value]) -> Result<(), AllocError>
        ensures declared { OnOk result (self.new.1 ≡ self.old.1 ++ further (λ e. e) self.old.1
            (firsts (λ e. e) (filter_map (entry_by (map routine_of program.now)) texts.now))) }
        ensures blocks { OnOk result (self.new.0 ≡ self.old.0) }
    {
        let mut left = texts;
        while let Some((text, others)) = left.split_first() {
            self.declare_text(program, text)?;
            left = others;
        }
        Ok(())
    }

    /// Collects what is known of a program's entries: an entry has the first block that names it, and the rules declare entries.
    /// Names that are not entries of the program are ignored.
    pub fn of(
        alloc: Global,
        program: &Program,
        rules: &Rules,
        blocks: &'a [EntryCert],
    ) -> Result<Entries<'a>, AllocError>
        ensures certified { IfOk result (λ e. e.0 ≡ certified (map routine_of program.now) blocks.now) }
        ensures declared { IfOk result (λ e. e.1 ≡ declared (map routine_of program.now) rules.now.entries) }
    {
        let mut found = Entries::new(alloc);
        found.certify_all(program, blocks)?;
        found.declare_all(program, entries(rules))?;
        Ok(found)
    }

    /// The block of `entry`, the first that names it, or `None` if it is not certified. Allocates nothing.
    pub fn block(&self, entry: EntryId) -> Option<&'a EntryCert>
        ensures { option_copied result ≡ block_at self.now.0 entry }
    {
        self.certified.get(&entry).copied()
    }

    /// The summary of `entry`, or `None` if it is not certified. Allocates nothing.
    pub fn summary(&self, entry: EntryId) -> Option<&'a Summary>
        ensures { option_copied result ≡ option_map (λ b. b.summary) (block_at self.now.0 entry) }
    {
        let block = self.block(entry)?;
        Some(&block.summary)
    }

    /// Whether `entry` is declared. Allocates nothing.
    pub fn is_declared(&self, entry: EntryId) -> bool
        ensures { result ≡ has_entry self.now.1 entry }
    {
        self.declared.contains(&entry)
    }
}

// Whether `name` is in `counted` or in `own`.
#[inline(always)]
#[tactic(auto, using(crate::proofs::Shared::own_both, crate::proofs::Shared::own_first, crate::proofs::Shared::own_after))]
fn counts_as_own(counted: &[Own], own: &[Own], name: &Name) -> bool
    ensures { result ≡ is_own (counted.now ++ own.now) name.now }
{
    is_own(counted, name) || is_own(own, name)
}

// The line at `index`, or `None`.
#[tactic(auto, using(crate::proofs::OwnLines::line_got))]
fn line_at(lines: &[Line], index: usize) -> Option<&Line>
    ensures { option_map (λ l. line_of l.now) result ≡ slice_get (map line_of lines.now) index }
{
    lines.get(index)
}

/// The input of the walk of an entry's lines.
#[derive(Clone, Copy, Drop)]
pub struct Scope<'a> {
    pub program: &'a Program<'a>,
    pub rules: &'a Rules,
    pub entries: &'a Entries<'a>,
    /// the entry that is walked
    pub entry: EntryId,
    /// the entry's block, whose claims the walk checks
    pub block: &'a EntryCert,
    // names that count as own, besides those of a state, when shared names are looked up
    counted: &'a [Own],
    // whether the block's points are in order, as those of a certificate are
    in_order: bool,
    // the points from the line that the walk has reached on
    ahead: &'a [Point],
    ghost order: { in_order ≡ ascends points_below block.now.points },
    ghost end: { IsEnd block.now.points ahead.now },
}

impl<'a> Scope<'a> {
    ghost use Rattle.mlk_walk_state.specs.Scope.{scope_with, scope_of, counting, listed, line_within, own_line, is_past};

    /// The input of a walk of `entry` against `block`. `entries` are those of the same program and rules, and of the block's
    /// certificate. Allocates nothing, and looks once at each of the block's points.
    pub fn of(
        program: &'a Program<'a>,
        rules: &'a Rules,
        entries: &'a Entries<'a>,
        entry: EntryId,
        block: &'a EntryCert,
    ) -> Scope<'a>
        ensures { scope_of result
            ≡ scope_with (map routine_of program.now) rules.now entries.now entry block.now }
    {
        Scope::with_counted(program, rules, entries, entry, block, &[])
    }

    /// The input of a walk in which the names `counted` count as own, besides those of a state, when shared names are looked up:
    /// it shows what would be found in a state in which they are not own. Allocates nothing, and looks once at each of the
    /// block's points.
    pub fn with_counted(
        program: &'a Program<'a>,
        rules: &'a Rules,
        entries: &'a Entries<'a>,
        entry: EntryId,
        block: &'a EntryCert,
        own: &'a [Own],
    ) -> Scope<'a>
        ensures { scope_of result ≡ counting own.now
            (scope_with (map routine_of program.now) rules.now entries.now entry block.now) }
    {
        let points = block.points.as_slice();
        Scope {
            program,
            rules,
            entries,
            entry,
            block,
            counted: own,
            in_order: are_in_order(points),
            ahead: points,
        }
    }

    /// The same input for a walk that continues at `line`: cases listed from there on are found faster. Allocates nothing.
    pub fn starting_at(&self, line: LineNumber) -> Scope<'a>
        ensures { scope_of result ≡ scope_of self.now }
    {
        Scope {
            program: self.program,
            rules: self.rules,
            entries: self.entries,
            entry: self.entry,
            block: self.block,
            counted: self.counted,
            in_order: self.in_order,
            ahead: from_line(self.ahead, line),
        }
    }

    /// The rules.
    pub fn rules(&self) -> &'a Rules
        ensures { result.now ≡ (scope_of self.now).rules }
    {
        self.rules
    }

    /// The summary of the entry that is walked.
    pub fn summary(&self) -> &'a Summary
        ensures { result.now ≡ (scope_of self.now).summary }
    {
        &self.block.summary
    }

    /// Whether the entry that is walked is declared. Allocates nothing.
    pub fn is_entry_declared(&self) -> bool
        ensures { result ≡ (scope_of self.now).declared }
    {
        self.entries.is_declared(self.entry)
    }

    /// The cases that are listed at a line or at one of its rounds. If the block's points are in order, the search is binary, or
    /// starts at the line that the walk has reached; otherwise it is linear. Allocates nothing.
    pub fn listed_cases(&self, line: LineNumber, round: usize) -> &'a [Case]
        ensures { result.now ≡ listed (scope_of self.now) line round }
    {
        let points = self.block.points.as_slice();
        if self.in_order {
            cases_ahead(points, self.ahead, line, round)
        } else {
            cases_at(points, line, round)
        }
    }

    // The line of `entry`, if it is one of the lines of the entry that is walked.
    fn line_within(&self, entry: EntryId) -> Option<&'a Line>
        ensures { option_map (λ l. line_of l.now) result ≡ line_within (scope_of self.now) entry }
    {
        if entry.routine() != self.entry.routine() {
            return None;
        }
        if entry.line() < self.entry.line() {
            return None;
        }
        line_at(
            self.program.lines_of(self.entry),
            entry.line() - self.entry.line(),
        )
    }

    /// The line that `callee` names, if it is one of the lines of the entry that is walked; `None` also if the program does not
    /// have it. Allocates nothing.
    pub fn own_line(&self, callee: &Callee) -> Option<&'a Line>
        ensures { option_map (λ l. line_of l.now) result ≡ own_line (scope_of self.now) callee.now }
    {
        let target = self.program.target(self.entry.routine(), callee)?;
        self.line_within(target)
    }

    /// Whether all points are on lines before `line`, so that nothing is listed there or later. Allocates nothing.
    pub fn is_past(&self, line: LineNumber) -> bool
        ensures { result ≡ is_past (scope_of self.now) line }
    {
        let points = self.block.points.as_slice();
        if self.in_order {
            are_earlier_in_order(points, line)
        } else {
            are_earlier(points, line)
        }
    }

    /// Whether `name` is shared in a frame of the walked entry with the own names `own`: some call of the program passes it by
    /// reference, or a formal of this name receives a name passed by reference; and if it is own, it is such a formal of this
    /// entry, or this entry passes it. Allocates nothing.
    #[inline(always)]
    pub fn is_shared_in(&self, own: &[Own], name: &Name) -> bool
        ensures { result ≡ (scope_of self.now).is_shared own.now name.now }
    {
        self.program.is_shared(name)
            && (!counts_as_own(self.counted, own, name)
                || self.program.is_shared_in(self.entry, name))
    }
}
