// The end of a line: a case continues at the next line of its level, or its block ends, or its frame.

ghost use Rattle.std.specs.Prelude.{◌≡◌, [], ◌∷◌, IfOk, IfSome, OnOk, Some, filter, map, option_map, option_copied};
ghost use Rattle.std.specs.List.{list_any};
ghost use Rattle.mlk_walk_state.specs.Terms.{is_such, mention_such};
ghost use Rattle.mlk_walk_state.specs.Cases.{holds_some, last_saved, before_last};
ghost use Rattle.mlk_walk_state.specs.Scope.{scope_of};
ghost use Rattle.mlk_walk_lines.specs.Endings.{end_of, around_of, head_of, into_line, listed_in, listed_ahead, is_at_level};
ghost use Rattle.mlk_walk_lines.specs.Endings.{escapes_block, is_left, restored, block_end, escapes, frame_end, level_end};
ghost use Rattle.mlk_walk_lines.specs.Endings.{quit_end, continuation, case_end, state_end, add_ending, add_endings, at_end};

use crate::action::holds_some;
use crate::ending::Ends;
use mlk_calls::{Scope, State, is_among, is_exit, is_listed, is_own, mention_any};
use mlk_cert_parts::{Case, ExitCase, Own, Shared, Test};
use mlk_names::{KnownSym, LockTerm};
use mlk_syntax::Line;
use mlk_text::{Code, Column, LineNumber, Name, copy_of};
use mlk_walk_exprs::{Mend, Note, Quit, Walk};
use std::alloc::{AllocError, Global};
use std::slice;

/// What contains lines of one level: a block, or an entry's frame, with the line that follows the entry's lines.
#[derive(Clone, Copy, Drop)]
pub enum Around<'a> {
    Block,
    Frame(Option<&'a Line>),
}

/// What is around a line: its block or its frame, and the line at which a job continues after it, if there is one.
#[derive(Clone, Copy, Drop)]
pub struct Surroundings<'a> {
    pub around: Around<'a>,
    pub next: Option<&'a Line>,
}

/// The end of a line: what contains the lines of its level, the next of them, the line's number and level, and the column
/// after its last byte.
#[derive(Clone, Copy, Drop)]
pub(crate) struct LineEnd<'a> {
    pub(crate) alloc: Global,
    pub(crate) scope: &'a Scope<'a>,
    pub(crate) around: Around<'a>,
    pub(crate) next: Option<&'a Line>,
    pub(crate) line: LineNumber,
    pub(crate) level: usize,
    pub(crate) column: Column,
}

fn is_at_level(level: usize, item: &Own) -> bool
    ensures { result ≡ is_at_level level item.now }
{
    item.level as usize == level
}

fn escapes_block(level: usize, case: &Case, item: &Own) -> bool
    ensures { result ≡ escapes_block level case.now item.now }
{
    is_at_level(level, item) && mention_any(slice::from_ref(&item.names), case.held.as_slice())
}

fn some_escape(level: usize, case: &Case) -> bool
    ensures { result ≡ list_any (escapes_block level case.now) case.now.own }
{
    case.own
        .as_slice()
        .iter()
        .any(|item| escapes_block(level, case, item))
}

// The own items of levels other than `level`.
fn left_own(alloc: Global, level: usize, own: &[Own]) -> Result<Vec<Own>, AllocError>
    ensures { IfOk result (λ v. v.items ≡ filter (is_left level) own.now) }
{
    let count = own.iter().filter(|item| !is_at_level(level, item)).count();
    let mut left = Vec::with_capacity(alloc, count)?;
    for item in own {
        if !is_at_level(level, item) {
            left.push(copy_of(item)?)?;
        }
    }
    Ok(left)
}

// The last of the saved tests and those before it, or `None`.
fn split_last(saved: &[Test]) -> Option<(Test, &[Test])>
    ensures last { option_map (λ p. p.0) result ≡ last_saved saved.now }
    ensures before { IfSome result (λ p. p.1.now ≡ before_last saved.now) }
{
    match saved.split_last() {
        None => None,
        Some((last, before)) => Some((*last, before)),
    }
}

// The case after its block, where `test` was the saved `$TEST`, and `saved` were saved before it.
fn restore_test(
    alloc: Global,
    level: usize,
    test: Test,
    saved: Shared<Test>,
    case: Case,
) -> Result<Case, AllocError>
    requires { saved ≡ before_last case.saved }
    ensures { IfOk result (λ c. c ≡ restored level test case) }
{
    let own = left_own(alloc, level, case.own.as_slice())?;
    Ok(Case {
        test,
        held: case.held,
        own: Shared::new(alloc, own)?,
        kept: case.kept,
        saved,
    })
}

fn escapes(case: &Case, name: &Name) -> bool
    ensures { result ≡ escapes case.now name.now }
{
    is_own(case.own.as_slice(), name) && !is_among(case.kept.as_slice(), name)
}

fn is_escaping(case: &Case, symbol: &KnownSym) -> bool
    ensures { result ≡ is_such (escapes case.now) symbol.now }
{
    match symbol {
        KnownSym::Local(name) => escapes(case, name),
        KnownSym::Const(_) | KnownSym::Job => false,
    }
}

fn any_escapes(case: &Case, symbols: &[KnownSym]) -> bool
    ensures { result ≡ list_any (is_such (escapes case.now)) symbols.now }
{
    symbols.iter().any(|symbol| is_escaping(case, symbol))
}

// Whether a held term mentions an own name that is not kept.
fn some_name_escapes(case: &Case) -> bool
    ensures { result ≡ mention_such (escapes case.now) case.now.held }
{
    case.held
        .as_slice()
        .iter()
        .any(|term| any_escapes(case, term.subs.as_slice()))
}

// The exit that corresponds to the case.
fn exit_of(case: Case) -> ExitCase {
    ExitCase {
        test: case.test,
        held: case.held,
        kept: case.kept,
    }
}

impl<'a> LineEnd<'a> {
    // The cases that are listed at the next line. They are looked up once for all cases that continue there.
    fn listed_ahead(&self) -> &'a [Case]
        ensures { result.now ≡ listed_ahead (end_of self.now) }
    {
        match self.next {
            None => &[],
            Some(head) => self.scope.listed_cases(head.number, 0),
        }
    }

    // Lets a case continue at the line `head`, at which the cases `listed` are listed.
    fn into_line(
        &self,
        head: &Line,
        listed: &[Case],
        case: Case,
        ends: &mut Ends,
    ) -> Result<(), AllocError>
        requires { listed.now ≡ listed_in (scope_of self.now.scope.now) (Some (head_of head.now)) }
        ensures { OnOk result (ends.new
            ≡ add_ending ends.old (into_line (scope_of self.now.scope.now) (head_of head.now) case)) }
    {
        if head.formals.is_some() {
            return ends.refuse(
                head.number,
                Column::new(1),
                Code::FallsIntoFormals,
                Note::in_case(Mend::Nothing, &case)?,
            );
        }
        if is_listed(listed, &case) {
            return Ok(());
        }
        let mend = Mend::Listed(head.number, 0, case);
        ends.refuse(
            head.number,
            Column::new(1),
            Code::CaseNotListed,
            Note::of(mend),
        )
    }

    // Ends the block in a case.
    fn block_end(&self, column: Column, case: Case, ends: &mut Ends) -> Result<(), AllocError>
        ensures { OnOk result (ends.new
            ≡ add_ending ends.old (block_end (end_of self.now) column case (last_saved case.saved))) }
    {
        let Some((test, before)) = split_last(case.saved.as_slice()) else {
            return Ok(());
        };
        let saved = Shared::new(self.alloc, Vec::from_slice(self.alloc, before)?)?;
        if some_escape(self.level, &case) {
            let note = Note::in_case(Mend::Nothing, &case)?;
            return ends.refuse(self.line, column, Code::NameEscapes, note);
        }
        ends.leave(restore_test(self.alloc, self.level, test, saved, case)?)
    }

    // Ends the frame in a case.
    fn frame_end(&self, column: Column, case: Case, ends: &mut Ends) -> Result<(), AllocError>
        ensures { OnOk result (ends.new ≡ add_ending ends.old (frame_end (end_of self.now) column case)) }
    {
        if self.scope.is_entry_declared() && holds_some(case.held.as_slice()) {
            let note = Note::in_case(Mend::Nothing, &case)?;
            return ends.refuse(self.line, column, Code::HeldAtEnd, note);
        }
        if some_name_escapes(&case) {
            let note = Note::in_case(Mend::Nothing, &case)?;
            return ends.refuse(self.line, column, Code::NameEscapes, note);
        }
        if is_exit(self.scope.summary().exits.as_slice(), &case) {
            return Ok(());
        }
        let mend = Mend::Exit(exit_of(case));
        ends.refuse(self.line, column, Code::CaseNotListed, Note::of(mend))
    }

    // Ends the lines of this level in a case.
    fn level_end(&self, column: Column, case: Case, ends: &mut Ends) -> Result<(), AllocError>
        ensures { OnOk result (ends.new
            ≡ add_ending ends.old (level_end (end_of self.now).around (end_of self.now) column case)) }
    {
        match self.around {
            Around::Block => self.block_end(column, case, ends),
            Around::Frame(_) => self.frame_end(column, case, ends),
        }
    }

    // Ends the line in a case; `listed` are the cases that are listed at the next line.
    fn case_end(&self, listed: &[Case], case: Case, ends: &mut Ends) -> Result<(), AllocError>
        requires { listed.now ≡ listed_ahead (end_of self.now) }
        ensures { OnOk result (ends.new ≡ add_ending ends.old (case_end (end_of self.now) case)) }
    {
        match self.next {
            None => self.level_end(self.column, case, ends),
            Some(head) => self.into_line(head, listed, case, ends),
        }
    }

    fn end_states(
        &self,
        listed: &[Case],
        states: Vec<State>,
        ends: &mut Ends,
    ) -> Result<(), AllocError>
        requires { listed.now ≡ listed_ahead (end_of self.now) }
        ensures { OnOk result (ends.new
            ≡ add_endings (map (state_end (end_of self.now)) states.items) ends.old) }
    {
        for state in states {
            self.case_end(listed, state.case, ends)?;
        }
        Ok(())
    }

    fn end_cases(
        &self,
        listed: &[Case],
        cases: Vec<Case>,
        ends: &mut Ends,
    ) -> Result<(), AllocError>
        requires { listed.now ≡ listed_ahead (end_of self.now) }
        ensures { OnOk result (ends.new
            ≡ add_endings (map (case_end (end_of self.now)) cases.items) ends.old) }
    {
        for case in cases {
            self.case_end(listed, case, ends)?;
        }
        Ok(())
    }

    fn end_quits(&self, quits: Vec<Quit>, ends: &mut Ends) -> Result<(), AllocError>
        ensures { OnOk result (ends.new
            ≡ add_endings (map (quit_end (end_of self.now)) quits.items) ends.old) }
    {
        for quit in quits {
            self.level_end(quit.column, quit.case, ends)?;
        }
        Ok(())
    }

    /// Ends the line in all cases of its walk. If the walk is over, there are no cases left, but the faults are kept.
    pub(crate) fn close(&self, walk: Walk) -> Result<Ends, AllocError>
        ensures { IfOk result (λ e. e ≡ at_end (end_of self.now) walk) }
    {
        let Walk {
            going,
            skips,
            quits,
            faults,
            over,
        } = walk;
        let mut ends = Ends::new(self.alloc, faults);
        if over {
            return Ok(ends);
        }
        let listed = self.listed_ahead();
        self.end_states(listed, going.into_vec(), &mut ends)?;
        self.end_cases(listed, skips.into_vec(), &mut ends)?;
        self.end_quits(quits.into_vec(), &mut ends)?;
        Ok(ends)
    }
}
