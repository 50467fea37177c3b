// The rows of a report, each with its explanation.

use crate::story::{OriginStory, Story, story_behind, story_of};
use crate::trail::trail_behind;
use mlk_excerpts::margin_of;
use mlk_explain_origins::{Grounds, RoutineFacts, Trail};
use mlk_explain_places::{FaultPlace, push_entry, push_line, push_source};
use mlk_explain_rules::RuleFile;
use mlk_program::Program;
use mlk_report_text::Piece::{At, Bytes, CodeName, Number, Words};
use mlk_report_text::{push_all, text_of};
use mlk_text::LineNumber;
use mlk_walk::{Checks, Row};
use mlk_walk_exprs::Note;
use std::alloc::{AllocError, Global};
use std::collections::BTreeSet;

// Appends `LABEL^ROUTINE line:column CODE NAME`.
fn push_heading(text: &mut Vec<u8>, program: &Program<'_>, row: &Row) -> Result<(), AllocError> {
    push_entry(text, program, Some(row.entry))?;
    let at = At(row.fault.line, row.fault.column);
    let code = CodeName(row.fault.code);
    push_all(text, &[Words(" "), at, Words(" "), code, Words("\n")])
}

// Appends the line of M, what was about to happen there, and what was held.
fn push_scene(text: &mut Vec<u8>, place: &FaultPlace<'_>, story: &Story) -> Result<(), AllocError> {
    push_source(text, place, story.act.as_slice())?;
    if let Some(held) = &story.held {
        push_line(text, place.fault.line, "held", held.as_slice())?;
    }
    match &story.needed_by {
        Some(needed_by) => push_line(text, place.fault.line, "needed by", needed_by.as_slice()),
        None => Ok(()),
    }
}

// Appends where the place behind a fault is, its line of M, and what happens there.
fn push_origin(
    text: &mut Vec<u8>,
    place: &FaultPlace<'_>,
    origin: &OriginStory,
) -> Result<(), AllocError> {
    push_line(text, place.fault.line, "origin", origin.site.as_slice())?;
    push_source(text, place, origin.point.act.as_slice())
}

// Appends the lines of the rules that apply, and of what mends the fault.
fn push_remedy(text: &mut Vec<u8>, line: LineNumber, story: &Story) -> Result<(), AllocError> {
    for rule in &story.rules {
        push_line(text, line, "rule", rule.as_slice())?;
    }
    for help in &story.help {
        push_line(text, line, "help", help.as_slice())?;
    }
    Ok(())
}

// What faults with one cause share: the routine, the line, the code, and the lines on what mends them.
fn cause_of(alloc: Global, row: &Row, remedy: &[u8]) -> Result<Vec<u8>, AllocError> {
    text_of(
        alloc,
        &[
            Number(row.entry.routine()),
            Words(" "),
            Number(row.fault.line.number() as usize),
            Words(" "),
            Number(usize::from(row.fault.code.number())),
            Words("\n"),
            Bytes(remedy),
        ],
    )
}

// An explanation, with what other faults of the same cause share with it.
#[derive(Drop)]
struct Explanation {
    text: Vec<u8>,
    cause: Vec<u8>,
}

/// Appends rows with their explanations, and keeps the causes that it has explained.
#[derive(Drop)]
pub(crate) struct Explainer<'a> {
    alloc: Global,
    grounds: &'a Grounds<'a>,
    checks: &'a Checks<'a>,
    rule_file: &'a RuleFile,
    // the last routine: the rows of a report are in the order of routines
    routine: Option<RoutineFacts<'a>>,
    causes: BTreeSet<Vec<u8>>,
}

// The place behind a fault, to which `trail` leads.
fn place_behind<'a>(
    grounds: &'a Grounds<'a>,
    checks: &'a Checks<'a>,
    facts: &'a RoutineFacts<'a>,
    trail: &'a Trail,
) -> FaultPlace<'a> {
    let behind = &trail.origin;
    let row = Row {
        entry: behind.entry,
        fault: behind.fault,
    };
    FaultPlace::of(grounds, checks, facts, &row, &behind.note)
}

impl<'a> Explainer<'a> {
    /// One that has explained nothing.
    pub(crate) fn new(
        alloc: Global,
        grounds: &'a Grounds<'a>,
        checks: &'a Checks<'a>,
        rule_file: &'a RuleFile,
    ) -> Explainer<'a> {
        Explainer {
            alloc,
            grounds,
            checks,
            rule_file,
            routine: None,
            causes: BTreeSet::new(alloc),
        }
    }

    // Reads the routine with this number, unless it was the last one.
    fn look_up(&mut self, number: usize) -> Result<(), AllocError> {
        if !matches!(&self.routine, Some(facts) if facts.number == number) {
            self.routine = Some(RoutineFacts::of(self.alloc, self.grounds, number)?);
        }
        Ok(())
    }

    // An explanation whose text begins with `scenes`.
    fn explanation(
        &self,
        row: &Row,
        scenes: Vec<u8>,
        story: &Story,
    ) -> Result<Explanation, AllocError> {
        let mut remedy = Vec::new(self.alloc);
        push_remedy(&mut remedy, row.fault.line, story)?;
        let cause = cause_of(self.alloc, row, remedy.as_slice())?;
        let mut text = scenes;
        text.extend_from_slice(remedy.as_slice())?;
        Ok(Explanation { text, cause })
    }

    // Appends the scene of a fault and the one behind it: this one first in a declared entry, which has no caller to ask.
    fn push_scenes(
        &self,
        text: &mut Vec<u8>,
        place: &FaultPlace<'_>,
        origin: &FaultPlace<'_>,
        story: &Story,
    ) -> Result<(), AllocError> {
        let Some(behind) = &story.origin else {
            return push_scene(text, place, story);
        };
        if !self.checks.entries.is_declared(place.entry) {
            push_scene(text, place, story)?;
            return push_origin(text, origin, behind);
        }
        push_origin(text, origin, behind)?;
        push_line(text, place.fault.line, "call", story.site.as_slice())?;
        push_scene(text, place, story)
    }

    // The explanation of a fault behind which `trail` leads to a place in the routine of `facts`.
    fn explain_from(
        &self,
        row: &Row,
        place: &FaultPlace<'_>,
        trail: &Trail,
        facts: &RoutineFacts<'_>,
    ) -> Result<Explanation, AllocError> {
        let origin = place_behind(self.grounds, self.checks, facts, trail);
        let story = story_behind(self.alloc, place, &origin, trail, self.rule_file)?;
        let mut scenes = Vec::new(self.alloc);
        self.push_scenes(&mut scenes, place, &origin, &story)?;
        self.explanation(row, scenes, &story)
    }

    // The explanation of a fault behind which `trail` leads to another place.
    fn explain_behind(
        &self,
        row: &Row,
        place: &FaultPlace<'_>,
        trail: &Trail,
    ) -> Result<Explanation, AllocError> {
        let routine = trail.origin.entry.routine();
        let facts = RoutineFacts::of(self.alloc, self.grounds, routine)?;
        self.explain_from(row, place, trail, &facts)
    }

    fn explain_alone(&self, row: &Row, place: &FaultPlace<'_>) -> Result<Explanation, AllocError> {
        let story = story_of(self.alloc, place, self.rule_file)?;
        let mut scene = Vec::new(self.alloc);
        push_scene(&mut scene, place, &story)?;
        self.explanation(row, scene, &story)
    }

    // The explanation of a row; `None` if its routine was not looked up.
    fn explanation_of(&self, row: &Row, note: &Note) -> Result<Option<Explanation>, AllocError> {
        let Some(facts) = self.routine.as_ref() else {
            return Ok(None);
        };
        let place = FaultPlace::of(self.grounds, self.checks, facts, row, note);
        match trail_behind(self.alloc, &place)? {
            Some(trail) => Ok(Some(self.explain_behind(row, &place, &trail)?)),
            None => Ok(Some(self.explain_alone(row, &place)?)),
        }
    }

    // The story of a fault behind which `trail` leads to a place in the routine of `facts`.
    fn story_from(
        &self,
        place: &FaultPlace<'_>,
        trail: &Trail,
        facts: &RoutineFacts<'_>,
    ) -> Result<Story, AllocError> {
        let origin = place_behind(self.grounds, self.checks, facts, trail);
        story_behind(self.alloc, place, &origin, trail, self.rule_file)
    }

    // The story of a fault behind which `trail` leads to another place.
    fn story_behind(&self, place: &FaultPlace<'_>, trail: &Trail) -> Result<Story, AllocError> {
        let routine = trail.origin.entry.routine();
        let facts = RoutineFacts::of(self.alloc, self.grounds, routine)?;
        self.story_from(place, trail, &facts)
    }

    // The story of a row; `None` if its routine was not looked up.
    fn story_at(&self, row: &Row, note: &Note) -> Result<Option<Story>, AllocError> {
        let Some(facts) = self.routine.as_ref() else {
            return Ok(None);
        };
        let place = FaultPlace::of(self.grounds, self.checks, facts, row, note);
        match trail_behind(self.alloc, &place)? {
            Some(trail) => Ok(Some(self.story_behind(&place, &trail)?)),
            None => Ok(Some(story_of(self.alloc, &place, self.rule_file)?)),
        }
    }

    /// The story of a row; `None` if its routine can't be looked up.
    pub(crate) fn story(&mut self, row: &Row, note: &Note) -> Result<Option<Story>, AllocError> {
        self.look_up(row.entry.routine())?;
        self.story_at(row, note)
    }

    // Appends the explanation of a row, unless its cause has one. Whether it did.
    fn explain(&mut self, text: &mut Vec<u8>, row: &Row, note: &Note) -> Result<bool, AllocError> {
        self.look_up(row.entry.routine())?;
        let Some(explanation) = self.explanation_of(row, note)? else {
            return Ok(false);
        };
        let Explanation { text: said, cause } = explanation;
        if !self.causes.insert(cause)? {
            return Ok(false);
        }
        text.extend_from_slice(said.as_slice())?;
        Ok(true)
    }

    /// Appends a row, and its explanation unless its cause has one.
    pub(crate) fn push_row(
        &mut self,
        text: &mut Vec<u8>,
        row: &Row,
        note: &Note,
    ) -> Result<(), AllocError> {
        push_heading(text, self.grounds.program, row)?;
        if self.explain(text, row, note)? {
            return Ok(());
        }
        let margin = Bytes(margin_of(row.fault.line));
        push_all(text, &[margin, Words("= explained above\n")])
    }
}
