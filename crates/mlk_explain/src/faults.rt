// Faults with what explains them.

use crate::explanation::Explainer;
use crate::story::Story;
use mlk_calls::Entries;
use mlk_explain_origins::Grounds;
use mlk_explain_rules::RuleFile;
use mlk_walk::{Checks, Report, Row};
use mlk_walk_exprs::Note;
use std::alloc::{AllocError, Global};

/// How faults are explained.
#[derive(Clone, Copy, Drop, PartialEq, Eq)]
pub enum ExplainedAs {
    Text,
    /// in pieces
    Stories,
}

/// Faults, each with what explains it.
#[derive(Drop)]
pub struct ExplainedFaults {
    form: ExplainedAs,
    rows: Vec<Row>,
    stories: Vec<Option<Story>>,
    text: Vec<u8>,
}

// The numbers of all rows of `report`.
pub(crate) fn all_numbers(alloc: Global, report: &Report) -> Result<Vec<usize>, AllocError> {
    let mut numbers = Vec::with_capacity(alloc, report.rows().len())?;
    for (number, _) in report.rows().iter().enumerate() {
        numbers.push(number)?;
    }
    Ok(numbers)
}

// Adds a row with its explanation in the form that is asked for.
fn add_row(
    faults: &mut ExplainedFaults,
    explainer: &mut Explainer<'_>,
    row: &Row,
    note: &Note,
) -> Result<(), AllocError> {
    faults.rows.push(*row)?;
    match faults.form {
        ExplainedAs::Text => explainer.push_row(&mut faults.text, row, note),
        ExplainedAs::Stories => {
            faults.stories.push(explainer.story(row, note)?)?;
            Ok(())
        }
    }
}

impl ExplainedFaults {
    /// No faults. Those that are added will be explained in this form.
    pub fn new(alloc: Global, form: ExplainedAs) -> ExplainedFaults {
        ExplainedFaults {
            form,
            rows: Vec::new(alloc),
            stories: Vec::new(alloc),
            text: Vec::new(alloc),
        }
    }

    /// The rows of `report` with these numbers, explained by `grounds` in the `form` that is asked for.
    pub(crate) fn of(
        alloc: Global,
        form: ExplainedAs,
        grounds: &Grounds<'_>,
        report: &Report,
        numbers: &[usize],
    ) -> Result<ExplainedFaults, AllocError> {
        let blocks = grounds.certificate.blocks();
        let entries = Entries::of(alloc, grounds.program, grounds.rules, blocks)?;
        let checks = Checks {
            program: grounds.program,
            rules: grounds.rules,
            entries: &entries,
        };
        let mut faults = ExplainedFaults::new(alloc, form);
        faults.add(alloc, grounds, &checks, report, numbers)?;
        Ok(faults)
    }

    /// All rows of `report`, in their order, explained by `grounds` in the `form` that is asked for.
    pub fn of_report(
        alloc: Global,
        form: ExplainedAs,
        grounds: &Grounds<'_>,
        report: &Report,
    ) -> Result<ExplainedFaults, AllocError> {
        let numbers = all_numbers(alloc, report)?;
        ExplainedFaults::of(alloc, form, grounds, report, numbers.as_slice())
    }

    /// The faults, in the order in which they were found.
    pub fn rows(&self) -> &[Row] {
        self.rows.as_slice()
    }

    /// What is known of the fault with this number, if the faults are explained in pieces.
    pub fn story(&self, number: usize) -> Option<&Story> {
        match self.stories.get(number) {
            Some(story) => story.as_ref(),
            None => None,
        }
    }

    /// The faults with their explanations, if they are explained as a text; else empty.
    pub fn text(&self) -> &[u8] {
        self.text.as_slice()
    }

    /// Adds the rows of `report` with these numbers, explained by `grounds`.
    pub fn add(
        &mut self,
        alloc: Global,
        grounds: &Grounds<'_>,
        checks: &Checks<'_>,
        report: &Report,
        numbers: &[usize],
    ) -> Result<(), AllocError> {
        if numbers.is_empty() {
            return Ok(());
        }
        let rule_file = RuleFile::of(alloc, grounds.rule_text)?;
        let mut explainer = Explainer::new(alloc, grounds, checks, &rule_file);
        let (rows, notes) = (report.rows(), report.notes());
        for number in numbers {
            if let (Some(row), Some(note)) = (rows.get(*number), notes.get(*number)) {
                add_row(self, &mut explainer, row, note)?;
            }
        }
        Ok(())
    }

    /// The text of the faults with their explanations.
    pub(crate) fn into_text(self) -> Vec<u8> {
        self.text
    }

    /// What is known of each fault.
    pub(crate) fn into_stories(self) -> Vec<Option<Story>> {
        self.stories
    }
}
