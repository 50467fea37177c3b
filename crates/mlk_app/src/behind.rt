// What is found behind the faults of a report.

use crate::stuck::{WORKERS, none_if_refused};
use mlk_behind::{KnownFaults, Patch, mended_texts, next_round};
use mlk_calls::Entries;
use mlk_cli::{Output, ReportStyle};
use mlk_explain::{ExplainedAs, ExplainedFaults, Grounds};
use mlk_files::{Sources, read_in};
use mlk_make::make_certificate;
use mlk_outcome::OpenGate;
use mlk_pool::report_by;
use mlk_program::{Program, link};
use mlk_reading::{Source, read_routines};
use mlk_syntax::Routine;
use mlk_walk::{Checks, Report};
use mlk_watch::{Runner, Watch};
use std::alloc::{AllocError, Global};
use std::sync::Wait;
use std::thread::Threads;

// How often faults are mended at most, each time all that were found.
const MOST_ROUNDS: usize = 16;

// Looks for what is behind the faults of a report: its routines are mended at these faults, as far as a text can be, and checked
// again by a certificate that is made of them; and so on with the faults that are found then.
#[derive(Drop)]
struct Search<'a> {
    alloc: Global,
    sources: &'a Sources<'a>,
    // what explains the report that was given
    grounds: &'a Grounds<'a>,
    known: KnownFaults,
    behind: ExplainedFaults,
}

// In which form faults are explained in this style.
fn form_in(style: ReportStyle) -> ExplainedAs {
    match style.output {
        Output::Text | Output::Lines => ExplainedAs::Text,
        Output::Json | Output::Sarif => ExplainedAs::Stories,
    }
}

/// Whether a report in this style says more than its faults.
pub(crate) fn is_explained(style: ReportStyle) -> bool {
    match style.output {
        Output::Text | Output::Lines => style.is_explained,
        Output::Json | Output::Sarif => true,
    }
}

// The routines with these texts.
fn sources_with<'a>(
    alloc: Global,
    sources: &Sources<'a>,
    texts: &[Vec<u8>],
) -> Result<Vec<Source<'a>>, AllocError> {
    let mut mended = Vec::with_capacity(alloc, texts.len())?;
    for (source, text) in sources.routines.iter().zip(texts) {
        let text = Vec::from_slice(alloc, text.as_slice())?;
        let copy = Source {
            dialect: source.dialect,
            stem: source.stem,
            text,
        };
        let Ok(()) = mended.push(copy) else {
            return Err(AllocError);
        };
    }
    Ok(mended)
}

impl<'a> Search<'a> {
    // One that has found nothing. What it finds is explained as a report in this style is.
    fn new(
        alloc: Global,
        sources: &'a Sources<'a>,
        grounds: &'a Grounds<'a>,
        style: ReportStyle,
    ) -> Search<'a> {
        Search {
            alloc,
            sources,
            grounds,
            known: KnownFaults::new(alloc),
            behind: ExplainedFaults::new(alloc, form_in(style)),
        }
    }

    // What mends the faults of a report, where `given` is what is known of the entries by the report that was given. The faults are
    // known from then on, and those that are new are explained, unless the report is the given one.
    fn learn(
        &mut self,
        given: &Entries<'_>,
        grounds: &Grounds<'_>,
        report: &Report,
        is_given: bool,
    ) -> Result<Vec<Patch>, AllocError> {
        let blocks = grounds.certificate.blocks();
        let entries = Entries::of(self.alloc, grounds.program, grounds.rules, blocks)?;
        let checks = Checks {
            program: grounds.program,
            rules: grounds.rules,
            entries: &entries,
        };
        let round = next_round(self.alloc, grounds, &checks, given, report, &mut self.known)?;
        if !is_given {
            let shown = Grounds {
                texts: self.grounds.texts,
                ..*grounds
            };
            let new = round.new.as_slice();
            self.behind.add(self.alloc, &shown, &checks, report, new)?;
        }
        Ok(round.patches)
    }

    // Checks a program whose routines have these texts: what mends the faults that are found. Nothing does if no certificate can be
    // made of it.
    fn check<R: Threads + Wait + Sync, W: Watch>(
        &mut self,
        runner: &Runner<'_, R, W>,
        given: &Entries<'_>,
        program: &Program<'_>,
        texts: &[Vec<u8>],
    ) -> Result<Vec<Patch>, AllocError> {
        let (alloc, rules) = (self.alloc, self.grounds.rules);
        let made = make_certificate(alloc, program, rules, runner.watch);
        let Some(certificate) = none_if_refused(made)? else {
            return Ok(Vec::new(alloc));
        };
        let report = report_by(runner, program, rules, &certificate, WORKERS, &OpenGate);
        let Some(report) = none_if_refused(report)? else {
            return Ok(Vec::new(alloc));
        };
        let grounds = Grounds {
            program,
            texts,
            rules,
            rule_text: self.grounds.rule_text,
            certificate: &certificate,
            is_made: true,
        };
        self.learn(given, &grounds, &report, false)
    }

    // Links routines with these texts, and checks them.
    fn link<R: Threads + Wait + Sync, W: Watch>(
        &mut self,
        runner: &Runner<'_, R, W>,
        given: &Entries<'_>,
        routines: &[Routine],
        texts: &[Vec<u8>],
    ) -> Result<Vec<Patch>, AllocError> {
        match none_if_refused(link(self.alloc, routines))? {
            Some(program) => self.check(runner, given, &program, texts),
            None => Ok(Vec::new(self.alloc)),
        }
    }

    // Reads routines with these texts, and checks them.
    fn read<R: Threads + Wait + Sync, W: Watch>(
        &mut self,
        runner: &Runner<'_, R, W>,
        given: &Entries<'_>,
        texts: &[Vec<u8>],
    ) -> Result<Vec<Patch>, AllocError> {
        let mended = sources_with(self.alloc, self.sources, texts)?;
        let sources = read_in(self.alloc, self.sources.dialect(), mended)?;
        match none_if_refused(read_routines(runner, sources.as_slice()))? {
            Some(routines) => self.link(runner, given, routines.as_slice(), texts),
            None => Ok(Vec::new(self.alloc)),
        }
    }

    // Looks behind the faults that these patches mend, and behind those that are found then.
    fn look_behind<R: Threads + Wait + Sync, W: Watch>(
        &mut self,
        runner: &Runner<'_, R, W>,
        given: &Entries<'_>,
        patches: &[Patch],
    ) -> Result<(), AllocError> {
        let mut texts = mended_texts(self.alloc, self.grounds.texts, patches)?;
        for _ in 0..MOST_ROUNDS {
            let patches = self.read(runner, given, texts.as_slice())?;
            if patches.is_empty() {
                break;
            }
            texts = mended_texts(self.alloc, texts.as_slice(), patches.as_slice())?;
        }
        Ok(())
    }

    // Finds the faults behind those of `report`, if a report in this style explains its faults.
    fn run<R: Threads + Wait + Sync, W: Watch>(
        self,
        runner: &Runner<'_, R, W>,
        report: &Report,
        style: ReportStyle,
    ) -> Result<ExplainedFaults, AllocError> {
        let mut search = self;
        if !is_explained(style) || report.is_yes() {
            return Ok(search.behind);
        }
        let grounds = search.grounds;
        let blocks = grounds.certificate.blocks();
        let given = Entries::of(search.alloc, grounds.program, grounds.rules, blocks)?;
        let patches = search.learn(&given, grounds, report, true)?;
        // The certificate that was given may be at fault itself.
        if !patches.is_empty() || !grounds.is_made {
            search.look_behind(runner, &given, patches.as_slice())?;
        }
        Ok(search.behind)
    }
}

/// What is behind the faults of `report`, if a report in this style explains its faults. Nothing is looked for if they are compared
/// with known faults: only new ones are of interest then, and most faults behind others are behind known ones.
pub(crate) fn find_behind<'a, R: Threads + Wait + Sync, W: Watch>(
    runner: &Runner<'_, R, W>,
    sources: &'a Sources<'a>,
    grounds: &'a Grounds<'a>,
    report: &Report,
    style: ReportStyle,
    is_compared: bool,
) -> Result<ExplainedFaults, AllocError> {
    let search = Search::new(runner.alloc, sources, grounds, style);
    if is_compared {
        return Ok(search.behind);
    }
    search.run(runner, report, style)
}
