// Suggested rules: what is answered if rules are to be read off the code of routines.

ghost use Rattle.std.specs.Prelude.{◌≡◌, ◌∷◌, IfOk, []};
ghost use Rattle.mlk_cli.specs.declared.words.Request.TheVariants as wanted;
ghost use Rattle.mlk_suggest_text.specs.RuleTexts.{IsRuleText};
ghost use Rattle.mlk_files.specs.Files.{given_path};
ghost use Rattle.mlk_app.specs.Ran.{TellsRules, PrintsRules, SuggestsFor, Answers};

use crate::answer::{Answer, YES};
use crate::help::{Explaining, rule_file_help};
use crate::program::unread_answer;
use mlk_cli::SuggestRequest;
use mlk_dialect::Dialect;
use mlk_files::{FileError, Files, read_file, read_in, read_sources, routine_texts};
use mlk_plain_report::ReportText;
use mlk_reading::Source;
use mlk_refusal_lines::rules_line;
use mlk_rules_file::{RulesFault, read_rules};
use mlk_suggest_text::{KnownRules, RuleText, suggested_rules};
use mlk_text::Failure;
use std::alloc::{AllocError, Global};

// The rule file that is suggested for `sources`, without what `known` has rules for.
fn rules_for<'s>(
    alloc: Global,
    sources: &'s [Source<'s>],
    known: KnownRules<'_>,
) -> Result<RuleText, AllocError>
    ensures { IfOk result (λ text. IsRuleText text) }
{
    let texts = routine_texts(alloc, sources)?;
    suggested_rules(alloc, texts.as_slice(), known)
}

fn suggestion_answer(
    alloc: Global,
    sources: Vec<Source<'_>>,
    dialect: Dialect,
    known: KnownRules<'_>,
) -> Answer
    ensures { PrintsRules result }
{
    let Ok(read) = read_in(alloc, dialect, sources) else {
        return Answer::OutOfMemory;
    };
    match rules_for(alloc, read.as_slice(), known) {
        Ok(text) => Answer::Report(ReportText::of(text.into_bytes()), YES),
        Err(AllocError) => Answer::OutOfMemory,
    }
}

// What is answered if the rule file at `path`, which has this text, is refused.
fn refused_rules<'a>(
    alloc: Global,
    path: &'a str,
    text: &'a [u8],
    fault: &RulesFault,
    explaining: Explaining,
) -> Answer
    ensures { TellsRules fault.now result }
{
    let Ok(help) = rule_file_help(alloc, path, text, fault, explaining) else {
        return Answer::OutOfMemory;
    };
    match rules_line(alloc, fault) {
        Ok(line) => Answer::Refused(line, None, help),
        Err(AllocError) => Answer::OutOfMemory,
    }
}

// Answers with the rules that are suggested for the routines of `suggestion`.
fn suggest_for<F: Files>(
    alloc: Global,
    suggestion: &SuggestRequest<'_>,
    known: KnownRules<'_>,
    files: &F,
    explaining: Explaining,
) -> Answer
    ensures { SuggestsFor (F.holds files.now) (F.unreadable files.now) suggestion.now.routines.items result }
{
    match read_sources(alloc, files, suggestion.routines.as_slice()) {
        Ok(sources) => suggestion_answer(alloc, sources, suggestion.dialect, known),
        Err(FileError::OutOfMemory) => Answer::OutOfMemory,
        Err(FileError::Unread(path)) => {
            unread_answer(alloc, files, path, explaining == Explaining::Refusals)
        }
    }
}

// Answers with the rules that are suggested beside those of the rule file at `path`.
fn suggest_beside<F: Files>(
    alloc: Global,
    suggestion: &SuggestRequest<'_>,
    path: &str,
    files: &F,
    explaining: Explaining,
) -> Answer
    requires { given_path suggestion.now.beside ≡ path.now ∷ [] }
    ensures { Answers (F.holds files.now) (F.unreadable files.now) (wanted.Suggest suggestion.now) result }
{
    match read_file(alloc, files, path) {
        Ok(text) => match read_rules(alloc, text.as_slice()) {
            Ok(rules) => {
                let known = KnownRules {
                    lists: Some(rules.lists()),
                };
                suggest_for(alloc, suggestion, known, files, explaining)
            }
            Err(Failure::OutOfMemory) => Answer::OutOfMemory,
            Err(Failure::Refused(fault)) => {
                refused_rules(alloc, path, text.as_slice(), &fault, explaining)
            }
        },
        Err(FileError::OutOfMemory) => Answer::OutOfMemory,
        Err(FileError::Unread(path)) => {
            unread_answer(alloc, files, path, explaining == Explaining::Refusals)
        }
    }
}

/// What is answered if rules are to be suggested, from the texts of the routines and of the rules beside them.
pub(crate) fn answer_suggestion<F: Files>(
    alloc: Global,
    suggestion: &SuggestRequest<'_>,
    files: &F,
    explaining: Explaining,
) -> Answer
    ensures { Answers (F.holds files.now) (F.unreadable files.now) (wanted.Suggest suggestion.now) result }
{
    match suggestion.beside {
        None => {
            let known = KnownRules { lists: None };
            suggest_for(alloc, suggestion, known, files, explaining)
        }
        Some(path) => suggest_beside(alloc, suggestion, path, files, explaining),
    }
}
