// Entry texts that do not name an entry of a program.

ghost use Rattle.std.specs.Prelude.{◌≡◌, option_map, find, map};
ghost use Rattle.mlk_syntax.specs.Views.{routine_of};
ghost use Rattle.mlk_walk.specs.Reports.{is_missing, block_text, missing};

use mlk_cert_parts::{Certificate, EntryCert};
use mlk_program::Program;
use mlk_rules::{Rules, entries};
use mlk_text::Value;

fn first_missing<'a>(program: &Program<'_>, texts: &'a [Value]) -> Option<&'a [u8]>
    ensures { option_map (λ t. t.now) result ≡ find (is_missing (map routine_of program.now)) texts.now }
{
    let mut left = texts;
    while let Some((text, others)) = left.split_first() {
        if program.entry(text.as_bytes()).is_none() {
            return Some(text.as_bytes());
        }
        left = others;
    }
    None
}

fn first_missing_block<'a>(program: &Program<'_>, blocks: &'a [EntryCert]) -> Option<&'a [u8]>
    ensures { option_map (λ t. t.now) result
        ≡ find (is_missing (map routine_of program.now)) (map block_text blocks.now) }
{
    let mut left = blocks;
    while let Some((block, others)) = left.split_first() {
        if program.entry(block.entry.as_bytes()).is_none() {
            return Some(block.entry.as_bytes());
        }
        left = others;
    }
    None
}

/// The first entry text that does not name an entry of the program: one of the rules, otherwise one of the certificate; `None`
/// if there is none. Allocates nothing.
pub fn missing_entry<'a>(
    program: &Program<'_>,
    rules: &'a Rules,
    certificate: &'a Certificate,
) -> Option<&'a [u8]>
    ensures { option_map (λ t. t.now) result ≡ missing (map routine_of program.now) rules.now certificate.now }
{
    if let Some(text) = first_missing(program, entries(rules)) {
        return Some(text);
    }
    first_missing_block(program, certificate.blocks())
}
