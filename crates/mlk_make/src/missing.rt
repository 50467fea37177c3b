// Declared entries that a program does not have.

ghost use Rattle.std.specs.Prelude.{◌≡◌, option_map, find, map};
ghost use Rattle.mlk_syntax.specs.Views.{routine_of};
ghost use Rattle.mlk_make.specs.Missing.{is_missing};

use mlk_program::Program;
use mlk_text::Value;

/// The first of `texts` that names no entry of `program`. Allocates nothing.
pub(crate) fn first_missing<'a>(program: &Program<'_>, texts: &'a [Value]) -> Option<&'a [u8]>
    ensures { option_map (λ t. t.now) result ≡ find (is_missing (map routine_of program.now)) texts.now }
{
    let mut left = texts;
    while let Some((text, others)) = left.split_first() {
        if program.entry(text.as_bytes()).is_none() {
            return Some(text.as_bytes());
        }
        left = others;
    }
    None
}
