// Runs of bytes of one class.

ghost use Rattle.std.specs.Prelude.{◌≡◌, ◌≤◌, length};
ghost use Rattle.std.specs.List.{prefix_len};
ghost use Rattle.mlk_text.specs.Lexemes.{is_text_byte};
ghost use Rattle.mlk_routine_arguments.specs.PartsRead.{Found};
ghost use Rattle.mlk_routine_arguments.specs.Ends.{IsRun, RunEnds};
ghost use Rattle.mlk_routine_arguments.specs.CommandGrammar.{is_mark, is_space};

use mlk_text::lexeme::is_text_byte;

// The number of spaces at the front of `bytes`.
fn spaces(bytes: &[u8]) -> usize
    ensures value { result ≡ prefix_len is_space bytes.now }
    ensures within { result ≤ length bytes.now }
{
    bytes.iter().take_while(|b| **b == b' ').count()
}

/// The byte after the spaces at `at`.
pub fn past_spaces(line: &[u8], at: usize) -> usize
    requires { at ≤ length line.now }
    ensures { Found (IsRun is_space) (RunEnds is_space) line.now at tt result }
{
    let (_, bytes) = line.split_at(at);
    at + spaces(bytes)
}

// The number of `!` and `#` at the front of `bytes`.
fn marks(bytes: &[u8]) -> usize
    ensures value { result ≡ prefix_len is_mark bytes.now }
    ensures within { result ≤ length bytes.now }
{
    bytes
        .iter()
        .take_while(|b| **b == b'!' || **b == b'#')
        .count()
}

/// The byte after the `!` and `#` at `at`.
pub(crate) fn past_marks(line: &[u8], at: usize) -> usize
    requires { at ≤ length line.now }
    ensures { Found (IsRun is_mark) (RunEnds is_mark) line.now at tt result }
{
    let (_, bytes) = line.split_at(at);
    at + marks(bytes)
}

/// The number of bytes at the front of `bytes` that are allowed in comments and quoted texts.
pub fn text_bytes(bytes: &[u8]) -> usize
    ensures value { result ≡ prefix_len is_text_byte bytes.now }
    ensures within { result ≤ length bytes.now }
{
    bytes.iter().take_while(|b| is_text_byte(**b)).count()
}
