// The label at the front of a line.

ghost use Rattle.std.specs.Prelude.{◌≡◌};
ghost use Rattle.mlk_routine_arguments.specs.PartsRead.{ReadsPart};
ghost use Rattle.mlk_routine_arguments.specs.Ends.{starts};
ghost use Rattle.mlk_routine.specs.Lines.{is_label_byte, IsLabelPart, LabelPartEnds};

use mlk_expr::read_label;
use mlk_routine_arguments::other_form;
use mlk_text::lexeme::{is_digit, is_letter};
use mlk_text::{Code, Failure, Fault, Name};
use std::alloc::Global;

// Whether a line begins with a label.
fn starts_label(line: &[u8]) -> bool
    ensures { result ≡ starts is_label_byte line.now }
{
    match line.split_first() {
        Some((first, _)) => is_letter(*first) || is_digit(*first) || *first == b'%',
        None => false,
    }
}

/// Reads the label at the front of a line, if there is one: the label, and the byte after it.
pub(crate) fn label(alloc: Global, line: &[u8]) -> Result<(Option<Name>, usize), Failure<Fault>>
    ensures { ReadsPart (λ l. l) IsLabelPart LabelPartEnds line.now 0 result }
{
    if !starts_label(line) {
        return Ok((None, 0));
    }
    match read_label(alloc, line, 0) {
        Ok((label, next)) => Ok((Some(label), next)),
        Err(Failure::OutOfMemory) => Err(Failure::OutOfMemory),
        Err(Failure::Refused(fault)) => Err(other_form(Code::LineForm, fault)),
    }
}
