// Truth values of texts.

ghost use Rattle.std.specs.Prelude.{◌≡◌};
ghost use Rattle.mlk_numbers.specs.Operators.{truth_of_text};

use mlk_text::Value;

/// The truth value of `text`, or `None` if it is not known.
pub fn known_truth(text: &Value) -> Option<bool>
    ensures { result ≡ truth_of_text text.now }
{
    match text.as_bytes() {
        b"0" => Some(false),
        b"1" => Some(true),
        _ => None,
    }
}
