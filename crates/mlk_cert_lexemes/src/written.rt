// The writers of lists.

ghost use Rattle.std.specs.Prelude.{◌≡◌, ◌++◌, OnOk, ℕ, List};
ghost use Rattle.mlk_cert_lexemes.specs.Lists.{flat, more, joined};
ghost use Rattle.mlk_cert_lexemes.specs.Texts.{listed};

use crate::text::WrittenText;
use std::alloc::AllocError;

/// A value that has one text.
pub trait Written {
    ghost written: { Self → List ℕ };

    /// Appends the value's text to `text`.
    fn push_to(&self, text: &mut WrittenText) -> Result<(), AllocError>
        ensures { OnOk result (text.new ≡ text.old ++ written self.now) };
}

/// Appends `items`, each after the byte `between`.
pub fn push_more<T: Written>(
    text: &mut WrittenText,
    between: u8,
    items: &[T],
) -> Result<(), AllocError>
    ensures { OnOk result (text.new ≡ text.old ++ more between T.written items.now) }
{
    for item in items {
        text.push_byte(between)?;
        item.push_to(text)?;
    }
    Ok(())
}

/// Appends `items`, separated by the byte `between`.
pub fn push_joined<T: Written>(
    text: &mut WrittenText,
    between: u8,
    items: &[T],
) -> Result<(), AllocError>
    ensures { OnOk result (text.new ≡ text.old ++ joined between T.written items.now) }
{
    let Some((first, others)) = items.split_first() else {
        return Ok(());
    };
    first.push_to(text)?;
    push_more(text, between, others)?;
    Ok(())
}

/// Appends the list of a line: `items` separated by `;`, or `-` if there are none.
pub fn push_listed<T: Written>(text: &mut WrittenText, items: &[T]) -> Result<(), AllocError>
    ensures { OnOk result (text.new ≡ text.old ++ listed T.written items.now) }
{
    let Some((first, others)) = items.split_first() else {
        text.push(b"-")?;
        return Ok(());
    };
    first.push_to(text)?;
    push_more(text, b';', others)?;
    Ok(())
}

/// Appends `items`, one after another.
pub fn push_flat<T: Written>(text: &mut WrittenText, items: &[T]) -> Result<(), AllocError>
    ensures { OnOk result (text.new ≡ text.old ++ flat T.written items.now) }
{
    for item in items {
        item.push_to(text)?;
    }
    Ok(())
}
