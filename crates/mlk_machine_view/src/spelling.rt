// Lock names, spelled as in certificates.

ghost use Rattle.std.specs.Prelude.{◌≡◌, ◌++◌, IfOk, OnOk};
ghost use Rattle.mlk_cert_lexemes.specs.Lists.{more};
ghost use Rattle.mlk_cert_lexemes.specs.Texts.{constant_text, listed};
ghost use Rattle.mlk_machine_view.specs.StateTexts.{name_text};
ghost use Rattle.mlk_machine_view.specs.Spelling.{constants_in};

use mlk_cert_lexemes::{Written, WrittenText, push_more};
use mlk_names::LockName;
use mlk_text::Value;
use std::alloc::{AllocError, Global};

/// Appends values in parentheses, separated by commas; nothing if there are none.
pub(crate) fn push_values(text: &mut WrittenText, values: &[Value]) -> Result<(), AllocError>
    ensures { OnOk result (text.new ≡ text.old ++ constants_in constant_text values.now) }
{
    let Some((first, others)) = values.split_first() else {
        return Ok(());
    };
    text.push_byte(b'(')?;
    first.push_to(text)?;
    push_more(text, b',', others)?;
    text.push_byte(b')')?;
    Ok(())
}

// Appends a lock name.
fn push_name(text: &mut WrittenText, name: &LockName) -> Result<(), AllocError>
    ensures { OnOk result (text.new ≡ text.old ++ name_text name.now) }
{
    name.root.push_to(text)?;
    push_values(text, name.subs.as_slice())?;
    Ok(())
}

/// The text of a lock name.
pub(crate) fn text_of(alloc: Global, name: &LockName) -> Result<WrittenText, AllocError>
    ensures { IfOk result (λ text. text ≡ name_text name.now) }
{
    let mut text = WrittenText::new(alloc);
    push_name(&mut text, name)?;
    Ok(text)
}

// Appends lock names, each after a semicolon.
fn push_more_names(text: &mut WrittenText, names: &[LockName]) -> Result<(), AllocError>
    ensures { OnOk result (text.new ≡ text.old ++ more 59 name_text names.now) }
{
    for name in names {
        text.push_byte(b';')?;
        push_name(text, name)?;
    }
    Ok(())
}

/// Appends lock names separated by semicolons, or `-` if there are none.
pub(crate) fn push_names(text: &mut WrittenText, names: &[LockName]) -> Result<(), AllocError>
    ensures { OnOk result (text.new ≡ text.old ++ listed name_text names.now) }
{
    let Some((first, others)) = names.split_first() else {
        text.push(b"-")?;
        return Ok(());
    };
    push_name(text, first)?;
    push_more_names(text, others)?;
    Ok(())
}
