// The writers of values, names, subscripts, roots and terms.

ghost use Rattle.std.specs.Prelude.{◌≡◌, ◌++◌, ◌<◌, OnOk};
ghost use Rattle.mlk_cert_lexemes.specs.Texts.{hex, byte_text, constant_text, subs_text};

use crate::lexeme::is_plain;
use crate::text::WrittenText;
use crate::written::{Written, push_more};
use mlk_names::{KnownSym, LockTerm, Root};
use mlk_text::{Name, Value};
use std::alloc::AllocError;

fn hex(digit: u8) -> u8
    requires { digit < 16 }
    ensures { result ≡ hex digit }
{
    if digit < 10 {
        digit + b'0'
    } else {
        digit - 10 + b'a'
    }
}

#[tactic(auto, unfolding(crate::specs::Texts::byte_text))]
fn push_value_byte(text: &mut WrittenText, byte: u8) -> Result<(), AllocError>
    ensures { OnOk result (text.new ≡ text.old ++ byte_text byte) }
{
    if is_plain(byte) {
        text.push_byte(byte)?;
        return Ok(());
    }
    if byte == b'"' {
        text.push(b"\"\"")?;
        return Ok(());
    }
    let coded = [b'\\', hex(byte / 16), hex(byte % 16)];
    text.push(&coded)?;
    Ok(())
}

fn push_value(text: &mut WrittenText, value: &[u8]) -> Result<(), AllocError>
    ensures { OnOk result (text.new ≡ text.old ++ constant_text value.now) }
{
    text.push_byte(b'"')?;
    for byte in value {
        push_value_byte(text, *byte)?;
    }
    text.push_byte(b'"')?;
    Ok(())
}

impl Written for Value {
    ghost use Rattle.mlk_cert_lexemes.specs.Texts.{constant_text};

    ghost written = { constant_text };

    fn push_to(&self, text: &mut WrittenText) -> Result<(), AllocError> {
        push_value(text, self.as_bytes())
    }
}

impl Written for Name {
    ghost use Rattle.mlk_cert_lexemes.specs.Texts.{name_text};

    ghost written = { name_text };

    fn push_to(&self, text: &mut WrittenText) -> Result<(), AllocError> {
        text.push(self.as_bytes())
    }
}

impl Written for KnownSym {
    ghost use Rattle.mlk_cert_lexemes.specs.Texts.{symbol_text};

    ghost written = { symbol_text };

    fn push_to(&self, text: &mut WrittenText) -> Result<(), AllocError> {
        match self {
            KnownSym::Const(value) => value.push_to(text),
            KnownSym::Local(name) => text.push(name.as_bytes()),
            KnownSym::Job => text.push(b"$J"),
        }
    }
}

impl Written for Root {
    ghost use Rattle.mlk_cert_lexemes.specs.Texts.{root_text};

    ghost written = { root_text };

    fn push_to(&self, text: &mut WrittenText) -> Result<(), AllocError> {
        match self {
            Root::Global(name) => {
                text.push_byte(b'^')?;
                text.push(name.as_bytes())
            }
            Root::Local(name) => text.push(name.as_bytes()),
        }
    }
}

fn push_subs(text: &mut WrittenText, subs: &[KnownSym]) -> Result<(), AllocError>
    ensures { OnOk result (text.new ≡ text.old ++ subs_text subs.now) }
{
    let Some((first, others)) = subs.split_first() else {
        return Ok(());
    };
    text.push_byte(b'(')?;
    first.push_to(text)?;
    push_more(text, b',', others)?;
    text.push_byte(b')')?;
    Ok(())
}

impl Written for LockTerm {
    ghost use Rattle.mlk_cert_lexemes.specs.Texts.{term_text};

    ghost written = { term_text };

    fn push_to(&self, text: &mut WrittenText) -> Result<(), AllocError> {
        self.root.push_to(text)?;
        push_subs(text, self.subs.as_slice())?;
        Ok(())
    }
}
