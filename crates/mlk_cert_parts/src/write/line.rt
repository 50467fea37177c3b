// The writers of terms, names and cases.

ghost use Rattle.std.specs.Prelude.{◌≡◌, ◌++◌, ◌∷◌, ◌<◌, OnOk, codes};
ghost use Rattle.mlk_cert_lexemes.specs.Texts.{listed, hex, byte_text, constant_text, symbol_text, subs_text, term_text, name_text};
ghost use Rattle.mlk_cert_parts.specs.Texts.{names_text, own_text, sign, sign_text, saved_text, case_text, exit_text};

use crate::case::{Case, ExitCase, Test};
use crate::names::{NameSet, Own};
use mlk_cert_lexemes::{Written, WrittenText, push_flat, push_joined, push_listed};
use mlk_names::LockTerm;
use mlk_text::Name;
use std::alloc::AllocError;

impl Written for NameSet {
    ghost use Rattle.mlk_cert_parts.specs.Texts.{names_text};

    ghost written = { names_text };

    fn push_to(&self, text: &mut WrittenText) -> Result<(), AllocError> {
        match self {
            NameSet::Only(name) => text.push(name.as_bytes()),
            NameSet::AllBut(names) => {
                text.push(b"~(")?;
                push_joined(text, b',', names.as_slice())?;
                text.push(b")")
            }
        }
    }
}

impl Written for Own {
    ghost use Rattle.mlk_cert_parts.specs.Texts.{own_text};

    ghost written = { own_text };

    fn push_to(&self, text: &mut WrittenText) -> Result<(), AllocError> {
        text.push_number(self.level)?;
        text.push_byte(b':')?;
        self.names.push_to(text)?;
        Ok(())
    }
}

fn sign(test: Test) -> u8
    ensures { result ≡ sign test }
{
    match test {
        Test::Any => b'*',
        Test::Zero => b'0',
        Test::One => b'1',
    }
}

impl Written for Test {
    ghost use Rattle.mlk_cert_parts.specs.Texts.{sign_text};

    ghost written = { sign_text };

    fn push_to(&self, text: &mut WrittenText) -> Result<(), AllocError> {
        text.push_byte(sign(*self))
    }
}

fn push_saved(text: &mut WrittenText, tests: &[Test]) -> Result<(), AllocError>
    ensures { OnOk result (text.new ≡ text.old ++ saved_text tests.now) }
{
    let Some((first, others)) = tests.split_first() else {
        text.push(b"-")?;
        return Ok(());
    };
    text.push_byte(sign(*first))?;
    push_flat(text, others)?;
    Ok(())
}

// Appends what is known of `$TEST`, and the held locks.
fn push_front(text: &mut WrittenText, test: Test, held: &[LockTerm]) -> Result<(), AllocError>
    ensures { OnOk result (text.new ≡ text.old ++ (codes "T=" ++ (sign test ∷
        (codes " H=" ++ listed term_text held.now)))) }
{
    text.push(b"T=")?;
    text.push_byte(sign(test))?;
    text.push(b" H=")?;
    push_listed(text, held)?;
    Ok(())
}

/// Appends the case of an exit.
pub(crate) fn push_exit(text: &mut WrittenText, exit: &ExitCase) -> Result<(), AllocError>
    ensures { OnOk result (text.new ≡ text.old ++ exit_text exit.now) }
{
    push_front(text, exit.test, exit.held.as_slice())?;
    text.push(b" K=")?;
    push_listed(text, exit.kept.as_slice())?;
    Ok(())
}

// Appends own and kept names.
fn push_names(text: &mut WrittenText, own: &[Own], kept: &[Name]) -> Result<(), AllocError>
    ensures { OnOk result (text.new ≡ text.old ++ (codes " O=" ++ (listed own_text own.now ++
        (codes " K=" ++ listed name_text kept.now)))) }
{
    text.push(b" O=")?;
    push_listed(text, own)?;
    text.push(b" K=")?;
    push_listed(text, kept)?;
    Ok(())
}

/// Appends a case.
pub fn push_case(text: &mut WrittenText, case: &Case) -> Result<(), AllocError>
    ensures { OnOk result (text.new ≡ text.old ++ case_text case.now) }
{
    push_front(text, case.test, case.held.as_slice())?;
    push_names(text, case.own.as_slice(), case.kept.as_slice())?;
    text.push(b" S=")?;
    push_saved(text, case.saved.as_slice())?;
    Ok(())
}

impl Written for Case {
    ghost use Rattle.mlk_cert_parts.specs.Texts.{case_text};

    ghost written = { case_text };

    fn push_to(&self, text: &mut WrittenText) -> Result<(), AllocError> {
        push_case(text, self)
    }
}
