// The readers of subscripts and terms.

ghost use Rattle.std.specs.Prelude.{◌≡◌, IfOk, true};
ghost use Rattle.mlk_text.specs.Failures.{Reads};
ghost use Rattle.mlk_cert_lexemes.specs.Texts.{subs_text};
ghost use Rattle.mlk_cert_lexemes.specs.Reading.{symbol_at, subs_at, term_at};

use crate::lexeme::{constant, is_below, is_upto};
use crate::list::{Item, items};
use mlk_names::{KnownSym, LockTerm, TermSubs};
use mlk_text::lexeme::byte_of;
use mlk_text::spelling::{name, root};
use mlk_text::{Failure, Name, NotThere, Subscripts};
use std::alloc::Global;

#[tactic(auto, unfolding(crate::specs::Reading::symbol_at))]
fn symbol(alloc: Global, bytes: &[u8]) -> Result<(KnownSym, &[u8]), Failure<NotThere>>
    ensures { Reads (λ x. (x.0, x.1.now)) result (symbol_at bytes.now) }
{
    if byte_of(b'"', bytes).is_some() {
        let (value, rest) = constant(alloc, bytes)?;
        return Ok((KnownSym::Const(value), rest));
    }
    if let Some(rest) = byte_of(b'$', bytes) {
        let Some(rest) = byte_of(b'J', rest) else {
            return Err(Failure::Refused(NotThere));
        };
        return Ok((KnownSym::Job, rest));
    }
    let (local, rest) = name(alloc, bytes)?;
    Ok((KnownSym::Local(local), rest))
}

impl Item for KnownSym {
    ghost use Rattle.std.specs.Prelude.{true};
    ghost use Rattle.mlk_cert_lexemes.specs.Reading.{symbol_at};

    ghost reads = { symbol_at };

    ghost before = { λ _ _. true };

    fn read(alloc: Global, bytes: &[u8]) -> Result<(KnownSym, &[u8]), Failure<NotThere>> {
        symbol(alloc, bytes)
    }

    fn is_before(&self, _text: &[u8], _next: &KnownSym, _next_text: &[u8]) -> bool {
        true
    }
}

#[tactic(auto, unfolding(crate::specs::Reading::subs_at))]
fn subs(alloc: Global, bytes: &[u8]) -> Result<(TermSubs, &[u8]), Failure<NotThere>>
    ensures { Reads (λ x. (x.0, x.1.now)) result (subs_at bytes.now) }
{
    let Some(rest) = byte_of(b'(', bytes) else {
        return Ok((Subscripts::new(alloc), bytes));
    };
    let (found, _, rest) = items::<KnownSym>(alloc, b',', rest)?;
    let Some(rest) = byte_of(b')', rest) else {
        return Err(Failure::Refused(NotThere));
    };
    Ok((Subscripts::of(found), rest))
}

#[tactic(auto, unfolding(crate::specs::Reading::term_at))]
fn term(alloc: Global, bytes: &[u8]) -> Result<(LockTerm, &[u8]), Failure<NotThere>>
    ensures { Reads (λ x. (x.0, x.1.now)) result (term_at bytes.now) }
{
    let (root, rest) = root(alloc, bytes)?;
    let (subs, rest) = subs(alloc, rest)?;
    Ok((LockTerm { root, subs }, rest))
}

impl Item for LockTerm {
    ghost use Rattle.mlk_cert_lexemes.specs.Kinds.{terms_upto};
    ghost use Rattle.mlk_cert_lexemes.specs.Reading.{term_at};

    ghost reads = { term_at };

    ghost before = { terms_upto };

    fn read(alloc: Global, bytes: &[u8]) -> Result<(LockTerm, &[u8]), Failure<NotThere>> {
        term(alloc, bytes)
    }

    fn is_before(&self, text: &[u8], _next: &LockTerm, next_text: &[u8]) -> bool {
        is_upto(text, next_text)
    }
}

impl Item for Name {
    ghost use Rattle.mlk_text.specs.Lexemes.{name_at};
    ghost use Rattle.mlk_cert_lexemes.specs.Lists.{below};

    ghost reads = { name_at };

    ghost before = { below };

    fn read(alloc: Global, bytes: &[u8]) -> Result<(Name, &[u8]), Failure<NotThere>> {
        name(alloc, bytes)
    }

    fn is_before(&self, text: &[u8], _next: &Name, next_text: &[u8]) -> bool {
        is_below(text, next_text)
    }
}
