// Lists that occur on many lines and are stored once.

ghost use Rattle.std.specs.Prelude.{◌≡◌, ◌++◌, ◌∷◌, [], IfOk, IfSome, List, Bool};
ghost use Rattle.mlk_cert.specs.Memories.{Remembers, Recalls};

use mlk_cert_lexemes::{Item, word_of};
use mlk_cert_parts::{Own, Shared, Test};
use mlk_names::LockTerm;
use mlk_text::Name;
use mlk_text::lexeme::byte_of;
use std::alloc::{AllocError, Global};
use std::marker::Model;

/// The elements of lists that are stored once: whether such a list respects its limits.
pub(crate) trait Limited: Item {
    ghost fits: { List Self → Bool };
}

impl Limited for LockTerm {
    ghost use Rattle.mlk_cert_parts.specs.Checks.{fit_terms};

    ghost fits = { fit_terms };
}

impl Limited for Own {
    ghost use Rattle.mlk_cert_parts.specs.Checks.{fit_own};

    ghost fits = { fit_own };
}

impl Limited for Name {
    ghost use Rattle.mlk_cert_parts.specs.Checks.{fit_kept};

    ghost fits = { fit_kept };
}

// A list, and its text.
#[derive(Drop)]
struct Known<'a, T> {
    list: Shared<T>,
    text: &'a [u8],
}

/// The last list that was read at a certain place of a line.
#[derive(Drop)]
pub(crate) struct Memory<'a, T: Limited> {
    last: Option<Known<'a, T>>,
}

impl<'a, T: Limited> Model for Memory<'a, T> {
    ghost use Rattle.std.specs.Prelude.{ℕ, IfSome};
    ghost use Rattle.mlk_cert.specs.Memories.{Remembers};

    ghost Value = { ℕ };

    ghost view = { λ _. 0 };

    ghost invariant = { λ m. IfSome m.last (λ k. Remembers T.reads T.fits k.list k.text.now) };
}

impl<'a, T: Limited> Memory<'a, T> {
    pub fn new() -> Memory<'a, T> {
        Memory { last: None }
    }

    /// Reads the list at the front if its text is that of the last list: the list, and the rest; otherwise `None`.
    pub fn recall<'b>(&self, bytes: &'b [u8]) -> Result<Option<(Shared<T>, &'b [u8])>, AllocError>
        ensures { IfOk result (λ o. IfSome o (λ x. Recalls T.reads T.fits bytes.now x.0 x.1.now)) }
    {
        let Some(known) = &self.last else {
            return Ok(None);
        };
        let Some(rest) = word_of(known.text, bytes) else {
            return Ok(None);
        };
        let Some(_) = byte_of(b' ', rest) else {
            return Ok(None);
        };
        Ok(Some((known.list.clone()?, rest)))
    }

    /// Stores a list and its text.
    pub fn note(&mut self, list: Shared<T>, text: &'a [u8])
        requires { Remembers T.reads T.fits list text.now }
    {
        self.last = Some(Known { list, text });
    }
}

/// The empty list of saved tests, which most cases have, allocated once.
#[derive(Drop)]
pub(crate) struct NoTests {
    list: Option<Shared<Test>>,
}

impl Model for NoTests {
    ghost use Rattle.std.specs.Prelude.{ℕ, IfSome, ◌≡◌, []};

    ghost Value = { ℕ };

    ghost view = { λ _. 0 };

    ghost invariant = { λ n. IfSome n.list (λ l. l ≡ []) };
}

impl NoTests {
    pub fn new() -> NoTests {
        NoTests { list: None }
    }

    /// The empty list.
    pub fn list(&mut self, alloc: Global) -> Result<Shared<Test>, AllocError>
        ensures { IfOk result (λ l. l ≡ []) }
    {
        if let Some(list) = &self.list {
            return list.clone();
        }
        let list = Shared::new(alloc, Vec::new(alloc))?;
        self.list = Some(list.clone()?);
        Ok(list)
    }
}

/// The last lists of a case.
#[derive(Drop)]
pub(crate) struct Memories<'a> {
    pub held: Memory<'a, LockTerm>,
    pub own: Memory<'a, Own>,
    pub kept: Memory<'a, Name>,
    pub no_tests: NoTests,
}

impl<'a> Memories<'a> {
    pub fn new() -> Memories<'a> {
        Memories {
            held: Memory::new(),
            own: Memory::new(),
            kept: Memory::new(),
            no_tests: NoTests::new(),
        }
    }
}
