// The plain text of a routine.

ghost use Rattle.std.specs.Prelude.{◌≡◌, ◌≤◌, ◌<◌, ◌+◌, ◌++◌, ◌∷◌, [], suc, map, IfOk, OnOk};
ghost use Rattle.mlk_dialect.specs.Plain.{ends_line, behind_code, behind, word_in, form_in, inert_in, own_byte, plain_from, inert_from, plain, inert};

use crate::word::{Word, code_word, form_of};
use std::alloc::{AllocError, Global};
use std::collections::VecDeque;

/// Where reading is in a routine.
#[derive(Clone, Copy, Debug, Drop, PartialEq, Eq)]
pub(crate) enum Place {
    /// outside of quoted texts and comments, behind a byte
    Code(u8),
    Quoted,
    Comment,
}

/// A routine as the subset's reader takes it.
#[derive(Drop)]
pub struct PlainText {
    /// The plain text, as long as the routine's own: each line and column is where it was.
    pub text: Vec<u8>,
    /// How many words are read as any value, on the premise that they touch no data and no lock.
    pub inert: usize,
}

fn ends_line(b: u8) -> bool
    ensures { result ≡ ends_line b }
{
    matches!(b, b'\n' | b'\r')
}

fn behind_code(b: u8) -> Place
    ensures { result ≡ behind_code b }
{
    match b {
        b'"' => Place::Quoted,
        b';' => Place::Comment,
        _ => Place::Code(b),
    }
}

impl Place {
    // The place behind the byte `b`, which is at this one.
    fn behind(self, b: u8) -> Place
        ensures { result ≡ behind self b }
    {
        match self {
            Place::Code(_) => behind_code(b),
            Place::Quoted if b == b'"' || ends_line(b) => Place::Code(b),
            Place::Quoted => Place::Quoted,
            Place::Comment if ends_line(b) => Place::Code(b),
            Place::Comment => Place::Comment,
        }
    }

    // The word that begins here with the byte `first`, in front of `after`.
    fn word(self, first: u8, after: &[u8]) -> Option<Word>
        ensures { result ≡ word_in self first after.now }
    {
        match self {
            Place::Code(before) => code_word(before, first, after),
            Place::Quoted | Place::Comment => None,
        }
    }

    // A byte outside of words, as it is in the plain text.
    fn own_byte(self, b: u8) -> u8
        ensures { result ≡ own_byte self b }
    {
        match self {
            Place::Code(_) if b == b'\t' => b' ',
            Place::Code(_) | Place::Quoted | Place::Comment => b,
        }
    }
}

// What of a routine is read: its plain text so far, and where reading is.
#[derive(Drop)]
struct Reading {
    alloc: Global,
    place: Place,
    // what is left of the form of a word that began before
    form: VecDeque<u8>,
    text: Vec<u8>,
    inert: usize,
}

impl Reading {
    // Begins the form of the word that begins with the byte `first`, in front of `after`, if there is one.
    fn begin_word(&mut self, first: u8, after: &[u8]) -> Result<(), AllocError>
        requires empty { self.now.form.items ≡ [] }
        requires count { self.now.inert < 18446744073709551615 }
        ensures form { OnOk result (self.new.form.items ≡ form_in (word_in self.old.place first after.now)) }
        ensures inert { OnOk result (self.new.inert ≡ inert_in (word_in self.old.place first after.now) + self.old.inert) }
        ensures place { OnOk result (self.new.place ≡ self.old.place) }
        ensures text { OnOk result (self.new.text.items ≡ self.old.text.items) }
    {
        let Some(word) = self.place.word(first, after) else {
            return Ok(());
        };
        if word.is_inert() {
            self.inert += 1;
        }
        self.form = VecDeque::from(form_of(self.alloc, word)?);
        Ok(())
    }

    // Reads the byte `first`, in front of `after`.
    #[tactic(auto, unfolding(crate::specs::Plain::plain_from, crate::specs::Plain::inert_from))]
    fn read(&mut self, first: u8, after: &[u8]) -> Result<(), AllocError>
        requires { self.now.inert < 18446744073709551615 }
        ensures text { OnOk result (self.new.text.items ++ plain_from self.new.place self.new.form.items after.now
            ≡ self.old.text.items ++ plain_from self.old.place self.old.form.items (first ∷ after.now)) }
        ensures inert { OnOk result (self.new.inert + inert_from self.new.place self.new.form.items after.now
            ≡ self.old.inert + inert_from self.old.place self.old.form.items (first ∷ after.now)) }
        ensures count { OnOk result (self.new.inert ≤ suc self.old.inert) }
    {
        if self.form.is_empty() {
            self.begin_word(first, after)?;
        }
        match self.form.pop_front() {
            Some(byte) => {
                self.text.push(byte)?;
                self.place = behind_code(first);
            }
            None => {
                self.text.push(self.place.own_byte(first))?;
                self.place = self.place.behind(first);
            }
        }
        Ok(())
    }
}

/// The plain text of `text`. Its only error is that memory runs out.
#[tactic(auto, unfolding(crate::specs::Plain::plain_from, crate::specs::Plain::inert_from))]
pub fn plain_text(alloc: Global, text: &[u8]) -> Result<PlainText, AllocError>
    ensures text { IfOk result (λ p. p.text.items ≡ plain text.now) }
    ensures lines { IfOk result (λ p. map ends_line p.text.items ≡ map ends_line text.now) }
    ensures inert { IfOk result (λ p. p.inert ≡ inert text.now) }
{
    let mut reading = Reading {
        alloc,
        place: Place::Code(b'\n'),
        form: VecDeque::new(alloc),
        text: Vec::with_capacity(alloc, text.len())?,
        inert: 0,
    };
    let mut rest = text;
    while let Some((first, after)) = rest.split_first() {
        reading.read(*first, after)?;
        rest = after;
    }
    Ok(PlainText {
        text: reading.text,
        inert: reading.inert,
    })
}
