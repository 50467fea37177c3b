// Names and values, as numbers.

use indexmap::IndexSet;
use std::alloc::{AllocError, Global};

/// A name or a value in the routines: its number in `Words`.
#[derive(Clone, Copy, Drop, PartialEq, Eq, PartialOrd, Ord, Hash)]
pub struct Word {
    index: usize,
}

/// The names and values in the routines, each once.
#[derive(Drop)]
pub struct Words<'a> {
    texts: IndexSet<&'a [u8]>,
}

impl<'a> Words<'a> {
    /// No words.
    pub fn new(alloc: Global) -> Words<'a> {
        Words {
            texts: IndexSet::new(alloc),
        }
    }

    /// Adds `text`, unless it is there already, and returns its word.
    pub fn add(&mut self, text: &'a [u8]) -> Result<Word, AllocError> {
        let Ok((index, _)) = self.texts.insert_full(text) else {
            return Err(AllocError);
        };
        Ok(Word { index })
    }

    /// The text of `word`; empty for a word of another table.
    pub fn text(&self, word: Word) -> &'a [u8] {
        match self.texts.get_index(word.index) {
            Some(text) => *text,
            None => b"",
        }
    }
}
