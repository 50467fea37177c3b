// The arguments of commands, as a line of M has them.

use std::alloc::{AllocError, Global};

// How many bytes of a text are before the first separator that is in no quotes and no parentheses, or before a parenthesis that
// is closed and not opened.
fn length_before(text: &[u8], separator: u8) -> usize {
    let mut depth = 0usize;
    let mut is_quoted = false;
    for (place, byte) in text.iter().enumerate() {
        match *byte {
            b'"' => is_quoted = !is_quoted,
            _ if is_quoted => {}
            b'(' => depth = depth.saturating_add(1),
            byte if depth == 0 && (byte == separator || byte == b')') => return place,
            b')' => depth = depth.saturating_sub(1),
            _ => {}
        }
    }
    text.len()
}

// The place of the first separator from a place on, or of the end of the part in parentheses there, or of the line's end.
fn end_of(line: &[u8], place: usize, separator: u8) -> usize {
    let rest = line.get(place..).unwrap_or(&[]);
    place.saturating_add(length_before(rest, separator))
}

// The place after the spaces at a place.
fn after_spaces(line: &[u8], place: usize) -> usize {
    let rest = line.get(place..).unwrap_or(&[]);
    place.saturating_add(rest.iter().take_while(|byte| **byte == b' ').count())
}

// The place of the first command of a line: after its label and formals, its line start and its periods.
fn first_command(line: &[u8]) -> usize {
    let is_blank = |byte: &&u8| **byte == b' ' || **byte == b'\t';
    let label = line.iter().take_while(|byte| !is_blank(byte)).count();
    let start = line
        .iter()
        .skip(label)
        .take_while(|byte| is_blank(byte) || **byte == b'.');
    label.saturating_add(start.count())
}

/// The reference at the front of a text: its name, and its first `count` subscripts. All of it where it has no more.
pub(crate) fn reference_front(text: &[u8], count: usize) -> &[u8] {
    let name = name_length(text);
    let mut end = name;
    for _ in 0..count {
        match text.get(end) {
            Some(b'(' | b',') => end = end_of(text, end.saturating_add(1), b','),
            _ => break,
        }
    }
    text.get(..end).unwrap_or(text)
}

fn is_of_name(byte: u8) -> bool {
    byte.is_ascii_alphanumeric() || byte == b'%'
}

/// How many bytes the name of a global has at the front of a text, with its `^`.
pub(crate) fn name_length(text: &[u8]) -> usize {
    let letters = text.iter().skip(1).take_while(|byte| is_of_name(**byte));
    letters.count().saturating_add(1)
}

// A command on a line: the places of its word, of its arguments and of their end.
#[derive(Clone, Copy, Drop)]
struct Command {
    word: usize,
    start: usize,
    end: usize,
}

// The command on a line whose arguments have a place.
fn command_at(line: &[u8], place: usize) -> Option<Command> {
    let mut word = first_command(line);
    for _ in 0..line.len() {
        let start = end_of(line, word, b' ').saturating_add(1);
        let end = end_of(line, start, b' ');
        if place < start {
            return None;
        }
        if place < end {
            return Some(Command { word, start, end });
        }
        word = after_spaces(line, end);
    }
    None
}

/// An argument of a command on a line.
#[derive(Clone, Copy, Drop)]
pub(crate) struct Argument {
    command: Command,
    start: usize,
    end: usize,
}

/// The bytes that take the place of a part of a line.
#[derive(Drop)]
pub(crate) struct Blanks {
    /// where the part begins
    pub(crate) start: usize,
    pub(crate) bytes: Vec<u8>,
}

/// The argument that has a place of a line.
pub(crate) fn argument_at(line: &[u8], place: usize) -> Option<Argument> {
    let command = command_at(line, place)?;
    let mut start = command.start;
    for _ in 0..line.len() {
        let end = end_of(line, start, b',').min(command.end);
        if place < end {
            return Some(Argument {
                command,
                start,
                end,
            });
        }
        start = end.saturating_add(1);
    }
    None
}

impl Argument {
    /// Whether its command's word begins with one of these letters.
    pub(crate) fn is_of(&self, line: &[u8], letters: &[u8]) -> bool {
        match line.get(self.command.word) {
            Some(letter) => letters.contains(letter),
            None => false,
        }
    }

    /// Whether it begins at a place of its line.
    pub(crate) fn begins_at(&self, place: usize) -> bool {
        self.start == place
    }

    fn is_first(&self) -> bool {
        self.start == self.command.start
    }

    fn is_last(&self) -> bool {
        self.end == self.command.end
    }

    // Whether the command has a postconditional.
    fn is_conditional(&self, line: &[u8]) -> bool {
        line.get(self.command.word..self.command.start)
            .unwrap_or(line)
            .contains(&b':')
    }

    // The places where the argument begins and ends, with what goes with it: the command's word before the first, the comma before
    // another, and the comma after it.
    fn extent(&self) -> (usize, usize) {
        let start = if self.is_first() {
            self.command.word
        } else {
            self.start.saturating_sub(1)
        };
        if self.is_last() {
            (start, self.end)
        } else {
            (start, self.end.saturating_add(1))
        }
    }

    /// Blanks that take the argument away from its line, with the command's word if it has no other argument. The arguments
    /// after it get a word of their own, the first letter of this one. `None` if that word had a condition.
    pub(crate) fn blanked(&self, alloc: Global, line: &[u8]) -> Result<Option<Blanks>, AllocError> {
        let (start, end) = self.extent();
        let mut bytes = vec![in alloc; b' '; end.saturating_sub(start)]?;
        if self.is_last() {
            return Ok(Some(Blanks { start, bytes }));
        }
        let Some(letter) = line.get(self.command.word) else {
            return Ok(None);
        };
        if self.is_conditional(line) {
            return Ok(None);
        }
        let place = bytes.len().saturating_sub(2);
        if let Some(byte) = bytes.get_mut(place) {
            *byte = *letter;
        }
        Ok(Some(Blanks { start, bytes }))
    }
}
