// Values of functions.

use bstr::ByteSlice;
use mlk_numbers::whole_number;
use mlk_syntax::Function;
use mlk_text::Value;
use std::alloc::{AllocError, Global};

// The number of an argument, if it is known and not negative; negative ones count as 0.
fn count_of(argument: Option<&Value>, otherwise: usize) -> Option<usize> {
    match argument {
        Some(value) => {
            let number = whole_number(value.as_bytes())?;
            Some(usize::try_from(number.max(0)).unwrap_or(usize::MAX))
        }
        None => Some(otherwise),
    }
}

// The decimal digits of `number`, as a value.
fn number_text(alloc: Global, number: usize) -> Result<Value, AllocError> {
    let text = number.to_string(alloc)?;
    Value::of(alloc, text.as_bytes())
}

// How many times `part` occurs in `text`, from left to right.
fn occurrences(text: &[u8], part: &[u8]) -> usize {
    text.find_iter(part).count()
}

// `$LENGTH` of a text of ASCII characters, or the number of its pieces.
fn length(alloc: Global, text: &[u8], part: Option<&Value>) -> Result<Option<Value>, AllocError> {
    let count = match part {
        None if text.is_ascii() => text.len(),
        None => return Ok(None),
        Some(part) if part.as_bytes().is_empty() => 0,
        Some(part) => occurrences(text, part.as_bytes()).saturating_add(1),
    };
    Ok(Some(number_text(alloc, count)?))
}

// The pieces of `text` from number `first` to number `last`, counted from 1, with what is between them.
fn pieces(
    alloc: Global,
    text: &[u8],
    between: &[u8],
    first: usize,
    last: usize,
) -> Result<Value, AllocError> {
    let mut found = Vec::new(alloc);
    let mut number: usize = 0;
    for piece in text.split_str(between) {
        number = number.saturating_add(1);
        if number > first.max(1) && number <= last {
            found.extend_from_slice(between)?;
        }
        if number >= first && number <= last {
            found.extend_from_slice(piece)?;
        }
    }
    Ok(Value::new(found))
}

// `$PIECE`.
fn piece(alloc: Global, arguments: &[Value]) -> Result<Option<Value>, AllocError> {
    let [text, between, more @ ..] = arguments else {
        return Ok(None);
    };
    let Some(first) = count_of(more.first(), 1) else {
        return Ok(None);
    };
    let Some(last) = count_of(more.get(1), first) else {
        return Ok(None);
    };
    if between.as_bytes().is_empty() {
        return Ok(Some(Value::new(Vec::new(alloc))));
    }
    let found = pieces(alloc, text.as_bytes(), between.as_bytes(), first, last)?;
    Ok(Some(found))
}

// `$EXTRACT` of a text of ASCII characters.
fn extract(alloc: Global, arguments: &[Value]) -> Result<Option<Value>, AllocError> {
    let [text, more @ ..] = arguments else {
        return Ok(None);
    };
    let Some(first) = count_of(more.first(), 1) else {
        return Ok(None);
    };
    let Some(last) = count_of(more.get(1), first) else {
        return Ok(None);
    };
    let bytes = text.as_bytes();
    if !bytes.is_ascii() {
        return Ok(None);
    }
    let (front, _) = bytes.split_at(last.min(bytes.len()));
    let (_, found) = front.split_at(first.saturating_sub(1).min(front.len()));
    Ok(Some(Value::of(alloc, found)?))
}

/// The value of a function of these arguments; `None` if it is not known.
pub(crate) fn value_of_function(
    alloc: Global,
    function: Function,
    arguments: &[Value],
) -> Result<Option<Value>, AllocError> {
    match function {
        Function::Length => match arguments.split_first() {
            Some((text, more)) => length(alloc, text.as_bytes(), more.first()),
            None => Ok(None),
        },
        Function::Piece => piece(alloc, arguments),
        Function::Extract => extract(alloc, arguments),
        _ => Ok(None),
    }
}
