// Texts that are built from pieces.

ghost use Rattle.std.specs.Prelude.{◌≡◌, ◌++◌, IfOk, OnOk, map};
ghost use Rattle.std.specs.Fmt.{decimal};
ghost use Rattle.mlk_report_text.specs.Pieces.{bytes_of, more, listed, place_text, code_text, piece_text, pieces_text};

use mlk_text::{Code, Column, LineNumber};
use std::alloc::{AllocError, Global};

/// A piece of a text.
#[derive(Drop)]
pub enum Piece<'a> {
    Words(&'a str),
    /// bytes, as they are
    Bytes(&'a [u8]),
    /// bytes that were built for this text
    Made(Vec<u8>),
    /// the digits of a number
    Number(usize),
    /// `line:column`
    At(LineNumber, Column),
    /// `CODE NAME`
    CodeName(Code),
    /// texts, separated by a comma and a space
    Listed(&'a [Vec<u8>]),
}

fn push_number(text: &mut Vec<u8>, number: usize) -> Result<(), AllocError>
    ensures { OnOk result (text.new.items ≡ text.old.items ++ decimal number) }
{
    let digits = number.to_string(*text.allocator())?;
    text.extend_from_slice(digits.as_bytes())
}

// Appends texts, each after a comma and a space.
fn push_more(text: &mut Vec<u8>, items: &[Vec<u8>]) -> Result<(), AllocError>
    ensures { OnOk result (text.new.items ≡ text.old.items ++ more (map bytes_of items.now)) }
{
    for item in items {
        text.extend_from_slice(b", ")?;
        text.extend_from_slice(item.as_slice())?;
    }
    Ok(())
}

fn push_listed(text: &mut Vec<u8>, items: &[Vec<u8>]) -> Result<(), AllocError>
    ensures { OnOk result (text.new.items ≡ text.old.items ++ listed (map bytes_of items.now)) }
{
    let Some((first, others)) = items.split_first() else {
        return Ok(());
    };
    text.extend_from_slice(first.as_slice())?;
    push_more(text, others)?;
    Ok(())
}

fn push_place(text: &mut Vec<u8>, line: LineNumber, column: Column) -> Result<(), AllocError>
    ensures { OnOk result (text.new.items ≡ text.old.items ++ place_text line column) }
{
    push_number(text, line.number() as usize)?;
    text.extend_from_slice(b":")?;
    push_number(text, column.number() as usize)?;
    Ok(())
}

fn push_code(text: &mut Vec<u8>, code: Code) -> Result<(), AllocError>
    ensures { OnOk result (text.new.items ≡ text.old.items ++ code_text code) }
{
    push_number(text, usize::from(code.number()))?;
    text.extend_from_slice(b" ")?;
    text.extend_from_slice(code.word())?;
    Ok(())
}

fn push_piece(text: &mut Vec<u8>, piece: &Piece<'_>) -> Result<(), AllocError>
    ensures { OnOk result (text.new.items ≡ text.old.items ++ piece_text piece.now) }
{
    match piece {
        Piece::Words(words) => text.extend_from_slice(words.as_bytes()),
        Piece::Bytes(bytes) => text.extend_from_slice(*bytes),
        Piece::Made(bytes) => text.extend_from_slice(bytes.as_slice()),
        Piece::Number(number) => push_number(text, *number),
        Piece::At(line, column) => push_place(text, *line, *column),
        Piece::CodeName(code) => push_code(text, *code),
        Piece::Listed(items) => push_listed(text, *items),
    }
}

/// Appends `pieces` to `text`, one after another.
pub fn push_all(text: &mut Vec<u8>, pieces: &[Piece<'_>]) -> Result<(), AllocError>
    ensures { OnOk result (text.new.items ≡ text.old.items ++ pieces_text pieces.now) }
{
    for piece in pieces {
        push_piece(text, piece)?;
    }
    Ok(())
}

/// The text of `pieces`.
pub fn text_of(alloc: Global, pieces: &[Piece<'_>]) -> Result<Vec<u8>, AllocError>
    ensures { IfOk result (λ text. text.items ≡ pieces_text pieces.now) }
{
    let mut text = Vec::new(alloc);
    push_all(&mut text, pieces)?;
    Ok(text)
}
