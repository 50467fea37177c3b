// The cases of blocks in order, and the numbers of cases.

ghost use Rattle.std.specs.Prelude.{◌≡◌, ◌++◌, ◌≤◌, ◌∷◌, IfOk, OnOk, length, codes};
ghost use Rattle.std.specs.Fmt.{decimal};
ghost use Rattle.mlk_cert_lexemes.specs.Lists.{flat};
ghost use Rattle.mlk_cert_lexemes.specs.Texts.{line};
ghost use Rattle.mlk_cert_parts.specs.Limits.{longest};
ghost use Rattle.mlk_cert_parts.specs.Texts.{block_with};
ghost use Rattle.mlk_cert.specs.Named.{texts_in};
ghost use Rattle.mlk_cert.specs.Second.{AreCases, number_of_text, numbers_of, point_line, numbered, numbered_text};

use crate::named::{text_of, texts_at_points};
use crate::number::CaseNumber;
use indexmap::IndexSet;
use mlk_cert_lexemes::{WrittenText, push_joined};
use mlk_cert_parts::{Case, EntryCert, Point, push_front, push_place};
use std::alloc::{AllocError, Global};

/// The texts of the cases at the points of `blocks`, each once, in order.
pub(crate) fn case_texts(
    alloc: Global,
    blocks: &[EntryCert],
) -> Result<IndexSet<Vec<u8>>, AllocError>
    ensures { IfOk result (λ s. AreCases blocks.now (texts_in s.keys)) }
{
    let mut texts = texts_at_points(alloc, blocks)?;
    texts.sort_unstable()?;
    Ok(texts)
}

fn number_of(texts: &IndexSet<Vec<u8>>, text: &[u8]) -> CaseNumber
    requires { length texts.now.keys ≤ longest }
    ensures { result ≡ number_of_text (texts_in texts.now.keys) text.now }
{
    match texts.get_index_of(text) {
        Some(place) => CaseNumber::new(place as u32 + 1),
        None => CaseNumber::new(texts.len() as u32 + 1),
    }
}

// The numbers of `cases`.
fn numbers_of(
    alloc: Global,
    texts: &IndexSet<Vec<u8>>,
    cases: &[Case],
) -> Result<Vec<CaseNumber>, AllocError>
    requires { length texts.now.keys ≤ longest }
    ensures { IfOk result (λ v. v.items ≡ numbers_of (texts_in texts.now.keys) cases.now) }
{
    let mut found = Vec::with_capacity(alloc, cases.len())?;
    for case in cases {
        let text = text_of(alloc, case)?;
        found.push(number_of(texts, text.as_bytes()))?;
    }
    Ok(found)
}

fn push_point(
    alloc: Global,
    text: &mut WrittenText,
    texts: &IndexSet<Vec<u8>>,
    point: &Point,
) -> Result<(), AllocError>
    requires { length texts.now.keys ≤ longest }
    ensures { OnOk result (text.new ≡ text.old ++ point_line (texts_in texts.now.keys) point.now) }
{
    text.push(b"at ")?;
    push_place(text, point.line.number(), point.round)?;
    text.push_byte(b' ')?;
    let numbers = numbers_of(alloc, texts, point.cases.as_slice())?;
    push_joined(text, b';', numbers.as_slice())?;
    text.push_byte(b'\n')?;
    Ok(())
}

fn push_points(
    alloc: Global,
    text: &mut WrittenText,
    texts: &IndexSet<Vec<u8>>,
    points: &[Point],
) -> Result<(), AllocError>
    requires { length texts.now.keys ≤ longest }
    ensures { OnOk result (text.new ≡ text.old ++ flat (point_line (texts_in texts.now.keys)) points.now) }
{
    for point in points {
        push_point(alloc, text, texts, point)?;
    }
    Ok(())
}

fn push_blocks(
    alloc: Global,
    text: &mut WrittenText,
    texts: &IndexSet<Vec<u8>>,
    blocks: &[EntryCert],
) -> Result<(), AllocError>
    requires { length texts.now.keys ≤ longest }
    ensures { OnOk result (text.new ≡ text.old ++ flat (block_with (point_line (texts_in texts.now.keys))) blocks.now) }
{
    for block in blocks {
        push_front(text, block)?;
        push_points(alloc, text, texts, block.points.as_slice())?;
    }
    Ok(())
}

fn push_numbered(text: &mut WrittenText, number: u32, case: &[u8]) -> Result<(), AllocError>
    ensures { OnOk result (text.new ≡ text.old ++ line (codes "case ") (decimal number ++ 32 ∷ case.now)) }
{
    text.push(b"case ")?;
    text.push_number(number)?;
    text.push_byte(b' ')?;
    text.push(case)?;
    text.push_byte(b'\n')?;
    Ok(())
}

fn push_cases(text: &mut WrittenText, texts: &IndexSet<Vec<u8>>) -> Result<(), AllocError>
    requires { length texts.now.keys ≤ longest }
    ensures { OnOk result (text.new ≡ text.old ++ numbered 1 (texts_in texts.now.keys)) }
{
    let mut place = 0;
    while let Some(found) = texts.get_index(place) {
        push_numbered(text, place as u32 + 1, found.as_slice())?;
        place += 1;
    }
    Ok(())
}

/// The text of `blocks` in the second format, with the cases `texts` at the front.
pub(crate) fn numbered_text(
    alloc: Global,
    texts: &IndexSet<Vec<u8>>,
    blocks: &[EntryCert],
) -> Result<WrittenText, AllocError>
    requires { length texts.now.keys ≤ longest }
    ensures { IfOk result (λ t. t ≡ numbered_text (texts_in texts.now.keys) blocks.now) }
{
    let mut text = WrittenText::new(alloc);
    text.push(b"mlock-cert 2\n")?;
    push_cases(&mut text, texts)?;
    push_blocks(alloc, &mut text, texts, blocks)?;
    text.push(b"end\n")?;
    Ok(text)
}
