// The texts of the cases at points.

ghost use Rattle.std.specs.Prelude.{◌≡◌, ◌∷◌, [], IfOk, OnOk, map};
ghost use Rattle.mlk_cert_parts.specs.Texts.{case_text};
ghost use Rattle.mlk_cert.specs.Second.{cases_of_points, cases_of_blocks};
ghost use Rattle.mlk_cert.specs.Named.{texts_in, Adds, Has};

use indexmap::IndexSet;
use mlk_cert_lexemes::WrittenText;
use mlk_cert_parts::{Case, EntryCert, Point, push_case};
use std::alloc::{AllocError, Global};

/// The text of a case.
pub(crate) fn text_of(alloc: Global, case: &Case) -> Result<WrittenText, AllocError>
    ensures { IfOk result (λ t. t ≡ case_text case.now) }
{
    let mut text = WrittenText::new(alloc);
    push_case(&mut text, case)?;
    Ok(text)
}

// Adds the text of `case` to `texts`.
fn note_case(alloc: Global, texts: &mut IndexSet<Vec<u8>>, case: &Case) -> Result<(), AllocError>
    ensures { OnOk result (Adds (texts_in texts.old.keys) (texts_in texts.new.keys) (case_text case.now ∷ [])) }
{
    let text = text_of(alloc, case)?;
    texts.insert(text.into_bytes())?;
    Ok(())
}

// Adds the texts of `cases` to `texts`.
fn note_cases(
    alloc: Global,
    texts: &mut IndexSet<Vec<u8>>,
    cases: &[Case],
) -> Result<(), AllocError>
    ensures { OnOk result (Adds (texts_in texts.old.keys) (texts_in texts.new.keys) (map case_text cases.now)) }
{
    let mut left = cases;
    while let Some((first, others)) = left.split_first() {
        note_case(alloc, texts, first)?;
        left = others;
    }
    Ok(())
}

// Adds the texts of the cases of `points` to `texts`.
fn note_points(
    alloc: Global,
    texts: &mut IndexSet<Vec<u8>>,
    points: &[Point],
) -> Result<(), AllocError>
    ensures { OnOk result (Adds (texts_in texts.old.keys) (texts_in texts.new.keys) (cases_of_points points.now)) }
{
    let mut left = points;
    while let Some((first, others)) = left.split_first() {
        note_cases(alloc, texts, first.cases.as_slice())?;
        left = others;
    }
    Ok(())
}

/// The texts of the cases at the points of `blocks`, each once.
pub(crate) fn texts_at_points(
    alloc: Global,
    blocks: &[EntryCert],
) -> Result<IndexSet<Vec<u8>>, AllocError>
    ensures { IfOk result (λ s. Has (texts_in s.keys) (cases_of_blocks blocks.now)) }
{
    let mut texts: IndexSet<Vec<u8>> = IndexSet::new(alloc);
    let mut left = blocks;
    while let Some((first, others)) = left.split_first() {
        note_points(alloc, &mut texts, first.points.as_slice())?;
        left = others;
    }
    Ok(texts)
}
