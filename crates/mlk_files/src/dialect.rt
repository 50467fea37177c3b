// Texts of routines beyond the subset, as they are read.

ghost use Rattle.std.specs.Prelude.{◌≡◌, min, IfOk};
ghost use Rattle.mlk_dialect.specs.Plain.{inert};
ghost use Rattle.mlk_files.specs.Dialects.{IsPlain, ArePlain, ArePlainIn, inert_of};

use mlk_dialect::{Dialect, PlainText, plain_text};
use mlk_reading::Source;
use std::alloc::{AllocError, Global};

/// Routines with their plain texts.
#[derive(Drop)]
pub struct PlainSources<'a> {
    /// the routines with their plain texts, in their order
    pub sources: Vec<Source<'a>>,
    /// How many of their words are read as any value, on the premise that they touch no data and no lock.
    pub inert: usize,
}

// A routine with its plain text, and how many of its words are read as any value.
#[derive(Drop)]
struct PlainSource<'a> {
    source: Source<'a>,
    inert: usize,
}

fn plain_source<'a>(alloc: Global, source: &Source<'a>) -> Result<PlainSource<'a>, AllocError>
    ensures plain { IfOk result (λ p. IsPlain source.now p.source) }
    ensures inert { IfOk result (λ p. p.inert ≡ inert source.now.text.items) }
{
    let PlainText { text, inert } = plain_text(alloc, source.text.as_slice())?;
    let source = Source {
        dialect: Dialect::Extended,
        stem: source.stem,
        text,
    };
    Ok(PlainSource { source, inert })
}

// The routines with their plain texts, in their order.
fn plain_sources<'a>(alloc: Global, sources: &[Source<'a>]) -> Result<PlainSources<'a>, AllocError>
    ensures sources { IfOk result (λ p. ArePlain sources.now p.sources.items) }
    ensures inert { IfOk result (λ p. p.inert ≡ min (inert_of sources.now) 18446744073709551615) }
{
    let mut plain = Vec::with_capacity(alloc, sources.len())?;
    let mut inert: usize = 0;
    for source in sources {
        let read = plain_source(alloc, source)?;
        inert = inert.saturating_add(read.inert);
        let Ok(()) = plain.push(read.source) else {
            return Err(AllocError);
        };
    }
    Ok(PlainSources {
        sources: plain,
        inert,
    })
}

/// The plain texts of `sources`, if they are what is read in `dialect`; `None` if the routines are read by their own.
pub(crate) fn plain_in<'a>(
    alloc: Global,
    dialect: Dialect,
    sources: &[Source<'a>],
) -> Result<Option<PlainSources<'a>>, AllocError>
    ensures { IfOk result (ArePlainIn dialect sources.now) }
{
    match dialect {
        Dialect::Standard => Ok(None),
        Dialect::Extended => Ok(Some(plain_sources(alloc, sources)?)),
    }
}

/// The `sources` as they are read in `dialect`.
pub fn read_in<'a>(
    alloc: Global,
    dialect: Dialect,
    sources: Vec<Source<'a>>,
) -> Result<Vec<Source<'a>>, AllocError> {
    match plain_in(alloc, dialect, sources.as_slice())? {
        Some(plain) => Ok(plain.sources),
        None => Ok(sources),
    }
}
