// Texts in which faults are mended.

ghost use Rattle.std.specs.Prelude.{◌≡◌, IfOk, map};
ghost use Rattle.mlk_behind.specs.Mending.{ends_line, IsPatchAt, IsPatched, DiffersOnlyAt, AreMended};

use std::alloc::{AllocError, Global};

/// A part of a routine's text, and the bytes that replace it.
#[derive(Drop)]
pub struct Patch {
    /// the routine's number in the program, from 0
    pub routine: usize,
    /// how many bytes are before the part in the routine's text
    pub start: usize,
    pub bytes: Vec<u8>,
}

fn ends_line(byte: u8) -> bool
    ensures { result ≡ ends_line byte }
{
    byte == b'\n' || byte == b'\r'
}

// Replaces the byte at a place, unless it ends a line, or the new one does.
fn replace_byte(text: &mut [u8], place: usize, byte: u8)
    ensures { DiffersOnlyAt (λ k. k ≡ place) text.old text.new }
{
    if place < text.len() && !ends_line(text[place]) && !ends_line(byte) {
        text[place] = byte;
    }
}

// Replaces the part of a text that a patch is for.
fn apply(text: &mut [u8], patch: &Patch)
    ensures { DiffersOnlyAt (λ k. IsPatchAt k patch.now) text.old text.new }
{
    for (offset, byte) in patch.bytes.iter().enumerate() {
        replace_byte(text, patch.start.saturating_add(offset), *byte);
    }
}

// Applies the patches of a routine to its text.
fn apply_all(text: &mut [u8], routine: usize, patches: &[Patch])
    ensures { DiffersOnlyAt (IsPatched patches.now routine) text.old text.new }
{
    for patch in patches {
        if patch.routine == routine {
            apply(text, patch);
        }
    }
}

fn mended_text(
    alloc: Global,
    text: &[u8],
    routine: usize,
    patches: &[Patch],
) -> Result<Vec<u8>, AllocError>
    ensures { IfOk result (λ mended. DiffersOnlyAt (IsPatched patches.now routine) text.now mended.items) }
{
    let mut mended = Vec::from_slice(alloc, text)?;
    apply_all(mended.as_mut_slice(), routine, patches);
    Ok(mended)
}

/// The texts of the routines of a program, in their order, with the parts that `patches` are for replaced. Where a line ends, nothing
/// is replaced, and no line is made to end: so each routine keeps its lines, and each line its columns.
pub fn mended_texts(
    alloc: Global,
    texts: &[Vec<u8>],
    patches: &[Patch],
) -> Result<Vec<Vec<u8>>, AllocError>
    ensures { IfOk result (λ mended. AreMended patches.now (map (λ t. t.items) texts.now) (map (λ t. t.items) mended.items)) }
{
    let mut mended = Vec::with_capacity(alloc, texts.len())?;
    for (routine, text) in texts.iter().enumerate() {
        mended.push(mended_text(alloc, text.as_slice(), routine, patches)?)?;
    }
    Ok(mended)
}
