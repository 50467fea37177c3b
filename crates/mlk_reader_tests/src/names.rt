// References that may overlap, and locals that terms mention.

use mlk_names::{Access, Extent, KnownSym, LockTerm, Reference, Root, Sym, may_overlap, mentions};
use mlk_text::{Name, Subscripts, Value};
use std::alloc::{AllocError, Global};
use std::test::Fail;

/// A name, and the subscripts behind it.
pub(crate) type Words<'a> = &'a [&'a [u8]];

// `?` is any value, `$J` the job, what begins with `=` a constant, and all else a local.
fn symbol(alloc: Global, word: &[u8]) -> Result<Sym, AllocError> {
    match word {
        b"?" => Ok(Sym::Unknown),
        b"$J" => Ok(Sym::Job),
        [b'=', constant @ ..] => Ok(Sym::Const(Value::of(alloc, constant)?)),
        _ => Ok(Sym::Local(Name::of(alloc, word)?)),
    }
}

// The name that words begin with.
fn name(alloc: Global, words: Words<'_>) -> Result<Name, AllocError> {
    match words {
        [first, ..] => Name::of(alloc, first),
        [] => Name::of(alloc, b""),
    }
}

/// The reference of these words.
pub(crate) fn reference(
    alloc: Global,
    words: Words<'_>,
    extent: Extent,
) -> Result<Reference, AllocError> {
    let mut subs = Vec::new(alloc);
    for word in words.iter().skip(1) {
        subs.push(symbol(alloc, word)?)?;
    }
    Ok(Reference {
        root: name(alloc, words)?,
        subs: Subscripts::of(subs),
        extent,
        access: Access::Writes,
    })
}

/// The term of these words; none of them denotes any value.
pub(crate) fn term(alloc: Global, words: Words<'_>) -> Result<LockTerm, AllocError> {
    let mut subs: Vec<KnownSym> = Vec::new(alloc);
    for word in words.iter().skip(1) {
        if let Some(known) = symbol(alloc, word)?.to_known()? {
            subs.push(known)?;
        }
    }
    Ok(LockTerm {
        root: Root::Global(name(alloc, words)?),
        subs: Subscripts::of(subs),
    })
}

fn overlap(
    alloc: Global,
    (first, far): (Words<'_>, Extent),
    (second, wide): (Words<'_>, Extent),
) -> Result<bool, AllocError> {
    let first = reference(alloc, first, far)?;
    let second = reference(alloc, second, wide)?;
    Ok(may_overlap(&first, &second))
}

// The answers for two nodes, a node and a tree, a tree and a node, two trees.
fn overlaps(alloc: Global, first: Words<'_>, second: Words<'_>) -> Result<[bool; 4], AllocError> {
    let (node, tree) = (Extent::Node, Extent::Tree);
    Ok([
        overlap(alloc, (first, node), (second, node))?,
        overlap(alloc, (first, node), (second, tree))?,
        overlap(alloc, (first, tree), (second, node))?,
        overlap(alloc, (first, tree), (second, tree))?,
    ])
}

const NONE: [bool; 4] = [false, false, false, false];

const ALL: [bool; 4] = [true, true, true, true];

// where the first is above the second, and below it
const ABOVE: [bool; 4] = [false, false, true, true];

const BELOW: [bool; 4] = [false, true, false, true];

const OVERLAPS: &[(Words<'_>, Words<'_>, [bool; 4])] = &[
    (&[b"A"], &[b"A"], ALL),
    (&[b"A"], &[b"A", b"=1"], ABOVE),
    (&[b"A"], &[b"A", b"=1", b"X"], ABOVE),
    (&[b"A", b"=1"], &[b"A"], BELOW),
    (&[b"A", b"=1"], &[b"A", b"=1"], ALL),
    (&[b"A", b"=1"], &[b"A", b"=1", b"X"], ABOVE),
    (&[b"A", b"=1", b"X"], &[b"A"], BELOW),
    (&[b"A", b"=1", b"X"], &[b"A", b"=1"], BELOW),
    (&[b"A", b"=1", b"X"], &[b"A", b"=1", b"X"], ALL),
    (&[b"A", b"=1"], &[b"A", b"=2"], NONE),
    (&[b"A", b"=1"], &[b"A", b"=01"], NONE),
    (&[b"A", b"X"], &[b"A", b"=1"], ALL),
    (&[b"A", b"X"], &[b"A", b"Y"], ALL),
    (&[b"A", b"?"], &[b"A", b"$J"], ALL),
    (&[b"A", b"?", b"=1"], &[b"A", b"=7", b"=2"], NONE),
    (&[b"A", b"?", b"=1"], &[b"A", b"=7", b"X"], ALL),
    (&[b"A", b"?"], &[b"B", b"?"], NONE),
];

#[test]
fn overlaps_by_extent_and_symbols(rt: HostRuntime) -> Result<(), Fail> {
    for (place, (first, second, answers)) in OVERLAPS.iter().enumerate() {
        assert!(rt;
            overlaps(rt.alloc(), first, second)? == *answers,
            "row {place}"
        );
    }
    Ok(())
}

const MENTIONS: &[(Words<'_>, bool)] = &[
    (&[b"ACCT", b"ID", b"=bal"], true),
    (&[b"ACCT", b"=ID"], false),
    (&[b"ID", b"X"], false),
    (&[b"ID"], false),
];

fn is_mentioned(alloc: Global, words: Words<'_>) -> Result<bool, AllocError> {
    let term = term(alloc, words)?;
    let id = Name::of(alloc, b"ID")?;
    Ok(mentions(&term, &id))
}

#[test]
fn mentioned(rt: HostRuntime) -> Result<(), Fail> {
    for (place, (words, answer)) in MENTIONS.iter().enumerate() {
        assert!(rt; is_mentioned(rt.alloc(), words)? == *answer, "row {place}");
    }
    Ok(())
}
