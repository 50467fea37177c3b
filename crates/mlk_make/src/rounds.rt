// The maker's rounds.

ghost use Rattle.std.specs.Prelude.{◌≡◌, IfOk, IfErr, None, find, map};
ghost use Rattle.mlk_syntax.specs.Views.{routine_of};
ghost use Rattle.mlk_make.specs.Missing.{is_missing, IsUnmade};
ghost use Rattle.mlk_make.specs.Texts.{SpellsIn};

use crate::entry::walk_entry;
use crate::finish::{certificate_in, finish};
use crate::maker::{Ground, Maker};
use crate::missing::first_missing;
use crate::stop::{GaveUp, MakeError, WhenStuck};
use mlk_calls::Entries;
use mlk_cert::{CertFormat, Certificate, Spelled};
use mlk_program::{EntryId, Program};
use mlk_rules::{Rules, entries};
use mlk_syntax::Line;
use mlk_text::{Failure, Value};
use mlk_watch::{Stage, Watch};
use std::alloc::{AllocError, Global};
use std::mem;

/// How many rounds are made.
const MOST_ROUNDS: usize = 64;

/// A certificate that is made though the maker gave up at some entries.
#[derive(Drop)]
pub struct MadeDespite {
    pub certificate: Certificate,
    /// where the maker gave up, in the order in which it did
    pub given_up: Vec<GaveUp>,
}

// Adds drafts of the declared entries.
fn add_declared(ground: &Ground<'_>, maker: &mut Maker) -> Result<(), AllocError> {
    for text in entries(ground.rules) {
        if let Some(entry) = ground.program.entry(text.as_bytes()) {
            maker.add(ground, entry, true)?;
        }
    }
    Ok(())
}

// Walks the entries of a routine, in order.
fn walk_lines(
    ground: &Ground<'_>,
    maker: &mut Maker,
    routine: usize,
    lines: &[Line],
) -> Result<(), Failure<GaveUp>> {
    for (number, line) in lines.iter().enumerate() {
        if number == 0 || line.label.is_some() {
            walk_entry(ground, maker, EntryId::new(routine, number))?;
        }
    }
    Ok(())
}

// Walks all entries, in order.
fn walk_all<W: Watch>(
    ground: &Ground<'_>,
    maker: &mut Maker,
    round: usize,
    watch: &W,
) -> Result<(), Failure<GaveUp>> {
    let routines = ground.program.routines();
    for (number, routine) in routines.iter().enumerate() {
        watch.see(Stage::Making(round), number, routines.len());
        walk_lines(ground, maker, number, routine.lines.as_slice())?;
    }
    Ok(())
}

// Makes rounds until one changes nothing.
fn walk_rounds<W: Watch>(
    ground: &Ground<'_>,
    maker: &mut Maker,
    watch: &W,
) -> Result<(), Failure<GaveUp>> {
    for round in 1..=MOST_ROUNDS {
        maker.last = round == MOST_ROUNDS;
        let before = maker.changes;
        walk_all(ground, maker, round, watch)?;
        if maker.changes == before {
            return Ok(());
        }
    }
    Ok(())
}

// Walks the declared entries and all that they reach.
fn walk_entries<W: Watch>(
    ground: &Ground<'_>,
    when_stuck: WhenStuck,
    watch: &W,
) -> Result<Maker, Failure<GaveUp>> {
    let mut maker = Maker::new(ground.alloc, when_stuck);
    add_declared(ground, &mut maker)?;
    walk_rounds(ground, &mut maker, watch)?;
    Ok(maker)
}

// The drafts of the declared entries and of all that they reach, once nothing changes any more. Refuses the first declared entry
// that is not in `program`.
fn certify<W: Watch>(
    alloc: Global,
    program: &Program<'_>,
    rules: &Rules,
    when_stuck: WhenStuck,
    watch: &W,
) -> Result<Maker, Failure<MakeError>>
    ensures made { IfOk result (λ m. find (is_missing (map routine_of program.now)) rules.now.entries ≡ None) }
    ensures refused { IfErr result (IsUnmade (map routine_of program.now) rules.now.entries) }
{
    if let Some(text) = first_missing(program, entries(rules)) {
        let text = Value::of(alloc, text)?;
        return Err(Failure::Refused(MakeError::EntryMissing(text)));
    }
    let declared = Entries::of(alloc, program, rules, &[])?;
    let ground = Ground {
        alloc,
        program,
        rules,
        declared: &declared,
    };
    match walk_entries(&ground, when_stuck, watch) {
        Ok(maker) => Ok(maker),
        Err(Failure::OutOfMemory) => Err(Failure::OutOfMemory),
        Err(Failure::Refused(place)) => Err(Failure::Refused(MakeError::GaveUp(place))),
    }
}

/// Makes a certificate of the declared entries, and of all that they reach by calls, and its text in `format`. Its entries are in
/// the program's order.
///
/// Their summaries begin empty. In each round every entry is walked, in order, until its lists no longer grow: what would mend a fault
/// is listed, if that is possible. Another round follows as long as one changes something, up to 64. The result is written, and in
/// the first format the certificate is read back from the text. `watch` sees the progress.
pub fn make<W: Watch>(
    alloc: Global,
    program: &Program<'_>,
    rules: &Rules,
    format: CertFormat,
    watch: &W,
) -> Result<Spelled, Failure<MakeError>>
    // It keeps to all limits, and the text is its own. None is made if a declared entry is missing in the program:
    ensures spells { IfOk result (λ s. SpellsIn format s.certificate s.text.items) }
    ensures made { IfOk result (λ s. find (is_missing (map routine_of program.now)) rules.now.entries ≡ None) }
    // then that is refused, and nothing else is refused so.
    ensures refused { IfErr result (IsUnmade (map routine_of program.now) rules.now.entries) }
{
    let maker = certify(alloc, program, rules, WhenStuck::Stop, watch)?;
    finish(alloc, maker, format)
}

/// Makes the certificate that `make` makes, without a text: so it may be larger than a text of a certificate may be.
pub fn make_certificate<W: Watch>(
    alloc: Global,
    program: &Program<'_>,
    rules: &Rules,
    watch: &W,
) -> Result<Certificate, Failure<MakeError>>
    // It keeps to all limits by its type. None is made of a program without a declared entry.
    ensures made { IfOk result (λ c. find (is_missing (map routine_of program.now)) rules.now.entries ≡ None) }
    ensures refused { IfErr result (IsUnmade (map routine_of program.now) rules.now.entries) }
{
    let maker = certify(alloc, program, rules, WhenStuck::Stop, watch)?;
    certificate_in(alloc, maker)
}

/// Makes the certificate that `make` makes, and where that gives up, one that has of the entries that were given up only what was
/// found so far. So the check by it says what is wrong in the other entries, too.
pub fn make_despite<W: Watch>(
    alloc: Global,
    program: &Program<'_>,
    rules: &Rules,
    watch: &W,
) -> Result<MadeDespite, Failure<MakeError>>
    ensures refused { IfErr result (IsUnmade (map routine_of program.now) rules.now.entries) }
{
    let mut maker = certify(alloc, program, rules, WhenStuck::Leave, watch)?;
    let given_up = mem::replace(&mut maker.given_up, Vec::new(alloc));
    let certificate = certificate_in(alloc, maker)?;
    Ok(MadeDespite {
        certificate,
        given_up,
    })
}
