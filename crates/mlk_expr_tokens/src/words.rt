// The words after `$`.

ghost use Rattle.std.specs.Prelude.{◌≡◌, Some, None, if◌then◌else◌};
ghost use Rattle.mlk_expr_tokens.specs.Words.{is_either, special_to_principal, special_from_quit};
ghost use Rattle.mlk_expr_tokens.specs.Words.{special_of, function_to_fnumber, function_to_piece, function_from_qlength};
ghost use Rattle.mlk_expr_tokens.specs.Words.{function_of, is_increment, is_select};

use mlk_syntax::{Function, Special};

/// Whether `word` is `short` or `whole`, in either case.
#[inline(always)]
pub fn is_either(short: &[u8], whole: &[u8], word: &[u8]) -> bool
    ensures { result ≡ is_either short.now whole.now word.now }
{
    word.eq_ignore_ascii_case(short) || word.eq_ignore_ascii_case(whole)
}

// `found`, if `word` is `short` or `whole`.
fn if_either<T: Drop>(found: T, short: &[u8], whole: &[u8], word: &[u8]) -> Option<T>
    ensures { result ≡ (if is_either short.now whole.now word.now then Some found else None) }
{
    if is_either(short, whole, word) {
        Some(found)
    } else {
        None
    }
}

#[tactic(auto, unfolding(crate::specs::Words::special_to_principal))]
fn special_to_principal(word: &[u8]) -> Option<Special>
    ensures { result ≡ special_to_principal word.now }
{
    let Some(first) = word.first().copied() else {
        return None;
    };
    match first.to_ascii_uppercase() {
        b'D' => if_either(Special::Device, b"D", b"DEVICE", word),
        b'H' => if_either(Special::Horolog, b"H", b"HOROLOG", word),
        b'I' => if_either(Special::Io, b"I", b"IO", word),
        b'J' => if_either(Special::Job, b"J", b"JOB", word),
        b'K' => if_either(Special::Key, b"K", b"KEY", word),
        b'P' => if_either(Special::Principal, b"P", b"PRINCIPAL", word),
        _ => None,
    }
}

#[tactic(auto, unfolding(crate::specs::Words::special_from_quit))]
fn special_from_quit(word: &[u8]) -> Option<Special>
    ensures { result ≡ special_from_quit word.now }
{
    let Some(first) = word.first().copied() else {
        return None;
    };
    match first.to_ascii_uppercase() {
        b'Q' => if_either(Special::Quit, b"Q", b"QUIT", word),
        b'S' if is_either(b"S", b"STORAGE", word) => Some(Special::Storage),
        b'S' => if_either(Special::System, b"SY", b"SYSTEM", word),
        b'T' => if_either(Special::Test, b"T", b"TEST", word),
        b'X' => if_either(Special::X, b"X", b"X", word),
        b'Y' => if_either(Special::Y, b"Y", b"Y", word),
        _ => None,
    }
}

/// The special variable that `word` names, or `None`.
#[tactic(auto, unfolding(crate::specs::Words::special_of))]
pub fn special_of(word: &[u8]) -> Option<Special>
    ensures { result ≡ special_of word.now }
{
    match special_to_principal(word) {
        Some(special) => Some(special),
        None => special_from_quit(word),
    }
}

#[tactic(auto, unfolding(crate::specs::Words::function_to_fnumber))]
fn function_to_fnumber(word: &[u8]) -> Option<Function>
    ensures { result ≡ function_to_fnumber word.now }
{
    let Some(first) = word.first().copied() else {
        return None;
    };
    match first.to_ascii_uppercase() {
        b'A' => if_either(Function::Ascii, b"A", b"ASCII", word),
        b'C' => if_either(Function::Char, b"C", b"CHAR", word),
        b'D' => if_either(Function::Data, b"D", b"DATA", word),
        b'E' => if_either(Function::Extract, b"E", b"EXTRACT", word),
        b'F' if is_either(b"F", b"FIND", word) => Some(Function::Find),
        b'F' => if_either(Function::FormatNumber, b"FN", b"FNUMBER", word),
        _ => None,
    }
}

// Whether `word` is that of `$INCREMENT`.
fn is_increment(word: &[u8]) -> bool
    ensures { result ≡ is_increment word.now }
{
    is_either(b"I", b"INCREMENT", word) || word.eq_ignore_ascii_case(b"INCR")
}

#[tactic(auto, unfolding(crate::specs::Words::function_to_piece))]
fn function_to_piece(word: &[u8]) -> Option<Function>
    ensures { result ≡ function_to_piece word.now }
{
    let Some(first) = word.first().copied() else {
        return None;
    };
    match first.to_ascii_uppercase() {
        b'G' => if_either(Function::Get, b"G", b"GET", word),
        b'I' if is_increment(word) => Some(Function::Increment),
        b'J' => if_either(Function::Justify, b"J", b"JUSTIFY", word),
        b'L' => if_either(Function::Length, b"L", b"LENGTH", word),
        b'N' => if_either(Function::Name, b"NA", b"NAME", word),
        b'O' => if_either(Function::Order, b"O", b"ORDER", word),
        b'P' => if_either(Function::Piece, b"P", b"PIECE", word),
        _ => None,
    }
}

#[tactic(auto, unfolding(crate::specs::Words::function_from_qlength))]
fn function_from_qlength(word: &[u8]) -> Option<Function>
    ensures { result ≡ function_from_qlength word.now }
{
    let Some(first) = word.first().copied() else {
        return None;
    };
    match first.to_ascii_uppercase() {
        b'Q' if is_either(b"QL", b"QLENGTH", word) => Some(Function::QueryLength),
        b'Q' if is_either(b"QS", b"QSUBSCRIPT", word) => Some(Function::QuerySubscript),
        b'Q' => if_either(Function::Query, b"Q", b"QUERY", word),
        b'R' if is_either(b"R", b"RANDOM", word) => Some(Function::Random),
        b'R' => if_either(Function::Reverse, b"RE", b"REVERSE", word),
        b'T' => if_either(Function::Translate, b"TR", b"TRANSLATE", word),
        _ => None,
    }
}

/// The function that `word` names, or `None`; `$SELECT` is not one of them.
#[tactic(auto, unfolding(crate::specs::Words::function_of))]
pub fn function_of(word: &[u8]) -> Option<Function>
    ensures { result ≡ function_of word.now }
{
    if let Some(function) = function_to_fnumber(word) {
        return Some(function);
    }
    match function_to_piece(word) {
        Some(function) => Some(function),
        None => function_from_qlength(word),
    }
}

/// Whether `word` is that of `$SELECT`.
#[tactic(auto, unfolding(crate::specs::Words::is_select))]
pub fn is_select(word: &[u8]) -> bool
    ensures { result ≡ is_select word.now }
{
    is_either(b"S", b"SELECT", word)
}
