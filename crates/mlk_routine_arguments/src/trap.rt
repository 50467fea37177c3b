// SET of an error trap: the code that an error runs.

ghost use Rattle.std.specs.Prelude.{◌≡◌, ◌≤◌, ℕ, length, drop, option_map, IfOk};
ghost use Rattle.mlk_text.specs.Places.{column_at};
ghost use Rattle.std.specs.List.{prefix_len};
ghost use Rattle.mlk_expr_tokens.specs.Words.{is_either};
ghost use Rattle.mlk_syntax.specs.Views.{action_of, call_of};
ghost use Rattle.mlk_routine_arguments.specs.PartsRead.{ReadsPart};
ghost use Rattle.mlk_routine_arguments.specs.Ends.{TrapEnds};
ghost use Rattle.mlk_routine_arguments.specs.Traps.{is_trap, is_ending, is_unquoted, nothing, IsTrap};
ghost use Rattle.mlk_routine_arguments.specs.TrapParts.{trap_value, sets_trap, quoted_code, past_word, past_command, past_clearing};
ghost use Rattle.mlk_routine_arguments.specs.TrapParts.{halts_here, IsRestartIn, IsHandlerIn};

use crate::call::label_and_routine;
use crate::fault::leaves_out;
use crate::spacing::is_command_end;
use mlk_dialect::Dialect;
use mlk_expr_tokens::words::is_either;
use mlk_syntax::{Action, Call, Expr};
use mlk_text::lexeme::{byte_of, word_at};
use mlk_text::{Column, Failure, Fault, LeftOut, Value};
use std::alloc::{AllocError, Global};

// Whether `name` is that of a special variable with the code of a trap.
#[tactic(auto, unfolding(crate::specs::Traps::is_trap))]
fn is_trap(name: &[u8]) -> bool
    ensures { result ≡ is_trap name.now }
{
    is_either(b"ET", b"ETRAP", name) || is_either(b"ZT", b"ZTRAP", name)
}

// What follows the `=` of a SET whose first target is a trap; `bytes` begin with the space before its arguments.
#[tactic(auto, unfolding(crate::specs::TrapParts::trap_value))]
fn trap_value(bytes: &[u8]) -> Option<&[u8]>
    ensures { option_map (λ value. (61, value.now)) result ≡ trap_value bytes.now }
{
    let Some(target) = byte_of(b' ', bytes) else {
        return None;
    };
    let Some(named) = byte_of(b'$', target) else {
        return None;
    };
    let (name, rest) = word_at(named);
    if is_trap(name) {
        byte_of(b'=', rest)
    } else {
        None
    }
}

/// Whether a SET is one of a trap, by its first target; the arguments of the SET begin with the space at `at`.
pub fn sets_trap(dialect: Dialect, line: &[u8], at: usize) -> bool
    requires { at ≤ length line.now }
    ensures { result ≡ sets_trap dialect (drop at line.now) }
{
    match dialect {
        Dialect::Standard => false,
        Dialect::Extended => {
            let (_, bytes) = line.split_at(at);
            trap_value(bytes).is_some()
        }
    }
}

// The number of bytes before the first quote.
fn unquoted(bytes: &[u8]) -> usize
    ensures value { result ≡ prefix_len is_unquoted bytes.now }
    ensures within { result ≤ length bytes.now }
{
    bytes.iter().take_while(|b| **b != b'"').count()
}

// The text in quotes at the front, if there are no quotes in it, and what follows it.
#[tactic(auto, unfolding(crate::specs::TrapParts::quoted_code))]
fn quoted_code(bytes: &[u8]) -> Option<(&[u8], &[u8])>
    ensures { option_map (λ read. (read.0.now, read.1.now)) result ≡ quoted_code bytes.now }
{
    let Some(inside) = byte_of(b'"', bytes) else {
        return None;
    };
    let (code, rest) = inside.split_at(unquoted(inside));
    let Some(after) = byte_of(b'"', rest) else {
        return None;
    };
    Some((code, after))
}

// What follows a word and a space at the front.
#[tactic(auto, unfolding(crate::specs::TrapParts::past_word))]
fn past_word<'a>(short: &[u8], whole: &[u8], bytes: &'a [u8]) -> Option<&'a [u8]>
    ensures { option_map (λ rest. (32, rest.now)) result ≡ past_word (is_either short.now whole.now) bytes.now }
{
    let (word, rest) = word_at(bytes);
    if is_either(short, whole, word) {
        byte_of(b' ', rest)
    } else {
        None
    }
}

// What follows a word and two spaces at the front, as after a command without arguments.
#[tactic(auto, unfolding(crate::specs::TrapParts::past_command))]
fn past_command<'a>(short: &[u8], whole: &[u8], bytes: &'a [u8]) -> Option<&'a [u8]>
    ensures { option_map (λ rest. (32, rest.now)) result ≡ past_command (is_either short.now whole.now) bytes.now }
{
    let Some(rest) = past_word(short, whole, bytes) else {
        return None;
    };
    byte_of(b' ', rest)
}

// What follows `L  N  D ` at the front.
#[tactic(auto, unfolding(crate::specs::TrapParts::past_clearing))]
fn past_clearing(bytes: &[u8]) -> Option<&[u8]>
    ensures { option_map (λ rest. (32, rest.now)) result ≡ past_clearing bytes.now }
{
    let Some(locked) = past_command(b"L", b"LOCK", bytes) else {
        return None;
    };
    let Some(cleared) = past_command(b"N", b"NEW", locked) else {
        return None;
    };
    past_word(b"D", b"DO", cleared)
}

// Whether a space and HALT follow, and nothing else.
#[tactic(auto, unfolding(crate::specs::TrapParts::halts_here))]
fn halts_here(code: &[u8], at: usize) -> bool
    requires { at ≤ length code.now }
    ensures { result ≡ halts_here (drop at code.now) }
{
    let (_, bytes) = code.split_at(at);
    match byte_of(b' ', bytes) {
        Some(word) => is_either(b"H", b"HALT", word),
        None => false,
    }
}

// The call of the entry at which a job begins anew after an error, by the code in `column`; `None` if `code` does anything else.
fn restart(alloc: Global, column: Column, code: &[u8]) -> Result<Option<Call>, AllocError>
    ensures { (at : ℕ) → column ≡ column_at at → IfOk result (λ call. IsRestartIn at code.now (option_map call_of call)) }
{
    let Some(rest) = past_clearing(code) else {
        return Ok(None);
    };
    let start = code.len().saturating_sub(rest.len());
    let (callee, next) = match label_and_routine(alloc, code, start) {
        Ok(read) => read,
        Err(Failure::OutOfMemory) => return Err(AllocError),
        Err(Failure::Refused(_)) => return Ok(None),
    };
    if callee.routine.is_none() || !halts_here(code, next) {
        return Ok(None);
    }
    Ok(Some(Call {
        column,
        callee,
        actuals: None,
    }))
}

/// The action of what does nothing.
pub fn nothing(alloc: Global) -> Result<Action, AllocError>
    ensures { IfOk result (λ action. action_of action ≡ nothing) }
{
    let mut times = Vec::with_capacity(alloc, 1)?;
    times.push_reserved(Expr::Lit(Value::new(Vec::new(alloc))));
    Ok(Action::Hang(times))
}

// Whether `code` ends the job and does nothing else.
#[tactic(auto, unfolding(crate::specs::Traps::is_ending))]
fn is_ending(code: &[u8]) -> bool
    ensures { result ≡ is_ending code.now }
{
    is_either(b"H", b"HALT", code)
        || is_either(b"L  H", b"L  HALT", code)
        || is_either(b"LOCK  H", b"LOCK  HALT", code)
        || is_either(b"ZHALT", b"ZGOTO 0", code)
}

// What an error does by the code in `column`; `None` if that is not read.
fn handler(alloc: Global, column: Column, code: &[u8]) -> Result<Option<Action>, AllocError>
    ensures { (at : ℕ) → column ≡ column_at at → IfOk result (λ action. IsHandlerIn at code.now (option_map action_of action)) }
{
    if is_ending(code) {
        return Ok(Some(nothing(alloc)?));
    }
    let Some(call) = restart(alloc, column, code)? else {
        return Ok(None);
    };
    let mut calls = Vec::with_capacity(alloc, 1)?;
    calls.push_reserved(call);
    Ok(Some(Action::Job(calls)))
}

/// Reads SET of a trap from the space before its argument: its action, and the byte after the argument. Code that is not read, and
/// what is no text in quotes, is refused where it begins.
pub fn trap_action(alloc: Global, line: &[u8], at: usize) -> Result<(Action, usize), Failure<Fault>>
    requires { at ≤ length line.now }
    ensures { ReadsPart action_of IsTrap TrapEnds line.now at result }
{
    let (_, bytes) = line.split_at(at);
    let Some(value) = trap_value(bytes) else {
        return Err(leaves_out(alloc, LeftOut::Special, at));
    };
    let start = line.len().saturating_sub(value.len());
    let Some((code, rest)) = quoted_code(value) else {
        return Err(leaves_out(alloc, LeftOut::Indirection, start));
    };
    let next = line.len().saturating_sub(rest.len());
    if !is_command_end(line, next) {
        return Err(leaves_out(alloc, LeftOut::Indirection, start));
    }
    match handler(alloc, Column::at(start + 1), code)? {
        Some(action) => Ok((action, next)),
        None => Err(leaves_out(alloc, LeftOut::Indirection, start)),
    }
}
