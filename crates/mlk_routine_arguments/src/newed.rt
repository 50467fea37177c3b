// The arguments of NEW in the extended dialect.

ghost use Rattle.std.specs.Prelude.{◌≡◌, ◌≤◌, length};
ghost use Rattle.std.specs.List.{prefix_len};
ghost use Rattle.mlk_routine_arguments.specs.PartsRead.{ReadsPart};
ghost use Rattle.mlk_routine_arguments.specs.Ends.{NewedEnds};
ghost use Rattle.mlk_routine_arguments.specs.Stops.{newed_stop};
ghost use Rattle.mlk_routine_arguments.specs.Begins.{newed_begins};
ghost use Rattle.mlk_routine_arguments.specs.Traps.{is_new_trap};
ghost use Rattle.mlk_routine_arguments.specs.TrapParts.{is_argument_byte};
ghost use Rattle.mlk_routine_arguments.specs.Kinds.{newed_of};
ghost use Rattle.mlk_routine_arguments.specs.CommandGrammar.{IsNewed};

use crate::changes::new;
use crate::item::Item;
use mlk_dialect::Dialect;
use mlk_expr_tokens::words::is_either;
use mlk_syntax::NewArgument;
use mlk_text::{Failure, Fault};
use std::alloc::Global;

/// An argument of NEW.
#[derive(Drop)]
pub enum NewItem {
    Local(NewArgument),
    /// a special variable with the code of a trap, or `$ESTACK`
    Trap,
}

// Whether `text` is a special variable that NEW may name.
#[tactic(auto, unfolding(crate::specs::Traps::is_new_trap))]
fn is_new_trap(text: &[u8]) -> bool
    ensures { result ≡ is_new_trap text.now }
{
    is_either(b"$ET", b"$ETRAP", text)
        || is_either(b"$ZT", b"$ZTRAP", text)
        || is_either(b"1E0", b"1E00000", text)
}

// The number of bytes at the front of `bytes` before one that may follow an argument.
fn argument_bytes(bytes: &[u8]) -> usize
    ensures value { result ≡ prefix_len is_argument_byte bytes.now }
    ensures within { result ≤ length bytes.now }
{
    bytes
        .iter()
        .take_while(|b| !(**b == b' ' || **b == b',' || **b == b')' || **b == b';'))
        .count()
}

/// Reads an argument of NEW: the argument, and the byte after it.
fn newed(
    alloc: Global,
    dialect: Dialect,
    line: &[u8],
    at: usize,
) -> Result<(NewItem, usize), Failure<Fault>>
    requires { at ≤ length line.now }
    ensures { ReadsPart newed_of IsNewed NewedEnds line.now at result }
{
    let (_, bytes) = line.split_at(at);
    let size = argument_bytes(bytes);
    let (text, _) = bytes.split_at(size);
    if is_new_trap(text) {
        return Ok((NewItem::Trap, at + size));
    }
    let (one, next) = new(alloc, dialect, line, at)?;
    Ok((NewItem::Local(one), next))
}

impl Item for NewItem {
    ghost use Rattle.std.specs.Prelude.{Option};
    ghost use Rattle.mlk_syntax.specs.Trees.{NewTree};

    ghost Seen = { Option NewTree };

    ghost seen = { newed_of };

    ghost is = { λ d. IsNewed };

    ghost ends = { NewedEnds };

    ghost stop = { newed_stop };

    ghost begin = { λ d. newed_begins };

    fn read(
        alloc: Global,
        dialect: Dialect,
        line: &[u8],
        at: usize,
    ) -> Result<(NewItem, usize), Failure<Fault>> {
        newed(alloc, dialect, line, at)
    }
}
