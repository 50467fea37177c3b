// The arguments of OPEN, USE and CLOSE: a device, and details behind a colon, which have no tree.

ghost use Rattle.std.specs.Prelude.{◌≡◌, ◌<◌, ◌≤◌, ◌+◌, ◌^◌, ℕ, List, length, IfSome};
ghost use Rattle.mlk_routine_arguments.specs.PartsRead.{ReadsPart};
ghost use Rattle.mlk_routine_arguments.specs.Faults.{IsFaulty};
ghost use Rattle.mlk_routine_arguments.specs.CommandGrammar.{DeviceTree, IsDevice};
ghost use Rattle.mlk_routine_arguments.specs.Ends.{DetailsEnd, DeviceEnds};
ghost use Rattle.mlk_routine_arguments.specs.Stops.{device_stop};
ghost use Rattle.mlk_routine_arguments.specs.Begins.{device_begins};
ghost use Rattle.mlk_routine_arguments.specs.Details.{AreDetails, lettered, in_parameter, after, is_closed};
ghost use Rattle.mlk_routine_arguments.specs.Kinds.{IsLongest, device_of};

use crate::fault::{leaves_out, refusal_at};
use crate::item::Item;
use crate::part::{expression, is_argument_end};
use mlk_dialect::Dialect;
use mlk_expr::Allows;
use mlk_syntax::Expr;
use mlk_text::{Code, Failure, Fault, LeftOut};
use std::alloc::Global;

/// A device in OPEN, USE or CLOSE.
#[derive(Drop)]
pub struct Device {
    pub name: Expr,
    /// whether a timeout may follow it
    pub is_timed: bool,
}

/// What the bytes before a place in details are.
#[derive(Clone, Copy, Drop, PartialEq, Eq)]
pub(crate) enum Within {
    /// none: details begin with a colon
    Front,
    /// a parameter begins here
    First,
    /// a parameter began with `E`
    AfterE,
    /// a parameter began with `EX`
    AfterEx,
    /// others
    Later,
    /// a quoted text is not yet closed
    Quoted,
}

/// A place in details: what is before it, how many parentheses are open, and whether a timeout began.
#[derive(Clone, Copy, Drop)]
pub(crate) struct Spot {
    within: Within,
    depth: usize,
    is_timed: bool,
}

// The place after `b` in a parameter, unless it begins with `EXC`.
fn lettered(within: Within, b: u8) -> Option<Within>
    ensures { result ≡ lettered within b }
{
    match (within, b) {
        (Within::First, b'E' | b'e') => Some(Within::AfterE),
        (Within::AfterE, b'X' | b'x') => Some(Within::AfterEx),
        (Within::AfterEx, b'C' | b'c') => None,
        _ => Some(Within::Later),
    }
}

impl Spot {
    // The place after `b` in a parameter, if it may be there.
    #[tactic(auto, unfolding(crate::specs::Details::in_parameter))]
    fn in_parameter(self, b: u8) -> Option<Spot>
        requires { self.depth < 2 ^ 63 }
        ensures place { result ≡ in_parameter self b }
        ensures depth { IfSome result (λ spot. spot.depth ≤ self.depth + 1) }
    {
        let depth = match b {
            b'(' => self.depth + 1,
            b')' => self.depth.checked_sub(1)?,
            _ => self.depth,
        };
        let within = match b {
            b'"' => Within::Quoted,
            b':' | b'(' => Within::First,
            b')' => Within::Later,
            b',' if depth > 0 => Within::Later,
            b',' | b'^' | b'$' | b'@' | b' ' | b';' => return None,
            _ => lettered(self.within, b)?,
        };
        let is_timed = self.is_timed || (b == b':' && depth == 0);
        Some(Spot {
            within,
            depth,
            is_timed,
        })
    }

    // The place after `b`, if it may be there.
    #[tactic(auto, unfolding(crate::specs::Details::after))]
    fn after(self, b: u8) -> Option<Spot>
        requires { self.depth < 2 ^ 63 }
        ensures place { result ≡ after self b }
        ensures depth { IfSome result (λ spot. spot.depth ≤ self.depth + 1) }
    {
        let within = match (self.within, b) {
            (Within::Front, b':') => Within::First,
            (Within::Front, _) => return None,
            (Within::Quoted, b'"') => Within::Later,
            (Within::Quoted, _) => Within::Quoted,
            _ => return self.in_parameter(b),
        };
        Some(Spot { within, ..self })
    }

    // Whether details may end here.
    #[tactic(auto, unfolding(crate::specs::Details::is_closed))]
    fn is_closed(self) -> bool
        ensures { result ≡ is_closed self }
    {
        self.within != Within::Quoted && self.depth == 0
    }
}

// The place after the longest front of `bytes` that may be the front of details, and the rest.
fn longest_details(bytes: &[u8]) -> (Spot, &[u8])
    ensures { IsLongest bytes.now result.0 result.1.now }
{
    let mut spot = Spot {
        within: Within::Front,
        depth: 0,
        is_timed: false,
    };
    let mut rest = bytes;
    while let Some((b, more)) = rest.split_first() {
        let Some(after) = spot.after(*b) else {
            return (spot, rest);
        };
        spot = after;
        rest = more;
    }
    (spot, rest)
}

// Why details do not end at `at`, after `spot`, where `rest` follows.
fn no_details(alloc: Global, spot: Spot, rest: &[u8], at: usize) -> Failure<Fault>
    ensures { (line : List ℕ) → at ≤ length line → IsFaulty line result }
{
    match (spot.within, rest.first().copied()) {
        (Within::Front, _) => refusal_at(alloc, Code::Spacing, at),
        (Within::AfterEx, Some(b'C' | b'c')) => {
            leaves_out(alloc, LeftOut::Indirection, at.saturating_sub(2))
        }
        (_, Some(b'@')) => leaves_out(alloc, LeftOut::Indirection, at),
        (_, Some(b'^' | b'$')) => leaves_out(alloc, LeftOut::Order, at),
        _ => refusal_at(alloc, Code::ArgumentForm, at),
    }
}

// Reads the details at `at`, or none: whether a timeout may be among them, and the byte after them.
fn details(alloc: Global, line: &[u8], at: usize) -> Result<(bool, usize), Failure<Fault>>
    requires { at ≤ length line.now }
    ensures { ReadsPart (λ is_timed. is_timed) AreDetails DetailsEnd line.now at result }
{
    let (_, bytes) = line.split_at(at);
    let (spot, rest) = longest_details(bytes);
    let next = line.len() - rest.len();
    if !spot.is_closed() || !is_argument_end(line, next) {
        return Err(no_details(alloc, spot, rest, next));
    }
    Ok((spot.is_timed, next))
}

impl Item for Device {
    ghost Seen = { DeviceTree };

    ghost seen = { device_of };

    ghost is = { λ d. IsDevice };

    ghost ends = { DeviceEnds };

    ghost stop = { device_stop };

    ghost begin = { λ d. device_begins };

    fn read(
        alloc: Global,
        _dialect: Dialect,
        line: &[u8],
        at: usize,
    ) -> Result<(Device, usize), Failure<Fault>> {
        let (name, next) = expression(alloc, Allows::Everything, line, at)?;
        let (is_timed, next) = details(alloc, line, next)?;
        Ok((Device { name, is_timed }, next))
    }
}
