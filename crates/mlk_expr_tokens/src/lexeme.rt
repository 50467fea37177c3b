// The smallest parts of expressions: operators, the counts and codes of patterns, and what a byte may begin.

ghost use Rattle.std.specs.Prelude.{◌≡◌, ◌≤◌, length, option_map, None, false};
ghost use Rattle.mlk_expr_tokens.specs.Lexemes.{column_of, arithmetic_of, relation_of, relation_at, arithmetic_at, op_at};
ghost use Rattle.mlk_expr_tokens.specs.Lexemes.{is_match, unary_of, kind_of, count_at, is_pattern_code, pattern_codes};
ghost use Rattle.mlk_expr_tokens.specs.Lexemes.{pattern_codes_at, starts_reference, is_missing, ends};

use mlk_text::lexeme::{byte_of, digits, is_digit, is_letter};
use mlk_text::{Column, Op, Relation, UnaryOp};

/// What a byte may begin.
#[derive(Clone, Copy, Drop, PartialEq, Eq)]
pub enum Kind {
    Numeral,
    Quote,
    Letter,
    Caret,
    Dollar,
    Open,
    Prefix(UnaryOp),
    Other,
}

/// The column where `bytes` begin, in a line whose end has the column `end`.
pub fn column_of(end: usize, bytes: &[u8]) -> Column
    ensures { result ≡ column_of end bytes.now }
{
    Column::at(end.saturating_sub(bytes.len()))
}

#[tactic(auto, unfolding(crate::specs::Lexemes::arithmetic_of))]
fn arithmetic_of(b: u8) -> Option<Op>
    ensures { result ≡ arithmetic_of b }
{
    match b {
        b'+' => Some(Op::Add),
        b'-' => Some(Op::Subtract),
        b'*' => Some(Op::Multiply),
        b'/' => Some(Op::Divide),
        b'\\' => Some(Op::DivideWhole),
        b'#' => Some(Op::Modulo),
        b'_' => Some(Op::Concatenate),
        _ => None,
    }
}

#[tactic(auto, unfolding(crate::specs::Lexemes::relation_of))]
#[inline(always)]
fn relation_of(b: u8) -> Option<Relation>
    ensures { result ≡ relation_of b }
{
    match b {
        b'=' => Some(Relation::Equals),
        b'<' => Some(Relation::Less),
        b'>' => Some(Relation::Greater),
        b'[' => Some(Relation::Contains),
        b']' => Some(Relation::Follows),
        b'&' => Some(Relation::And),
        b'!' => Some(Relation::Or),
        b'?' => Some(Relation::Matches),
        _ => None,
    }
}

// Reads the relation at the front: the relation, and the rest. `None` if there is none.
#[tactic(auto, unfolding(crate::specs::Lexemes::relation_at))]
#[inline(always)]
fn relation_at(bytes: &[u8]) -> Option<(Relation, &[u8])>
    ensures { option_map (λ x. (x.0, x.1.now)) result ≡ relation_at bytes.now }
{
    let Some((first, rest)) = bytes.split_first() else {
        return None;
    };
    if *first == b']' {
        return match byte_of(b']', rest) {
            Some(after) => Some((Relation::SortsAfter, after)),
            None => Some((Relation::Follows, rest)),
        };
    }
    let relation = relation_of(*first)?;
    Some((relation, rest))
}

#[tactic(auto, unfolding(crate::specs::Lexemes::arithmetic_at))]
fn arithmetic_at(bytes: &[u8]) -> Option<(Op, &[u8])>
    ensures { option_map (λ x. (x.0, x.1.now)) result ≡ arithmetic_at bytes.now }
{
    let Some((first, rest)) = bytes.split_first() else {
        return None;
    };
    if *first == b'*' {
        return match byte_of(b'*', rest) {
            Some(after) => Some((Op::Power, after)),
            None => Some((Op::Multiply, rest)),
        };
    }
    let op = arithmetic_of(*first)?;
    Some((op, rest))
}

/// Reads the longest operator at the front: the operator, and the rest. `None` if there is none.
#[tactic(auto, unfolding(crate::specs::Lexemes::op_at))]
pub fn op_at(bytes: &[u8]) -> Option<(Op, &[u8])>
    ensures { option_map (λ x. (x.0, x.1.now)) result ≡ op_at bytes.now }
{
    if let Some(after) = byte_of(b'\'', bytes) {
        return match relation_at(after) {
            Some((relation, rest)) => Some((Op::IsNot(relation), rest)),
            None => None,
        };
    }
    match relation_at(bytes) {
        Some((relation, rest)) => Some((Op::Is(relation), rest)),
        None => arithmetic_at(bytes),
    }
}

/// Whether an operator may begin here: `false` at the end of a text and before a byte that usually follows an operand.
#[tactic(auto, unfolding(crate::specs::Lexemes::op_at, crate::specs::Lexemes::relation_at, crate::specs::Lexemes::arithmetic_at, crate::specs::Lexemes::relation_of, crate::specs::Lexemes::arithmetic_of))]
#[inline(always)]
pub fn may_continue(bytes: &[u8]) -> bool
    ensures { result ≡ false → op_at bytes.now ≡ None }
{
    let Some((first, _)) = bytes.split_first() else {
        return false;
    };
    match *first {
        b' ' => false,
        b',' => false,
        b')' => false,
        _ => true,
    }
}

/// Whether the right operand of `op` is a pattern.
pub fn is_match(op: Op) -> bool
    ensures { result ≡ is_match op }
{
    match op {
        Op::Is(Relation::Matches) => true,
        Op::IsNot(Relation::Matches) => true,
        _ => false,
    }
}

/// The unary operator that `b` spells, or `None`.
#[tactic(auto, unfolding(crate::specs::Lexemes::unary_of))]
pub fn unary_of(b: u8) -> Option<UnaryOp>
    ensures { result ≡ unary_of b }
{
    match b {
        b'+' => Some(UnaryOp::Plus),
        b'-' => Some(UnaryOp::Minus),
        b'\'' => Some(UnaryOp::Not),
        _ => None,
    }
}

/// What `b` begins.
#[tactic(auto, unfolding(crate::specs::Lexemes::kind_of))]
#[inline(always)]
pub fn kind_of(b: u8) -> Kind
    ensures { result ≡ kind_of b }
{
    if is_digit(b) || b == b'.' {
        return Kind::Numeral;
    }
    if is_letter(b) || b == b'%' {
        return Kind::Letter;
    }
    if let Some(op) = unary_of(b) {
        return Kind::Prefix(op);
    }
    match b {
        b'"' => Kind::Quote,
        b'^' => Kind::Caret,
        b'$' => Kind::Dollar,
        b'(' => Kind::Open,
        _ => Kind::Other,
    }
}

/// Reads the count of a pattern atom: its text, and the rest. `None` if there is none.
#[tactic(auto, unfolding(crate::specs::Lexemes::count_at))]
pub fn count_at(bytes: &[u8]) -> Option<(&[u8], &[u8])>
    ensures { option_map (λ x. (x.0.now, x.1.now)) result ≡ count_at bytes.now }
{
    let whole = digits(bytes);
    let (_, rest) = bytes.split_at(whole);
    if let Some(fraction) = byte_of(b'.', rest) {
        return Some(bytes.split_at(whole + 1 + digits(fraction)));
    }
    if whole == 0 {
        return None;
    }
    Some(bytes.split_at(whole))
}

fn is_pattern_code(b: u8) -> bool
    ensures { result ≡ is_pattern_code b }
{
    matches!(b, b'A' | b'C' | b'E' | b'L' | b'N' | b'P' | b'U')
        || matches!(b, b'a' | b'c' | b'e' | b'l' | b'n' | b'p' | b'u')
}

fn pattern_codes(bytes: &[u8]) -> usize
    ensures value { result ≡ pattern_codes bytes.now }
    ensures within { result ≤ length bytes.now }
{
    bytes.iter().take_while(|b| is_pattern_code(**b)).count()
}

/// Reads the pattern codes at the front: their text, and the rest. `None` if there are none.
#[tactic(auto, unfolding(crate::specs::Lexemes::pattern_codes_at))]
pub fn pattern_codes_at(bytes: &[u8]) -> Option<(&[u8], &[u8])>
    ensures { option_map (λ x. (x.0.now, x.1.now)) result ≡ pattern_codes_at bytes.now }
{
    let n = pattern_codes(bytes);
    if n == 0 {
        None
    } else {
        Some(bytes.split_at(n))
    }
}

/// Whether the name of a local or a global begins here.
pub fn starts_reference(bytes: &[u8]) -> bool
    ensures { result ≡ starts_reference bytes.now }
{
    match bytes.split_first() {
        Some((first, _)) => is_letter(*first) || *first == b'%' || *first == b'^',
        None => false,
    }
}

/// Whether an actual is missing here.
pub fn is_missing(bytes: &[u8]) -> bool
    ensures { result ≡ is_missing bytes.now }
{
    match bytes.split_first() {
        Some((first, _)) => *first == b',' || *first == b')',
        None => false,
    }
}

/// Whether an expression may end here.
#[tactic(auto, unfolding(crate::specs::Lexemes::ends))]
pub fn may_end(bytes: &[u8]) -> bool
    ensures { result ≡ ends bytes.now }
{
    let Some((first, _)) = bytes.split_first() else {
        return true;
    };
    matches!(*first, b' ' | b',' | b')' | b':' | b';')
}
