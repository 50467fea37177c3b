// The operators of M's expressions.

/// A relation between two values. `'` before it negates it.
#[derive(Clone, Copy, Debug, Drop, PartialEq, Eq)]
pub enum Relation {
    /// `=`
    Equals,
    /// `<`
    Less,
    /// `>`
    Greater,
    /// `[`
    Contains,
    /// `]`
    Follows,
    /// `]]`
    SortsAfter,
    /// `&`
    And,
    /// `!`
    Or,
    /// `?`, whose right operand is a pattern
    Matches,
}

/// A binary operator.
#[derive(Clone, Copy, Debug, Drop, PartialEq, Eq)]
pub enum Op {
    /// `+`
    Add,
    /// `-`
    Subtract,
    /// `*`
    Multiply,
    /// `/`
    Divide,
    /// `\`
    DivideWhole,
    /// `#`
    Modulo,
    /// `**`
    Power,
    /// `_`
    Concatenate,
    /// a relation that must hold
    Is(Relation),
    /// a relation that must not hold
    IsNot(Relation),
}

/// A unary operator.
#[derive(Clone, Copy, Drop, PartialEq, Eq)]
pub enum UnaryOp {
    /// `+`
    Plus,
    /// `-`
    Minus,
    /// `'`
    Not,
}
