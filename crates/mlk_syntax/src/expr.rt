// Syntax trees of expressions. Parentheses leave no node.

use mlk_text::{Column, Name, Op, UnaryOp, Value};

/// A special variable.
#[derive(Clone, Copy, Debug, Drop, PartialEq, Eq)]
pub enum Special {
    Device,
    Horolog,
    Io,
    Job,
    Key,
    Principal,
    Quit,
    Storage,
    System,
    Test,
    X,
    Y,
}

/// A function of one or more arguments; `$SELECT` has its own kind of node.
#[derive(Clone, Copy, Debug, Drop, PartialEq, Eq)]
pub enum Function {
    Ascii,
    Char,
    Data,
    Extract,
    Find,
    FormatNumber,
    Get,
    Increment,
    Justify,
    Length,
    Name,
    Order,
    Piece,
    QueryLength,
    QuerySubscript,
    Query,
    Random,
    Reverse,
    Translate,
}

/// The label of a call, its routine, or both. A label may be digits.
#[derive(Drop)]
pub struct Callee {
    pub label: Option<Name>,
    pub routine: Option<Name>,
}

/// A subscript, with the column where it begins.
#[derive(Drop)]
#[cycle(syntax)]
pub struct Subscript {
    pub column: Column,
    pub value: Expr,
}

/// An item of an actual list.
#[derive(Drop)]
#[cycle(syntax)]
pub enum Actual {
    Value(Expr),
    /// a name after a point, with the column of the point
    ByRef(Column, Name),
    /// an empty item
    Missing,
}

/// An expression.
#[derive(Drop)]
#[cycle(syntax)]
pub enum Expr {
    /// the value of a string literal, or the canonical text of a numeric one
    Lit(Value),
    /// a numeric literal without a canonical text: its value is unknown
    Free,
    Local(Name, Vec<Subscript>),
    /// a global, with the column of its `^`
    Global(Column, Name, Vec<Subscript>),
    Special(Special),
    Unary(UnaryOp, Box<Expr>),
    /// The first operand, and each further operand with the operator before it. It denotes the left-associative tree.
    Binary(Box<Expr>, Vec<(Op, Expr)>),
    /// the atoms of a pattern, as written: only as the operand of `?` and `'?`
    Pattern(Value),
    Func(Function, Vec<Expr>),
    /// the conditions of `$SELECT`, each with its value
    Select(Vec<(Expr, Expr)>),
    /// a call, with the column of its `$$`; `None` if there is no actual list, `()` is an empty one
    Call(Column, Box<Callee>, Option<Vec<Actual>>),
}
