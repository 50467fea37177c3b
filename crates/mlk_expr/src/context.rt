// What is allowed in an expression, and where its reader is.

ghost use Rattle.std.specs.Prelude.{◌≡◌};
ghost use Rattle.mlk_expr.specs.Touches.{globals_may, calls_may, function_may, lends};

use mlk_syntax::Function;

/// What is allowed in an expression, depending on the dialect and on how certain the order is in which its parts are evaluated.
#[derive(Clone, Copy, Drop, PartialEq, Eq)]
pub enum Allows {
    /// everything, with `$INCREMENT`, which the standard does not have
    Extended,
    /// everything of the standard, global references and extrinsic calls included
    Everything,
    /// no extrinsic calls
    NoCalls,
    /// no extrinsic calls and no global references
    NoTouches,
}

impl Allows {
    pub(crate) fn globals(self) -> bool
        ensures { result ≡ globals_may self }
    {
        match self {
            Allows::NoTouches => false,
            _ => true,
        }
    }

    pub(crate) fn calls(self) -> bool
        ensures { result ≡ calls_may self }
    {
        match self {
            Allows::Extended | Allows::Everything => true,
            _ => false,
        }
    }

    pub(crate) fn function(self, function: Function) -> bool
        ensures { result ≡ function_may self function }
    {
        match (self, function) {
            (Allows::Extended, _) => true,
            (_, Function::Increment) => false,
            _ => true,
        }
    }
}

/// How actuals may be passed.
#[derive(Clone, Copy, Drop, PartialEq, Eq)]
pub enum Passing {
    /// by value or by reference
    ByReference,
    /// by value only
    ByValue,
}

impl Passing {
    pub(crate) fn is_by_reference(self) -> bool
        ensures { result ≡ lends self }
    {
        match self {
            Passing::ByReference => true,
            Passing::ByValue => false,
        }
    }
}

/// Where a reader is: in a line whose end has the column `end`, with `left` levels of nesting left, where `allows` is allowed.
#[derive(Clone, Copy, Drop)]
pub struct Context {
    pub end: usize,
    pub left: u8,
    pub allows: Allows,
}
