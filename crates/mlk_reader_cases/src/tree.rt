// Printing of trees.

use mlk_expr::{Actual, Callee, Expr, Subscript};
use mlk_text::Name;
use std::io::{self, Write};

// Adds an operand: a literal, a pattern, a name or a special variable.
fn write_operand(tree: &Expr, out: &mut Vec<u8>) -> io::Result<()> {
    match tree {
        Expr::Lit(value) | Expr::Pattern(value) => Ok(out.extend_from_slice(value.as_bytes())?),
        Expr::Local(name, _) => Ok(out.extend_from_slice(name.as_bytes())?),
        Expr::Special(special) => write!(out, "{special:?}"),
        _ => Ok(out.extend_from_slice(b"other")?),
    }
}

// Adds subscripts, each with the column where it begins.
fn write_subscripts(subscripts: &[Subscript], out: &mut Vec<u8>) -> io::Result<()> {
    for subscript in subscripts {
        write!(out, " at {} ", subscript.column.number())?;
        write_operand(&subscript.value, out)?;
    }
    Ok(())
}

/// Adds a tree: operands with the operators between them, a function with the number of its arguments, or a global with its
/// column and its subscripts.
pub(crate) fn write_tree(tree: &Expr, out: &mut Vec<u8>) -> io::Result<()> {
    match tree {
        Expr::Binary(first, links) => {
            write_operand(first, out)?;
            for (op, right) in links {
                write!(out, " {op:?} ")?;
                write_operand(right, out)?;
            }
            Ok(())
        }
        Expr::Func(function, arguments) => write!(out, "{function:?} of {}", arguments.len()),
        Expr::Select(choices) => write!(out, "Select of {}", choices.len()),
        Expr::Global(column, name, subscripts) => {
            write!(out, "at {} ^", column.number())?;
            out.extend_from_slice(name.as_bytes())?;
            write_subscripts(subscripts.as_slice(), out)
        }
        _ => write_operand(tree, out),
    }
}

fn write_actual(actual: &Actual, out: &mut Vec<u8>) -> io::Result<()> {
    match actual {
        Actual::Value(tree) => write_operand(tree, out),
        Actual::ByRef(column, name) => {
            write!(out, "at {} .", column.number())?;
            Ok(out.extend_from_slice(name.as_bytes())?)
        }
        Actual::Missing => Ok(out.extend_from_slice(b"none")?),
    }
}

/// Adds actuals, each between bars.
pub(crate) fn write_actuals(actuals: &[Actual], out: &mut Vec<u8>) -> io::Result<()> {
    out.push(b'|')?;
    for actual in actuals {
        write_actual(actual, out)?;
        out.push(b'|')?;
    }
    Ok(())
}

fn write_name(name: &Option<Name>, out: &mut Vec<u8>) -> io::Result<()> {
    match name {
        Some(name) => Ok(out.extend_from_slice(name.as_bytes())?),
        None => Ok(()),
    }
}

/// Adds a callee: its label, `^` and its routine, each if it is named.
pub(crate) fn write_callee(callee: &Callee, out: &mut Vec<u8>) -> io::Result<()> {
    write_name(&callee.label, out)?;
    out.push(b'^')?;
    write_name(&callee.routine, out)
}
