//! Statements and blocks.
#![tactic(auto, using(crate::proofs::Fronts::begins_same, crate::proofs::Fronts::begins_with, crate::proofs::Fronts::begins_after))]

ghost use Rattle.std.specs.Prelude.{◌≡◌, ◌++◌, OnOk, OnErr, map, not, codes};
ghost use Rattle.qk_print.specs.Growing.{Begins};
ghost use Rattle.qk_print.specs.Letters.{unless_bare};
ghost use Rattle.qk_print.specs.Shapes.{is_markup};
ghost use Rattle.qk_print.specs.Printing.{expression_text, statement_text, else_text};
ghost use Rattle.qk_print.specs.Lists.{statements_text};

use crate::expressions::{expression, unless_bare};
use crate::names::pattern;
use crate::put::put;
use crate::standing::{is_markup, is_statement};
use qk_ast::{Expr, Stmt};
use qk_shared::Text;
use std::alloc::AllocError;

#[cycle(printing)]
fn statement(statement: &Stmt, out: &mut Vec<u8>) -> Result<(), AllocError>
    ensures ok { OnOk result (out.new.items ≡ out.old.items ++ statement_text statement.now) }
    ensures front { OnErr result (Begins out.old.items out.new.items) }
{
    match statement {
        Stmt::Const(names, x) => {
            put("const ", out)?;
            pattern(names, out)?;
            put(" = ", out)?;
            ended(x, out)
        }
        Stmt::Let(name, x) => {
            put("let ", out)?;
            put(name.as_str(), out)?;
            put(" = ", out)?;
            ended(x, out)
        }
        Stmt::Do(x) => {
            unless_bare(x, is_statement(x), out)?;
            put(";", out)
        }
        Stmt::Delete(x) => {
            put("delete ", out)?;
            ended(x, out)
        }
        Stmt::Return(None) => put("return;", out),
        Stmt::Return(Some(x)) => {
            put("return ", out)?;
            ended(x, out)
        }
        Stmt::If(test, then, otherwise) => {
            put("if (", out)?;
            expression(test, out)?;
            put(") ", out)?;
            block(then.as_slice(), out)?;
            else_block(otherwise.as_slice(), out)
        }
        Stmt::While(test, inside) => {
            put("while (", out)?;
            expression(test, out)?;
            put(") ", out)?;
            block(inside.as_slice(), out)
        }
        Stmt::ForOf(name, x, inside) => {
            for_each(name, out)?;
            over(x, out)?;
            block(inside.as_slice(), out)
        }
        Stmt::Break => put("break;", out),
        Stmt::Continue => put("continue;", out),
        Stmt::Block(inside) => block(inside.as_slice(), out),
    }
}

/// What stands in a `for` before the list.
fn for_each(name: &Text, out: &mut Vec<u8>) -> Result<(), AllocError>
    ensures ok { OnOk result (out.new.items ≡ out.old.items ++ (codes "for (const " ++ (name.now ++ codes " of "))) }
    ensures front { OnErr result (Begins out.old.items out.new.items) }
{
    put("for (const ", out)?;
    put(name.as_str(), out)?;
    put(" of ", out)
}

/// The list that a `for` goes over, JSX in parentheses, and what closes the head.
#[cycle(printing)]
fn over(x: &Expr, out: &mut Vec<u8>) -> Result<(), AllocError>
    ensures ok { OnOk result (out.new.items ≡ out.old.items ++ (unless_bare (not (is_markup x.now)) (expression_text x.now) ++ codes ") ")) }
    ensures front { OnErr result (Begins out.old.items out.new.items) }
{
    unless_bare(x, !is_markup(x), out)?;
    put(") ", out)
}

/// An expression and a semicolon.
#[cycle(printing)]
fn ended(x: &Expr, out: &mut Vec<u8>) -> Result<(), AllocError>
    ensures ok { OnOk result (out.new.items ≡ out.old.items ++ (expression_text x.now ++ codes ";")) }
    ensures front { OnErr result (Begins out.old.items out.new.items) }
{
    expression(x, out)?;
    put(";", out)
}

/// Statements in braces, a space behind each.
#[cycle(printing)]
pub(crate) fn block(statements: &[Stmt], out: &mut Vec<u8>) -> Result<(), AllocError>
    ensures ok { OnOk result (out.new.items ≡ out.old.items ++ statements_text statements.now) }
    ensures front { OnErr result (Begins out.old.items out.new.items) }
{
    put("{ ", out)?;
    for one in statements {
        statement(one, out)?;
        put(" ", out)?;
    }
    put("}", out)
}

/// What follows the block of an `if`: nothing where there is nothing else to do.
#[cycle(printing)]
fn else_block(statements: &[Stmt], out: &mut Vec<u8>) -> Result<(), AllocError>
    ensures ok { OnOk result (out.new.items ≡ out.old.items ++ else_text (map statement_text statements.now)) }
    ensures front { OnErr result (Begins out.old.items out.new.items) }
{
    if statements.is_empty() {
        return Ok(());
    }
    put(" else ", out)?;
    block(statements, out)
}
