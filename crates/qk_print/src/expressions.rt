//! Expressions.
#![tactic(auto, using(crate::proofs::Fronts::begins_same, crate::proofs::Fronts::begins_with, crate::proofs::Fronts::begins_after))]

ghost use Rattle.std.specs.Prelude.{◌≡◌, ◌++◌, OnOk, OnErr, IfOk, None, List, ℕ, ◌∷◌, map, flat_map, codes};
ghost use Rattle.qk_print.specs.Growing.{Begins};
ghost use Rattle.qk_print.specs.Letters.{between, commas, braced, unless_bare, parts_and_holes, template_part};
ghost use Rattle.qk_print.specs.Printing.{expression_text, link_text, body_text, known_front, known_arguments, operand_text, operands_text, field_text, hole_text, pattern_text, first_operator};
ghost use Rattle.qk_print.specs.Lists.{printed_of, keyed_of, operated_of, expressions_text};

use crate::elements::element;
use crate::names::patterns;
use crate::put::{
    assign_sign, bin_sign, bump_sign, integer, put, quoted, template_part, truth, un_sign,
};
use crate::standing::{is_head, is_markup, is_operand, is_record, is_right_side};
use crate::statements::block;
use qk_ast::{Arrow, Bin, Body, Expr, Field, Known, Link, Operand};
use qk_shared::Text;
use std::alloc::AllocError;

#[cycle(printing)]
pub(crate) fn expression(x: &Expr, out: &mut Vec<u8>) -> Result<(), AllocError>
    ensures ok { OnOk result (out.new.items ≡ out.old.items ++ expression_text x.now) }
    ensures front { OnErr result (Begins out.old.items out.new.items) }
{
    match x {
        Expr::Undefined => put("undefined", out),
        Expr::Null => put("null", out),
        Expr::Bool(value) => put(truth(*value), out),
        Expr::Int(n) => integer(*n, out),
        Expr::Text(text) => quoted(text, out),
        Expr::Name(name) => put(name.as_str(), out),
        Expr::List(items) => {
            put("[", out)?;
            expressions(items.as_slice(), out)?;
            put("]", out)
        }
        Expr::Record(items) => fields(items.as_slice(), out),
        Expr::Template(parts, holes) => {
            put("`", out)?;
            template(parts.as_slice(), holes.as_slice(), out)?;
            put("`", out)
        }
        Expr::Unary(op, value) => {
            put(un_sign(*op), out)?;
            operand(value.get(), None, out)
        }
        Expr::Chain(first, later) => {
            operand(first.get(), first_operator(later.as_slice()), out)?;
            operands(later.as_slice(), out)
        }
        Expr::Cond(test, yes, no) => {
            operand(test.get(), None, out)?;
            put(" ? ", out)?;
            operand(yes.get(), None, out)?;
            put(" : ", out)?;
            operand(no.get(), None, out)
        }
        Expr::Post(head, later) => {
            unless_bare(head.get(), is_head(head.get()), out)?;
            links(later.as_slice(), out)
        }
        Expr::Assign(op, target, value) => {
            expression(target.get(), out)?;
            put(assign_sign(*op), out)?;
            unless_bare(value.get(), is_right_side(*op, value.get()), out)
        }
        Expr::Step(up, target) => {
            expression(target.get(), out)?;
            put(bump_sign(*up), out)
        }
        Expr::Known(known, values) => {
            put(known_front(*known), out)?;
            known_arguments(*known, values.as_slice(), out)?;
            put(")", out)
        }
        Expr::Arrow(arrow) => function(arrow.get(), out),
        Expr::Jsx(jsx) => element(jsx.get(), out),
    }
}

/// An expression, in parentheses unless it stands bare.
#[cycle(printing)]
pub(crate) fn unless_bare(x: &Expr, bare: bool, out: &mut Vec<u8>) -> Result<(), AllocError>
    ensures ok { OnOk result (out.new.items ≡ out.old.items ++ unless_bare bare (expression_text x.now)) }
    ensures front { OnErr result (Begins out.old.items out.new.items) }
{
    if bare {
        return expression(x, out);
    }
    put("(", out)?;
    expression(x, out)?;
    put(")", out)
}

/// An operand, before that operator.
#[cycle(printing)]
fn operand(x: &Expr, next: Option<Bin>, out: &mut Vec<u8>) -> Result<(), AllocError>
    ensures ok { OnOk result (out.new.items ≡ out.old.items ++ operand_text next (printed_of x.now)) }
    ensures front { OnErr result (Begins out.old.items out.new.items) }
{
    unless_bare(x, is_operand(next, x), out)
}

/// Expressions between commas.
#[cycle(printing)]
fn expressions(xs: &[Expr], out: &mut Vec<u8>) -> Result<(), AllocError>
    ensures ok { OnOk result (out.new.items ≡ out.old.items ++ expressions_text xs.now) }
    ensures front { OnErr result (Begins out.old.items out.new.items) }
{
    let Some((first, later)) = xs.split_first() else {
        return Ok(());
    };
    expression(first, out)?;
    for x in later {
        put(", ", out)?;
        expression(x, out)?;
    }
    Ok(())
}

/// What a known call begins with.
fn known_front(known: Known) -> &'static str
    ensures { result.now ≡ known_front known }
{
    match known {
        Known::Log => "console.log(",
        Known::Keys => "Object.keys(",
        Known::Str => "String(",
        Known::Trunc => "Math.trunc(",
    }
}

#[cycle(printing)]
fn known_arguments(known: Known, xs: &[Expr], out: &mut Vec<u8>) -> Result<(), AllocError>
    ensures ok { OnOk result (out.new.items ≡ out.old.items ++ known_arguments known (map printed_of xs.now)) }
    ensures front { OnErr result (Begins out.old.items out.new.items) }
{
    match known {
        Known::Log => expressions(xs, out),
        Known::Keys => expressions(xs, out),
        Known::Str => expressions(xs, out),
        Known::Trunc => quotient(xs, out),
    }
}

/// The dividend and the divisor, as operands.
#[cycle(printing)]
fn quotient(xs: &[Expr], out: &mut Vec<u8>) -> Result<(), AllocError>
    ensures ok { OnOk result (out.new.items ≡ out.old.items ++ between (codes " / ") (map (operand_text None) (map printed_of xs.now))) }
    ensures front { OnErr result (Begins out.old.items out.new.items) }
{
    let Some((first, later)) = xs.split_first() else {
        return Ok(());
    };
    operand(first, None, out)?;
    for x in later {
        put(" / ", out)?;
        operand(x, None, out)?;
    }
    Ok(())
}

/// The fields of a record, in braces.
#[cycle(printing)]
fn fields(fields: &[Field], out: &mut Vec<u8>) -> Result<(), AllocError>
    ensures ok { OnOk result (out.new.items ≡ out.old.items ++ braced (map field_text (map keyed_of fields.now))) }
    ensures front { OnErr result (Begins out.old.items out.new.items) }
{
    let Some((first, later)) = fields.split_first() else {
        return put("{ }", out);
    };
    put("{ ", out)?;
    field(first, out)?;
    for one in later {
        put(", ", out)?;
        field(one, out)?;
    }
    put(" }", out)
}

#[cycle(printing)]
fn field(field: &Field, out: &mut Vec<u8>) -> Result<(), AllocError>
    ensures ok { OnOk result (out.new.items ≡ out.old.items ++ field_text (keyed_of field.now)) }
    ensures front { OnErr result (Begins out.old.items out.new.items) }
{
    quoted(&field.key, out)?;
    put(": ", out)?;
    expression(&field.value, out)
}

/// The parts and holes of a template by turns.
#[cycle(printing)]
fn template(parts: &[Text], holes: &[Expr], out: &mut Vec<u8>) -> Result<(), AllocError>
    ensures ok { OnOk result (out.new.items ≡ out.old.items ++ parts_and_holes parts.now (map hole_text (map printed_of holes.now))) }
    ensures front { OnErr result (Begins out.old.items out.new.items) }
{
    let mut left = parts;
    for x in holes {
        left = part_before_hole(left, out)?;
        hole(x, out)?;
    }
    parts_left(left, out)
}

/// The parts behind the last hole.
fn parts_left(parts: &[Text], out: &mut Vec<u8>) -> Result<(), AllocError>
    ensures ok { OnOk result (out.new.items ≡ out.old.items ++ flat_map template_part parts.now) }
    ensures front { OnErr result (Begins out.old.items out.new.items) }
{
    for part in parts {
        template_part(part, out)?;
    }
    Ok(())
}

/// A part's text where there is one, and the parts that are left.
fn part_before_hole<'a>(parts: &'a [Text], out: &mut Vec<u8>) -> Result<&'a [Text], AllocError>
    ensures ok { IfOk result (λ left. (text : List ℕ) × (out.new.items ≡ out.old.items ++ text)
        × ((hole : List ℕ) (holes : List (List ℕ)) → parts_and_holes parts.now (hole ∷ holes) ≡ text ++ (codes "${" ++ (hole ++ (codes "}" ++ parts_and_holes left.now holes))))) }
    ensures front { OnErr result (Begins out.old.items out.new.items) }
{
    match parts.split_first() {
        Some((part, left)) => {
            template_part(part, out)?;
            Ok(left)
        }
        None => Ok(parts),
    }
}

/// A hole of a template: JSX stands in parentheses there.
#[cycle(printing)]
fn hole(x: &Expr, out: &mut Vec<u8>) -> Result<(), AllocError>
    ensures ok { OnOk result (out.new.items ≡ out.old.items ++ (codes "${" ++ (hole_text (printed_of x.now) ++ codes "}"))) }
    ensures front { OnErr result (Begins out.old.items out.new.items) }
{
    put("${", out)?;
    unless_bare(x, !is_markup(x), out)?;
    put("}", out)
}

/// The operator that comes first.
fn first_operator(operands: &[Operand]) -> Option<Bin>
    ensures { result ≡ first_operator (map operated_of operands.now) }
{
    match operands.first() {
        Some(operand) => Some(operand.op),
        None => None,
    }
}

/// Operators, each with its operand.
#[cycle(printing)]
fn operands(operands: &[Operand], out: &mut Vec<u8>) -> Result<(), AllocError>
    ensures ok { OnOk result (out.new.items ≡ out.old.items ++ operands_text (map operated_of operands.now)) }
    ensures front { OnErr result (Begins out.old.items out.new.items) }
{
    for (at, one) in operands.iter().enumerate() {
        put(bin_sign(one.op), out)?;
        operand(&one.value, first_operator(&operands[at + 1..]), out)?;
    }
    Ok(())
}

#[cycle(printing)]
fn links(links: &[Link], out: &mut Vec<u8>) -> Result<(), AllocError>
    ensures ok { OnOk result (out.new.items ≡ out.old.items ++ flat_map link_text links.now) }
    ensures front { OnErr result (Begins out.old.items out.new.items) }
{
    for one in links {
        link(one, out)?;
    }
    Ok(())
}

#[cycle(printing)]
fn link(link: &Link, out: &mut Vec<u8>) -> Result<(), AllocError>
    ensures ok { OnOk result (out.new.items ≡ out.old.items ++ link_text link.now) }
    ensures front { OnErr result (Begins out.old.items out.new.items) }
{
    match link {
        Link::Prop(name) => {
            put(".", out)?;
            put(name.as_str(), out)
        }
        Link::Index(x) => {
            put("[", out)?;
            expression(x, out)?;
            put("]", out)
        }
        Link::Call(values) => {
            put("(", out)?;
            expressions(values.as_slice(), out)?;
            put(")", out)
        }
    }
}

#[cycle(printing)]
fn function(arrow: &Arrow, out: &mut Vec<u8>) -> Result<(), AllocError>
    ensures ok { OnOk result (out.new.items ≡ out.old.items ++ (codes "(" ++ (commas (map pattern_text arrow.now.params) ++ (codes ") => " ++ body_text arrow.now.body)))) }
    ensures front { OnErr result (Begins out.old.items out.new.items) }
{
    put("(", out)?;
    patterns(arrow.params.as_slice(), out)?;
    put(") => ", out)?;
    body(&arrow.body, out)
}

/// What follows `=>`: a record in parentheses, since its brace would begin a block.
#[cycle(printing)]
fn body(body: &Body, out: &mut Vec<u8>) -> Result<(), AllocError>
    ensures ok { OnOk result (out.new.items ≡ out.old.items ++ body_text body.now) }
    ensures front { OnErr result (Begins out.old.items out.new.items) }
{
    match body {
        Body::Value(x) => unless_bare(x.get(), !is_record(x.get()), out),
        Body::Block(statements) => block(statements.as_slice(), out),
    }
}
