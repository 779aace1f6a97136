//! Fixed data.

ghost use Rattle.std.specs.Prelude.{◌≡◌, List, IfOk};
ghost use Rattle.qk_ast.specs.Texts as texts;
ghost use Rattle.qk_meaning.specs.Value.{Site, end};
ghost use Rattle.qk_meaning.specs.Roots as roots;
ghost use Rattle.qk_value.specs.View.{seen, seen_all, seen_fields};
ghost use Rattle.qk_whole.specs.Literals.{all_literals, fields_behind};

use qk_ast::{Expr, Field};
use qk_shared::{Builder, List, Text};
use qk_value::{Value, put_field};
use std::alloc::{AllocError, Global};

/// The value of fixed data; undefined of all else.
///
/// # Errors
///
/// For want of memory. So is refused, too, a number of which an `i64` doesn't hold the negated one; no text has one.
#[cycle(literal)]
pub(crate) fn literal(alloc: Global, x: &Expr) -> Result<Value, AllocError>
    ensures { IfOk result (λ v. (names : Site → List texts.Text) → seen names v ≡ roots.literal x.now) }
{
    match x {
        Expr::Bool(b) => Ok(Value::Bool(*b)),
        Expr::Int(n) => Ok(Value::Int(*n)),
        Expr::Text(text) => Ok(Value::Text(text.share()?)),
        Expr::Null => Ok(Value::Null),
        Expr::List(items) => Ok(Value::List(literals(alloc, items.as_slice())?)),
        Expr::Record(fields) => Ok(Value::Record(literal_fields(alloc, fields.as_slice())?)),
        Expr::Unary(_, value) => negated(literal(alloc, value.get())?),
        _ => Ok(Value::Undefined),
    }
}

/// The values of a list.
#[cycle(literal)]
fn literals(alloc: Global, items: &[Expr]) -> Result<List<Value>, AllocError>
    ensures { IfOk result (λ vs. (names : Site → List texts.Text) → seen_all names vs ≡ all_literals items.now) }
{
    let mut values = Builder::new(alloc);
    for item in items {
        values.push(literal(alloc, item)?)?;
    }
    values.into_list(alloc)
}

/// The values of fields, in the order of listing.
#[cycle(literal)]
fn literal_fields(alloc: Global, fields: &[Field]) -> Result<List<(Text, Value)>, AllocError>
    ensures { IfOk result (λ vs. (names : Site → List texts.Text) → seen_fields names vs ≡ fields_behind end fields.now) }
{
    let mut values = Vec::new(alloc);
    for field in fields {
        put_field(
            &mut values,
            field.key.share()?,
            literal(alloc, &field.value)?,
        )?;
    }
    List::from_vec(alloc, values)
}

/// A number negated; all else stays.
fn negated(v: Value) -> Result<Value, AllocError>
    ensures { IfOk result (λ w. (names : Site → List texts.Text) → seen names w ≡ roots.negated (seen names v)) }
{
    match v {
        Value::Int(n) => match n.checked_neg() {
            Some(n) => Ok(Value::Int(n)),
            None => Err(AllocError),
        },
        v => Ok(v),
    }
}
