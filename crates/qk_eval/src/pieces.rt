//! What evaluation does in steps that need neither code nor host.

ghost use Rattle.std.specs.Prelude.{◌≡◌, List, [], ◌∷◌, drop, map, IfOk, IfSome, IfNone};
ghost use Rattle.qk_meaning.specs.Parts.{nth};
ghost use Rattle.std.specs.String.{string_bytes};
ghost use Rattle.qk_ast.specs.Texts as texts;
ghost use Rattle.qk_ast.specs.declared.Expr.TheVariants as expr;
ghost use Rattle.qk_meaning.specs.Value.{Site};
ghost use Rattle.qk_meaning.specs.Making.{filled as parts_filled};
ghost use Rattle.qk_meaning.specs.Methods as methods;
ghost use Rattle.qk_meaning.specs.Operators as operators;
ghost use Rattle.qk_meaning.specs.References as references;
ghost use Rattle.qk_value.specs.View.{seen};
ghost use Rattle.qk_value.specs.declared.value.Value.{Fun as Function};
ghost use Rattle.qk_ops.specs.Answering.{Gave};

use qk_ast::{AssignOp, Bin, Expr};
use qk_ops::{OpStop, binary, truthy};
use qk_shared::{Builder, Text};
use qk_value::{Fun, Value};
use std::alloc::{AllocError, Global};

/// The most bytes that a text has as a value.
const MOST_BYTES: usize = 1048576;

/// The parts of a template with the texts of its holes between them. Nothing is added to what is too long for a value already.
pub fn filled(alloc: Global, parts: &[Text], holes: &[Text]) -> Result<String, AllocError>
    ensures { IfOk result (λ t. operators.short_text (string_bytes t) ≡ operators.short_text (parts_filled parts.now holes.now)) }
{
    let mut text = String::new(alloc);
    for (i, part) in parts.iter().enumerate() {
        if text.len() > MOST_BYTES {
            return Ok(text);
        }
        text.push_str(part.as_str())?;
        if let Some(hole) = holes.get(i) {
            text.push_str(hole.as_str())?;
        }
    }
    Ok(text)
}

/// The value that an assignment writes, from the old one and the right side.
pub fn combined(alloc: Global, operator: AssignOp, old: &Value, v: Value) -> Result<Value, OpStop>
    ensures { (names : Site → List texts.Text) → Gave (seen names) (references.combined operator (seen names old.now) (seen names v)) result }
{
    match operator {
        AssignOp::Set => Ok(v),
        AssignOp::Add => binary(alloc, Bin::Add, old, &v),
        AssignOp::Sub => binary(alloc, Bin::Sub, old, &v),
        AssignOp::Mul => binary(alloc, Bin::Mul, old, &v),
    }
}

/// The value at a place; undefined behind the last one.
pub fn value_at(given: &[Value], at: usize) -> Result<Value, AllocError>
    ensures { IfOk result (λ v. (names : Site → List texts.Text) → nth (drop at (map (seen names) given.now)) 0 ≡ seen names v) }
{
    match given.get(at) {
        Some(v) => v.share(),
        None => Ok(Value::Undefined),
    }
}

/// The one argument, where there is one.
pub fn only(given: &[Value]) -> Option<&Value>
    ensures some { IfSome result (λ v. given.now ≡ v.now ∷ []) }
    ensures none { IfNone result ((v : Value) → given.now ≡ v ∷ [] → ⊥) }
{
    match given {
        [v] => Some(v),
        _ => None,
    }
}

/// The one argument, where there is one and it is a function.
pub fn one_function(given: &[Value]) -> Option<&Fun>
    ensures some { IfSome result (λ f. given.now ≡ Function f.now ∷ []) }
    ensures none { IfNone result ((f : Fun) → given.now ≡ Function f ∷ [] → ⊥) }
{
    match given {
        [Value::Fun(f)] => Some(f),
        _ => None,
    }
}

/// Of the first values those beside which a true value stands.
pub fn kept(alloc: Global, all: &[Value], flags: &[Value]) -> Result<Builder<Value>, AllocError>
    ensures { IfOk result (λ left. (names : Site → List texts.Text) → map (seen names) left ≡ methods.kept (map (seen names) all.now) (map (seen names) flags.now)) }
{
    let mut left = Builder::new(alloc);
    for (v, flag) in all.iter().zip(flags) {
        if truthy(flag) {
            left.push(v.share()?)?;
        }
    }
    Ok(left)
}

/// The symbol and the captured expressions of `qrl("symbol", [a, b])`.
pub fn symbol_and_names(arguments: &[Expr]) -> Option<(&Text, &[Expr])>
    ensures some { IfSome result (λ it. (rest : _) × (arguments.now ≡ expr.Text it.0.now ∷ (expr.List it.1.now ∷ rest))) }
    ensures none { IfNone result ((symbol : _) (names rest : _) → arguments.now ≡ expr.Text symbol ∷ (expr.List names ∷ rest) → ⊥) }
{
    let [first, second, ..] = arguments else {
        return None;
    };
    match (first, second) {
        (Expr::Text(symbol), Expr::List(names)) => Some((symbol, names.as_slice())),
        _ => None,
    }
}
