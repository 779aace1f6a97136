//! Functions.

ghost use Rattle.std.specs.Prelude.{◌≡◌, true, false, map, IfOk};
ghost use Rattle.qk_meaning.specs.Value as M;
ghost use Rattle.qk_meaning.specs.Running.{Running, answered};
ghost use Rattle.qk_meaning.specs.Setting.{Setting, captures};
ghost use Rattle.qk_meaning.specs.Parts.{packed, picked};
ghost use Rattle.qk_meaning.specs.Making as making;
ghost use Rattle.qk_meaning.specs.Calls as calls;
ghost use Rattle.qk_value.specs.View.{seen_all};
ghost use Rattle.qk_sites.specs.Symbols.{symbol_text};
ghost use Rattle.qk_environment.specs.Scoping.{Captures, scope_seen};
ghost use Rattle.qk_code.specs.Counts.{Counts, HasCause};
ghost use Rattle.qk_code.specs.Standing.{Knows, site_seen};
ghost use Rattle.qk_making.specs.Acting.{Comes_to, Leaves, seen_in};
ghost use Rattle.qk_making.specs.Keeping.{code_kept};

use crate::fixed::fixed;
use qk_ast::Site;
use qk_code::{Func, Stop};
use qk_environment::Scope;
use qk_shared::{Builder, List, Text};
use qk_value::{Fault, Fun, FunCode, Value};
use std::alloc::{AllocError, Global};

/// The function that the arrow at a place of the function's file makes: it keeps the values that it captures.
///
/// # Errors
///
/// `TreeTooLarge` and `TreeTooDeep`.
pub fn make_function(alloc: Global, func: &Func, place: u32, scope: &Scope) -> Result<Value, Stop>
    ensures made { (here : Setting) (s : Running) → Knows here.program func.now → here.file ≡ func.now.file → s.locals ≡ scope_seen (captures here) scope.now.names.items → Comes_to (seen_in here) (making.made_function here place s) result s }
    ensures cause { (counts : Counts) → HasCause counts counts result }
{
    let known = func.known_at(place);
    let code = code_at(alloc, &known.site)?;
    let captures = values_of(alloc, known.names.as_slice(), scope)?;
    fixed(Value::Fun(Fun {
        code,
        captures,
        hidden: false,
    }))
}

/// The values of these names, in order; undefined of one that isn't in scope.
fn values_of(alloc: Global, names: &[Text], scope: &Scope) -> Result<List<Value>, AllocError>
    ensures { IfOk result (λ values. (captured : Captures) → seen_all captured values ≡ packed (picked names.now (scope_seen captured scope.now.names.items))) }
{
    let mut values = Builder::new(alloc);
    for name in names {
        values.push(scope.value(name)?)?;
    }
    values.into_list(alloc)
}

/// The arrow of a site: a dollar one by its symbol.
fn code_at(alloc: Global, site: &Site) -> Result<FunCode, AllocError>
    ensures { IfOk result (λ code. code ≡ code_kept (site_seen site.now)) }
{
    if site.dollar {
        let symbol = symbol_of(alloc, &site.module, site.number)?;
        return Ok(FunCode::Symbol(symbol));
    }
    Ok(FunCode::Plain {
        file: site.module.share()?,
        number: site.number,
    })
}

/// The symbol of the dollar site with that number in the module of that name.
fn symbol_of(alloc: Global, name: &Text, number: u32) -> Result<Text, AllocError>
    ensures { IfOk result (λ text. text ≡ symbol_text name.now number) }
{
    let mut buffer = itoa::Buffer::new();
    let mut text = String::from_str(alloc, name.as_str())?;
    text.push_str("_s")?;
    text.push_str(buffer.format(number))?;
    Text::from_string(alloc, text)
}

/// The function of a symbol with these captured values.
///
/// # Errors
///
/// `TreeTooLarge` and `TreeTooDeep`.
pub fn make_lifted(alloc: Global, symbol: &Text, captured: Builder<Value>) -> Result<Value, Stop>
    ensures { (here : Setting) → Leaves (seen_in here) (making.made here (M.Lifted symbol.now (packed (map (seen_in here) captured)) false)) result }
{
    let code = FunCode::Symbol(symbol.share()?);
    let captures = captured.into_list(alloc)?;
    fixed(Value::Fun(Fun {
        code,
        captures,
        hidden: false,
    }))
}

/// A function with the mark of `noSerialize`.
///
/// # Errors
///
/// `TypeMismatch` of all that is no function.
pub fn marked(v: &Value) -> Result<Value, Stop>
    ensures { (here : Setting) → Leaves (seen_in here) (answered (calls.marked (seen_in here v.now))) result }
{
    match v {
        Value::Fun(function) => Ok(Value::Fun(with_mark(function)?)),
        Value::Undefined => Err(Stop::Fault(Fault::TypeMismatch)),
        Value::Null => Err(Stop::Fault(Fault::TypeMismatch)),
        Value::Bool(_) => Err(Stop::Fault(Fault::TypeMismatch)),
        Value::Int(_) => Err(Stop::Fault(Fault::TypeMismatch)),
        Value::Text(_) => Err(Stop::Fault(Fault::TypeMismatch)),
        Value::Ref(_) => Err(Stop::Fault(Fault::TypeMismatch)),
        Value::List(_) => Err(Stop::Fault(Fault::TypeMismatch)),
        Value::Record(_) => Err(Stop::Fault(Fault::TypeMismatch)),
        Value::Elem(_) => Err(Stop::Fault(Fault::TypeMismatch)),
    }
}

/// The same function, marked.
fn with_mark(function: &Fun) -> Result<Fun, AllocError>
    ensures { IfOk result (λ f. f ≡ record function.now { hidden = true }) }
{
    Ok(Fun {
        code: function.code.share()?,
        captures: function.captures.share()?,
        hidden: true,
    })
}
