//! What the names of a file's root give.

ghost use Rattle.std.specs.Prelude.{◌≡◌, IfOk};
ghost use Rattle.qk_meaning.specs.Program.{Program, Shows};
ghost use Rattle.qk_meaning.specs.Value as M;
ghost use Rattle.qk_meaning.specs.Making.{root_shown};
ghost use Rattle.qk_meaning.specs.References.{root_reference, Of};
ghost use Rattle.qk_code.specs.Standing.{Means};
ghost use Rattle.qk_value.specs.View.{shown_by};
ghost use Rattle.qk_eval.specs.Seeing.{value_seen};

use qk_code::{Func, Root};
use qk_shared::{Builder, Text};
use qk_value::{ElemTag, Fun, FunCode, Value};
use std::alloc::{AllocError, Global};

/// The value of a name of a file's root; undefined of a component.
pub fn root_value(alloc: Global, root: &Root) -> Result<Value, AllocError>
    ensures { IfOk result (λ v. (p : Program) (file name : M.Text) → Means p file name root.now → root_reference (p.root file name) ≡ Of (value_seen p v)) }
{
    match root {
        Root::Fn(func) => plain_function(alloc, func.get()),
        Root::Literal(v) => v.share(),
        Root::Context(id) => Ok(Value::Text(id.share()?)),
        Root::Component(_) => Ok(Value::Undefined),
    }
}

/// The function of an arrow of a file's root.
fn plain_function(alloc: Global, func: &Func) -> Result<Value, AllocError>
    ensures { IfOk result (λ v. (p : Program) (file name : M.Text) → Means p file name (Root.Fn func.now) → root_reference (p.root file name) ≡ Of (value_seen p v)) }
{
    let place = func.arrow.get().place;
    let number = func.known_at(place).site.number;
    let code = FunCode::Plain {
        file: func.file.share()?,
        number,
    };
    let captures = Builder::new(alloc).into_list(alloc)?;
    Ok(Value::Fun(Fun {
        code,
        captures,
        hidden: false,
    }))
}

/// What a name of a file's root shows as a tag; no component shows nothing of its own.
pub fn root_tag(root: &Root) -> Result<ElemTag, AllocError>
    ensures { IfOk result (λ t. (p : Program) (file name : M.Text) → Means p file name root.now → root_shown (p.root file name) ≡ shown_by t) }
{
    match root {
        Root::Component(symbol) => Ok(ElemTag::Component(symbol.share()?)),
        Root::Fn(_) => Ok(ElemTag::Fragment),
        Root::Literal(_) => Ok(ElemTag::Fragment),
        Root::Context(_) => Ok(ElemTag::Fragment),
    }
}
