//! One more of a value: what is fixed is shared, so nothing is copied.

ghost use Rattle.std.specs.Prelude.{◌≡◌, IfOk};

use crate::value::{Fun, FunCode, Value};
use std::alloc::AllocError;

/// Why a value isn't copied.
#[derive(Clone, Copy, Debug, Drop, PartialEq, Eq)]
pub enum ValueFault {
    /// Memory ran out.
    Memory,
}

/// The value once more, by `Value::share`: nothing is copied, so a heavy value takes no longer than a light one, and no memory is taken.
///
/// # Errors
///
/// `Memory` where the count of owners is full.
pub fn copy(v: &Value) -> Result<Value, ValueFault>
    ensures { IfOk result (λ w. w ≡ v.now) }
{
    match v.share() {
        Ok(w) => Ok(w),
        Err(_) => Err(ValueFault::Memory),
    }
}

impl Value {
    /// The same value once more, as fast for a heavy one as for a light one.
    ///
    /// # Errors
    ///
    /// For want of memory, which comes where the count of owners is full.
    pub fn share(&self) -> Result<Value, AllocError>
        ensures { IfOk result (λ v. v ≡ self.now) }
    {
        match self {
            Value::Undefined => Ok(Value::Undefined),
            Value::Null => Ok(Value::Null),
            Value::Bool(b) => Ok(Value::Bool(*b)),
            Value::Int(n) => Ok(Value::Int(*n)),
            Value::Text(text) => Ok(Value::Text(text.share()?)),
            Value::Ref(addr) => Ok(Value::Ref(*addr)),
            Value::List(items) => Ok(Value::List(items.share()?)),
            Value::Record(fields) => Ok(Value::Record(fields.share()?)),
            Value::Elem(element) => Ok(Value::Elem(element.share()?)),
            Value::Fun(function) => Ok(Value::Fun(function.share()?)),
        }
    }
}

impl Fun {
    /// The same function once more, as `Value::share`.
    pub fn share(&self) -> Result<Fun, AllocError>
        ensures { IfOk result (λ f. f ≡ self.now) }
    {
        Ok(Fun {
            code: self.code.share()?,
            captures: self.captures.share()?,
            hidden: self.hidden,
        })
    }
}

impl FunCode {
    /// The same arrow once more, as `Value::share`.
    pub fn share(&self) -> Result<FunCode, AllocError>
        ensures { IfOk result (λ c. c ≡ self.now) }
    {
        match self {
            FunCode::Symbol(symbol) => Ok(FunCode::Symbol(symbol.share()?)),
            FunCode::Plain { file, number } => Ok(FunCode::Plain {
                file: file.share()?,
                number: *number,
            }),
        }
    }
}
