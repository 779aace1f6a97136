//! The values of a running program: fixed values are shared and never change, so one more of them takes no copy.
#![tactic(auto)]

mod depths;
mod fault;
mod keys;
mod limits;
mod listing;
mod sameness;
mod share;
mod value;
mod weights;

pub use depths::depth;
pub use fault::Fault;
pub use keys::{array_index, is_forbidden};
pub use limits::limited;
pub use listing::put_field;
pub use sameness::same;
pub use share::{ValueFault, copy};
pub use value::{Addr, Elem, ElemTag, Fun, FunCode, Value};
pub use weights::weight;
