//! What an expression stands for.

use qk_shared::Text;
use qk_value::Value;

/// What an expression stands for: a value, a member of a value, a local name, or a name that is only called.
#[derive(Drop)]
pub enum Reference {
    Of(Value),
    Member(Value, Value),
    Local(Text),
    Tracker,
    Framework(Text),
}
