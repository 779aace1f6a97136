//! What a code gives: functions, and what the names of a file's root are.

ghost use Rattle.qk_code.specs.Shallow.{IsShallow};

use qk_ast::{Arrow, ImportTable};
use qk_captures::Captured;
use qk_scope::Names;
use qk_shared::{List, Shared, Text};
use qk_value::Value;

/// An arrow, as it is entered, with what is known of the file in which it stands.
#[derive(Drop)]
pub struct Func {
    /// The module or built file.
    pub file: Text,
    /// The names that the arrow captures, in order.
    pub captures: List<Text>,
    pub arrow: Shared<Arrow>,
    /// The site and the captures of each arrow of the file, by its place.
    pub names: Shared<Names>,
    /// What stands for an arrow at a place that the file doesn't have; no arrow of the file has one.
    pub elsewhere: Shared<Captured>,
    /// The imported names of the file.
    pub imports: Shared<ImportTable>,
    /// Whether it is a task's arrow; its pattern `{ track }` then binds `track` and reads no argument.
    pub task: bool,
    pub ghost shallow: { IsShallow arrow },
}

/// What a name of a file's root is: an arrow, fixed data, the text of a context's id, or a component by its symbol.
#[derive(Drop)]
pub enum Root {
    Fn(Shared<Func>),
    Literal(Value),
    Context(Text),
    Component(Text),
}
