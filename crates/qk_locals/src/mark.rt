//! Where an arrow stands.

ghost use Rattle.std.specs.Prelude.{◌≡◌};
ghost use Rattle.qk_ast.specs.Arrows.{name_mark, call_mark, attribute_mark};
ghost use Rattle.qk_ast.specs.Texts.{ends_in_dollar};
ghost use Rattle.qk_locals.specs.Meanings.{mark_of};

use qk_ast::Expr;

/// Where an arrow stands: anywhere, in a marked place, or as a task.
#[derive(Clone, Copy, Debug, PartialEq, Eq)]
pub enum Mark {
    Unmarked,
    Marked,
    Tasked,
}

impl Mark {
    /// The mark of what is handed to a call of that name.
    pub fn of_name(name: &str) -> Mark
        ensures { mark_of result ≡ name_mark name.now }
    {
        if name == "useTask$" {
            return Mark::Tasked;
        }
        if name == "component$" || name == "$" || name == "useComputed$" {
            return Mark::Marked;
        }
        Mark::Unmarked
    }

    /// The mark of what is handed to a call of this.
    pub fn of_call(head: &Expr) -> Mark
        ensures { mark_of result ≡ call_mark head.now }
    {
        match head {
            Expr::Name(name) => Mark::of_name(name.as_str()),
            _ => Mark::Unmarked,
        }
    }

    /// The mark of what an attribute of that name has as its value.
    pub fn of_attribute(name: &str) -> Mark
        ensures { mark_of result ≡ attribute_mark name.now }
    {
        if ends_in_dollar(name.as_bytes()) {
            Mark::Marked
        } else {
            Mark::Unmarked
        }
    }
}

/// Whether the name ends in `$`.
fn ends_in_dollar(name: &[u8]) -> bool
    ensures { result ≡ ends_in_dollar name.now }
{
    match name.last() {
        Some(last) => *last == b'$',
        None => false,
    }
}
