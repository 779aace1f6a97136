//! What reads what nests: each of the three reads by the rules of its kind, with one level of room less.

ghost use Rattle.std.specs.Prelude.{◌≡◌};
ghost use Rattle.qk_reading.specs.Reader.{nesting};
ghost use Rattle.qk_token.specs.Reads.{Reads, ReadsAs};
ghost use Rattle.qk_grammar.specs.Seen.{read_of, inner_of, group_of};

use crate::steps::Statements;
use qk_ast::{Body, Form, Stmt};
use qk_grammar::{Grammar, Group, Inner, Read};
use qk_shared::List;
use qk_token::{Fault, Tokens};
use std::alloc::Global;

/// An expression, an operand or an element.
#[cycle(nested)]
pub fn value(
    alloc: Global,
    tokens: &mut Tokens<'_, '_>,
    form: Form,
    room: usize,
    which: Inner,
) -> Result<Read, Fault>
    ensures { ReadsAs read_of ((nesting form room).value (inner_of which) tokens.old) result tokens.new }
{
    if room == 0 {
        return Err(tokens.too_deep());
    }
    let forms = Grammar {
        alloc,
        form,
        room: room - 1,
        value,
        body,
        group,
    };
    forms.level(tokens, which)
}

/// An arrow's body.
#[cycle(nested)]
pub fn body(
    alloc: Global,
    tokens: &mut Tokens<'_, '_>,
    form: Form,
    room: usize,
) -> Result<Body, Fault>
    ensures { Reads ((nesting form room).body tokens.old) result tokens.new }
{
    if room == 0 {
        return Err(tokens.too_deep());
    }
    let forms = Grammar {
        alloc,
        form,
        room: room - 1,
        value,
        body,
        group,
    };
    Statements { forms }.body(tokens)
}

/// A block's statements, or those of a part that is none.
#[cycle(nested)]
pub fn group(
    alloc: Global,
    tokens: &mut Tokens<'_, '_>,
    form: Form,
    room: usize,
    which: Group,
) -> Result<List<Stmt>, Fault>
    ensures { Reads ((nesting form room).group (group_of which) tokens.old) result tokens.new }
{
    if room == 0 {
        return Err(tokens.too_deep());
    }
    let forms = Grammar {
        alloc,
        form,
        room: room - 1,
        value,
        body,
        group,
    };
    Statements { forms }.group(tokens, which)
}
