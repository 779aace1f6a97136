//! A module's imports and constants.

ghost use Rattle.std.specs.Prelude.{◌≡◌, ◌≢◌, ◌<◌, ◌^◌, length, Ok, Err, IfOk, IfErr};
ghost use Rattle.qk_reading.specs.Input as input;
ghost use Rattle.qk_reading.specs.Reader as spec;
ghost use Rattle.qk_token.specs.Reads.{Reads, fault_of};
ghost use Rattle.qk_token.specs.View.{tokens_of, AllFit};
ghost use Rattle.qk_token.specs.declared.fault.Fault.TheVariants.{Memory};

use crate::nested::{body, group, value};
use qk_ast::{Form, Import, Item, Module};
use qk_grammar::{Grammar, enter, name, names};
use qk_shared::{Builder, List, Text};
use qk_token::{Fault, Token, Tokens, written_text};
use std::alloc::Global;

/// The name of a module, in quotes.
fn source(alloc: Global, tokens: &mut Tokens<'_, '_>) -> Result<Text, Fault>
    ensures { Reads (spec.text_by (input.first tokens.old.tokens) tokens.old) result tokens.new }
{
    match tokens.peek() {
        Some(Token::Text(_, inside)) => {
            tokens.take();
            Ok(written_text(alloc, inside)?)
        }
        _ => Err(tokens.refuse()),
    }
}

/// import { a, b } from "m";
#[tactic(auto, unfolding(qk_reading::specs::Reader::import_line))]
fn import_line(alloc: Global, tokens: &mut Tokens<'_, '_>, room: usize) -> Result<Import, Fault>
    ensures { Reads (spec.import_line room tokens.old) result tokens.new }
{
    tokens.expect_word(b"import")?;
    tokens.expect(b"{")?;
    enter(tokens, room)?;
    let names = names(alloc, tokens)?;
    tokens.expect(b"}")?;
    tokens.expect_name(b"from")?;
    let from = source(alloc, tokens)?;
    tokens.expect(b";")?;
    Ok(Import { names, from })
}

/// An import, where one comes.
#[tactic(auto, unfolding(qk_reading::specs::Reader::next_import))]
fn next_import(
    alloc: Global,
    tokens: &mut Tokens<'_, '_>,
    room: usize,
) -> Result<Option<Import>, Fault>
    ensures { Reads (spec.next_import room tokens.old) result tokens.new }
{
    if tokens.sees_word(b"import") {
        Ok(Some(import_line(alloc, tokens, room)?))
    } else {
        Ok(None)
    }
}

/// The imports, as long as there are more.
#[tactic(auto, unfolding(qk_reading::specs::Input::many, qk_reading::specs::Input::many_from))]
fn imports(alloc: Global, tokens: &mut Tokens<'_, '_>, room: usize) -> Result<List<Import>, Fault>
    ensures { Reads (input.many (spec.next_import room) tokens.old) result tokens.new }
{
    let mut found = Builder::new(alloc);
    for _turn in 0..tokens.left() {
        match next_import(alloc, tokens, room)? {
            Some(import) => found.push(import)?,
            None => return Ok(found.into_list(alloc)?),
        }
    }
    Ok(found.into_list(alloc)?)
}

/// A constant of the module: export const a = x;
#[tactic(auto, unfolding(qk_reading::specs::Reader::item))]
fn item(alloc: Global, tokens: &mut Tokens<'_, '_>, form: Form, room: usize) -> Result<Item, Fault>
    ensures { Reads (spec.item form room tokens.old) result tokens.new }
{
    let exported = tokens.eat_word(b"export");
    tokens.expect_word(b"const")?;
    let name = name(alloc, tokens)?;
    tokens.expect(b"=")?;
    let forms = Grammar {
        alloc,
        form,
        room,
        value,
        body,
        group,
    };
    let init = forms.whole(tokens)?.tree;
    tokens.expect(b";")?;
    Ok(Item {
        exported,
        name,
        init,
    })
}

/// A constant, where the tokens go on.
#[tactic(auto, unfolding(qk_reading::specs::Reader::next_item))]
fn next_item(
    alloc: Global,
    tokens: &mut Tokens<'_, '_>,
    form: Form,
    room: usize,
) -> Result<Option<Item>, Fault>
    ensures { Reads (spec.next_item form room tokens.old) result tokens.new }
{
    match tokens.peek() {
        Some(_) => Ok(Some(item(alloc, tokens, form, room)?)),
        None => Ok(None),
    }
}

/// The constants, up to the end.
#[tactic(auto, unfolding(qk_reading::specs::Input::many, qk_reading::specs::Input::many_from))]
fn items(
    alloc: Global,
    tokens: &mut Tokens<'_, '_>,
    form: Form,
    room: usize,
) -> Result<List<Item>, Fault>
    ensures { Reads (input.many (spec.next_item form room) tokens.old) result tokens.new }
{
    let mut found = Builder::new(alloc);
    for _turn in 0..tokens.left() {
        match next_item(alloc, tokens, form, room)? {
            Some(item) => found.push(item)?,
            None => return Ok(found.into_list(alloc)?),
        }
    }
    Ok(found.into_list(alloc)?)
}

/// The imports, and the constants behind them.
#[tactic(auto, unfolding(qk_reading::specs::Reader::module_of))]
fn module_of(
    alloc: Global,
    tokens: &mut Tokens<'_, '_>,
    form: Form,
    room: usize,
) -> Result<Module, Fault>
    ensures { Reads (spec.module_of form room tokens.old) result tokens.new }
{
    let imports = imports(alloc, tokens, room)?;
    let items = items(alloc, tokens, form, room)?;
    Ok(Module { imports, items })
}

/// The module that all the tokens are, with so much room for nesting.
///
/// # Errors
/// `Fault::Syntax` and `Fault::TooDeep` exactly where the reader answers them, `Fault::Memory` for want of memory alone.
pub fn read_module(
    alloc: Global,
    form: Form,
    room: usize,
    tokens: &[Token<'_>],
) -> Result<Module, Fault>
    requires few { length tokens.now < 2 ^ 32 }
    requires fit { AllFit tokens.now }
    ensures read { IfOk result (λ m. spec.read_module form room (tokens_of tokens.now) ≡ Ok m) }
    ensures refused { IfErr result (λ e. e ≢ Memory → spec.read_module form room (tokens_of tokens.now) ≡ Err (fault_of e)) }
{
    let mut tokens = Tokens::new(tokens);
    module_of(alloc, &mut tokens, form, room)
}
