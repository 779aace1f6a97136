//! The methods that change nothing and call no callback.

ghost use Rattle.std.specs.Prelude.{◌≡◌, ◌≤◌, ◌-◌, ◌∷◌, List, length, take, drop, map, string_bytes, OnOk, IfErr};
ghost use Rattle.std.specs.Option.{option_copied};
ghost use Rattle.qk_ast.specs.Texts as texts;
ghost use Rattle.qk_meaning.specs.Value as M;
ghost use Rattle.qk_meaning.specs.Value.{Site};
ghost use Rattle.qk_meaning.specs.Operators.{Is, Fails};
ghost use Rattle.qk_meaning.specs.Methods as methods;
ghost use Rattle.qk_meaning.specs.Setting.{Setting};
ghost use Rattle.qk_meaning.specs.Writing as writing;
ghost use Rattle.qk_value.specs.View.{seen};
ghost use Rattle.qk_ops.specs.Answering.{Gave};
ghost use Rattle.qk_ops.specs.Appending.{Appended};
ghost use Rattle.qk_making.specs.Acting.{Leaves, ActsIn, seen_in};
ghost use Rattle.qk_acts.specs.Naming.{text_method};
ghost use Rattle.qk_acts.specs.Lists as words;

use crate::items::{items_of, shared};
use qk_code::{Host, Mode, Stop};
use qk_heap::Heap;
use qk_making::make_list;
use qk_ops::{
    OpStop, append_text, as_int, as_text, is_nullish, is_primitive, short_text, text_call,
};
use qk_shared::Text;
use qk_value::{Fault, Value};
use std::alloc::Global;

/// The most bytes of a text.
const MOST_BYTES: usize = 1048576;

/// `slice` of a value with these arguments: the items from one place up to another, in a new list.
///
/// # Errors
///
/// `TypeMismatch` unless it is a list or array, and the arguments are two integers at most.
pub fn slice<H: Host>(
    alloc: Global,
    mode: Mode,
    heap: &mut Heap,
    v: &Value,
    arguments: &[Value],
    host: &mut H,
) -> Result<Value, Stop>
    ensures { ActsIn mode seen_in (λ here. methods.method_called here methods.Slice (seen_in here v.now) (map (seen_in here) arguments.now)) heap.old (H.stands_for host.old) result heap.new (H.stands_for host.new) }
{
    let Some((start, stop)) = cut_of(arguments) else {
        return Err(Stop::Fault(Fault::TypeMismatch));
    };
    let all = items_of(alloc, heap, v, host)?;
    let items = shared(alloc, cut(all.as_slice(), start, stop))?;
    make_list(alloc, mode, heap, items)
}

/// The places between which `slice` cuts, where the arguments are two integers at most.
fn cut_of(arguments: &[Value]) -> Option<(i64, Option<i64>)>
    ensures { (names : Site → List texts.Text) → result ≡ words.cut_in (map (seen names) arguments.now) }
{
    match arguments {
        [] => Some((0, None)),
        [start] => Some((as_int(start)?, None)),
        [start, stop] => Some((as_int(start)?, Some(as_int(stop)?))),
        _ => None,
    }
}

/// The items from one place up to another, or to the end.
fn cut(items: &[Value], start: i64, stop: Option<i64>) -> &[Value]
    ensures { result.now ≡ take (words.stop_in stop (length items.now) - writing.cut_place (length items.now) start) (drop (writing.cut_place (length items.now) start) items.now) }
{
    let len = items.len();
    let from = place_of(len, start);
    let to = stop_of(len, stop);
    &items[from..to.max(from)]
}

/// Where a cut ends in a list of this length.
fn stop_of(len: usize, stop: Option<i64>) -> usize
    ensures { result ≡ words.stop_in stop len }
{
    match stop {
        Some(n) => place_of(len, n),
        None => len,
    }
}

/// A place of a list of this length; a negative one is counted from the end.
fn place_of(len: usize, n: i64) -> usize
    ensures { result ≡ writing.cut_place len n }
{
    if n >= 0 {
        return len.min(n as usize);
    }
    len.saturating_sub(n.unsigned_abs() as usize)
}

/// `join` of a value with these arguments: the texts of the items one after another, with a text between each two.
///
/// # Errors
///
/// `TypeMismatch` unless it is a list or array and the one argument is a text; `NotText` of an item that has no text; `TextTooLong`.
pub fn join<H: Host>(
    alloc: Global,
    mode: Mode,
    heap: &Heap,
    v: &Value,
    arguments: &[Value],
    host: &mut H,
) -> Result<Value, Stop>
    ensures { ActsIn mode seen_in (λ here. methods.method_called here methods.Join (seen_in here v.now) (map (seen_in here) arguments.now)) heap.now (H.stands_for host.old) result heap.now (H.stands_for host.new) }
{
    let Some(between) = one_text(arguments) else {
        return Err(Stop::Fault(Fault::TypeMismatch));
    };
    let all = items_of(alloc, heap, v, host)?;
    Ok(joined(alloc, all.as_slice(), between.as_str())?)
}

/// The one argument, where it is a text and there is no other.
fn one_text(arguments: &[Value]) -> Option<&Text>
    ensures { (names : Site → List texts.Text) → option_copied result ≡ words.text_in (map (seen names) arguments.now) }
{
    match arguments {
        [v] => as_text(v),
        _ => None,
    }
}

/// The texts of these items one after another, with a text between each two.
fn joined(alloc: Global, items: &[Value], between: &str) -> Result<Value, OpStop>
    ensures { (names : Site → List texts.Text) → Gave (seen names) (words.joined_all between.now (map (seen names) items.now)) result }
{
    let mut text = String::new(alloc);
    let Some((first, rest)) = items.split_first() else {
        return short_text(alloc, text);
    };
    append_item(first, &mut text)?;
    for item in rest {
        append_next(item, between, &mut text)?;
    }
    short_text(alloc, text)
}

/// Appends the text of an item; that of `null` and `undefined` is empty.
fn append_item(item: &Value, to: &mut String) -> Result<(), OpStop>
    ensures { (names : Site → List texts.Text) → Appended (methods.joined_text (seen names item.now)) (string_bytes to.old) (string_bytes to.new) result }
{
    if is_nullish(item) {
        return Ok(());
    }
    append_text(item, to)
}

/// Appends what stands between two items, and the text of the second; nothing to a text that is too long already, where the item has a text.
fn append_next(item: &Value, between: &str, to: &mut String) -> Result<(), OpStop>
    ensures goes_on { OnOk result ((names : Site → List texts.Text) (rest : List M.Value) → words.joined_on between.now (string_bytes to.old) (seen names item.now ∷ rest) ≡ words.joined_on between.now (string_bytes to.new) rest) }
    ensures stops { IfErr result (λ e. (names : Site → List texts.Text) → Gave {B = Text} (λ t. t) (methods.joined_text (seen names item.now)) (Err e)) }
{
    if to.len() > MOST_BYTES && is_primitive(item) {
        return Ok(());
    }
    let Ok(_) = to.push_str(between) else {
        return Err(OpStop::Memory);
    };
    append_item(item, to)
}

/// `startsWith`, or else `includes`, of a value with these arguments.
///
/// # Errors
///
/// `TypeMismatch` unless the value is a text and the one argument is one.
pub fn text_method(starts: bool, v: &Value, arguments: &[Value]) -> Result<Value, Stop>
    ensures { (here : Setting) → Leaves (seen_in here) (methods.method_called here (text_method starts) (seen_in here v.now) (map (seen_in here) arguments.now)) result }
{
    let Some(text) = as_text(v) else {
        return Err(Stop::Fault(Fault::TypeMismatch));
    };
    if starts {
        return Ok(text_call("startsWith", text.as_str(), arguments)?);
    }
    Ok(text_call("includes", text.as_str(), arguments)?)
}
