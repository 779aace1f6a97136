//! Whether a module has the first shape, and the counter that it is.

ghost use Rattle.std.specs.Prelude.{◌≡◌, [], ◌∷◌, ◌↔◌, codes, Some, None, IsTrue, IsSome, IsSomeAnd, IfSome, IfNone};
ghost use Rattle.std.specs.Option.{option_copied};
ghost use Rattle.qk_ast.specs.declared.Expr.TheVariants as e;
ghost use Rattle.qk_ast.specs.declared.Jsx.{out-Jsx};
ghost use Rattle.qk_first.specs.Shape.{HasFirstShape, call_of, value_in, arrow_at, block_of, import_of, app_of, signal_of, return_of, listener_of, IsId, IsListener, AreAttributes, AreChildren, IsElement};
ghost use Rattle.qk_first.specs.Shape as spec;
ghost use Rattle.qk_first.specs.Kept.{IsCounterOf, name_in, initial_in, statements_in, SignalStands};

use crate::names::{has, is_import, is_short_word, is_signal_name, is_tag};
use qk_ast::{Body, Expr, Field, Import, Item, Jsx, Link, Module, Pattern, Stmt, Tag};
use qk_shared::Text;

/// A counter, as the tree of its module has it: one element, whose click moves a number.
#[derive(Drop)]
pub struct Counter<'m> {
    pub tag: &'m Text,
    pub id: Option<&'m Text>,
    /// Whether a click counts up, or down; none where nothing listens.
    pub counts_up: Option<bool>,
    /// The number before the first click.
    pub initial: i64,
    /// Whether the element shows its number.
    pub shows: bool,
}

/// A signal, by its name and its first value.
#[derive(Clone, Copy)]
struct Signal<'m> {
    name: &'m Text,
    initial: i64,
}

/// What the attributes of an element say.
#[derive(Drop)]
struct Attributes<'m> {
    id: Option<&'m Text>,
    counts_up: Option<bool>,
}

/// The counter of a module of the first shape; `None` exactly where the module hasn't that shape.
pub fn first_counter(tree: &Module) -> Option<Counter<'_>>
    ensures none { IfNone result (¬ HasFirstShape tree.now) }
    ensures kept { IfSome result (λ kept. IsCounterOf kept tree.now) }
{
    let names = imported(tree)?;
    let (signal, jsx) = parts(statements(tree)?)?;
    if fits(names, signal) {
        element(jsx, signal)
    } else {
        None
    }
}

/// The names of the only import, which is that of the framework.
fn imported(tree: &Module) -> Option<&[Text]>
    ensures found { IfSome result (λ names. tree.now.imports ≡ import_of names.now ∷ []) }
    ensures whole { (names : _) → tree.now.imports ≡ import_of names ∷ [] → IsSomeAnd result (λ it. it.now ≡ names) }
{
    match tree.imports.as_slice() {
        [only] => framework_names(only),
        _ => None,
    }
}

/// The names of an import that is that of the framework.
fn framework_names(import: &Import) -> Option<&[Text]>
    ensures found { IfSome result (λ names. import.now ≡ import_of names.now) }
    ensures whole { (names : _) → import.now ≡ import_of names → IsSomeAnd result (λ it. it.now ≡ names) }
{
    if import.from.as_str() == "@builder.io/qwik" {
        Some(import.names.as_slice())
    } else {
        None
    }
}

/// The statements of the component `App`, which is the only item.
fn statements(tree: &Module) -> Option<&[Stmt]>
    ensures found { IfSome result (λ statements. tree.now.items ≡ app_of statements.now ∷ []) }
    ensures whole { (statements : _) → tree.now.items ≡ app_of statements ∷ [] → IsSomeAnd result (λ it. it.now ≡ statements) }
{
    match tree.items.as_slice() {
        [only] => app(only),
        _ => None,
    }
}

/// The statements of an item that is the component `App`.
fn app(item: &Item) -> Option<&[Stmt]>
    ensures found { IfSome result (λ statements. item.now ≡ app_of statements.now) }
    ensures whole { (statements : _) → item.now ≡ app_of statements → IsSomeAnd result (λ it. it.now ≡ statements) }
{
    if !item.exported || item.name.as_str() != "App" {
        return None;
    }
    block(argument(&item.init, "component$")?)
}

/// The statements of an arrow that is the first of its module.
fn block(x: &Expr) -> Option<&[Stmt]>
    ensures found { IfSome result (λ statements. x.now ≡ block_of statements.now) }
    ensures whole { (statements : _) → x.now ≡ block_of statements → IsSomeAnd result (λ it. it.now ≡ statements) }
{
    match body(x, 0)? {
        Body::Block(statements) => Some(statements.as_slice()),
        Body::Value(_) => None,
    }
}

/// The body of an arrow without parameters that has this number in its module.
fn body(x: &Expr, place: u32) -> Option<&Body>
    ensures found { IfSome result (λ body. x.now ≡ arrow_at place body.now) }
    ensures whole { (body : _) → x.now ≡ arrow_at place body → IsSomeAnd result (λ it. it.now ≡ body) }
{
    let Expr::Arrow(arrow) = x else {
        return None;
    };
    let arrow = arrow.get();
    if arrow.place == place && arrow.params.is_empty() {
        Some(&arrow.body)
    } else {
        None
    }
}

/// What is handed to a call `f(x)`.
fn argument<'m>(x: &'m Expr, f: &str) -> Option<&'m Expr>
    ensures found { IfSome result (λ a. x.now ≡ call_of f.now a.now) }
    ensures whole { (a : _) → x.now ≡ call_of f.now a → IsSomeAnd result (λ it. it.now ≡ a) }
{
    let Expr::Post(head, links) = x else {
        return None;
    };
    let [Link::Call(arguments)] = links.as_slice() else {
        return None;
    };
    let [only] = arguments.as_slice() else {
        return None;
    };
    if is_name(head.get(), f) {
        Some(only)
    } else {
        None
    }
}

fn is_name(x: &Expr, name: &str) -> bool
    ensures { IsTrue result ↔ (x.now ≡ e.Name name.now) }
{
    match x {
        Expr::Name(text) => text.as_str() == name,
        _ => false,
    }
}

/// The signal, where there is one, and the element.
fn parts(statements: &[Stmt]) -> Option<(Option<Signal<'_>>, &Jsx)>
    ensures found { IfSome result (λ r. statements.now ≡ statements_in r.0 r.1.now) }
    ensures whole { (name : _) (n : _) (j : _) → statements.now ≡ signal_of name n ∷ return_of j ∷ [] → IsSomeAnd result (λ r. IsSomeAnd r.0 (λ s. (s.name.now ≡ name) × (s.initial ≡ n)) × (r.1.now ≡ j)) }
    ensures whole_alone { (j : _) → statements.now ≡ return_of j ∷ [] → IsSomeAnd result (λ r. (r.0 ≡ None) × (r.1.now ≡ j)) }
{
    match statements {
        [state, element] => Some((Some(made_signal(state)?), returned(element)?)),
        [element] => Some((None, returned(element)?)),
        _ => None,
    }
}

fn made_signal(statement: &Stmt) -> Option<Signal<'_>>
    ensures found { IfSome result (λ s. statement.now ≡ signal_of s.name.now s.initial) }
    ensures whole { (name : _) (n : _) → statement.now ≡ signal_of name n → IsSomeAnd result (λ s. (s.name.now ≡ name) × (s.initial ≡ n)) }
{
    match statement {
        Stmt::Const(Pattern::Name(name), call) => Some(Signal {
            name,
            initial: first_value(call)?,
        }),
        _ => None,
    }
}

/// The first value that a call makes a signal of.
fn first_value(x: &Expr) -> Option<i64>
    ensures found { IfSome result (λ n. x.now ≡ call_of (codes "useSignal") (e.Int n)) }
    ensures whole { (n : _) → x.now ≡ call_of (codes "useSignal") (e.Int n) → result ≡ Some n }
{
    match argument(x, "useSignal")? {
        Expr::Int(n) => Some(*n),
        _ => None,
    }
}

fn returned(statement: &Stmt) -> Option<&Jsx>
    ensures found { IfSome result (λ j. statement.now ≡ return_of j.now) }
    ensures whole { (j : _) → statement.now ≡ return_of j → IsSomeAnd result (λ it. it.now ≡ j) }
{
    match statement {
        Stmt::Return(Some(Expr::Jsx(jsx))) => Some(jsx.get()),
        _ => None,
    }
}

/// Whether the names may be imported, and a signal, if there is one, may stand under them.
fn fits(names: &[Text], signal: Option<Signal<'_>>) -> bool
    ensures { IsTrue result ↔ (IsTrue (spec.is_import names.now) × SignalStands names.now signal.entry) }
{
    is_import(names) && stands(signal, names)
}

/// Whether a signal, if there is one, may stand under an import of the names.
fn stands(signal: Option<Signal<'_>>, names: &[Text]) -> bool
    ensures { IsTrue result ↔ SignalStands names.now signal.entry }
{
    match signal {
        Some(signal) => {
            is_signal_name(signal.name.as_str().as_bytes())
                && has(names, "useSignal".as_bytes())
                && 0 <= signal.initial
                && signal.initial <= 1_000_000
        }
        None => true,
    }
}

fn name_of(signal: Option<Signal<'_>>) -> Option<&Text>
    ensures { option_copied result ≡ name_in signal.entry }
{
    match signal {
        Some(signal) => Some(signal.name),
        None => None,
    }
}

/// The number before the first click: 0 where there is no signal.
fn first_number(signal: Option<Signal<'_>>) -> i64
    ensures { result ≡ initial_in signal.entry }
{
    match signal {
        Some(signal) => signal.initial,
        None => 0,
    }
}

/// The counter of an element, where a signal stands or none.
fn element<'m>(jsx: &'m Jsx, signal: Option<Signal<'m>>) -> Option<Counter<'m>>
    ensures found { IfSome result (λ kept. IsElement (name_in signal.entry) kept.tag.now (option_copied kept.id) kept.counts_up kept.shows jsx.now) }
    ensures initial { IfSome result (λ kept. kept.initial ≡ initial_in signal.entry) }
    ensures whole { (tag : _) (id : _) (counts_up : _) (shows : _) → IsElement (name_in signal.entry) tag id counts_up shows jsx.now → IsSome result }
{
    let Tag::Element(tag) = &jsx.tag else {
        return None;
    };
    if !is_tag(tag.as_str().as_bytes()) {
        return None;
    }
    let name = name_of(signal);
    let Attributes { id, counts_up } = read_attributes(jsx.attrs.as_slice(), name)?;
    let shows = shows(jsx.children.as_slice(), name)?;
    let initial = first_number(signal);
    Some(Counter {
        tag,
        id,
        counts_up,
        initial,
        shows,
    })
}

/// What the attributes say: an id and a listener of the signal of the name, each at most once.
fn read_attributes<'m>(fields: &'m [Field], name: Option<&Text>) -> Option<Attributes<'m>>
    ensures found { IfSome result (λ r. AreAttributes (option_copied name.entry) (option_copied r.id) r.counts_up fields.now) }
    ensures whole { (id : _) (counts_up : _) → AreAttributes (option_copied name.entry) id counts_up fields.now → IsSome result }
{
    match fields {
        [] => Some(Attributes {
            id: None,
            counts_up: None,
        }),
        [only] => one_attribute(only, name),
        [first, second] => two_attributes(first, second, name),
        _ => None,
    }
}

fn one_attribute<'m>(only: &'m Field, name: Option<&Text>) -> Option<Attributes<'m>>
    ensures found { IfSome result (λ r. AreAttributes (option_copied name.entry) (option_copied r.id) r.counts_up (only.now ∷ [])) }
    ensures whole { (id : _) (counts_up : _) → AreAttributes (option_copied name.entry) id counts_up (only.now ∷ []) → IsSome result }
{
    if let Some(id) = id(only) {
        return Some(Attributes {
            id: Some(id),
            counts_up: None,
        });
    }
    Some(Attributes {
        id: None,
        counts_up: Some(listener(only, name)?),
    })
}

fn two_attributes<'m>(
    first: &'m Field,
    second: &'m Field,
    name: Option<&Text>,
) -> Option<Attributes<'m>>
    ensures found { IfSome result (λ r. AreAttributes (option_copied name.entry) (option_copied r.id) r.counts_up (first.now ∷ second.now ∷ [])) }
    ensures whole { (id : _) (counts_up : _) → AreAttributes (option_copied name.entry) id counts_up (first.now ∷ second.now ∷ []) → IsSome result }
{
    if let Some(id) = id(first) {
        return Some(Attributes {
            id: Some(id),
            counts_up: Some(listener(second, name)?),
        });
    }
    let counts_up = listener(first, name)?;
    Some(Attributes {
        id: Some(id(second)?),
        counts_up: Some(counts_up),
    })
}

/// The text of an attribute `id`.
fn id(field: &Field) -> Option<&Text>
    ensures found { IfSome result (λ id. IsId id.now field.now) }
    ensures whole { (id : _) → IsId id field.now → IsSomeAnd result (λ it. it.now ≡ id) }
{
    if field.key.as_str() != "id" {
        return None;
    }
    match &field.value {
        Expr::Text(text) if is_short_word(text.as_str().as_bytes()) => Some(text),
        _ => None,
    }
}

/// Whether an attribute `onClick$` counts the signal of the name up, or down.
fn listener(field: &Field, name: Option<&Text>) -> Option<bool>
    ensures found { IfSome result (λ up. IsListener (option_copied name.entry) up field.now) }
    ensures whole { (up : _) → IsListener (option_copied name.entry) up field.now → result ≡ Some up }
{
    if field.key.as_str() != "onClick$" {
        return None;
    }
    counts_up(&field.value, name?)
}

/// Whether a listener counts the signal of the name up, or down.
fn counts_up(x: &Expr, name: &Text) -> Option<bool>
    ensures found { IfSome result (λ up. x.now ≡ listener_of name.now up) }
    ensures whole { (up : _) → x.now ≡ listener_of name.now up → result ≡ Some up }
{
    match body(x, 1)? {
        Body::Value(value) => step(value.get(), name),
        Body::Block(_) => None,
    }
}

fn step(x: &Expr, name: &Text) -> Option<bool>
    ensures found { IfSome result (λ up. x.now ≡ e.Step up (value_in name.now)) }
    ensures whole { (up : _) → x.now ≡ e.Step up (value_in name.now) → result ≡ Some up }
{
    match x {
        Expr::Step(up, target) if is_value(target.get(), name) => Some(*up),
        _ => None,
    }
}

/// Whether it is the value of the signal of the name.
fn is_value(x: &Expr, name: &Text) -> bool
    ensures { IsTrue result ↔ (x.now ≡ value_in name.now) }
{
    let Expr::Post(head, links) = x else {
        return false;
    };
    let [Link::Prop(property)] = links.as_slice() else {
        return false;
    };
    property.as_str() == "value" && is_name(head.get(), name.as_str())
}

/// Whether the children are the value of the signal of the name, or nothing.
fn shows(children: &[Expr], name: Option<&Text>) -> Option<bool>
    ensures found { IfSome result (λ shows. AreChildren (option_copied name.entry) shows children.now) }
    ensures whole { (shows : _) → AreChildren (option_copied name.entry) shows children.now → result ≡ Some shows }
{
    match children {
        [] => Some(false),
        [only] if is_value(only, name?) => Some(true),
        _ => None,
    }
}
