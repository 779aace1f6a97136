//! The cycle of evaluation. Each function's contract says that what it did has the meaning that the definition gives.
//!
//! What nests in code nests on the machine's stack. So functions that evaluate parts are `inline(never)`: what one form needs would else lie in the frame of
//! every form around it.

ghost use Rattle.std.specs.Prelude.{[], None};
ghost use Rattle.qk_ast.specs.declared.Expr.TheVariants as expr;
ghost use Rattle.qk_meaning.specs.Value as M;
ghost use Rattle.qk_meaning.specs.Value.{Fields};
ghost use Rattle.qk_meaning.specs.Program.{Program};
ghost use Rattle.qk_meaning.specs.Doing.{each, give, chosen};
ghost use Rattle.qk_meaning.specs.References as references;
ghost use Rattle.qk_meaning.specs.Methods as methods;
ghost use Rattle.qk_meaning.specs.Hooks as hooks;
ghost use Rattle.qk_meaning.specs.Calls as calls;
ghost use Rattle.qk_meaning.specs.Evaluation as evaluation;
ghost use Rattle.qk_meaning.specs.In_order as in_order;
ghost use Rattle.qk_code.specs.Modes.{mode_seen};
ghost use Rattle.qk_code.specs.Hooks.{kind_seen};
ghost use Rattle.qk_code.specs.Standing.{Knows};
ghost use Rattle.qk_code.specs.Ran.{Ran};
ghost use Rattle.qk_acts.specs.Naming.{method_seen};
ghost use Rattle.qk_eval.specs.Placing.{setting, setting_so, known, addresses, computed as reading_of_computeds};
ghost use Rattle.qk_eval.specs.Standing.{standing, with_scope};
ghost use Rattle.qk_eval.specs.Seeing.{value_seen, values_seen, fields_seen, texts_seen, reference_seen, flow_seen, callee_seen, nothing};
ghost use Rattle.qk_eval.specs.Lists as lists;

use crate::callee::{Callee, framework_callee};
use crate::flow::{Flow, behind_turn, value_of_flow};
use crate::here::{Here, tracks};
use crate::machine::Machine;
use crate::names::{captured_scope, open_own};
use crate::pieces::{combined, filled, kept, one_function, only, symbol_and_names, value_at};
use crate::reference::Reference;
use crate::running::{is_under_way, with_first};
use crate::stepping::{arrow_value, call_dollar, call_mark, named, remove, shown, store};
use qk_acts::{
    Look, Method, call_known, items_of, join, look_up, method_of, pop, push, slice, splice,
    tell_read, text_method,
};
use qk_ast::{AssignOp, Body, Expr, Field, Jsx, Known, Link, Operand, Pattern, Stmt, Un};
use qk_code::{Code, Func, HookAnswer, HookKind, Host, Mode, Part, Stop};
use qk_environment::Scope;
use qk_making::{make_lifted, make_list, make_markup, make_record};
use qk_ops::{binary, decides, short_text, stepped, text_of, truthy, unary};
use qk_shared::{Builder, List, Shared, Text};
use qk_value::{Addr, Fault, Fun, FunCode, Value};

/// The value of an expression.
#[cycle(evaluate)]
fn value<C: Code, H: Host>(
    e: &Expr,
    here: &Here<'_>,
    scope: &mut Scope,
    machine: &mut Machine,
    code: &mut C,
    host: &mut H,
) -> Result<Value, Stop>
    ensures { Ran C.form here.now.hooked (known here.now) value_seen (λ p. let place = setting here.now p in in_order.value_in place e.now) (standing (C.sources code.old) (C.counts code.old) (C.asked code.old) machine.old scope.old.names.items (H.stands_for host.old)) result (standing (C.sources code.new) (C.counts code.new) (C.asked code.new) machine.new scope.new.names.items (H.stands_for host.new)) }
{
    match e {
        Expr::Undefined => Ok(Value::Undefined),
        Expr::Null => Ok(Value::Null),
        Expr::Bool(b) => Ok(Value::Bool(*b)),
        Expr::Int(n) => {
            let n = *n;
            Ok(Value::Int(n))
        }
        Expr::Text(t) => Ok(Value::Text(t.share()?)),
        Expr::Name(name) => name_value(name, here, scope, machine, code, host),
        Expr::List(items) => list_value(items.as_slice(), here, scope, machine, code, host),
        Expr::Record(fields) => record_value(fields.as_slice(), here, scope, machine, code, host),
        Expr::Template(parts, holes) => {
            template_value(parts, holes, here, scope, machine, code, host)
        }
        Expr::Unary(operator, e) => {
            unary_value(*operator, e.get(), here, scope, machine, code, host)
        }
        Expr::Chain(first, rest) => {
            chain_value(first, rest.as_slice(), here, scope, machine, code, host)
        }
        Expr::Cond(condition, then, otherwise) => {
            cond_value(condition, then, otherwise, here, scope, machine, code, host)
        }
        Expr::Post(head, links) => {
            post_value(head, links.as_slice(), here, scope, machine, code, host)
        }
        Expr::Assign(operator, target, e) => {
            assign(*operator, target, e, here, scope, machine, code, host)
        }
        Expr::Step(up, target) => step(*up, target.get(), here, scope, machine, code, host),
        Expr::Known(known, arguments) => {
            known_value(
                *known,
                arguments.as_slice(),
                here,
                scope,
                machine,
                code,
                host,
            )
        }
        Expr::Arrow(arrow) => arrow_value(arrow.get(), here, scope, machine, code, host),
        Expr::Jsx(jsx) => jsx_value(jsx.get(), here, scope, machine, code, host),
    }
}

/// The value of a name.
#[inline(never)]
#[cycle(evaluate)]
fn name_value<C: Code, H: Host>(
    name: &Text,
    here: &Here<'_>,
    scope: &mut Scope,
    machine: &mut Machine,
    code: &mut C,
    host: &mut H,
) -> Result<Value, Stop>
    ensures { Ran C.form here.now.hooked (known here.now) value_seen (λ p. let place = setting here.now p in in_order.value_in place (Expr.Name name.now)) (standing (C.sources code.old) (C.counts code.old) (C.asked code.old) machine.old scope.old.names.items (H.stands_for host.old)) result (standing (C.sources code.new) (C.counts code.new) (C.asked code.new) machine.new scope.new.names.items (H.stands_for host.new)) }
{
    let r = named(name, here, scope, machine, code, host)?;
    value_of(r, here, scope, machine, code, host)
}

/// The value of a chain of postfix forms.
#[inline(never)]
#[cycle(evaluate)]
fn post_value<C: Code, H: Host>(
    head: &Shared<Expr>,
    links: &[Link],
    here: &Here<'_>,
    scope: &mut Scope,
    machine: &mut Machine,
    code: &mut C,
    host: &mut H,
) -> Result<Value, Stop>
    ensures { Ran C.form here.now.hooked (known here.now) value_seen (λ p. let place = setting here.now p in in_order.value_in place (Expr.Post head.now links.now)) (standing (C.sources code.old) (C.counts code.old) (C.asked code.old) machine.old scope.old.names.items (H.stands_for host.old)) result (standing (C.sources code.new) (C.counts code.new) (C.asked code.new) machine.new scope.new.names.items (H.stands_for host.new)) }
{
    let r = refer_post(head, links, here, scope, machine, code, host)?;
    value_of(r, here, scope, machine, code, host)
}

/// What an expression stands for: a name or a chain of postfix forms may stand for something to be written, every other form for its value.
#[cycle(evaluate)]
fn refer<C: Code, H: Host>(
    e: &Expr,
    here: &Here<'_>,
    scope: &mut Scope,
    machine: &mut Machine,
    code: &mut C,
    host: &mut H,
) -> Result<Reference, Stop>
    ensures { Ran C.form here.now.hooked (known here.now) reference_seen (λ p. let place = setting here.now p in evaluation.refer e.now place) (standing (C.sources code.old) (C.counts code.old) (C.asked code.old) machine.old scope.old.names.items (H.stands_for host.old)) result (standing (C.sources code.new) (C.counts code.new) (C.asked code.new) machine.new scope.new.names.items (H.stands_for host.new)) }
{
    match e {
        Expr::Name(name) => named(name, here, scope, machine, code, host),
        Expr::Post(head, links) => {
            refer_post(head, links.as_slice(), here, scope, machine, code, host)
        }
        _ => {
            let v = value(e, here, scope, machine, code, host)?;
            Ok(Reference::Of(v))
        }
    }
}

/// The value of a list.
#[inline(never)]
#[cycle(evaluate)]
fn list_value<C: Code, H: Host>(
    items: &[Expr],
    here: &Here<'_>,
    scope: &mut Scope,
    machine: &mut Machine,
    code: &mut C,
    host: &mut H,
) -> Result<Value, Stop>
    ensures { Ran C.form here.now.hooked (known here.now) value_seen (λ p. let place = setting here.now p in in_order.value_in place (Expr.List items.now)) (standing (C.sources code.old) (C.counts code.old) (C.asked code.old) machine.old scope.old.names.items (H.stands_for host.old)) result (standing (C.sources code.new) (C.counts code.new) (C.asked code.new) machine.new scope.new.names.items (H.stands_for host.new)) }
{
    let all = values(items, here, scope, machine, code, host)?;
    make_list(machine.alloc, here.mode, &mut machine.heap, all)
}

/// The value of a record.
#[inline(never)]
#[cycle(evaluate)]
fn record_value<C: Code, H: Host>(
    fields: &[Field],
    here: &Here<'_>,
    scope: &mut Scope,
    machine: &mut Machine,
    code: &mut C,
    host: &mut H,
) -> Result<Value, Stop>
    ensures { Ran C.form here.now.hooked (known here.now) value_seen (λ p. let place = setting here.now p in in_order.value_in place (Expr.Record fields.now)) (standing (C.sources code.old) (C.counts code.old) (C.asked code.old) machine.old scope.old.names.items (H.stands_for host.old)) result (standing (C.sources code.new) (C.counts code.new) (C.asked code.new) machine.new scope.new.names.items (H.stands_for host.new)) }
{
    let all = field_values(fields, here, scope, machine, code, host)?;
    make_record(machine.alloc, here.mode, &mut machine.heap, all.as_slice())
}

/// The values of fields or attributes, in order.
#[inline(never)]
#[cycle(evaluate)]
fn field_values<C: Code, H: Host>(
    fields: &[Field],
    here: &Here<'_>,
    scope: &mut Scope,
    machine: &mut Machine,
    code: &mut C,
    host: &mut H,
) -> Result<Builder<(Text, Value)>, Stop>
    ensures { Ran C.form here.now.hooked (known here.now) fields_seen (λ p. let place = setting here.now p in in_order.fields_in place fields.now) (standing (C.sources code.old) (C.counts code.old) (C.asked code.old) machine.old scope.old.names.items (H.stands_for host.old)) result (standing (C.sources code.new) (C.counts code.new) (C.asked code.new) machine.new scope.new.names.items (H.stands_for host.new)) }
{
    let mut done = Builder::new(machine.alloc);
    for field in fields {
        let v = value(&field.value, here, scope, machine, code, host)?;
        done.push((field.key.share()?, v))?;
    }
    Ok(done)
}

/// The value of a template.
#[inline(never)]
#[cycle(evaluate)]
fn template_value<C: Code, H: Host>(
    parts: &List<Text>,
    holes: &List<Expr>,
    here: &Here<'_>,
    scope: &mut Scope,
    machine: &mut Machine,
    code: &mut C,
    host: &mut H,
) -> Result<Value, Stop>
    ensures { Ran C.form here.now.hooked (known here.now) value_seen (λ p. let place = setting here.now p in in_order.value_in place (Expr.Template parts.now holes.now)) (standing (C.sources code.old) (C.counts code.old) (C.asked code.old) machine.old scope.old.names.items (H.stands_for host.old)) result (standing (C.sources code.new) (C.counts code.new) (C.asked code.new) machine.new scope.new.names.items (H.stands_for host.new)) }
{
    let texts = hole_texts(holes.as_slice(), here, scope, machine, code, host)?;
    let text = filled(machine.alloc, parts.as_slice(), texts.as_slice())?;
    Ok(short_text(machine.alloc, text)?)
}

/// The texts of the holes of a template, in order.
#[cycle(evaluate)]
fn hole_texts<C: Code, H: Host>(
    holes: &[Expr],
    here: &Here<'_>,
    scope: &mut Scope,
    machine: &mut Machine,
    code: &mut C,
    host: &mut H,
) -> Result<Builder<Text>, Stop>
    ensures { Ran C.form here.now.hooked (known here.now) texts_seen (λ p. let place = setting here.now p in each (in_order.hole_text place) holes.now) (standing (C.sources code.old) (C.counts code.old) (C.asked code.old) machine.old scope.old.names.items (H.stands_for host.old)) result (standing (C.sources code.new) (C.counts code.new) (C.asked code.new) machine.new scope.new.names.items (H.stands_for host.new)) }
{
    let mut texts = Builder::new(machine.alloc);
    for hole in holes {
        let v = value(hole, here, scope, machine, code, host)?;
        texts.push(text_of(machine.alloc, &v)?)?;
    }
    Ok(texts)
}

/// The value of an operator with one operand.
#[inline(never)]
#[cycle(evaluate)]
fn unary_value<C: Code, H: Host>(
    operator: Un,
    e: &Expr,
    here: &Here<'_>,
    scope: &mut Scope,
    machine: &mut Machine,
    code: &mut C,
    host: &mut H,
) -> Result<Value, Stop>
    ensures { Ran C.form here.now.hooked (known here.now) value_seen (λ p. let place = setting here.now p in in_order.value_in place (Expr.Unary operator e.now)) (standing (C.sources code.old) (C.counts code.old) (C.asked code.old) machine.old scope.old.names.items (H.stands_for host.old)) result (standing (C.sources code.new) (C.counts code.new) (C.asked code.new) machine.new scope.new.names.items (H.stands_for host.new)) }
{
    let v = value(e, here, scope, machine, code, host)?;
    Ok(unary(operator, &v)?)
}

/// The value of a chain of operands.
#[inline(never)]
#[cycle(evaluate)]
fn chain_value<C: Code, H: Host>(
    first: &Shared<Expr>,
    rest: &[Operand],
    here: &Here<'_>,
    scope: &mut Scope,
    machine: &mut Machine,
    code: &mut C,
    host: &mut H,
) -> Result<Value, Stop>
    ensures { Ran C.form here.now.hooked (known here.now) value_seen (λ p. let place = setting here.now p in in_order.value_in place (Expr.Chain first.now rest.now)) (standing (C.sources code.old) (C.counts code.old) (C.asked code.old) machine.old scope.old.names.items (H.stands_for host.old)) result (standing (C.sources code.new) (C.counts code.new) (C.asked code.new) machine.new scope.new.names.items (H.stands_for host.new)) }
{
    let mut v = value(first.get(), here, scope, machine, code, host)?;
    for operand in rest {
        v = chain_one(v, operand, here, scope, machine, code, host)?;
    }
    Ok(v)
}

/// One operand, which is evaluated only where it is needed.
#[inline(always)]
#[cycle(evaluate)]
fn chain_one<C: Code, H: Host>(
    v: Value,
    operand: &Operand,
    here: &Here<'_>,
    scope: &mut Scope,
    machine: &mut Machine,
    code: &mut C,
    host: &mut H,
) -> Result<Value, Stop>
    ensures { Ran C.form here.now.hooked (known here.now) value_seen (λ p. let place = setting here.now p in in_order.operand_chained place operand.now (value_seen p v)) (standing (C.sources code.old) (C.counts code.old) (C.asked code.old) machine.old scope.old.names.items (H.stands_for host.old)) result (standing (C.sources code.new) (C.counts code.new) (C.asked code.new) machine.new scope.new.names.items (H.stands_for host.new)) }
{
    if decides(operand.op, &v) {
        return Ok(v);
    }
    let w = value(&operand.value, here, scope, machine, code, host)?;
    Ok(binary(machine.alloc, operand.op, &v, &w)?)
}

/// The value of the one or the other, by a condition.
#[inline(never)]
#[cycle(evaluate)]
fn cond_value<C: Code, H: Host>(
    condition: &Shared<Expr>,
    then: &Shared<Expr>,
    otherwise: &Shared<Expr>,
    here: &Here<'_>,
    scope: &mut Scope,
    machine: &mut Machine,
    code: &mut C,
    host: &mut H,
) -> Result<Value, Stop>
    ensures { Ran C.form here.now.hooked (known here.now) value_seen (λ p. let place = setting here.now p in in_order.value_in place (Expr.Cond condition.now then.now otherwise.now)) (standing (C.sources code.old) (C.counts code.old) (C.asked code.old) machine.old scope.old.names.items (H.stands_for host.old)) result (standing (C.sources code.new) (C.counts code.new) (C.asked code.new) machine.new scope.new.names.items (H.stands_for host.new)) }
{
    let v = value(condition.get(), here, scope, machine, code, host)?;
    if truthy(&v) {
        return value(then.get(), here, scope, machine, code, host);
    }
    value(otherwise.get(), here, scope, machine, code, host)
}

/// An assignment, which gives what it writes.
#[inline(never)]
#[cycle(evaluate)]
fn assign<C: Code, H: Host>(
    operator: AssignOp,
    target: &Shared<Expr>,
    e: &Shared<Expr>,
    here: &Here<'_>,
    scope: &mut Scope,
    machine: &mut Machine,
    code: &mut C,
    host: &mut H,
) -> Result<Value, Stop>
    ensures { Ran C.form here.now.hooked (known here.now) value_seen (λ p. let place = setting here.now p in in_order.value_in place (Expr.Assign operator target.now e.now)) (standing (C.sources code.old) (C.counts code.old) (C.asked code.old) machine.old scope.old.names.items (H.stands_for host.old)) result (standing (C.sources code.new) (C.counts code.new) (C.asked code.new) machine.new scope.new.names.items (H.stands_for host.new)) }
{
    let r = refer(target.get(), here, scope, machine, code, host)?;
    let old = old_value(operator, &r, here, scope, machine, code, host)?;
    let v = value(e.get(), here, scope, machine, code, host)?;
    let new = combined(machine.alloc, operator, &old, v)?;
    store(r, &new, here, scope, machine, code, host)?;
    Ok(new)
}

/// The value that a compound assignment reads before its right side.
#[cycle(evaluate)]
fn old_value<C: Code, H: Host>(
    operator: AssignOp,
    r: &Reference,
    here: &Here<'_>,
    scope: &mut Scope,
    machine: &mut Machine,
    code: &mut C,
    host: &mut H,
) -> Result<Value, Stop>
    ensures { Ran C.form here.now.hooked (known here.now) value_seen (λ p. let place = setting here.now p in references.old_value operator (references.value_of place (reference_seen p r.now))) (standing (C.sources code.old) (C.counts code.old) (C.asked code.old) machine.old scope.old.names.items (H.stands_for host.old)) result (standing (C.sources code.new) (C.counts code.new) (C.asked code.new) machine.new scope.new.names.items (H.stands_for host.new)) }
{
    match operator {
        AssignOp::Set => Ok(Value::Undefined),
        AssignOp::Add | AssignOp::Sub | AssignOp::Mul => held(r, here, scope, machine, code, host),
    }
}

/// `++` or `--` behind a target, which gives the value before it.
#[inline(never)]
#[cycle(evaluate)]
fn step<C: Code, H: Host>(
    up: bool,
    target: &Expr,
    here: &Here<'_>,
    scope: &mut Scope,
    machine: &mut Machine,
    code: &mut C,
    host: &mut H,
) -> Result<Value, Stop>
    ensures { Ran C.form here.now.hooked (known here.now) value_seen (λ p. let place = setting here.now p in in_order.value_in place (Expr.Step up target.now)) (standing (C.sources code.old) (C.counts code.old) (C.asked code.old) machine.old scope.old.names.items (H.stands_for host.old)) result (standing (C.sources code.new) (C.counts code.new) (C.asked code.new) machine.new scope.new.names.items (H.stands_for host.new)) }
{
    let r = refer(target, here, scope, machine, code, host)?;
    let old = held(&r, here, scope, machine, code, host)?;
    let new = stepped(up, &old)?;
    store(r, &new, here, scope, machine, code, host)?;
    Ok(old)
}

/// The value of a known call.
#[inline(never)]
#[cycle(evaluate)]
fn known_value<C: Code, H: Host>(
    call: Known,
    arguments: &[Expr],
    here: &Here<'_>,
    scope: &mut Scope,
    machine: &mut Machine,
    code: &mut C,
    host: &mut H,
) -> Result<Value, Stop>
    ensures { Ran C.form here.now.hooked (known here.now) value_seen (λ p. let place = setting here.now p in in_order.value_in place (Expr.Known call arguments.now)) (standing (C.sources code.old) (C.counts code.old) (C.asked code.old) machine.old scope.old.names.items (H.stands_for host.old)) result (standing (C.sources code.new) (C.counts code.new) (C.asked code.new) machine.new scope.new.names.items (H.stands_for host.new)) }
{
    let given = values(arguments, here, scope, machine, code, host)?;
    call_known(
        machine.alloc,
        here.mode,
        &mut machine.heap,
        call,
        given.as_slice(),
        host,
    )
}

/// A JSX value.
#[inline(never)]
#[cycle(evaluate)]
fn jsx_value<C: Code, H: Host>(
    jsx: &Jsx,
    here: &Here<'_>,
    scope: &mut Scope,
    machine: &mut Machine,
    code: &mut C,
    host: &mut H,
) -> Result<Value, Stop>
    ensures { Ran C.form here.now.hooked (known here.now) value_seen (λ p. let place = setting here.now p in in_order.value_in place (Expr.Jsx jsx.now)) (standing (C.sources code.old) (C.counts code.old) (C.asked code.old) machine.old scope.old.names.items (H.stands_for host.old)) result (standing (C.sources code.new) (C.counts code.new) (C.asked code.new) machine.new scope.new.names.items (H.stands_for host.new)) }
{
    let shown = shown(&jsx.tag, here, machine, code, host)?;
    let attributes = field_values(jsx.attrs.as_slice(), here, scope, machine, code, host)?;
    let children = values(jsx.children.as_slice(), here, scope, machine, code, host)?;
    make_markup(machine.alloc, shown, attributes.as_slice(), children)
}

/// What a chain of postfix forms stands for.
#[inline(never)]
#[cycle(evaluate)]
fn refer_post<C: Code, H: Host>(
    head: &Shared<Expr>,
    links: &[Link],
    here: &Here<'_>,
    scope: &mut Scope,
    machine: &mut Machine,
    code: &mut C,
    host: &mut H,
) -> Result<Reference, Stop>
    ensures { Ran C.form here.now.hooked (known here.now) reference_seen (λ p. let place = setting here.now p in evaluation.refer (Expr.Post head.now links.now) place) (standing (C.sources code.old) (C.counts code.old) (C.asked code.old) machine.old scope.old.names.items (H.stands_for host.old)) result (standing (C.sources code.new) (C.counts code.new) (C.asked code.new) machine.new scope.new.names.items (H.stands_for host.new)) }
{
    let r = refer(head.get(), here, scope, machine, code, host)?;
    follow(r, links, here, scope, machine, code, host)
}

/// The postfix forms of a chain, from what its head stands for.
#[cycle(evaluate)]
fn follow<C: Code, H: Host>(
    r: Reference,
    links: &[Link],
    here: &Here<'_>,
    scope: &mut Scope,
    machine: &mut Machine,
    code: &mut C,
    host: &mut H,
) -> Result<Reference, Stop>
    ensures { Ran C.form here.now.hooked (known here.now) reference_seen (λ p. let place = setting here.now p in in_order.links_followed place links.now (reference_seen p r)) (standing (C.sources code.old) (C.counts code.old) (C.asked code.old) machine.old scope.old.names.items (H.stands_for host.old)) result (standing (C.sources code.new) (C.counts code.new) (C.asked code.new) machine.new scope.new.names.items (H.stands_for host.new)) }
{
    let mut at = r;
    for link in links {
        at = follow_link(at, link, here, scope, machine, code, host)?;
    }
    Ok(at)
}

/// One postfix form.
#[cycle(evaluate)]
fn follow_link<C: Code, H: Host>(
    r: Reference,
    link: &Link,
    here: &Here<'_>,
    scope: &mut Scope,
    machine: &mut Machine,
    code: &mut C,
    host: &mut H,
) -> Result<Reference, Stop>
    ensures { Ran C.form here.now.hooked (known here.now) reference_seen (λ p. let place = setting here.now p in in_order.link_followed place link.now (reference_seen p r)) (standing (C.sources code.old) (C.counts code.old) (C.asked code.old) machine.old scope.old.names.items (H.stands_for host.old)) result (standing (C.sources code.new) (C.counts code.new) (C.asked code.new) machine.new scope.new.names.items (H.stands_for host.new)) }
{
    match link {
        Link::Prop(name) => follow_name(r, name, here, scope, machine, code, host),
        Link::Index(key) => follow_key(r, key, here, scope, machine, code, host),
        Link::Call(arguments) => follow_call(
            r,
            arguments.as_slice(),
            here,
            scope,
            machine,
            code,
            host,
        ),
    }
}

/// A member by its name.
#[inline(never)]
#[cycle(evaluate)]
fn follow_name<C: Code, H: Host>(
    r: Reference,
    name: &Text,
    here: &Here<'_>,
    scope: &mut Scope,
    machine: &mut Machine,
    code: &mut C,
    host: &mut H,
) -> Result<Reference, Stop>
    ensures { Ran C.form here.now.hooked (known here.now) reference_seen (λ p. let place = setting here.now p in in_order.link_followed place (Link.Prop name.now) (reference_seen p r)) (standing (C.sources code.old) (C.counts code.old) (C.asked code.old) machine.old scope.old.names.items (H.stands_for host.old)) result (standing (C.sources code.new) (C.counts code.new) (C.asked code.new) machine.new scope.new.names.items (H.stands_for host.new)) }
{
    let object = value_of(r, here, scope, machine, code, host)?;
    Ok(Reference::Member(object, Value::Text(name.share()?)))
}

/// A member by its key.
#[inline(never)]
#[cycle(evaluate)]
fn follow_key<C: Code, H: Host>(
    r: Reference,
    key: &Expr,
    here: &Here<'_>,
    scope: &mut Scope,
    machine: &mut Machine,
    code: &mut C,
    host: &mut H,
) -> Result<Reference, Stop>
    ensures { Ran C.form here.now.hooked (known here.now) reference_seen (λ p. let place = setting here.now p in in_order.link_followed place (Link.Index key.now) (reference_seen p r)) (standing (C.sources code.old) (C.counts code.old) (C.asked code.old) machine.old scope.old.names.items (H.stands_for host.old)) result (standing (C.sources code.new) (C.counts code.new) (C.asked code.new) machine.new scope.new.names.items (H.stands_for host.new)) }
{
    let object = value_of(r, here, scope, machine, code, host)?;
    let key = value(key, here, scope, machine, code, host)?;
    Ok(Reference::Member(object, key))
}

/// A call.
#[inline(never)]
#[cycle(evaluate)]
fn follow_call<C: Code, H: Host>(
    r: Reference,
    arguments: &[Expr],
    here: &Here<'_>,
    scope: &mut Scope,
    machine: &mut Machine,
    code: &mut C,
    host: &mut H,
) -> Result<Reference, Stop>
    ensures { Ran C.form here.now.hooked (known here.now) reference_seen (λ p. let place = setting here.now p in in_order.link_followed place (Link.Call arguments.now) (reference_seen p r)) (standing (C.sources code.old) (C.counts code.old) (C.asked code.old) machine.old scope.old.names.items (H.stands_for host.old)) result (standing (C.sources code.new) (C.counts code.new) (C.asked code.new) machine.new scope.new.names.items (H.stands_for host.new)) }
{
    let c = callee(r, here, scope, machine, code, host)?;
    let v = call_of(c, arguments, here, scope, machine, code, host)?;
    Ok(Reference::Of(v))
}

/// What a reference calls.
#[inline(never)]
#[cycle(evaluate)]
fn callee<C: Code, H: Host>(
    r: Reference,
    here: &Here<'_>,
    scope: &mut Scope,
    machine: &mut Machine,
    code: &mut C,
    host: &mut H,
) -> Result<Callee, Stop>
    ensures { Ran C.form here.now.hooked (known here.now) callee_seen (λ p. let place = setting here.now p in calls.callee place (reference_seen p r)) (standing (C.sources code.old) (C.counts code.old) (C.asked code.old) machine.old scope.old.names.items (H.stands_for host.old)) result (standing (C.sources code.new) (C.counts code.new) (C.asked code.new) machine.new scope.new.names.items (H.stands_for host.new)) }
{
    match r {
        Reference::Of(v) => Ok(Callee::Value(v)),
        Reference::Local(_) => {
            let v = value_of(r, here, scope, machine, code, host)?;
            Ok(Callee::Value(v))
        }
        Reference::Tracker => Ok(Callee::Tracker),
        Reference::Member(object, key) => member_callee(object, &key, here, machine, code, host),
        Reference::Framework(name) => Ok(framework_callee(&name)),
    }
}

/// What a member calls: a method, or what is read there.
#[inline(never)]
#[cycle(evaluate)]
fn member_callee<C: Code, H: Host>(
    object: Value,
    key: &Value,
    here: &Here<'_>,
    machine: &mut Machine,
    code: &mut C,
    host: &mut H,
) -> Result<Callee, Stop>
    ensures { (outer : Program → Fields) → Ran C.form here.now.hooked (known here.now) callee_seen (λ p. let place = setting here.now p in calls.callee place (references.Member (value_seen p object) (value_seen p key.now))) (with_scope (C.sources code.old) (C.counts code.old) (C.asked code.old) machine.old outer (H.stands_for host.old)) result (with_scope (C.sources code.new) (C.counts code.new) (C.asked code.new) machine.new outer (H.stands_for host.new)) }
{
    match method_of(&machine.heap, &object, key) {
        Some(method) => Ok(Callee::Method(method, object)),
        None => {
            let v = read(&object, key, here, machine, code, host)?;
            Ok(Callee::Value(v))
        }
    }
}

/// A call of what is called, with these arguments.
#[inline(never)]
#[cycle(evaluate)]
fn call_of<C: Code, H: Host>(
    c: Callee,
    arguments: &[Expr],
    here: &Here<'_>,
    scope: &mut Scope,
    machine: &mut Machine,
    code: &mut C,
    host: &mut H,
) -> Result<Value, Stop>
    ensures { Ran C.form here.now.hooked (known here.now) value_seen (λ p. let place = setting here.now p in lists.call_made place (callee_seen p c) arguments.now) (standing (C.sources code.old) (C.counts code.old) (C.asked code.old) machine.old scope.old.names.items (H.stands_for host.old)) result (standing (C.sources code.new) (C.counts code.new) (C.asked code.new) machine.new scope.new.names.items (H.stands_for host.new)) }
{
    if let Callee::Qrl = c {
        return lifted(arguments, here, scope, machine, code, host);
    }
    let given = values(arguments, here, scope, machine, code, host)?;
    call(c, given.as_slice(), here, machine, code, host)
}

/// `qrl` of a symbol and a list of captured values.
#[inline(never)]
#[cycle(evaluate)]
fn lifted<C: Code, H: Host>(
    arguments: &[Expr],
    here: &Here<'_>,
    scope: &mut Scope,
    machine: &mut Machine,
    code: &mut C,
    host: &mut H,
) -> Result<Value, Stop>
    ensures { Ran C.form here.now.hooked (known here.now) value_seen (λ p. let place = setting here.now p in lists.lifted_of place arguments.now) (standing (C.sources code.old) (C.counts code.old) (C.asked code.old) machine.old scope.old.names.items (H.stands_for host.old)) result (standing (C.sources code.new) (C.counts code.new) (C.asked code.new) machine.new scope.new.names.items (H.stands_for host.new)) }
{
    let Some((symbol, names)) = symbol_and_names(arguments) else {
        return Err(Stop::Fault(Fault::TypeMismatch));
    };
    let captured = values(names, here, scope, machine, code, host)?;
    make_lifted(machine.alloc, symbol, captured)
}

/// The values of expressions, in order.
#[cycle(evaluate)]
fn values<C: Code, H: Host>(
    all: &[Expr],
    here: &Here<'_>,
    scope: &mut Scope,
    machine: &mut Machine,
    code: &mut C,
    host: &mut H,
) -> Result<Builder<Value>, Stop>
    ensures { Ran C.form here.now.hooked (known here.now) values_seen (λ p. let place = setting here.now p in in_order.values_in place all.now) (standing (C.sources code.old) (C.counts code.old) (C.asked code.old) machine.old scope.old.names.items (H.stands_for host.old)) result (standing (C.sources code.new) (C.counts code.new) (C.asked code.new) machine.new scope.new.names.items (H.stands_for host.new)) }
{
    let mut done = Builder::new(machine.alloc);
    for e in all {
        let v = value(e, here, scope, machine, code, host)?;
        done.push(v)?;
    }
    Ok(done)
}

/// A call with its evaluated arguments.
#[inline(never)]
#[cycle(evaluate)]
fn call<C: Code, H: Host>(
    c: Callee,
    given: &[Value],
    here: &Here<'_>,
    machine: &mut Machine,
    code: &mut C,
    host: &mut H,
) -> Result<Value, Stop>
    ensures { (outer : Program → Fields) → Ran C.form here.now.hooked (known here.now) value_seen (λ p. let place = setting here.now p in calls.call place (callee_seen p c) (values_seen p given.now)) (with_scope (C.sources code.old) (C.counts code.old) (C.asked code.old) machine.old outer (H.stands_for host.old)) result (with_scope (C.sources code.new) (C.counts code.new) (C.asked code.new) machine.new outer (H.stands_for host.new)) }
{
    match c {
        Callee::Value(f) => call_value(&f, given, here, machine, code, host),
        Callee::Method(method, v) => call_method(method, &v, given, here, machine, code, host),
        Callee::Hook(kind) => call_hook(kind, given, here, machine, code, host),
        Callee::Tracker => call_tracker(given, here, machine, code, host),
        Callee::Dollar => call_dollar(given, here, machine, code, host),
        Callee::Mark => call_mark(given, here, machine, code, host),
        Callee::Qrl => Err(Stop::Fault(Fault::TypeMismatch)),
    }
}

/// A call of a value.
#[cycle(evaluate)]
fn call_value<C: Code, H: Host>(
    f: &Value,
    given: &[Value],
    here: &Here<'_>,
    machine: &mut Machine,
    code: &mut C,
    host: &mut H,
) -> Result<Value, Stop>
    ensures { (outer : Program → Fields) → Ran C.form here.now.hooked (known here.now) value_seen (λ p. let place = setting here.now p in calls.called place (value_seen p f.now) (values_seen p given.now)) (with_scope (C.sources code.old) (C.counts code.old) (C.asked code.old) machine.old outer (H.stands_for host.old)) result (with_scope (C.sources code.new) (C.counts code.new) (C.asked code.new) machine.new outer (H.stands_for host.new)) }
{
    let Value::Fun(f) = f else {
        return Err(Stop::Fault(Fault::NotCallable));
    };
    enter(
        f,
        given,
        here.mode,
        here.running,
        here.levels,
        here.hooked,
        machine,
        code,
        host,
    )
}

/// A method with its arguments.
#[inline(never)]
#[cycle(evaluate)]
fn call_method<C: Code, H: Host>(
    method: Method,
    v: &Value,
    given: &[Value],
    here: &Here<'_>,
    machine: &mut Machine,
    code: &mut C,
    host: &mut H,
) -> Result<Value, Stop>
    ensures { (outer : Program → Fields) → Ran C.form here.now.hooked (known here.now) value_seen (λ p. let place = setting here.now p in methods.method_called place (method_seen method) (value_seen p v.now) (values_seen p given.now)) (with_scope (C.sources code.old) (C.counts code.old) (C.asked code.old) machine.old outer (H.stands_for host.old)) result (with_scope (C.sources code.new) (C.counts code.new) (C.asked code.new) machine.new outer (H.stands_for host.new)) }
{
    match method {
        Method::Map => map(v, given, here, machine, code, host),
        Method::Filter => filter(v, given, here, machine, code, host),
        Method::Slice => slice(machine.alloc, here.mode, &mut machine.heap, v, given, host),
        Method::Join => join(machine.alloc, here.mode, &machine.heap, v, given, host),
        Method::Push => push(here.mode, &mut machine.heap, v, given, host),
        Method::Pop => pop(here.mode, &mut machine.heap, v, given, host),
        Method::Splice => splice(machine.alloc, here.mode, &mut machine.heap, v, given, host),
        Method::Includes => text_method(false, v, given),
        Method::StartsWith => text_method(true, v, given),
    }
}

/// `map`: what the callback gives of each item, in a new list.
#[cycle(evaluate)]
fn map<C: Code, H: Host>(
    v: &Value,
    given: &[Value],
    here: &Here<'_>,
    machine: &mut Machine,
    code: &mut C,
    host: &mut H,
) -> Result<Value, Stop>
    ensures { (outer : Program → Fields) → Ran C.form here.now.hooked (known here.now) value_seen (λ p. let place = setting here.now p in methods.method_called place methods.Map (value_seen p v.now) (values_seen p given.now)) (with_scope (C.sources code.old) (C.counts code.old) (C.asked code.old) machine.old outer (H.stands_for host.old)) result (with_scope (C.sources code.new) (C.counts code.new) (C.asked code.new) machine.new outer (H.stands_for host.new)) }
{
    let Some(f) = one_function(given) else {
        return Err(Stop::Fault(Fault::TypeMismatch));
    };
    let items = items_of(machine.alloc, &machine.heap, v, host)?;
    let results = call_on_each(f, items.as_slice(), here, machine, code, host)?;
    make_list(machine.alloc, here.mode, &mut machine.heap, results)
}

/// `filter`: the items of which the callback gives something true, in a new list.
#[cycle(evaluate)]
fn filter<C: Code, H: Host>(
    v: &Value,
    given: &[Value],
    here: &Here<'_>,
    machine: &mut Machine,
    code: &mut C,
    host: &mut H,
) -> Result<Value, Stop>
    ensures { (outer : Program → Fields) → Ran C.form here.now.hooked (known here.now) value_seen (λ p. let place = setting here.now p in methods.method_called place methods.Filter (value_seen p v.now) (values_seen p given.now)) (with_scope (C.sources code.old) (C.counts code.old) (C.asked code.old) machine.old outer (H.stands_for host.old)) result (with_scope (C.sources code.new) (C.counts code.new) (C.asked code.new) machine.new outer (H.stands_for host.new)) }
{
    let Some(f) = one_function(given) else {
        return Err(Stop::Fault(Fault::TypeMismatch));
    };
    let items = items_of(machine.alloc, &machine.heap, v, host)?;
    let results = call_on_each(f, items.as_slice(), here, machine, code, host)?;
    let kept = kept(machine.alloc, items.as_slice(), results.as_slice())?;
    make_list(machine.alloc, here.mode, &mut machine.heap, kept)
}

/// A callback is called with each item and its index.
#[cycle(evaluate)]
fn call_on_each<C: Code, H: Host>(
    f: &Fun,
    items: &[Value],
    here: &Here<'_>,
    machine: &mut Machine,
    code: &mut C,
    host: &mut H,
) -> Result<Builder<Value>, Stop>
    ensures { (outer : Program → Fields) → Ran C.form here.now.hooked (known here.now) values_seen (λ p. let place = setting here.now p in methods.called_on_each place (value_seen p (Value.Fun f.now)) (values_seen p items.now)) (with_scope (C.sources code.old) (C.counts code.old) (C.asked code.old) machine.old outer (H.stands_for host.old)) result (with_scope (C.sources code.new) (C.counts code.new) (C.asked code.new) machine.new outer (H.stands_for host.new)) }
{
    let mut results = Builder::new(machine.alloc);
    for i in 0..items.len() {
        let given = [items[i].share()?, Value::Int(i as i64)];
        let v = enter(
            f,
            &given,
            here.mode,
            here.running,
            here.levels,
            here.hooked,
            machine,
            code,
            host,
        )?;
        results.push(v)?;
    }
    Ok(results)
}

/// A hook of the framework, which the host answers.
#[inline(never)]
#[cycle(evaluate)]
fn call_hook<C: Code, H: Host>(
    kind: HookKind,
    given: &[Value],
    here: &Here<'_>,
    machine: &mut Machine,
    code: &mut C,
    host: &mut H,
) -> Result<Value, Stop>
    ensures { (outer : Program → Fields) → Ran C.form here.now.hooked (known here.now) value_seen (λ p. let place = setting here.now p in hooks.hook_called place (kind_seen kind) (values_seen p given.now)) (with_scope (C.sources code.old) (C.counts code.old) (C.asked code.old) machine.old outer (H.stands_for host.old)) result (with_scope (C.sources code.new) (C.counts code.new) (C.asked code.new) machine.new outer (H.stands_for host.new)) }
{
    if !here.hooked {
        return Ok(Value::Undefined);
    }
    match host.hook(&mut machine.heap, kind, given)? {
        HookAnswer::Value(v) => Ok(v),
        HookAnswer::Nothing => Ok(Value::Undefined),
        HookAnswer::RunTask(f) => run_task(&f, here, machine, code, host),
    }
}

/// A task's function runs at its hook's place.
#[cycle(evaluate)]
fn run_task<C: Code, H: Host>(
    f: &Fun,
    here: &Here<'_>,
    machine: &mut Machine,
    code: &mut C,
    host: &mut H,
) -> Result<Value, Stop>
    ensures { (outer : Program → Fields) → Ran C.form here.now.hooked (known here.now) value_seen (λ p. let place = setting here.now p in hooks.task_run place (value_seen p (Value.Fun f.now))) (with_scope (C.sources code.old) (C.counts code.old) (C.asked code.old) machine.old outer (H.stands_for host.old)) result (with_scope (C.sources code.new) (C.counts code.new) (C.asked code.new) machine.new outer (H.stands_for host.new)) }
{
    host.enter(Part::Task)?;
    let _v = enter(
        f,
        &[],
        Mode::Effect,
        here.running,
        here.levels,
        false,
        machine,
        code,
        host,
    )?;
    host.leave(Part::Task);
    Ok(Value::Undefined)
}

/// `track` of an arrow.
#[inline(never)]
#[cycle(evaluate)]
fn call_tracker<C: Code, H: Host>(
    given: &[Value],
    here: &Here<'_>,
    machine: &mut Machine,
    code: &mut C,
    host: &mut H,
) -> Result<Value, Stop>
    ensures { (outer : Program → Fields) → Ran C.form here.now.hooked (known here.now) value_seen (λ p. let place = setting here.now p in calls.call place calls.The_tracker (values_seen p given.now)) (with_scope (C.sources code.old) (C.counts code.old) (C.asked code.old) machine.old outer (H.stands_for host.old)) result (with_scope (C.sources code.new) (C.counts code.new) (C.asked code.new) machine.new outer (H.stands_for host.new)) }
{
    let Some(f) = only(given) else {
        return Err(Stop::Fault(Fault::TypeMismatch));
    };
    track(f, here, machine, code, host)
}

/// The arrow of `track` runs in its own mode.
#[cycle(evaluate)]
fn track<C: Code, H: Host>(
    f: &Value,
    here: &Here<'_>,
    machine: &mut Machine,
    code: &mut C,
    host: &mut H,
) -> Result<Value, Stop>
    ensures { (outer : Program → Fields) → Ran C.form here.now.hooked (known here.now) value_seen (λ p. let place = setting here.now p in calls.tracked place (value_seen p f.now)) (with_scope (C.sources code.old) (C.counts code.old) (C.asked code.old) machine.old outer (H.stands_for host.old)) result (with_scope (C.sources code.new) (C.counts code.new) (C.asked code.new) machine.new outer (H.stands_for host.new)) }
{
    host.enter(Part::Track)?;
    let v = enter_value(f, Mode::Track, here, machine, code, host)?;
    host.leave(Part::Track);
    Ok(v)
}

/// The value that a reference has.
#[cycle(evaluate)]
fn value_of<C: Code, H: Host>(
    r: Reference,
    here: &Here<'_>,
    scope: &mut Scope,
    machine: &mut Machine,
    code: &mut C,
    host: &mut H,
) -> Result<Value, Stop>
    ensures { Ran C.form here.now.hooked (known here.now) value_seen (λ p. let place = setting here.now p in references.value_of place (reference_seen p r)) (standing (C.sources code.old) (C.counts code.old) (C.asked code.old) machine.old scope.old.names.items (H.stands_for host.old)) result (standing (C.sources code.new) (C.counts code.new) (C.asked code.new) machine.new scope.new.names.items (H.stands_for host.new)) }
{
    match r {
        Reference::Of(v) => Ok(v),
        Reference::Member(object, key) => read(&object, &key, here, machine, code, host),
        Reference::Local(name) => Ok(scope.value(&name)?),
        Reference::Tracker => Ok(Value::Undefined),
        Reference::Framework(_) => Ok(Value::Undefined),
    }
}

/// The value that a reference has, which is still wanted.
#[cycle(evaluate)]
fn held<C: Code, H: Host>(
    r: &Reference,
    here: &Here<'_>,
    scope: &mut Scope,
    machine: &mut Machine,
    code: &mut C,
    host: &mut H,
) -> Result<Value, Stop>
    ensures { Ran C.form here.now.hooked (known here.now) value_seen (λ p. let place = setting here.now p in references.value_of place (reference_seen p r.now)) (standing (C.sources code.old) (C.counts code.old) (C.asked code.old) machine.old scope.old.names.items (H.stands_for host.old)) result (standing (C.sources code.new) (C.counts code.new) (C.asked code.new) machine.new scope.new.names.items (H.stands_for host.new)) }
{
    match r {
        Reference::Of(v) => Ok(v.share()?),
        Reference::Member(object, key) => read(object, key, here, machine, code, host),
        Reference::Local(name) => Ok(scope.value(name)?),
        Reference::Tracker => Ok(Value::Undefined),
        Reference::Framework(_) => Ok(Value::Undefined),
    }
}

/// Reads a member of a value.
#[cycle(evaluate)]
fn read<C: Code, H: Host>(
    object: &Value,
    key: &Value,
    here: &Here<'_>,
    machine: &mut Machine,
    code: &mut C,
    host: &mut H,
) -> Result<Value, Stop>
    ensures { (outer : Program → Fields) → Ran C.form here.now.hooked (known here.now) value_seen (λ p. let place = setting here.now p in references.read place (value_seen p object.now) (value_seen p key.now)) (with_scope (C.sources code.old) (C.counts code.old) (C.asked code.old) machine.old outer (H.stands_for host.old)) result (with_scope (C.sources code.new) (C.counts code.new) (C.asked code.new) machine.new outer (H.stands_for host.new)) }
{
    match look_up(machine.alloc, &machine.heap, object, key)? {
        Look::Found(v, location) => {
            tell_read(&location, host)?;
            Ok(v)
        }
        Look::Runs(a, f) => computed(a, &f, here, machine, code, host),
    }
}

/// Reads a computed.
#[cycle(evaluate)]
fn computed<C: Code, H: Host>(
    a: Addr,
    f: &Fun,
    here: &Here<'_>,
    machine: &mut Machine,
    code: &mut C,
    host: &mut H,
) -> Result<Value, Stop>
    ensures { (outer : Program → Fields) → Ran C.form here.now.hooked (known here.now) value_seen (λ p. let place = setting here.now p in references.computed_value place a.0 (value_seen p (Value.Fun f.now))) (with_scope (C.sources code.old) (C.counts code.old) (C.asked code.old) machine.old outer (H.stands_for host.old)) result (with_scope (C.sources code.new) (C.counts code.new) (C.asked code.new) machine.new outer (H.stands_for host.new)) }
{
    if is_under_way(a, here.running) {
        return Err(Stop::Fault(Fault::ComputedCycle));
    }
    let running = with_first(machine.alloc, a, here.running)?;
    if let Some(known) = host.kept(a)? {
        return Ok(known);
    }
    host.began(a)?;
    let v = enter(
        f,
        &[],
        Mode::Pure,
        running.as_slice(),
        here.levels,
        false,
        machine,
        code,
        host,
    )?;
    host.finished(a, &v)?;
    Ok(v)
}

/// Enters a value without arguments, where it is a function.
#[cycle(evaluate)]
fn enter_value<C: Code, H: Host>(
    f: &Value,
    mode: Mode,
    here: &Here<'_>,
    machine: &mut Machine,
    code: &mut C,
    host: &mut H,
) -> Result<Value, Stop>
    ensures { (outer : Program → Fields) → Ran C.form here.now.hooked (known here.now) value_seen (λ p. let place = setting here.now p in evaluation.entering p reading_of_computeds here.now.levels (mode_seen mode) (addresses here.now.running.now) (value_seen p f.now) []) (with_scope (C.sources code.old) (C.counts code.old) (C.asked code.old) machine.old outer (H.stands_for host.old)) result (with_scope (C.sources code.new) (C.counts code.new) (C.asked code.new) machine.new outer (H.stands_for host.new)) }
{
    if here.levels == 0 {
        return Err(Stop::Ended);
    }
    match f {
        Value::Fun(f) => enter(
            f,
            &[],
            mode,
            here.running,
            here.levels,
            here.hooked,
            machine,
            code,
            host,
        ),
        _ => Err(Stop::Fault(Fault::NotCallable)),
    }
}

/// Enters a function.
///
/// A plain function has as many values as its arrow captures names. Of one that was made up with another number nothing is told but want of memory.
#[cycle(evaluate)]
pub(crate) fn enter<C: Code, H: Host>(
    f: &Fun,
    given: &[Value],
    mode: Mode,
    running: &[Addr],
    levels: u32,
    hooked: bool,
    machine: &mut Machine,
    code: &mut C,
    host: &mut H,
) -> Result<Value, Stop>
    ensures { (outer : Program → Fields) → Ran C.form hooked (λ p. Unit {0}) value_seen (λ p. evaluation.entering p reading_of_computeds levels (mode_seen mode) (addresses running.now) (value_seen p (Value.Fun f.now)) (values_seen p given.now)) (with_scope (C.sources code.old) (C.counts code.old) (C.asked code.old) machine.old outer (H.stands_for host.old)) result (with_scope (C.sources code.new) (C.counts code.new) (C.asked code.new) machine.new outer (H.stands_for host.new)) }
{
    if levels == 0 {
        return Err(Stop::Ended);
    }
    if !machine.meter.take() {
        return Err(Stop::Ended);
    }
    let captured = f.captures.as_slice();
    match &f.code {
        FunCode::Symbol(symbol) => {
            let func = code.body(symbol)?;
            enter_arrow(
                func.get(),
                captured,
                given,
                mode,
                running,
                levels - 1,
                hooked,
                machine,
                code,
                host,
            )
        }
        FunCode::Plain { file, number } => {
            let func = code.plain(file, *number)?;
            if func.get().captures.len() != captured.len() {
                return Err(Stop::Memory);
            }
            enter_arrow(
                func.get(),
                captured,
                given,
                mode,
                running,
                levels - 1,
                hooked,
                machine,
                code,
                host,
            )
        }
    }
}

/// Inside an arrow that is entered, with names of its own.
#[cycle(evaluate)]
fn enter_arrow<C: Code, H: Host>(
    func: &Func,
    captured: &[Value],
    given: &[Value],
    mode: Mode,
    running: &[Addr],
    levels: u32,
    hooked: bool,
    machine: &mut Machine,
    code: &mut C,
    host: &mut H,
) -> Result<Value, Stop>
    ensures { (outer : Program → Fields) → Ran C.form hooked (λ p. Knows p func.now) value_seen (λ p. lists.arrow_entered (setting_so func.now mode running.now levels p) func.now (values_seen p captured.now) (values_seen p given.now)) (with_scope (C.sources code.old) (C.counts code.old) (C.asked code.old) machine.old outer (H.stands_for host.old)) result (with_scope (C.sources code.new) (C.counts code.new) (C.asked code.new) machine.new outer (H.stands_for host.new)) }
{
    let here = Here {
        func,
        mode,
        running,
        levels,
        hooked,
    };
    let mut scope = captured_scope(machine.alloc, func, captured)?;
    inside(given, &here, &mut scope, machine, code, host)
}

/// Inside an arrow that is entered, where its captures stand in scope.
#[cycle(evaluate)]
fn inside<C: Code, H: Host>(
    given: &[Value],
    here: &Here<'_>,
    scope: &mut Scope,
    machine: &mut Machine,
    code: &mut C,
    host: &mut H,
) -> Result<Value, Stop>
    ensures { Ran C.form here.now.hooked (known here.now) value_seen (λ p. let place = setting here.now p in lists.arrow_ran place here.now.func.now (values_seen p given.now)) (standing (C.sources code.old) (C.counts code.old) (C.asked code.old) machine.old scope.old.names.items (H.stands_for host.old)) result (standing (C.sources code.new) (C.counts code.new) (C.asked code.new) machine.new scope.new.names.items (H.stands_for host.new)) }
{
    let arrow = here.func.arrow.get();
    open_own(here.func, scope)?;
    bind_parameters(
        arrow.params.as_slice(),
        given,
        here,
        scope,
        machine,
        code,
        host,
    )?;
    body(&arrow.body, here, scope, machine, code, host)
}

/// The parameters of an arrow get their values; that of a task has none.
#[cycle(evaluate)]
fn bind_parameters<C: Code, H: Host>(
    patterns: &[Pattern],
    given: &[Value],
    here: &Here<'_>,
    scope: &mut Scope,
    machine: &mut Machine,
    code: &mut C,
    host: &mut H,
) -> Result<(), Stop>
    ensures { Ran C.form here.now.hooked (known here.now) nothing (λ p. let place = setting here.now p in chosen place.tracks (give tt) (references.all_bound place patterns.now (values_seen p given.now))) (standing (C.sources code.old) (C.counts code.old) (C.asked code.old) machine.old scope.old.names.items (H.stands_for host.old)) result (standing (C.sources code.new) (C.counts code.new) (C.asked code.new) machine.new scope.new.names.items (H.stands_for host.new)) }
{
    if tracks(here.func) {
        return Ok(());
    }
    bind_all(patterns, given, here, scope, machine, code, host)
}

/// The parameters of an arrow get their values.
#[cycle(evaluate)]
fn bind_all<C: Code, H: Host>(
    patterns: &[Pattern],
    given: &[Value],
    here: &Here<'_>,
    scope: &mut Scope,
    machine: &mut Machine,
    code: &mut C,
    host: &mut H,
) -> Result<(), Stop>
    ensures { Ran C.form here.now.hooked (known here.now) nothing (λ p. let place = setting here.now p in references.all_bound place patterns.now (values_seen p given.now)) (standing (C.sources code.old) (C.counts code.old) (C.asked code.old) machine.old scope.old.names.items (H.stands_for host.old)) result (standing (C.sources code.new) (C.counts code.new) (C.asked code.new) machine.new scope.new.names.items (H.stands_for host.new)) }
{
    for i in 0..patterns.len() {
        let v = value_at(given, i)?;
        bind(&patterns[i], v, here, scope, machine, code, host)?;
    }
    Ok(())
}

/// A pattern gets its value; the names of `useLexicalScope` have theirs already.
#[cycle(evaluate)]
fn bind<C: Code, H: Host>(
    pattern: &Pattern,
    v: Value,
    here: &Here<'_>,
    scope: &mut Scope,
    machine: &mut Machine,
    code: &mut C,
    host: &mut H,
) -> Result<(), Stop>
    ensures { Ran C.form here.now.hooked (known here.now) nothing (λ p. let place = setting here.now p in references.bound place pattern.now (value_seen p v)) (standing (C.sources code.old) (C.counts code.old) (C.asked code.old) machine.old scope.old.names.items (H.stands_for host.old)) result (standing (C.sources code.new) (C.counts code.new) (C.asked code.new) machine.new scope.new.names.items (H.stands_for host.new)) }
{
    match pattern {
        Pattern::Name(name) => {
            scope.assign(name, v);
            Ok(())
        }
        Pattern::Fields(names) => bind_fields(
            names.as_slice(),
            &v,
            here,
            scope,
            machine,
            code,
            host,
        ),
        Pattern::Scope(_) => Ok(()),
    }
}

/// Names get the members of a value.
#[cycle(evaluate)]
fn bind_fields<C: Code, H: Host>(
    names: &[Text],
    v: &Value,
    here: &Here<'_>,
    scope: &mut Scope,
    machine: &mut Machine,
    code: &mut C,
    host: &mut H,
) -> Result<(), Stop>
    ensures { Ran C.form here.now.hooked (known here.now) nothing (λ p. let place = setting here.now p in references.fields_bound place names.now (value_seen p v.now)) (standing (C.sources code.old) (C.counts code.old) (C.asked code.old) machine.old scope.old.names.items (H.stands_for host.old)) result (standing (C.sources code.new) (C.counts code.new) (C.asked code.new) machine.new scope.new.names.items (H.stands_for host.new)) }
{
    for name in names {
        let w = read(v, &Value::Text(name.share()?), here, machine, code, host)?;
        scope.assign(name, w);
    }
    Ok(())
}

/// The value of a body.
#[cycle(evaluate)]
fn body<C: Code, H: Host>(
    b: &Body,
    here: &Here<'_>,
    scope: &mut Scope,
    machine: &mut Machine,
    code: &mut C,
    host: &mut H,
) -> Result<Value, Stop>
    ensures { Ran C.form here.now.hooked (known here.now) value_seen (λ p. let place = setting here.now p in evaluation.body_value b.now place) (standing (C.sources code.old) (C.counts code.old) (C.asked code.old) machine.old scope.old.names.items (H.stands_for host.old)) result (standing (C.sources code.new) (C.counts code.new) (C.asked code.new) machine.new scope.new.names.items (H.stands_for host.new)) }
{
    match b {
        Body::Value(e) => value(e.get(), here, scope, machine, code, host),
        Body::Block(statements) => {
            let flow = run_all(statements.as_slice(), here, scope, machine, code, host)?;
            Ok(value_of_flow(flow))
        }
    }
}

/// Statements, as far as they go on.
#[cycle(evaluate)]
fn run_all<C: Code, H: Host>(
    statements: &[Stmt],
    here: &Here<'_>,
    scope: &mut Scope,
    machine: &mut Machine,
    code: &mut C,
    host: &mut H,
) -> Result<Flow, Stop>
    ensures { Ran C.form here.now.hooked (known here.now) flow_seen (λ p. let place = setting here.now p in in_order.statements_ran place statements.now) (standing (C.sources code.old) (C.counts code.old) (C.asked code.old) machine.old scope.old.names.items (H.stands_for host.old)) result (standing (C.sources code.new) (C.counts code.new) (C.asked code.new) machine.new scope.new.names.items (H.stands_for host.new)) }
{
    for statement in statements {
        let flow = run(statement, here, scope, machine, code, host)?;
        let Flow::Onward = flow else {
            return Ok(flow);
        };
    }
    Ok(Flow::Onward)
}

/// What a statement does.
#[cycle(evaluate)]
fn run<C: Code, H: Host>(
    statement: &Stmt,
    here: &Here<'_>,
    scope: &mut Scope,
    machine: &mut Machine,
    code: &mut C,
    host: &mut H,
) -> Result<Flow, Stop>
    ensures { Ran C.form here.now.hooked (known here.now) flow_seen (λ p. let place = setting here.now p in evaluation.ran statement.now place) (standing (C.sources code.old) (C.counts code.old) (C.asked code.old) machine.old scope.old.names.items (H.stands_for host.old)) result (standing (C.sources code.new) (C.counts code.new) (C.asked code.new) machine.new scope.new.names.items (H.stands_for host.new)) }
{
    match statement {
        Stmt::Const(pattern, e) => run_const(pattern, e, here, scope, machine, code, host),
        Stmt::Let(name, e) => run_let(name, e, here, scope, machine, code, host),
        Stmt::Do(e) => run_do(e, here, scope, machine, code, host),
        Stmt::Delete(target) => run_delete(target, here, scope, machine, code, host),
        Stmt::Return(e) => run_return(e, here, scope, machine, code, host),
        Stmt::If(condition, then, otherwise) => run_if(
            condition,
            then.as_slice(),
            otherwise.as_slice(),
            here,
            scope,
            machine,
            code,
            host,
        ),
        Stmt::While(condition, statements) => run_while(
            condition,
            statements.as_slice(),
            here,
            scope,
            machine,
            code,
            host,
        ),
        Stmt::ForOf(name, e, statements) => run_for(
            name,
            e,
            statements.as_slice(),
            here,
            scope,
            machine,
            code,
            host,
        ),
        Stmt::Break => Ok(Flow::Broke),
        Stmt::Continue => Ok(Flow::Continued),
        Stmt::Block(statements) => {
            run_block(statements.as_slice(), here, scope, machine, code, host)
        }
    }
}

/// An expression as a statement.
#[inline(never)]
#[cycle(evaluate)]
fn run_do<C: Code, H: Host>(
    e: &Expr,
    here: &Here<'_>,
    scope: &mut Scope,
    machine: &mut Machine,
    code: &mut C,
    host: &mut H,
) -> Result<Flow, Stop>
    ensures { Ran C.form here.now.hooked (known here.now) flow_seen (λ p. let place = setting here.now p in evaluation.ran (Stmt.Do e.now) place) (standing (C.sources code.old) (C.counts code.old) (C.asked code.old) machine.old scope.old.names.items (H.stands_for host.old)) result (standing (C.sources code.new) (C.counts code.new) (C.asked code.new) machine.new scope.new.names.items (H.stands_for host.new)) }
{
    let _v = value(e, here, scope, machine, code, host)?;
    Ok(Flow::Onward)
}

/// A `delete`.
#[inline(never)]
#[cycle(evaluate)]
fn run_delete<C: Code, H: Host>(
    target: &Expr,
    here: &Here<'_>,
    scope: &mut Scope,
    machine: &mut Machine,
    code: &mut C,
    host: &mut H,
) -> Result<Flow, Stop>
    ensures { Ran C.form here.now.hooked (known here.now) flow_seen (λ p. let place = setting here.now p in evaluation.ran (Stmt.Delete target.now) place) (standing (C.sources code.old) (C.counts code.old) (C.asked code.old) machine.old scope.old.names.items (H.stands_for host.old)) result (standing (C.sources code.new) (C.counts code.new) (C.asked code.new) machine.new scope.new.names.items (H.stands_for host.new)) }
{
    let r = refer(target, here, scope, machine, code, host)?;
    remove(&r, here, machine, code, host)?;
    Ok(Flow::Onward)
}

/// A return.
#[inline(never)]
#[cycle(evaluate)]
fn run_return<C: Code, H: Host>(
    e: &Option<Expr>,
    here: &Here<'_>,
    scope: &mut Scope,
    machine: &mut Machine,
    code: &mut C,
    host: &mut H,
) -> Result<Flow, Stop>
    ensures { Ran C.form here.now.hooked (known here.now) flow_seen (λ p. let place = setting here.now p in evaluation.ran (Stmt.Return e.now) place) (standing (C.sources code.old) (C.counts code.old) (C.asked code.old) machine.old scope.old.names.items (H.stands_for host.old)) result (standing (C.sources code.new) (C.counts code.new) (C.asked code.new) machine.new scope.new.names.items (H.stands_for host.new)) }
{
    match e {
        None => Ok(Flow::Returned(Value::Undefined)),
        Some(e) => {
            let v = value(e, here, scope, machine, code, host)?;
            Ok(Flow::Returned(v))
        }
    }
}

/// A `const`; the names of `useLexicalScope` have their values since the arrow was entered.
#[inline(never)]
#[cycle(evaluate)]
fn run_const<C: Code, H: Host>(
    pattern: &Pattern,
    e: &Expr,
    here: &Here<'_>,
    scope: &mut Scope,
    machine: &mut Machine,
    code: &mut C,
    host: &mut H,
) -> Result<Flow, Stop>
    ensures { Ran C.form here.now.hooked (known here.now) flow_seen (λ p. let place = setting here.now p in evaluation.ran (Stmt.Const pattern.now e.now) place) (standing (C.sources code.old) (C.counts code.old) (C.asked code.old) machine.old scope.old.names.items (H.stands_for host.old)) result (standing (C.sources code.new) (C.counts code.new) (C.asked code.new) machine.new scope.new.names.items (H.stands_for host.new)) }
{
    if let Pattern::Scope(_) = pattern {
        return Ok(Flow::Onward);
    }
    let v = value(e, here, scope, machine, code, host)?;
    bind(pattern, v, here, scope, machine, code, host)?;
    Ok(Flow::Onward)
}

/// A `let`.
#[inline(never)]
#[cycle(evaluate)]
fn run_let<C: Code, H: Host>(
    name: &Text,
    e: &Expr,
    here: &Here<'_>,
    scope: &mut Scope,
    machine: &mut Machine,
    code: &mut C,
    host: &mut H,
) -> Result<Flow, Stop>
    ensures { Ran C.form here.now.hooked (known here.now) flow_seen (λ p. let place = setting here.now p in evaluation.ran (Stmt.Let name.now e.now) place) (standing (C.sources code.old) (C.counts code.old) (C.asked code.old) machine.old scope.old.names.items (H.stands_for host.old)) result (standing (C.sources code.new) (C.counts code.new) (C.asked code.new) machine.new scope.new.names.items (H.stands_for host.new)) }
{
    let v = value(e, here, scope, machine, code, host)?;
    scope.assign(name, v);
    Ok(Flow::Onward)
}

/// The one block or the other, by a condition.
#[inline(never)]
#[cycle(evaluate)]
fn run_if<C: Code, H: Host>(
    condition: &Expr,
    then: &[Stmt],
    otherwise: &[Stmt],
    here: &Here<'_>,
    scope: &mut Scope,
    machine: &mut Machine,
    code: &mut C,
    host: &mut H,
) -> Result<Flow, Stop>
    ensures { Ran C.form here.now.hooked (known here.now) flow_seen (λ p. let place = setting here.now p in evaluation.ran (Stmt.If condition.now then.now otherwise.now) place) (standing (C.sources code.old) (C.counts code.old) (C.asked code.old) machine.old scope.old.names.items (H.stands_for host.old)) result (standing (C.sources code.new) (C.counts code.new) (C.asked code.new) machine.new scope.new.names.items (H.stands_for host.new)) }
{
    let v = value(condition, here, scope, machine, code, host)?;
    if truthy(&v) {
        return run_block(then, here, scope, machine, code, host);
    }
    run_block(otherwise, here, scope, machine, code, host)
}

/// A `while`.
#[inline(never)]
#[cycle(evaluate)]
fn run_while<C: Code, H: Host>(
    condition: &Expr,
    statements: &[Stmt],
    here: &Here<'_>,
    scope: &mut Scope,
    machine: &mut Machine,
    code: &mut C,
    host: &mut H,
) -> Result<Flow, Stop>
    ensures { Ran C.form here.now.hooked (known here.now) flow_seen (λ p. let place = setting here.now p in evaluation.ran (Stmt.While condition.now statements.now) place) (standing (C.sources code.old) (C.counts code.old) (C.asked code.old) machine.old scope.old.names.items (H.stands_for host.old)) result (standing (C.sources code.new) (C.counts code.new) (C.asked code.new) machine.new scope.new.names.items (H.stands_for host.new)) }
{
    loop {
        let v = value(condition, here, scope, machine, code, host)?;
        let goes_on = truthy(&v);
        drop(v);
        if !goes_on {
            return Ok(Flow::Onward);
        }
        if !machine.meter.take() {
            return Err(Stop::Ended);
        }
        let flow = run_block(statements, here, scope, machine, code, host)?;
        if let Some(flow) = behind_turn(flow) {
            return Ok(flow);
        }
    }
}

/// A `for` over the items of a list or array, as they are when it begins.
#[inline(never)]
#[cycle(evaluate)]
fn run_for<C: Code, H: Host>(
    name: &Text,
    e: &Expr,
    statements: &[Stmt],
    here: &Here<'_>,
    scope: &mut Scope,
    machine: &mut Machine,
    code: &mut C,
    host: &mut H,
) -> Result<Flow, Stop>
    ensures { Ran C.form here.now.hooked (known here.now) flow_seen (λ p. let place = setting here.now p in evaluation.ran (Stmt.ForOf name.now e.now statements.now) place) (standing (C.sources code.old) (C.counts code.old) (C.asked code.old) machine.old scope.old.names.items (H.stands_for host.old)) result (standing (C.sources code.new) (C.counts code.new) (C.asked code.new) machine.new scope.new.names.items (H.stands_for host.new)) }
{
    let v = value(e, here, scope, machine, code, host)?;
    let items = items_of(machine.alloc, &machine.heap, &v, host)?;
    run_each(
        name,
        items.as_slice(),
        statements,
        here,
        scope,
        machine,
        code,
        host,
    )
}

/// The turns of a `for`, one for each item.
#[inline(never)]
#[cycle(evaluate)]
fn run_each<C: Code, H: Host>(
    name: &Text,
    items: &[Value],
    statements: &[Stmt],
    here: &Here<'_>,
    scope: &mut Scope,
    machine: &mut Machine,
    code: &mut C,
    host: &mut H,
) -> Result<Flow, Stop>
    ensures { Ran C.form here.now.hooked (known here.now) flow_seen (λ p. let place = setting here.now p in lists.each_ran place name.now statements.now (values_seen p items.now)) (standing (C.sources code.old) (C.counts code.old) (C.asked code.old) machine.old scope.old.names.items (H.stands_for host.old)) result (standing (C.sources code.new) (C.counts code.new) (C.asked code.new) machine.new scope.new.names.items (H.stands_for host.new)) }
{
    for item in items {
        if !machine.meter.take() {
            return Err(Stop::Ended);
        }
        let flow = run_turn(name, item, statements, here, scope, machine, code, host)?;
        if let Some(flow) = behind_turn(flow) {
            return Ok(flow);
        }
    }
    Ok(Flow::Onward)
}

/// One turn of a `for`, where the name is the item.
#[inline(never)]
#[cycle(evaluate)]
fn run_turn<C: Code, H: Host>(
    name: &Text,
    item: &Value,
    statements: &[Stmt],
    here: &Here<'_>,
    scope: &mut Scope,
    machine: &mut Machine,
    code: &mut C,
    host: &mut H,
) -> Result<Flow, Stop>
    ensures { Ran C.form here.now.hooked (known here.now) flow_seen (λ p. let place = setting here.now p in lists.turn_ran place name.now statements.now (value_seen p item.now)) (standing (C.sources code.old) (C.counts code.old) (C.asked code.old) machine.old scope.old.names.items (H.stands_for host.old)) result (standing (C.sources code.new) (C.counts code.new) (C.asked code.new) machine.new scope.new.names.items (H.stands_for host.new)) }
{
    scope.push(name, item.share()?)?;
    let flow = run_block(statements, here, scope, machine, code, host)?;
    scope.close(1);
    Ok(flow)
}

/// A block, in a scope of its own.
#[cycle(evaluate)]
fn run_block<C: Code, H: Host>(
    statements: &[Stmt],
    here: &Here<'_>,
    scope: &mut Scope,
    machine: &mut Machine,
    code: &mut C,
    host: &mut H,
) -> Result<Flow, Stop>
    ensures { Ran C.form here.now.hooked (known here.now) flow_seen (λ p. let place = setting here.now p in in_order.block_ran place statements.now) (standing (C.sources code.old) (C.counts code.old) (C.asked code.old) machine.old scope.old.names.items (H.stands_for host.old)) result (standing (C.sources code.new) (C.counts code.new) (C.asked code.new) machine.new scope.new.names.items (H.stands_for host.new)) }
{
    let count = scope.open_block(statements)?;
    let flow = run_all(statements, here, scope, machine, code, host)?;
    scope.close(count);
    Ok(flow)
}
