//! Steps of evaluation in which no other code runs: names, tags, arrows, what is stored and deleted.

ghost use Rattle.std.specs.Prelude.{◌≡◌, None};
ghost use Rattle.qk_ast.specs.declared.Expr.TheVariants as expr;
ghost use Rattle.qk_meaning.specs.Value as M;
ghost use Rattle.qk_meaning.specs.Value.{Fields};
ghost use Rattle.qk_meaning.specs.Program.{Program};
ghost use Rattle.qk_meaning.specs.References as references;
ghost use Rattle.qk_meaning.specs.Calls as calls;
ghost use Rattle.qk_meaning.specs.Evaluation as evaluation;
ghost use Rattle.qk_meaning.specs.In_order as in_order;
ghost use Rattle.qk_code.specs.Standing.{framework_in};
ghost use Rattle.qk_code.specs.Ran.{Ran};
ghost use Rattle.qk_eval.specs.Placing.{setting, known};
ghost use Rattle.qk_eval.specs.Standing.{standing, with_scope};
ghost use Rattle.qk_eval.specs.Seeing.{value_seen, values_seen, shown_seen, reference_seen, nothing};
ghost use Rattle.qk_eval.specs.Lists as lists;

use crate::here::{Here, tracks};
use crate::machine::Machine;
use crate::pieces::only;
use crate::reference::Reference;
use crate::rooted::{root_tag, root_value};
use qk_acts::{remove_member, write_member};
use qk_ast::{Arrow, Tag};
use qk_code::{Code, Host, Stop};
use qk_environment::Scope;
use qk_making::{make_function, marked};
use qk_shared::Text;
use qk_value::{ElemTag, Fault, Value};

/// What a name stands for: a local, else the tracker of a task, else what the file's root says.
pub(crate) fn named<C: Code, H: Host>(
    name: &Text,
    here: &Here<'_>,
    scope: &mut Scope,
    machine: &mut Machine,
    code: &mut C,
    host: &mut H,
) -> Result<Reference, Stop>
    ensures { Ran C.form here.now.hooked (known here.now) reference_seen (λ p. let place = setting here.now p in evaluation.refer (expr.Name name.now) place) (standing (C.sources code.old) (C.counts code.old) (C.asked code.old) machine.old scope.old.names.items (H.stands_for host.old)) result (standing (C.sources code.new) (C.counts code.new) (C.asked code.new) machine.new scope.new.names.items (H.stands_for host.new)) }
{
    if scope.has(name) {
        return Ok(Reference::Local(name.share()?));
    }
    if tracks(here.func) && name.as_str() == "track" {
        return Ok(Reference::Tracker);
    }
    match here.func.framework_name(name) {
        Some(name) => Ok(Reference::Framework(name.share()?)),
        None => root_named(name, here, machine, code, host),
    }
}

/// What a name of the file's root stands for, where it is none of the framework.
pub(crate) fn root_named<C: Code, H: Host>(
    name: &Text,
    here: &Here<'_>,
    machine: &mut Machine,
    code: &mut C,
    host: &mut H,
) -> Result<Reference, Stop>
    ensures { (outer : Program → Fields) → framework_in here.now.func.now.imports.entries name.now ≡ None → Ran C.form here.now.hooked (known here.now) reference_seen (λ p. let place = setting here.now p in references.root_used place name.now) (with_scope (C.sources code.old) (C.counts code.old) (C.asked code.old) machine.old outer (H.stands_for host.old)) result (with_scope (C.sources code.new) (C.counts code.new) (C.asked code.new) machine.new outer (H.stands_for host.new)) }
{
    let root = code.root(&here.func.file, name)?;
    Ok(Reference::Of(root_value(machine.alloc, &root)?))
}

/// A reference is given a value.
pub(crate) fn store<C: Code, H: Host>(
    r: Reference,
    v: &Value,
    here: &Here<'_>,
    scope: &mut Scope,
    machine: &mut Machine,
    code: &mut C,
    host: &mut H,
) -> Result<(), Stop>
    ensures { Ran C.form here.now.hooked (known here.now) nothing (λ p. let place = setting here.now p in references.stored place (reference_seen p r) (value_seen p v.now)) (standing (C.sources code.old) (C.counts code.old) (C.asked code.old) machine.old scope.old.names.items (H.stands_for host.old)) result (standing (C.sources code.new) (C.counts code.new) (C.asked code.new) machine.new scope.new.names.items (H.stands_for host.new)) }
{
    match r {
        Reference::Member(object, key) => store_member(
            &object,
            &key,
            v.share()?,
            here,
            machine,
            code,
            host,
        ),
        Reference::Local(name) => {
            scope.assign(&name, v.share()?);
            Ok(())
        }
        Reference::Of(_) => Ok(()),
        Reference::Tracker => Ok(()),
        Reference::Framework(_) => Ok(()),
    }
}

/// A member is written.
pub(crate) fn store_member<C: Code, H: Host>(
    object: &Value,
    key: &Value,
    v: Value,
    here: &Here<'_>,
    machine: &mut Machine,
    code: &mut C,
    host: &mut H,
) -> Result<(), Stop>
    ensures { (outer : Program → Fields) → Ran C.form here.now.hooked (known here.now) nothing (λ p. let place = setting here.now p in references.written_to place (value_seen p object.now) (value_seen p key.now) (value_seen p v)) (with_scope (C.sources code.old) (C.counts code.old) (C.asked code.old) machine.old outer (H.stands_for host.old)) result (with_scope (C.sources code.new) (C.counts code.new) (C.asked code.new) machine.new outer (H.stands_for host.new)) }
{
    write_member(here.mode, &mut machine.heap, object, key, v, host)
}

/// The function of an arrow.
#[inline(never)]
pub(crate) fn arrow_value<C: Code, H: Host>(
    arrow: &Arrow,
    here: &Here<'_>,
    scope: &mut Scope,
    machine: &mut Machine,
    code: &mut C,
    host: &mut H,
) -> Result<Value, Stop>
    ensures { Ran C.form here.now.hooked (known here.now) value_seen (λ p. let place = setting here.now p in in_order.value_in place (expr.Arrow arrow.now)) (standing (C.sources code.old) (C.counts code.old) (C.asked code.old) machine.old scope.old.names.items (H.stands_for host.old)) result (standing (C.sources code.new) (C.counts code.new) (C.asked code.new) machine.new scope.new.names.items (H.stands_for host.new)) }
{
    make_function(machine.alloc, here.func, arrow.place, scope)
}

/// What a tag shows.
pub(crate) fn shown<C: Code, H: Host>(
    tag: &Tag,
    here: &Here<'_>,
    machine: &mut Machine,
    code: &mut C,
    host: &mut H,
) -> Result<ElemTag, Stop>
    ensures { (outer : Program → Fields) → Ran C.form here.now.hooked (known here.now) shown_seen (λ p. let place = setting here.now p in lists.tag_shown place tag.now) (with_scope (C.sources code.old) (C.counts code.old) (C.asked code.old) machine.old outer (H.stands_for host.old)) result (with_scope (C.sources code.new) (C.counts code.new) (C.asked code.new) machine.new outer (H.stands_for host.new)) }
{
    match tag {
        Tag::Element(name) => Ok(ElemTag::Element(name.share()?)),
        Tag::Component(name) => {
            if name.as_str() == "Slot" {
                return Ok(ElemTag::Slot(Text::from_str(machine.alloc, "")?));
            }
            let root = code.root(&here.func.file, name)?;
            Ok(root_tag(&root)?)
        }
        Tag::Fragment => Ok(ElemTag::Fragment),
    }
}

/// `$` of a value.
pub(crate) fn call_dollar<C: Code, H: Host>(
    given: &[Value],
    here: &Here<'_>,
    machine: &mut Machine,
    code: &mut C,
    host: &mut H,
) -> Result<Value, Stop>
    ensures { (outer : Program → Fields) → Ran C.form here.now.hooked (known here.now) value_seen (λ p. let place = setting here.now p in calls.call place calls.The_dollar (values_seen p given.now)) (with_scope (C.sources code.old) (C.counts code.old) (C.asked code.old) machine.old outer (H.stands_for host.old)) result (with_scope (C.sources code.new) (C.counts code.new) (C.asked code.new) machine.new outer (H.stands_for host.new)) }
{
    let Some(f) = only(given) else {
        return Err(Stop::Fault(Fault::TypeMismatch));
    };
    Ok(f.share()?)
}

/// `noSerialize` of a value.
pub(crate) fn call_mark<C: Code, H: Host>(
    given: &[Value],
    here: &Here<'_>,
    machine: &mut Machine,
    code: &mut C,
    host: &mut H,
) -> Result<Value, Stop>
    ensures { (outer : Program → Fields) → Ran C.form here.now.hooked (known here.now) value_seen (λ p. let place = setting here.now p in calls.call place calls.The_mark (values_seen p given.now)) (with_scope (C.sources code.old) (C.counts code.old) (C.asked code.old) machine.old outer (H.stands_for host.old)) result (with_scope (C.sources code.new) (C.counts code.new) (C.asked code.new) machine.new outer (H.stands_for host.new)) }
{
    let Some(f) = only(given) else {
        return Err(Stop::Fault(Fault::TypeMismatch));
    };
    marked(f)
}

/// What a reference stands for is deleted, where it is a member.
pub(crate) fn remove<C: Code, H: Host>(
    r: &Reference,
    here: &Here<'_>,
    machine: &mut Machine,
    code: &mut C,
    host: &mut H,
) -> Result<(), Stop>
    ensures { (outer : Program → Fields) → Ran C.form here.now.hooked (known here.now) nothing (λ p. let place = setting here.now p in references.removed place (reference_seen p r.now)) (with_scope (C.sources code.old) (C.counts code.old) (C.asked code.old) machine.old outer (H.stands_for host.old)) result (with_scope (C.sources code.new) (C.counts code.new) (C.asked code.new) machine.new outer (H.stands_for host.new)) }
{
    match r {
        Reference::Member(object, key) => remove_member(
            machine.alloc,
            here.mode,
            &mut machine.heap,
            object,
            key,
            host,
        ),
        Reference::Of(_) => Ok(()),
        Reference::Local(_) => Ok(()),
        Reference::Tracker => Ok(()),
        Reference::Framework(_) => Ok(()),
    }
}
