//! Where statements go on.

ghost use Rattle.std.specs.Prelude.{◌≡◌, IfSome, IfNone};
ghost use Rattle.qk_meaning.specs.Program.{Program};
ghost use Rattle.qk_meaning.specs.Doing.{Doing, Gives};
ghost use Rattle.qk_meaning.specs.Running.{Running};
ghost use Rattle.qk_meaning.specs.Flow as F;
ghost use Rattle.qk_meaning.specs.Flow.{flow_value, then_next};
ghost use Rattle.qk_eval.specs.Seeing.{value_seen, flow_seen};

use qk_value::Value;

/// Where a list of statements goes on.
#[derive(Drop)]
pub enum Flow {
    Onward,
    Broke,
    Continued,
    Returned(Value),
}

/// The value that a body gives whose statements went on so.
pub fn value_of_flow(flow: Flow) -> Value
    ensures { (p : Program) → flow_value (flow_seen p flow) ≡ value_seen p result }
{
    match flow {
        Flow::Returned(v) => v,
        Flow::Onward | Flow::Broke | Flow::Continued => Value::Undefined,
    }
}

/// Where the statements around a loop go on behind a turn that went on so; `None` where the loop goes on.
pub fn behind_turn(flow: Flow) -> Option<Flow>
    ensures left { IfSome result (λ f. (p : Program) (next : Doing Running F.Flow) (s : Running) → then_next (flow_seen p flow) next s ≡ Gives (flow_seen p f) s) }
    ensures on { IfNone result ((p : Program) (next : Doing Running F.Flow) (s : Running) → next s ≡ then_next (flow_seen p flow) next s) }
{
    match flow {
        Flow::Onward => None,
        Flow::Continued => None,
        Flow::Broke => Some(Flow::Onward),
        Flow::Returned(v) => Some(Flow::Returned(v)),
    }
}
