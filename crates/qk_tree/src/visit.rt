//! What is done where a component is met.

ghost use Rattle.std.specs.Prelude.{◌≡◌, List};
ghost use Rattle.qk_ast.specs.Texts as texts;
ghost use Rattle.qk_meaning.specs.Value.{Site};
ghost use Rattle.qk_meaning.specs.Doing.{state_left};
ghost use Rattle.qk_meaning.specs.Expansion as E;
ghost use Rattle.qk_tree.specs.Doings.{Gave, met_at};

use qk_nodes::Step;
use qk_shared::{List, Text};
use qk_value::{ElemTag, Fault, Value};
use std::alloc::AllocError;

/// Why an expansion stops. A visit has its own refusals, as that of a code which gives nothing.
#[derive(Drop)]
pub enum Stop<R> {
    Fault(Fault),
    /// The budget ended.
    Ended,
    Refused(R),
    /// There are more nodes than the caller allows. No visit answers this.
    TooMany,
    Memory,
}

impl<R: Drop> From<AllocError> for Stop<R> {
    ghost use Rattle.std.specs.Prelude.{◌≡◌};
    ghost use Rattle.qk_tree.specs.declared.visit.Stop.{Stop};

    ghost from_gives = { λ _ e. e ≡ Stop.Memory };

    fn from(_: AllocError) -> Stop<R> {
        Stop::Memory
    }
}

/// What is done where a component is met.
pub trait Visit {
    /// Why a visit gives no view though the meaning may give one.
    type Refusal: Drop;

    /// The state that visits change in the meaning.
    ghost State: { Type 0 };

    /// What a contract leaves open, as the program of which the code so far has read a part.
    ghost Way: { Type 0 };

    /// What of that is still possible.
    ghost fits: { Way → Self → Type 0 };

    /// The names that the arrow of a site captures.
    ghost names: { Way → Site → List texts.Text };

    /// The states of the meaning that it may stand for.
    ghost stands: { Way → Self → State → Type 0 };

    /// What holds, after a refusal, of the state that the meaning comes to.
    ghost refused: { Way → Self → Self.Refusal → State → Type 0 };

    /// What is done in the meaning.
    ghost visits: { Way → E.Visit State };

    /// The view of the component at this path.
    ///
    /// # Errors
    ///
    /// Any stop but `TooMany`.
    fn meet(
        &mut self,
        path: &[Step],
        tag: &ElemTag,
        fields: &List<(Text, Value)>,
    ) -> Result<Value, Stop<Self::Refusal>>
        ensures { (w : Way) → fits w self.new → fits w self.old × ((s : State) → stands w self.old s → Gave (stands w self.new) (refused w self.new) (names w) (visits w (met_at (names w) path.now tag.now fields.now) s) result) };

    /// What holds after a refusal still holds where the meaning goes on with other visits.
    ghost still: { (w : Way) (v : Self) (why : Self.Refusal) (met : E.Met) (s : State) → refused w v why s → refused w v why (state_left (visits w met s)) };
}
