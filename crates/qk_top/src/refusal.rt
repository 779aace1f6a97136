//! Why an application is refused, as the last line says it.

ghost use Rattle.std.specs.Prelude.{◌≡◌, ◌++◌, OnOk, string_bytes};
ghost use Rattle.qk_top.specs.Saying.{scope_kind, rule_kind};
ghost use Rattle.qk_top.specs.Refusals.{kind_text, what_text};

use crate::digits::push_count;
use qk_ast::{RuleKind, ScopeKind};
use qk_modules::Place;
use qk_shared::Text;
use std::alloc::AllocError;

/// The kind of a refusal.
#[derive(Clone, Copy, Debug, PartialEq, Eq)]
pub(crate) enum Kind {
    RootMissing,
    ImportMissing,
    ExportMissing,
    NotUtf8,
    TooLong,
    Lexical,
    Syntax,
    TooDeep,
    TooMany,
    Naming(ScopeKind),
    Placing(RuleKind),
    /// All rules accept the application, and it is none that is played so far.
    NotBuilt,
}

impl Kind {
    pub(crate) fn text(self) -> &'static str
        ensures { result.now ≡ kind_text self }
    {
        match self {
            Kind::RootMissing => "RootMissing",
            Kind::ImportMissing => "ImportMissing",
            Kind::ExportMissing => "ExportMissing",
            Kind::NotUtf8 => "NotUtf8",
            Kind::TooLong => "TooLong",
            Kind::Lexical => "Lexical",
            Kind::Syntax => "Syntax",
            Kind::TooDeep => "TooDeep",
            Kind::TooMany => "TooMany",
            Kind::Naming(kind) => naming_text(kind),
            Kind::Placing(kind) => placing_text(kind),
            Kind::NotBuilt => "NotBuilt",
        }
    }
}

fn naming_text(kind: ScopeKind) -> &'static str
    ensures { result.now ≡ scope_kind kind }
{
    match kind {
        ScopeKind::UnknownName => "UnknownName",
        ScopeKind::DuplicateName => "DuplicateName",
        ScopeKind::LetCaptured => "LetCaptured",
        ScopeKind::ConstAssigned => "ConstAssigned",
        ScopeKind::EarlyUse => "EarlyUse",
    }
}

fn placing_text(kind: RuleKind) -> &'static str
    ensures { result.now ≡ rule_kind kind }
{
    match kind {
        RuleKind::HookPlace => "HookPlace",
        RuleKind::DollarArgument => "DollarArgument",
        RuleKind::RootValue => "RootValue",
        RuleKind::NotComponent => "NotComponent",
        RuleKind::TagRefused => "TagRefused",
        RuleKind::TooManySites => "TooManySites",
    }
}

/// What is wrong in the module.
#[derive(Drop)]
pub(crate) enum What {
    /// No more is said.
    Nothing,
    At(Place),
    Name(Text),
}

impl What {
    /// Appends it to a line.
    pub(crate) fn push(&self, line: &mut String) -> Result<(), AllocError>
        ensures { OnOk result (string_bytes line.new ≡ string_bytes line.old ++ what_text self.now) }
    {
        match self {
            What::Nothing => line.push_str("-"),
            What::At(place) => push_place(*place, line),
            What::Name(name) => line.push_str(name.as_str()),
        }
    }
}

/// Appends LINE:COLUMN.
fn push_place(place: Place, line: &mut String) -> Result<(), AllocError>
    ensures { OnOk result (string_bytes line.new ≡ string_bytes line.old ++ what_text (What.At place)) }
{
    push_count(place.line, line)?;
    line.push_str(":")?;
    push_count(place.column, line)
}

/// Why an application is refused.
#[derive(Drop)]
pub(crate) struct Refusal {
    pub(crate) kind: Kind,
    /// The name of the module.
    pub(crate) module: Text,
    pub(crate) what: What,
}
