//! The syntax tree of JSX modules, and the grammar that says which module a text derives.
#![tactic(auto)]

pub mod framework;
mod free_names;
pub mod laws;
mod name_set;
mod walk;

pub use free_names::{AstFault, free};
pub use name_set::NameSet;
use qk_shared::{List, Shared, Text};

/// A module as it is written, or a file that was built.
#[derive(Clone, Copy, Debug, PartialEq, Eq)]
pub enum Form {
    Source,
    Built,
}

/// How a name breaks the rules of names. At one place the first of these counts.
#[derive(Clone, Copy, Debug, PartialEq, Eq)]
pub enum ScopeKind {
    /// A name without a declaration.
    UnknownName,
    /// A second declaration in one scope, or a declared name that is taken.
    DuplicateName,
    /// A `let` that is used inside an arrow within its scope.
    LetCaptured,
    /// An assignment to a name that is no `let`.
    ConstAssigned,
    /// A local that is used before the end of its declaration.
    EarlyUse,
}

/// How something breaks the rules of places. At one place the first of these counts.
#[derive(Clone, Copy, Debug, PartialEq, Eq)]
pub enum RuleKind {
    /// A hook, a context id's name or `track` out of its place.
    HookPlace,
    /// A call of a dollar name with something other than one arrow, or with an arrow of other parameters.
    DollarArgument,
    /// A root initialiser of another form, or a framework name used otherwise.
    RootValue,
    /// A capital tag that is no component, or a component that is no tag.
    NotComponent,
    /// A tag or an attribute that breaks a rule of tags.
    TagRefused,
    /// More than 4,096 dollar sites in a module.
    TooManySites,
}

#[derive(Drop)]
pub struct Module {
    pub imports: List<Import>,
    pub items: List<Item>,
}

#[derive(Drop)]
pub struct Import {
    pub names: List<Text>,
    pub from: Text,
}

#[derive(Drop)]
pub struct Item {
    pub exported: bool,
    pub name: Text,
    pub init: Expr,
}

#[derive(Drop)]
pub enum Pattern {
    Name(Text),
    Fields(List<Text>),
    Scope(List<Text>),
}

#[derive(Clone, Copy, Debug, PartialEq, Eq)]
pub enum Un {
    Not,
    Neg,
}

#[derive(Clone, Copy, Debug, PartialEq, Eq)]
pub enum Bin {
    Or,
    And,
    Coalesce,
    Same,
    NotSame,
    Less,
    LessEq,
    More,
    MoreEq,
    Add,
    Sub,
    Mul,
    Rem,
}

#[derive(Clone, Copy, Debug, PartialEq, Eq)]
pub enum AssignOp {
    Set,
    Add,
    Sub,
    Mul,
}

#[derive(Clone, Copy, Debug, PartialEq, Eq)]
pub enum Known {
    Log,
    Keys,
    Str,
    Trunc,
}

#[derive(Drop)]
pub enum Tag {
    Element(Text),
    Component(Text),
    Fragment,
}

#[cycle(ast)]
#[derive(Drop)]
pub struct Arrow {
    pub place: u32,
    pub params: List<Pattern>,
    pub body: Body,
}

#[cycle(ast)]
#[derive(Drop)]
pub enum Body {
    Value(Shared<Expr>),
    Block(List<Stmt>),
}

#[cycle(ast)]
#[derive(Drop)]
pub enum Stmt {
    Const(Pattern, Expr),
    Let(Text, Expr),
    Do(Expr),
    Delete(Expr),
    Return(Option<Expr>),
    If(Expr, List<Stmt>, List<Stmt>),
    While(Expr, List<Stmt>),
    ForOf(Text, Expr, List<Stmt>),
    Break,
    Continue,
    Block(List<Stmt>),
}

#[cycle(ast)]
#[derive(Drop)]
pub enum Expr {
    Undefined,
    Null,
    Bool(bool),
    Int(i64),
    Text(Text),
    Name(Text),
    List(List<Expr>),
    Record(List<Field>),
    Template(List<Text>, List<Expr>),
    Unary(Un, Shared<Expr>),
    Chain(Shared<Expr>, List<Operand>),
    Cond(Shared<Expr>, Shared<Expr>, Shared<Expr>),
    Post(Shared<Expr>, List<Link>),
    Assign(AssignOp, Shared<Expr>, Shared<Expr>),
    Step(bool, Shared<Expr>),
    Known(Known, List<Expr>),
    Arrow(Shared<Arrow>),
    Jsx(Shared<Jsx>),
}

#[cycle(ast)]
#[derive(Drop)]
pub struct Field {
    pub key: Text,
    pub value: Expr,
}

#[cycle(ast)]
#[derive(Drop)]
pub struct Operand {
    pub op: Bin,
    pub value: Expr,
}

#[cycle(ast)]
#[derive(Drop)]
pub enum Link {
    Prop(Text),
    Index(Expr),
    Call(List<Expr>),
}

#[cycle(ast)]
#[derive(Drop)]
pub struct Jsx {
    pub tag: Tag,
    pub attrs: List<Field>,
    pub children: List<Expr>,
}

/// Where an imported name comes from: the framework, or a module and its name there.
#[derive(Drop)]
pub enum Origin {
    Qwik(Text),
    Module(Text, Text),
}

/// An imported name and its origin.
#[derive(Drop)]
pub struct Imported {
    pub name: Text,
    pub origin: Origin,
}

/// The imported names of a module, in the order of its text.
#[derive(Drop)]
pub struct ImportTable {
    pub entries: List<Imported>,
}

/// An arrow of a module or built file, by its number among the dollar arrows or among the plain ones there, from 1.
#[derive(Drop)]
pub struct Site {
    pub module: Text,
    pub number: u32,
    pub dollar: bool,
}
