//! What a name means where a scope declares it.

/// How a local is declared.
#[derive(Clone, Copy, Debug, PartialEq, Eq)]
pub enum Kind {
    /// Once and for all: by `const`, as a parameter, or as the name of a `for`.
    Constant,
    /// By `let`.
    Variable,
    /// As the `track` of a task.
    Tracker,
}

/// What a name means at a place, where a scope declares it.
#[derive(Clone, Copy, Debug, PartialEq, Eq)]
pub struct Local {
    pub kind: Kind,
    /// Whether an arrow stands between that scope and the place.
    pub in_arrow: bool,
    /// Whether the declaration has ended at the place.
    pub ended: bool,
}
