//! How code runs.

/// What code may do: listeners and tasks run in Effect, renders and computeds in Pure, the arrow of `track` in Track.
#[derive(Clone, Copy, Debug, Drop, PartialEq, Eq)]
pub enum Mode {
    Effect,
    Pure,
    Track,
}

/// A part of an execution that is told of apart.
#[derive(Clone, Copy, Debug, Drop, PartialEq, Eq)]
pub enum Part {
    Task,
    Track,
}
