//! Why a command ends before all is done: its status, and its last line.

ghost use Rattle.std.specs.Prelude.{◌≡◌, IfOk};
ghost use Rattle.std.specs.Cow.{cow_str_bytes};
ghost use Rattle.qk_top.specs.Saying.{said_line};
ghost use Rattle.qk_top.specs.Refusals.{said_by};
ghost use Rattle.qk_top.specs.Stops.{last_line_of};

use crate::digits::push_count;
use crate::refusal::Refusal;
use std::alloc::{AllocError, Global};
use std::borrow::CowStr;

/// Why a script is refused.
#[derive(Clone, Copy, Debug, PartialEq, Eq)]
pub(crate) enum ScriptRefusal {
    Missing,
    TooLong,
    NotUtf8,
    /// The line of this number, counted from 1, is the first that is no line of a script.
    Line(u64),
    TooMany,
    /// It has a pause, and there are no pauses yet.
    NotBuilt,
}

/// Why a command ends before all is done.
#[derive(Drop)]
pub(crate) enum Stop {
    /// The words are no command.
    Usage,
    Script(ScriptRefusal),
    Application(Refusal),
    /// A call of the store failed.
    StoreFailed,
    /// A call of the sink failed.
    SinkFailed,
    /// Memory ran out.
    Memory,
}

impl Stop {
    ghost use Rattle.qk_top.specs.Stops.{status_of};

    /// The status with which the program ends.
    pub(crate) fn status(&self) -> u8
        ensures { result ≡ status_of self.now }
    {
        match self {
            Stop::Usage => 1,
            Stop::Application(_) => 2,
            Stop::Script(_) => 5,
            Stop::StoreFailed => 6,
            Stop::SinkFailed => 7,
            Stop::Memory => 8,
        }
    }

    /// The last line that is printed, with its line feed; empty where none is.
    pub(crate) fn last_line(&self, alloc: Global) -> Result<CowStr<'static>, AllocError>
        ensures { IfOk result (λ line. cow_str_bytes line ≡ last_line_of self.now) }
    {
        let line = match self {
            Stop::Usage => "usage\n",
            Stop::Application(refusal) => return refusal_line(alloc, refusal),
            Stop::Script(ScriptRefusal::Missing) => "refused ScriptMissing\n",
            Stop::Script(ScriptRefusal::TooLong) => "refused ScriptTooLong\n",
            Stop::Script(ScriptRefusal::NotUtf8) => "refused ScriptNotUtf8\n",
            Stop::Script(ScriptRefusal::Line(number)) => return wrong_line(alloc, *number),
            Stop::Script(ScriptRefusal::TooMany) => "refused ScriptTooMany\n",
            Stop::Script(ScriptRefusal::NotBuilt) => "refused NotBuilt\n",
            Stop::StoreFailed => "store failed\n",
            Stop::SinkFailed => "",
            Stop::Memory => "memory\n",
        };
        Ok(CowStr::Borrowed(line))
    }
}

/// The last line for a script whose first wrong line has this number.
fn wrong_line(alloc: Global, number: u64) -> Result<CowStr<'static>, AllocError>
    ensures { IfOk result (λ line. cow_str_bytes line ≡ last_line_of (Stop.Script (ScriptRefusal.Line number))) }
{
    let mut line = String::from_str(alloc, "refused ScriptLine ")?;
    push_count(number, &mut line)?;
    line.push_str("\n")?;
    Ok(CowStr::Owned(line))
}

/// The last line for an application that is refused.
fn refusal_line(alloc: Global, refusal: &Refusal) -> Result<CowStr<'static>, AllocError>
    ensures { IfOk result (λ put. cow_str_bytes put ≡ said_line (said_by refusal.now)) }
{
    let mut line = String::from_str(alloc, "refused ")?;
    line.push_str(refusal.kind.text())?;
    line.push_str(" ")?;
    line.push_str(refusal.module.as_str())?;
    line.push_str(" ")?;
    refusal.what.push(&mut line)?;
    line.push_str("\n")?;
    Ok(CowStr::Owned(line))
}
