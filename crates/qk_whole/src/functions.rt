//! The functions of a module.

ghost use Rattle.std.specs.Prelude.{◌≡◌, List, [], map, IfOk};
ghost use Rattle.qk_ast.specs.Arrows.{Found_arrow};
ghost use Rattle.qk_captures.specs.Capturing.{captured_after};
ghost use Rattle.qk_locals.specs.Meanings.{mark_of};
ghost use Rattle.qk_meaning.specs.Sites.{is_task};
ghost use Rattle.qk_code.specs.Standing.{code_of};
ghost use Rattle.qk_whole.specs.Meeting.{met_seen, arrow_seen};
ghost use Rattle.qk_whole.specs.Telling.{IsOf, IsKind, AreOf};

use crate::known::Known;
use crate::met::Met;
use qk_code::Func;
use qk_locals::Mark;
use qk_shared::{Builder, List, Shared, Text};
use std::alloc::{AllocError, Global};

/// The functions of a module in text order: those of dollar arrows and those of plain ones, each at its number less one.
#[derive(Drop)]
pub(crate) struct Functions {
    pub(crate) dollars: List<Shared<Func>>,
    pub(crate) plains: List<Shared<Func>>,
}

impl Known {
    /// The functions of these arrows, which are all of the module.
    ///
    /// # Errors
    ///
    /// For want of memory.
    pub(crate) fn functions(&self, alloc: Global, all: &[Met]) -> Result<Functions, AllocError>
        ensures { IfOk result (λ fs. (found : List Found_arrow) → map met_seen all.now ≡ map arrow_seen found → self.now.names.captures ≡ captured_after self.now.file [] found → AreOf self.now found fs.dollars fs.plains) }
    {
        Ok(Functions {
            dollars: self.of_kind(alloc, all, true)?,
            plains: self.of_kind(alloc, all, false)?,
        })
    }

    /// The functions of those of a kind.
    fn of_kind(
        &self,
        alloc: Global,
        all: &[Met],
        dollar: bool,
    ) -> Result<List<Shared<Func>>, AllocError>
        ensures { IfOk result (λ fs. (found : List Found_arrow) → map met_seen all.now ≡ map arrow_seen found → self.now.names.captures ≡ captured_after self.now.file [] found → IsKind self.now dollar found fs) }
    {
        let mut functions = Builder::new(alloc);
        for (met, captured) in all.iter().zip(self.names.get().captures.as_slice()) {
            if captured.site.dollar == dollar {
                functions.push(self.function(alloc, met, &captured.names)?)?;
            }
        }
        functions.into_list(alloc)
    }

    /// The function of an arrow that captures these names.
    pub(crate) fn function(
        &self,
        alloc: Global,
        met: &Met,
        captures: &List<Text>,
    ) -> Result<Shared<Func>, AllocError>
        ensures place { IfOk result (λ f. f.arrow.place ≡ met.now.arrow.place) }
        ensures code { IfOk result (λ f. code_of f ≡ record { file = self.now.file; captures = captures.now; task = is_task (mark_of met.now.mark); params = met.now.arrow.params; body = met.now.arrow.body }) }
        ensures of { IfOk result (λ f. IsOf self.now f) }
    {
        let function = Func {
            file: self.file.share()?,
            captures: captures.share()?,
            arrow: met.arrow.share()?,
            names: self.names.share()?,
            elsewhere: self.elsewhere.share()?,
            imports: self.imports.share()?,
            task: is_task(met.mark),
        };
        Shared::new(alloc, function)
    }
}

/// Whether an arrow with this mark is a task's.
fn is_task(mark: Mark) -> bool
    ensures { result ≡ is_task (mark_of mark) }
{
    match mark {
        Mark::Unmarked => false,
        Mark::Marked => false,
        Mark::Tasked => true,
    }
}
