// The regions around a place.
ghost use Rattle.std.specs.Prelude.{◌≡◌, [], ◌∷◌, OnOk};
ghost use Rattle.std.specs.Option.{option_map};

use std::alloc::{AllocError, Global};
use std::marker::Model;

/// What surrounds a place: the braces of code, a template's hole, an opening tag, a closing tag, or a JSX element between its tags.
#[derive(Clone, Copy)]
pub(crate) enum Region {
    Braces,
    Hole,
    Tag,
    End,
    Children,
}

/// What a token does to the regions around what follows it.
#[derive(Clone, Copy)]
pub(crate) enum Change {
    Stay,
    Enter(Region),
    Leave,
    /// Leaves one region and enters another.
    Turn(Region),
}

/// The regions around a place, the outermost first. With none it stands in the code of the module.
#[derive(Drop)]
pub(crate) struct Regions {
    within: Vec<Region>,
}

impl Model for Regions {
    ghost use Rattle.qk_ast.specs.Tokens.{Around};
    ghost use Rattle.qk_lex.specs.Regions.{around_of};

    ghost Value = { Around };

    ghost view = { λ r. around_of r.within.items };
}

impl Regions {
    ghost use Rattle.qk_ast.specs.Tokens.{leave};
    ghost use Rattle.qk_lex.specs.Regions.{region_of, innermost, changed};

    pub(crate) fn new(alloc: Global) -> Regions
        ensures { result ≡ [] }
    {
        Regions {
            within: Vec::new(alloc),
        }
    }

    pub(crate) fn innermost(&self) -> Option<Region>
        ensures { option_map region_of result ≡ innermost self.now }
    {
        self.within.last().copied()
    }

    fn enter(&mut self, region: Region) -> Result<(), AllocError>
        ensures { OnOk result (self.new ≡ region_of region ∷ self.old) }
    {
        self.within.push(region)?;
        Ok(())
    }

    fn leave(&mut self)
        ensures { self.new ≡ leave self.old }
    {
        let _ = self.within.pop();
    }

    pub(crate) fn follow(&mut self, change: Change) -> Result<(), AllocError>
        ensures { OnOk result (self.new ≡ changed change self.old) }
    {
        match change {
            Change::Stay => Ok(()),
            Change::Enter(region) => self.enter(region),
            Change::Leave => {
                self.leave();
                Ok(())
            }
            Change::Turn(region) => {
                self.leave();
                self.enter(region)
            }
        }
    }
}
