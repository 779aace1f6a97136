//! The code of an application that isn't split.

ghost use Rattle.std.specs.Prelude.{◌≡◌, ◌<◌, ◌≤◌, ◌+◌, Bool, Some, None, false, length, IfOk, IfErr, IfSome, IfNone, OnOk};
ghost use Rattle.std.specs.Option.{option_copied};
ghost use Rattle.qk_whole.specs.Holding.{Holds_files};
ghost use Rattle.qk_whole.specs.Refusing.{Last_lacked};

use crate::files::File;
use crate::filing::all_files;
use crate::numbers::numbered;
use crate::roots::shared;
use qk_application::Application;
use qk_ast::Origin;
use qk_code::{Ask, Code, CodeFault, Func, Refusal, Root};
use qk_modules::Modules;
use qk_shared::{Shared, Text};
use qk_sites::read_symbol;
use std::alloc::Global;
use std::collections::BTreeMap;

/// The code of an accepted application, from its modules as they are written. All of it is made at once, and no call reads anything.
#[derive(Drop)]
pub struct WholeCode {
    modules: Modules,
    files: BTreeMap<String, File>,
    refusals: u64,
    last: Option<Refusal>,
    ghost right: { ∥ Holds_files modules.list (length modules.list) files ∥₁ },
    ghost lacked: { ∥ Last_lacked modules.list last ∥₁ },
}

impl WholeCode {
    ghost use Rattle.qk_code.specs.declared.stop.CodeFault.TheVariants.{Memory};
    ghost use Rattle.qk_whole.specs.Taking.{IsAccepted};

    /// The code of an application that was accepted.
    ///
    /// # Errors
    ///
    /// `Memory` for want of memory. So is refused, too, an arrow whose tree has a million levels, or a number of which an `i64` doesn't hold the
    /// negated one; no text has one.
    pub fn new(alloc: Global, application: Application) -> Result<WholeCode, CodeFault>
        requires { IsAccepted application }
        ensures modules { IfOk result (λ code. code.modules ≡ application.modules) }
        ensures refusals { IfOk result (λ code. code.refusals ≡ 0) }
        ensures memory { IfErr result (λ fault. fault ≡ Memory) }
    {
        let files = all_files(alloc, &application)?;
        let Application { modules, names: _ } = application;
        Ok(WholeCode {
            modules,
            files,
            refusals: 0,
            last: None,
        })
    }
}

/// Look-ups.
impl WholeCode {
    ghost use Rattle.qk_ast.specs.declared.Form.TheVariants.{Source};
    ghost use Rattle.qk_meaning.specs.Roots.{root_of};
    ghost use Rattle.qk_value.specs.View.{plain_site};
    ghost use Rattle.qk_code.specs.Standing.{StandsFor, MeansIn, HasKind, HasPlain};
    ghost use Rattle.qk_whole.specs.Taking.{named, sources_of};
    ghost use Rattle.qk_whole.specs.Holding.{HasSite, Holds_item, NoName};

    /// The function of the dollar site that the symbol spells; `None` exactly where the modules have none.
    pub fn by_symbol(&self, symbol: &Text) -> Option<&Shared<Func>>
        ensures some { IfSome result (λ f. StandsFor Source (sources_of self.now.modules.list) (λ p. p.lifted symbol.now) f.now) }
        ensures none { IfNone result (HasSite (named self.now.modules.list) symbol.now → ⊥) }
    {
        let (file, number) = read_symbol(symbol.as_str())?;
        let there = self.files.get(file)?;
        numbered(&there.functions.dollars, number)
    }

    /// The function of the plain arrow of that number; `None` exactly where the file has none.
    pub fn by_number(&self, file: &Text, number: u32) -> Option<&Shared<Func>>
        ensures some { IfSome result (λ f. StandsFor Source (sources_of self.now.modules.list) (λ p. p.code (plain_site file.now number)) f.now) }
        ensures has { IfSome result (λ f. HasPlain Source (sources_of self.now.modules.list) file.now number) }
        ensures none { IfNone result (HasPlain Source (sources_of self.now.modules.list) file.now number → ⊥) }
    {
        let there = self.files.get(file.as_str())?;
        numbered(&there.functions.plains, number)
    }

    /// What the name of the file's root means; `None` exactly where it is of the framework, or no name there.
    pub fn by_name(&self, file: &Text, name: &Text) -> Option<&Root>
        ensures some { IfSome result (λ r. MeansIn Source (sources_of self.now.modules.list) file.now name.now r.now) }
        ensures kind { IfSome result (λ r. HasKind (sources_of self.now.modules.list) r.now) }
        ensures none { IfNone result (NoName (root_of (named self.now.modules.list) file.now name.now)) }
    {
        let there = self.files.get(file.as_str())?;
        match there.origins.get(name.as_str()) {
            None => self.item(file, name),
            Some(Origin::Module(module, own)) => self.item(module, own),
            Some(Origin::Qwik(_)) => None,
        }
    }

    /// The item of that name in a file.
    fn item(&self, file: &Text, name: &Text) -> Option<&Root>
        ensures { Holds_item self.now.modules.list file.now name.now (option_copied result) }
    {
        let there = self.files.get(file.as_str())?;
        there.roots.get(name.as_str())
    }
}

/// Refusals.
impl WholeCode {
    ghost use Rattle.qk_code.specs.Counts.{Because, Later};
    ghost use Rattle.qk_whole.specs.Refusing.{counted, Misses, Lacks};

    /// The refusal of what was asked for in vain, which is counted. It is told of this file or symbol.
    fn refused(&mut self, ask: Ask, file: &Text) -> CodeFault
        requires { Lacks self.old.modules.list ask }
        ensures later { Later (counted self.old.refusals self.old.last) (counted self.new.refusals self.new.last) }
        ensures because { Because (counted self.old.refusals self.old.last) (counted self.new.refusals self.new.last) ask result }
        ensures misses { Misses file.now result }
        ensures modules { self.new.modules ≡ self.old.modules }
    {
        let Ok(missing) = file.share() else {
            return CodeFault::Memory;
        };
        let Ok(last) = file.share() else {
            return CodeFault::Memory;
        };
        self.refusals = self.refusals.saturating_add(1);
        self.last = Some(Refusal {
            ask,
            why: CodeFault::Missing(last),
        });
        CodeFault::Missing(missing)
    }
}

/// A refusal is `Missing`, with the symbol or the file that was asked for. Whatever was asked, `asked` holds.
impl Code for WholeCode {
    ghost use Rattle.qk_ast.specs.declared.Form.TheVariants.{Source};
    ghost use Rattle.qk_whole.specs.Taking.{sources_of};
    ghost use Rattle.qk_whole.specs.Refusing.{counted};

    ghost form = { Source };

    ghost sources = { λ code. sources_of code.modules.list };

    ghost counts = { λ code. counted code.refusals code.last };

    ghost asked = { λ code list. Unit {0} };

    fn body(&mut self, symbol: &Text) -> Result<Shared<Func>, CodeFault> {
        match self.by_symbol(symbol) {
            Some(function) => Ok(function.share()?),
            None => {
                let ask = Ask::Body(symbol.share()?);
                Err(self.refused(ask, symbol))
            }
        }
    }

    fn root(&mut self, file: &Text, name: &Text) -> Result<Root, CodeFault> {
        match self.by_name(file, name) {
            Some(root) => Ok(shared(root)?),
            None => {
                let ask = Ask::Root(file.share()?, name.share()?);
                Err(self.refused(ask, file))
            }
        }
    }

    fn plain(&mut self, file: &Text, number: u32) -> Result<Shared<Func>, CodeFault> {
        match self.by_number(file, number) {
            Some(function) => Ok(function.share()?),
            None => {
                let ask = Ask::Plain(file.share()?, number);
                Err(self.refused(ask, file))
            }
        }
    }
}
