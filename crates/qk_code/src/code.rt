//! Where functions come from.

ghost use Rattle.std.specs.Prelude.{◌≡◌, List, IfOk, IfErr};
ghost use Rattle.qk_ast.specs.declared.Form.{Form as OfFiles};
ghost use Rattle.qk_meaning.specs.Index.{is_for_task};
ghost use Rattle.qk_value.specs.View.{plain_site};
ghost use Rattle.qk_code.specs.Sources.{Sources, Extends};
ghost use Rattle.qk_code.specs.Counts.{Counts, CausedBy};
ghost use Rattle.qk_code.specs.declared.ask.Ask.{Ask};
ghost use Rattle.qk_code.specs.declared.ask.Ask.TheVariants.{Body, Plain as Plain_arrow, Root as Root_name};
ghost use Rattle.qk_code.specs.Asked.{Goes_on, asks_answered};
ghost use Rattle.qk_code.specs.Standing.{StandsFor, MeansIn, HasKind, HasPlain, LacksPlain};

use crate::func::{Func, Root};
use crate::stop::CodeFault;
use qk_shared::{Shared, Text};

/// Where functions and the names of roots come from: the modules or built files that it has. A call may add files and changes none that
/// stands there, so what it gave stays so at every later call.
pub trait Code {
    /// Whether its files are modules as they are written, or built ones.
    ghost form: { OfFiles };

    /// The files that it has, by name, and the index of the application.
    ghost sources: { Self → Sources };

    /// How often the store failed, how often a file was refused, and what was last asked for in vain.
    ghost counts: { Self → Counts };

    /// The lists of what it was asked for that it stands for. It needn't store one.
    ghost asked: { Self → List Ask → Type 0 };

    /// The arrow of a symbol.
    fn body(&mut self, symbol: &Text) -> Result<Shared<Func>, CodeFault>
        ensures grows { Extends (sources self.old) (sources self.new) }
        ensures cause { CausedBy (counts self.old) (counts self.new) (Body symbol.now) result }
        ensures asks { Goes_on (asked self.old) (asked self.new) (asks_answered (Body symbol.now) result) }
        ensures gives { IfOk result (λ f. StandsFor form (sources self.new) (λ p. p.lifted symbol.now) f) }
        ensures kind { IfOk result (λ f. f.task ≡ is_for_task ((sources self.new).index.kind_of symbol.now)) };

    /// What a name of a file's root means there; not one that the file imports from the framework.
    fn root(&mut self, file: &Text, name: &Text) -> Result<Root, CodeFault>
        ensures grows { Extends (sources self.old) (sources self.new) }
        ensures cause { CausedBy (counts self.old) (counts self.new) (Root_name file.now name.now) result }
        ensures asks { Goes_on (asked self.old) (asked self.new) (asks_answered (Root_name file.now name.now) result) }
        ensures gives { IfOk result (λ r. MeansIn form (sources self.new) file.now name.now r) }
        ensures kind { IfOk result (λ r. HasKind (sources self.new) r) };

    /// The plain arrow of that number in a file that it has. It reads nothing.
    fn plain(&mut self, file: &Text, number: u32) -> Result<Shared<Func>, CodeFault>
        ensures kept { sources self.new ≡ sources self.old }
        ensures cause { CausedBy (counts self.old) (counts self.new) (Plain_arrow file.now number) result }
        ensures asks { Goes_on (asked self.old) (asked self.new) (asks_answered (Plain_arrow file.now number) result) }
        ensures gives { IfOk result (λ f. StandsFor form (sources self.new) (λ p. p.code (plain_site file.now number)) f) }
        ensures has { IfOk result (λ f. HasPlain form (sources self.new) file.now number) }
        ensures lacks { IfErr result (λ e. LacksPlain form (sources self.new) file.now number e) };
}
