//! The parser of the whole grammar.

ghost use Rattle.std.specs.Prelude.{◌≡◌, ◌≤◌, length, chars, IfOk, IfErr};
ghost use Rattle.qk_ast.specs.Derives as definition;
ghost use Rattle.qk_parse.specs.Parsing.{Refused, NoneDerived, of_lex, placed};
ghost use Rattle.qk_parse.specs.declared.parse.ParseFault.TheVariants.{Memory};
ghost use Rattle.qk_reading.specs.Laws.{ReadsTexts, FaultsExactly, SyntaxOnlyWhereNone, TooDeepOnlyWhereRaised, FaultsInside};
ghost use Rattle.qk_token.specs.Lexed.{Listed, Lexes, place_of};

use qk_ast::{Form, Module};
use qk_base::limits;
use qk_lex::LexFault;
use qk_module::read_module;
use qk_token::{Fault, Lexed, lex};
use std::alloc::Global;

/// Why a text derives no module. A place is a byte of the text.
#[derive(Clone, Copy, Debug, PartialEq, Eq)]
pub enum ParseFault {
    /// The text is longer than the form may be: 1 MiB, of a file that was built 16 MiB.
    TooLong,
    /// At the byte `at` stands no token, no blank and no comment.
    Lexical { at: usize },
    /// No module goes on with the token at the byte `at`, or none ends there with the text.
    Syntax { at: usize },
    /// With the token at the byte `at` the nesting passes the form's limit: 32, of a file that was built 1024.
    TooDeep { at: usize },
    /// Memory ran out.
    Memory,
}

/// The fault of a text without tokens.
fn of_lex(fault: LexFault) -> ParseFault
    ensures { result ≡ of_lex fault }
{
    match fault {
        LexFault::Lexical { at } => ParseFault::Lexical { at },
        LexFault::Memory => ParseFault::Memory,
    }
}

/// The greatest length of a text of the form, in bytes.
fn longest(form: Form) -> usize
    ensures { result ≡ definition.longest form }
{
    match form {
        Form::Source => limits::MODULE_BYTES,
        Form::Built => limits::BUILT_FILE_BYTES,
    }
}

/// The greatest nesting of a module of the form.
fn deepest(form: Form) -> usize
    ensures { result ≡ definition.deepest form }
{
    match form {
        Form::Source => limits::NESTING as usize,
        Form::Built => 1024,
    }
}

/// The fault at its byte.
fn placed(lexed: &Lexed<'_>, fault: Fault) -> ParseFault
    requires syntax { (left : _) → fault ≡ Fault.Syntax left → left ≤ length lexed.now.tokens }
    requires deep { (left : _) → fault ≡ Fault.TooDeep left → left ≤ length lexed.now.tokens }
    ensures { result ≡ placed lexed.now fault }
{
    match fault {
        Fault::Memory => ParseFault::Memory,
        Fault::Syntax(left) => ParseFault::Syntax {
            at: lexed.place_of(left),
        },
        Fault::TooDeep(left) => ParseFault::TooDeep {
            at: lexed.place_of(left),
        },
    }
}

/// What is known of the reader. It does nothing.
fn laws()
    ensures texts { ReadsTexts }
    ensures exact { FaultsExactly }
    ensures nowhere { SyntaxOnlyWhereNone }
    ensures deep { TooDeepOnlyWhereRaised }
    ensures inside { FaultsInside }
{
    qk_reading::reads_texts();
    qk_reading::faults_exactly();
    qk_reading::syntax_only_where_none();
    qk_reading::too_deep_only_where_raised();
    qk_reading::faults_inside();
}

/// The module that the text derives in the form.
///
/// `TooLong` comes first, then `Lexical`; then, of `Syntax` and `TooDeep`, the one that stands first. Each comes only where the text derives no module.
pub fn parse_module(alloc: Global, text: &str, form: Form) -> Result<Module, ParseFault>
    ensures derived { IfOk result (λ m. definition.Derives form text.now m) }
    ensures refused { IfErr result (Refused form text.now) }
    ensures none { IfErr result (NoneDerived form text.now) }
{
    if longest(form) < text.len() {
        return Err(ParseFault::TooLong);
    }
    match lex(alloc, text) {
        Ok(lexed) => parse_lexed(alloc, text, form, &lexed),
        Err(fault) => Err(of_lex(fault)),
    }
}

/// The module that the tokens of the text derive.
fn parse_lexed(
    alloc: Global,
    text: &str,
    form: Form,
    lexed: &Lexed<'_>,
) -> Result<Module, ParseFault>
    requires short { length text.now ≤ definition.longest form }
    requires lexes { Lexes (chars text.now) lexed.now }
    ensures derived { IfOk result (λ m. definition.Derives form text.now m) }
    ensures refused { IfErr result (Refused form text.now) }
    ensures none { IfErr result (NoneDerived form text.now) }
{
    laws();
    match read_module(alloc, form, deepest(form), lexed.tokens()) {
        Ok(module) => Ok(module),
        Err(fault) => Err(placed(lexed, fault)),
    }
}
