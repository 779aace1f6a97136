//! The reader of modules as a function of the tokens, and the laws that it reads exactly what the grammar derives.
//! Each law is the contract of a function that does nothing.
#![tactic(auto)]

ghost use Rattle.qk_reading.specs.Laws.{FaultsExactly, FaultsInside, OneModule, OneParse, ReadsExactly, ReadsTexts, SyntaxOnlyWhereNone, TooDeepOnlyWhereRaised};

/// A text derives one module at most in a form.
pub fn one_module()
    ensures { OneModule }
{}

/// Tokens derive one module at most in a form, whatever its nesting.
pub fn one_parse()
    ensures { OneParse }
{}

/// The reader answers a module exactly where the tokens derive it within the nesting.
pub fn reads_exactly()
    ensures { ReadsExactly }
{}

/// The reader refuses exactly where the tokens derive no module within the nesting.
pub fn faults_exactly()
    ensures { FaultsExactly }
{}

/// A text that is short enough derives a module exactly where the reader answers it to the text's tokens.
pub fn reads_texts()
    ensures { ReadsTexts }
{}

/// The reader finds a token out of place only where no module of any nesting has the tokens.
pub fn syntax_only_where_none()
    ensures { SyntaxOnlyWhereNone }
{}

/// The reader finds a token too deep only where more tokens up to it can raise the nesting than the nesting allows.
pub fn too_deep_only_where_raised()
    ensures { TooDeepOnlyWhereRaised }
{}

/// A fault stands at one of the tokens; Syntax also behind all of them, where the text ends too early.
pub fn faults_inside()
    ensures { FaultsInside }
{}
