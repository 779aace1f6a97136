//! Laws of the grammar. Each is the contract of a function that does nothing.

ghost use Rattle.qk_ast.specs.Laws.{OneTokenList, FirstFormDerives};

/// A text has one token list.
pub fn one_token_list()
    ensures { OneTokenList }
{}

/// A text of the first form derives the module that it means.
pub fn first_form_derives()
    ensures { FirstFormDerives }
{}
