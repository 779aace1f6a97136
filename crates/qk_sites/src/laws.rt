//! Laws of symbols. Each is the contract of a function that does nothing.

ghost use Rattle.qk_sites.specs.Laws.{OneSite, SpelledIsSymbol, SymbolIsSpelled, ReadsBack};

/// No two sites have one symbol.
pub fn one_site()
    ensures { OneSite }
{}

/// What is spelled for a site is a symbol.
pub fn spelled_is_symbol()
    ensures { SpelledIsSymbol }
{}

/// Each symbol is spelled for a site.
pub fn symbol_is_spelled()
    ensures { SymbolIsSpelled }
{}

/// What is read of a site's symbol is that site.
pub fn reads_back()
    ensures { ReadsBack }
{}
