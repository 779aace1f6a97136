ghost use Rattle.qk_script.specs.Script.{OneScript};

/// A text spells one list of items. The law is the contract of a function that does nothing.
pub fn one_script()
    ensures { OneScript }
{}
