//! Laws of gathering. Each is the contract of a function that does nothing.

ghost use Rattle.qk_modules.specs.Laws.{GatheredOrRefused, OneFault, OneGathering};

/// The same files hold one application at most.
pub fn one_gathering()
    ensures { OneGathering }
{}

/// An application that is gathered is refused only where the store fails or memory runs out.
pub fn gathered_or_refused()
    ensures { GatheredOrRefused }
{}

/// An application is refused by one fault of its own.
pub fn one_fault()
    ensures { OneFault }
{}
