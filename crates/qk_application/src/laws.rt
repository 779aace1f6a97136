//! Laws of applications. Each is the contract of a function that does nothing.

ghost use Rattle.qk_application.specs.Laws.{AcceptedOrRefused, OneApplication, OneRefusal};

/// The same files hold one accepted application at most.
pub fn one_application()
    ensures { OneApplication }
{}

/// An application that is accepted is refused only where the store fails or memory runs out.
pub fn accepted_or_refused()
    ensures { AcceptedOrRefused }
{}

/// An application is refused by one fault of its own.
pub fn one_refusal()
    ensures { OneRefusal }
{}
