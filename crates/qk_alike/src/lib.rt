//! When one reading of code stands for another, and the laws that such readings agree on every call. Each law is the contract of a
//! function that does nothing.
#![tactic(auto)]

ghost use Rattle.qk_alike.specs.Laws.{CalledAnewAlike, ReadingsAgree};
ghost use Rattle.qk_alike.specs.Pairings.{HeapsBegin, PairsOneToOne};

/// Readings of programs whose functions stand for one another agree, where computeds are read alike.
pub fn readings_agree()
    ensures { ReadingsAgree }
{}

/// Computeds whose functions are called at each read are read alike.
pub fn called_anew_alike()
    ensures { CalledAnewAlike }
{}

/// Where the pairs of a pairing are of addresses that were made, and one to one, no address is paired twice.
pub fn pairs_one_to_one()
    ensures { PairsOneToOne }
{}

/// Heaps stand for one another once the objects at the pairs do.
pub fn heaps_begin()
    ensures { HeapsBegin }
{}
