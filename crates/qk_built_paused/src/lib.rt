//! Accepted modules and their built files over pauses: the laws that both print the same. Each law is the contract of a function that does
//! nothing.
#![tactic(auto)]

ghost use Rattle.qk_built_paused.specs.Laws.{AcceptedPausable, AcceptedSameOutput, AcceptedSameOutputDropped};

/// An accepted application whose built files are as asked, and whose items leave sound worlds, may go over to its built files at a pause.
pub fn accepted_pausable()
    ensures { AcceptedPausable }
{
    qk_lifting::symbols_are_sites();
}

/// Such an application prints without pauses what its built files print that go on from what each page holds, where no accepted pause finds
/// a hidden function.
pub fn accepted_same_output()
    ensures { AcceptedSameOutput }
{
    qk_lifting::symbols_are_sites();
}

/// Where pauses drop hidden functions, such an application prints what its built files print that go on from what each page holds.
pub fn accepted_same_output_dropped()
    ensures { AcceptedSameOutputDropped }
{
    qk_lifting::symbols_are_sites();
}
