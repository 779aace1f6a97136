//! A law of the printed text: the contract of a function that does nothing.

ghost use Rattle.qk_print.specs.Laws.{PrintedReadsBack};

/// What is printed of a module that a source derives is a built file that derives the same module, within the limits of built files.
pub fn printed_reads_back()
    ensures { PrintedReadsBack }
{}
