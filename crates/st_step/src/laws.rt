//! Laws of laid out code, for every machine: each is the contract of a function with an empty body.

ghost use Rattle.st_step.specs.Runs.{RunsLi, RunsPrologue, RunsPureCopy, RunsAugmented, RunsToMark, RunsEpilogue};

/// The words of `li` give its value.
pub fn runs_li()
    ensures { RunsLi }
{}

/// A prologue makes a frame at sp and leaves s0 at its base.
pub fn runs_prologue()
    ensures { RunsPrologue }
{}

/// A pure copy gives the caller's registers from the frame whose base is s0, changes no word, and returns.
pub fn runs_pure_copy()
    ensures { RunsPureCopy }
{}

/// An augmented epilogue gives the same registers, and frees its frame exactly where sp is below the base and the base is at most gp; else it
/// marks it.
pub fn runs_augmented()
    ensures { RunsAugmented }
{}

/// Where an augmented epilogue marks its frame, a run of it comes to the mark first, and has changed no word there; the jump back behind the mark reads
/// no word.
pub fn runs_to_mark()
    ensures { RunsToMark }
{}

/// An epilogue as written gives the caller's registers, frees the frame and returns.
pub fn runs_epilogue()
    ensures { RunsEpilogue }
{}
