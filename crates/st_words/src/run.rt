//! What a program means to a board, and that each step of a right worker may be made.
ghost use Rattle.st_words.specs.Careful.{Meaning};
ghost use Rattle.st_words.specs.Safely.{StartingLaws, WaitingLaws, EndingLaws, AskingLaws};
ghost use Rattle.st_words.specs.Operations.{OperationLaws};
ghost use Rattle.st_words.specs.Refused.{Refused};
ghost use Rattle.st_words.specs.Shares.{CoveredLaws};

/// A program, by what it means to a board.
pub trait Program {
    ghost means: { Meaning };
}

/// Each step by which a right worker starts a thread may be made.
pub fn starting_laws<P: Program>()
    ensures { StartingLaws P.means }
{}

/// Each step by which a right worker lets a thread wait, or wakes it, may be made.
pub fn waiting_laws<P: Program>()
    ensures { WaitingLaws P.means }
{}

/// Each step by which a right worker ends a thread, counts or prints may be made.
pub fn ending_laws<P: Program>()
    ensures { EndingLaws P.means }
{}

/// Each step by which a right worker asks another, answers it or stops all may be made.
pub fn asking_laws<P: Program>()
    ensures { AskingLaws P.means }
{}

/// The steps of each whole operation of a right worker may be made, one behind the other.
pub fn operation_laws<P: Program>()
    ensures { OperationLaws P.means }
{}

/// A worker's share keeps covering its threads and the chains of its turn.
pub fn covered_laws<P: Program>()
    ensures { CoveredLaws P.means }
{}

/// Steps by which something would be lost are refused.
pub fn refused_laws<P: Program>()
    ensures { Refused P.means }
{}
