//! What is wrong in one condition of a group over the heap-frame machine, or of the chains in slots, and refuted: laws without code.
ghost use Rattle.st_refused.specs.Unbacked.{ThreadGiven, ThreadDropped, NamedTwice, FullUnended, ValueOfNone, ByteUnprinted, ByteElsewhere, StopOfNobody, StopUnpassed, ItemsUnbegun, ChainAstray};

use st_words::run::Program;

/// No chain is put with the thread that another worker has.
pub fn thread_given()
    ensures { ThreadGiven }
{}

/// A thread that hasn't ended doesn't go out of a worker's hands but with a chain.
pub fn thread_dropped()
    ensures { ThreadDropped }
{}

/// No two cells have one Owner word, where neither is the root's.
pub fn named_twice()
    ensures { NamedTwice }
{}

/// No future is full whose thread hasn't ended.
#[tactic(auto, using(crate::proofs::Names::full_unended))]
pub fn full_unended()
    ensures { FullUnended }
{}

/// No future has another value than its thread has ended with.
pub fn value_of_none()
    ensures { ValueOfNone }
{}

/// No byte is shown that the root hasn't printed.
pub fn byte_unprinted()
    ensures { ByteUnprinted }
{}

/// No byte that the root prints is stored at another place than the next.
#[tactic(auto, using(crate::proofs::Runs::byte_elsewhere))]
pub fn byte_elsewhere()
    ensures { ByteElsewhere }
{}

/// No stop code is of no limit, or of no worker.
#[tactic(auto, using(crate::proofs::Runs::stop_of_nobody))]
pub fn stop_of_nobody()
    ensures { StopOfNobody }
{}

/// No stop code is of a limit that no run passes.
#[tactic(auto, using(crate::proofs::Runs::stop_unpassed))]
pub fn stop_unpassed()
    ensures { StopUnpassed }
{}

/// No worker has counted more items than those of the run and those that are begun.
pub fn items_unbegun()
    ensures { ItemsUnbegun }
{}

/// No chain is put that doesn't walk to its thread.
pub fn chain_astray<P: Program>()
    ensures { ChainAstray P.means }
{}
