//! The lease rule is kept by careful steps and by all that a worker does between them, and what follows from it: laws without code.
ghost use Rattle.st_rule.specs.Laws.{RuleLaws};

use st_words::run::Program;

/// For a program that means to a board what the heap-frame machine does (`IsMeant`), any limits and any number of workers:
///
/// - `kept`, `moves`: each careful step, whatever is answered, and what a worker does between its steps keep the rule, of a heap to which the
///   machine leads by at most one step, or by a run. `settles`: so does what all workers do by themselves, each since its last step.
/// - `told`, `comes`, `tidy`: what the answers of steps promise, that a chain which is taken walks to its thread, and what is always so of a view.
/// - `follows`, `fills_once`: a held word has its keeper's value and one keeper, a name has one cell, a thread that has ended has filled its
///   cell, which stays full, and a stop code means that some run passes that limit.
/// - `rests`: where nothing is active, no worker has anything, and each thread is gone, or in its slot, trapped or listed.
/// - `opened`: a board that is opened for the root's thread has the rule, for at most 31 workers.
pub fn rule_laws<P: Program>()
    ensures { RuleLaws P.means }
{}
