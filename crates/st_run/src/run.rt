//! A board for a program, with its laws, and what a caller that is generic over it owes and has.
ghost use Rattle.std.specs.Prelude.{◌≡◌, ◌≢◌, ◌+◌, ◌^◌, ◌<◌, None, Some};
ghost use Rattle.std.specs.List.{Contains};
ghost use Rattle.st_base.specs.declared.chain.Chain.{Chain};
ghost use Rattle.st_base.specs.declared.limits.Limits.{Limits};
ghost use Rattle.st_words.specs.declared.view.View.{View};
ghost use Rattle.st_words.specs.declared.view.Slot.TheVariants.{Cell};
ghost use Rattle.st_words.specs.declared.view.Cargo.{Cargo};
ghost use Rattle.st_words.specs.Steps.{Step, SlotTake, Answer, Took};
ghost use Rattle.st_words.specs.Views.{view_after};
ghost use Rattle.st_words.specs.Made.{StepMade};
ghost use Rattle.st_words.specs.RunLaws.{RunLaws, Suffices, Leaves};
ghost use Rattle.st_model.specs.declared.program.Program.{Program};
ghost use Rattle.st_model.specs.Memory.{Data};
ghost use Rattle.st_made.specs.Moves.{Made};
ghost use Rattle.st_made.specs.Events.{Event};
ghost use Rattle.st_chain.specs.Chains.{Walks};
ghost use Rattle.st_run.specs.Behind.{Behind, NextDefined};
ghost use Rattle.st_run.specs.Looking.{Looks, Unfilled};
ghost use Rattle.st_run.specs.Meanings.{meaning};
ghost use Rattle.st_run.specs.Plans.{no_program, no_data, least_limits};

use st_base::chain::Chain;
use st_words::board::Board;
use st_words::calls::slot_take_by;
use st_words::view::Slot;
use std::marker::Brand;

/// A board for programs.
///
/// - `is_for`: the board is for a program with its input and limits. `stays`: what keeps a board the one that it was.
/// - `laws`: for any program, input and limits, what holds of these with the members of the board. A view is brought forward by what the worker's
///   threads make (`Made` of st_made), and a step goes with an item of theirs, or none (`Event`).
/// - `behind`: what it tells of a worker's threads: a heap that the heap-frame machine reaches has them, with what the worker has counted and seen.
/// - `unfilled`: the State word of a thread that a worker has is found not full.
/// - `looks`: a worker that looks at the return word of a frame which it has exported finds what it holds there, if it holds that word.
pub trait RunBoard: Board {
    ghost is_for: { Program → Data → Limits → Self → Type 0 };

    ghost stays: { Self → Self → Type 0 };

    ghost laws: { (p : Program) (d : Data) (limits : Limits) → RunLaws Self.view Self.serves Self.forward Self.moves Self.says Self.did (is_for p d limits) stays (meaning p d limits) (Made p d) (Event p d) };

    ghost behind: { (p : Program) (d : Data) (limits : Limits) → Behind Self.view Self.serves (is_for p d limits) (Made p d) p d };

    ghost unfilled: { (p : Program) (d : Data) (limits : Limits) → Unfilled Self.view Self.serves Self.forward Self.moves Self.says Self.did (is_for p d limits) stays (meaning p d limits) (Made p d) (Event p d) };

    ghost looks: { (p : Program) (d : Data) (limits : Limits) → Looks Self.view Self.serves Self.forward Self.moves Self.says Self.did (is_for p d limits) stays (meaning p d limits) (Made p d) (Event p d) };
}

/// The program that a board is for, with its input and the limits of the run, which a caller names for contracts alone.
pub trait Plan {
    ghost program: { Program };

    ghost source: { Data };

    ghost limits: { Limits };
}

impl Plan for Brand {
    ghost program = { no_program };

    ghost source = { no_data };

    ghost limits = { least_limits };
}

/// By the laws of a board for a program a caller meets what a step asks, and has what the step leaves.
pub fn run_asks<B: RunBoard, P: Plan>()
    ensures asks { (after : View → Step → Answer → View) → Suffices B.view B.serves B.forward B.moves B.says B.did (B.is_for P.program P.source P.limits) B.stays (meaning P.program P.source P.limits) (Made P.program P.source) (Event P.program P.source) after }
    ensures leaves { (after : View → Step → Answer → View) → Leaves B.view B.serves B.forward B.moves B.says B.did (B.is_for P.program P.source P.limits) B.stays (meaning P.program P.source P.limits) (Made P.program P.source) (Event P.program P.source) after }
{}

/// The next item of a worker's thread that hasn't stopped reads nothing undefined, on any board for an accepted program.
pub fn next_defined()
    ensures { NextDefined }
{}

/// Takes the chain of a ready number, which stands for its thread. The worker's threads make no item by it.
pub fn take_ready<B: RunBoard, P: Plan>(board: &mut B, w: u32, c: u32) -> Option<Chain>
    requires serves { B.serves board.old w }
    requires here { B.is_for P.program P.source P.limits board.old }
    requires ready { Contains (B.view board.old w).ready c }
    requires few { (B.view board.old w).share + 1 < 2 ^ 32 }
    ensures some { result ≢ None }
    ensures taken { (cargo : Cargo) × StepMade B.view B.serves B.says B.did view_after board.old w (SlotTake (Cell c)) (Took result cargo) board.new × ((chain : Chain) → result ≡ Some chain → Walks P.program P.source chain cargo) }
    ensures here { B.is_for P.program P.source P.limits board.new }
    ensures stays { B.stays board.old board.new }
{
    slot_take_by::<B, Brand, _>(&c, board, w, Slot::Cell(c))
}
