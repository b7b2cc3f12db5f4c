//! `shrink_step` as a call of its own: beside its arguments it takes what the view after it is named by, so that a caller can name the view
//! by its own state, at a call through a bound.
ghost use Rattle.std.specs.Prelude.{◌≡◌, ℕ, Bool, List};
ghost use Rattle.st_base.specs.declared.chain.Frame.{Frame};
ghost use Rattle.st_stack.specs.Exported.{IsFrameOn, IsLowest};
ghost use Rattle.st_stack.specs.Shrinking.{IsStackOf, Shrinks};
ghost use Rattle.st_stack.specs.FrameLaw.{FrameLaw, IsTop, KeepsLaw};
ghost use Rattle.st_words.specs.Made.{Asked};
ghost use Rattle.st_words.specs.Steps.{Look, return_place};

use crate::stack::{PhysStack, Shrunk};
use st_base::chain::Frame;
use st_words::board::{Board, NamesView};

/// `shrink_step` of a stack.
pub fn shrink_step_by<B: Board, N: NamesView, T>(
    _by: &T,
    stack: &mut PhysStack,
    board: &mut B,
    w: u32,
    sp: u64,
    top: Option<Frame>,
) -> Shrunk
    requires stack { IsStackOf w stack.old.lo stack.old.hi }
    requires may { (f : Frame) → IsLowest stack.old.exported f → IsFrameOn stack.old.lo stack.old.hi f → Asked B.view B.serves B.says B.forward B.moves N.after board.old w (Look (return_place f)) }
    ensures shrunk { Shrinks B.view B.serves B.says B.did N.after board.old w stack.old.hi stack.old.exported stack.new.exported top result board.new }
    ensures law { (is_zero : ℕ → Bool) (live own : List Frame) → FrameLaw is_zero stack.old.hi sp stack.old.exported live own → IsTop stack.old.exported own top → KeepsLaw is_zero stack.old.hi sp stack.old.exported stack.new.exported live own result }
    ensures ends { (stack.new.lo ≡ stack.old.lo) × (stack.new.hi ≡ stack.old.hi) }
{
    stack.shrink_step::<B, N>(board, w, sp, top)
}
