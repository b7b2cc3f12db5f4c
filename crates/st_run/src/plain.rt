//! The board over vectors, for a program.
ghost use Rattle.std.specs.Prelude.{◌≡◌, ◌≤◌, Some, IfOk};
ghost use Rattle.st_words.specs.Plain.{first_views};
ghost use Rattle.st_model.specs.declared.ordinary.State.{State};
ghost use Rattle.st_model.specs.Ordinary.{start};
ghost use Rattle.st_run.specs.OfPlain.{PlainIsFor, StaysSized};
ghost use Rattle.st_run.specs.PlainLaws.{plain_laws, plain_looks, plain_unfilled};
ghost use Rattle.st_run.specs.PlainBehind.{plain_behind};
ghost use Rattle.st_run.specs.Rules.{rules};

use crate::run::{Plan, RunBoard};
use st_base::limits::Limits;
use st_words::plain::PlainBoard;
use std::alloc::{AllocError, Global};
use std::marker::Brand;

impl RunBoard for PlainBoard {
    ghost is_for = { λ p d limits b. PlainIsFor p d limits b.words b.kept.cargoes b.kept.views };

    ghost stays = { λ b c. StaysSized b.words b.kept.views c.words c.kept.views };

    ghost laws = { λ p d limits. plain_laws (λ b. b.words) (λ b. b.kept.cargoes) (λ b. b.kept.views) (λ b. b.sized) p d limits (rules p d limits) };

    ghost behind = { λ p d limits. plain_behind (λ b. b.words) (λ b. b.kept.cargoes) (λ b. b.kept.views) p d limits (rules p d limits) };

    ghost unfilled = { λ p d limits. plain_unfilled (λ b. b.words) (λ b. b.kept.cargoes) (λ b. b.kept.views) (λ b. b.sized) p d limits (rules p d limits) };

    ghost looks = { λ p d limits. plain_looks (λ b. b.words) (λ b. b.kept.cargoes) (λ b. b.kept.views) (λ b. b.sized) p d limits (rules p d limits) };
}

/// Opens the board over vectors for so many workers and the plan's program, which begins: the root's chain lies in its slot, and no worker has
/// anything but its own stack.
pub fn open_board<P: Plan>(
    alloc: Global,
    limits: &Limits,
    workers: u32,
) -> Result<PlainBoard, AllocError>
    requires least { 1 ≤ workers }
    requires most { workers ≤ 16 }
    requires same { P.limits ≡ limits.now }
    requires begins { (first : State) × (start P.program P.source ≡ Some first) }
    ensures here { IfOk result (λ board. ⟦<PlainBoard as RunBoard>⟧.is_for P.program P.source P.limits board) }
    ensures views { IfOk result (λ board. board.kept.views ≡ first_views limits.now workers) }
{
    PlainBoard::open::<Brand>(alloc, limits, workers)
}
