//! The steps of a machine as calls of their own: beside the method's arguments each takes what the view after it is named by, so that a
//! caller that is generic over its board can name the view by its own state.
ghost use Rattle.st_model.specs.Memory.{data_of};
ghost use Rattle.st_step.specs.Acts.{IsBounded};
ghost use Rattle.st_step.specs.Moves.{MayMove, MayStep, Moves, Stepped, move_of};
ghost use Rattle.st_words.specs.Made.{Asked, StepMade};

use crate::decoded::Decoded;
use crate::machine::{Machine, StepEnd};
use st_base::image::Image;
use st_words::board::{Board, NamesView};

/// `step` of a machine.
pub fn step_by<B: Board, N: NamesView, T>(
    _by: &T,
    machine: &mut Machine,
    image: &Image,
    input: &[u8],
    board: &mut B,
    w: u32,
) -> StepEnd
    requires may { MayStep (λ s. Asked B.view B.serves B.says B.forward B.moves N.after board.old w s) image.now (data_of image.now.rodata input.now) machine.old }
    ensures step { Stepped (λ s a b. StepMade B.view B.serves B.says B.did N.after board.old w s a b) board.old machine.old image.now (data_of image.now.rodata input.now) result machine.new board.new }
{
    machine.step::<B, N>(image, input, board, w)
}

/// `execute` of a machine.
pub fn execute_by<B: Board, N: NamesView, T>(
    _by: &T,
    machine: &mut Machine,
    i: &Decoded,
    rodata: &[u8],
    input: &[u8],
    board: &mut B,
    w: u32,
) -> StepEnd
    requires bounded { IsBounded i.now.ins }
    requires may { MayMove (λ s. Asked B.view B.serves B.says B.forward B.moves N.after board.old w s) (move_of (data_of rodata.now input.now) machine.old i.now.ins) }
    ensures moved { Moves (λ s a b. StepMade B.view B.serves B.says B.did N.after board.old w s a b) board.old machine.old (move_of (data_of rodata.now input.now) machine.old i.now.ins) result machine.new board.new }
{
    machine.execute::<B, N>(i, rodata, input, board, w)
}
