//! One step of the machine: the instruction at the pc is taken from the image, chosen by what it does, and carried out. A caller that has
//! decoded it may have it carried out alone.
ghost use Rattle.std.specs.Prelude.{◌≡◌, ◌≢◌, ℕ, IfSome, Some, is_some};
ghost use Rattle.st_rv.specs.declared.ins.Ins.{Ins};
ghost use Rattle.st_model.specs.Memory.{data_of};
ghost use Rattle.st_step.specs.Moves.{is_entry, Fetches, MayMove, MayStep, Moves, Stepped, move_of};
ghost use Rattle.st_step.specs.Acts.{IsBounded};
ghost use Rattle.st_words.specs.Made.{Asked, StepMade};

use crate::choose::act_of;
use crate::decoded::Decoded;
use crate::machine::{Machine, StepEnd};
use st_base::entry::Entry;
use st_base::image::Image;
use st_base::map::CODE_START;
use st_rv::code::decode;
use st_rv::ins::Ins;
use st_words::board::{Board, NamesView};

/// Whether an address is that of an entry of the runtime: 0x10 to 0x90.
pub(crate) fn is_entry(pc: u32) -> bool
    ensures { result ≡ is_entry pc }
{
    pc % 16 == 0 && Entry::ForkIn.address() <= pc && pc <= Entry::Putc.address()
}

/// The instruction of an image's word at an address.
fn fetched(image: &Image, pc: u32) -> Option<Ins>
    ensures some { IfSome result (λ i. IsBounded i) }
    ensures only { (i : Ins) → Fetches image.now pc i → result ≡ Some i }
{
    let offset = pc.checked_sub(CODE_START)?;
    let word = image.words.as_slice().get((offset / 4) as usize)?;
    decode(*word)
}

impl Machine {
    /// One instruction of the image's code, or half of a store of less than eight bytes; it takes no memory.
    pub fn step<B: Board, N: NamesView>(
        &mut self,
        image: &Image,
        input: &[u8],
        board: &mut B,
        w: u32,
    ) -> StepEnd
        requires may { MayStep (λ s. Asked B.view B.serves B.says B.forward B.moves N.after board.old w s) image.now (data_of image.now.rodata input.now) self.old }
        ensures step { Stepped (λ s a b. StepMade B.view B.serves B.says B.did N.after board.old w s a b) board.old self.old image.now (data_of image.now.rodata input.now) result self.new board.new }
    {
        let pc = self.pc();
        if is_entry(pc) {
            return StepEnd::Entry(pc);
        }
        let Some(i) = fetched(image, pc) else {
            unreachable!()
        };
        self.execute::<B, N>(
            &Decoded::of(i, false),
            image.rodata.as_slice(),
            input,
            board,
            w,
        )
    }

    /// One instruction, or half of a store of less than eight bytes, that the caller has decoded; it takes no memory.
    pub fn execute<B: Board, N: NamesView>(
        &mut self,
        i: &Decoded,
        rodata: &[u8],
        input: &[u8],
        board: &mut B,
        w: u32,
    ) -> StepEnd
        requires bounded { IsBounded i.now.ins }
        requires may { MayMove (λ s. Asked B.view B.serves B.says B.forward B.moves N.after board.old w s) (move_of (data_of rodata.now input.now) self.old i.now.ins) }
        ensures moved { Moves (λ s a b. StepMade B.view B.serves B.says B.did N.after board.old w s a b) board.old self.old (move_of (data_of rodata.now input.now) self.old i.now.ins) result self.new board.new }
    {
        let act = act_of(&self.state, i, rodata, input);
        self.state.carry_out::<B, N>(act, board, w)
    }

    /// Whether a store of less than eight bytes was begun and not yet made.
    pub fn is_half_done(&self) -> bool
        ensures { result ≡ is_some self.now.half }
    {
        self.state.half.is_some()
    }
}
