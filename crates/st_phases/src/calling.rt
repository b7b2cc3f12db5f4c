//! The running thread: at an instruction, or at an entry of the runtime that it has called.
ghost use Rattle.st_base.specs.Entry.{entry_at};
ghost use Rattle.st_model.specs.Memory.{data_of};
ghost use Rattle.st_words.specs.Made.{Asked, StepMade};
ghost use Rattle.st_phases.specs.Calls.{MayServe, MayGoOn, Serves, Goes};

use crate::automaton::Automaton;
use crate::turn::Turn;
use st_base::entry::Entry;
use st_base::image::Image;
use st_words::board::{Board, NamesView};

impl Automaton {
    /// The first step of what the runtime does at an entry.
    fn serve<B: Board, N: NamesView>(&mut self, entry: Entry, board: &mut B) -> Turn
        requires { MayServe (λ s. Asked B.view B.serves B.says B.forward B.moves N.after board.old self.old.number s) self.old entry }
        ensures { Serves (λ s a b. StepMade B.view B.serves B.says B.did N.after board.old self.old.number s a b) board.old self.old entry result self.new board.new }
    {
        match entry {
            Entry::ForkIn | Entry::Counter => self.draw::<B, N>(board),
            Entry::ForkOut | Entry::End => self.set_value::<B, N>(board),
            Entry::Touch | Entry::Done | Entry::Join => self.see_kind::<B, N>(board),
            Entry::Poll => {
                self.go_back();
                self.poll::<B, N>(board)
            }
            Entry::Putc => self.print::<B, N>(board),
        }
    }

    /// The thread goes on: an instruction, or an entry that it has called.
    pub(crate) fn run<B: Board, N: NamesView>(
        &mut self,
        image: &Image,
        input: &[u8],
        board: &mut B,
    ) -> Turn
        requires { MayGoOn (λ s. Asked B.view B.serves B.says B.forward B.moves N.after board.old self.old.number s) (data_of image.now.rodata input.now) self.old (entry_at self.old.machine.pc) }
        ensures { Goes (λ s a b. StepMade B.view B.serves B.says B.did N.after board.old self.old.number s a b) board.old (data_of image.now.rodata input.now) self.old (entry_at self.old.machine.pc) result self.new board.new }
    {
        match Entry::at(self.machine.pc()) {
            Some(entry) => self.serve::<B, N>(entry, board),
            None => self.instruction::<B, N>(image, input, board),
        }
    }
}
