//! The board: the words and slots that workers share, one atomic step a method. Its meaning is one view for each worker that it serves,
//! which tells what that worker holds and has seen. The caller of a step names, in the contract alone, the view after it for each answer.
ghost use Rattle.std.specs.Prelude.{◌≢◌, ℕ, IfErr};
ghost use Rattle.std.specs.Int.{from_bool};
ghost use Rattle.st_base.specs.declared.chain.Chain.{Chain};
ghost use Rattle.st_words.specs.declared.view.View.{View};
ghost use Rattle.st_words.specs.declared.view.Cargo.{Cargo};
ghost use Rattle.st_words.specs.declared.view.Slot.{Slot};
ghost use Rattle.st_words.specs.Steps.{Step, StackLoad, StackStore, Mark, Look, CellLoad, CellStore, CellChange, Draw, ActiveAdd, ActiveLoad, StopLoad, StopSet, RootTake, RequestLoad, RequestChange, MailLoad, MailStore, OutStore, SlotTake, SlotPut, OutLoad, Answer, Done, Number, Looked, Took, Can, IsEndLoad, found_by};
ghost use Rattle.st_words.specs.Made.{Asked, StepMade};
ghost use Rattle.st_words.specs.Views.{no_cargo, view_after};

use crate::view::{CellWord, Slot};
use st_base::chain::Chain;
use std::marker::Brand;

/// What the caller of a step names for contracts alone: the view after it for each answer, and what goes with a chain that is put.
pub trait NamesView {
    ghost after: { View → Step → Answer → View };

    ghost cargo: { View → Slot → Chain → Cargo };
}

impl NamesView for Brand {
    ghost after = { λ v _ _. v };

    ghost cargo = { λ _ _ _. no_cargo };
}

/// Words and slots that workers share. Each method is one atomic step of the worker `w`: it takes no memory, and it is never refused
/// except as its entry says. After a refusal of a compare and exchange, which carries the word that was found, nothing has changed.
///
/// - `view`: what a worker holds and has seen; `serves`: for which workers the board makes steps.
/// - `forward`: what the worker may have done by itself since its last step; it is told of the view before the step.
/// - `moves`: which view after the step its caller may name, for an answer.
/// - `says`: what a step may answer in this state of the board. `did`: what it leaves of the board beside the views.
/// - `rests`: a worker need have done nothing before a step. `loads`: a load of the end of a run changes a view by what it read alone.
pub trait Board {
    ghost view: { Self → ℕ → View };

    ghost serves: { Self → ℕ → Type 0 };

    ghost forward: { Self → View → View → Type 0 };

    ghost moves: { Self → View → Step → Answer → View → Type 0 };

    ghost says: { Self → ℕ → Step → Answer → Type 0 };

    ghost did: { Self → ℕ → Step → Answer → Self → Type 0 };

    ghost rests: { (b : Self) (w : ℕ) → serves b w → forward b (view b w) (view b w) };

    ghost loads: { (b : Self) (w : ℕ) (s : Step) (a : Answer) → serves b w → IsEndLoad s → Can (view b w) s → says b w s a → moves b (view b w) s a (view_after (view b w) s a) };

    /// Loads a stack word that the worker's view holds: of its own stack or of a frame that it holds. `place` counts words from 0x8000_0000.
    fn stack_load<N: NamesView>(&mut self, w: u32, place: u32) -> u64
        requires may { Asked view serves says forward moves N.after self.old w (StackLoad place) }
        ensures made { StepMade view serves says did N.after self.old w (StackLoad place) (Number result) self.new };

    /// Stores to a stack word that the worker's view holds.
    fn stack_store<N: NamesView>(&mut self, w: u32, place: u32, value: u64)
        requires may { Asked view serves says forward moves N.after self.old w (StackStore place value) }
        ensures made { StepMade view serves says did N.after self.old w (StackStore place value) (Done) self.new };

    /// Stores 0 to the return word of a frame that the worker holds. Where the frame is leased it is given up.
    fn mark<N: NamesView>(&mut self, w: u32, place: u32)
        requires may { Asked view serves says forward moves N.after self.old w (Mark place) }
        ensures made { StepMade view serves says did N.after self.old w (Mark place) (Done) self.new };

    /// Loads the return word of an exported frame of the worker's stack. Where it is 0, the frame is the worker's again and no longer exported.
    fn look<N: NamesView>(&mut self, w: u32, place: u32) -> u64
        requires may { Asked view serves says forward moves N.after self.old w (Look place) }
        ensures told { (cargo : Cargo) × StepMade view serves says did N.after self.old w (Look place) (Looked result cargo) self.new };

    /// Loads a word of a cell.
    fn cell_load<N: NamesView>(&mut self, w: u32, c: u32, word: CellWord) -> u64
        requires may { Asked view serves says forward moves N.after self.old w (CellLoad c word) }
        ensures made { StepMade view serves says did N.after self.old w (CellLoad c word) (Number result) self.new };

    /// Stores to a word of a cell but State, by the worker that alone may change it.
    fn cell_store<N: NamesView>(&mut self, w: u32, c: u32, word: CellWord, value: u64)
        requires may { Asked view serves says forward moves N.after self.old w (CellStore c word value) }
        ensures made { StepMade view serves says did N.after self.old w (CellStore c word value) (Done) self.new };

    /// Compares the State word of a cell with `old`, and stores `new` where it is equal. It parks a waiter, fills a future or adds to a counter.
    fn cell_change<N: NamesView>(&mut self, w: u32, c: u32, old: u64, new: u64) -> Result<(), u64>
        requires may { Asked view serves says forward moves N.after self.old w (CellChange c old new) }
        ensures made { StepMade view serves says did N.after self.old w (CellChange c old new) (Number (found_by old result)) self.new }
        ensures kept { IfErr result (λ found. found ≢ old) };

    /// Adds 1 to the number of cells drawn, and answers the old number.
    fn draw<N: NamesView>(&mut self, w: u32) -> u64
        requires may { Asked view serves says forward moves N.after self.old w (Draw) }
        ensures made { StepMade view serves says did N.after self.old w (Draw) (Number result) self.new };

    /// Adds 1 to the active count, or takes 1 away, and answers the old number.
    fn active_add<N: NamesView>(&mut self, w: u32, up: bool) -> u64
        requires may { Asked view serves says forward moves N.after self.old w (ActiveAdd up) }
        ensures made { StepMade view serves says did N.after self.old w (ActiveAdd up) (Number result) self.new };

    /// Loads the active count.
    fn active_load<N: NamesView>(&mut self, w: u32) -> u64
        requires may { Asked view serves says forward moves N.after self.old w (ActiveLoad) }
        ensures made { StepMade view serves says did N.after self.old w (ActiveLoad) (Number result) self.new };

    /// Loads the stop code: 0 where no limit was met.
    fn stop_load<N: NamesView>(&mut self, w: u32) -> u64
        requires may { Asked view serves says forward moves N.after self.old w (StopLoad) }
        ensures made { StepMade view serves says did N.after self.old w (StopLoad) (Number result) self.new };

    /// Stores a stop code where the stop word is 0.
    fn stop_set<N: NamesView>(&mut self, w: u32, code: u64) -> Result<(), u64>
        requires may { Asked view serves says forward moves N.after self.old w (StopSet code) }
        ensures made { StepMade view serves says did N.after self.old w (StopSet code) (Number (found_by 0 result)) self.new }
        ensures kept { IfErr result (λ found. found ≢ 0) };

    /// Exchanges the Root word with 0; true where it was 1, and then the worker alone may take the root's chain.
    fn root_take<N: NamesView>(&mut self, w: u32) -> bool
        requires may { Asked view serves says forward moves N.after self.old w (RootTake) }
        ensures made { StepMade view serves says did N.after self.old w (RootTake) (Number (from_bool result)) self.new };

    /// Loads the request word of the worker v.
    fn request_load<N: NamesView>(&mut self, w: u32, v: u32) -> u64
        requires may { Asked view serves says forward moves N.after self.old w (RequestLoad v) }
        ensures made { StepMade view serves says did N.after self.old w (RequestLoad v) (Number result) self.new };

    /// Compares the request word of the worker v with `old`, and stores `new` where it is equal: it asks, begins an answer, ends it or withdraws.
    fn request_change<N: NamesView>(
        &mut self,
        w: u32,
        v: u32,
        old: u64,
        new: u64,
    ) -> Result<(), u64>
        requires may { Asked view serves says forward moves N.after self.old w (RequestChange v old new) }
        ensures made { StepMade view serves says did N.after self.old w (RequestChange v old new) (Number (found_by old result)) self.new }
        ensures kept { IfErr result (λ found. found ≢ old) };

    /// Loads the worker's own mail word.
    fn mail_load<N: NamesView>(&mut self, w: u32) -> u64
        requires may { Asked view serves says forward moves N.after self.old w (MailLoad) }
        ensures made { StepMade view serves says did N.after self.old w (MailLoad) (Number result) self.new };

    /// Stores to the mail word of the worker v, by the worker that answers it, or by v itself.
    fn mail_store<N: NamesView>(&mut self, w: u32, v: u32, value: u64)
        requires may { Asked view serves says forward moves N.after self.old w (MailStore v value) }
        ensures made { StepMade view serves says did N.after self.old w (MailStore v value) (Done) self.new };

    /// Stores the i-th byte of the output, by the holder of the root.
    fn out_store<N: NamesView>(&mut self, w: u32, i: u32, value: u64)
        requires may { Asked view serves says forward moves N.after self.old w (OutStore i value) }
        ensures made { StepMade view serves says did N.after self.old w (OutStore i value) (Done) self.new };

    /// Takes the chain out of a slot that the worker alone may use; `None` where the slot is empty.
    fn slot_take<N: NamesView>(&mut self, w: u32, slot: Slot) -> Option<Chain>
        requires may { Asked view serves says forward moves N.after self.old w (SlotTake slot) }
        ensures told { (cargo : Cargo) × StepMade view serves says did N.after self.old w (SlotTake slot) (Took result cargo) self.new };

    /// Puts a chain into an empty slot that the worker alone may fill.
    fn slot_put<N: NamesView>(&mut self, w: u32, slot: Slot, chain: Chain)
        requires may { Asked view serves says forward moves N.after self.old w (SlotPut slot chain (N.cargo (view self.old w) slot chain)) }
        ensures made { StepMade view serves says did N.after self.old w (SlotPut slot chain (N.cargo (view self.old w) slot chain)) (Done) self.new };

    /// Loads the word of the i-th byte of the output.
    fn out_load<N: NamesView>(&mut self, w: u32, i: u32) -> u64
        requires may { Asked view serves says forward moves N.after self.old w (OutLoad i) }
        ensures made { StepMade view serves says did N.after self.old w (OutLoad i) (Number result) self.new };
}
