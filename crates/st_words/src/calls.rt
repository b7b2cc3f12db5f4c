//! The steps of a board that a worker makes by the board's methods alone, as calls of their own: beside the method's arguments each takes what the view
//! after it is named by, so that a caller that is generic over its board can name the view by its own state. The caller gives `Brand` for
//! `NamesView`, and `&x` for `by` with whatever the view depends on; in its Invariants.antt it names the view:
//! `ghosts-NAME_by g a = record { after = ..; cargo = .. }`, where a has the arguments of the call.
ghost use Rattle.std.specs.Prelude.{◌≡◌, ◌≢◌, ℕ, IfErr};
ghost use Rattle.std.specs.Int.{from_bool};
ghost use Rattle.st_words.specs.declared.view.Cargo.{Cargo};
ghost use Rattle.st_words.specs.Steps.{CellLoad, CellStore, ActiveAdd, ActiveLoad, StopLoad, StopSet, RootTake, RequestLoad, RequestChange, MailLoad, MailStore, OutStore, SlotTake, SlotPut, OutLoad, Done, Number, Took, found_by};
ghost use Rattle.st_words.specs.Made.{Asked, StepMade};

use crate::board::{Board, NamesView};
use crate::view::{CellWord, Slot};
use st_base::chain::Chain;

/// `cell_load` of a board.
pub fn cell_load_by<B: Board, N: NamesView, T>(
    _by: &T,
    board: &mut B,
    w: u32,
    c: u32,
    word: CellWord,
) -> u64
    requires may { Asked B.view B.serves B.says B.forward B.moves N.after board.old w (CellLoad c word) }
    ensures made { StepMade B.view B.serves B.says B.did N.after board.old w (CellLoad c word) (Number result) board.new }
{
    board.cell_load::<N>(w, c, word)
}

/// `cell_store` of a board.
pub fn cell_store_by<B: Board, N: NamesView, T>(
    _by: &T,
    board: &mut B,
    w: u32,
    c: u32,
    word: CellWord,
    value: u64,
)
    requires may { Asked B.view B.serves B.says B.forward B.moves N.after board.old w (CellStore c word value) }
    ensures made { StepMade B.view B.serves B.says B.did N.after board.old w (CellStore c word value) (Done) board.new }
{
    board.cell_store::<N>(w, c, word, value)
}

/// `active_add` of a board.
pub fn active_add_by<B: Board, N: NamesView, T>(_by: &T, board: &mut B, w: u32, up: bool) -> u64
    requires may { Asked B.view B.serves B.says B.forward B.moves N.after board.old w (ActiveAdd up) }
    ensures made { StepMade B.view B.serves B.says B.did N.after board.old w (ActiveAdd up) (Number result) board.new }
{
    board.active_add::<N>(w, up)
}

/// `active_load` of a board.
pub fn active_load_by<B: Board, N: NamesView, T>(_by: &T, board: &mut B, w: u32) -> u64
    requires may { Asked B.view B.serves B.says B.forward B.moves N.after board.old w (ActiveLoad) }
    ensures made { StepMade B.view B.serves B.says B.did N.after board.old w (ActiveLoad) (Number result) board.new }
{
    board.active_load::<N>(w)
}

/// `stop_load` of a board.
pub fn stop_load_by<B: Board, N: NamesView, T>(_by: &T, board: &mut B, w: u32) -> u64
    requires may { Asked B.view B.serves B.says B.forward B.moves N.after board.old w (StopLoad) }
    ensures made { StepMade B.view B.serves B.says B.did N.after board.old w (StopLoad) (Number result) board.new }
{
    board.stop_load::<N>(w)
}

/// `stop_set` of a board.
pub fn stop_set_by<B: Board, N: NamesView, T>(
    _by: &T,
    board: &mut B,
    w: u32,
    code: u64,
) -> Result<(), u64>
    requires may { Asked B.view B.serves B.says B.forward B.moves N.after board.old w (StopSet code) }
    ensures made { StepMade B.view B.serves B.says B.did N.after board.old w (StopSet code) (Number (found_by 0 result)) board.new }
    ensures kept { IfErr result (λ found. found ≢ 0) }
{
    board.stop_set::<N>(w, code)
}

/// `root_take` of a board.
pub fn root_take_by<B: Board, N: NamesView, T>(_by: &T, board: &mut B, w: u32) -> bool
    requires may { Asked B.view B.serves B.says B.forward B.moves N.after board.old w (RootTake) }
    ensures made { StepMade B.view B.serves B.says B.did N.after board.old w (RootTake) (Number (from_bool result)) board.new }
{
    board.root_take::<N>(w)
}

/// `request_load` of a board.
pub fn request_load_by<B: Board, N: NamesView, T>(_by: &T, board: &mut B, w: u32, v: u32) -> u64
    requires may { Asked B.view B.serves B.says B.forward B.moves N.after board.old w (RequestLoad v) }
    ensures made { StepMade B.view B.serves B.says B.did N.after board.old w (RequestLoad v) (Number result) board.new }
{
    board.request_load::<N>(w, v)
}

/// `request_change` of a board.
pub fn request_change_by<B: Board, N: NamesView, T>(
    _by: &T,
    board: &mut B,
    w: u32,
    v: u32,
    old: u64,
    new: u64,
) -> Result<(), u64>
    requires may { Asked B.view B.serves B.says B.forward B.moves N.after board.old w (RequestChange v old new) }
    ensures made { StepMade B.view B.serves B.says B.did N.after board.old w (RequestChange v old new) (Number (found_by old result)) board.new }
    ensures kept { IfErr result (λ found. found ≢ old) }
{
    board.request_change::<N>(w, v, old, new)
}

/// `mail_load` of a board.
pub fn mail_load_by<B: Board, N: NamesView, T>(_by: &T, board: &mut B, w: u32) -> u64
    requires may { Asked B.view B.serves B.says B.forward B.moves N.after board.old w (MailLoad) }
    ensures made { StepMade B.view B.serves B.says B.did N.after board.old w (MailLoad) (Number result) board.new }
{
    board.mail_load::<N>(w)
}

/// `mail_store` of a board.
pub fn mail_store_by<B: Board, N: NamesView, T>(_by: &T, board: &mut B, w: u32, v: u32, value: u64)
    requires may { Asked B.view B.serves B.says B.forward B.moves N.after board.old w (MailStore v value) }
    ensures made { StepMade B.view B.serves B.says B.did N.after board.old w (MailStore v value) (Done) board.new }
{
    board.mail_store::<N>(w, v, value)
}

/// `out_store` of a board.
pub fn out_store_by<B: Board, N: NamesView, T>(_by: &T, board: &mut B, w: u32, i: u32, value: u64)
    requires may { Asked B.view B.serves B.says B.forward B.moves N.after board.old w (OutStore i value) }
    ensures made { StepMade B.view B.serves B.says B.did N.after board.old w (OutStore i value) (Done) board.new }
{
    board.out_store::<N>(w, i, value)
}

/// `slot_take` of a board.
pub fn slot_take_by<B: Board, N: NamesView, T>(
    _by: &T,
    board: &mut B,
    w: u32,
    slot: Slot,
) -> Option<Chain>
    requires may { Asked B.view B.serves B.says B.forward B.moves N.after board.old w (SlotTake slot) }
    ensures told { (cargo : Cargo) × StepMade B.view B.serves B.says B.did N.after board.old w (SlotTake slot) (Took result cargo) board.new }
{
    board.slot_take::<N>(w, slot)
}

/// `slot_put` of a board.
pub fn slot_put_by<B: Board, N: NamesView, T>(
    _by: &T,
    board: &mut B,
    w: u32,
    slot: Slot,
    chain: Chain,
)
    requires may { Asked B.view B.serves B.says B.forward B.moves N.after board.old w (SlotPut slot chain (N.cargo (B.view board.old w) slot chain)) }
    ensures made { StepMade B.view B.serves B.says B.did N.after board.old w (SlotPut slot chain (N.cargo (B.view board.old w) slot chain)) (Done) board.new }
{
    board.slot_put::<N>(w, slot, chain)
}

/// `out_load` of a board.
pub fn out_load_by<B: Board, N: NamesView, T>(_by: &T, board: &mut B, w: u32, i: u32) -> u64
    requires may { Asked B.view B.serves B.says B.forward B.moves N.after board.old w (OutLoad i) }
    ensures made { StepMade B.view B.serves B.says B.did N.after board.old w (OutLoad i) (Number result) board.new }
{
    board.out_load::<N>(w, i)
}
