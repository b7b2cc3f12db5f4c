//! The calls on cells as calls of a worker: beside its arguments each takes what the view after it is named by, so that a caller can name the
//! view by its own state, at a call through a bound.
ghost use Rattle.std.specs.Prelude.{◌≡◌, ◌<◌, ◌+◌, ℕ};
ghost use Rattle.st_words.specs.Encodings.{is_counter, full_word, count_in, head_in, counter_word, count_after};
ghost use Rattle.st_words.specs.Made.{Asked, StepMade};
ghost use Rattle.st_words.specs.Steps.{CellLoad, CellStore, CellChange, Draw, Done, Number};
ghost use Rattle.st_words.specs.declared.view.CellWord.TheVariants as words;
ghost use Rattle.st_cells.specs.declared.found.Owner.{Owner};
ghost use Rattle.st_cells.specs.Cells.{owner_word, FitsWord, counted_up, IsDrawn, IsLooked, IsCounted, IsTried};

use crate::cells;
use crate::found::{Counted, Full, Looked, Owner};
use st_base::chain::Again;
use st_words::board::{Board, NamesView};

/// `draw` of a cell.
pub fn draw_by<B: Board, N: NamesView, T>(
    _by: &T,
    board: &mut B,
    w: u32,
    cells: u32,
) -> Result<u32, Full>
    requires may { Asked B.view B.serves B.says B.forward B.moves N.after board.old w (Draw) }
    ensures made { (found : ℕ) × StepMade B.view B.serves B.says B.did N.after board.old w (Draw) (Number found) board.new × IsDrawn cells found result }
{
    cells::draw::<B, N>(board, w, cells)
}

/// `set_owner` of a cell.
pub fn set_owner_by<B: Board, N: NamesView, T>(
    _by: &T,
    board: &mut B,
    w: u32,
    cell: u32,
    owner: Owner,
)
    requires may { Asked B.view B.serves B.says B.forward B.moves N.after board.old w (CellStore cell words.Owner (owner_word owner)) }
    ensures made { StepMade B.view B.serves B.says B.did N.after board.old w (CellStore cell words.Owner (owner_word owner)) Done board.new }
{
    cells::set_owner::<B, N>(board, w, cell, owner);
}

/// `owner` of a cell.
pub fn owner_by<B: Board, N: NamesView, T>(_by: &T, board: &mut B, w: u32, cell: u32) -> Owner
    requires may { Asked B.view B.serves B.says B.forward B.moves N.after board.old w (CellLoad cell words.Owner) }
    ensures made { (found : ℕ) × StepMade B.view B.serves B.says B.did N.after board.old w (CellLoad cell words.Owner) (Number found) board.new × ((owner : Owner) → FitsWord owner → found ≡ owner_word owner → result ≡ owner) × (result.counter ≡ is_counter found) }
{
    cells::owner::<B, N>(board, w, cell)
}

/// `look` of a cell.
pub fn look_by<B: Board, N: NamesView, T>(_by: &T, board: &mut B, w: u32, cell: u32) -> Looked
    requires may { Asked B.view B.serves B.says B.forward B.moves N.after board.old w (CellLoad cell words.State) }
    ensures made { (found : ℕ) × StepMade B.view B.serves B.says B.did N.after board.old w (CellLoad cell words.State) (Number found) board.new × IsLooked found result }
{
    cells::look::<B, N>(board, w, cell)
}

/// `value` of a cell.
pub fn value_by<B: Board, N: NamesView, T>(_by: &T, board: &mut B, w: u32, cell: u32) -> u64
    requires may { Asked B.view B.serves B.says B.forward B.moves N.after board.old w (CellLoad cell words.Value) }
    ensures made { StepMade B.view B.serves B.says B.did N.after board.old w (CellLoad cell words.Value) (Number result) board.new }
{
    cells::value::<B, N>(board, w, cell)
}

/// `set_next` of a cell.
pub fn set_next_by<B: Board, N: NamesView, T>(
    _by: &T,
    board: &mut B,
    w: u32,
    waiter: u32,
    seen: u64,
)
    requires may { Asked B.view B.serves B.says B.forward B.moves N.after board.old w (CellStore waiter words.Next (head_in seen)) }
    ensures made { StepMade B.view B.serves B.says B.did N.after board.old w (CellStore waiter words.Next (head_in seen)) Done board.new }
{
    cells::set_next::<B, N>(board, w, waiter, seen);
}

/// `park` of a cell.
pub fn park_by<B: Board, N: NamesView, T>(
    _by: &T,
    board: &mut B,
    w: u32,
    cell: u32,
    waiter: u32,
    seen: u64,
) -> Result<(), Again>
    requires may { Asked B.view B.serves B.says B.forward B.moves N.after board.old w (CellChange cell seen (waiter + 1)) }
    ensures made { (found : ℕ) × StepMade B.view B.serves B.says B.did N.after board.old w (CellChange cell seen (waiter + 1)) (Number found) board.new × IsTried seen found (λ _. Prim.Unit) result }
{
    cells::park::<B, N>(board, w, cell, waiter, seen)
}

/// `set_value` of a cell.
pub fn set_value_by<B: Board, N: NamesView, T>(_by: &T, board: &mut B, w: u32, cell: u32, v: u64)
    requires may { Asked B.view B.serves B.says B.forward B.moves N.after board.old w (CellStore cell words.Value v) }
    ensures made { StepMade B.view B.serves B.says B.did N.after board.old w (CellStore cell words.Value v) Done board.new }
{
    cells::set_value::<B, N>(board, w, cell, v);
}

/// `fill` of a cell.
pub fn fill_by<B: Board, N: NamesView, T>(
    _by: &T,
    board: &mut B,
    w: u32,
    cell: u32,
    seen: u64,
) -> Result<u64, Again>
    requires may { Asked B.view B.serves B.says B.forward B.moves N.after board.old w (CellChange cell seen full_word) }
    ensures made { (found : ℕ) × StepMade B.view B.serves B.says B.did N.after board.old w (CellChange cell seen full_word) (Number found) board.new × IsTried seen found (λ head. head ≡ seen) result }
{
    cells::fill::<B, N>(board, w, cell, seen)
}

/// `count` of a cell.
pub fn count_by<B: Board, N: NamesView, T>(_by: &T, board: &mut B, w: u32, cell: u32) -> Counted
    requires may { Asked B.view B.serves B.says B.forward B.moves N.after board.old w (CellLoad cell words.State) }
    ensures made { (found : ℕ) × StepMade B.view B.serves B.says B.did N.after board.old w (CellLoad cell words.State) (Number found) board.new × IsCounted found result }
{
    cells::count::<B, N>(board, w, cell)
}

/// `done` of a cell.
pub fn done_by<B: Board, N: NamesView, T>(
    _by: &T,
    board: &mut B,
    w: u32,
    cell: u32,
    seen: u64,
) -> Result<u64, Again>
    requires may { Asked B.view B.serves B.says B.forward B.moves N.after board.old w (CellChange cell seen (counted_up seen)) }
    ensures made { (found : ℕ) × StepMade B.view B.serves B.says B.did N.after board.old w (CellChange cell seen (counted_up seen)) (Number found) board.new × IsTried seen found (λ head. head ≡ head_in seen) result }
{
    cells::done::<B, N>(board, w, cell, seen)
}

/// `park_join` of a cell.
pub fn park_join_by<B: Board, N: NamesView, T>(
    _by: &T,
    board: &mut B,
    w: u32,
    cell: u32,
    waiter: u32,
    least: u64,
    seen: u64,
) -> Result<(), Again>
    requires waiter { waiter < 65536 }
    requires below { count_in seen < least }
    requires may { Asked B.view B.serves B.says B.forward B.moves N.after board.old w (CellChange cell seen (counter_word (count_in seen) (waiter + 1))) }
    ensures made { (found : ℕ) × StepMade B.view B.serves B.says B.did N.after board.old w (CellChange cell seen (counter_word (count_in seen) (waiter + 1))) (Number found) board.new × IsTried seen found (λ _. Prim.Unit) result }
{
    cells::park_join::<B, N>(board, w, cell, waiter, least, seen)
}

/// `next` of a cell.
pub fn next_by<B: Board, N: NamesView, T>(_by: &T, board: &mut B, w: u32, waiter: u32) -> u64
    requires may { Asked B.view B.serves B.says B.forward B.moves N.after board.old w (CellLoad waiter words.Next) }
    ensures made { StepMade B.view B.serves B.says B.did N.after board.old w (CellLoad waiter words.Next) (Number result) board.new }
{
    cells::next::<B, N>(board, w, waiter)
}
