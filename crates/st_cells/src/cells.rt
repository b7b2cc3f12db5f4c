//! The calls on cells. Each makes one step of the board, whose answer it reads.
ghost use Rattle.std.specs.Prelude.{◌≡◌, ◌<◌, ◌+◌, ℕ};
ghost use Rattle.st_words.specs.Encodings.{is_counter, full_word, count_in, head_in, counter_word, count_after};
ghost use Rattle.st_words.specs.Made.{Asked, StepMade};
ghost use Rattle.st_words.specs.Steps.{CellLoad, CellStore, CellChange, Draw, Done, Number};
ghost use Rattle.st_words.specs.declared.view.CellWord.TheVariants as words;
ghost use Rattle.st_cells.specs.Cells.{owner_word, FitsWord, counted_up, IsDrawn, IsLooked, IsCounted, IsTried};
ghost use Rattle.st_cells.specs.declared.found.Owner.{Owner};

use crate::encodings::{FULL, count_after, count_in, counter_word, head_in, owner_in, owner_word};
use crate::found::{Counted, Full, Looked, Owner};
use st_base::chain::Again;
use st_words::board::{Board, NamesView};
use st_words::view::CellWord;

/// A compare and exchange of a State word.
fn change<B: Board, N: NamesView>(
    board: &mut B,
    w: u32,
    cell: u32,
    seen: u64,
    new: u64,
) -> Result<(), Again>
    requires may { Asked B.view B.serves B.says B.forward B.moves N.after board.old w (CellChange cell seen new) }
    ensures made { (found : ℕ) × StepMade B.view B.serves B.says B.did N.after board.old w (CellChange cell seen new) (Number found) board.new × IsTried seen found (λ _. Prim.Unit) result }
{
    match board.cell_change::<N>(w, cell, seen, new) {
        Ok(()) => Ok(()),
        Err(now) => Err(Again { now }),
    }
}

/// Draws the next number of a cell.
///
/// Errors: `Full` exactly where the number found isn't below `cells`; the count of drawn numbers grows by 1 in each case.
pub fn draw<B: Board, N: NamesView>(board: &mut B, w: u32, cells: u32) -> Result<u32, Full>
    requires may { Asked B.view B.serves B.says B.forward B.moves N.after board.old w (Draw) }
    ensures made { (found : ℕ) × StepMade B.view B.serves B.says B.did N.after board.old w (Draw) (Number found) board.new × IsDrawn cells found result }
{
    let found = board.draw::<N>(w);
    if found < u64::from(cells) {
        Ok(found as u32)
    } else {
        Err(Full { cells })
    }
}

/// Names a cell that this worker has drawn and not named yet.
pub fn set_owner<B: Board, N: NamesView>(board: &mut B, w: u32, cell: u32, owner: Owner)
    requires may { Asked B.view B.serves B.says B.forward B.moves N.after board.old w (CellStore cell words.Owner (owner_word owner)) }
    ensures made { StepMade B.view B.serves B.says B.did N.after board.old w (CellStore cell words.Owner (owner_word owner)) Done board.new }
{
    board.cell_store::<N>(w, cell, CellWord::Owner, owner_word(owner));
}

/// The owner of a cell that is named.
pub fn owner<B: Board, N: NamesView>(board: &mut B, w: u32, cell: u32) -> Owner
    requires may { Asked B.view B.serves B.says B.forward B.moves N.after board.old w (CellLoad cell words.Owner) }
    ensures made { (found : ℕ) × StepMade B.view B.serves B.says B.did N.after board.old w (CellLoad cell words.Owner) (Number found) board.new × ((owner : Owner) → FitsWord owner → found ≡ owner_word owner → result ≡ owner) × (result.counter ≡ is_counter found) }
{
    owner_in(board.cell_load::<N>(w, cell, CellWord::Owner))
}

/// Looks whether a future is full.
pub fn look<B: Board, N: NamesView>(board: &mut B, w: u32, cell: u32) -> Looked
    requires may { Asked B.view B.serves B.says B.forward B.moves N.after board.old w (CellLoad cell words.State) }
    ensures made { (found : ℕ) × StepMade B.view B.serves B.says B.did N.after board.old w (CellLoad cell words.State) (Number found) board.new × IsLooked found result }
{
    let seen = board.cell_load::<N>(w, cell, CellWord::State);
    if seen == FULL {
        Looked::Full
    } else {
        Looked::Empty { seen }
    }
}

/// The value of a future that this worker has seen full.
pub fn value<B: Board, N: NamesView>(board: &mut B, w: u32, cell: u32) -> u64
    requires may { Asked B.view B.serves B.says B.forward B.moves N.after board.old w (CellLoad cell words.Value) }
    ensures made { StepMade B.view B.serves B.says B.did N.after board.old w (CellLoad cell words.Value) (Number result) board.new }
{
    board.cell_load::<N>(w, cell, CellWord::Value)
}

/// Links a waiter before it is parked: its Next becomes the head in the State word that was seen.
pub fn set_next<B: Board, N: NamesView>(board: &mut B, w: u32, waiter: u32, seen: u64)
    requires may { Asked B.view B.serves B.says B.forward B.moves N.after board.old w (CellStore waiter words.Next (head_in seen)) }
    ensures made { StepMade B.view B.serves B.says B.did N.after board.old w (CellStore waiter words.Next (head_in seen)) Done board.new }
{
    board.cell_store::<N>(w, waiter, CellWord::Next, head_in(seen));
}

/// Puts a linked waiter at the head of a future's list, where its State word is `seen`.
///
/// Errors: `Again` exactly where it is another word, which it carries; nothing has changed then.
pub fn park<B: Board, N: NamesView>(
    board: &mut B,
    w: u32,
    cell: u32,
    waiter: u32,
    seen: u64,
) -> Result<(), Again>
    requires may { Asked B.view B.serves B.says B.forward B.moves N.after board.old w (CellChange cell seen (waiter + 1)) }
    ensures made { (found : ℕ) × StepMade B.view B.serves B.says B.did N.after board.old w (CellChange cell seen (waiter + 1)) (Number found) board.new × IsTried seen found (λ _. Prim.Unit) result }
{
    change::<B, N>(board, w, cell, seen, u64::from(waiter) + 1)
}

/// Stores the value of a future whose thread this worker holds.
pub fn set_value<B: Board, N: NamesView>(board: &mut B, w: u32, cell: u32, v: u64)
    requires may { Asked B.view B.serves B.says B.forward B.moves N.after board.old w (CellStore cell words.Value v) }
    ensures made { StepMade B.view B.serves B.says B.did N.after board.old w (CellStore cell words.Value v) Done board.new }
{
    board.cell_store::<N>(w, cell, CellWord::Value, v);
}

/// Makes a future full, where its State word is `seen`, and answers the head of its waiters: a waiter's number and 1, or 0.
///
/// Errors: `Again` exactly where it is another word, which it carries; nothing has changed then.
pub fn fill<B: Board, N: NamesView>(
    board: &mut B,
    w: u32,
    cell: u32,
    seen: u64,
) -> Result<u64, Again>
    requires may { Asked B.view B.serves B.says B.forward B.moves N.after board.old w (CellChange cell seen full_word) }
    ensures made { (found : ℕ) × StepMade B.view B.serves B.says B.did N.after board.old w (CellChange cell seen full_word) (Number found) board.new × IsTried seen found (λ head. head ≡ seen) result }
{
    change::<B, N>(board, w, cell, seen, FULL)?;
    Ok(seen)
}

/// Reads a counter.
pub fn count<B: Board, N: NamesView>(board: &mut B, w: u32, cell: u32) -> Counted
    requires may { Asked B.view B.serves B.says B.forward B.moves N.after board.old w (CellLoad cell words.State) }
    ensures made { (found : ℕ) × StepMade B.view B.serves B.says B.did N.after board.old w (CellLoad cell words.State) (Number found) board.new × IsCounted found result }
{
    let seen = board.cell_load::<N>(w, cell, CellWord::State);
    Counted {
        count: count_in(seen),
        head: head_in(seen),
        seen,
    }
}

/// The State word that `done` leaves where it found `seen`: the count is one greater, or stands still at 2^47 - 1, and nobody waits.
pub fn counted_up(seen: u64) -> u64
    ensures word { result ≡ counted_up seen }
    ensures count { count_in result ≡ count_after (count_in seen) }
    ensures head { head_in result ≡ 0 }
{
    counter_word(count_after(count_in(seen)), 0)
}

/// Adds 1 to a counter, whose count stands still at 2^47 - 1, where its State word is `seen`, and answers the head of its waiters, which
/// are handed out: a waiter's number and 1, or 0.
///
/// Errors: `Again` exactly where it is another word, which it carries; nothing has changed then.
pub fn done<B: Board, N: NamesView>(
    board: &mut B,
    w: u32,
    cell: u32,
    seen: u64,
) -> Result<u64, Again>
    requires may { Asked B.view B.serves B.says B.forward B.moves N.after board.old w (CellChange cell seen (counted_up seen)) }
    ensures made { (found : ℕ) × StepMade B.view B.serves B.says B.did N.after board.old w (CellChange cell seen (counted_up seen)) (Number found) board.new × IsTried seen found (λ head. head ≡ head_in seen) result }
{
    change::<B, N>(board, w, cell, seen, counted_up(seen))?;
    Ok(head_in(seen))
}

/// Puts a linked waiter at the head of a counter's list, where its State word is `seen`, whose count is below `least`.
///
/// Errors: `Again` exactly where it is another word, which it carries; nothing has changed then.
pub fn park_join<B: Board, N: NamesView>(
    board: &mut B,
    w: u32,
    cell: u32,
    waiter: u32,
    least: u64,
    seen: u64,
) -> Result<(), Again>
    requires waiter { waiter < 65536 }
    requires below { count_in seen < least }
    requires may { Asked B.view B.serves B.says B.forward B.moves N.after board.old w (CellChange cell seen (counter_word (count_in seen) (waiter + 1))) }
    ensures made { (found : ℕ) × StepMade B.view B.serves B.says B.did N.after board.old w (CellChange cell seen (counter_word (count_in seen) (waiter + 1))) (Number found) board.new × IsTried seen found (λ _. Prim.Unit) result }
{
    let new = counter_word(count_in(seen), u64::from(waiter) + 1);
    change::<B, N>(board, w, cell, seen, new)
}

/// The next waiter's number and 1, or 0 behind the last.
pub fn next<B: Board, N: NamesView>(board: &mut B, w: u32, waiter: u32) -> u64
    requires may { Asked B.view B.serves B.says B.forward B.moves N.after board.old w (CellLoad waiter words.Next) }
    ensures made { StepMade B.view B.serves B.says B.did N.after board.old w (CellLoad waiter words.Next) (Number result) board.new }
{
    board.cell_load::<N>(w, waiter, CellWord::Next)
}
