//! The calls on cells over a board of 16 cells and two workers, with words worked out by hand.
ghost use Rattle.std.specs.Prelude.{◌≡◌, true, ◌⊎◌, ◌<◌, ◌∷◌, [], length, IfOk};
ghost use Rattle.st_words.specs.Laws.{named, progress_of};
ghost use Rattle.st_words.specs.Plain.{view_at, first_view};
ghost use Rattle.st_words.specs.Views.{no_cargo};
ghost use Rattle.st_words.specs.Steps.{IsCounter};
ghost use Rattle.st_base.specs.declared.chain.Waiting.TheVariants.{Touch, Join};
ghost use Rattle.st_cells.specs.Trying.{holding};

use crate::cells::{
    count, counted_up, done, draw, fill, look, next, owner, park, park_join, set_next, set_owner,
    set_value, value,
};
use crate::encodings::{head_in, owner_in, owner_word};
use crate::found::{Counted, Full, Looked, Owner};
use st_base::chain::{Again, Chain, Note, Waiting};
use st_base::limits::Limits;
use st_words::board::{Board, NamesView};
use st_words::plain::PlainBoard;
use st_words::view::Slot;
use std::alloc::{AllocError, Global};
use std::marker::Brand;
use std::test::Fail;

/// Names the view after a step of a worker that has come to hold the thread of cell 1, and the chains of cells 2 and 3 in its turn.
struct Holding;

impl NamesView for Holding {
    ghost after = { λ v s a. named (progress_of (holding v)) (holding v) s a };

    ghost cargo = { λ _ _ _. no_cargo };
}

fn limits() -> Limits
    ensures { result.cells ≡ 16 }
{
    Limits {
        stack: 1024,
        cells: 16,
        steps: 1,
    }
}

/// A board of two workers with 16 cells.
fn opened(alloc: Global, limits: &Limits) -> Result<PlainBoard, AllocError>
    ensures serves { IfOk result (λ board. 0 < length board.kept.views) }
    ensures view { IfOk result (λ board. view_at board.kept.views 0 ≡ first_view limits.now 2 0) }
{
    PlainBoard::open::<Brand>(alloc, limits, 2)
}

/// The chain of a thread that waits for the future in cell 1.
fn waiting(cell: u32) -> Chain
    ensures { (result.cell ≡ cell) × (result.wait ≡ Touch 1) }
{
    Chain {
        cell,
        pc: 0x1_0000,
        fp: 0x8000_0400,
        saved: [0; 11],
        note: Note {
            cell,
            forks: 0,
            counters: 0,
            bytes: 0,
        },
        wait: Waiting::Touch { cell: 1 },
    }
}

fn first_counter() -> Owner
    ensures { result ≡ record { counter = true; parent = 0; number = 0 } }
{
    Owner {
        counter: true,
        parent: 0,
        number: 0,
    }
}

/// A board of two workers with 16 cells, on which the first worker makes its steps.
#[derive(Drop)]
struct Held {
    board: PlainBoard,
    ghost serves: { 0 < length board.kept.views },
    ghost cells: { (view_at board.kept.views 0).cells ≡ 16 },
}

impl Held {
    /// Opens a board, and stores the value of the future in cell 1.
    fn open(alloc: Global, v: u64) -> Result<Held, AllocError>
        ensures { IfOk result (λ held. (view_at held.board.kept.views 0).hand ≡ []) }
    {
        let limits = limits();
        let mut board = opened(alloc, &limits)?;
        set_value::<PlainBoard, Holding>(&mut board, 0, 1, v);
        Ok(Held { board })
    }

    fn draw(&mut self) -> Result<u32, Full> {
        draw::<PlainBoard, Holding>(&mut self.board, 0, 16)
    }

    /// Draws a cell, and names it as the first counter of the root.
    fn counter(&mut self) -> Result<u32, Full>
        requires { (view_at self.old.board.kept.views 0).hand ≡ [] }
        ensures counter { IfOk result (λ cell. (cell < 16) × IsCounter (view_at self.new.board.kept.views 0) cell) }
        ensures hand { IfOk result (λ cell. (view_at self.new.board.kept.views 0).hand ≡ []) }
    {
        let cell = draw::<PlainBoard, Holding>(&mut self.board, 0, 16)?;
        set_owner::<PlainBoard, Holding>(&mut self.board, 0, cell, first_counter());
        Ok(cell)
    }

    fn owner(&mut self, cell: u32) -> Owner
        requires { cell < 16 }
    {
        owner::<PlainBoard, Holding>(&mut self.board, 0, cell)
    }

    fn count(&mut self, cell: u32) -> Counted
        requires { cell < 16 }
    {
        count::<PlainBoard, Holding>(&mut self.board, 0, cell)
    }

    fn done(&mut self, cell: u32, seen: u64) -> Result<u64, Again>
        requires within { cell < 16 }
        requires counter { IsCounter (view_at self.old.board.kept.views 0) cell }
    {
        done::<PlainBoard, Holding>(&mut self.board, 0, cell, seen)
    }

    /// Puts the chain of cell 2 into its slot, and its number into the list of a counter that is to reach 3.
    fn join(&mut self, cell: u32) -> Result<(), Again>
        requires within { cell < 16 }
        requires counter { IsCounter (view_at self.old.board.kept.views 0) cell }
        requires hand { (view_at self.old.board.kept.views 0).hand ≡ [] }
    {
        self.board
            .slot_put::<Holding>(0, Slot::Cell(2), joining(cell));
        set_next::<PlainBoard, Holding>(&mut self.board, 0, 2, 0);
        park_join::<PlainBoard, Holding>(&mut self.board, 0, cell, 2, 3, 0)
    }

    fn look(&mut self) -> Looked {
        look::<PlainBoard, Holding>(&mut self.board, 0, 1)
    }

    fn value(&mut self) -> u64 {
        value::<PlainBoard, Holding>(&mut self.board, 0, 1)
    }

    fn next(&mut self, waiter: u32) -> u64
        requires { waiter < 16 }
    {
        next::<PlainBoard, Holding>(&mut self.board, 0, waiter)
    }

    /// Puts the chain of cell 2 or 3 into its slot, and its number into the list of cell 1 where that was empty.
    fn wait(&mut self, waiter: u32) -> Result<(), Again>
        requires { (waiter ≡ 2) ⊎ (waiter ≡ 3) }
    {
        self.board
            .slot_put::<Holding>(0, Slot::Cell(waiter), waiting(waiter));
        set_next::<PlainBoard, Holding>(&mut self.board, 0, waiter, 0);
        park::<PlainBoard, Holding>(&mut self.board, 0, 1, waiter, 0)
    }

    fn fill(&mut self, seen: u64) -> Result<u64, Again>
        requires { seen < 16 }
    {
        fill::<PlainBoard, Holding>(&mut self.board, 0, 1, seen)
    }
}

impl Held {
    /// The future is empty, waiter 2 is parked, and waiter 3 finds it there.
    fn is_parked_once(&mut self) -> bool {
        let is_empty = self.look() == Looked::Empty { seen: 0 };
        let is_parked = self.wait(2) == Ok(());
        let is_refused = self.wait(3) == Err(Again { now: 3 });
        is_empty & is_parked & is_refused
    }

    /// The future is made full, and not again; waiter 2 is handed out.
    fn is_filled_once(&mut self) -> bool {
        let is_filled = self.fill(3) == Ok(3);
        let is_filled_once = self.fill(3) == Err(Again { now: 1 << 32 });
        let is_full = self.look() == Looked::Full;
        let has_value = self.value() == 7;
        let is_last = self.next(2) == 0;
        is_filled & is_filled_once & is_full & has_value & is_last
    }

    /// The counter is counted up from 0 to 1.
    fn is_counted(&mut self, cell: u32) -> bool
        requires within { cell < 16 }
        requires counter { IsCounter (view_at self.old.board.kept.views 0) cell }
    {
        let is_done = self.done(cell, 0) == Ok(0);
        let counted = Counted {
            count: 1,
            head: 0,
            seen: 131_072,
        };
        let is_counted = self.count(cell) == counted;
        let is_named = self.owner(cell) == first_counter();
        is_done & is_counted & is_named
    }

    /// A thread waits at the counter.
    fn is_joined(&mut self, cell: u32) -> bool
        requires within { cell < 16 }
        requires counter { IsCounter (view_at self.old.board.kept.views 0) cell }
        requires hand { (view_at self.old.board.kept.views 0).hand ≡ [] }
    {
        let is_parked = self.join(cell) == Ok(());
        let joined = Counted {
            count: 0,
            head: 3,
            seen: 3,
        };
        let is_joined = self.count(cell) == joined;
        is_parked & is_joined
    }

    /// Each number below 16 is drawn in its turn, and then none is left.
    fn draws_all(&mut self) -> bool {
        let mut is_each = true;
        for number in 1..16 {
            is_each &= self.draw() == Ok(number);
        }
        is_each & (self.draw() == Err(Full { cells: 16 }))
    }

    fn waits(&mut self) -> bool {
        let is_parked = self.is_parked_once();
        let is_filled = self.is_filled_once();
        is_parked & is_filled
    }

    fn counts(&mut self) -> bool
        requires { (view_at self.old.board.kept.views 0).hand ≡ [] }
    {
        match self.counter() {
            Ok(cell) => self.is_counted(cell),
            Err(_) => false,
        }
    }

    fn joins(&mut self) -> bool
        requires { (view_at self.old.board.kept.views 0).hand ≡ [] }
    {
        match self.counter() {
            Ok(cell) => self.is_joined(cell),
            Err(_) => false,
        }
    }

    fn play(&mut self, scene: Scene) -> bool
        requires { (view_at self.old.board.kept.views 0).hand ≡ [] }
    {
        match scene {
            Scene::Draws => self.draws_all(),
            Scene::Waits => self.waits(),
            Scene::Counts => self.counts(),
            Scene::Joins => self.joins(),
        }
    }
}

/// What is shown of a board.
#[derive(Clone, Copy)]
enum Scene {
    Draws,
    Waits,
    Counts,
    Joins,
}

/// Whether a board that is opened shows it.
fn plays(alloc: Global, scene: Scene) -> Result<bool, AllocError> {
    let mut held = Held::open(alloc, 7)?;
    Ok(held.play(scene))
}

/// The chain of cell 2, whose thread waits until the counter in a cell has come to 3.
fn joining(cell: u32) -> Chain
    ensures { (result.cell ≡ 2) × (result.wait ≡ Join cell 3) }
{
    Chain {
        wait: Waiting::Join { cell, least: 3 },
        ..waiting(2)
    }
}

#[test]
fn numbers_are_drawn_until_there_are_no_more(rt: HostRuntime) -> Result<(), Fail> {
    assert!(rt; plays(rt.alloc(), Scene::Draws)?);
    Ok(())
}

#[test]
fn a_future_is_waited_for_and_made_full(rt: HostRuntime) -> Result<(), Fail> {
    assert!(rt; plays(rt.alloc(), Scene::Waits)?);
    Ok(())
}

#[test]
fn counters_are_counted_up_and_waited_for(rt: HostRuntime) -> Result<(), Fail> {
    for scene in [Scene::Counts, Scene::Joins] {
        assert!(rt; plays(rt.alloc(), scene)?);
    }
    Ok(())
}

#[test]
fn words_of_cells_are_written_and_read(rt: HostRuntime) {
    let own = Owner {
        counter: true,
        parent: 65_535,
        number: 7,
    };
    let is_written = owner_word(own) == 2 + 131_070 + 7 * 262_144;
    let is_read = owner_in(2 + 131_070 + 7 * 262_144) == own;
    assert!(rt; is_written & is_read);
    let last = ((1 << 47) - 1) * 131_072;
    let words = [
        (0, 131_072, 0),
        (131_072 + 5, 262_144, 5),
        (last + 9, last, 9),
    ];
    for (seen, after, head) in words {
        assert!(rt; (counted_up(seen) == after) & (head_in(seen) == head));
    }
}
