//! The threads of a run, their futures and counters, and what the root printed. All of its room is taken when it is opened.
ghost use Rattle.std.specs.Prelude.{◌≡◌, ◌<◌, ◌≤◌, ◌==◌, ◌++◌, ◌∷◌, [], length, nat_lt, slice_get, slice_set, reverse, None, Some, IfOk};
ghost use Rattle.st_base.specs.declared.reg.Reg.TheVariants.{Zero};
ghost use Rattle.st_plain.specs.declared.cells.Cell.TheVariants.{Counter, Future};
ghost use Rattle.st_base.specs.declared.limits.LimitKind.{LimitKind};
ghost use Rattle.st_model.specs.declared.ordinary.OrdEnd.{OrdEnd};
ghost use Rattle.st_plain.specs.Endings.{end_by};
ghost use Rattle.st_plain.specs.Threads.{HasCell, MayMake, counted_notes, forked_notes, path_by};

use crate::cells::{Cell, Note};
use crate::reserved::Reserved;
use crate::stop::Ending;
use crate::whole::PlainEnd;
use st_base::map::MOST_PRINTED;
use st_base::path::{Bytes, Path};
use st_base::reg::Reg;
use st_model::ordinary::OrdEnd;
use std::alloc::{AllocError, Global};

/// The threads that have not ended, the newest last, the cells that were drawn, by their numbers, and the bytes that were printed.
#[derive(Drop)]
pub struct Threads {
    pub(crate) notes: Reserved<Note>,
    pub(crate) cells: Reserved<Cell>,
    pub(crate) out: Reserved<u8>,
    /// Room for the path of a thread.
    pub(crate) path: Reserved<u32>,
    ghost few_cells: { cells.most ≤ 65536 },
    ghost few_notes: { length notes.items.items ≤ length cells.items.items },
    ghost room_for_notes: { notes.most ≡ cells.most },
    ghost room_for_path: { path.most ≡ cells.most },
    ghost room_for_bytes: { out.most ≡ 1048576 },
    ghost no_path: { path.items.items ≡ [] },
}

impl Threads {
    /// The root alone, where so many cells may be drawn.
    pub(crate) fn open(alloc: Global, cells: u32) -> Result<Threads, AllocError>
        requires least { 1 ≤ cells }
        requires most { cells ≤ 65536 }
        ensures room { IfOk result (λ threads. threads.cells.most ≡ cells) }
        ensures notes { IfOk result (λ threads. threads.notes.items.items ≡ record { cell = 0; forks = 0; counters = 0; handle = Zero } ∷ []) }
        ensures cells { IfOk result (λ threads. threads.cells.items.items ≡ Future None ∷ []) }
        ensures out { IfOk result (λ threads. threads.out.items.items ≡ []) }
    {
        let room = cells as usize;
        let mut notes = Reserved::open(alloc, room)?;
        let mut cells = Reserved::open(alloc, room)?;
        let out = Reserved::open(alloc, MOST_PRINTED)?;
        let path = Reserved::open(alloc, room)?;
        notes.push(Note {
            cell: 0,
            forks: 0,
            counters: 0,
            handle: Reg::Zero,
        });
        cells.push(Cell::Future { value: None });
        Ok(Threads {
            notes,
            cells,
            out,
            path,
        })
    }

    /// Whether a cell may yet be drawn.
    pub(crate) fn has_room(&self) -> bool
        ensures { result ≡ nat_lt (length self.now.cells.items.items) self.now.cells.most }
    {
        self.cells.items.len() < self.cells.most
    }

    /// The running thread makes a child, whose future comes into this register of it. The child runs from now on.
    pub(crate) fn fork(&mut self, handle: Reg)
        requires room { length self.old.cells.items.items < self.old.cells.most }
        requires may { MayMake (reverse self.old.notes.items.items) }
        ensures notes { reverse self.new.notes.items.items ≡ forked_notes (length self.old.cells.items.items) handle (reverse self.old.notes.items.items) }
        ensures cells { self.new.cells.items.items ≡ self.old.cells.items.items ++ Future None ∷ [] }
        ensures out { self.new.out.items.items ≡ self.old.out.items.items }
        ensures room { self.new.cells.most ≡ self.old.cells.most }
    {
        let cell = self.cells.items.len() as u32;
        let Some(mut parent) = self.notes.pop() else {
            unreachable!()
        };
        parent.forks += 1;
        self.cells.push(Cell::Future { value: None });
        self.notes.push(parent);
        self.notes.push(Note {
            cell,
            forks: 0,
            counters: 0,
            handle,
        });
    }

    /// The running thread ends with a value, and its parent runs again.
    pub(crate) fn end(&mut self, value: u64) -> Note
        requires { HasCell (length self.old.cells.items.items) (reverse self.old.notes.items.items) }
        ensures notes { reverse self.old.notes.items.items ≡ result ∷ reverse self.new.notes.items.items }
        ensures cells { self.new.cells.items.items ≡ slice_set self.old.cells.items.items result.cell (Future (Some value)) }
        ensures out { self.new.out.items.items ≡ self.old.out.items.items }
        ensures room { self.new.cells.most ≡ self.old.cells.most }
    {
        let Some(note) = self.notes.pop() else {
            unreachable!()
        };
        self.cells
            .set(note.cell as usize, Cell::Future { value: Some(value) });
        note
    }

    /// The running thread makes a counter. The number of its cell.
    pub(crate) fn counter(&mut self) -> u32
        requires room { length self.old.cells.items.items < self.old.cells.most }
        requires may { MayMake (reverse self.old.notes.items.items) }
        ensures number { result ≡ length self.old.cells.items.items }
        ensures notes { reverse self.new.notes.items.items ≡ counted_notes (reverse self.old.notes.items.items) }
        ensures cells { self.new.cells.items.items ≡ self.old.cells.items.items ++ Counter 0 ∷ [] }
        ensures out { self.new.out.items.items ≡ self.old.out.items.items }
        ensures room { self.new.cells.most ≡ self.old.cells.most }
    {
        let cell = self.cells.items.len() as u32;
        let Some(mut maker) = self.notes.pop() else {
            unreachable!()
        };
        maker.counters += 1;
        self.cells.push(Cell::Counter { count: 0 });
        self.notes.push(maker);
        cell
    }

    /// What the cell of a number was drawn for.
    pub(crate) fn cell(&self, number: u64) -> Cell
        requires { number < length self.now.cells.items.items }
        ensures { slice_get self.now.cells.items.items number ≡ Some result }
    {
        self.cells.items[number as usize]
    }

    /// Gives a counter another count.
    pub(crate) fn set_count(&mut self, number: u64, count: u64)
        requires { number < length self.old.cells.items.items }
        ensures notes { self.new.notes.items.items ≡ self.old.notes.items.items }
        ensures cells { self.new.cells.items.items ≡ slice_set self.old.cells.items.items number (Counter count) }
        ensures out { self.new.out.items.items ≡ self.old.out.items.items }
        ensures room { self.new.cells.most ≡ self.old.cells.most }
    {
        self.cells.set(number as usize, Cell::Counter { count });
    }

    /// Whether the root is the running thread.
    pub(crate) fn is_root(&self) -> bool
        ensures { result ≡ (length self.now.notes.items.items == 1) }
    {
        self.notes.items.len() == 1
    }

    /// Whether a byte may yet be printed.
    pub(crate) fn may_print(&self) -> bool
        ensures { result ≡ nat_lt (length self.now.out.items.items) 1048576 }
    {
        self.out.items.len() < MOST_PRINTED
    }

    /// Prints a byte.
    pub(crate) fn print(&mut self, byte: u8)
        requires { length self.old.out.items.items < 1048576 }
        ensures notes { self.new.notes.items.items ≡ self.old.notes.items.items }
        ensures cells { self.new.cells.items.items ≡ self.old.cells.items.items }
        ensures out { self.new.out.items.items ≡ self.old.out.items.items ++ byte ∷ [] }
        ensures room { self.new.cells.most ≡ self.old.cells.most }
    {
        self.out.push(byte);
    }

    /// The path of the running thread: each of the others has made its last fork on the way to it. Takes no memory.
    fn into_path(self) -> (Path, Bytes)
        ensures path { result.0 ≡ path_by (reverse self.notes.items.items) }
        ensures out { result.1 ≡ self.out.items.items }
    {
        let Threads {
            notes,
            out,
            mut path,
            ..
        } = self;
        for i in 1..notes.items.len() {
            path.push(notes.items[i - 1].forks.saturating_sub(1));
        }
        (Path::from_vec(path.items), Bytes::from_vec(out.items))
    }

    /// The end of a run whose running thread ends it so. Takes no memory.
    pub(crate) fn into_end(self, ending: Ending) -> PlainEnd
        ensures end { (e : OrdEnd) → end_by (reverse self.notes.items.items) self.out.items.items ending ≡ Some e → result ≡ PlainEnd.Ended e }
        ensures limit { (kind : LimitKind) → ending ≡ Ending.Limit kind → result ≡ PlainEnd.Limit kind }
    {
        let (path, out) = self.into_path();
        match ending {
            Ending::Done => PlainEnd::Ended(OrdEnd::Done { out }),
            Ending::Trap { kind, line } => PlainEnd::Ended(OrdEnd::Trap {
                kind,
                line,
                path,
                out,
            }),
            Ending::Waits { line } => PlainEnd::Ended(OrdEnd::Waits { line, path, out }),
            Ending::OutLimit => PlainEnd::Ended(OrdEnd::OutLimit { out }),
            Ending::Limit(kind) => PlainEnd::Limit(kind),
        }
    }
}
