//! The words and slots of a board, as a plain value, and what each atomic step does to them: the arithmetic of a board, without its views.
ghost use Rattle.std.specs.Prelude.{◌≡◌, ◌≢◌, ◌<◌, ◌≤◌, ◌==◌, length, slice_get, slice_set, replicate, IfOk, IfErr};
ghost use Rattle.st_base.specs.declared.chain.Chain.{Chain};
ghost use Rattle.st_words.specs.Encodings.{out_bytes};
ghost use Rattle.st_words.specs.Steps.{found_by};
ghost use Rattle.st_words.specs.Plain.{cell_words, with_cell, in_slot, with_slot, one_more, added, changed, stopped, root_chain, led_by, first_words};
ghost use Rattle.st_words.specs.Sizes.{HasSlot};

use crate::view::{CellWord, Slot};
use crate::zeroed::ZeroedWords;
use st_base::chain::{Chain, Note, Waiting};
use st_base::limits::Limits;
use st_base::lists::Listed;
use st_base::map::MOST_PRINTED;
use std::alloc::{AllocError, Global};

/// All words and slots of a board.
#[derive(Drop)]
pub struct Words {
    /// The words of all stacks, from 0x8000_0000 up: worker 0's, then worker 1's and so on.
    pub stack: Listed<u64>,
    /// The Owner words of the cells, and so on for each kind of word.
    pub owners: Listed<u64>,
    pub states: Listed<u64>,
    pub values: Listed<u64>,
    pub nexts: Listed<u64>,
    pub standings: Listed<u64>,
    pub traps: Listed<u64>,
    /// How many cells were drawn.
    pub drawn: u64,
    /// The active count.
    pub active: u64,
    /// The limit code, or 0.
    pub stop: u64,
    /// 1 while the root's chain isn't taken, then 0.
    pub root: u64,
    /// The request word of each worker.
    pub requests: Listed<u64>,
    /// The mail word of each worker.
    pub mail: Listed<u64>,
    /// One word for each byte that may be printed. Memory is touched up to the last that was stored.
    pub out: ZeroedWords,
    /// The slot of each cell.
    pub cell_slots: Listed<Option<Chain>>,
    /// The mail slot of each worker.
    pub mail_slots: Listed<Option<Chain>>,
}

/// How many bytes may be printed.
#[tactic(auto, unfolding(crate::specs::Encodings::out_bytes))]
fn out_count() -> usize
    ensures { result ≡ out_bytes }
{
    MOST_PRINTED
}

/// The root's chain, which hasn't begun.
fn root_chain() -> Chain
    ensures { result ≡ root_chain }
{
    Chain {
        cell: 0,
        pc: 0,
        fp: 0,
        saved: [0; 11],
        note: Note {
            cell: 0,
            forks: 0,
            counters: 0,
            bytes: 0,
        },
        wait: Waiting::Start,
    }
}

/// So many words that are 0.
fn zeros(alloc: Global, count: usize) -> Result<Listed<u64>, AllocError>
    ensures { IfOk result (λ words. words ≡ replicate count 0) }
{
    Ok(Listed::from_vec(vec![in alloc; 0; count]?))
}

/// A word, and zeros behind it.
fn led_by(alloc: Global, first: u64, count: usize) -> Result<Listed<u64>, AllocError>
    requires { 0 < count }
    ensures { IfOk result (λ words. words ≡ led_by first count) }
{
    let mut words = zeros(alloc, count)?;
    words.set(0, first);
    Ok(words)
}

/// So many empty slots.
fn empty_slots(alloc: Global, count: usize) -> Result<Listed<Option<Chain>>, AllocError>
    ensures { IfOk result (λ slots. slots ≡ replicate count (None)) }
{
    let mut slots = Listed::new(alloc);
    for _ in 0..count {
        slots.push(None)?;
    }
    Ok(slots)
}

/// The slots of cells when a board is opened: the root's chain, and empty ones behind it.
fn cell_slots(alloc: Global, count: usize) -> Result<Listed<Option<Chain>>, AllocError>
    requires { 0 < count }
    ensures { IfOk result (λ slots. slots ≡ slice_set (replicate count (None)) 0 (Some root_chain)) }
{
    let mut slots = empty_slots(alloc, count)?;
    slots.set(0, Some(root_chain()));
    Ok(slots)
}

/// Compares the word at a place with `old`, and stores `new` where it is equal; else answers the word that it found.
fn change(words: &mut Listed<u64>, at: usize, old: u64, new: u64) -> Result<(), u64>
    requires { at < length words.old }
    ensures found { slice_get words.old at ≡ Some (found_by old result) }
    ensures left { words.new ≡ changed (found_by old result == old) at new words.old }
    ensures kept { IfErr result (λ found. found ≢ old) }
{
    let found = words.as_slice()[at];
    if found == old {
        words.set(at, new);
        Ok(())
    } else {
        Err(found)
    }
}

/// What lies in a slot. It is empty afterwards.
fn take(slots: &mut Listed<Option<Chain>>, at: usize) -> Option<Chain>
    requires { at < length slots.old }
    ensures found { slice_get slots.old at ≡ Some result }
    ensures left { slots.new ≡ slice_set slots.old at (None) }
{
    let found = slots.as_slice()[at];
    slots.set(at, None);
    found
}

impl Words {
    /// The words and slots of a board that is opened.
    #[tactic(auto, unfolding(crate::specs::Plain::first_words))]
    pub fn open(alloc: Global, limits: &Limits, workers: u32) -> Result<Words, AllocError>
        requires { workers ≤ 16 }
        ensures { IfOk result (λ words. words ≡ first_words limits.now workers) }
    {
        let cells = limits.cells as usize;
        let workers = workers as usize;
        let each = (limits.stack / 8) as usize;
        Ok(Words {
            stack: zeros(alloc, workers * each)?,
            owners: led_by(alloc, 1, cells)?,
            states: zeros(alloc, cells)?,
            values: zeros(alloc, cells)?,
            nexts: zeros(alloc, cells)?,
            standings: led_by(alloc, 3, cells)?,
            traps: zeros(alloc, cells)?,
            drawn: 1,
            active: 1,
            stop: 0,
            root: 1,
            requests: zeros(alloc, workers)?,
            mail: zeros(alloc, workers)?,
            out: ZeroedWords::open(alloc, out_count())?,
            cell_slots: cell_slots(alloc, cells)?,
            mail_slots: empty_slots(alloc, workers)?,
        })
    }

    /// A stack word.
    pub fn stack_load(&self, place: u32) -> u64
        requires { place < length self.now.stack }
        ensures { slice_get self.now.stack place ≡ Some result }
    {
        self.stack.as_slice()[place as usize]
    }

    /// Stores to a stack word.
    pub fn stack_store(&mut self, place: u32, value: u64)
        requires { place < length self.old.stack }
        ensures { self.new ≡ record self.old { stack = slice_set self.old.stack place value } }
    {
        self.stack.set(place as usize, value);
    }

    /// The words of one kind of all cells.
    fn cells(&self, word: CellWord) -> &Listed<u64>
        ensures { result.now ≡ cell_words self.now word }
    {
        match word {
            CellWord::Owner => &self.owners,
            CellWord::State => &self.states,
            CellWord::Value => &self.values,
            CellWord::Next => &self.nexts,
            CellWord::Standing => &self.standings,
            CellWord::Trap => &self.traps,
        }
    }

    /// A word of a cell.
    pub fn cell_load(&self, c: u32, word: CellWord) -> u64
        requires { c < length (cell_words self.now word) }
        ensures { slice_get (cell_words self.now word) c ≡ Some result }
    {
        self.cells(word).as_slice()[c as usize]
    }

    /// Stores to a word of a cell.
    pub fn cell_store(&mut self, c: u32, word: CellWord, value: u64)
        requires { c < length (cell_words self.old word) }
        ensures { self.new ≡ with_cell self.old c word value }
    {
        let at = c as usize;
        match word {
            CellWord::Owner => self.owners.set(at, value),
            CellWord::State => self.states.set(at, value),
            CellWord::Value => self.values.set(at, value),
            CellWord::Next => self.nexts.set(at, value),
            CellWord::Standing => self.standings.set(at, value),
            CellWord::Trap => self.traps.set(at, value),
        }
    }

    /// Compares the State word of a cell with `old`, and stores `new` where it is equal; else answers the word that it found.
    pub fn cell_change(&mut self, c: u32, old: u64, new: u64) -> Result<(), u64>
        requires { c < length self.old.states }
        ensures found { slice_get self.old.states c ≡ Some (found_by old result) }
        ensures left { self.new ≡ record self.old { states = changed (found_by old result == old) c new self.old.states } }
        ensures kept { IfErr result (λ found. found ≢ old) }
    {
        change(&mut self.states, c as usize, old, new)
    }

    /// Adds 1 to the number of cells drawn, and answers the old number.
    pub fn draw(&mut self) -> u64
        ensures found { result ≡ self.old.drawn }
        ensures left { self.new ≡ record self.old { drawn = one_more self.old.drawn } }
    {
        let found = self.drawn;
        self.drawn = found.wrapping_add(1);
        found
    }

    /// Adds 1 to the active count, or takes 1 away, and answers the old number.
    pub fn active_add(&mut self, up: bool) -> u64
        ensures found { result ≡ self.old.active }
        ensures left { self.new ≡ record self.old { active = added up self.old.active } }
    {
        let found = self.active;
        let by = if up { 1 } else { u64::MAX };
        self.active = found.wrapping_add(by);
        found
    }

    /// Stores a stop code where the stop word is 0; else answers the code that it found.
    pub fn stop_set(&mut self, code: u64) -> Result<(), u64>
        ensures found { found_by 0 result ≡ self.old.stop }
        ensures left { self.new ≡ record self.old { stop = stopped (found_by 0 result == 0) code self.old.stop } }
        ensures kept { IfErr result (λ found. found ≢ 0) }
    {
        if self.stop != 0 {
            return Err(self.stop);
        }
        self.stop = code;
        Ok(())
    }

    /// Exchanges the Root word with 0; true where it was 1.
    pub fn root_take(&mut self) -> bool
        ensures found { result ≡ (self.old.root == 1) }
        ensures left { self.new ≡ record self.old { root = 0 } }
    {
        let found = self.root == 1;
        self.root = 0;
        found
    }

    /// The request word of a worker.
    pub fn request_load(&self, v: u32) -> u64
        requires { v < length self.now.requests }
        ensures { slice_get self.now.requests v ≡ Some result }
    {
        self.requests.as_slice()[v as usize]
    }

    /// Compares the request word of a worker with `old`, and stores `new` where it is equal; else answers the word that it found.
    pub fn request_change(&mut self, v: u32, old: u64, new: u64) -> Result<(), u64>
        requires { v < length self.old.requests }
        ensures found { slice_get self.old.requests v ≡ Some (found_by old result) }
        ensures left { self.new ≡ record self.old { requests = changed (found_by old result == old) v new self.old.requests } }
        ensures kept { IfErr result (λ found. found ≢ old) }
    {
        change(&mut self.requests, v as usize, old, new)
    }

    /// The mail word of a worker.
    pub fn mail_load(&self, v: u32) -> u64
        requires { v < length self.now.mail }
        ensures { slice_get self.now.mail v ≡ Some result }
    {
        self.mail.as_slice()[v as usize]
    }

    /// Stores to the mail word of a worker.
    pub fn mail_store(&mut self, v: u32, value: u64)
        requires { v < length self.old.mail }
        ensures { self.new ≡ record self.old { mail = slice_set self.old.mail v value } }
    {
        self.mail.set(v as usize, value);
    }

    /// Stores the i-th byte of the output.
    pub fn out_store(&mut self, i: u32, value: u64)
        requires { i < length self.old.out }
        ensures { self.new ≡ record self.old { out = slice_set self.old.out i value } }
    {
        self.out.set(i as usize, value);
    }

    /// The word of the i-th byte of the output.
    pub fn out_load(&self, i: u32) -> u64
        requires { i < length self.now.out }
        ensures { slice_get self.now.out i ≡ Some result }
    {
        self.out.get(i as usize)
    }

    /// Takes what lies in a slot; the slot is empty afterwards.
    pub fn slot_take(&mut self, slot: Slot) -> Option<Chain>
        requires { HasSlot self.old slot }
        ensures found { in_slot self.old slot ≡ Some result }
        ensures left { self.new ≡ with_slot self.old slot (None) }
    {
        match slot {
            Slot::Cell(c) => take(&mut self.cell_slots, c as usize),
            Slot::Mail(v) => take(&mut self.mail_slots, v as usize),
        }
    }

    /// Puts a chain into a slot.
    pub fn slot_put(&mut self, slot: Slot, chain: Chain)
        requires { HasSlot self.old slot }
        ensures { self.new ≡ with_slot self.old slot (Some chain) }
    {
        match slot {
            Slot::Cell(c) => self.cell_slots.set(c as usize, Some(chain)),
            Slot::Mail(v) => self.mail_slots.set(v as usize, Some(chain)),
        }
    }
}
