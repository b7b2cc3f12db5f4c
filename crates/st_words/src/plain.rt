//! A board over vectors, which serves all workers, one step at a time. It keeps sizes alone: who holds what, its callers show.
ghost use Rattle.std.specs.Prelude.{◌≡◌, ◌≢◌, ℕ, ◌<◌, ◌≤◌, length, IfOk, IfErr};
ghost use Rattle.st_words.specs.Plain.{view_at, Exact, Left, first_words, first_views, first_cargoes};
ghost use Rattle.st_words.specs.Sizes.{Sized};
ghost use Rattle.st_words.specs.Steps.{Number};
ghost use Rattle.st_words.specs.Views.{Does, IsFree, no_known};
ghost use Rattle.st_words.specs.Laws.{stays, does_alone};
ghost use Rattle.st_base.specs.declared.thread.Thread.{Thread};

use crate::board::{Board, NamesView};
use crate::kept::{Kept, first_kept, kept_by};
use crate::view::{CellWord, Slot};
use crate::words::Words;
use st_base::chain::Chain;
use st_base::limits::Limits;
use std::alloc::{AllocError, Global};
use std::marker::Brand;

/// The root's thread, which who opens a board names for contracts alone.
pub trait Root {
    ghost thread: { Thread };
}

impl Root for Brand {
    ghost thread = { no_known.thread };
}

/// A board over vectors.
#[derive(Drop)]
pub struct PlainBoard {
    pub(crate) words: Words,
    pub(crate) kept: Kept,
    ghost sized: { Sized words kept.cargoes kept.views },
}

impl Board for PlainBoard {
    ghost view = { λ b w. view_at b.kept.views w };

    ghost serves = { λ b w. w < length b.kept.views };

    ghost forward = { λ b v u. IsFree v u };

    ghost moves = { λ b u s a v. Does u s a v };

    ghost says = { λ b w s a. Exact b.words b.kept.cargoes w s a };

    ghost did = { λ b w s a c. Left b.words b.kept.cargoes b.kept.views w s a c.words c.kept.cargoes c.kept.views };

    ghost rests = { λ b w served. stays (view_at b.kept.views w) };

    ghost loads = { λ b w s a served is can said. does_alone (view_at b.kept.views w) s a };

    fn stack_load<N: NamesView>(&mut self, w: u32, place: u32) -> u64 {
        let found = self.words.stack_load(place);
        self.kept = kept_by::<Brand, _>(&self.kept, &self.words, &(w, place, found));
        found
    }

    fn stack_store<N: NamesView>(&mut self, w: u32, place: u32, value: u64) {
        self.words.stack_store(place, value);
        self.kept = kept_by::<Brand, _>(&self.kept, &self.words, &(w, place, value));
    }

    fn mark<N: NamesView>(&mut self, w: u32, place: u32) {
        self.words.stack_store(place, 0);
        self.kept = kept_by::<Brand, _>(&self.kept, &self.words, &(w, place));
    }

    fn look<N: NamesView>(&mut self, w: u32, place: u32) -> u64 {
        let found = self.words.stack_load(place);
        self.kept = kept_by::<Brand, _>(&self.kept, &self.words, &(w, place, found));
        found
    }

    fn cell_load<N: NamesView>(&mut self, w: u32, c: u32, word: CellWord) -> u64 {
        let found = self.words.cell_load(c, word);
        self.kept = kept_by::<Brand, _>(&self.kept, &self.words, &(w, c, word, found));
        found
    }

    fn cell_store<N: NamesView>(&mut self, w: u32, c: u32, word: CellWord, value: u64) {
        self.words.cell_store(c, word, value);
        self.kept = kept_by::<Brand, _>(&self.kept, &self.words, &(w, c, word, value));
    }

    fn cell_change<N: NamesView>(&mut self, w: u32, c: u32, old: u64, new: u64) -> Result<(), u64> {
        let found = self.words.cell_change(c, old, new);
        self.kept = kept_by::<Brand, _>(&self.kept, &self.words, &(w, c, old, new, found));
        found
    }

    fn draw<N: NamesView>(&mut self, w: u32) -> u64 {
        let found = self.words.draw();
        self.kept = kept_by::<Brand, _>(&self.kept, &self.words, &(w, found));
        found
    }

    fn active_add<N: NamesView>(&mut self, w: u32, up: bool) -> u64 {
        let found = self.words.active_add(up);
        self.kept = kept_by::<Brand, _>(&self.kept, &self.words, &(w, up, found));
        found
    }

    fn active_load<N: NamesView>(&mut self, w: u32) -> u64 {
        let found = self.words.active;
        self.kept = kept_by::<Brand, _>(&self.kept, &self.words, &(w, found));
        found
    }

    fn stop_load<N: NamesView>(&mut self, w: u32) -> u64 {
        let found = self.words.stop;
        self.kept = kept_by::<Brand, _>(&self.kept, &self.words, &(w, found));
        found
    }

    fn stop_set<N: NamesView>(&mut self, w: u32, code: u64) -> Result<(), u64> {
        let found = self.words.stop_set(code);
        self.kept = kept_by::<Brand, _>(&self.kept, &self.words, &(w, code, found));
        found
    }

    fn root_take<N: NamesView>(&mut self, w: u32) -> bool {
        let found = self.words.root_take();
        self.kept = kept_by::<Brand, _>(&self.kept, &self.words, &(w, found));
        found
    }

    fn request_load<N: NamesView>(&mut self, w: u32, v: u32) -> u64 {
        let found = self.words.request_load(v);
        self.kept = kept_by::<Brand, _>(&self.kept, &self.words, &(w, v, found));
        found
    }

    fn request_change<N: NamesView>(
        &mut self,
        w: u32,
        v: u32,
        old: u64,
        new: u64,
    ) -> Result<(), u64> {
        let found = self.words.request_change(v, old, new);
        self.kept = kept_by::<Brand, _>(&self.kept, &self.words, &(w, v, old, new, found));
        found
    }

    fn mail_load<N: NamesView>(&mut self, w: u32) -> u64 {
        let found = self.words.mail_load(w);
        self.kept = kept_by::<Brand, _>(&self.kept, &self.words, &(w, found));
        found
    }

    fn mail_store<N: NamesView>(&mut self, w: u32, v: u32, value: u64) {
        self.words.mail_store(v, value);
        self.kept = kept_by::<Brand, _>(&self.kept, &self.words, &(w, v, value));
    }

    fn out_store<N: NamesView>(&mut self, w: u32, i: u32, value: u64) {
        self.words.out_store(i, value);
        self.kept = kept_by::<Brand, _>(&self.kept, &self.words, &(w, i, value));
    }

    fn slot_take<N: NamesView>(&mut self, w: u32, slot: Slot) -> Option<Chain> {
        let found = self.words.slot_take(slot);
        self.kept = kept_by::<Brand, _>(&self.kept, &self.words, &(w, slot, found));
        found
    }

    fn slot_put<N: NamesView>(&mut self, w: u32, slot: Slot, chain: Chain) {
        self.words.slot_put(slot, chain);
        self.kept = kept_by::<Brand, _>(&self.kept, &self.words, &(w, slot, chain));
    }

    fn out_load<N: NamesView>(&mut self, w: u32, i: u32) -> u64 {
        let found = self.words.out_load(i);
        self.kept = kept_by::<Brand, _>(&self.kept, &self.words, &(w, i, found));
        found
    }
}

impl PlainBoard {
    /// A board for so many workers: each holds its own stack, whose words are 0, and the root's chain lies in its slot. It counts as active.
    pub fn open<R: Root>(
        alloc: Global,
        limits: &Limits,
        workers: u32,
    ) -> Result<PlainBoard, AllocError>
        requires least { 1 ≤ workers }
        requires most { workers ≤ 16 }
        ensures words { IfOk result (λ board. board.words ≡ first_words limits.now workers) }
        ensures views { IfOk result (λ board. board.kept.views ≡ first_views limits.now workers) }
        ensures cargoes { IfOk result (λ board. board.kept.cargoes ≡ first_cargoes limits.now workers R.thread) }
    {
        let words = Words::open(alloc, limits, workers)?;
        let kept = first_kept::<Brand>(limits, workers);
        Ok(PlainBoard { words, kept })
    }
}
