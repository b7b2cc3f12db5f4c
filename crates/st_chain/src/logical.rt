//! The threads on one worker.
ghost use Rattle.std.specs.Prelude.{◌≡◌, ◌<◌, ◌≤◌, ◌^◌, ◌++◌, ◌∷◌, ◌+◌, ℕ, suc, List, [], length, Some, slice_get, IfOk};
ghost use Rattle.st_model.specs.declared.code.Layout.TheVariants.{Postprocessed};
ghost use Rattle.st_model.specs.Layout.{saveable, IsCodeOf};
ghost use Rattle.st_model.specs.Memory.{data_of};
ghost use Rattle.st_words.specs.Made.{Asked, StepMade};
ghost use Rattle.st_step.specs.Runs.{AreValues};
ghost use Rattle.st_chain.specs.Logical.{IsPopped, restarted, with_values};
ghost use Rattle.st_chain.specs.Forks.{AreRising};
ghost use Rattle.st_chain.specs.Places.{first_walk, first_place, whole_walk, gone_below, gone_to_bottom};
ghost use Rattle.std.specs.List.{Contains};
ghost use Rattle.st_base.specs.declared.chain.Frame.{Frame};
ghost use Rattle.st_base.specs.declared.chain.Note.{Note};
ghost use Rattle.st_chain.specs.Taking.{Taking, Suspends, SuspendStep, MaySuspend, Gives, GiveStep, MayGive, place_in};

use crate::forks::handle_of;
use crate::walk::{Place, Stage, Walk, chain_at};
use st_base::chain::{Chain, Note, Waiting};
use st_base::image::{ForkRow, Image};
use st_base::map::CODE_START;
use st_base::reg::Reg;
use st_model::code::SAVEABLE;
use st_stack::stack::PhysStack;
use st_step::Machine;
use st_words::board::{Board, NamesView};
use std::alloc::{AllocError, Global};
use std::marker::Model;

/// What a step of taking a thread off its worker comes to.
#[derive(Clone, Copy)]
pub enum Moved {
    /// The taking goes on.
    More,
    /// It is done, and this is the thread's chain.
    Done(Chain),
}

/// The threads on one worker, as notes from the bottom thread to the top one, and the walk of a taking that has begun. There is room for a fixed
/// count of notes, and each call but `open` takes no memory. Contracts see the list of the notes, the bottom thread's first, the room and the walk.
#[derive(Drop)]
pub struct Logical {
    notes: Vec<Note>,
    room: u32,
    walk: Option<Walk>,
}

impl Model for Logical {
    ghost use Rattle.std.specs.Prelude.{vec_capacity};
    ghost use Rattle.st_chain.specs.Logical.{Threads, HasRoom};

    ghost Value = { Threads };

    ghost view = { λ l. record { notes = l.notes.items; room = l.room; «open» = l.walk } };

    ghost invariant = { λ l. HasRoom l.notes.items l.room (vec_capacity l.notes) };
}

impl Logical {
    /// No threads, with room for `cells` notes. It takes the memory for them.
    pub fn open(alloc: Global, cells: u32) -> Result<Logical, AllocError>
        requires { 1 ≤ cells }
        ensures none { IfOk result (λ logical. logical.notes ≡ []) }
        ensures room { IfOk result (λ logical. logical.room ≡ cells) }
        ensures closed { IfOk result (λ logical. logical.open ≡ None) }
    {
        let notes = Vec::with_capacity(alloc, cells as usize)?;
        Ok(Logical {
            notes,
            room: cells,
            walk: None,
        })
    }

    /// The notes, the bottom thread's first.
    pub fn threads(&self) -> &[Note]
        ensures { result.now ≡ self.now.notes }
    {
        self.notes.as_slice()
    }

    /// A thread comes on top of the others.
    pub fn push(&mut self, n: Note)
        requires { length self.old.notes < self.old.room }
        ensures notes { self.new.notes ≡ self.old.notes ++ n ∷ [] }
        ensures room { self.new.room ≡ self.old.room }
        ensures stays { self.new.open ≡ self.old.open }
    {
        self.notes.push_reserved(n);
    }

    /// Takes the top thread out; `None` exactly where there is none, and nothing changes then.
    pub fn pop(&mut self) -> Option<Note>
        ensures popped { IsPopped self.old.notes result self.new.notes }
        ensures room { self.new.room ≡ self.old.room }
        ensures stays { self.new.open ≡ self.old.open }
    {
        self.notes.pop()
    }

    /// A chain's thread goes on, on a machine whose worker has no thread: it is the one thread then, and the machine is at its place, with its
    /// frame pointer and its registers. No stack word is read or changed, and a store that is half done is forgotten.
    pub fn restart(&mut self, m: &mut Machine, c: Chain)
        requires { self.old.notes ≡ [] }
        ensures notes { self.new.notes ≡ c.note ∷ [] }
        ensures room { self.new.room ≡ self.old.room }
        ensures stays { self.new.open ≡ self.old.open }
        ensures machine { m.new ≡ restarted c m.old }
        ensures values { AreValues m.old → AreValues m.new }
    {
        put_chain(m, &c);
        self.notes.push_reserved(c.note);
    }

    /// One step of suspending the top thread, which waits so. Its frames stay where they lie. See `Taking` in `specs/Taking` for what is said of it.
    ///
    /// The first step begins a walk over the thread's frames, and each further one makes at most one step of the board; the steps that are left
    /// are one fewer behind each. A step that isn't the last answers `More`. The last one answers the thread's chain: that has the thread's note
    /// and cell and the wait, its place is the one where the thread stood at the first step, and it stands for the thread with nothing below it;
    /// the thread's frames on this stack are exported, and the thread's note is taken out. Where a thread lies below, the return word of the oldest
    /// frame of the one that is taken is set to the entry st_end, which is the one word that is written, and the machine goes on with the thread
    /// below behind its fork; else the machine is as it was. No memory is taken.
    #[tactic(none)]
    pub fn suspend_step<B: Board, N: NamesView>(
        &mut self,
        m: &mut Machine,
        s: &mut PhysStack,
        image: &Image,
        board: &mut B,
        w: u32,
        wait: Waiting,
    ) -> Moved
        requires may { MaySuspend (λ x. Asked B.view B.serves B.says B.forward B.moves N.after board.old w x) image.now (data_of image.now.rodata []) wait self.old.notes self.old.open m.old s.old }
        ensures step { (t : Taking) (n : ℕ) → IsCodeOf Postprocessed t.p image.now → t.d ≡ data_of image.now.rodata [] → Suspends t wait self.old.notes self.old.open m.old s.old (suc n) → SuspendStep (λ x a b. StepMade B.view B.serves B.says B.did N.after board.old w x a b) board.old t n self.old.notes self.new.notes self.new.open m.old m.new s.new result board.new }
        ensures values { AreValues m.old → AreValues m.new }
        ensures room { self.new.room ≡ self.old.room }
        ensures ends { (s.new.lo ≡ s.old.lo) × (s.new.hi ≡ s.old.hi) }
        ensures stays { (f : Frame) → Contains s.old.exported f → Contains s.new.exported f }
    {
        let Some(mut walk) = self.walk.take() else {
            self.walk = Some(first_walk(self.notes.as_slice(), m, wait));
            return Moved::More;
        };
        match walk.place(image) {
            Place::Copy => {
                walk.go_on::<B, N>(image, board, w);
                self.walk = Some(walk);
                Moved::More
            }
            Place::Frame => {
                walk.begin(s, image);
                self.walk = Some(walk);
                Moved::More
            }
            Place::Fork { handle } => {
                walk.cut::<B, N>(board, w);
                let chain = walk.taken();
                walk.go_down(handle, chain.cell);
                let next = chain_at(&walk.machine, walk.machine.pc(), chain.note, Waiting::Ready);
                put_chain(m, &next);
                let _top = self.pop();
                Moved::Done(chain)
            }
            Place::End => {
                let chain = walk.taken();
                let _top = self.pop();
                Moved::Done(chain)
            }
        }
    }

    /// One step of giving the bottom thread, over which there is one at least, and right above it one with a frame. All frames stay where they lie.
    /// See `Taking` in `specs/Taking` for what is said of it.
    ///
    /// The first step begins a walk over the frames of all threads, the top one first, and each further one makes at most one step of the board; the
    /// steps that are left are one fewer behind each. A step that isn't the last answers `More`. The last one answers the thread's chain: that has
    /// the thread's note and cell, is ready to go on behind its fork, and stands for it; the thread's frames on this stack are exported, and the
    /// thread's note is taken out. The return word of the oldest frame of the thread right above is set to the entry st_end, which is the one word
    /// that is written; the threads above stand on the machine as before, with nothing below them. No memory is taken.
    #[tactic(none)]
    pub fn give_step<B: Board, N: NamesView>(
        &mut self,
        m: &Machine,
        s: &mut PhysStack,
        image: &Image,
        board: &mut B,
        w: u32,
    ) -> Moved
        requires may { MayGive (λ x. Asked B.view B.serves B.says B.forward B.moves N.after board.old w x) image.now (data_of image.now.rodata []) self.old.notes self.old.open m.now s.old }
        ensures step { (t : Taking) (n : ℕ) → IsCodeOf Postprocessed t.p image.now → t.d ≡ data_of image.now.rodata [] → Gives t self.old.notes self.old.open m.now s.old (suc n) → GiveStep (λ x a b. StepMade B.view B.serves B.says B.did N.after board.old w x a b) board.old t n self.old.notes self.new.notes self.new.open m.now s.new result board.new }
        ensures room { self.new.room ≡ self.old.room }
        ensures ends { (s.new.lo ≡ s.old.lo) × (s.new.hi ≡ s.old.hi) }
        ensures stays { (f : Frame) → Contains s.old.exported f → Contains s.new.exported f }
    {
        let Some(mut walk) = self.walk.take() else {
            self.walk = Some(whole_walk(self.notes.as_slice(), m, image));
            return Moved::More;
        };
        match walk.place(image) {
            Place::Copy => {
                walk.go_on::<B, N>(image, board, w);
                self.walk = Some(walk);
                Moved::More
            }
            Place::Frame => {
                walk.begin(s, image);
                self.walk = Some(walk);
                Moved::More
            }
            Place::Fork { handle } if walk.thread == 1 => {
                walk.cut::<B, N>(board, w);
                go_to_bottom(&mut walk, handle, self.notes.as_slice());
                self.walk = Some(walk);
                Moved::More
            }
            Place::Fork { handle } => {
                go_below(&mut walk, handle, self.notes.as_slice());
                self.walk = Some(walk);
                Moved::More
            }
            Place::End => {
                let chain = walk.taken();
                let _bottom = self.notes.remove(0);
                Moved::Done(chain)
            }
        }
    }
}

/// The walk of a giving that begins: over the frames of all threads, the top one first.
fn whole_walk(notes: &[Note], m: &Machine, image: &Image) -> Walk
    requires some { 0 < length notes.now }
    requires rising { AreRising 0 image.now.forks }
    requires place { m.now.pc + 4 < 2 ^ 32 }
    ensures { (top : ℕ) → length notes.now ≡ top + 1 → result ≡ whole_walk image.now.forks m.now top }
{
    let pc = first_place(image.forks.as_slice(), m.pc());
    let mut machine = m.copy();
    machine.set_pc(pc);
    Walk {
        machine,
        stage: Stage::Frame,
        base: 0,
        thread: notes.len() - 1,
        chain: None,
    }
}

/// Where the walk over all threads begins. A top thread that has just been forked has no frame: then it is at the third jump of the fork.
fn first_place(forks: &[ForkRow], pc: u32) -> u32
    requires rising { AreRising 0 forks.now }
    requires place { pc + 4 < 2 ^ 32 }
    ensures { result ≡ first_place forks.now pc }
{
    let third = pc + 4;
    if handle_of(forks, third).is_some() {
        third
    } else {
        pc
    }
}

/// The cell of a thread by its place.
fn cell_at(notes: &[Note], thread: usize) -> u32
    requires { thread < length notes.now }
    ensures here { (note : Note) → slice_get notes.now thread ≡ Some note → result ≡ note.cell }
    ensures few { result < 2 ^ 32 }
{
    notes[thread].cell
}

/// Goes on in the thread below the one whose frames are read.
fn go_below(walk: &mut Walk, handle: Reg, notes: &[Note])
    requires some { 0 < walk.old.thread }
    requires inside { walk.old.thread < length notes.now }
    requires place { walk.old.machine.pc + 4 < 2 ^ 32 }
    ensures { (note : Note) → slice_get notes.now walk.old.thread ≡ Some note → (note.cell < 2 ^ 32) × (walk.new ≡ gone_below walk.old handle note.cell) }
{
    let above = cell_at(notes, walk.thread);
    walk.go_down(handle, above);
    walk.thread -= 1;
}

/// Goes on in the bottom thread, which is the one below the one whose frames are read, and makes its chain.
fn go_to_bottom(walk: &mut Walk, handle: Reg, notes: &[Note])
    requires inside { 1 < length notes.now }
    requires place { walk.old.machine.pc + 4 < 2 ^ 32 }
    ensures { (bottom note : Note) → slice_get notes.now 0 ≡ Some bottom → slice_get notes.now 1 ≡ Some note → (note.cell < 2 ^ 32) × (walk.new ≡ gone_to_bottom walk.old handle note.cell bottom) }
{
    let above = cell_at(notes, 1);
    let bottom = notes[0];
    walk.go_down(handle, above);
    let pc = walk.machine.pc();
    walk.thread = 0;
    walk.chain = Some(chain_at(&walk.machine, pc, bottom, Waiting::Ready));
}

/// The walk of a suspension that begins: over the frames of the top thread, of which it has the chain.
fn first_walk(notes: &[Note], m: &Machine, wait: Waiting) -> Walk
    requires some { 0 < length notes.now }
    requires place { place_in m.now < 2 ^ 32 }
    ensures { (below : List Note) (note : Note) → notes.now ≡ below ++ note ∷ [] → result ≡ first_walk m.now (place_in m.now) note wait (length below) }
{
    let top = notes.len() - 1;
    let pc = place_in(m);
    let mut machine = m.copy();
    machine.set_pc(pc);
    Walk {
        machine,
        stage: Stage::Frame,
        base: 0,
        thread: top,
        chain: Some(chain_at(m, pc, notes[top], wait)),
    }
}

/// Where a machine stands in its thread: behind the word that called an entry of the runtime, where it is at one.
fn place_in(m: &Machine) -> u32
    requires { place_in m.now < 2 ^ 32 }
    ensures { result ≡ place_in m.now }
{
    if m.pc() < CODE_START {
        m.reg(Reg::Ra) as u32
    } else {
        m.pc()
    }
}

/// A machine goes on with a chain.
fn put_chain(m: &mut Machine, c: &Chain)
    ensures machine { m.new ≡ restarted c.now m.old }
    ensures values { AreValues m.old → AreValues m.new }
{
    m.set_reg(Reg::S0, c.fp);
    put_saved(m, &c.saved);
    m.set_pc(c.pc);
}

/// Puts the values into s1 to s11.
fn put_saved(m: &mut Machine, saved: &[u64; 11])
    ensures machine { m.new ≡ with_values 0 saveable saved.now m.old }
    ensures values { AreValues m.old → AreValues m.new }
{
    for k in 0..SAVEABLE.len() {
        m.set_reg(SAVEABLE[k], saved[k]);
    }
}
