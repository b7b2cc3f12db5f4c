//! The entries of the runtime: what is done where the machine has come to one. Each goes on behind the jump that called it.
ghost use Rattle.std.specs.Prelude.{◌≡◌, ◌≢◌, ◌<◌, ◌≤◌, ◌-◌, ◌^◌, List, None, IfSome, length, slice_get, Some};
ghost use Rattle.st_base.specs.declared.image.Image.{Image};
ghost use Rattle.st_base.specs.declared.limits.Limits.{Limits};
ghost use Rattle.st_base.specs.declared.limits.LimitKind.TheVariants as LimitKind;
ghost use Rattle.st_base.specs.declared.reg.Reg.TheVariants.{Ra};
ghost use Rattle.st_base.specs.declared.thread.Held.{Held};
ghost use Rattle.st_model.specs.declared.program.Program.{Program};
ghost use Rattle.st_model.specs.declared.ordinary.State.{State};
ghost use Rattle.st_model.specs.declared.ordinary.Turn.TheVariants.{Undefined};
ghost use Rattle.st_model.specs.Memory.{Data};
ghost use Rattle.st_model.specs.Ordinary.{step, counted};
ghost use Rattle.st_step.specs.Moves.{register, at_place};
ghost use Rattle.st_plain.specs.declared.stop.Ending.TheVariants.{Limit, Trap};
ghost use Rattle.st_items.specs.Code.{word_index};
ghost use Rattle.st_plain.specs.Running.{EndsBy, GoesOn, HasTables, IsAtEntry, IsServing, Served};

use crate::cells::Cell;
use crate::run::PlainRun;
use crate::stop::Ending;
use st_base::image::Image;
use st_base::limits::LimitKind;
use st_base::line::Line;
use st_base::reg::Reg;
use st_base::thread::TrapKind;
use st_items::code::word_index;

const FORK_IN: u32 = 0x10;

const FORK_OUT: u32 = 0x20;

const END: u32 = 0x30;

const TOUCH: u32 = 0x40;

const COUNTER: u32 = 0x50;

const DONE: u32 = 0x60;

const JOIN: u32 = 0x70;

const PUTC: u32 = 0x90;

/// The greatest count of a counter: 2^47 - 1.
const MOST_COUNT: u64 = (1 << 47) - 1;

/// One more, where a count doesn't stand still.
fn counted(count: u64) -> u64
    ensures { result ≡ counted count }
{
    if count < MOST_COUNT { count + 1 } else { count }
}

impl PlainRun {
    /// The address behind the jump that called the entry.
    fn back(&self) -> u32
        requires { register self.now.machine Ra < 2 ^ 32 }
        ensures { result ≡ register self.now.machine Ra }
    {
        self.machine.reg(Reg::Ra) as u32
    }

    /// Goes on behind the jump that called the entry.
    fn go_back(&mut self)
        requires { register self.old.machine Ra < 2 ^ 32 }
        ensures machine { self.new.machine ≡ at_place (register self.old.machine Ra) self.old.machine }
        ensures board { self.new.board ≡ self.old.board }
        ensures code { self.new.code ≡ self.old.code }
        ensures threads { self.new.threads ≡ self.old.threads }
    {
        let back = self.back();
        self.machine.set_pc(back);
    }

    /// The line of the call.
    fn line_of_call(&self, image: &Image) -> Line
        requires low { 0x10004 ≤ register self.now.machine Ra }
        requires high { register self.now.machine Ra < 2 ^ 32 }
        requires inside { word_index (register self.now.machine Ra - 4) < length image.now.lines }
        ensures { slice_get image.now.lines (word_index (register self.now.machine Ra - 4)) ≡ Some result }
    {
        image.lines.as_slice()[word_index(self.back() - 4)]
    }

    /// The register of the fork that called the entry.
    fn handle_of_fork(&self) -> Reg
        requires low { 0x10004 ≤ register self.now.machine Ra }
        requires high { register self.now.machine Ra < 2 ^ 32 }
        requires inside { word_index (register self.now.machine Ra - 4) < length self.now.code.handles.items }
        ensures { slice_get self.now.code.handles.items (word_index (register self.now.machine Ra - 4)) ≡ Some result }
    {
        self.code.handles.as_slice()[word_index(self.back() - 4)]
    }

    /// The thread traps at the call.
    fn trap(&self, image: &Image, kind: TrapKind) -> Ending
        requires low { 0x10004 ≤ register self.now.machine Ra }
        requires high { register self.now.machine Ra < 2 ^ 32 }
        requires inside { word_index (register self.now.machine Ra - 4) < length image.now.lines }
        ensures { (line : Line) × (slice_get image.now.lines (word_index (register self.now.machine Ra - 4)) ≡ Some line) × (result ≡ Trap kind line) }
    {
        Ending::Trap {
            kind,
            line: self.line_of_call(image),
        }
    }

    /// No cell is left.
    fn cells_are_full(&self) -> Ending
        ensures { result ≡ Limit (LimitKind.Cell self.now.threads.cells.most) }
    {
        Ending::Limit(LimitKind::Cell {
            cells: self.threads.cells.most as u32,
        })
    }

    /// `st_fork_in`: the running thread makes a child, which the next jump calls.
    fn fork_in(&mut self) -> Option<Ending>
        requires at { self.old.machine.pc ≡ 0x10 }
        requires serving { ∥ ((image : Image) × IsServing image self.old) ∥₁ }
        ensures { (image : Image) → Served image self.old self.new result }
    {
        if !self.threads.has_room() {
            return Some(self.cells_are_full());
        }
        let handle = self.handle_of_fork();
        self.threads.fork(handle);
        self.go_back();
        None
    }

    /// `st_fork_out`: the running thread has ended with a0, and its parent gets its future.
    fn fork_out(&mut self) -> Option<Ending>
        requires at { self.old.machine.pc ≡ 0x20 }
        requires serving { ∥ ((image : Image) × IsServing image self.old) ∥₁ }
        ensures { (image : Image) → Served image self.old self.new result }
    {
        let note = self.threads.end(self.machine.reg(Reg::A0));
        self.machine.set_reg(note.handle, u64::from(note.cell));
        self.go_back();
        None
    }

    /// `st_touch`: a0 becomes the value of the future in a6.
    fn touch(&mut self, image: &Image) -> Option<Ending>
        requires at { self.old.machine.pc ≡ 0x40 }
        requires serving { ∥ IsServing image.now self.old ∥₁ }
        ensures { Served image.now self.old self.new result }
    {
        match self.threads.cell(self.machine.reg(Reg::A6)) {
            Cell::Future { value: Some(value) } => {
                self.machine.set_reg(Reg::A0, value);
                self.go_back();
                None
            }
            Cell::Future { value: None } => unreachable!(),
            Cell::Counter { .. } => Some(self.trap(image, TrapKind::WrongHandle)),
        }
    }

    /// `st_counter`: a6 becomes a new counter.
    fn counter(&mut self) -> Option<Ending>
        requires at { self.old.machine.pc ≡ 0x50 }
        requires serving { ∥ ((image : Image) × IsServing image self.old) ∥₁ }
        ensures { (image : Image) → Served image self.old self.new result }
    {
        if !self.threads.has_room() {
            return Some(self.cells_are_full());
        }
        let cell = self.threads.counter();
        self.machine.set_reg(Reg::A6, u64::from(cell));
        self.go_back();
        None
    }

    /// `st_done`: adds 1 to the counter in a6.
    fn done(&mut self, image: &Image) -> Option<Ending>
        requires at { self.old.machine.pc ≡ 0x60 }
        requires serving { ∥ IsServing image.now self.old ∥₁ }
        ensures { Served image.now self.old self.new result }
    {
        let number = self.machine.reg(Reg::A6);
        match self.threads.cell(number) {
            Cell::Future { .. } => Some(self.trap(image, TrapKind::WrongHandle)),
            Cell::Counter { count } => {
                self.threads.set_count(number, counted(count));
                self.go_back();
                None
            }
        }
    }

    /// `st_join`: passes where the counter in a6 has at least the count in a0.
    fn join(&mut self, image: &Image) -> Option<Ending>
        requires at { self.old.machine.pc ≡ 0x70 }
        requires serving { ∥ IsServing image.now self.old ∥₁ }
        ensures { Served image.now self.old self.new result }
    {
        match self.threads.cell(self.machine.reg(Reg::A6)) {
            Cell::Future { .. } => Some(self.trap(image, TrapKind::WrongHandle)),
            Cell::Counter { count } => {
                if count < self.machine.reg(Reg::A0) {
                    return Some(Ending::Waits {
                        line: self.line_of_call(image),
                    });
                }
                self.go_back();
                None
            }
        }
    }

    /// `st_putc`: the root prints the low byte of a0.
    fn putc(&mut self, image: &Image) -> Option<Ending>
        requires at { self.old.machine.pc ≡ 0x90 }
        requires serving { ∥ IsServing image.now self.old ∥₁ }
        ensures { Served image.now self.old self.new result }
    {
        if !self.threads.is_root() {
            return Some(self.trap(image, TrapKind::PutInChild));
        }
        if !self.threads.may_print() {
            return Some(Ending::OutLimit);
        }
        let byte = (self.machine.reg(Reg::A0) % 256) as u8;
        self.threads.print(byte);
        self.go_back();
        None
    }

    /// `st_poll`: nothing is done.
    fn poll(&mut self) -> Option<Ending>
        requires fork_in { self.old.machine.pc ≢ 0x10 }
        requires fork_out { self.old.machine.pc ≢ 0x20 }
        requires end { self.old.machine.pc ≢ 0x30 }
        requires touch { self.old.machine.pc ≢ 0x40 }
        requires counter { self.old.machine.pc ≢ 0x50 }
        requires done { self.old.machine.pc ≢ 0x60 }
        requires join { self.old.machine.pc ≢ 0x70 }
        requires putc { self.old.machine.pc ≢ 0x90 }
        requires serving { ∥ ((image : Image) × IsServing image self.old) ∥₁ }
        ensures { (image : Image) → Served image self.old self.new result }
    {
        self.go_back();
        None
    }

    /// Serves the entry at which the machine is, which belongs to the item that was begun.
    pub(crate) fn enter(&mut self, image: &Image) -> Option<Ending>
        requires { ∥ IsServing image.now self.old ∥₁ }
        ensures board { self.new.board ≡ self.old.board }
        ensures code { self.new.code ≡ self.old.code }
        ensures most { self.new.threads.cells.most ≡ self.old.threads.cells.most }
        ensures going { result ≡ None → (p : Program) → (d : Data) → (limits : Limits) → (names : List Held) → (s : State) → HasTables p image.now limits self.old → IsAtEntry p limits self.old names s → (step p d s ≡ Undefined → ⊥) → GoesOn p d limits (length self.old.threads.cells.items.items) self.new s }
        ensures over { IfSome result (λ ending. (p : Program) → (d : Data) → (limits : Limits) → (names : List Held) → (s : State) → HasTables p image.now limits self.old → IsAtEntry p limits self.old names s → (step p d s ≡ Undefined → ⊥) → EndsBy p d limits (length self.old.threads.cells.items.items) self.new.threads.notes.items.items self.new.threads.out.items.items s ending) }
    {
        match self.machine.pc() {
            FORK_IN => self.fork_in(),
            FORK_OUT => self.fork_out(),
            END => Some(Ending::Done),
            TOUCH => self.touch(image),
            COUNTER => self.counter(),
            DONE => self.done(image),
            JOIN => self.join(image),
            PUTC => self.putc(image),
            _ => self.poll(),
        }
    }
}
