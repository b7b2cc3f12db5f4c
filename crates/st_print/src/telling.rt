//! Telling faults, each in one line, without taking memory.
ghost use Rattle.std.specs.Prelude.{◌≡◌, ◌≤◌, ◌<◌, ℕ, List, take, map, ◌++◌, OnOk, OnErr, codes, decimal};
ghost use Rattle.std.specs.Fmt.{signed_decimal};
ghost use Rattle.std.specs.String.{string_bytes};
ghost use Rattle.st_base.specs.Outside.{HasRisen, Appends};
ghost use Rattle.st_print.specs.Joined.{Puts, joined};
ghost use Rattle.st_print.specs.Telling.{form_text, trap_text, numbers_after, numbers_text, path_text, file_text, line_text, limit_text, fault_text, HasName, NamesFiles};

use crate::fault::Fault;
use crate::output::{put_all, put_pieces};
use itoa::Buffer;
use st_base::form::FormKind;
use st_base::limits::LimitKind;
use st_base::line::Line;
use st_base::outside::{Failed, Sink};
use st_base::path::Path;
use st_base::thread::TrapKind;

/// A fault of form as it is printed, such as `F4 FrameSize`.
pub fn form_text(kind: FormKind) -> &'static str
    ensures { result.now ≡ form_text kind }
{
    match kind {
        FormKind::NoMain => "F1 NoMain",
        FormKind::Prologue => "F2 Prologue",
        FormKind::Epilogue => "F3 Epilogue",
        FormKind::FrameSize => "F4 FrameSize",
        FormKind::SlotRange => "F5 SlotRange",
        FormKind::Partition => "F6 Partition",
        FormKind::NotSaved => "F7 NotSaved",
        FormKind::BranchOut => "F8 BranchOut",
        FormKind::FallsOut => "F9 FallsOut",
        FormKind::ForkPlace => "F10 ForkPlace",
        FormKind::UndefinedRead => "F11 UndefinedRead",
        FormKind::BadCall => "F12 BadCall",
    }
}

/// The name of a trap.
pub fn trap_text(kind: TrapKind) -> &'static str
    ensures { result.now ≡ trap_text kind }
{
    match kind {
        TrapKind::LoadRange => "LoadRange",
        TrapKind::Misaligned => "Misaligned",
        TrapKind::WrongHandle => "WrongHandle",
        TrapKind::PutInChild => "PutInChild",
        TrapKind::Abort => "Abort",
    }
}

/// The name of a file, which is counted from 1.
fn file_name<'n>(names: &'n [String], file: u32) -> &'n [u8]
    requires { HasName (map (λ n. string_bytes n) names.now) file }
    ensures { result.now ≡ file_text (map (λ n. string_bytes n) names.now) file }
{
    names[file as usize - 1].as_bytes()
}

/// Puts the place of a line, such as `prog.s:3: `.
fn put_line<K: Sink>(to: &mut K, names: &[String], line: Line) -> Result<(), Failed>
    requires { HasName (map (λ n. string_bytes n) names.now) line.file }
    ensures { Puts (line_text (map (λ n. string_bytes n) names.now) line) result (K.faults to.old) (K.faults to.new) (K.taken to.old) (K.taken to.new) }
{
    let mut digits = Buffer::new();
    let name = file_name(names, line.file);
    let number = digits.format(line.line).as_bytes();
    put_pieces(to, &[name, b":", number, b": "])
}

/// Puts the place of a line and words about it.
fn put_told<K: Sink>(
    to: &mut K,
    names: &[String],
    line: Line,
    words: &[&[u8]],
) -> Result<(), Failed>
    requires { HasName (map (λ n. string_bytes n) names.now) line.file }
    ensures { Puts (line_text (map (λ n. string_bytes n) names.now) line ++ joined (map (λ p. p.now) words.now)) result (K.faults to.old) (K.faults to.new) (K.taken to.old) (K.taken to.new) }
{
    put_line(to, names, line)?;
    put_pieces(to, words)
}

/// Puts a number.
fn put_number<K: Sink>(to: &mut K, number: u32) -> Result<(), Failed>
    ensures { Puts (decimal number) result (K.faults to.old) (K.faults to.new) (K.taken to.old) (K.taken to.new) }
{
    let mut digits = Buffer::new();
    put_all(to, digits.format(number).as_bytes())
}

/// Puts a number behind a comma.
fn put_number_after<K: Sink>(to: &mut K, number: u32) -> Result<(), Failed>
    ensures { Puts (codes "," ++ decimal number) result (K.faults to.old) (K.faults to.new) (K.taken to.old) (K.taken to.new) }
{
    let mut digits = Buffer::new();
    put_pieces(to, &[b",", digits.format(number).as_bytes()])
}

/// Puts numbers, each behind a comma.
fn put_numbers_after<K: Sink>(to: &mut K, numbers: &[u32]) -> Result<(), Failed>
    ensures { Puts (numbers_after numbers.now) result (K.faults to.old) (K.faults to.new) (K.taken to.old) (K.taken to.new) }
{
    for number in numbers {
        put_number_after(to, *number)?;
    }
    Ok(())
}

/// Puts numbers, separated by commas.
fn put_numbers<K: Sink>(to: &mut K, numbers: &[u32]) -> Result<(), Failed>
    ensures { Puts (numbers_text numbers.now) result (K.faults to.old) (K.faults to.new) (K.taken to.old) (K.taken to.new) }
{
    match numbers {
        [] => put_all(to, b""),
        [first, rest @ ..] => {
            put_number(to, *first)?;
            put_numbers_after(to, rest)
        }
    }
}

/// Puts the numbers of a path in brackets, and the line's end.
fn put_path<K: Sink>(to: &mut K, path: &Path) -> Result<(), Failed>
    ensures { Puts (path_text path.now ++ codes "\n") result (K.faults to.old) (K.faults to.new) (K.taken to.old) (K.taken to.new) }
{
    put_all(to, b"[")?;
    put_numbers(to, path.numbers())?;
    put_all(to, b"]\n")
}

/// Puts what is told of a thread at a line.
fn put_in_thread<K: Sink>(
    to: &mut K,
    names: &[String],
    line: Line,
    words: &[&[u8]],
    path: &Path,
) -> Result<(), Failed>
    requires { HasName (map (λ n. string_bytes n) names.now) line.file }
    ensures { Puts ((line_text (map (λ n. string_bytes n) names.now) line ++ joined (map (λ p. p.now) words.now)) ++ (path_text path.now ++ codes "\n")) result (K.faults to.old) (K.faults to.new) (K.taken to.old) (K.taken to.new) }
{
    put_told(to, names, line, words)?;
    put_path(to, path)
}

/// Puts which limit was met.
fn put_limit<K: Sink>(to: &mut K, kind: LimitKind) -> Result<(), Failed>
    ensures { Puts (limit_text kind ++ codes "\n") result (K.faults to.old) (K.faults to.new) (K.taken to.old) (K.taken to.new) }
{
    let mut digits = Buffer::new();
    let mut more = Buffer::new();
    match kind {
        LimitKind::Stack { worker, frame } => put_pieces(
            to,
            &[
                b"limit Stack worker ",
                digits.format(worker).as_bytes(),
                b" frame ",
                more.format(frame).as_bytes(),
                b"\n",
            ],
        ),
        LimitKind::Cell { cells } => put_pieces(
            to,
            &[b"limit Cell ", digits.format(cells).as_bytes(), b"\n"],
        ),
        LimitKind::Step { worker } => put_pieces(
            to,
            &[
                b"limit Step worker ",
                digits.format(worker).as_bytes(),
                b"\n",
            ],
        ),
        LimitKind::Out => put_all(to, b"limit Out\n"),
        LimitKind::Input => put_all(to, b"limit Input\n"),
        LimitKind::Turn => put_all(to, b"limit Turn\n"),
    }
}

/// Puts that a branch doesn't reach its target at this distance.
fn put_distance<K: Sink>(
    to: &mut K,
    names: &[String],
    line: Line,
    distance: i64,
) -> Result<(), Failed>
    requires { HasName (map (λ n. string_bytes n) names.now) line.file }
    ensures { Puts ((line_text (map (λ n. string_bytes n) names.now) line ++ codes "L1 BranchRange " ++ signed_decimal distance) ++ codes "\n") result (K.faults to.old) (K.faults to.new) (K.taken to.old) (K.taken to.new) }
{
    let mut digits = Buffer::new();
    let number = digits.format(distance).as_bytes();
    put_told(to, names, line, &[b"L1 BranchRange ", number, b"\n"])
}

#[tactic(auto, unfolding(crate::specs::Telling::fault_text))]
/// Puts the text of a fault and the line's end, and takes no memory. Where it fails a prefix was taken. `names` has the
/// words that named the files, in their order.
pub fn write_fault<K: Sink>(f: &Fault, names: &[String], to: &mut K) -> Result<(), Failed>
    requires { NamesFiles (map (λ n. string_bytes n) names.now) f.now }
    ensures { Puts (fault_text (map (λ n. string_bytes n) names.now) f.now) result (K.faults to.old) (K.faults to.new) (K.taken to.old) (K.taken to.new) }
{
    match f {
        Fault::Usage => put_all(to, b"usage: st_main COMMAND [OPTIONS] FILE...\n"),
        Fault::Reading(fault) => put_told(
            to,
            names,
            fault.line,
            &[fault.kind.text().as_bytes(), b"\n"],
        ),
        Fault::Checking { line, kind } => {
            put_told(to, names, *line, &[form_text(*kind).as_bytes(), b"\n"])
        }
        Fault::Linking { line, distance } => put_distance(to, names, *line, *distance),
        Fault::Trap { line, kind, path } => put_in_thread(
            to,
            names,
            *line,
            &[b"trap ", trap_text(*kind).as_bytes(), b" in thread "],
            path,
        ),
        Fault::Deadlock { line, path } => {
            put_in_thread(to, names, *line, &[b"deadlock in thread "], path)
        }
        Fault::Waits { line, path } => {
            put_in_thread(to, names, *line, &[b"waits in thread "], path)
        }
        Fault::Limit(kind) => put_limit(to, *kind),
        Fault::ReadFile { file } => {
            put_pieces(to, &[b"read fault ", file_name(names, *file), b"\n"])
        }
        Fault::ReadInput => put_all(to, b"read fault input\n"),
        Fault::Write => put_all(to, b"write fault\n"),
        Fault::OutOfMemory => put_all(to, b"out of memory\n"),
    }
}
