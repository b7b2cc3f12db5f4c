//! The least of faults: the first by file and line, and on one line the least kind.
ghost use Rattle.std.specs.Prelude.{◌≡◌};
ghost use Rattle.st_check.specs.Faults.{form_number, is_before, lesser, fault_when};
ghost use Rattle.st_check.specs.Views.{least_onto};

use st_base::form::FormKind;
use st_base::line::Line;

/// A line and the kind of its fault.
pub type Fault = (Line, FormKind);

fn form_number(kind: FormKind) -> u32
    ensures { result ≡ form_number kind }
{
    match kind {
        FormKind::NoMain => 1,
        FormKind::Prologue => 2,
        FormKind::Epilogue => 3,
        FormKind::FrameSize => 4,
        FormKind::SlotRange => 5,
        FormKind::Partition => 6,
        FormKind::NotSaved => 7,
        FormKind::BranchOut => 8,
        FormKind::FallsOut => 9,
        FormKind::ForkPlace => 10,
        FormKind::UndefinedRead => 11,
        FormKind::BadCall => 12,
    }
}

fn is_before(a: Fault, b: Fault) -> bool
    ensures { result ≡ is_before a b }
{
    a.0.file < b.0.file
        || (a.0.file == b.0.file
            && (a.0.line < b.0.line
                || (a.0.line == b.0.line && form_number(a.1) < form_number(b.1))))
}

fn lesser(a: Fault, best: Option<Fault>) -> Fault
    ensures { result ≡ lesser a best }
{
    match best {
        Some(b) => if is_before(b, a) { b } else { a },
        None => a,
    }
}

/// The least of faults behind one that may stand before them, where its test says so.
pub fn with_fault(test: bool, line: Line, kind: FormKind, best: Option<Fault>) -> Option<Fault>
    ensures { result ≡ least_onto (fault_when test line kind) best }
{
    if test {
        Some(lesser((line, kind), best))
    } else {
        best
    }
}
