//! Faults, as they are told in one line.
use st_base::form::FormKind;
use st_base::limits::LimitKind;
use st_base::line::Line;
use st_base::path::Path;
use st_base::thread::TrapKind;
use st_line::AsmFault;
use std::alloc::{AllocError, AllocFailed};

/// A fault, or an end that is told like one. Files are counted from 1, as in `Line`.
#[derive(Drop)]
pub enum Fault {
    /// The words are no command.
    Usage,
    /// A text can't be read.
    Reading(AsmFault),
    /// The unit isn't accepted.
    Checking {
        line: Line,
        kind: FormKind,
    },
    /// A branch doesn't reach its target at this distance, in bytes.
    Linking {
        line: Line,
        distance: i64,
    },
    /// A thread trapped.
    Trap {
        line: Line,
        kind: TrapKind,
        path: Path,
    },
    /// No thread has a step left, and this one waits.
    Deadlock {
        line: Line,
        path: Path,
    },
    /// The ordinary-call run waits.
    Waits {
        line: Line,
        path: Path,
    },
    Limit(LimitKind),
    /// A file could not be read.
    ReadFile {
        file: u32,
    },
    /// The input could not be read.
    ReadInput,
    /// The output was not taken.
    Write,
    OutOfMemory,
}

impl From<AllocError> for Fault {
    ghost use Rattle.std.specs.Prelude.{◌≡◌};
    ghost use Rattle.st_print.specs.declared.fault.Fault.TheVariants.{OutOfMemory};

    ghost from_gives = { λ _ e. e ≡ OutOfMemory };

    fn from(_: AllocError) -> Self {
        Fault::OutOfMemory
    }
}

impl<T: Drop> From<AllocFailed<T>> for Fault {
    ghost use Rattle.std.specs.Prelude.{◌≡◌};
    ghost use Rattle.st_print.specs.declared.fault.Fault.TheVariants.{OutOfMemory};

    ghost from_gives = { λ _ e. e ≡ OutOfMemory };

    fn from(_: AllocFailed<T>) -> Self {
        Fault::OutOfMemory
    }
}
