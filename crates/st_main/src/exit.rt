//! How the program ends.
ghost use Rattle.std.specs.Prelude.{◌≡◌};

use st_base::limits::LimitKind;
use st_print::Fault;

/// How the program ends. Its status is 0 to 9, in this order.
#[derive(Clone, Copy, PartialEq, Eq, Debug)]
pub enum Exit {
    Done,
    /// The words are no command.
    Usage,
    /// The text is not accepted.
    Refused,
    /// A thread trapped.
    Trap,
    /// Threads wait for ever.
    Deadlock,
    Limit(LimitKind),
    /// A file or the input could not be read.
    ReadFault,
    /// The output was not taken.
    WriteFault,
    OutOfMemory,
    /// The ordinary-call run waits.
    Waits,
}

impl Exit {
    ghost use Rattle.st_main.specs.Exit.{exit_at, status_of};

    /// How the program ends at a fault.
    pub fn at(fault: &Fault) -> Exit
        ensures { result ≡ exit_at fault.now }
    {
        match fault {
            Fault::Usage => Exit::Usage,
            Fault::Reading(_) | Fault::Checking { .. } | Fault::Linking { .. } => Exit::Refused,
            Fault::Trap { .. } => Exit::Trap,
            Fault::Deadlock { .. } => Exit::Deadlock,
            Fault::Waits { .. } => Exit::Waits,
            Fault::Limit(kind) => Exit::Limit(*kind),
            Fault::ReadFile { .. } | Fault::ReadInput => Exit::ReadFault,
            Fault::Write => Exit::WriteFault,
            Fault::OutOfMemory => Exit::OutOfMemory,
        }
    }

    /// The status with which the process ends.
    pub fn status(self) -> u8
        ensures { result ≡ status_of self }
    {
        match self {
            Exit::Done => 0,
            Exit::Usage => 1,
            Exit::Refused => 2,
            Exit::Trap => 3,
            Exit::Deadlock => 4,
            Exit::Limit(_) => 5,
            Exit::ReadFault => 6,
            Exit::WriteFault => 7,
            Exit::OutOfMemory => 8,
            Exit::Waits => 9,
        }
    }
}
