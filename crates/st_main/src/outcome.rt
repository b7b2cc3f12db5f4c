//! What the program comes to, before anything is printed: the bytes to print and the fault to tell.
ghost use Rattle.std.specs.Prelude.{◌≡◌, Result, IfOk, IfErr};

use st_base::limits::LimitKind;
use st_base::path::Bytes;
use st_model::ordinary::OrdEnd;
use st_plain::PlainEnd;
use st_print::Fault;
use std::alloc::Global;

/// The bytes to print and the fault to tell, if there is one. How the program exits goes by the fault.
#[derive(Drop)]
pub struct Outcome {
    pub printed: Bytes,
    pub fault: Option<Fault>,
}

impl Outcome {
    ghost use Rattle.std.specs.Prelude.{None, Some, []};
    ghost use Rattle.st_main.specs.Answer.{fault_outcome, outcome_of_end, text_outcome};
    ghost use Rattle.st_main.specs.Running.{outcome_of_plain};
    ghost use Rattle.st_main.specs.Making.{outcome_of};

    /// What was made, or else the outcome of a fault.
    pub fn of(alloc: Global, made: Result<Outcome, Fault>) -> Outcome
        ensures { result ≡ outcome_of made }
    {
        match made {
            Ok(outcome) => outcome,
            Err(fault) => Outcome::of_fault(alloc, fault),
        }
    }

    /// The outcome of a fault at which nothing is printed.
    pub fn of_fault(alloc: Global, fault: Fault) -> Outcome
        ensures { result ≡ fault_outcome fault }
    {
        Outcome {
            printed: Bytes::new(alloc),
            fault: Some(fault),
        }
    }

    /// The outcome that prints a text.
    pub fn of_text(text: Vec<u8>) -> Outcome
        ensures { result ≡ text_outcome text.items }
    {
        Outcome {
            printed: Bytes::from_vec(text),
            fault: None,
        }
    }

    /// The outcome of a run of unchanged code.
    pub fn of_plain(alloc: Global, end: PlainEnd) -> Outcome
        ensures { result ≡ outcome_of_plain end }
    {
        match end {
            PlainEnd::Ended(end) => Outcome::of_end(alloc, end),
            PlainEnd::Limit(kind) => Outcome::of_fault(alloc, Fault::Limit(kind)),
        }
    }

    /// The outcome of an end of the ordinary-call run. A run that goes on has met the limit of steps.
    fn of_end(alloc: Global, end: OrdEnd) -> Outcome
        ensures { result ≡ outcome_of_end end }
    {
        match end {
            OrdEnd::Going => {
                Outcome::of_fault(alloc, Fault::Limit(LimitKind::Step { worker: 0 }))
            }
            OrdEnd::Done { out } => Outcome {
                printed: out,
                fault: None,
            },
            OrdEnd::Trap {
                kind,
                line,
                path,
                out,
            } => Outcome {
                printed: out,
                fault: Some(Fault::Trap { line, kind, path }),
            },
            OrdEnd::Waits { line, path, out } => Outcome {
                printed: out,
                fault: Some(Fault::Waits { line, path }),
            },
            OrdEnd::OutLimit { out } => Outcome {
                printed: out,
                fault: Some(Fault::Limit(LimitKind::Out)),
            },
        }
    }
}
