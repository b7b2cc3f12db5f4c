//! Texts of faults (st_print), put into a sink whose call of a number fails.
ghost use Rattle.std.specs.Prelude.{map};
ghost use Rattle.std.specs.String.{string_bytes};
ghost use Rattle.st_print.specs.Telling.{NamesFiles};

use crate::texts::escaped;
use st_base::form::FormKind;
use st_base::limits::LimitKind;
use st_base::line::Line;
use st_base::outside_memory::MemSink;
use st_base::path::Path;
use st_base::thread::TrapKind;
use st_line::{AsmFault, AsmKind};
use st_print::{Fault, write_fault};
use std::alloc::{AllocError, Global};

const AT: Line = Line { file: 2, line: 31 };

fn path(alloc: Global) -> Result<Path, AllocError> {
    Path::root(alloc).child(alloc, 0)?.child(alloc, 12)
}

fn two_names(alloc: Global) -> Result<Vec<String>, AllocError> {
    let names = vec![in alloc;
        String::from_str(alloc, "a.s")?,
        String::from_str(alloc, "b.s")?,
    ]?;
    Ok(names)
}

/// How a fault is told: what was taken, behind a bar where a call failed.
fn told(alloc: Global, names: &[String], fault: &Fault, fails: u64) -> Result<String, AllocError>
    requires { NamesFiles (map (λ n. string_bytes n) names.now) fault.now }
{
    let mut sink = MemSink::open(alloc, 200, vec![in alloc; fails]?)?;
    let is_done = write_fault(fault, names, &mut sink).is_ok();
    let text = escaped(alloc, sink.taken())?;
    format!(in alloc; "{text}{}", if is_done { "" } else { "|" })
}

/// Faults at a line.
fn at_line(alloc: Global, names: &[String], name: &str, fails: u64) -> Result<String, AllocError> {
    if names.len() != 2 {
        return String::from_str(alloc, "no two names");
    }
    match name {
        "reading" => {
            let fault = AsmFault {
                line: AT,
                kind: AsmKind::ImmRange,
            };
            told(alloc, names, &Fault::Reading(fault), fails)
        }
        "checking" => {
            let kind = FormKind::ForkPlace;
            told(alloc, names, &Fault::Checking { line: AT, kind }, fails)
        }
        "linking" => {
            let distance = -4098;
            told(alloc, names, &Fault::Linking { line: AT, distance }, fails)
        }
        "file" => told(alloc, names, &Fault::ReadFile { file: 1 }, fails),
        _ => in_thread(alloc, names, name, fails),
    }
}

/// Ends in a thread.
fn in_thread(
    alloc: Global,
    names: &[String],
    name: &str,
    fails: u64,
) -> Result<String, AllocError> {
    if names.len() != 2 {
        return String::from_str(alloc, "no two names");
    }
    let path = path(alloc)?;
    match name {
        "trap" => {
            let kind = TrapKind::WrongHandle;
            told(
                alloc,
                names,
                &Fault::Trap {
                    line: AT,
                    kind,
                    path,
                },
                fails,
            )
        }
        "waits" => told(alloc, names, &Fault::Waits { line: AT, path }, fails),
        "deadlock" => {
            let path = Path::root(alloc);
            told(alloc, names, &Fault::Deadlock { line: AT, path }, fails)
        }
        _ => String::from_str(alloc, "no such fault"),
    }
}

fn limit(name: &str) -> Option<LimitKind> {
    match name {
        "stack" => Some(LimitKind::Stack {
            worker: 15,
            frame: 64,
        }),
        "cell" => Some(LimitKind::Cell { cells: 65_536 }),
        "step" => Some(LimitKind::Step { worker: 0 }),
        "out" => Some(LimitKind::Out),
        "in" => Some(LimitKind::Input),
        "turn" => Some(LimitKind::Turn),
        _ => None,
    }
}

/// A fault by its name, where the sink's call of the number behind it fails: `NAME FAILS`.
pub fn telling(alloc: Global, text: &str) -> Result<String, AllocError> {
    let (name, fails) = text.split_once(' ').unwrap_or((text, "0"));
    let fails: u64 = fails.parse().unwrap_or(0);
    if let Some(kind) = limit(name) {
        return told(alloc, &[], &Fault::Limit(kind), fails);
    }
    match name {
        "usage" => told(alloc, &[], &Fault::Usage, fails),
        "input" => told(alloc, &[], &Fault::ReadInput, fails),
        "write" => told(alloc, &[], &Fault::Write, fails),
        "memory" => told(alloc, &[], &Fault::OutOfMemory, fails),
        _ => {
            let names = two_names(alloc)?;
            at_line(alloc, names.as_slice(), name, fails)
        }
    }
}
