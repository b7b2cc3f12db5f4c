//! Printing and telling an outcome. Nothing else puts anything on the outputs.
ghost use Rattle.std.specs.Prelude.{◌≡◌, IfSome, map, string_bytes};
ghost use Rattle.st_print.specs.Telling.{fault_text, NamesFiles};
ghost use Rattle.st_main.specs.Answer.{ComesAbout, Tells, output_of};

use crate::exit::Exit;
use crate::outcome::Outcome;
use st_base::outside::Sink;
use st_print::{Fault, put_all, write_fault};

/// Tells a fault; a sink that fails takes a prefix of its text.
fn tell<K: Sink>(err: &mut K, names: &[String], fault: &Fault)
    requires { NamesFiles (map (λ n. string_bytes n) names.now) fault.now }
    ensures { Tells (output_of (K.faults err.old) (K.faults err.new) (K.taken err.old) (K.taken err.new)) (fault_text (map (λ n. string_bytes n) names.now) fault.now) }
{
    let _ = write_fault(fault, names, err);
}

/// Prints the bytes of an outcome and tells its fault, or tells that the bytes weren't all taken, and answers how the program
/// exits.
pub fn finish<K: Sink>(out: &mut K, err: &mut K, names: &[String], outcome: Outcome) -> Exit
    requires { IfSome outcome.fault (NamesFiles (map (λ n. string_bytes n) names.now)) }
    ensures { ComesAbout (map (λ n. string_bytes n) names.now) outcome (output_of (K.faults out.old) (K.faults out.new) (K.taken out.old) (K.taken out.new)) (output_of (K.faults err.old) (K.faults err.new) (K.taken err.old) (K.taken err.new)) result }
{
    if put_all(out, outcome.printed.as_slice()).is_err() {
        tell(err, names, &Fault::Write);
        return Exit::at(&Fault::Write);
    }
    match &outcome.fault {
        None => Exit::Done,
        Some(fault) => {
            tell(err, names, fault);
            Exit::at(fault)
        }
    }
}
