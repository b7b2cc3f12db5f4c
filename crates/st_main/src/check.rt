//! The command `check`.
ghost use Rattle.std.specs.Prelude.{◌≡◌, ◌≤◌, ℕ, List, length, map, Ok, IfOk, IfErr, IfSome, string_bytes};
ghost use Rattle.st_asm.specs.Assembly.{Parts, unit_of};
ghost use Rattle.st_jobs.specs.Jobs.{file_texts};
ghost use Rattle.st_print.specs.Telling.{NamesFiles};
ghost use Rattle.st_main.specs.Answer.{Answers, AnswersFiles, IsAcceptedUnitOf, IsCanonical, IsCheckOutcome, IsUnaccepted, library_of, output_of, text_outcome};
ghost use Rattle.st_main.specs.Complete.{CompletesFiles};
ghost use Rattle.st_main.specs.Making.{IsNamed, MemoryOr, outcome_of};

use crate::exit::Exit;
use crate::outcome::Outcome;
use crate::reading::read_files;
use crate::report::finish;
use crate::texts::{accept_unit, make_unit};
use st_base::outside::{Files, Sink};
use st_jobs::Names;
use st_print::{Fault, unit_text};
use std::alloc::Global;

/// The canonical text of the accepted unit of 1 to 64 texts, or their first fault.
fn check_texts(alloc: Global, texts: &[Vec<u8>]) -> Result<Vec<u8>, Fault>
    requires some { 1 ≤ length texts.now }
    requires few { length texts.now ≤ 64 }
    ensures text { IfOk result (λ text. (parts : Parts) × IsAcceptedUnitOf (unit_of (map (λ t. t.items) texts.now)) parts × IsCanonical parts (text_outcome text.items)) }
    ensures fault { IfErr result (MemoryOr (IsUnaccepted (unit_of (map (λ t. t.items) texts.now)))) }
    ensures names { IfErr result (IsNamed (length texts.now)) }
{
    let unit = make_unit(alloc, texts)?;
    let checked = accept_unit(alloc, &unit)?;
    let text = unit_text(alloc, checked.unit())?;
    Ok(text)
}

/// What the texts of 1 to 64 files come to.
fn check_files<F: Files>(alloc: Global, files: &mut F, names: &[String]) -> Result<Outcome, Fault>
    requires some { 1 ≤ length names.now }
    requires few { length names.now ≤ 64 }
    ensures answer { AnswersFiles IsCheckOutcome (library_of (F.contents files.old) (F.faults files.old) (F.faults files.new)) (map (λ n. string_bytes n) names.now) (outcome_of result) }
    ensures names { IfSome (outcome_of result).fault (NamesFiles (map (λ n. string_bytes n) names.now)) }
{
    let texts = read_files(alloc, files, names)?;
    let text = check_texts(alloc, texts.as_slice())?;
    Ok(Outcome::of_text(text))
}

/// Reads the files in their order, and prints the canonical text of their unit where it is accepted; else tells its first fault.
/// Nothing is printed on any other end.
pub fn check_command<F: Files, K: Sink>(
    alloc: Global,
    args: &Names,
    files: &mut F,
    out: &mut K,
    err: &mut K,
) -> Exit
    ensures answer { Answers (AnswersFiles IsCheckOutcome (library_of (F.contents files.old) (F.faults files.old) (F.faults files.new)) (file_texts args.now)) (file_texts args.now) (output_of (K.faults out.old) (K.faults out.new) (K.taken out.old) (K.taken out.new)) (output_of (K.faults err.old) (K.faults err.new) (K.taken err.old) (K.taken err.new)) result }
    ensures complete { CompletesFiles IsCheckOutcome IsAcceptedUnitOf IsCanonical (library_of (F.contents files.old) (F.faults files.old) (F.faults files.new)) (file_texts args.now) (output_of (K.faults out.old) (K.faults out.new) (K.taken out.old) (K.taken out.new)) (output_of (K.faults err.old) (K.faults err.new) (K.taken err.old) (K.taken err.new)) result }
{
    let names = args.as_slice();
    let outcome = Outcome::of(alloc, check_files(alloc, files, names));
    finish(out, err, names, outcome)
}
