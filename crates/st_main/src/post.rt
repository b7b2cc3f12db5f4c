//! The command `post`.
ghost use Rattle.std.specs.Prelude.{◌≡◌, ◌≤◌, ℕ, List, length, map, None, Ok, IfOk, IfErr, IfSome, string_bytes};
ghost use Rattle.st_asm.specs.Assembly.{Parts, unit_of};
ghost use Rattle.st_jobs.specs.Jobs.{file_texts};
ghost use Rattle.st_model.specs.Layout.{far_branch};
ghost use Rattle.st_print.specs.Telling.{NamesFiles};
ghost use Rattle.st_check.specs.Programs.{program_of as program_of'};
ghost use Rattle.st_main.specs.Answer.{Answers, AnswersFiles, IsLinkFault, IsListing, IsListingOf, IsPostOutcome, IsRunnable, RefusesTexts, library_of, output_of, text_outcome};
ghost use Rattle.st_main.specs.Complete.{CompletesFiles};
ghost use Rattle.st_main.specs.Making.{IsNamed, MemoryOr, outcome_of};

use crate::exit::Exit;
use crate::listing::listing;
use crate::outcome::Outcome;
use crate::reading::read_files;
use crate::report::finish;
use crate::texts::{accept_unit, far_fault, make_unit};
use st_base::outside::{Files, Sink};
use st_check::Checked;
use st_jobs::Names;
use st_link::{LinkError, link};
use st_post::postprocess;
use st_print::Fault;
use std::alloc::Global;

/// The listing of an accepted unit's postprocessed code, or its first branch that doesn't reach.
fn post_checked(alloc: Global, checked: &Checked<'_>) -> Result<Vec<u8>, Fault>
    ensures text { IfOk result (λ text. (far_branch (program_of' checked.now.unit.now.functions) ≡ None) × IsListingOf checked.now.unit.now.functions (text_outcome text.items)) }
    ensures fault { IfErr result (MemoryOr (IsLinkFault checked.now.unit.now.functions)) }
    ensures names { IfErr result (λ fault. (texts : List (List ℕ)) → (parts : Parts) → unit_of texts ≡ Ok parts → parts.functions ≡ checked.now.unit.now.functions → IsNamed (length texts) fault) }
{
    let posted = postprocess(alloc, checked)?;
    match link(alloc, &posted) {
        Ok(image) => {
            let text = listing(alloc, posted.functions(), image.words.as_slice())?;
            Ok(text)
        }
        Err(LinkError::Fault(fault)) => Err(far_fault(&fault)),
        Err(LinkError::OutOfMemory) => Err(Fault::OutOfMemory),
    }
}

/// The listing of the postprocessed code of 1 to 64 texts, or the fault at which they are refused.
fn post_texts(alloc: Global, texts: &[Vec<u8>]) -> Result<Vec<u8>, Fault>
    requires some { 1 ≤ length texts.now }
    requires few { length texts.now ≤ 64 }
    ensures text { IfOk result (λ text. (parts : Parts) × IsRunnable (unit_of (map (λ t. t.items) texts.now)) parts × IsListing parts (text_outcome text.items)) }
    ensures fault { IfErr result (MemoryOr (RefusesTexts (unit_of (map (λ t. t.items) texts.now)))) }
    ensures names { IfErr result (IsNamed (length texts.now)) }
{
    let unit = make_unit(alloc, texts)?;
    let checked = accept_unit(alloc, &unit)?;
    let text = post_checked(alloc, &checked)?;
    Ok(text)
}

/// What the texts of 1 to 64 files come to.
fn post_files<F: Files>(alloc: Global, files: &mut F, names: &[String]) -> Result<Outcome, Fault>
    requires some { 1 ≤ length names.now }
    requires few { length names.now ≤ 64 }
    ensures answer { AnswersFiles IsPostOutcome (library_of (F.contents files.old) (F.faults files.old) (F.faults files.new)) (map (λ n. string_bytes n) names.now) (outcome_of result) }
    ensures names { IfSome (outcome_of result).fault (NamesFiles (map (λ n. string_bytes n) names.now)) }
{
    let texts = read_files(alloc, files, names)?;
    let text = post_texts(alloc, texts.as_slice())?;
    Ok(Outcome::of_text(text))
}

/// Reads the files in their order, and prints the listing of their unit's postprocessed code where it is accepted and its branches
/// reach; else tells its first fault. Nothing is printed on any other end.
pub fn post_command<F: Files, K: Sink>(
    alloc: Global,
    args: &Names,
    files: &mut F,
    out: &mut K,
    err: &mut K,
) -> Exit
    ensures answer { Answers (AnswersFiles IsPostOutcome (library_of (F.contents files.old) (F.faults files.old) (F.faults files.new)) (file_texts args.now)) (file_texts args.now) (output_of (K.faults out.old) (K.faults out.new) (K.taken out.old) (K.taken out.new)) (output_of (K.faults err.old) (K.faults err.new) (K.taken err.old) (K.taken err.new)) result }
    ensures complete { CompletesFiles IsPostOutcome IsRunnable IsListing (library_of (F.contents files.old) (F.faults files.old) (F.faults files.new)) (file_texts args.now) (output_of (K.faults out.old) (K.faults out.new) (K.taken out.old) (K.taken out.new)) (output_of (K.faults err.old) (K.faults err.new) (K.taken err.old) (K.taken err.new)) result }
{
    let names = args.as_slice();
    let outcome = Outcome::of(alloc, post_files(alloc, files, names));
    finish(out, err, names, outcome)
}
