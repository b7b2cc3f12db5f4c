//! The commands `run`, with one worker, and `plain`: the unchanged code of a program is run on one stack.
ghost use Rattle.std.specs.Prelude.{◌≡◌, ◌≤◌, ℕ, List, length, map, Ok, IfOk, IfErr, IfSome, string_bytes};
ghost use Rattle.st_asm.specs.Assembly.{Parts, unit_of};
ghost use Rattle.st_asm.specs.Reading.{parts_of};
ghost use Rattle.st_jobs.specs.Jobs.{file_texts};
ghost use Rattle.st_plain.specs.Answer.{HasProgram, bounds_of};
ghost use Rattle.st_print.specs.Telling.{NamesFiles};
ghost use Rattle.st_main.specs.Answer.{Answers, AnswersInput, AnswersRun, IsLinkFault, RefusesTexts, RunsTo, intake_of, library_of, output_of};
ghost use Rattle.st_main.specs.Complete.{CompletesRun};
ghost use Rattle.st_main.specs.Making.{IsNamed, MayBe, MemoryOr, outcome_of};
ghost use Rattle.st_main.specs.Running.{EndsSo, IsImageOfFiles, IsImageOfTexts, IsImageOfUnit};

use crate::exit::Exit;
use crate::input::read_input;
use crate::outcome::Outcome;
use crate::reading::read_files;
use crate::report::finish;
use crate::texts::{accept_unit, far_fault, make_unit};
use st_base::image::Image;
use st_base::limits::Limits;
use st_base::outside::{Files, Sink, Source};
use st_check::Checked;
use st_jobs::RunArgs;
use st_link::{LinkError, link_plain};
use st_plain::plain;
use st_print::Fault;
use std::alloc::{AllocError, Global};

/// The image of the unchanged code of an accepted unit, or its first branch that doesn't reach.
fn link_checked(alloc: Global, checked: &Checked<'_>) -> Result<Image, Fault>
    ensures image { IfOk result (IsImageOfUnit (parts_of checked.now.unit.now)) }
    ensures fault { IfErr result (MemoryOr (IsLinkFault checked.now.unit.now.functions)) }
    ensures names { IfErr result (λ fault. (texts : List (List ℕ)) → (parts : Parts) → unit_of texts ≡ Ok parts → parts.functions ≡ checked.now.unit.now.functions → IsNamed (length texts) fault) }
{
    match link_plain(alloc, checked) {
        Ok(image) => Ok(image),
        Err(LinkError::Fault(fault)) => Err(far_fault(&fault)),
        Err(LinkError::OutOfMemory) => Err(Fault::OutOfMemory),
    }
}

/// The image of the code of 1 to 64 texts, or the fault at which they are refused.
fn build(alloc: Global, texts: &[Vec<u8>]) -> Result<Image, Fault>
    requires some { 1 ≤ length texts.now }
    requires few { length texts.now ≤ 64 }
    ensures image { IfOk result (IsImageOfTexts (map (λ t. t.items) texts.now)) }
    ensures fault { IfErr result (MemoryOr (RefusesTexts (unit_of (map (λ t. t.items) texts.now)))) }
    ensures names { IfErr result (IsNamed (length texts.now)) }
{
    let unit = make_unit(alloc, texts)?;
    let checked = accept_unit(alloc, &unit)?;
    let image = link_checked(alloc, &checked)?;
    Ok(image)
}

/// What the run of an image comes to on an input.
fn outcome_of_image(
    alloc: Global,
    image: &Image,
    input: &[u8],
    limits: &Limits,
) -> Result<Outcome, AllocError>
    requires image { ∥ HasProgram image.now ∥₁ }
    requires input { length input.now ≤ 16777216 }
    ensures { IfOk result (EndsSo image.now input.now limits.now) }
{
    Ok(Outcome::of_plain(alloc, plain(alloc, image, input, limits)?))
}

/// What the image of at most so many files comes to on the input.
fn run_image<S: Source>(
    alloc: Global,
    image: &Image,
    limits: &Limits,
    names: &[String],
    input: &mut S,
) -> Result<Outcome, Fault>
    requires { IsImageOfFiles (length names.now) image.now }
    ensures answer { (parts : Parts) → IsImageOfUnit parts image.now → MayBe (AnswersInput (RunsTo (bounds_of limits.now)) parts (intake_of (S.left input.old) (S.left input.new) (S.faults input.old) (S.faults input.new))) (outcome_of result) }
    ensures names { IfSome (outcome_of result).fault (NamesFiles (map (λ n. string_bytes n) names.now)) }
{
    let bytes = read_input(alloc, input)?;
    let outcome = outcome_of_image(alloc, image, bytes.as_slice(), limits)?;
    Ok(outcome)
}

/// What the texts of 1 to 64 files come to on the input, which isn't read where they are refused.
fn run_files<F: Files, S: Source>(
    alloc: Global,
    files: &mut F,
    input: &mut S,
    names: &[String],
    limits: &Limits,
) -> Result<Outcome, Fault>
    requires some { 1 ≤ length names.now }
    requires few { length names.now ≤ 64 }
    ensures answer { AnswersRun (RunsTo (bounds_of limits.now)) (library_of (F.contents files.old) (F.faults files.old) (F.faults files.new)) (map (λ n. string_bytes n) names.now) (intake_of (S.left input.old) (S.left input.new) (S.faults input.old) (S.faults input.new)) (outcome_of result) }
    ensures names { IfSome (outcome_of result).fault (NamesFiles (map (λ n. string_bytes n) names.now)) }
{
    let texts = read_files(alloc, files, names)?;
    let image = build(alloc, texts.as_slice())?;
    run_image(alloc, &image, limits, names, input)
}

/// Reads the files in their order and makes their program, reads the input, and runs the program on it within the limits, with one
/// worker whatever `args` says. Prints what the root printed and tells any fault. Nothing is printed where the files or the input
/// aren't read, where the program is refused, or at a limit but that of the output.
pub fn plain_command<F: Files, S: Source, K: Sink>(
    alloc: Global,
    args: &RunArgs,
    files: &mut F,
    input: &mut S,
    out: &mut K,
    err: &mut K,
) -> Exit
    ensures answer { Answers (AnswersRun (RunsTo (bounds_of args.now.limits)) (library_of (F.contents files.old) (F.faults files.old) (F.faults files.new)) (file_texts args.now.names) (intake_of (S.left input.old) (S.left input.new) (S.faults input.old) (S.faults input.new))) (file_texts args.now.names) (output_of (K.faults out.old) (K.faults out.new) (K.taken out.old) (K.taken out.new)) (output_of (K.faults err.old) (K.faults err.new) (K.taken err.old) (K.taken err.new)) result }
    ensures complete { CompletesRun (RunsTo (bounds_of args.now.limits)) (library_of (F.contents files.old) (F.faults files.old) (F.faults files.new)) (file_texts args.now.names) (intake_of (S.left input.old) (S.left input.new) (S.faults input.old) (S.faults input.new)) (output_of (K.faults out.old) (K.faults out.new) (K.taken out.old) (K.taken out.new)) (output_of (K.faults err.old) (K.faults err.new) (K.taken err.old) (K.taken err.new)) result }
{
    let names = args.names.as_slice();
    let outcome = Outcome::of(alloc, run_files(alloc, files, input, names, &args.limits));
    finish(out, err, names, outcome)
}
