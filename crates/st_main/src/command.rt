//! The program as one call over the outside.
ghost use Rattle.std.specs.Prelude.{◌≡◌, ◌⊎◌, List, [], map, Some, string_bytes, ℕ};
ghost use Rattle.st_main.specs.Answer.{Answers, AsksForNone, IsAnswer, fault_outcome, intake_of, library_of, output_of};
ghost use Rattle.st_main.specs.Complete.{Completes};
ghost use Rattle.st_jobs.specs.Commands.{job_of};
ghost use Rattle.st_jobs.specs.Jobs.{asked_of};
ghost use Rattle.st_print.specs.Telling.{NamesFiles};

use crate::check::check_command;
use crate::exit::Exit;
use crate::outcome::Outcome;
use crate::post::post_command;
use crate::report::finish;
use crate::run::plain_command;
use st_base::outside::{Files, Gate, Sink, Source};
use st_jobs::{Job, WordsError, read_words};
use st_print::Fault;
use std::alloc::Global;
use std::sync::Wait;
use std::thread::Threads;

/// How many workers `run` takes yet.
const WORKERS: u32 = 1;

/// Tells a fault that names no file.
fn refuse<K: Sink>(alloc: Global, out: &mut K, err: &mut K, fault: Fault) -> Exit
    requires { NamesFiles [] fault }
    ensures { Answers (λ o. o ≡ fault_outcome fault) [] (output_of (K.faults out.old) (K.faults out.new) (K.taken out.old) (K.taken out.new)) (output_of (K.faults err.old) (K.faults err.new) (K.taken err.old) (K.taken err.new)) result }
{
    finish(out, err, &[], Outcome::of_fault(alloc, fault))
}

/// Answers on a job that these words ask for: the run of files with one worker, the check of files, their postprocessing, or it
/// isn't built yet.
fn answer_job<F: Files, S: Source, K: Sink>(
    alloc: Global,
    files: &mut F,
    input: &mut S,
    out: &mut K,
    err: &mut K,
    job: &Job,
) -> Exit
    ensures { (words : List (List ℕ)) → job_of words ≡ Some (asked_of job.now) → IsAnswer words (library_of (F.contents files.old) (F.faults files.old) (F.faults files.new)) (intake_of (S.left input.old) (S.left input.new) (S.faults input.old) (S.faults input.new)) (output_of (K.faults out.old) (K.faults out.new) (K.taken out.old) (K.taken out.new)) (output_of (K.faults err.old) (K.faults err.new) (K.taken err.old) (K.taken err.new)) result }
{
    match job {
        Job::Run(args) => {
            if args.workers == WORKERS {
                plain_command(alloc, args, files, input, out, err)
            } else {
                refuse(alloc, out, err, Fault::Usage)
            }
        }
        Job::Plain(args) => plain_command(alloc, args, files, input, out, err),
        Job::Check(names) => check_command(alloc, names, files, out, err),
        Job::Post(names) => post_command(alloc, names, files, out, err),
        _ => refuse(alloc, out, err, Fault::Usage),
    }
}

/// Answers on the words.
fn answer_words<F: Files, S: Source, K: Sink>(
    alloc: Global,
    words: &[String],
    files: &mut F,
    input: &mut S,
    out: &mut K,
    err: &mut K,
) -> Exit
    ensures { IsAnswer (map (λ n. string_bytes n) words.now) (library_of (F.contents files.old) (F.faults files.old) (F.faults files.new)) (intake_of (S.left input.old) (S.left input.new) (S.faults input.old) (S.faults input.new)) (output_of (K.faults out.old) (K.faults out.new) (K.taken out.old) (K.taken out.new)) (output_of (K.faults err.old) (K.faults err.new) (K.taken err.old) (K.taken err.new)) result }
{
    match read_words(alloc, words) {
        Ok(job) => answer_job(alloc, files, input, out, err, &job),
        Err(WordsError::Usage) => refuse(alloc, out, err, Fault::Usage),
        Err(WordsError::OutOfMemory) => refuse(alloc, out, err, Fault::OutOfMemory),
    }
}

/// The program. The words must ask for `run` with one worker, `plain`, `check` or `post`; all else is `Usage` yet. Reads the
/// files, does what the command says with their texts, prints on `out`, tells any fault on `err`, and answers how the program ends.
/// `run` and `plain` read `input`, to its end. `gate` serves no command yet. How `err` fares changes nothing else.
pub fn st_main<R: Threads + Wait + Sync, F: Files, S: Source, K: Sink, G: Gate + Sync>(
    rt: &R,
    alloc: Global,
    words: &[String],
    files: &mut F,
    input: &mut S,
    out: &mut K,
    err: &mut K,
    gate: &G,
) -> Exit
    ensures usage { result ≡ Exit.Usage → AsksForNone (map (λ n. string_bytes n) words.now) }
    ensures none { AsksForNone (map (λ n. string_bytes n) words.now) → (result ≡ Exit.Usage) ⊎ (result ≡ Exit.OutOfMemory) }
    ensures answer { IsAnswer (map (λ n. string_bytes n) words.now) (library_of (F.contents files.old) (F.faults files.old) (F.faults files.new)) (intake_of (S.left input.old) (S.left input.new) (S.faults input.old) (S.faults input.new)) (output_of (K.faults out.old) (K.faults out.new) (K.taken out.old) (K.taken out.new)) (output_of (K.faults err.old) (K.faults err.new) (K.taken err.old) (K.taken err.new)) result }
    ensures complete { Completes (map (λ n. string_bytes n) words.now) (library_of (F.contents files.old) (F.faults files.old) (F.faults files.new)) (intake_of (S.left input.old) (S.left input.new) (S.faults input.old) (S.faults input.new)) (output_of (K.faults out.old) (K.faults out.new) (K.taken out.old) (K.taken out.new)) (output_of (K.faults err.old) (K.faults err.new) (K.taken err.old) (K.taken err.new)) result }
{
    answer_words(alloc, words, files, input, out, err)
}
