//! The words of a command line, read into a job.
ghost use Rattle.std.specs.Prelude.{◌≡◌, ◌<◌, IfOk, map, Some, None, drop, string_bytes, length};
ghost use Rattle.st_jobs.specs.Commands.{job_of, job_by, run_row, plain_row, sim_row, check_row, post_row, gen_row};
ghost use Rattle.st_jobs.specs.Jobs.{asked_of};

use crate::arguments::{gen_args, names, plain_args, run_args, sim_args};
use crate::job::{Job, WordsError};
use crate::options::parse;
use std::alloc::Global;

/// The options of `run`.
static RUN: [&str; 4] = ["workers", "stack", "cells", "steps"];

/// The options of `plain`.
static PLAIN: [&str; 3] = ["stack", "cells", "steps"];

/// The options of `sim`.
static SIM: [&str; 6] = ["workers", "turns", "stack", "cells", "steps", "schedule"];

/// The options of `gen`.
static GEN: [&str; 2] = ["number", "workers"];

fn run_job(alloc: Global, words: &[String]) -> Result<Job, WordsError>
    requires { 0 < length words.now }
    ensures ok { IfOk result (λ j. job_by run_row (drop 1 (map string_bytes words.now)) ≡ Some (asked_of j)) }
    ensures usage { (result ≡ Err WordsError.Usage) → job_by run_row (drop 1 (map string_bytes words.now)) ≡ None }
{
    let matches = parse(alloc, RUN.as_slice(), words)?;
    let args = run_args(alloc, &matches)?;
    Ok(Job::Run(args))
}

fn plain_job(alloc: Global, words: &[String]) -> Result<Job, WordsError>
    requires { 0 < length words.now }
    ensures ok { IfOk result (λ j. job_by plain_row (drop 1 (map string_bytes words.now)) ≡ Some (asked_of j)) }
    ensures usage { (result ≡ Err WordsError.Usage) → job_by plain_row (drop 1 (map string_bytes words.now)) ≡ None }
{
    let matches = parse(alloc, PLAIN.as_slice(), words)?;
    let args = plain_args(alloc, &matches)?;
    Ok(Job::Plain(args))
}

fn sim_job(alloc: Global, words: &[String]) -> Result<Job, WordsError>
    requires { 0 < length words.now }
    ensures ok { IfOk result (λ j. job_by sim_row (drop 1 (map string_bytes words.now)) ≡ Some (asked_of j)) }
    ensures usage { (result ≡ Err WordsError.Usage) → job_by sim_row (drop 1 (map string_bytes words.now)) ≡ None }
{
    let matches = parse(alloc, SIM.as_slice(), words)?;
    let args = sim_args(alloc, &matches)?;
    Ok(Job::Sim(args))
}

fn check_job(alloc: Global, words: &[String]) -> Result<Job, WordsError>
    requires { 0 < length words.now }
    ensures ok { IfOk result (λ j. job_by check_row (drop 1 (map string_bytes words.now)) ≡ Some (asked_of j)) }
    ensures usage { (result ≡ Err WordsError.Usage) → job_by check_row (drop 1 (map string_bytes words.now)) ≡ None }
{
    let matches = parse(alloc, &[], words)?;
    let files = names(alloc, &matches)?;
    Ok(Job::Check(files))
}

fn post_job(alloc: Global, words: &[String]) -> Result<Job, WordsError>
    requires { 0 < length words.now }
    ensures ok { IfOk result (λ j. job_by post_row (drop 1 (map string_bytes words.now)) ≡ Some (asked_of j)) }
    ensures usage { (result ≡ Err WordsError.Usage) → job_by post_row (drop 1 (map string_bytes words.now)) ≡ None }
{
    let matches = parse(alloc, &[], words)?;
    let files = names(alloc, &matches)?;
    Ok(Job::Post(files))
}

fn gen_job(alloc: Global, words: &[String]) -> Result<Job, WordsError>
    requires { 0 < length words.now }
    ensures ok { IfOk result (λ j. job_by gen_row (drop 1 (map string_bytes words.now)) ≡ Some (asked_of j)) }
    ensures usage { (result ≡ Err WordsError.Usage) → job_by gen_row (drop 1 (map string_bytes words.now)) ≡ None }
{
    let matches = parse(alloc, GEN.as_slice(), words)?;
    let args = gen_args(&matches).ok_or(WordsError::Usage)?;
    Ok(Job::Gen(args))
}

/// The job that the words ask for; the first is the command. `Usage` comes exactly where they ask for none. `OutOfMemory` is
/// want of memory, and no clause says when that comes.
pub fn read_words(alloc: Global, words: &[String]) -> Result<Job, WordsError>
    ensures ok { IfOk result (λ j. job_of (map string_bytes words.now) ≡ Some (asked_of j)) }
    ensures usage { (result ≡ Err WordsError.Usage) → job_of (map string_bytes words.now) ≡ None }
{
    let Some(command) = words.first() else {
        return Err(WordsError::Usage);
    };
    match command.as_str() {
        "run" => run_job(alloc, words),
        "plain" => plain_job(alloc, words),
        "sim" => sim_job(alloc, words),
        "check" => check_job(alloc, words),
        "post" => post_job(alloc, words),
        "gen" => gen_job(alloc, words),
        _ => Err(WordsError::Usage),
    }
}
