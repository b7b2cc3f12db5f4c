//! What each command is given, from what `clap` found.
ghost use Rattle.std.specs.Prelude.{◌≡◌, IfOk, map, Some, None, option_map, string_bytes, length};
ghost use Rattle.st_jobs.specs.Words.{file_id};
ghost use Rattle.st_jobs.specs.Values.{files_in};
ghost use Rattle.st_jobs.specs.Commands.{settings_of, limit_rows, job_in, run_row, plain_row, sim_row, gen_row};
ghost use Rattle.st_jobs.specs.Jobs.{file_texts, limit_settings, asked_of};
ghost use Rattle.st_jobs.specs.ByClap.{found_values};

use crate::job::{GenArgs, Job, Names, RunArgs, SimArgs, WordsError};
use crate::numbers::{CELLS, PROGRAM, STACK, STEPS, TURNS, WORKERS, number};
use crate::schedule::schedule;
use clap::ArgMatches;
use st_base::limits::Limits;
use std::alloc::{AllocError, Global};

fn copied(alloc: Global, texts: &[&str]) -> Result<Vec<String>, AllocError>
    ensures { IfOk result (λ v. map string_bytes v.items ≡ map (λ s. s.now) texts.now) }
{
    let mut copies = Vec::new(alloc);
    for text in texts {
        copies.push(String::from_str(alloc, text)?)?;
    }
    Ok(copies)
}

/// These file names, where there are 1 to 64.
fn names_of(alloc: Global, texts: &[&str]) -> Result<Names, WordsError>
    ensures ok { IfOk result (λ n. files_in 1 64 (map (λ s. s.now) texts.now) ≡ Some (file_texts n)) }
    ensures usage { (result ≡ Err WordsError.Usage) → files_in 1 64 (map (λ s. s.now) texts.now) ≡ None }
{
    if texts.is_empty() || texts.len() > 64 {
        return Err(WordsError::Usage);
    }
    let files = copied(alloc, texts)?;
    Ok(Names { files })
}

/// The file names of a command that takes 1 to 64.
pub fn names(alloc: Global, matches: &ArgMatches) -> Result<Names, WordsError>
    ensures ok { IfOk result (λ n. files_in 1 64 (found_values matches.now file_id) ≡ Some (file_texts n)) }
    ensures usage { (result ≡ Err WordsError.Usage) → files_in 1 64 (found_values matches.now file_id) ≡ None }
{
    match matches.get_strs("file") {
        Some(texts) => names_of(alloc, texts),
        None => names_of(alloc, &[]),
    }
}

fn file_count(matches: &ArgMatches) -> usize
    ensures { result ≡ length (found_values matches.now file_id) }
{
    match matches.get_strs("file") {
        Some(texts) => texts.len(),
        None => 0,
    }
}

fn limits_in(matches: &ArgMatches) -> Option<Limits>
    ensures { option_map limit_settings result ≡ settings_of limit_rows (found_values matches.now) }
{
    let standard = Limits::standard();
    let stack = number(matches, "stack", STACK, Some(u64::from(standard.stack)))?;
    let cells = number(matches, "cells", CELLS, Some(u64::from(standard.cells)))?;
    let steps = number(matches, "steps", STEPS, Some(standard.steps))?;
    Some(Limits {
        stack: stack as u32,
        cells: cells as u32,
        steps,
    })
}

/// What `run` is given.
pub fn run_args(alloc: Global, matches: &ArgMatches) -> Result<RunArgs, WordsError>
    ensures ok { IfOk result (λ a. job_in run_row (found_values matches.now) ≡ Some (asked_of (Job.Run a))) }
    ensures usage { (result ≡ Err WordsError.Usage) → job_in run_row (found_values matches.now) ≡ None }
{
    let workers = number(matches, "workers", WORKERS, Some(1)).ok_or(WordsError::Usage)?;
    let limits = limits_in(matches).ok_or(WordsError::Usage)?;
    let names = names(alloc, matches)?;
    Ok(RunArgs {
        names,
        workers: workers as u32,
        limits,
    })
}

/// What `plain` is given.
pub fn plain_args(alloc: Global, matches: &ArgMatches) -> Result<RunArgs, WordsError>
    ensures ok { IfOk result (λ a. job_in plain_row (found_values matches.now) ≡ Some (asked_of (Job.Plain a))) }
    ensures usage { (result ≡ Err WordsError.Usage) → job_in plain_row (found_values matches.now) ≡ None }
{
    let limits = limits_in(matches).ok_or(WordsError::Usage)?;
    let names = names(alloc, matches)?;
    Ok(RunArgs {
        names,
        workers: 1,
        limits,
    })
}

/// What `sim` is given.
pub fn sim_args(alloc: Global, matches: &ArgMatches) -> Result<SimArgs, WordsError>
    ensures ok { IfOk result (λ a. job_in sim_row (found_values matches.now) ≡ Some (asked_of (Job.Sim a))) }
    ensures usage { (result ≡ Err WordsError.Usage) → job_in sim_row (found_values matches.now) ≡ None }
{
    let workers = number(matches, "workers", WORKERS, Some(1)).ok_or(WordsError::Usage)?;
    let turns = number(matches, "turns", TURNS, Some(4_294_967_296)).ok_or(WordsError::Usage)?;
    let limits = limits_in(matches).ok_or(WordsError::Usage)?;
    let schedule = schedule(alloc, matches, workers as u32)?;
    let names = names(alloc, matches)?;
    let args = RunArgs {
        names,
        workers: workers as u32,
        limits,
    };
    Ok(SimArgs {
        args,
        schedule,
        turns,
    })
}

/// What `gen` is given; `None` where it is given files.
pub fn gen_args(matches: &ArgMatches) -> Option<GenArgs>
    ensures { option_map (λ a. asked_of (Job.Gen a)) result ≡ job_in gen_row (found_values matches.now) }
{
    let program = number(matches, "number", PROGRAM, None)?;
    let workers = number(matches, "workers", WORKERS, Some(4))?;
    if file_count(matches) != 0 {
        return None;
    }
    Some(GenArgs {
        number: program,
        workers: workers as u32,
    })
}
