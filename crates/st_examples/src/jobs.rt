//! Command lines (st_jobs). A line is cut into words at each blank.
use st_jobs::{Job, RunArgs, WordsError, read_words};
use std::alloc::{AllocError, Global};

/// The words of a line.
fn words_of(alloc: Global, line: &str) -> Result<Vec<String>, AllocError> {
    let mut words = Vec::new(alloc);
    if line != "(no words)" {
        for word in line.split(' ') {
            words.push(String::from_str(alloc, word)?)?;
        }
    }
    Ok(words)
}

/// The workers and limits of a run.
fn run_text(alloc: Global, args: &RunArgs) -> Result<String, AllocError> {
    let limits = &args.limits;
    format!(in alloc;
        "{} {} {} {}",
        args.workers, limits.stack, limits.cells, limits.steps
    )
}

/// A job's command and what it is given.
fn command_text(alloc: Global, job: &Job) -> Result<String, AllocError> {
    match job {
        Job::Run(args) => format!(in alloc; "run {}", run_text(alloc, args)?),
        Job::Plain(args) => format!(in alloc; "plain {}", run_text(alloc, args)?),
        Job::Sim(sim) => {
            let args = run_text(alloc, &sim.args)?;
            let schedule = sim.schedule.as_slice();
            if schedule.len() > 16 {
                format!(in alloc; "sim {args} {} {} numbers", sim.turns, schedule.len())
            } else {
                format!(in alloc; "sim {args} {} {schedule:?}", sim.turns)
            }
        }
        Job::Check(_) => String::from_str(alloc, "check"),
        Job::Post(_) => String::from_str(alloc, "post"),
        Job::Gen(args) => format!(in alloc; "gen {} {}", args.number, args.workers),
    }
}

/// A job's command, what it is given, and each of its files behind a bar; how many there are, if there are many.
fn job_text(alloc: Global, job: &Job) -> Result<String, AllocError> {
    let mut text = command_text(alloc, job)?;
    let files = job.files();
    if files.len() > 8 {
        return format!(in alloc; "{text} {} files", files.len());
    }
    for file in files {
        text.push_str("|")?;
        text.push_str(file.as_str())?;
    }
    Ok(text)
}

/// The job of a line.
pub fn job(alloc: Global, line: &str) -> Result<String, AllocError> {
    let words = words_of(alloc, line)?;
    match read_words(alloc, words.as_slice()) {
        Ok(job) => job_text(alloc, &job),
        Err(WordsError::Usage) => String::from_str(alloc, "usage"),
        Err(WordsError::OutOfMemory) => Err(AllocError),
    }
}
