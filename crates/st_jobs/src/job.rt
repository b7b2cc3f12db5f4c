//! What a command line asks for. The fields of each job keep to the ranges of its options.
ghost use Rattle.std.specs.Prelude.{◌≡◌, ◌≤◌, ◌^◌, true, vec_len, nat_lt};
ghost use Rattle.std.specs.List.{list_all};

use st_base::limits::Limits;
use std::alloc::AllocError;

/// Why words give no job.
#[derive(Debug, Drop)]
pub enum WordsError {
    /// The words are no right use of the program.
    Usage,
    /// Memory was wanting.
    OutOfMemory,
}

impl From<AllocError> for WordsError {
    ghost use Rattle.st_jobs.specs.declared.job.WordsError.TheVariants.{OutOfMemory};

    ghost from_gives = { λ _ e. e ≡ OutOfMemory };

    fn from(_error: AllocError) -> WordsError {
        WordsError::OutOfMemory
    }
}

/// The names of a job's files in the order of the words: 1 to 64 of them. Any word is a name that doesn't begin with `-`,
/// the empty word too.
#[derive(Drop)]
pub struct Names {
    /// The names.
    pub files: Vec<String>,
    ghost files_least: { 1 ≤ vec_len files },
    ghost files_most: { vec_len files ≤ 64 },
}

/// What `run` and `plain` are given.
#[derive(Drop)]
pub struct RunArgs {
    /// The files of the program.
    pub names: Names,
    /// How many workers run: 1 to 16, and 1 for `plain`.
    pub workers: u32,
    /// The limits of the run.
    pub limits: Limits,
    ghost workers_least: { 1 ≤ workers },
    ghost workers_most: { workers ≤ 16 },
}

/// What `sim` is given.
#[derive(Drop)]
pub struct SimArgs {
    /// What it has in common with `run`.
    pub args: RunArgs,
    /// The worker of each turn, over and over: 1 to 4,096 numbers below the number of workers.
    pub schedule: Vec<u8>,
    /// The most turns that are made: 1 to 2^40.
    pub turns: u64,
    ghost schedule_least: { 1 ≤ vec_len schedule },
    ghost schedule_most: { vec_len schedule ≤ 4096 },
    ghost schedule_workers: { list_all (λ worker. nat_lt worker args.workers) schedule.items ≡ true },
    ghost turns_least: { 1 ≤ turns },
    ghost turns_most: { turns ≤ 2 ^ 40 },
}

/// What `gen` is given.
#[derive(Clone, Copy)]
pub struct GenArgs {
    /// The number of the program that is made: any number below 2^64.
    pub number: u64,
    /// How many workers its simulation has: 1 to 16.
    pub workers: u32,
    ghost workers_least: { 1 ≤ workers },
    ghost workers_most: { workers ≤ 16 },
}

/// What a command line asks for: a command with what it is given.
#[derive(Drop)]
pub enum Job {
    /// Run the program with workers.
    Run(RunArgs),
    /// Run the program's unchanged code on one stack.
    Plain(RunArgs),
    /// Run the program with workers that take turns by a schedule.
    Sim(SimArgs),
    /// Print the canonical text of an accepted program.
    Check(Names),
    /// Print the listing of the postprocessed program.
    Post(Names),
    /// Make a program and print the summary of its run.
    Gen(GenArgs),
}

impl Names {
    ghost use Rattle.std.specs.Prelude.{map, string_bytes};
    ghost use Rattle.st_jobs.specs.Jobs.{file_texts};

    /// The names, of which there are 1 to 64.
    pub fn as_slice(&self) -> &[String]
        ensures { map string_bytes result.now ≡ file_texts self.now }
    {
        self.files.as_slice()
    }
}

impl Job {
    ghost use Rattle.std.specs.Prelude.{map, string_bytes};
    ghost use Rattle.st_jobs.specs.Jobs.{asked_of};

    /// The names of the job's files: none for `gen`, and 1 to 64 for each other command.
    pub fn files(&self) -> &[String]
        ensures { map string_bytes result.now ≡ (asked_of self.now).files }
    {
        match self {
            Job::Run(args) | Job::Plain(args) => args.names.as_slice(),
            Job::Sim(sim) => sim.args.names.as_slice(),
            Job::Check(names) | Job::Post(names) => names.as_slice(),
            Job::Gen(_) => &[],
        }
    }
}
