//! What the tests share: a call over memory, and what it comes to.
ghost use Rattle.std.specs.Prelude.{◌≡◌, ◌≤◌, ◌<◌, length, take, Some, IfOk, OnErr, ℕ};
ghost use Rattle.st_base.specs.Outside.{HasRisen};

use crate::command::st_main;
use crate::exit::Exit;
use st_base::outside::{Failed, NoGate, Sink};
use st_base::outside_memory::{MemFiles, MemSink, MemSource};
use st_base::outside_sure::{SureFiles, SureSink, SureSource};
use std::alloc::{AllocError, Global};
use std::sync::Wait;
use std::thread::Threads;

/// A command with these words behind it.
pub fn words(alloc: Global, command: &str, others: &[&str]) -> Result<Vec<String>, AllocError> {
    let mut words = Vec::new(alloc);
    words.push(String::from_str(alloc, command)?)?;
    for word in others {
        words.push(String::from_str(alloc, word)?)?;
    }
    Ok(words)
}

/// Files of these names, with these texts.
fn files_of(alloc: Global, held: &[(&str, &[u8])]) -> Result<Vec<(String, Vec<u8>)>, AllocError> {
    let mut files = Vec::new(alloc);
    for (name, text) in held {
        files.push((
            String::from_str(alloc, name)?,
            Vec::from_slice(alloc, text)?,
        ))?;
    }
    Ok(files)
}

/// Runs the words over such files and an input, where the calls of these numbers fail at the files, at the input and at the
/// output, and tells whether it exits, prints and tells so; and that nothing of the input is left where something is printed, and
/// all of it where the texts are refused.
pub fn come_to<R: Threads + Wait + Sync>(
    rt: &R,
    alloc: Global,
    words: &[String],
    held: &[(&str, &[u8])],
    bytes: &[u8],
    fails: (u64, u64, u64),
    want: (Exit, &[u8], &[u8]),
) -> Result<bool, AllocError> {
    let mut files = MemFiles::open(files_of(alloc, held)?, vec![in alloc; fails.0]?);
    let mut input = MemSource::open(Vec::from_slice(alloc, bytes)?, vec![in alloc; fails.1]?);
    let mut out = MemSink::open(alloc, 1_100_000, vec![in alloc; fails.2]?)?;
    let mut err = MemSink::open(alloc, 100, Vec::new(alloc))?;
    let exit = st_main(
        rt, alloc, words, &mut files, &mut input, &mut out, &mut err, &NoGate,
    );
    let is_read = out.taken().is_empty() || input.left().is_empty();
    let is_whole = exit != Exit::Refused || input.left() == bytes;
    let is_so = exit == want.0 && out.taken() == want.1 && err.taken() == want.2;
    Ok(is_so && is_read && is_whole)
}

/// The same over what never fails; and that nothing is told.
pub fn surely_prints<R: Threads + Wait + Sync>(
    rt: &R,
    alloc: Global,
    words: &[String],
    held: &[(&str, &[u8])],
    bytes: &[u8],
    printed: Option<&[u8]>,
) -> Result<bool, AllocError> {
    let mut files = SureFiles::open(files_of(alloc, held)?);
    let mut input = SureSource::open(Vec::from_slice(alloc, bytes)?);
    let mut out = SureSink::open(alloc, 20_000)?;
    let mut err = SureSink::open(alloc, 100)?;
    let exit = st_main(
        rt, alloc, words, &mut files, &mut input, &mut out, &mut err, &NoGate,
    );
    let is_printed = printed.is_none() || out.taken() == printed;
    Ok(exit == Exit::Done && is_printed && err.taken() == Some(b"".as_slice()))
}

/// A sink that takes one byte at a call.
#[derive(Drop)]
struct Slow {
    sink: MemSink,
}

impl Sink for Slow {
    ghost taken = { λ s. Some s.sink.taken };

    ghost faults = { λ s. s.sink.calls.faults };

    fn put(&mut self, piece: &[u8]) -> Result<usize, Failed> {
        let end = piece.len().min(1);
        self.sink.put(&piece[..end])
    }
}

/// As `come_to`, over outputs that take one byte at a call; the second one takes this many.
pub fn come_slowly_to<R: Threads + Wait + Sync>(
    rt: &R,
    alloc: Global,
    words: &[String],
    held: &[(&str, &[u8])],
    bytes: &[u8],
    fails: (u64, u64, u64),
    most: u32,
    want: (Exit, &[u8], &[u8]),
) -> Result<bool, AllocError> {
    let mut files = MemFiles::open(files_of(alloc, held)?, vec![in alloc; fails.0]?);
    let mut input = MemSource::open(Vec::from_slice(alloc, bytes)?, vec![in alloc; fails.1]?);
    let mut out = Slow {
        sink: MemSink::open(alloc, 100, vec![in alloc; fails.2]?)?,
    };
    let mut err = Slow {
        sink: MemSink::open(alloc, most, Vec::new(alloc))?,
    };
    let exit = st_main(
        rt, alloc, words, &mut files, &mut input, &mut out, &mut err, &NoGate,
    );
    Ok(exit == want.0 && out.sink.taken() == want.1 && err.sink.taken() == want.2)
}
