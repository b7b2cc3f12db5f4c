//! The schedule of `sim`: one hexadecimal digit for the worker of each turn.
ghost use Rattle.std.specs.Prelude.{◌≡◌, ◌≤◌, IfOk, map, None, Some};
ghost use Rattle.std.specs.List.{list_all};
ghost use Rattle.st_jobs.specs.Values.{is_turn, hex_value, is_schedule, workers_in_order, schedule_of};
ghost use Rattle.st_jobs.specs.Commands.{schedule_id};
ghost use Rattle.st_jobs.specs.ByClap.{found_values};

use crate::job::WordsError;
use clap::ArgMatches;
use std::alloc::{AllocError, Global};

/// What a digit of 0 to 9 or a to f stands for.
fn hex_value(byte: u8) -> u8
    ensures { result ≡ hex_value byte }
{
    if byte.is_ascii_digit() {
        byte.saturating_sub(48)
    } else {
        byte.saturating_sub(87)
    }
}

/// Whether the byte is a digit of 0 to 9 or a to f that stands for a worker.
fn is_turn(byte: u8, workers: u32) -> bool
    ensures { result ≡ is_turn workers byte }
{
    (byte.is_ascii_digit() || (b'a' <= byte && byte <= b'f'))
        && u32::from(hex_value(byte)) < workers
}

fn are_turns(bytes: &[u8], workers: u32) -> bool
    ensures { result ≡ list_all (is_turn workers) bytes.now }
{
    bytes.iter().all(|byte| is_turn(*byte, workers))
}

fn hex_values(alloc: Global, bytes: &[u8]) -> Result<Vec<u8>, AllocError>
    ensures { IfOk result (λ v. v.items ≡ map hex_value bytes.now) }
{
    bytes.iter().map(|byte| hex_value(*byte)).collect(alloc)
}

/// All workers in order.
fn in_order(alloc: Global, workers: u32) -> Result<Vec<u8>, AllocError>
    requires { workers ≤ 16 }
    ensures { IfOk result (λ v. v.items ≡ workers_in_order workers) }
{
    let mut order = Vec::new(alloc);
    for worker in 0..workers {
        order.push(worker as u8)?;
    }
    Ok(order)
}

/// Whether the text is 1 to 4,096 digits of workers.
fn is_schedule(bytes: &[u8], workers: u32) -> bool
    ensures { result ≡ is_schedule workers bytes.now }
{
    !bytes.is_empty() && bytes.len() <= 4096 && are_turns(bytes, workers)
}

/// The schedule that the values of the option give: all workers in order where there are none.
fn schedule_of(alloc: Global, values: &[&str], workers: u32) -> Result<Vec<u8>, WordsError>
    requires { workers ≤ 16 }
    ensures ok { IfOk result (λ v. schedule_of workers (map (λ s. s.now) values.now) ≡ Some v.items) }
    ensures usage { (result ≡ Err WordsError.Usage) → schedule_of workers (map (λ s. s.now) values.now) ≡ None }
{
    let Some((value, again)) = values.split_first() else {
        return Ok(in_order(alloc, workers)?);
    };
    if !again.is_empty() || !is_schedule(value.as_bytes(), workers) {
        return Err(WordsError::Usage);
    }
    Ok(hex_values(alloc, value.as_bytes())?)
}

/// The schedule that the option gives.
pub fn schedule(alloc: Global, matches: &ArgMatches, workers: u32) -> Result<Vec<u8>, WordsError>
    requires { workers ≤ 16 }
    ensures ok { IfOk result (λ v. schedule_of workers (found_values matches.now schedule_id) ≡ Some v.items) }
    ensures usage { (result ≡ Err WordsError.Usage) → schedule_of workers (found_values matches.now schedule_id) ≡ None }
{
    match matches.get_strs("schedule") {
        Some(values) => schedule_of(alloc, values, workers),
        None => schedule_of(alloc, &[], workers),
    }
}
