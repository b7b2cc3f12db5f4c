//! The words as `clap` reads them: the values under each option's name, and the file names. It reads only words that `fits`
//! lets through, and of those it can refuse none but for want of memory. What it finds is tested by others.
ghost use Rattle.std.specs.Prelude.{◌≡◌, ◌<◌, IfOk, map, None, Some, drop, length, List, string_bytes, false};
ghost use Rattle.st_jobs.specs.Words.{Item, items_of};
ghost use Rattle.st_jobs.specs.ByClap.{file_rule, option_rule, app, KnowsAll, HasItems};
ghost use Rattle.clap.specs.Words.{rule_of, app_of};

use crate::job::WordsError;
use crate::words::fits;
use clap::error::ErrorKind;
use clap::{Arg, ArgAction, ArgMatches, Command};
use std::alloc::{AllocError, Global};

/// An option that keeps each value that it is given.
fn option<'a>(alloc: Global, name: &'a str) -> Arg<'a>
    ensures rule { rule_of result ≡ option_rule name.entry.now }
    ensures local { result.global ≡ false }
{
    Arg::new(alloc, name).long(name).action(ArgAction::Append)
}

fn file_names<'a>(alloc: Global) -> Arg<'a>
    ensures rule { rule_of result ≡ file_rule }
    ensures local { result.global ≡ false }
{
    Arg::new(alloc, "file").action(ArgAction::Append)
}

/// One command with all options of all commands, and with file names.
fn command<'a>(alloc: Global) -> Result<Command<'a>, AllocError>
    ensures { IfOk result (λ c. app_of c ≡ app) }
{
    Command::new(alloc, "st")
        .arg(option(alloc, "workers"))?
        .arg(option(alloc, "stack"))?
        .arg(option(alloc, "cells"))?
        .arg(option(alloc, "steps"))?
        .arg(option(alloc, "schedule"))?
        .arg(option(alloc, "turns"))?
        .arg(option(alloc, "number"))?
        .arg(file_names(alloc))
}

/// What the words after the first say, where the command's options have these names. Usage exactly where they lack the form.
pub fn parse<'a>(
    alloc: Global,
    names: &[&str],
    words: &'a [String],
) -> Result<ArgMatches<'a>, WordsError>
    requires some { 0 < length words.now }
    requires known { KnowsAll (map (λ s. s.now) names.now) }
    ensures ok { IfOk result (λ m. (items : List Item)
        × (items_of (map (λ s. s.now) names.entry.now) (drop 1 (map string_bytes words.entry.now)) ≡ Some items)
        × HasItems items m) }
    ensures usage { (result ≡ Err WordsError.Usage)
        → items_of (map (λ s. s.now) names.entry.now) (drop 1 (map string_bytes words.entry.now)) ≡ None }
{
    if !fits(names, &words[1..]) {
        return Err(WordsError::Usage);
    }
    let command = command(alloc)?;
    match command.try_get_matches_from(words) {
        Ok(matches) => Ok(matches),
        Err(error) if error.kind() == ErrorKind::OutOfMemory => Err(WordsError::OutOfMemory),
        Err(_) => Err(WordsError::Usage),
    }
}
