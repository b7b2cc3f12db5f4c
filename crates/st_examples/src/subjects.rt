//! What rows are about.
use crate::acceptance::{checked, form};
use crate::code::coded;
use crate::instructions::{compares, computes_to, decoded, encoded, reads, table};
use crate::items::item;
use crate::jobs::job;
use crate::lines::{BODY, DATA, FULL, HEAD, OUTSIDE, is_like, label, line, places, spans};
use crate::lists::{flow, keys, list};
use crate::outside::{mem_files, mem_sink, mem_source, sure_files, sure_sink, sure_source};
use crate::runs::end;
use crate::tellings::telling;
use crate::units::{again, entry, fault, printed, unit};
use std::alloc::{AllocError, Global};

/// What an input comes to in the terms of a subject that takes bytes; nothing of another subject.
fn bytes_said(alloc: Global, subject: &str, input: &[u8]) -> Result<Option<String>, AllocError> {
    let said = match subject {
        "line in a body" => line(alloc, BODY, input)?,
        "line behind a head" => line(alloc, HEAD, input)?,
        "line behind a full head" => line(alloc, FULL, input)?,
        "line outside" => line(alloc, OUTSIDE, input)?,
        "line of data" => line(alloc, DATA, input)?,
        "label" => label(alloc, input)?,
        "byte in a body" => places(alloc, Some(BODY), input)?,
        "byte in data" => places(alloc, Some(DATA), input)?,
        "byte in a label" => places(alloc, None, input)?,
        "tokens" => spans(alloc, input)?,
        "entry" => entry(alloc, input)?,
        _ => return Ok(None),
    };
    Ok(Some(said))
}

/// The same of a subject that takes the texts of files.
fn files_said(alloc: Global, subject: &str, input: &[u8]) -> Result<Option<String>, AllocError> {
    let said = match subject {
        "unit" => unit(alloc, input)?,
        "fault" => fault(alloc, input)?,
        "canonical text" => printed(alloc, input)?,
        "printed again" => again(alloc, input)?,
        "form" => form(alloc, input)?,
        "check" => checked(alloc, input)?,
        _ => return coded(alloc, subject, input),
    };
    Ok(Some(said))
}

/// The same of a subject that takes text.
fn text_said(alloc: Global, subject: &str, input: &str) -> Result<String, AllocError> {
    match subject {
        "line like another" => is_like(alloc, input),
        "encoded" => encoded(alloc, input),
        "decoded" => decoded(alloc, input),
        "table" => table(alloc),
        "result" => computes_to(alloc, input),
        "branch" => compares(alloc, input),
        "load" => reads(alloc, input),
        "item" => item(alloc, input),
        "keys" => keys(alloc),
        "end" => end(alloc, input),
        "first undefined read" => flow(alloc, input),
        "told" => telling(alloc, input),
        "job" => job(alloc, input),
        "list" => list(alloc, input),
        "files over memory" => mem_files(alloc, input),
        "sure files" => sure_files(alloc, input),
        "source over memory" => mem_source(alloc, input),
        "sure source" => sure_source(alloc, input),
        "sink over memory" => mem_sink(alloc, input),
        "sure sink" => sure_sink(alloc, input),
        _ => String::from_str(alloc, "no such subject"),
    }
}

/// What an input comes to.
pub fn said(alloc: Global, subject: &str, input: &[u8]) -> Result<String, AllocError> {
    if let Some(said) = bytes_said(alloc, subject, input)? {
        return Ok(said);
    }
    if let Some(said) = files_said(alloc, subject, input)? {
        return Ok(said);
    }
    text_said(alloc, subject, str::from_utf8(input).unwrap_or("?"))
}
