//! Files of rows. A line `== SUBJECT` says what the rows behind it are about, `let NAME TEXT` names a text, and `INPUT => WANT` is a
//! row. Any other line is a comment.
use crate::subjects::said;
use crate::texts::{Texts, expanded};
use std::alloc::{AllocError, Global};

/// What an input comes to.
fn outcome(
    alloc: Global,
    texts: &Texts,
    subject: &str,
    written: &str,
) -> Result<String, AllocError> {
    let input = expanded(alloc, texts, written)?;
    said(alloc, subject, input.as_slice())
}

/// Tells a row that doesn't hold; nothing of one that does.
fn wrong(
    alloc: Global,
    texts: &Texts,
    subject: &str,
    written: &str,
    want: &str,
) -> Result<String, AllocError> {
    let found = outcome(alloc, texts, subject, written)?;
    if found.as_str() == want {
        Ok(found)
    } else {
        format!(in alloc; "\n{subject}: {written} => {found}")
    }
}

/// Names a text by `NAME TEXT`.
fn define(alloc: Global, texts: &mut Texts, definition: &str) -> Result<(), AllocError> {
    if let Some((name, written)) = definition.split_once(' ') {
        let text = expanded(alloc, texts, written)?;
        texts.add(name, text.as_slice())?;
    }
    Ok(())
}

/// How many rows hold, and those that don't.
pub fn tried(alloc: Global, texts: &mut Texts, rows: &str) -> Result<String, AllocError> {
    let mut subject = String::new(alloc);
    let mut held: u32 = 0;
    let mut wrongs = String::new(alloc);
    for row in rows.lines() {
        if let Some(name) = row.strip_prefix("== ") {
            subject = String::from_str(alloc, name)?;
        } else if let Some(definition) = row.strip_prefix("let ") {
            define(alloc, texts, definition)?;
        } else if let Some((written, want)) = row.split_once(" => ") {
            let told = wrong(alloc, texts, subject.as_str(), written, want)?;
            if told.as_str() == want {
                held = held.wrapping_add(1);
            } else {
                wrongs.push_str(told.as_str())?;
            }
        }
    }
    format!(in alloc; "{held} rows hold{wrongs}")
}
