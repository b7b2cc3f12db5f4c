//! Code (st_post) and images (st_link) of accepted units.
use crate::texts::files_of;
use st_asm::{AsmError, Unit, read_unit};
use st_base::image::Image;
use st_check::{Checked, FormError, check};
use st_link::{LinkError, link, link_plain};
use st_post::{Layout, PostedIns, lay_out, postprocess};
use std::alloc::{AllocError, Global};

/// What is to be told of code.
#[derive(Clone, Copy)]
enum Told {
    /// How many words and forks both layouts have.
    Sizes,
    /// Words.
    Words,
    /// The line of each word, with `+` where it begins no item.
    Lines,
    /// The rows of frames and forks.
    Rows,
    /// The instructions that name something.
    Instructions,
}

fn words(alloc: Global, image: &Image) -> Result<String, AllocError> {
    let mut text = String::new(alloc);
    for word in image.words.as_slice() {
        let digits = format!(in alloc; "{word:08x} ")?;
        text.push_str(digits.as_str())?;
    }
    text.push_str("end")?;
    Ok(text)
}

fn lines(alloc: Global, image: &Image) -> Result<String, AllocError> {
    let mut text = String::new(alloc);
    for (line, begins) in image.lines.as_slice().iter().zip(image.begins.as_slice()) {
        let mark = if *begins { "" } else { "+" };
        let told = format!(in alloc; "{}:{}{mark} ", line.file, line.line)?;
        text.push_str(told.as_str())?;
    }
    text.push_str("end")?;
    Ok(text)
}

fn rows(alloc: Global, image: &Image) -> Result<String, AllocError> {
    let mut text = format!(in alloc; "main {:x}; ", image.main_at)?;
    for row in image.rows.as_slice() {
        let told = format!(in alloc;
            "{:x} to {:x} frame {} saved {:x} pure {:x} line {}:{}; ",
            row.code_from,
            row.code_to,
            row.frame_bytes,
            row.saved,
            row.pure_at,
            row.line.file,
            row.line.line
        )?;
        text.push_str(told.as_str())?;
    }
    for fork in image.forks.as_slice() {
        let told = format!(in alloc; "fork {:x} {:?}; ", fork.at, fork.handle)?;
        text.push_str(told.as_str())?;
    }
    text.push_str("end")?;
    Ok(text)
}

fn sizes(alloc: Global, image: &Image) -> Result<String, AllocError> {
    format!(in alloc; "{} words {} forks", image.words.len(), image.forks.len())
}

fn image_text(alloc: Global, told: Told, image: &Image) -> Result<String, AllocError> {
    match told {
        Told::Words => words(alloc, image),
        Told::Lines => lines(alloc, image),
        Told::Rows => rows(alloc, image),
        _ => sizes(alloc, image),
    }
}

/// What is told of an image, or why there is none.
fn linked(
    alloc: Global,
    told: Told,
    image: Result<Image, LinkError>,
) -> Result<String, AllocError> {
    match image {
        Ok(image) => image_text(alloc, told, &image),
        Err(LinkError::Fault(fault)) => {
            let line = fault.line;
            format!(in alloc; "{}:{}: L1 {}", line.file, line.line, fault.distance)
        }
        Err(LinkError::OutOfMemory) => Err(AllocError),
    }
}

/// The instructions of laid out code that name a place, a function or an entry, behind their number in the function.
fn instructions(
    alloc: Global,
    layout: Layout,
    checked: &Checked<'_>,
) -> Result<String, AllocError> {
    let code = lay_out(alloc, checked, layout)?;
    let mut text = String::new(alloc);
    for function in code.functions.as_slice() {
        for (at, word) in function.words.as_slice().iter().enumerate() {
            if !matches!(word.ins, PostedIns::Plain(_)) {
                let told = format!(in alloc; "{at} {:?}; ", word.ins)?;
                text.push_str(told.as_str())?;
            }
        }
    }
    text.push_str("end")?;
    Ok(text)
}

fn posted(alloc: Global, told: Told, checked: &Checked<'_>) -> Result<String, AllocError> {
    let posted = postprocess(alloc, checked)?;
    linked(alloc, told, link(alloc, &posted))
}

fn plain(alloc: Global, told: Told, checked: &Checked<'_>) -> Result<String, AllocError> {
    linked(alloc, told, link_plain(alloc, checked))
}

fn both(alloc: Global, checked: &Checked<'_>) -> Result<String, AllocError> {
    let first = posted(alloc, Told::Sizes, checked)?;
    let second = plain(alloc, Told::Sizes, checked)?;
    format!(in alloc; "{first}, plain {second}")
}

/// What is told of the code of an accepted unit in a layout.
fn code_text(
    alloc: Global,
    told: Told,
    layout: Layout,
    checked: &Checked<'_>,
) -> Result<String, AllocError> {
    match (told, layout) {
        (Told::Sizes, _) => both(alloc, checked),
        (Told::Instructions, _) => instructions(alloc, layout, checked),
        (_, Layout::Postprocessed) => posted(alloc, told, checked),
        (_, Layout::Unchanged) => plain(alloc, told, checked),
    }
}

fn unit_text(alloc: Global, told: Told, layout: Layout, unit: &Unit) -> Result<String, AllocError> {
    match check(alloc, unit) {
        Ok(checked) => code_text(alloc, told, layout, &checked),
        Err(FormError::Fault(fault)) => format!(in alloc; "{}: {:?}", fault.line.line, fault.kind),
        Err(FormError::OutOfMemory) => Err(AllocError),
    }
}

/// What is told of the code of these files, or their fault.
fn files_text(
    alloc: Global,
    told: Told,
    layout: Layout,
    files: &[u8],
) -> Result<String, AllocError> {
    let texts = files_of(alloc, files)?;
    if texts.is_empty() || texts.len() > 64 {
        return String::from_str(alloc, "no such number of files");
    }
    match read_unit(alloc, texts.as_slice()) {
        Ok(unit) => unit_text(alloc, told, layout, &unit),
        Err(AsmError::Fault(fault)) => String::from_str(alloc, fault.kind.text()),
        Err(AsmError::OutOfMemory) => Err(AllocError),
    }
}

/// What is told of the code of these files in the terms of a subject; nothing of a subject that isn't code.
pub fn coded(alloc: Global, subject: &str, files: &[u8]) -> Result<Option<String>, AllocError> {
    let (told, layout) = match subject {
        "sizes" => (Told::Sizes, Layout::Postprocessed),
        "words" => (Told::Words, Layout::Postprocessed),
        "plain words" => (Told::Words, Layout::Unchanged),
        "lines" => (Told::Lines, Layout::Postprocessed),
        "plain lines" => (Told::Lines, Layout::Unchanged),
        "rows" => (Told::Rows, Layout::Postprocessed),
        "plain rows" => (Told::Rows, Layout::Unchanged),
        "names" => (Told::Instructions, Layout::Postprocessed),
        "plain names" => (Told::Instructions, Layout::Unchanged),
        _ => return Ok(None),
    };
    Ok(Some(files_text(alloc, told, layout, files)?))
}
