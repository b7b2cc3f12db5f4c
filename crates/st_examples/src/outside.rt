//! The outside (st_base) in its forms, each called through the bounds: what each call of a row moves, `-` where it fails.
use st_base::outside::{Files, Sink, Source};
use st_base::outside_memory::{MemFiles, MemSink, MemSource};
use st_base::outside_sure::{SureFiles, SureSink, SureSource};
use std::alloc::{AllocError, Global};

/// What a read of four bytes at most gives.
fn read<F: Files>(
    alloc: Global,
    files: &mut F,
    name: &str,
    place: u64,
) -> Result<String, AllocError> {
    let mut buf = [0u8; 4];
    match files.read_at(name, place, &mut buf) {
        Ok(n) => String::from_str(alloc, str::from_utf8(&buf[..n]).unwrap_or("?")),
        Err(_) => String::from_str(alloc, "-"),
    }
}

/// What reads of four bytes at most give: `NAME PLACE`, and so on behind each `;`.
pub fn read_each<F: Files>(
    alloc: Global,
    files: &mut F,
    calls: &str,
) -> Result<String, AllocError> {
    let mut text = String::new(alloc);
    for call in calls.split(';') {
        let (name, place) = call.split_once(' ').unwrap_or((call, "0"));
        let told = read(alloc, files, name, place.parse().unwrap_or(0))?;
        text.push_str(told.as_str())?;
        text.push_str(", ")?;
    }
    Ok(text)
}

/// What a take of four bytes at most gives.
fn taken<S: Source>(alloc: Global, source: &mut S) -> Result<String, AllocError> {
    let mut buf = [0u8; 4];
    match source.take(&mut buf) {
        Ok(n) => String::from_str(alloc, str::from_utf8(&buf[..n]).unwrap_or("?")),
        Err(_) => String::from_str(alloc, "-"),
    }
}

/// What so many takes give.
pub fn take_each<S: Source>(
    alloc: Global,
    source: &mut S,
    times: u32,
) -> Result<String, AllocError> {
    let mut text = String::new(alloc);
    for _ in 0..times {
        let told = taken(alloc, source)?;
        text.push_str(told.as_str())?;
        text.push_str(", ")?;
    }
    Ok(text)
}

/// How many bytes are put of each piece between bars.
pub fn put_each<K: Sink>(alloc: Global, sink: &mut K, pieces: &str) -> Result<String, AllocError> {
    let mut text = String::new(alloc);
    for piece in pieces.split('|') {
        let told = match sink.put(piece.as_bytes()) {
            Ok(n) => format!(in alloc; "{n}, ")?,
            Err(_) => String::from_str(alloc, "-, ")?,
        };
        text.push_str(told.as_str())?;
    }
    Ok(text)
}

/// Two files, the first of which has a second text that doesn't count.
fn named(alloc: Global) -> Result<Vec<(String, Vec<u8>)>, AllocError> {
    let mut files = Vec::new(alloc);
    for (name, text) in [("a.s", "first"), ("b.s", "other"), ("a.s", "again")] {
        let bytes = Vec::from_slice(alloc, text.as_bytes())?;
        files.push((String::from_str(alloc, name)?, bytes))?;
    }
    Ok(files)
}

/// Reads, of which the second fails.
pub fn mem_files(alloc: Global, calls: &str) -> Result<String, AllocError> {
    let mut files = MemFiles::open(named(alloc)?, vec![in alloc; 2]?);
    let text = read_each(alloc, &mut files, calls)?;
    format!(in alloc; "{text}{} faults", files.faults())
}

pub fn sure_files(alloc: Global, calls: &str) -> Result<String, AllocError> {
    let mut files = SureFiles::open(named(alloc)?);
    let text = read_each(alloc, &mut files, calls)?;
    format!(in alloc; "{text}{} faults", files.faults())
}

/// Takes, of which the second and the fourth fail.
pub fn mem_source(alloc: Global, times: &str) -> Result<String, AllocError> {
    let bytes = Vec::from_slice(alloc, b"abcdef")?;
    let mut source = MemSource::open(bytes, vec![in alloc; 4, 2]?);
    let text = take_each(alloc, &mut source, times.parse().unwrap_or(0))?;
    format!(in alloc; "{text}{} faults", source.faults())
}

pub fn sure_source(alloc: Global, times: &str) -> Result<String, AllocError> {
    let mut source = SureSource::open(Vec::from_slice(alloc, b"abcde")?);
    let text = take_each(alloc, &mut source, times.parse().unwrap_or(0))?;
    format!(in alloc; "{text}left {:?}", source.left())
}

/// Puts into room for five bytes, of which the second fails.
pub fn mem_sink(alloc: Global, pieces: &str) -> Result<String, AllocError> {
    let mut sink = MemSink::open(alloc, 5, vec![in alloc; 2]?)?;
    let text = put_each(alloc, &mut sink, pieces)?;
    let taken = str::from_utf8(sink.taken()).unwrap_or("?");
    format!(in alloc; "{text}{taken}, {} faults", sink.faults())
}

/// Puts into room for five bytes.
pub fn sure_sink(alloc: Global, pieces: &str) -> Result<String, AllocError> {
    let mut sink = SureSink::open(alloc, 5)?;
    let text = put_each(alloc, &mut sink, pieces)?;
    format!(in alloc; "{text}{:?}", sink.taken())
}
