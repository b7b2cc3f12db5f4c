//! What the crates below make of examples: rows of an input and of what it must come to, in the files of `data/`. No clause says that
//! the definitions mean what was meant; these rows do, with values that were worked out by hand or come from another assembler. What
//! is printed says how many rows of each file hold, and tells each row that doesn't.
#![tactic(auto)]

mod acceptance;
mod cases;
mod code;
mod instructions;
mod items;
mod jobs;
mod lines;
mod lists;
mod outside;
mod runs;
mod subjects;
mod tellings;
mod texts;
mod units;

use cases::tried;
use outside::{put_each, read_each, take_each};
use st_base::outside_real::{Printer, RealFiles, RealSink, RealSource};
use std::{env, fs, io};
use texts::Texts;

/// The name of a file without its folder.
fn file_name(path: &str) -> &str {
    match path.rsplit_once('/') {
        Some((_, name)) => name,
        None => path,
    }
}

/// Assembly files are texts that later rows name; the others have rows.
fn main(rt: HostRuntime) -> io::Result<()> {
    let alloc = rt.alloc();
    let mut texts = Texts::new(alloc);
    for path in env::args(&rt)?.skip(1) {
        let text = fs::read_to_string(&rt, path.as_str())?;
        let name = file_name(path.as_str());
        if name.ends_with(".s") {
            texts.add(name, text.as_bytes())?;
        } else {
            let told = tried(alloc, &mut texts, text.as_str())?;
            println!(rt; "{name}: {told}")?;
        }
    }
    let mut files = RealFiles::open(&rt);
    let read = read_each(alloc, &mut files, "hello.txt 2;hello.txt 5;none.txt 2")?;
    println!(rt; "files: {read}{} faults", files.faults())?;
    let mut source = RealSource::open(rt.stdin());
    let taken = take_each(alloc, &mut source, 1)?;
    println!(rt; "input: {taken}{} faults", source.faults())?;
    let mut sink = RealSink::open(Printer::Out(rt.stdout()));
    let put = put_each(alloc, &mut sink, "out\n")?;
    println!(rt; "output: {put}{} faults", sink.faults())?;
    Ok(())
}
