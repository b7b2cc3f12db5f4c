//! The outside itself: files, a reader as a source and a writer as a sink. They count their faults and tell nothing of
//! content. `main` makes them from its runtime `rt`: `RealFiles::open(&rt)`, `RealSource::open(rt.stdin())`,
//! `RealSink::open(Printer::Out(rt.stdout()))` and `RealSink::open(Printer::Error(rt.stderr()))`.
ghost use Rattle.std.specs.Prelude.{◌≡◌, ◌≤◌, ◌<◌, length, None, IfOk, OnErr};
ghost use Rattle.st_base.specs.Outside.{HasRisen};

use crate::fault_count::FaultCount;
use crate::outside::{Failed, Files, Sink, Source};
use std::fs::File;
use std::io;
use std::io::{Read, Seek, SeekFrom, Stderr, Stdout, Write};
use std::marker::Model;
use std::rt::Files as System;

/// The files of a system. Contracts see it as its count of faults.
#[derive(Drop)]
pub struct RealFiles<R> {
    system: R,
    faults: FaultCount,
}

impl<R> Model for RealFiles<R> {
    ghost use Rattle.std.specs.Prelude.{ℕ};

    ghost Value = { ℕ };

    ghost view = { λ s. s.faults };
}

impl<R: System> RealFiles<R> {
    /// The files that this runtime reaches.
    pub fn open(system: R) -> RealFiles<R>
        ensures { result ≡ 0 }
    {
        RealFiles {
            system,
            faults: FaultCount::new(),
        }
    }

    /// How many calls have failed.
    pub fn faults(&self) -> u64
        ensures { result ≡ self.now }
    {
        self.faults.get()
    }
}

impl<R: System> Files for RealFiles<R> {
    ghost contents = { λ _. None };

    ghost faults = { λ s. s };

    /// Opens the file at each call; any error of the system is a fault.
    fn read_at(&mut self, name: &str, place: u64, buf: &mut [u8]) -> Result<usize, Failed>
        ensures faults { self.old ≤ self.new }
        ensures failed { OnErr result (HasRisen self.old self.new) }
        ensures good { IfOk result (λ n. self.new ≡ self.old) }
        ensures within { IfOk result (λ n. n ≤ length buf.old) }
    {
        match read_from(&self.system, name, place, buf) {
            Ok(n) => Ok(n),
            Err(_) => Err(self.faults.raise()),
        }
    }
}

fn read_from<R: System>(system: &R, name: &str, place: u64, buf: &mut [u8]) -> io::Result<usize>
    ensures { IfOk result (λ n. n ≤ length buf.old) }
{
    let mut file = File::open(system, name)?;
    file.seek(SeekFrom::Start(place))?;
    file.read(buf)
}

/// A reader as a source, such as standard input. Contracts see it as its count of faults.
#[derive(Drop)]
pub struct RealSource<R> {
    reader: R,
    faults: FaultCount,
}

impl<R> Model for RealSource<R> {
    ghost use Rattle.std.specs.Prelude.{ℕ};

    ghost Value = { ℕ };

    ghost view = { λ s. s.faults };
}

impl<R: Read> RealSource<R> {
    /// What this reader gives.
    pub fn open(reader: R) -> RealSource<R>
        ensures { result ≡ 0 }
    {
        RealSource {
            reader,
            faults: FaultCount::new(),
        }
    }

    /// How many calls have failed.
    pub fn faults(&self) -> u64
        ensures { result ≡ self.now }
    {
        self.faults.get()
    }
}

impl<R: Read> Source for RealSource<R> {
    ghost left = { λ _. None };

    ghost faults = { λ s. s };

    /// Reads once; any error of the reader is a fault.
    fn take(&mut self, buf: &mut [u8]) -> Result<usize, Failed>
        ensures faults { self.old ≤ self.new }
        ensures failed { OnErr result (HasRisen self.old self.new) }
        ensures good { IfOk result (λ n. self.new ≡ self.old) }
        ensures within { IfOk result (λ n. n ≤ length buf.old) }
    {
        match self.reader.read(buf) {
            Ok(n) => Ok(n),
            Err(_) => Err(self.faults.raise()),
        }
    }
}

/// Standard output or standard error, as writers of one type.
#[derive(Clone, Copy)]
pub enum Printer {
    Out(Stdout),
    Error(Stderr),
}

impl Write for Printer {
    fn write(&mut self, buf: &[u8]) -> io::Result<usize> {
        match self {
            Printer::Out(stream) => stream.write(buf),
            Printer::Error(stream) => stream.write(buf),
        }
    }

    fn flush(&mut self) -> io::Result<()> {
        match self {
            Printer::Out(stream) => stream.flush(),
            Printer::Error(stream) => stream.flush(),
        }
    }
}

/// A writer that keeps nothing back as a sink, such as a `Printer`. Contracts see it as its count of faults.
#[derive(Drop)]
pub struct RealSink<W> {
    writer: W,
    faults: FaultCount,
}

impl<W> Model for RealSink<W> {
    ghost use Rattle.std.specs.Prelude.{ℕ};

    ghost Value = { ℕ };

    ghost view = { λ s. s.faults };
}

impl<W: Write> RealSink<W> {
    /// What is put goes to this writer.
    pub fn open(writer: W) -> RealSink<W>
        ensures { result ≡ 0 }
    {
        RealSink {
            writer,
            faults: FaultCount::new(),
        }
    }

    /// How many calls have failed.
    pub fn faults(&self) -> u64
        ensures { result ≡ self.now }
    {
        self.faults.get()
    }
}

impl<W: Write> Sink for RealSink<W> {
    ghost taken = { λ _. None };

    ghost faults = { λ s. s };

    /// Writes once; any error of the writer is a fault, and so is a piece of which it takes nothing.
    fn put(&mut self, piece: &[u8]) -> Result<usize, Failed>
        ensures faults { self.old ≤ self.new }
        ensures failed { OnErr result (HasRisen self.old self.new) }
        ensures good { IfOk result (λ n. self.new ≡ self.old) }
        ensures within { IfOk result (λ n. n ≤ length piece.now) }
        ensures some { IfOk result (λ n. 0 < length piece.now → 0 < n) }
    {
        match self.writer.write(piece) {
            Ok(n) if n > 0 || piece.is_empty() => Ok(n),
            _ => Err(self.faults.raise()),
        }
    }
}
