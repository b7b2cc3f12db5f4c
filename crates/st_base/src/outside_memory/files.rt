//! Files held in memory.
ghost use Rattle.std.specs.Prelude.{◌≡◌, ◌≤◌, ◌↔◌, ◌⊎◌, ◌-◌, length, drop, min, map, Some, None, IsErr, IfOk, IsSomeAnd, OnErr, MatchOption, is_ok};
ghost use Rattle.st_base.specs.Outside.{HasRisen, IsReadAt};
ghost use Rattle.st_base.specs.OutsideMemory.{FailsNext, after_call, planned, name_and_bytes, file_named};

use crate::outside::{Failed, Files};
use crate::outside_memory::calls::Calls;
use crate::outside_memory::source::fill_front;
use std::marker::Model;

/// Files over memory, with calls that are to fail. Of two files of one name the first counts.
#[derive(Drop)]
pub struct MemFiles {
    files: Vec<(String, Vec<u8>)>,
    calls: Calls,
}

impl Model for MemFiles {
    ghost use Rattle.std.specs.Prelude.{map};
    ghost use Rattle.st_base.specs.OutsideMemory.{MemoryFiles, name_and_bytes};

    ghost Value = { MemoryFiles };

    ghost view = { λ s. record { files = map name_and_bytes s.files.items; calls = s.calls } };
}

impl MemFiles {
    /// The given files by their names. The calls of the numbers in `fail`, from 1, are to fail.
    pub fn open(files: Vec<(String, Vec<u8>)>, fail: Vec<u64>) -> MemFiles
        ensures files { result.files ≡ map name_and_bytes files.items }
        ensures calls { result.calls ≡ planned fail.items }
    {
        MemFiles {
            files,
            calls: Calls::new(fail),
        }
    }

    /// How many calls have failed.
    pub fn faults(&self) -> u64
        ensures { result ≡ self.now.calls.faults }
    {
        self.calls.faults()
    }
}

impl Files for MemFiles {
    ghost contents = { λ s. Some (file_named s.files) };

    ghost faults = { λ s. s.calls.faults };

    /// Reads as many bytes as `buf` has room for; fails where the call is to fail, and for a missing file.
    fn read_at(&mut self, name: &str, place: u64, buf: &mut [u8]) -> Result<usize, Failed>
        ensures fails { IsErr result ↔ (FailsNext self.old.calls ⊎ (file_named self.old.files name.now ≡ None)) }
        ensures counted { self.new.calls ≡ after_call (is_ok result) self.old.calls }
        ensures files { self.new.files ≡ self.old.files }
        ensures count { IfOk result (λ n. IsSomeAnd (file_named self.old.files name.now) (λ file. n ≡ min (length buf.old) (length file - place))) }

        ensures faults { self.old.calls.faults ≤ self.new.calls.faults }
        ensures failed { OnErr result (HasRisen self.old.calls.faults self.new.calls.faults) }
        ensures untouched { OnErr result (buf.new ≡ buf.old) }
        ensures within { IfOk result (λ n. n ≤ length buf.old) }
        ensures read { IfOk result (λ n. IsSomeAnd (file_named self.old.files name.now) (λ file. IsReadAt file place n buf.old buf.new)) }
    {
        if self.calls.next_fails() {
            return Err(self.calls.raise());
        }
        match find(self.files.as_slice(), name) {
            Some(file) => Ok(fill_front(buf, from_place(file, place))),
            None => Err(self.calls.raise()),
        }
    }
}

/// The bytes of the first file of a name.
pub(crate) fn find<'a>(files: &'a [(String, Vec<u8>)], name: &str) -> Option<&'a [u8]>
    ensures { let named = file_named (map name_and_bytes files.now) name.now in MatchOption result (named ≡ None) (λ bytes. named ≡ Some bytes.now) }
{
    for (file_name, bytes) in files {
        if file_name.as_str() == name {
            return Some(bytes.as_slice());
        }
    }
    None
}

/// The bytes of a file from a place on.
pub(crate) fn from_place(file: &[u8], place: u64) -> &[u8]
    ensures { result.now ≡ drop place file.now }
{
    let at = (file.len() as u64).min(place) as usize;
    &file[at..]
}
