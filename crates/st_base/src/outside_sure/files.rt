//! Files held in memory, whose reading fails for a missing file alone.
ghost use Rattle.std.specs.Prelude.{◌≡◌, ◌≤◌, ◌↔◌, ◌-◌, length, min, map, Some, None, IsErr, IfOk, IsSomeAnd, OnErr, OnOk};
ghost use Rattle.st_base.specs.Outside.{HasRisen, IsReadAt, next_count};
ghost use Rattle.st_base.specs.OutsideMemory.{name_and_bytes, file_named};

use crate::fault_count::FaultCount;
use crate::outside::{Failed, Files};
use crate::outside_memory::files::{find, from_place};
use crate::outside_memory::source::fill_front;
use std::marker::Model;

/// Files over memory; a call fails for a missing file alone. Of two files of one name the first counts.
#[derive(Drop)]
pub struct SureFiles {
    files: Vec<(String, Vec<u8>)>,
    faults: FaultCount,
}

impl Model for SureFiles {
    ghost use Rattle.std.specs.Prelude.{map};
    ghost use Rattle.st_base.specs.OutsideMemory.{NamedFiles, name_and_bytes};

    ghost Value = { NamedFiles };

    ghost view = { λ s. record { files = map name_and_bytes s.files.items; faults = s.faults } };
}

impl SureFiles {
    /// These files, by their names.
    pub fn open(files: Vec<(String, Vec<u8>)>) -> SureFiles
        ensures files { result.files ≡ map name_and_bytes files.items }
        ensures faults { result.faults ≡ 0 }
    {
        SureFiles {
            files,
            faults: FaultCount::new(),
        }
    }

    /// How many calls have failed.
    pub fn faults(&self) -> u64
        ensures { result ≡ self.now.faults }
    {
        self.faults.get()
    }
}

impl Files for SureFiles {
    ghost contents = { λ s. Some (file_named s.files) };

    ghost faults = { λ s. s.faults };

    /// Reads as many bytes as `buf` has room for; fails for a missing file alone.
    fn read_at(&mut self, name: &str, place: u64, buf: &mut [u8]) -> Result<usize, Failed>
        ensures fails { IsErr result ↔ (file_named self.old.files name.now ≡ None) }
        ensures counted { OnErr result (self.new.faults ≡ next_count self.old.faults) }
        ensures good { OnOk result (self.new.faults ≡ self.old.faults) }
        ensures files { self.new.files ≡ self.old.files }
        ensures count { IfOk result (λ n. IsSomeAnd (file_named self.old.files name.now) (λ file. n ≡ min (length buf.old) (length file - place))) }

        ensures faults { self.old.faults ≤ self.new.faults }
        ensures failed { OnErr result (HasRisen self.old.faults self.new.faults) }
        ensures untouched { OnErr result (buf.new ≡ buf.old) }
        ensures within { IfOk result (λ n. n ≤ length buf.old) }
        ensures read { IfOk result (λ n. IsSomeAnd (file_named self.old.files name.now) (λ file. IsReadAt file place n buf.old buf.new)) }
    {
        match find(self.files.as_slice(), name) {
            Some(file) => Ok(fill_front(buf, from_place(file, place))),
            None => Err(self.faults.raise()),
        }
    }
}
