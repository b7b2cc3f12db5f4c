//! Names of the runtime's entries, and names that are local to their file.
ghost use Rattle.std.specs.Prelude.{◌≡◌, map, is_some};
ghost use Rattle.st_line.specs.Operands.{named_in};
ghost use Rattle.st_asm.specs.Labels.{entry_at, is_entry, is_local, scope_of};

use st_base::entry::ENTRIES;

fn address_in(table: &[(u32, &str)], name: &[u8]) -> Option<u32>
    ensures { result ≡ named_in (map (λ p. (p.0, p.1.now)) table.now) name.now }
{
    for (address, entry) in table {
        if entry.as_bytes() == name {
            return Some(*address);
        }
    }
    None
}

/// The address of the entry of this name, in bytes; `None` where no entry has it.
#[tactic(auto, using(crate::proofs::EntryNames::entries_named))]
pub fn entry_at(name: &[u8]) -> Option<u32>
    ensures { result ≡ entry_at name.now }
{
    address_in(&ENTRIES, name)
}

/// Whether an entry has this name.
#[tactic(auto, using(crate::proofs::EntryNames::is_entry_from_address))]
pub fn is_entry(name: &[u8]) -> bool
    ensures { result ≡ is_entry name.now }
{
    entry_at(name).is_some()
}

/// Whether a name begins with `.L`, and so is local to its file.
pub fn is_local(name: &[u8]) -> bool
    ensures { result ≡ is_local name.now }
{
    matches!(name, [b'.', b'L', ..])
}

/// The file of a local name, and 0 for a name that all files share.
pub(crate) fn scope_of(file: u32, name: &[u8]) -> u32
    ensures { result ≡ scope_of file name.now }
{
    if is_local(name) { file } else { 0 }
}
