//! The runtime's entries: their addresses, which stand below the code, and the names by which a program calls them.
ghost use Rattle.std.specs.Prelude.{◌≡◌, map};
ghost use Rattle.st_base.specs.Entry.{address_of, name_of, entry_at, entry_rows};

/// An entry of the runtime.
#[derive(Clone, Copy, PartialEq, Eq, Debug)]
pub enum Entry {
    /// What stands before a fork's call.
    ForkIn,
    /// What stands behind a fork's call.
    ForkOut,
    /// Where a thread's first function returns to.
    End,
    Touch,
    Counter,
    Done,
    Join,
    Poll,
    Putc,
}

/// Calls a macro with the whole list: each entry with its address and its name, by ascending address. Everything that goes
/// entry by entry is expanded from it.
macro_rules! each_entry {
    ($then:ident) => {
        $then! {
            (ForkIn, 0x10, "st_fork_in")
            (ForkOut, 0x20, "st_fork_out")
            (End, 0x30, "st_end")
            (Touch, 0x40, "st_touch")
            (Counter, 0x50, "st_counter")
            (Done, 0x60, "st_done")
            (Join, 0x70, "st_join")
            (Poll, 0x80, "st_poll")
            (Putc, 0x90, "st_putc")
        }
    };
}

macro_rules! rows {
    ($(($entry:ident, $address:literal, $name:literal))*) => {
        [$(($address, $name)),*]
    };
}

/// The address of each entry with its name, ascending.
pub const ENTRIES: [(u32, &str); 9] = each_entry!(rows);

/// The table has each entry's address and name.
pub fn entries_in_order()
    ensures { map (λ p. (p.0, p.1.now)) ENTRIES ≡ entry_rows }
{}

impl Entry {
    /// Where it stands.
    pub fn address(self) -> u32
        ensures { result ≡ address_of self }
    {
        macro_rules! arms {
            ($(($entry:ident, $address:literal, $name:literal))*) => {
                match self {
                    $(Entry::$entry => $address,)*
                }
            };
        }
        each_entry!(arms)
    }

    /// The name by which a program calls it.
    pub fn name(self) -> &'static str
        ensures { result.now ≡ name_of self }
    {
        macro_rules! arms {
            ($(($entry:ident, $address:literal, $name:literal))*) => {
                match self {
                    $(Entry::$entry => $name,)*
                }
            };
        }
        each_entry!(arms)
    }

    /// The entry of an address; `None` where none stands there.
    pub fn at(address: u32) -> Option<Entry>
        ensures { result ≡ entry_at address }
    {
        macro_rules! arms {
            ($(($entry:ident, $address:literal, $name:literal))*) => {
                match address {
                    $($address => Some(Entry::$entry),)*
                    _ => None,
                }
            };
        }
        each_entry!(arms)
    }
}
