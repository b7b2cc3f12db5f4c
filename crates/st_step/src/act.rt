//! What an instruction does, as data: it is chosen by the instruction and the machine as it stands, and then carried out.
use st_base::reg::Reg;
use st_base::thread::TrapKind;
use st_rv::ins::Op;

/// What an instruction does: it changes the machine alone, or makes one step of the board, or stops.
#[derive(PartialEq, Debug, Drop)]
pub(crate) enum Act {
    /// A result goes into a register, and the next instruction follows.
    Result {
        rd: Reg,
        value: u64,
    },
    /// The instruction at this address follows.
    Go {
        pc: u32,
    },
    /// The same, with the address behind the jump in a register.
    Link {
        rd: Reg,
        pc: u32,
    },
    /// The stack word at an address goes into a register.
    LoadWord {
        rd: Reg,
        address: u64,
    },
    /// The stack word at an address is stored.
    StoreWord {
        address: u64,
        value: u64,
    },
    /// Bytes of a stack word go into a register, as the load extends them; the low three bits of the address tell the first of them.
    Load {
        op: Op,
        rd: Reg,
        place: u32,
        address: u64,
    },
    /// The word that a store of less than eight bytes is to change is loaded.
    Fetch {
        place: u32,
    },
    /// A stack word is stored.
    Store {
        place: u32,
        value: u64,
    },
    /// The return word of a frame is marked.
    Mark {
        place: u32,
    },
    /// It traps, and leaves the machine as it is.
    Trap(TrapKind),
    /// The stack has no room for a frame of so many bytes; the machine is left as it is.
    StackFull {
        frame: u32,
    },
    /// It is no instruction of a posted program here.
    Outside,
}
