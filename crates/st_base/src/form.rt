//! Faults of form: why a unit isn't accepted.

/// A fault of a unit's form.
#[derive(Clone, Copy, PartialEq, Eq, Debug)]
pub enum FormKind {
    /// There is no function `main`, or it has other arguments than it may.
    NoMain,
    /// A function doesn't open with a whole prologue.
    Prologue,
    /// An epilogue departs from its form, or a return stands outside one.
    Epilogue,
    /// A frame's size isn't a multiple of 16 in its range, or has no room for what is saved and for the handles.
    FrameSize,
    /// An access isn't aligned or isn't wholly in the slots of its class.
    SlotRange,
    /// A body instruction has a register that its class forbids.
    Partition,
    /// A saved register is written that the prologue doesn't save.
    NotSaved,
    /// A branch or jump leaves the body of its function.
    BranchOut,
    /// A function's last instruction goes on past its end.
    FallsOut,
    /// A fork's line isn't directly before a call, or names no register that may hold its handle.
    ForkPlace,
    /// A register or slot byte is read that some path doesn't write before.
    UndefinedRead,
    /// A call of no function and no runtime call, or an address of no read-only data.
    BadCall,
}
