//! The state of the machine as plain data.

/// 32 registers, a pc, the two ends of a stack, and at most one store that is half done.
#[derive(Clone, Copy)]
pub struct State {
    /// What x0 to x31 hold.
    pub registers: [u64; 32],
    /// The address of the next instruction.
    pub pc: u32,
    /// The low end of the stack.
    pub lo: u64,
    /// Its high end.
    pub hi: u64,
    /// Of a store of less than eight bytes whose word was loaded, that word.
    pub half: Option<u64>,
}
