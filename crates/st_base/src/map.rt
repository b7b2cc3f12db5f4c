//! The map of memory, and the sizes that a unit and its run may have.

/// Where the code begins.
pub const CODE_START: u32 = 0x1_0000;
/// Where the read-only data begin.
pub const DATA_START: u32 = 0x2000_0000;
/// Where the input begins.
pub const INPUT_START: u32 = 0x4000_0000;
/// Where the stacks begin: worker 0's, then worker 1's and so on.
pub const STACKS_START: u64 = 0x8000_0000;
/// How many bytes the stacks have together.
pub const STACKS_BYTES: u64 = 0x1_0000_0000;

/// How many bytes the texts of a unit may have together.
pub const MOST_TEXT: usize = 1_048_576;
/// How many instruction lines a unit may have.
pub const MOST_INSTRUCTIONS: u32 = 65_536;
/// How many bytes of read-only data a unit may have.
pub const MOST_DATA: usize = 1_048_576;
/// How many bytes of input a run may have.
pub const MOST_INPUT: usize = 16_777_216;
/// How many bytes a run may print.
pub const MOST_PRINTED: usize = 1_048_576;
