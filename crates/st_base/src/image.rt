//! The program as it is run: encoded words, with what the runtime knows of them.
use crate::line::Line;
use crate::lists::Listed;
use crate::path::Bytes;
use crate::reg::Reg;

/// What the runtime knows of the frames of one function's code.
#[derive(Clone, Copy)]
pub struct FrameRow {
    /// The address of the function's first word.
    pub code_from: u32,
    /// The address past its last word.
    pub code_to: u32,
    pub frame_bytes: u32,
    /// The saved registers: bit i-1 stands for s_i.
    pub saved: u16,
    /// The address of the function's pure copy of its epilogue.
    pub pure_at: u32,
    /// The line of the function.
    pub line: Line,
}

/// A fork in the code.
#[derive(Clone, Copy)]
pub struct ForkRow {
    /// The address of the first of the three jumps.
    pub at: u32,
    /// The register that gets the future's handle.
    pub handle: Reg,
}

/// A program as it is run.
#[derive(Drop)]
pub struct Image {
    pub words: Listed<u32>,
    pub rows: Listed<FrameRow>,
    pub forks: Listed<ForkRow>,
    pub rodata: Bytes,
    /// The line of each word.
    pub lines: Listed<Line>,
    /// Whether a word is the first of its item, for each word.
    pub begins: Listed<bool>,
    /// The address of `main`.
    pub main_at: u32,
}
