//! The outside held in memory, with calls that are to fail: what a program meets is told in full, so a run over it is
//! known in full too. The numbers of the calls that are to fail are counted from 1; such a call moves no byte and
//! raises the count of faults. No call but `MemSink::open` takes memory.
pub(crate) mod calls;
pub(crate) mod files;
pub(crate) mod sink;
pub(crate) mod source;

pub use files::MemFiles;
pub use sink::MemSink;
pub use source::MemSource;
