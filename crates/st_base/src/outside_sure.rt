//! The outside held in memory, without calls that are to fail. No call but `SureSink::open` takes memory.
pub(crate) mod files;
pub(crate) mod sink;
pub(crate) mod source;

pub use files::SureFiles;
pub use sink::SureSink;
pub use source::SureSource;
