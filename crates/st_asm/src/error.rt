//! Why texts gave no unit.
use st_base::failure::Failure;
use st_line::AsmFault;

/// Why texts gave no unit: their first fault, or want of memory.
pub type AsmError = Failure<AsmFault>;
