//! Why a unit gave no program.
use crate::fault::FormFault;
use st_base::failure::Failure;

/// Why a unit gave no program: its first fault, for which it isn't accepted, or want of memory.
pub type FormError = Failure<FormFault>;
