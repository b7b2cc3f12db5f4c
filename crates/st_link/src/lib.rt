//! The linker: encodes laid out code into an image. Calls, jumps and branches get their distances.
//!
//! `link` makes the image of postprocessed code, `link_plain` that of the unchanged code. Both refuse the same units: those with a
//! branch that doesn't reach in the postprocessed layout.
#![tactic(auto)]

mod encoded;
mod error;
mod far;
mod image;

pub use error::{LinkError, LinkFault};
pub use image::{link, link_plain};
