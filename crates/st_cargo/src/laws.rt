//! What goes with a chain that is put: laws without code.
ghost use Rattle.st_cargo.specs.Cargo.{ChainsCarried};

/// A chain of the turn, which stands for its thread over leased frames, may be put with what the worker's view tells of it.
pub fn chains_carried()
    ensures { ChainsCarried }
{}
