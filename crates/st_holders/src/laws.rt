//! What follows from the leases for held words and leased frames: a law without code.
ghost use Rattle.st_holders.specs.Laws.{HeldLaws};

/// A held word has its keeper's value and one keeper; leased frames are apart.
pub fn held_laws()
    ensures { HeldLaws }
{}
