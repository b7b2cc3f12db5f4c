//! What the view after a step is known to have, for those who name it: laws without code.
ghost use Rattle.st_words.specs.Laws.{NamedIsWithin, SizeLaws, StoreLaws, MarkLaws, LookLaws, TakeLaws, PutLaws, CargoLaws, HandLaws};
ghost use Rattle.st_words.specs.Leased.{LeasedLaws};

/// The view that is named by `named` is one that every board allows.
pub fn named_is_within()
    ensures { NamedIsWithin }
{}

/// No step changes a size.
pub fn size_laws()
    ensures { SizeLaws }
{}

/// A stored word is read back, and other words stay.
pub fn store_laws()
    ensures { StoreLaws }
{}

/// A leased frame that is marked is given up with its words; another return word becomes 0.
pub fn mark_laws()
    ensures { MarkLaws }
{}

/// An exported frame whose return word is 0 is the worker's again, with its words.
pub fn look_laws()
    ensures { LookLaws }
{}

/// A chain that is taken comes into the turn with its words, frames and names.
pub fn take_laws()
    ensures { TakeLaws }
{}

/// A chain that is put goes out of the turn with its words and frames.
pub fn put_laws()
    ensures { PutLaws }
{}

/// What goes with a chain of the turn can be named, so that it may be put.
pub fn cargo_laws()
    ensures { CargoLaws }
{}

/// Numbers come into the hand and go out of it.
pub fn hand_laws()
    ensures { HandLaws }
{}

/// A worker keeps its leased frames apart and held, from step to step; a chain that it took whole it may put again.
pub fn leased_laws()
    ensures { LeasedLaws }
{}
