//! Laws of the machines, for every program: each is the contract of a function with an empty body.

ghost use Rattle.st_model.specs.Laws.{AlwaysDefined, BoundedAgrees};

/// An accepted program's ordinary-call run never reads anything undefined.
pub fn always_defined()
    ensures { AlwaysDefined }
{}

/// A bounded run that passes no limit of cells or stack ends as the ordinary run does, and one that ends at its steps is not over then.
pub fn bounded_agrees()
    ensures { BoundedAgrees }
{}
