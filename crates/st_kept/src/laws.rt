//! Laws without code.
ghost use Rattle.st_kept.specs.Keeping.{NoItemLaws, LeavingLaws, KeepingLaws};
ghost use Rattle.st_kept.specs.Going.{GoingLaws};
ghost use Rattle.st_kept.specs.Resting.{RestingLaws, ChainLaws};
ghost use Rattle.std.specs.Prelude.{ℕ, List};
ghost use Rattle.st_base.specs.declared.image.Image.{Image};
ghost use Rattle.st_base.specs.declared.limits.Limits.{Limits};
ghost use Rattle.st_model.specs.declared.program.Program.{Program};
ghost use Rattle.st_model.specs.Memory.{Data};

/// A step with which no item goes may be asked where it is safe, and leaves the threads.
pub fn no_item_laws()
    ensures { (p : Program) (d : Data) (limits : Limits) → NoItemLaws p d limits }
{}

/// What each step leaves of a view.
pub fn leaving_laws()
    ensures { (p : Program) (d : Data) → LeavingLaws p d }
{}

/// What a worker is for, and what it keeps, by what is the same of it and of its view.
pub fn keeping_laws()
    ensures { (p : Program) (d : Data) (limits : Limits) (image : Image) (input : List ℕ) → KeepingLaws p d limits image input }
{}

/// A worker's threads stand over a view with the same words, frames and threads, and more names.
pub fn resting_laws()
    ensures { (p : Program) (d : Data) → RestingLaws p d }
{}

/// They rest when a chain is taken, and when one is put.
pub fn chain_laws()
    ensures { (p : Program) (d : Data) → ChainLaws p d }
{}

/// A thread goes on where its worker polls.
pub fn going_laws()
    ensures { (p : Program) (d : Data) → GoingLaws p d }
{}
