//! Laws without code.
ghost use Rattle.st_leaves.specs.Entering.{EnteringLaws};
ghost use Rattle.st_leaves.specs.Leaving.{LeaversFit};
ghost use Rattle.st_model.specs.declared.program.Program.{Program};
ghost use Rattle.st_model.specs.Memory.{Data};

/// Each phase of a thread that leaves keeps a worker that fits its board's view.
pub fn leavers_fit()
    ensures { LeaversFit }
{}

/// A thread begins to leave its worker, where it waits or has stopped.
pub fn entering_laws()
    ensures { (p : Program) (d : Data) → EnteringLaws p d }
{}
