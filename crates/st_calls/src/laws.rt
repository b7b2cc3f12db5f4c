//! Laws without code.
ghost use Rattle.st_calls.specs.Calling.{MakingLaws, EntryLaws, EndLaws, ServingLaws};
ghost use Rattle.std.specs.Prelude.{ℕ, List};
ghost use Rattle.st_base.specs.declared.image.Image.{Image};
ghost use Rattle.st_base.specs.declared.limits.Limits.{Limits};
ghost use Rattle.st_model.specs.declared.program.Program.{Program};
ghost use Rattle.st_model.specs.Memory.{Data};

/// What the phases of an entry that makes a cell have to show.
pub fn making_laws()
    ensures { (p : Program) (d : Data) (limits : Limits) (image : Image) (input : List ℕ) → MakingLaws p d limits image input }
{}

/// What the phases of an entry that names a cell have to show.
pub fn entry_laws()
    ensures { (p : Program) (d : Data) (limits : Limits) (image : Image) (input : List ℕ) → EntryLaws p d limits image input }
{}

/// What the phases of a thread's end have to show.
pub fn end_laws()
    ensures { (p : Program) (d : Data) (limits : Limits) (image : Image) (input : List ℕ) → EndLaws p d limits image input }
{}

/// What a worker that runs has to show where its machine is at an entry of the runtime.
pub fn serving_laws()
    ensures { (p : Program) (d : Data) (limits : Limits) (image : Image) (input : List ℕ) → ServingLaws p d limits image input }
{}
