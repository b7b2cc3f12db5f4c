//! What the threads of an accepted program read.

ghost use Rattle.st_laws.specs.Defined.{HeapDefined};

/// In every run of an accepted program each thread that has not stopped has a next item, which reads nothing undefined.
pub fn heap_defined()
    ensures { HeapDefined }
{}
