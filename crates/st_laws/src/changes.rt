//! What one item changes, and what changes come to over a run.

ghost use Rattle.st_laws.specs.Changes.{BytesAreCounted, CellsAreCounted, ForkMakes, ItemChanges, OneIsDrawn, TalliesStay};

/// An item changes its thread's forks, counters and bytes by the child, the cells and the byte that it makes; the root alone prints.
pub fn item_changes()
    ensures { ItemChanges }
{}

/// An item that draws no cell and prints nothing makes no child, and leaves forks, counters and bytes as they were.
pub fn tallies_stay()
    ensures { TalliesStay }
{}

/// An item that makes a child or a counter draws one cell, and no other item draws.
pub fn one_is_drawn()
    ensures { OneIsDrawn }
{}

/// After a fork its thread has one fork more, the child is there, and nothing else is changed.
pub fn fork_makes()
    ensures { ForkMakes }
{}

/// In each reached heap the root has printed as many bytes as there are, no other thread any, and the root alone is full.
pub fn bytes_are_counted()
    ensures { BytesAreCounted }
{}

/// A reached heap has no more threads and counters than the cells that its run has drawn.
pub fn cells_are_counted()
    ensures { CellsAreCounted }
{}
