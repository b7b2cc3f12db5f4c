//! What a worker's view comes to by itself, as functions of the view, is made by single moves: laws without code.
ghost use Rattle.st_ahead.specs.Laws.{BroughtIsMade, ItemsAreBrought};
ghost use Rattle.st_ahead.specs.NamingLaws.{AllNamed, BroughtOn};

/// What a view is brought to is made by the worker itself.
pub fn brought_is_made()
    ensures { BroughtIsMade }
{}

/// So many private items of the top thread lead to the view that is brought by so many, where a name has one cell and a cell one value.
pub fn items_are_brought()
    ensures { ItemsAreBrought }
{}

/// Whatever the other moves leave, as functions of the view, is made by the worker itself, where they may be made.
pub fn all_named()
    ensures { AllNamed }
{}

/// The view that is brought by one item more is the one after the next item.
pub fn brought_on()
    ensures { BroughtOn }
{}
