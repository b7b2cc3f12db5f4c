//! What follows from the lists for each view: a law without code.
ghost use Rattle.st_spots.specs.Laws.{ViewLaws};

/// A number is once in a hand, and in one hand; hands and ready numbers are apart, and below the number of cells.
pub fn view_laws()
    ensures { ViewLaws }
{}
