//! Laws without code.
ghost use Rattle.st_settled.specs.Settling.{SettledView, UnreadStays, LateKeeps, TurnsTick};

/// A view that a worker fits is brought forward by nothing.
pub fn settled_view()
    ensures { SettledView }
{}

/// What a worker that fits doesn't speak of may be other, in the worker and in its view.
pub fn unread_stays()
    ensures { UnreadStays }
{}

/// A worker fits where it has read the stop word before all else.
pub fn late_keeps()
    ensures { LateKeeps }
{}

/// A worker fits the same views when a turn is counted.
pub fn turns_tick()
    ensures { TurnsTick }
{}
