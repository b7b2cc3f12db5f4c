//! What a plain board keeps for contracts alone: its workers' views, and what goes with the chains in its slots. It has no bytes.
ghost use Rattle.std.specs.Prelude.{◌≡◌, List, []};
ghost use Rattle.std.specs.Borrow.{ftrue};
ghost use Rattle.st_words.specs.declared.view.View.{View};
ghost use Rattle.st_words.specs.Plain.{Cargoes};

use crate::words::Words;
use st_base::limits::Limits;
use std::marker::{Brand, Model};

/// What a call picks to be kept.
pub trait Names {
    ghost views: { List View };

    ghost cargoes: { Cargoes };
}

impl Names for Brand {
    ghost views = { [] };

    ghost cargoes = { record { cells = []; mail = [] } };
}

/// The views of a plain board's workers, and what goes with the chains in its slots.
#[derive(Drop)]
pub struct Kept {
    pub ghost views: { List View },
    pub ghost cargoes: { Cargoes },
}

impl Model for Kept {
    ghost also_owns = { λ _. ftrue };
}

impl Kept {
    /// What the call picks.
    pub fn of<N: Names>() -> Kept
        ensures { (result.views ≡ N.views) × (result.cargoes ≡ N.cargoes) }
    {
        Kept {}
    }
}

/// What the call picks, from what was kept, the words before the step, and what it is told of the step.
pub fn kept_by<N: Names, T>(_kept: &Kept, _words: &Words, _step: &T) -> Kept
    ensures views { result.views ≡ N.views }
    ensures cargoes { result.cargoes ≡ N.cargoes }
{
    Kept::of::<N>()
}

/// What the call picks for a board with these limits and so many workers.
pub fn first_kept<N: Names>(_limits: &Limits, _workers: u32) -> Kept
    ensures views { result.views ≡ N.views }
    ensures cargoes { result.cargoes ≡ N.cargoes }
{
    Kept::of::<N>()
}
