//! Text that is written piece by piece.
ghost use Rattle.std.specs.Prelude.{◌≡◌, ◌++◌, map, OnOk};
ghost use Rattle.st_print.specs.Joined.{joined};

use std::alloc::AllocError;

/// Adds the pieces, one after another.
pub(crate) fn push_pieces(text: &mut Vec<u8>, pieces: &[&[u8]]) -> Result<(), AllocError>
    ensures { OnOk result (text.new.items ≡ text.old.items ++ joined (map (λ p. p.now) pieces.now)) }
{
    for piece in pieces {
        text.extend_from_slice(piece)?;
    }
    Ok(())
}
