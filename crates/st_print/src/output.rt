//! Putting whole texts into a sink.
ghost use Rattle.std.specs.Prelude.{◌≡◌, ◌<◌, [], length, map, ◌++◌, IfNone, IfSome};
ghost use Rattle.st_print.specs.Joined.{Puts, joined};

use st_base::outside::{Failed, Sink};

#[tactic(auto, using(crate::proofs::Appending::appending))]
/// Puts all bytes, by as many puts as it takes. Where it fails a prefix was taken.
pub fn put_all<K: Sink>(sink: &mut K, bytes: &[u8]) -> Result<(), Failed>
    ensures { Puts bytes.now result (K.faults sink.old) (K.faults sink.new) (K.taken sink.old) (K.taken sink.new) }
{
    let mut done = 0;
    while done < bytes.len() {
        let (_, left) = bytes.split_at(done);
        let count = sink.put(left)?;
        if count == 0 {
            return Err(Failed);
        }
        done += count;
    }
    Ok(())
}

/// Puts the pieces of a text, one after another. Where it fails a prefix of the text was taken.
pub fn put_pieces<K: Sink>(sink: &mut K, pieces: &[&[u8]]) -> Result<(), Failed>
    ensures { Puts (joined (map (λ p. p.now) pieces.now)) result (K.faults sink.old) (K.faults sink.new) (K.taken sink.old) (K.taken sink.new) }
{
    match split_pieces(pieces) {
        None => Ok(()),
        Some((first, rest)) => {
            put_all(sink, first)?;
            put_pieces(sink, rest)
        }
    }
}

/// The first piece and the others.
fn split_pieces<'t, 'p>(pieces: &'t [&'p [u8]]) -> Option<(&'p [u8], &'t [&'p [u8]])>
    ensures none { IfNone result (joined (map (λ p. p.now) pieces.now) ≡ []) }
    ensures some { IfSome result (λ split. joined (map (λ p. p.now) pieces.now) ≡ split.0.now ++ joined (map (λ p. p.now) split.1.now)) }
    ensures less { IfSome result (λ split. length split.1.now < length pieces.now) }
{
    match pieces {
        [] => None,
        [first, rest @ ..] => Some((first, rest)),
    }
}
