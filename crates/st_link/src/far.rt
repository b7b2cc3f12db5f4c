//! Branches that don't reach.
ghost use Rattle.std.specs.Prelude.{◌≡◌, ◌<◌, ◌^◌};
ghost use Rattle.st_model.specs.Layout.{distance, reaches, far_at, far_among};
ghost use Rattle.st_link.specs.Encoding.{words_in, first_far_of, told};

use crate::error::LinkFault;
use st_post::{PostedFunction, PostedIns, PostedWord};

/// From one word of a function to another, in bytes.
pub(crate) fn distance(at: usize, to: u32) -> i64
    requires { at < 2 ^ 60 }
    ensures { result ≡ distance at to }
{
    4 * i64::from(to) - 4 * at as i64
}

/// Whether a branch reaches so far.
fn reaches(distance: i64) -> bool
    ensures { result ≡ reaches distance }
{
    distance >= -4096 && distance <= 4094
}

/// The fault of a word of a function, where it is a branch that doesn't reach.
fn far_at(at: usize, word: &PostedWord) -> Option<LinkFault>
    requires { at < 2 ^ 60 }
    ensures { told result ≡ far_at at word.now.line word.now.ins }
{
    let PostedIns::Branch { to, .. } = word.ins else {
        return None;
    };
    let distance = distance(at, to);
    if reaches(distance) {
        return None;
    }
    Some(LinkFault {
        line: word.line,
        distance,
    })
}

/// The first branch of a function that doesn't reach.
fn far_among(words: &[PostedWord]) -> Option<LinkFault>
    ensures { told result ≡ far_among 0 words.now }
{
    for (at, word) in words.iter().enumerate() {
        if let Some(fault) = far_at(at, word) {
            return Some(fault);
        }
    }
    None
}

/// The first branch of all functions that doesn't reach.
pub(crate) fn first_far(functions: &[PostedFunction]) -> Option<LinkFault>
    ensures { told result ≡ first_far_of (words_in functions.now) }
{
    for function in functions {
        if let Some(first) = far_among(function.words.as_slice()) {
            return Some(first);
        }
    }
    None
}
