//! The order of events: that of the ordinary-call run.
ghost use Rattle.std.specs.Prelude.{◌≡◌};
ghost use Rattle.std.specs.Ordering.{nat_cmp};
ghost use Rattle.std.specs.Cmp.Lexicographic.{slice_cmp};
ghost use Rattle.st_base.specs.EventKey.{event_key, ChildComesAfter, ChildComesBefore};

use crate::path::Path;
use std::cmp::Ordering;

/// Compares the keys of two events: one of the thread `p` after `pj` forks, one of the thread `q` after `qj` forks.
/// The lesser is earlier in the ordinary-call run.
#[tactic(auto, using(crate::proofs::KeyOrder::key_steps))]
pub fn key_cmp(p: &Path, pj: u32, q: &Path, qj: u32) -> Ordering
    ensures { result ≡ slice_cmp nat_cmp (event_key p.now pj) (event_key q.now qj) }
{
    let a = p.numbers();
    let b = q.numbers();
    let mut i = 0;
    while i < a.len() && i < b.len() {
        if a[i] < b[i] {
            return Ordering::Less;
        }
        if b[i] < a[i] {
            return Ordering::Greater;
        }
        i += 1;
    }
    if i < a.len() {
        // the number of a fork against a count of forks
        if a[i] < qj {
            Ordering::Less
        } else {
            Ordering::Greater
        }
    } else if i < b.len() {
        if b[i] < pj {
            Ordering::Greater
        } else {
            Ordering::Less
        }
    } else {
        pj.cmp(&qj)
    }
}

/// What a thread does up to a fork, the fork itself included, is before all events of the child and its descendants.
#[tactic(auto, using(crate::proofs::KeyLaws::key_laws))]
pub fn child_comes_after()
    ensures { ChildComesAfter }
{}

/// What a thread does after a fork comes after all events of the child and its descendants.
#[tactic(auto, using(crate::proofs::KeyLaws::key_laws))]
pub fn child_comes_before()
    ensures { ChildComesBefore }
{}
