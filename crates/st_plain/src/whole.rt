//! A run of unchanged code from its first instruction to its end.
ghost use Rattle.std.specs.Prelude.{◌≡◌, ◌≢◌, ◌≤◌, length, IfOk, Some};
ghost use Rattle.st_model.specs.declared.program.Program.{Program};
ghost use Rattle.st_model.specs.Bounded.{bounded_run};
ghost use Rattle.st_model.specs.Memory.{data_of};
ghost use Rattle.st_plain.specs.Answer.{HasProgram, IsPlainImage, answer_of, bounds_of};

use crate::run::PlainRun;
use st_base::image::Image;
use st_base::limits::{LimitKind, Limits};
use st_model::ordinary::OrdEnd;
use std::alloc::{AllocError, Global};

/// How a run of unchanged code ends.
#[derive(Drop)]
pub enum PlainEnd {
    /// As the ordinary-call run does; this is never `OrdEnd::Going`.
    Ended(OrdEnd),
    /// At a limit of stack, cells or steps, which comes before the end of the ordinary-call run.
    Limit(LimitKind),
}

/// Runs the image of a program's unchanged code on one stack, which begins at 0x8000_0000, with one worker.
///
/// It ends as the ordinary-call run of the program, with the bytes that the root printed, unless a limit comes first: the item past
/// `steps`, the draw past `cells`, or the prologue at which the frames pass `stack` bytes, in this order. It takes all its memory before the first
/// instruction.
///
/// Errors: too little memory.
#[inline(never)]
pub fn plain(
    alloc: Global,
    image: &Image,
    input: &[u8],
    limits: &Limits,
) -> Result<PlainEnd, AllocError>
    requires image { ∥ HasProgram image.now ∥₁ }
    requires input { length input.now ≤ 16777216 }
    ensures end { IfOk result (λ end. (p : Program) → IsPlainImage p image.now → answer_of limits.now (bounded_run p (data_of image.now.rodata input.now) (bounds_of limits.now)) ≡ Some end) }
    ensures ended { IfOk result (λ end. end ≢ PlainEnd.Ended OrdEnd.Going) }
{
    let mut run = PlainRun::open(alloc, image, input, limits)?;
    let mut left = limits.steps;
    for _ in 0..u64::MAX {
        if run.is_at_entry() {
            if let Some(ending) = run.serve(image) {
                return Ok(run.into_end(ending));
            }
            continue;
        }
        let begun = u64::from(run.begins_item());
        if left < begun {
            return Ok(PlainEnd::Limit(LimitKind::Step { worker: 0 }));
        }
        left -= begun;
        if let Some(ending) = run.instruction(image, input) {
            return Ok(run.into_end(ending));
        }
    }
    unreachable!()
}
