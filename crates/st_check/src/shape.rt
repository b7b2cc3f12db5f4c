//! The shape of a function: its prologue, its body and its epilogues, or the first fault of these.
ghost use Rattle.std.specs.Prelude.{◌≡◌, ◌≤◌, neg_ℤ, pos, if◌then◌else◌, Some, None, IfOk, length, drop};
ghost use Rattle.st_check.specs.Shape.{is_frame_size, magnitude, first_line, shape_of, shape_when, body_of, prologue_lines};
ghost use Rattle.st_check.specs.Views.{shape_view, ShapeSavesFew, ShapeHasBits};

use crate::body::{Body, Placed, body_of};
use crate::prologue::{Opening, opening_of};
use st_asm::{Function, SourceLine};
use st_base::form::FormKind;
use st_base::line::Line;
use st_base::reg::Reg;
use st_rv::ins::Ins;
use std::alloc::{AllocError, Global};

/// A function's frame and body.
#[derive(Drop)]
pub struct Formed<'u> {
    /// The bytes of the frame.
    pub frame: u32,
    /// The saved registers in order.
    pub saved: Vec<Reg>,
    /// The groups of the body.
    pub groups: Vec<Placed<'u>>,
}

/// The shape of a function.
#[derive(Drop)]
pub enum Shape<'u> {
    /// The first fault of its prologue, its frame or its epilogues.
    Faulty { line: Line, kind: FormKind },
    Formed(Formed<'u>),
}

/// Whether a frame of so many bytes has its right size, where so many registers are saved and there are so many handle slots.
fn is_frame_size(saved: usize, slots: u32, frame: u32) -> bool
    requires { saved ≤ 11 }
    ensures { result ≡ is_frame_size saved slots (pos frame) }
{
    frame % 16 == 0
        && 16 <= frame
        && frame <= 2032
        && 16 + 8 * saved as u64 + 8 * u64::from(slots) <= u64::from(frame)
}

/// The bytes of the frame that `first` opens, where their number is right.
fn frame_size(first: &Ins, saved: usize, slots: u32) -> Option<u32>
    requires { saved ≤ 11 }
    ensures { result ≡ (if is_frame_size saved slots (neg_ℤ first.now.imm) then Some (magnitude (neg_ℤ first.now.imm)) else None) }
{
    let amount = -i128::from(first.imm);
    if amount < 0 || 2032 < amount {
        return None;
    }
    let frame = amount as u32;
    if is_frame_size(saved, slots, frame) {
        Some(frame)
    } else {
        None
    }
}

/// The line of the first item, which is the label's where there is none.
pub fn first_line(label: Line, items: &[SourceLine]) -> Line
    ensures { result ≡ first_line label items.now }
{
    match items.get(0) {
        Some(line) => line.line,
        None => label,
    }
}

/// The shape of a function whose prologue is whole.
fn shape_behind<'u>(
    alloc: Global,
    function: &'u Function,
    first: &Ins,
    saved: Vec<Reg>,
) -> Result<Shape<'u>, AllocError>
    requires { length saved.items ≤ 11 }
    ensures few { IfOk result ShapeSavesFew }
    ensures value { IfOk result (λ s. shape_view s ≡ shape_when (is_frame_size (length saved.items) function.now.slots (neg_ℤ first.now.imm)) (first_line function.now.line function.now.items) (neg_ℤ first.now.imm) saved.items (body_of (neg_ℤ first.now.imm) saved.items (prologue_lines saved.items) 0 (drop (prologue_lines saved.items) function.now.items))) }
{
    let items = function.items.as_slice();
    let Some(frame) = frame_size(first, saved.len(), function.slots) else {
        return Ok(Shape::Faulty {
            line: first_line(function.line, items),
            kind: FormKind::FrameSize,
        });
    };
    match body_of(alloc, first, &saved, items, 4 + saved.len())? {
        Body::Broken(line) => Ok(Shape::Faulty {
            line,
            kind: FormKind::Epilogue,
        }),
        Body::Whole(groups) => Ok(Shape::Formed(Formed {
            frame,
            saved,
            groups,
        })),
    }
}

#[tactic(auto, unfolding(crate::specs::Shape::shape_of))]
fn shape_in<'u>(alloc: Global, function: &'u Function) -> Result<Shape<'u>, AllocError>
    ensures few { IfOk result ShapeSavesFew }
    ensures value { IfOk result (λ s. shape_view s ≡ shape_of function.now) }
{
    match opening_of(alloc, function.line, function.items.as_slice())? {
        Opening::Departs(line) => Ok(Shape::Faulty {
            line,
            kind: FormKind::Prologue,
        }),
        Opening::Opened { first, saved } => shape_behind(alloc, function, first, saved),
    }
}

/// The shape of a function.
pub fn shape_of<'u>(alloc: Global, function: &'u Function) -> Result<Shape<'u>, AllocError>
    ensures few { IfOk result ShapeSavesFew }
    ensures bits { IfOk result ShapeHasBits }
    ensures value { IfOk result (λ s. shape_view s ≡ shape_of function.now) }
{
    let shape = shape_in(alloc, function)?;
    Ok(shape)
}
