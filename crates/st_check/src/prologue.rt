//! Prologues.
ghost use Rattle.std.specs.Prelude.{◌≡◌, ◌+◌, ◌<◌, ◌≤◌, ◌*◌, ◌-ℤ◌, neg_ℤ, pos, List, Some, None, if◌then◌else◌, IfOk, IfSome, drop, length};
ghost use Rattle.st_base.specs.declared.line.Line.{Line};
ghost use Rattle.st_base.specs.declared.reg.Reg.TheVariants.{Ra, S0};
ghost use Rattle.st_asm.specs.declared.unit.SourceLine.{SourceLine};
ghost use Rattle.st_check.specs.Shape.{Opening as Opening', open_lines, open_saved, open_frame, is_push, saved_by, saved_registers, opening_of};
ghost use Rattle.st_check.specs.Views.{test_of, opening_view, after_line, saved_view, SavesFew};

use crate::instruction::{Test, first_of, passes};
use st_asm::{SourceIns, SourceLine};
use st_base::line::Line;
use st_base::reg::Reg;
use st_model::code::SAVEABLE;
use st_rv::ins::Ins;
use std::alloc::{AllocError, Global};

/// What a function opens with.
#[derive(Drop)]
pub enum Opening<'u> {
    /// The line that departs from the form of a prologue.
    Departs(Line),
    /// A whole prologue, whose first instruction is `addi sp,sp,-F`, with the registers that it saves; the body begins
    /// behind its lines.
    Opened { first: &'u Ins, saved: Vec<Reg> },
}

/// Among these registers, the one that the line saves as the k-th, and those behind it.
fn saved_by<'s>(first: &Ins, k: usize, left: &'s [Reg], ins: &SourceIns) -> Option<(Reg, &'s [Reg])>
    requires { k ≤ 11 }
    ensures value { saved_by (neg_ℤ first.now.imm) k left.now ins.now ≡ saved_view result }
    ensures less { IfSome result (λ p. length p.1.now < length left.now) }
{
    for (j, reg) in left.iter().enumerate() {
        if passes(
            first,
            Test::Push {
                reg: *reg,
                below: 24 + 8 * k as u32,
            },
            ins,
        ) {
            let (_, behind) = left.split_at(j + 1);
            return Some((*reg, behind));
        }
    }
    None
}

/// The line at which a prologue departs from its form at the line of a place, which is the label's where there is none.
fn departs_at(first: &Ins, label: Line, items: &[SourceLine], at: usize, test: Test) -> Option<Line>
    ensures { (rest : List SourceLine → Opening') → open_lines label rest (test_of (neg_ℤ first.now.imm) test) (drop at items.now) ≡ after_line result (rest (drop (at + 1) items.now)) }
{
    match items.get(at) {
        Some(line) => departs_by(passes(first, test, &line.ins), line.line),
        None => Some(label),
    }
}

fn departs_by(is_right: bool, line: Line) -> Option<Line>
    ensures { result ≡ (if is_right then None else Some line) }
{
    if is_right { None } else { Some(line) }
}

/// The lines that save registers, and the one that sets s0.
fn open_saved<'u>(
    alloc: Global,
    label: Line,
    first: &'u Ins,
    items: &[SourceLine],
) -> Result<Opening<'u>, AllocError>
    ensures value { IfOk result (λ o. opening_view items.now o ≡ open_saved label (neg_ℤ first.now.imm) 0 saved_registers (drop 3 items.now)) }
    ensures few { IfOk result SavesFew }
{
    let mut saved = Vec::new(alloc);
    let mut left: &[Reg] = &SAVEABLE;
    for at in 3..items.len() {
        let line = &items[at];
        if passes(
            first,
            Test::Addi {
                rd: Reg::S0,
                rs1: Reg::Sp,
            },
            &line.ins,
        ) {
            return Ok(Opening::Opened { first, saved });
        }
        match saved_by(first, saved.len(), left, &line.ins) {
            Some((reg, behind)) => {
                saved.push(reg)?;
                left = behind;
            }
            None => return Ok(Opening::Departs(line.line)),
        }
    }
    Ok(Opening::Departs(label))
}

/// The line at which one of the first two stores of a prologue departs from its form.
fn departs_before(first: &Ins, label: Line, items: &[SourceLine]) -> Option<Line>
    ensures { (rest : List SourceLine → Opening') → open_lines label (open_lines label rest (is_push S0 (neg_ℤ first.now.imm -ℤ pos 16))) (is_push Ra (neg_ℤ first.now.imm -ℤ pos 8)) (drop 1 items.now) ≡ after_line result (rest (drop 3 items.now)) }
{
    match departs_at(
        first,
        label,
        items,
        1,
        Test::Push {
            reg: Reg::Ra,
            below: 8,
        },
    ) {
        Some(line) => Some(line),
        None => departs_at(
            first,
            label,
            items,
            2,
            Test::Push {
                reg: Reg::S0,
                below: 16,
            },
        ),
    }
}

/// What a frame's first line opens.
fn open_frame<'u>(
    alloc: Global,
    label: Line,
    first: &'u Ins,
    items: &[SourceLine],
) -> Result<Opening<'u>, AllocError>
    ensures value { (line : Line) → IfOk result (λ o. opening_view items.now o ≡ open_frame label line (drop 1 items.now) (Some (neg_ℤ first.now.imm))) }
    ensures few { IfOk result SavesFew }
{
    match departs_before(first, label, items) {
        Some(line) => Ok(Opening::Departs(line)),
        None => {
            let opening = open_saved(alloc, label, first, items)?;
            Ok(opening)
        }
    }
}

/// The prologue of the lines behind a label.
pub fn opening_of<'u>(
    alloc: Global,
    label: Line,
    items: &'u [SourceLine],
) -> Result<Opening<'u>, AllocError>
    ensures value { IfOk result (λ o. opening_view items.now o ≡ opening_of label items.now) }
    ensures few { IfOk result SavesFew }
{
    if items.len() == 0 {
        return Ok(Opening::Departs(label));
    }
    let line = &items[0];
    match first_of(&line.ins) {
        Some(first) => {
            let opening = open_frame(alloc, label, first, items)?;
            Ok(opening)
        }
        None => Ok(Opening::Departs(line.line)),
    }
}
