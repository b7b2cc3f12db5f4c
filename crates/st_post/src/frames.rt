//! The instructions that make and free a frame: prologues, epilogues as written and augmented, and pure copies.
ghost use Rattle.std.specs.Prelude.{◌≡◌, ◌≤◌, ◌+◌, ◌*◌, ◌++◌, ◌∷◌, [], ◌-ℤ◌, pos, length, OnOk};
ghost use Rattle.st_model.specs.Layout.{addi, sd, below, stores, loads, prologue_ins, epilogue_ins, restoring_ins, freeing_ins, augmented_ins, pure_copy_ins};
ghost use Rattle.st_base.specs.declared.reg.Reg.TheVariants as registers;
ghost use Rattle.st_model.specs.declared.code.PostedIns.TheVariants as posted;
ghost use Rattle.st_post.specs.Size.{most_words};

use crate::instructions::{addi, ld, leave, sd};
use st_base::reg::Reg;
use st_model::code::PostedIns;
use st_rv::ins::Op;
use std::alloc::AllocError;

/// Where the saved register of a place stands in a frame with this top.
fn saved_at(top: u32, place: usize) -> i64
    requires { place ≤ 11 }
    ensures { result ≡ pos top -ℤ pos (24 + 8 * place) }
{
    i64::from(top) - (24 + 8 * place as i64)
}

/// Stores of the registers below a base.
fn push_stores(
    out: &mut Vec<PostedIns>,
    base: Reg,
    top: u32,
    saved: &[Reg],
) -> Result<(), AllocError>
    requires { length saved.now ≤ 11 }
    ensures { OnOk result (out.new.items ≡ out.old.items ++ stores base (pos top) 0 saved.now) }
{
    for (place, reg) in saved.iter().enumerate() {
        out.push(sd(*reg, saved_at(top, place), base))?;
    }
    Ok(())
}

/// Loads from the same places.
fn push_loads(
    out: &mut Vec<PostedIns>,
    base: Reg,
    top: u32,
    saved: &[Reg],
) -> Result<(), AllocError>
    requires { length saved.now ≤ 11 }
    ensures { OnOk result (out.new.items ≡ out.old.items ++ loads base (pos top) 0 saved.now) }
{
    for (place, reg) in saved.iter().enumerate() {
        out.push(ld(*reg, saved_at(top, place), base))?;
    }
    Ok(())
}

/// Moves sp down a frame, and stores ra and s0 in it.
fn push_opening(out: &mut Vec<PostedIns>, frame: u32) -> Result<(), AllocError>
    ensures { OnOk result (out.new.items ≡ out.old.items ++ addi registers.Sp registers.Sp (below frame) ∷ sd registers.Ra (pos frame -ℤ pos 8) registers.Sp ∷ sd registers.S0 (pos frame -ℤ pos 16) registers.Sp ∷ []) }
{
    let bytes = i64::from(frame);
    out.push(addi(Reg::Sp, Reg::Sp, -bytes))?;
    out.push(sd(Reg::Ra, bytes - 8, Reg::Sp))?;
    out.push(sd(Reg::S0, bytes - 16, Reg::Sp))?;
    Ok(())
}

/// A whole prologue.
pub(crate) fn push_prologue(
    out: &mut Vec<PostedIns>,
    frame: u32,
    saved: &[Reg],
) -> Result<(), AllocError>
    requires { length saved.now ≤ 11 }
    ensures { OnOk result (out.new.items ≡ out.old.items ++ prologue_ins frame saved.now) }
{
    push_opening(out, frame)?;
    push_stores(out, Reg::Sp, frame, saved)?;
    out.push(addi(Reg::S0, Reg::Sp, i64::from(frame)))?;
    Ok(())
}

/// An epilogue as written.
pub(crate) fn push_epilogue(
    out: &mut Vec<PostedIns>,
    frame: u32,
    saved: &[Reg],
) -> Result<(), AllocError>
    requires { length saved.now ≤ 11 }
    ensures { OnOk result (out.new.items ≡ out.old.items ++ epilogue_ins frame saved.now) }
{
    let bytes = i64::from(frame);
    out.push(ld(Reg::Ra, bytes - 8, Reg::Sp))?;
    out.push(ld(Reg::S0, bytes - 16, Reg::Sp))?;
    push_loads(out, Reg::Sp, frame, saved)?;
    out.push(addi(Reg::Sp, Reg::Sp, bytes))?;
    out.push(leave())?;
    Ok(())
}

/// Loads of the caller's registers from the frame whose base is s0, which stays in tp.
fn push_restoring(out: &mut Vec<PostedIns>, saved: &[Reg]) -> Result<(), AllocError>
    requires { length saved.now ≤ 11 }
    ensures { OnOk result (out.new.items ≡ out.old.items ++ restoring_ins saved.now) }
{
    out.push(addi(Reg::Tp, Reg::S0, 0))?;
    out.push(ld(Reg::Ra, -8, Reg::Tp))?;
    push_loads(out, Reg::Tp, 0, saved)?;
    out.push(ld(Reg::S0, -16, Reg::Tp))?;
    Ok(())
}

/// A branch to the word `to`, where the frame is kept.
fn keeps(op: Op, rs1: Reg, to: u32) -> PostedIns
    ensures { result ≡ posted.Branch op rs1 registers.Tp to }
{
    PostedIns::Branch {
        op,
        rs1,
        rs2: Reg::Tp,
        to,
    }
}

/// Frees the frame where its worker may, and marks it at the word `keep` where not.
fn push_freeing(out: &mut Vec<PostedIns>, keep: u32) -> Result<(), AllocError>
    ensures { OnOk result (out.new.items ≡ out.old.items ++ freeing_ins keep) }
{
    out.push(keeps(Op::Bgeu, Reg::Sp, keep))?;
    out.push(keeps(Op::Bltu, Reg::Gp, keep))?;
    out.push(addi(Reg::Sp, Reg::Tp, 0))?;
    out.push(leave())?;
    out.push(sd(Reg::Zero, -8, Reg::Tp))?;
    out.push(leave())?;
    Ok(())
}

/// An augmented epilogue, at the word `at` of its function.
pub(crate) fn push_augmented(
    out: &mut Vec<PostedIns>,
    at: u32,
    saved: &[Reg],
) -> Result<(), AllocError>
    requires few { length saved.now ≤ 11 }
    requires low { at ≤ most_words }
    ensures { OnOk result (out.new.items ≡ out.old.items ++ augmented_ins at saved.now) }
{
    push_restoring(out, saved)?;
    push_freeing(out, at + saved.len() as u32 + 7)?;
    Ok(())
}

/// A pure copy of an epilogue.
pub(crate) fn push_pure_copy(out: &mut Vec<PostedIns>, saved: &[Reg]) -> Result<(), AllocError>
    requires { length saved.now ≤ 11 }
    ensures { OnOk result (out.new.items ≡ out.old.items ++ pure_copy_ins saved.now) }
{
    push_restoring(out, saved)?;
    out.push(leave())?;
    Ok(())
}
