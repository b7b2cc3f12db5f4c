//! Epilogues.
ghost use Rattle.std.specs.Prelude.{◌≡◌, ◌≤◌, ◌+◌, ◌*◌, neg_ℤ, IfOk, length};
ghost use Rattle.st_check.specs.Shape.{epilogue_form, departing};
ghost use Rattle.st_check.specs.Views.{tests_of};

use crate::instruction::{Test, passes};
use st_asm::SourceLine;
use st_base::line::Line;
use st_base::reg::Reg;
use st_rv::ins::Ins;
use std::alloc::{AllocError, Global};

/// What the lines of an epilogue have to be, where the prologue saves these registers.
pub fn epilogue_form(alloc: Global, first: &Ins, saved: &[Reg]) -> Result<Vec<Test>, AllocError>
    requires { length saved.now ≤ 11 }
    ensures { IfOk result (λ form. tests_of (neg_ℤ first.now.imm) form.items ≡ epilogue_form (neg_ℤ first.now.imm) saved.now) }
{
    let mut form = Vec::new(alloc);
    form.push(Test::Pop {
        reg: Reg::Ra,
        below: 8,
    })?;
    form.push(Test::Pop {
        reg: Reg::S0,
        below: 16,
    })?;
    for (k, reg) in saved.iter().enumerate() {
        form.push(Test::Pop {
            reg: *reg,
            below: 24 + 8 * k as u32,
        })?;
    }
    form.push(Test::Addi {
        rd: Reg::Sp,
        rs1: Reg::Sp,
    })?;
    form.push(Test::Return)?;
    Ok(form)
}

/// The line at which lines depart from a form, which is their last where they end before; `None` where they have it.
pub fn departing(first: &Ins, last: Line, form: &[Test], lines: &[SourceLine]) -> Option<Line>
    ensures { result ≡ departing last (tests_of (neg_ℤ first.now.imm) form.now) lines.now }
{
    let mut last = last;
    for (k, test) in form.iter().enumerate() {
        if k >= lines.len() {
            return Some(last);
        }
        let line = &lines[k];
        if !passes(first, *test, &line.ins) {
            return Some(line.line);
        }
        last = line.line;
    }
    None
}
