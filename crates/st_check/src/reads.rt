//! The first undefined read of a program, function by function.
ghost use Rattle.std.specs.Prelude.{◌≡◌, ◌<◌, ℕ, All, Some, length, map, slice_get, IfOk, IfSome, IfNone};
ghost use Rattle.st_model.specs.declared.program.ProgramFunction.{ProgramFunction as ProgramFunction'};
ghost use Rattle.st_model.specs.Accepted.{IsFormed};
ghost use Rattle.st_model.specs.Flow.{UndefinedRead};
ghost use Rattle.st_check.specs.Acceptance.{line_of, lines_at};
ghost use Rattle.st_check.specs.Reads.{IsToldOf, IsFirstTold, ReadsDefined};

use crate::fault::FormFault;
use st_base::form::FormKind;
use st_base::line::Line;
use st_base::lists::Listed;
use st_flow::first_undefined;
use st_model::program::{Program, ProgramFunction};
use std::alloc::{AllocError, Global};

/// The first line of the item at a place.
fn line_at(function: &ProgramFunction, at: usize) -> Line
    requires { at < length function.now.items }
    ensures { Some result ≡ line_of (slice_get function.now.items at) }
{
    function.items.as_slice()[at].line
}

/// The first lines of the items at these places.
fn lines_of(
    alloc: Global,
    function: &ProgramFunction,
    path: &[usize],
) -> Result<Listed<Line>, AllocError>
    requires { All (λ i. i < length function.now.items) path.now }
    ensures { IfOk result (λ lines. map Some lines ≡ lines_at function.now path.now) }
{
    let mut lines = Listed::new(alloc);
    for at in path {
        lines.push(line_at(function, *at))?;
    }
    Ok(lines)
}

/// The first undefined read of a function, with a path to it; `None` where it has none.
fn read_fault(
    alloc: Global,
    program: &Program,
    function: &ProgramFunction,
) -> Result<Option<FormFault>, AllocError>
    requires { IsFormed program.now function.now }
    ensures told { IfOk result (λ r. IfSome r (IsToldOf program.now function.now)) }
    ensures none { IfOk result (λ r. IfNone r (UndefinedRead program.now function.now → ⊥)) }
{
    let Some(bad) = first_undefined(alloc, program, function)? else {
        return Ok(None);
    };
    let path = lines_of(alloc, function, bad.path.as_slice())?;
    Ok(Some(FormFault {
        line: line_at(function, bad.item),
        kind: FormKind::UndefinedRead,
        path,
    }))
}

/// The first undefined read of a program whose functions are formed; `None` where it has none.
pub fn first_read_fault(alloc: Global, program: &Program) -> Result<Option<FormFault>, AllocError>
    requires { (f : ℕ) (function : ProgramFunction') → slice_get program.now.functions f ≡ Some function → IsFormed program.now function }
    ensures told { IfOk result (λ r. IfSome r (IsFirstTold program.now)) }
    ensures none { IfOk result (λ r. IfNone r (ReadsDefined program.now)) }
{
    let functions = program.functions.as_slice();
    for function in functions {
        if let Some(fault) = read_fault(alloc, program, function)? {
            return Ok(Some(fault));
        }
    }
    Ok(None)
}
