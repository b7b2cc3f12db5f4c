//! The body of a function in groups: epilogues, and other lines by themselves.
ghost use Rattle.std.specs.Prelude.{◌≡◌, ◌<◌, ◌≤◌, ◌-◌, ℕ, true, Some, neg_ℤ, if◌then◌else◌, IfOk, length, drop, slice_get};
ghost use Rattle.st_check.specs.Shape.{Body as Body', body_by, body_of, departing, is_return, opens_epilogue};
ghost use Rattle.st_check.specs.Views.{tests_of, after_group, lines_more, body_view};

use crate::epilogue::{departing, epilogue_form};
use crate::instruction::{Test, is_return, opens_epilogue};
use st_asm::SourceLine;
use st_base::line::Line;
use st_base::reg::Reg;
use st_rv::ins::Ins;
use std::alloc::{AllocError, Global};

/// A part of a body.
#[derive(Clone, Copy)]
pub enum Group<'u> {
    /// An epilogue, by its first line.
    Epilogue(Line),
    /// A line by itself.
    Single(&'u SourceLine),
}

/// A group with the place of its first line in the function.
#[derive(Clone, Copy)]
pub struct Placed<'u> {
    pub at: usize,
    pub group: Group<'u>,
}

/// The body of a function.
#[derive(Drop)]
pub enum Body<'u> {
    /// The line of the first fault of an epilogue.
    Broken(Line),
    Whole(Vec<Placed<'u>>),
}

/// The epilogue that a line opens, or the line at which it departs from its form.
fn epilogue_at<'u>(
    first: &Ins,
    form: &[Test],
    line: &SourceLine,
    items: &[SourceLine],
    at: usize,
) -> Result<Group<'u>, Line>
    requires { at ≤ length items.now }
    ensures { (go : ℕ → Body') → body_by at line.now (length form.now) go 0 true (departing line.now.line (tests_of (neg_ℤ first.now.imm) form.now) (drop at items.now)) (is_return line.now.ins) ≡ after_group at (length form.now) go result }
{
    let (_, lines) = items.split_at(at);
    match departing(first, line.line, form, lines) {
        Some(line) => Err(line),
        None => Ok(Group::Epilogue(line.line)),
    }
}

/// The group that a line begins, or the line of an epilogue's fault.
fn group_at<'u>(
    first: &Ins,
    form: &[Test],
    line: &'u SourceLine,
    items: &[SourceLine],
    at: usize,
) -> Result<Group<'u>, Line>
    requires { at ≤ length items.now }
    ensures { (go : ℕ → Body') → body_by at line.now (length form.now) go 0 (opens_epilogue line.now.ins) (departing line.now.line (tests_of (neg_ℤ first.now.imm) form.now) (drop at items.now)) (is_return line.now.ins) ≡ after_group at (length form.now) go result }
{
    if opens_epilogue(&line.ins) {
        epilogue_at(first, form, line, items, at)
    } else if is_return(&line.ins) {
        Err(line.line)
    } else {
        Ok(Group::Single(line))
    }
}

/// How many lines of a group come behind its first.
fn lines_more(group: Group<'_>, count: usize) -> usize
    ensures { result ≡ lines_more count group.entry }
{
    match group {
        Group::Epilogue(_) => count.saturating_sub(1),
        Group::Single(_) => 0,
    }
}

/// The body of a function's lines from a place on.
pub fn body_of<'u>(
    alloc: Global,
    first: &Ins,
    saved: &[Reg],
    items: &'u [SourceLine],
    start: usize,
) -> Result<Body<'u>, AllocError>
    requires { length saved.now ≤ 11 }
    ensures { IfOk result (λ b. body_view b ≡ body_of (neg_ℤ first.now.imm) saved.now start 0 (drop start items.now)) }
{
    let form = epilogue_form(alloc, first, saved)?;
    let mut groups = Vec::new(alloc);
    let mut skip = 0;
    for at in start..items.len() {
        if skip > 0 {
            skip -= 1;
        } else {
            match group_at(first, &form, &items[at], items, at) {
                Ok(group) => {
                    skip = lines_more(group, form.len());
                    groups.push(Placed { at, group })?;
                }
                Err(line) => return Ok(Body::Broken(line)),
            }
        }
    }
    Ok(Body::Whole(groups))
}
