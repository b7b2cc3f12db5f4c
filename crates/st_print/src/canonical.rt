//! The canonical text of a unit.
ghost use Rattle.std.specs.Prelude.{◌≡◌, ◌++◌, ◌∷◌, [], ◌||◌, ℕ, List, IfOk, OnOk, codes, true, All, ◌<◌};
ghost use Rattle.st_line.specs.declared.source.Target.{Target};
ghost use Rattle.st_line.specs.declared.source.Target.TheVariants.{Place, Data};
ghost use Rattle.st_print.specs.Canonical.{spelled, lines_text, ins_pieces, label_line, label_text, spot_line, spot_lines, item_lines, function_lines, functions_lines, byte_lines, is_address, has_address, have_address, is_some_byte, data_lines, unit_text, with_operands, number, comma, names_data};
ghost use Rattle.st_print.specs.Numbering.{AreLabels};
ghost use Rattle.st_print.specs.Rereading.{ReadsBack};

use crate::instructions::push_ins;
use crate::labels::Labels;
use crate::pieces::push_pieces;
use crate::spots::Named;
use itoa::Buffer;
use st_asm::{Function, SourceLine, Unit};
use st_line::SourceIns;
use std::alloc::{AllocError, Global};

/// Adds the line of a label that has a number.
fn push_spot(text: &mut Vec<u8>, number: Option<usize>) -> Result<(), AllocError>
    ensures { OnOk result (text.new.items ≡ text.old.items ++ lines_text (spot_line number)) }
{
    match number {
        Some(number) => {
            let mut digits = Buffer::new();
            push_pieces(text, &[b".L", digits.format(number).as_bytes(), b":\n"])
        }
        None => Ok(()),
    }
}

fn push_place(
    text: &mut Vec<u8>,
    labels: &Labels,
    function: usize,
    item: usize,
) -> Result<(), AllocError>
    ensures { (spots : List Target) → AreLabels labels.now spots → OnOk result (text.new.items ≡ text.old.items ++ lines_text (spot_lines spots (Place function item))) }
{
    push_spot(text, labels.of_place(function, item))
}

fn push_offset(text: &mut Vec<u8>, labels: &Labels, offset: usize) -> Result<(), AllocError>
    ensures { (spots : List Target) → AreLabels labels.now spots → OnOk result (text.new.items ≡ text.old.items ++ lines_text (spot_lines spots (Data offset))) }
{
    push_spot(text, labels.of_offset(offset))
}

/// Adds a line of code.
fn push_line(text: &mut Vec<u8>, labels: &Labels, ins: &SourceIns) -> Result<(), AllocError>
    ensures { (spots : List Target) → AreLabels labels.now spots → OnOk result (text.new.items ≡ text.old.items ++ lines_text (ins_pieces spots ins.now ∷ [])) }
{
    push_ins(text, labels, ins)?;
    push_pieces(text, &[b"\n"])
}

/// Adds a line of code behind the labels of its place.
fn push_item(
    text: &mut Vec<u8>,
    labels: &Labels,
    function: usize,
    item: usize,
    ins: &SourceIns,
) -> Result<(), AllocError>
    ensures { (spots : List Target) → AreLabels labels.now spots → OnOk result (text.new.items ≡ text.old.items ++ lines_text (spot_lines spots (Place function item) ++ ins_pieces spots ins.now ∷ [])) }
{
    push_place(text, labels, function, item)?;
    push_line(text, labels, ins)
}

/// Adds the lines of a function's items.
fn push_items(
    text: &mut Vec<u8>,
    labels: &Labels,
    function: usize,
    items: &[SourceLine],
) -> Result<(), AllocError>
    ensures { (spots : List Target) → AreLabels labels.now spots → OnOk result (text.new.items ≡ text.old.items ++ lines_text (item_lines spots function 0 items.now)) }
{
    for (i, item) in items.iter().enumerate() {
        push_item(text, labels, function, i, &item.ins)?;
    }
    push_place(text, labels, function, items.len())
}

/// Adds a function's label and its directives.
fn push_head(text: &mut Vec<u8>, function: &Function) -> Result<(), AllocError>
    ensures { OnOk result (text.new.items ≡ text.old.items ++ lines_text (label_line function.now.name ∷ with_operands (codes ".st_args") (number function.now.ints ∷ comma ∷ number function.now.handles ∷ []) ∷ with_operands (codes ".st_handles") (number function.now.slots ∷ []) ∷ [])) }
{
    let mut ints = Buffer::new();
    let mut handles = Buffer::new();
    let mut slots = Buffer::new();
    push_pieces(
        text,
        &[
            function.name.as_bytes(),
            b":\n    .st_args ",
            ints.format(function.ints).as_bytes(),
            b",",
            handles.format(function.handles).as_bytes(),
            b"\n    .st_handles ",
            slots.format(function.slots).as_bytes(),
            b"\n",
        ],
    )
}

/// Adds the lines of a function.
fn push_function(
    text: &mut Vec<u8>,
    labels: &Labels,
    number: usize,
    function: &Function,
) -> Result<(), AllocError>
    ensures { (spots : List Target) → AreLabels labels.now spots → OnOk result (text.new.items ≡ text.old.items ++ lines_text (function_lines spots number function.now)) }
{
    push_head(text, function)?;
    push_items(text, labels, number, function.items.as_slice())
}

fn push_functions(
    text: &mut Vec<u8>,
    labels: &Labels,
    functions: &[Function],
) -> Result<(), AllocError>
    ensures { (spots : List Target) → AreLabels labels.now spots → OnOk result (text.new.items ≡ text.old.items ++ lines_text (functions_lines spots 0 functions.now)) }
{
    for (f, function) in functions.iter().enumerate() {
        push_function(text, labels, f, function)?;
    }
    Ok(())
}

/// Adds the line of a byte behind the labels of its offset.
fn push_byte(text: &mut Vec<u8>, labels: &Labels, offset: usize, byte: u8) -> Result<(), AllocError>
    ensures { (spots : List Target) → AreLabels labels.now spots → OnOk result (text.new.items ≡ text.old.items ++ lines_text (spot_lines spots (Data offset) ++ with_operands (codes ".byte") (number byte ∷ []) ∷ [])) }
{
    let mut digits = Buffer::new();
    push_offset(text, labels, offset)?;
    push_pieces(
        text,
        &[b"    .byte ", digits.format(byte).as_bytes(), b"\n"],
    )
}

/// Adds the lines of the read-only data.
fn push_bytes(text: &mut Vec<u8>, labels: &Labels, rodata: &[u8]) -> Result<(), AllocError>
    ensures { (spots : List Target) → AreLabels labels.now spots → OnOk result (text.new.items ≡ text.old.items ++ lines_text (byte_lines spots 0 rodata.now)) }
{
    for (i, byte) in rodata.iter().enumerate() {
        push_byte(text, labels, i, *byte)?;
    }
    push_offset(text, labels, rodata.len())
}

fn push_data(text: &mut Vec<u8>, labels: &Labels, rodata: &[u8]) -> Result<(), AllocError>
    ensures { (spots : List Target) → AreLabels labels.now spots → OnOk result (text.new.items ≡ text.old.items ++ lines_text (data_lines true spots rodata.now)) }
{
    push_pieces(text, &[b"    .section .rodata\n"])?;
    push_bytes(text, labels, rodata)
}

fn has_address(items: &[SourceLine]) -> bool
    ensures { result ≡ has_address items.now }
{
    for item in items {
        if matches!(item.ins, SourceIns::La { .. }) {
            return true;
        }
    }
    false
}

/// Whether one of the functions has a `la`.
fn have_address(functions: &[Function]) -> bool
    ensures { result ≡ have_address functions.now }
{
    for function in functions {
        if has_address(function.items.as_slice()) {
            return true;
        }
    }
    false
}

/// Whether the text has the read-only data: where there is some, or a `la`, or an operand that names a place in it.
fn needs_data(labels: &Labels, functions: &[Function], rodata: &[u8]) -> bool
    ensures { result ≡ ((is_some_byte rodata.now || have_address functions.now) || labels.now.in_data) }
{
    !rodata.is_empty() || have_address(functions) || labels.in_data
}

/// Adds the lines of a unit.
fn push_unit(
    text: &mut Vec<u8>,
    labels: &Labels,
    functions: &[Function],
    rodata: &[u8],
) -> Result<(), AllocError>
    ensures { (spots : List Target) → AreLabels labels.now spots → OnOk result (text.new.items ≡ text.old.items ++ lines_text (functions_lines spots 0 functions.now ++ data_lines ((is_some_byte rodata.now || have_address functions.now) || names_data spots) spots rodata.now)) }
{
    push_functions(text, labels, functions)?;
    if needs_data(labels, functions, rodata) {
        push_data(text, labels, rodata)
    } else {
        Ok(())
    }
}

/// The canonical text of these functions and data.
pub(crate) fn text_of(
    alloc: Global,
    functions: &[Function],
    rodata: &[u8],
) -> Result<Vec<u8>, AllocError>
    ensures { IfOk result (λ text. text.items ≡ unit_text functions.now rodata.now) }
{
    let named = Named::of(alloc, functions)?;
    let labels = Labels::of(alloc, &named, functions, rodata)?;
    let mut text = Vec::new(alloc);
    push_unit(&mut text, &labels, functions, rodata)?;
    Ok(text)
}

/// What a slice of bytes holds are bytes.
fn are_bytes(bytes: &[u8])
    ensures { All (λ b. b < 256) bytes.now }
{
    let _ = bytes;
}

/// The canonical text of a unit: its functions in order, then its read-only data, each line with its end. It takes memory
/// for the text and for the labels, and time as the unit's length times the logarithm of the number of labels. Where the
/// text has at most 1,048,576 bytes, reading it gives the unit again, line numbers and unnamed labels aside.
pub fn unit_text(alloc: Global, u: &Unit) -> Result<Vec<u8>, AllocError>
    ensures text { IfOk result (λ text. text.items ≡ unit_text u.now.functions u.now.rodata) }
    ensures reads_back { ∥ ReadsBack u.now.functions u.now.rodata ∥₁ }
{
    let functions = u.functions.as_slice();
    let rodata = u.rodata.as_slice();
    are_bytes(rodata);
    text_of(alloc, functions, rodata)
}
