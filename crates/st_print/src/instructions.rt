//! Lines of instructions.
ghost use Rattle.std.specs.Prelude.{◌≡◌, ◌++◌, ◌∷◌, [], ℕ, List, OnOk, None, codes};
ghost use Rattle.st_line.specs.declared.source.Target.{Target};
ghost use Rattle.st_print.specs.Canonical.{Piece, register_text, register, comma, signed, memory, target, statement, with_operands, plain_pieces, ins_pieces, spelled, target_text, numbered_label, label_text};
ghost use Rattle.st_print.specs.Canonical.Piece.{Word, Mark};
ghost use Rattle.st_print.specs.Numbering.{number_of, AreLabels};
ghost use Rattle.st_rv.specs.Op.{kind_of};
ghost use Rattle.st_rv.specs.Rows.{mnemonic_of};

use crate::labels::Labels;
use crate::pieces::push_pieces;
use itoa::Buffer;
use st_base::reg::Reg;
use st_line::{SourceIns, Target, register_name};
use st_rv::ins::{Ins, Op, OpKind};
use st_rv::rows::mnemonic;
use std::alloc::AllocError;

#[tactic(auto, using(crate::proofs::Registers::register_text_same))]
/// The name of a register by the calling convention.
fn register_text(reg: Reg) -> &'static [u8]
    ensures { result.now ≡ register_text reg }
{
    register_name(reg).as_bytes()
}

fn op_text(op: Op) -> &'static [u8]
    ensures { result.now ≡ mnemonic_of op }
{
    mnemonic(op).as_bytes()
}

/// Adds a word and three registers.
fn push_three(
    text: &mut Vec<u8>,
    word: &[u8],
    first: &[u8],
    second: &[u8],
    third: &[u8],
) -> Result<(), AllocError>
    ensures { OnOk result (text.new.items ≡ text.old.items ++ spelled (with_operands word.now (Word first.now ∷ comma ∷ Word second.now ∷ comma ∷ Word third.now ∷ []))) }
{
    push_pieces(
        text,
        &[b"    ", word, b" ", first, b",", second, b",", third],
    )
}

/// Adds a word, two registers and a number.
fn push_immediate(
    text: &mut Vec<u8>,
    word: &[u8],
    first: &[u8],
    second: &[u8],
    value: i64,
) -> Result<(), AllocError>
    ensures { OnOk result (text.new.items ≡ text.old.items ++ spelled (with_operands word.now (Word first.now ∷ comma ∷ Word second.now ∷ comma ∷ signed value ∷ []))) }
{
    let mut digits = Buffer::new();
    push_three(text, word, first, second, digits.format(value).as_bytes())
}

/// Adds a word, a register and a number.
fn push_value(text: &mut Vec<u8>, word: &[u8], first: &[u8], value: i64) -> Result<(), AllocError>
    ensures { OnOk result (text.new.items ≡ text.old.items ++ spelled (with_operands word.now (Word first.now ∷ comma ∷ signed value ∷ []))) }
{
    let mut digits = Buffer::new();
    let number = digits.format(value).as_bytes();
    push_pieces(text, &[b"    ", word, b" ", first, b",", number])
}

/// Adds a word, a register and a place in memory.
fn push_access(
    text: &mut Vec<u8>,
    word: &[u8],
    first: &[u8],
    offset: i64,
    base: &[u8],
) -> Result<(), AllocError>
    ensures { OnOk result (text.new.items ≡ text.old.items ++ spelled (with_operands word.now (Word first.now ∷ comma ∷ signed offset ∷ Mark 40 ∷ Word base.now ∷ Mark 41 ∷ []))) }
{
    push_value(text, word, first, offset)?;
    push_pieces(text, &[b"(", base, b")"])
}

/// Adds an instruction that is no branch and no jump.
fn push_plain(text: &mut Vec<u8>, i: &Ins) -> Result<(), AllocError>
    ensures { OnOk result (text.new.items ≡ text.old.items ++ spelled (plain_pieces (kind_of i.now.op) i.now)) }
{
    let word = op_text(i.op);
    let rd = register_text(i.rd);
    let rs1 = register_text(i.rs1);
    let rs2 = register_text(i.rs2);
    match i.op.kind() {
        OpKind::Register => push_three(text, word, rd, rs1, rs2),
        OpKind::Immediate => push_immediate(text, word, rd, rs1, i.imm),
        OpKind::Upper => push_value(text, word, rd, i.imm),
        OpKind::Load => push_access(text, word, rd, i.imm, rs1),
        OpKind::Store => push_access(text, word, rs2, i.imm, rs1),
        _ => push_pieces(text, &[b"    ", word]),
    }
}

/// Adds a label's name.
pub(crate) fn push_label(text: &mut Vec<u8>, number: usize) -> Result<(), AllocError>
    ensures { OnOk result (text.new.items ≡ text.old.items ++ label_text number) }
{
    let mut digits = Buffer::new();
    push_pieces(text, &[b".L", digits.format(number).as_bytes()])
}

fn push_numbered(text: &mut Vec<u8>, number: Option<usize>) -> Result<(), AllocError>
    ensures { OnOk result (text.new.items ≡ text.old.items ++ numbered_label number) }
{
    match number {
        Some(number) => push_label(text, number),
        None => Ok(()),
    }
}

/// Adds the label of a place, or a name as it is.
fn push_target(text: &mut Vec<u8>, labels: &Labels, to: &Target) -> Result<(), AllocError>
    ensures { (spots : List Target) → AreLabels labels.now spots → OnOk result (text.new.items ≡ text.old.items ++ target_text spots to.now) }
{
    match to {
        Target::Place { function, item } => push_numbered(
            text,
            labels.of_place(*function as usize, *item as usize),
        ),
        Target::Data { offset } => push_numbered(text, labels.of_offset(*offset as usize)),
        Target::Name(name) => push_pieces(text, &[name.as_bytes()]),
    }
}

/// Adds a word, two registers and a place.
fn push_branch(
    text: &mut Vec<u8>,
    word: &[u8],
    first: &[u8],
    second: &[u8],
    labels: &Labels,
    to: &Target,
) -> Result<(), AllocError>
    ensures { (spots : List Target) → AreLabels labels.now spots → OnOk result (text.new.items ≡ text.old.items ++ spelled (with_operands word.now (Word first.now ∷ comma ∷ Word second.now ∷ comma ∷ target spots to.now ∷ []))) }
{
    push_pieces(text, &[b"    ", word, b" ", first, b",", second, b","])?;
    push_target(text, labels, to)
}

/// Adds `la` with a register and a place.
fn push_address(
    text: &mut Vec<u8>,
    first: &[u8],
    labels: &Labels,
    to: &Target,
) -> Result<(), AllocError>
    ensures { (spots : List Target) → AreLabels labels.now spots → OnOk result (text.new.items ≡ text.old.items ++ spelled (with_operands (codes "la") (Word first.now ∷ comma ∷ target spots to.now ∷ []))) }
{
    push_pieces(text, &[b"    la ", first, b","])?;
    push_target(text, labels, to)
}

/// Adds `j` with a place.
fn push_jump(text: &mut Vec<u8>, labels: &Labels, to: &Target) -> Result<(), AllocError>
    ensures { (spots : List Target) → AreLabels labels.now spots → OnOk result (text.new.items ≡ text.old.items ++ spelled (with_operands (codes "j") (target spots to.now ∷ []))) }
{
    push_pieces(text, &[b"    j "])?;
    push_target(text, labels, to)
}

/// Adds an instruction, without its line's end.
pub(crate) fn push_ins(
    text: &mut Vec<u8>,
    labels: &Labels,
    ins: &SourceIns,
) -> Result<(), AllocError>
    ensures { (spots : List Target) → AreLabels labels.now spots → OnOk result (text.new.items ≡ text.old.items ++ spelled (ins_pieces spots ins.now)) }
{
    match ins {
        SourceIns::Plain(i) => push_plain(text, i),
        SourceIns::Li { rd, value } => push_value(text, b"li", register_text(*rd), *value),
        SourceIns::La { rd, to } => push_address(text, register_text(*rd), labels, to),
        SourceIns::Branch { op, rs1, rs2, to } => push_branch(
            text,
            op_text(*op),
            register_text(*rs1),
            register_text(*rs2),
            labels,
            to,
        ),
        SourceIns::Jump { to } => push_jump(text, labels, to),
        SourceIns::Call { name } => push_pieces(text, &[b"    call ", name.as_bytes()]),
        SourceIns::Ret => push_pieces(text, &[b"    ret"]),
        SourceIns::Fork { handle } => {
            push_pieces(text, &[b"    .st_fork ", register_text(*handle)])
        }
    }
}
