//! What a statement's first word names, and the names of registers.
ghost use Rattle.std.specs.Prelude.{◌≡◌, map};
ghost use Rattle.st_rv.specs.Rows.{mnemonics};
ghost use Rattle.st_line.specs.Operands.{named_in, register_named};
ghost use Rattle.st_line.specs.Registers.{register_name};
ghost use Rattle.st_line.specs.Words.{word_named, pseudo_rows, directive_rows, may_stand, directive_may_stand, is_inside, takes_arguments, takes_handles};

use crate::source::{Part, Standing};
use st_base::reg::Reg;
use st_rv::ins::Op;
use st_rv::rows::NAMES;

/// A pseudo instruction.
#[derive(Clone, Copy, Debug, PartialEq, Eq)]
pub enum Pseudo {
    Nop,
    Mv,
    Not,
    Neg,
    Negw,
    SextW,
    Seqz,
    Snez,
    Sltz,
    Sgtz,
    Beqz,
    Bnez,
    Blez,
    Bgez,
    Bltz,
    Bgtz,
    Bgt,
    Ble,
    Bgtu,
    Bleu,
    J,
    Jr,
    Call,
    Ret,
    Li,
    La,
}

/// How many bytes a number of data has.
#[derive(Clone, Copy, Debug, PartialEq, Eq)]
pub enum NumberSize {
    Byte,
    Half,
    Word,
    Double,
}

/// A directive.
#[derive(Clone, Copy, Debug, PartialEq, Eq)]
pub enum Directive {
    Text,
    Section,
    /// `.globl`, `.file`, `.option`, `.attribute`, `.type`, `.size` or `.ident`.
    Ignored,
    Align,
    /// `.byte`, `.half`, `.word` or `.dword`.
    Numbers(NumberSize),
    Ascii,
    /// `.asciz` or `.string`.
    Asciz,
    Zero,
    Arguments,
    Handles,
    Fork,
}

/// What a statement's first word names.
#[derive(Clone, Copy, Debug, PartialEq, Eq)]
pub enum Word {
    /// A row of the instruction table.
    Row(Op),
    Pseudo(Pseudo),
    Directive(Directive),
}

/// The pseudo instructions by their names.
pub const PSEUDOS: [(Pseudo, &str); 26] = [
    (Pseudo::Nop, "nop"),
    (Pseudo::Mv, "mv"),
    (Pseudo::Not, "not"),
    (Pseudo::Neg, "neg"),
    (Pseudo::Negw, "negw"),
    (Pseudo::SextW, "sext.w"),
    (Pseudo::Seqz, "seqz"),
    (Pseudo::Snez, "snez"),
    (Pseudo::Sltz, "sltz"),
    (Pseudo::Sgtz, "sgtz"),
    (Pseudo::Beqz, "beqz"),
    (Pseudo::Bnez, "bnez"),
    (Pseudo::Blez, "blez"),
    (Pseudo::Bgez, "bgez"),
    (Pseudo::Bltz, "bltz"),
    (Pseudo::Bgtz, "bgtz"),
    (Pseudo::Bgt, "bgt"),
    (Pseudo::Ble, "ble"),
    (Pseudo::Bgtu, "bgtu"),
    (Pseudo::Bleu, "bleu"),
    (Pseudo::J, "j"),
    (Pseudo::Jr, "jr"),
    (Pseudo::Call, "call"),
    (Pseudo::Ret, "ret"),
    (Pseudo::Li, "li"),
    (Pseudo::La, "la"),
];

/// The directives by their names.
pub const DIRECTIVES: [(Directive, &str); 21] = [
    (Directive::Text, ".text"),
    (Directive::Section, ".section"),
    (Directive::Ignored, ".globl"),
    (Directive::Ignored, ".file"),
    (Directive::Ignored, ".option"),
    (Directive::Ignored, ".attribute"),
    (Directive::Ignored, ".type"),
    (Directive::Ignored, ".size"),
    (Directive::Ignored, ".ident"),
    (Directive::Align, ".align"),
    (Directive::Numbers(NumberSize::Byte), ".byte"),
    (Directive::Numbers(NumberSize::Half), ".half"),
    (Directive::Numbers(NumberSize::Word), ".word"),
    (Directive::Numbers(NumberSize::Double), ".dword"),
    (Directive::Ascii, ".ascii"),
    (Directive::Asciz, ".asciz"),
    (Directive::Asciz, ".string"),
    (Directive::Zero, ".zero"),
    (Directive::Arguments, ".st_args"),
    (Directive::Handles, ".st_handles"),
    (Directive::Fork, ".st_fork"),
];

/// The registers by the names of the calling convention, with `fp`, and by their numbers.
pub const REGISTERS: [(Reg, &str); 65] = [
    (Reg::Zero, "zero"),
    (Reg::Ra, "ra"),
    (Reg::Sp, "sp"),
    (Reg::Gp, "gp"),
    (Reg::Tp, "tp"),
    (Reg::T0, "t0"),
    (Reg::T1, "t1"),
    (Reg::T2, "t2"),
    (Reg::S0, "s0"),
    (Reg::S1, "s1"),
    (Reg::A0, "a0"),
    (Reg::A1, "a1"),
    (Reg::A2, "a2"),
    (Reg::A3, "a3"),
    (Reg::A4, "a4"),
    (Reg::A5, "a5"),
    (Reg::A6, "a6"),
    (Reg::A7, "a7"),
    (Reg::S2, "s2"),
    (Reg::S3, "s3"),
    (Reg::S4, "s4"),
    (Reg::S5, "s5"),
    (Reg::S6, "s6"),
    (Reg::S7, "s7"),
    (Reg::S8, "s8"),
    (Reg::S9, "s9"),
    (Reg::S10, "s10"),
    (Reg::S11, "s11"),
    (Reg::T3, "t3"),
    (Reg::T4, "t4"),
    (Reg::T5, "t5"),
    (Reg::T6, "t6"),
    (Reg::S0, "fp"),
    (Reg::Zero, "x0"),
    (Reg::Ra, "x1"),
    (Reg::Sp, "x2"),
    (Reg::Gp, "x3"),
    (Reg::Tp, "x4"),
    (Reg::T0, "x5"),
    (Reg::T1, "x6"),
    (Reg::T2, "x7"),
    (Reg::S0, "x8"),
    (Reg::S1, "x9"),
    (Reg::A0, "x10"),
    (Reg::A1, "x11"),
    (Reg::A2, "x12"),
    (Reg::A3, "x13"),
    (Reg::A4, "x14"),
    (Reg::A5, "x15"),
    (Reg::A6, "x16"),
    (Reg::A7, "x17"),
    (Reg::S2, "x18"),
    (Reg::S3, "x19"),
    (Reg::S4, "x20"),
    (Reg::S5, "x21"),
    (Reg::S6, "x22"),
    (Reg::S7, "x23"),
    (Reg::S8, "x24"),
    (Reg::S9, "x25"),
    (Reg::S10, "x26"),
    (Reg::S11, "x27"),
    (Reg::T3, "x28"),
    (Reg::T4, "x29"),
    (Reg::T5, "x30"),
    (Reg::T6, "x31"),
];

/// What stands beside this text in a table.
fn find_named<T: Copy>(table: &[(T, &str)], text: &[u8]) -> Option<T>
    ensures { result ≡ named_in (map (λ p. (p.0, p.1.now)) table.now) text.now }
{
    for (value, name) in table {
        if name.as_bytes() == text {
            return Some(*value);
        }
    }
    None
}

fn find_op(text: &[u8]) -> Option<Op>
    ensures { result ≡ named_in mnemonics text.now }
{
    find_named(&NAMES, text)
}

fn find_pseudo(text: &[u8]) -> Option<Pseudo>
    ensures { result ≡ named_in pseudo_rows text.now }
{
    find_named(&PSEUDOS, text)
}

fn find_directive(text: &[u8]) -> Option<Directive>
    ensures { result ≡ named_in directive_rows text.now }
{
    find_named(&DIRECTIVES, text)
}

/// The mnemonic, pseudo instruction or directive of this name.
#[tactic(auto, unfolding(crate::specs::Words::word_named))]
pub(crate) fn word_named(text: &[u8]) -> Option<Word>
    ensures { result ≡ word_named text.now }
{
    if let Some(op) = find_op(text) {
        return Some(Word::Row(op));
    }
    if let Some(pseudo) = find_pseudo(text) {
        return Some(Word::Pseudo(pseudo));
    }
    let directive = find_directive(text)?;
    Some(Word::Directive(directive))
}

/// The register of this name or number.
pub(crate) fn register_named(text: &[u8]) -> Option<Reg>
    ensures { result ≡ register_named text.now }
{
    find_named(&REGISTERS, text)
}

/// The calling convention's name of a register, `s0` for x8.
pub fn register_name(reg: Reg) -> &'static str
    ensures { result.now ≡ register_name reg }
{
    match reg {
        Reg::Zero => "zero",
        Reg::Ra => "ra",
        Reg::Sp => "sp",
        Reg::Gp => "gp",
        Reg::Tp => "tp",
        Reg::T0 => "t0",
        Reg::T1 => "t1",
        Reg::T2 => "t2",
        Reg::S0 => "s0",
        Reg::S1 => "s1",
        Reg::A0 => "a0",
        Reg::A1 => "a1",
        Reg::A2 => "a2",
        Reg::A3 => "a3",
        Reg::A4 => "a4",
        Reg::A5 => "a5",
        Reg::A6 => "a6",
        Reg::A7 => "a7",
        Reg::S2 => "s2",
        Reg::S3 => "s3",
        Reg::S4 => "s4",
        Reg::S5 => "s5",
        Reg::S6 => "s6",
        Reg::S7 => "s7",
        Reg::S8 => "s8",
        Reg::S9 => "s9",
        Reg::S10 => "s10",
        Reg::S11 => "s11",
        Reg::T3 => "t3",
        Reg::T4 => "t4",
        Reg::T5 => "t5",
        Reg::T6 => "t6",
    }
}

fn is_inside(part: Part) -> bool
    ensures { result ≡ is_inside part }
{
    !matches!(part, Part::Outside)
}

fn takes_arguments(part: Part) -> bool
    ensures { result ≡ takes_arguments part }
{
    match part {
        Part::Head { arguments, .. } => !arguments,
        _ => false,
    }
}

fn takes_handles(part: Part) -> bool
    ensures { result ≡ takes_handles part }
{
    match part {
        Part::Head { handles, .. } => !handles,
        _ => false,
    }
}

fn directive_may_stand(standing: Standing, directive: Directive) -> bool
    ensures { result ≡ directive_may_stand standing directive }
{
    match directive {
        Directive::Text | Directive::Section | Directive::Ignored | Directive::Align => true,
        Directive::Arguments => !standing.in_data && takes_arguments(standing.part),
        Directive::Handles => !standing.in_data && takes_handles(standing.part),
        Directive::Fork => !standing.in_data && is_inside(standing.part),
        _ => standing.in_data,
    }
}

/// Whether a statement of this word may stand there: data in data, an instruction in a function's code.
pub(crate) fn may_stand(standing: Standing, word: Word) -> bool
    ensures { result ≡ may_stand standing word }
{
    match word {
        Word::Directive(directive) => directive_may_stand(standing, directive),
        _ => !standing.in_data && is_inside(standing.part),
    }
}
