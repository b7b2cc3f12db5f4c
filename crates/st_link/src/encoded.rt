//! Words of code: each instruction is resolved and encoded where it stands.
ghost use Rattle.std.specs.Prelude.{◌≡◌, ◌<◌, ◌≤◌, ◌+◌, ◌*◌, ◌^◌, ◌++◌, ◌∷◌, [], length, map, OnOk, IfOk};
ghost use Rattle.st_rv.specs.Rows.{FitsTable};
ghost use Rattle.st_model.specs.Layout.{AreWords, code_start, upper_ins};
ghost use Rattle.st_link.specs.Encoding.{words_in, joined, total, resolved_by, resolved_in, resolved_all, AllFit, IsCalled, AreCalled, AllCalled, Adds};

use crate::far::distance;
use st_base::image::FrameRow;
use st_base::line::Line;
use st_base::map::CODE_START;
use st_base::reg::Reg;
use st_post::{PostedFunction, PostedIns, PostedWord};
use st_rv::code::encode;
use st_rv::ins::{Ins, Op};
use std::alloc::{AllocError, Global};

/// `jal` over a distance.
fn jump_by(rd: Reg, imm: i64) -> Ins
    ensures { result ≡ upper_ins Op.Jal rd imm }
{
    Ins {
        op: Op::Jal,
        rd,
        rs1: Reg::Zero,
        rs2: Reg::Zero,
        imm,
    }
}

/// The instruction of a word at an address, the word `at` of its function.
fn resolve(rows: &[FrameRow], address: u32, at: usize, ins: PostedIns) -> Ins
    requires called { IsCalled (length rows.now) ins }
    requires at { at < 2 ^ 60 }
    ensures { result ≡ resolved_by rows.now address at ins }
{
    match ins {
        PostedIns::Plain(i) => i,
        PostedIns::Branch { op, rs1, rs2, to } => Ins {
            op,
            rd: Reg::Zero,
            rs1,
            rs2,
            imm: distance(at, to),
        },
        PostedIns::Jump { to } => jump_by(Reg::Zero, distance(at, to)),
        PostedIns::Call { function } => {
            let start = rows[function as usize].code_from;
            jump_by(Reg::Ra, i64::from(start) - i64::from(address))
        }
        PostedIns::Entry { at: entry } => {
            jump_by(Reg::Ra, i64::from(entry) - i64::from(address))
        }
    }
}

/// Encoded words, with what an image tells of each.
#[derive(Drop)]
pub(crate) struct Encoded {
    pub words: Vec<u32>,
    /// The line of each word.
    pub lines: Vec<Line>,
    /// Whether a word is the first of its item.
    pub begins: Vec<bool>,
}

impl Encoded {
    fn new(alloc: Global) -> Encoded
        ensures words { result.words.items ≡ [] }
        ensures lines { result.lines.items ≡ [] }
        ensures begins { result.begins.items ≡ [] }
    {
        Encoded {
            words: Vec::new(alloc),
            lines: Vec::new(alloc),
            begins: Vec::new(alloc),
        }
    }

    /// Adds a word, whose resolved instruction this is.
    fn push(&mut self, word: &PostedWord, ins: Ins) -> Result<(), AllocError>
        requires { ∥ FitsTable ins ∥₁ }
        ensures words { OnOk result (Adds (ins ∷ []) self.old.words.items self.new.words.items) }
        ensures lines { OnOk result (self.new.lines.items ≡ self.old.lines.items ++ word.now.line ∷ []) }
        ensures begins { OnOk result (self.new.begins.items ≡ self.old.begins.items ++ word.now.begins ∷ []) }
    {
        let bits = encode(ins).unwrap();
        self.words.push(bits)?;
        self.lines.push(word.line)?;
        self.begins.push(word.begins)?;
        Ok(())
    }

    /// Adds the words of a function whose first address this is.
    fn push_function(
        &mut self,
        rows: &[FrameRow],
        from: u32,
        code: &[PostedWord],
    ) -> Result<(), AllocError>
        requires fits { ∥ AllFit (resolved_in rows.now from 0 code.now) ∥₁ }
        requires calls { AreCalled (length rows.now) code.now }
        requires small { from + 4 * length code.now < 2 ^ 32 }
        ensures words { OnOk result (Adds (resolved_in rows.now from 0 code.now) self.old.words.items self.new.words.items) }
        ensures lines { OnOk result (self.new.lines.items ≡ self.old.lines.items ++ map (λ w. w.line) code.now) }
        ensures begins { OnOk result (self.new.begins.items ≡ self.old.begins.items ++ map (λ w. w.begins) code.now) }
    {
        let mut address = from;
        for (at, word) in code.iter().enumerate() {
            let ins = resolve(rows, address, at, word.ins);
            self.push(word, ins)?;
            address += 4;
        }
        Ok(())
    }
}

/// The words of functions, whose addresses stand in their rows.
pub(crate) fn encode_all(
    alloc: Global,
    rows: &[FrameRow],
    functions: &[PostedFunction],
) -> Result<Encoded, AllocError>
    requires fits { ∥ AllFit (resolved_all rows.now code_start (words_in functions.now)) ∥₁ }
    requires calls { AllCalled (length rows.now) (words_in functions.now) }
    requires small { total (words_in functions.now) ≤ 196608 }
    ensures words { IfOk result (λ encoded. AreWords (resolved_all rows.now code_start (words_in functions.now)) encoded.words.items) }
    ensures lines { IfOk result (λ encoded. encoded.lines.items ≡ map (λ w. w.line) (joined (words_in functions.now))) }
    ensures begins { IfOk result (λ encoded. encoded.begins.items ≡ map (λ w. w.begins) (joined (words_in functions.now))) }
{
    let mut encoded = Encoded::new(alloc);
    let mut address = CODE_START;
    for function in functions {
        let code = function.words.as_slice();
        encoded.push_function(rows, address, code)?;
        address += 4 * code.len() as u32;
    }
    Ok(encoded)
}
