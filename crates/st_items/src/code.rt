//! What a run keeps of an image, by words: its instructions, decoded once, and the registers of the handles of its forks. A word is found
//! by its address (`word_index`).
ghost use Rattle.std.specs.Prelude.{◌≡◌, ◌≤◌, List, IfOk, length, replicate};
ghost use Rattle.st_base.specs.declared.reg.Reg.TheVariants.{Zero};
ghost use Rattle.st_rv.specs.declared.ins.Ins.{Ins};
ghost use Rattle.st_model.specs.declared.program.Program.{Program};
ghost use Rattle.st_model.specs.declared.code.Layout.{Layout};
ghost use Rattle.st_model.specs.Layout.{AreWords, IsCodeOf, code_of};
ghost use Rattle.st_items.specs.Code.{word_index};
ghost use Rattle.st_items.specs.Rows.{AreAscending, row_behind};
ghost use Rattle.st_items.specs.Tables.{AreInCode, HasCodeOf, begins_of, handles_of, instructions_of};

use st_base::image::{ForkRow, FrameRow, Image};
use st_base::map::CODE_START;
use st_base::reg::Reg;
use st_rv::code::decode;
use st_step::Decoded;
use std::alloc::{AllocError, Global};

/// The word of an address, counted from the first.
pub fn word_index(address: u32) -> usize
    requires { 0x10000 ≤ address }
    ensures { result ≡ word_index address }
{
    ((address - CODE_START) / 4) as usize
}

/// The instructions of words, decoded, each with the mark that stands at its place.
fn decoded(alloc: Global, words: &[u32], begins: &[bool]) -> Result<Vec<Decoded>, AllocError>
    requires words { ∥ ((instructions : List Ins) × AreWords instructions words.now) ∥₁ }
    requires begins { length begins.now ≡ length words.now }
    ensures instructions { IfOk result (λ found. (instructions : List Ins) → AreWords instructions words.now → instructions_of found.items ≡ instructions) }
    ensures begins { IfOk result (λ found. begins_of found.items ≡ begins.now) }
{
    let mut found = Vec::with_capacity(alloc, words.len())?;
    for at in 0..words.len() {
        let Some(instruction) = decode(words[at]) else {
            unreachable!()
        };
        found.push(Decoded::of(instruction, begins[at]))?;
    }
    Ok(found)
}

/// The registers of the handles of forks, at their first jumps, among so many words.
fn handles(alloc: Global, forks: &[ForkRow], count: usize) -> Result<Vec<Reg>, AllocError>
    requires { AreInCode count forks.now }
    ensures { IfOk result (λ table. table.items ≡ handles_of forks.now (replicate count Zero)) }
{
    let mut table = vec![in alloc; Reg::Zero; count]?;
    for row in forks {
        table[word_index(row.at)] = row.handle;
    }
    Ok(table)
}

/// The instructions of an image, each with whether an item begins with it, and for the first jump of each fork the register of its handle, both by words.
#[derive(Drop)]
pub struct Code {
    pub instructions: Vec<Decoded>,
    pub handles: Vec<Reg>,
}

impl Code {
    /// The tables of an image.
    pub fn of(alloc: Global, image: &Image) -> Result<Code, AllocError>
        requires { ∥ HasCodeOf image.now ∥₁ }
        ensures instructions { IfOk result (λ code. (layout : Layout) → (p : Program) → IsCodeOf layout p image.now → instructions_of code.instructions.items ≡ code_of layout p) }
        ensures begins { IfOk result (λ code. begins_of code.instructions.items ≡ image.now.begins) }
        ensures handles { IfOk result (λ code. code.handles.items ≡ handles_of image.now.forks (replicate (length image.now.words) Zero)) }
    {
        let instructions = decoded(alloc, image.words.as_slice(), image.begins.as_slice())?;
        let handles = handles(alloc, image.forks.as_slice(), image.words.as_slice().len())?;
        Ok(Code {
            instructions,
            handles,
        })
    }
}

/// The row of the function whose code has an address: the first whose code ends behind it.
pub fn row_of(rows: &[FrameRow], pc: u32) -> Option<FrameRow>
    requires { AreAscending 0 rows.now }
    ensures { result ≡ row_behind rows.now pc }
{
    rows.get(rows.partition_point(|row| row.code_to <= pc))
        .copied()
}
