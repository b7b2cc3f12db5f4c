//! What a line's statement adds to what was assembled, and whether there is room for it.
ghost use Rattle.std.specs.Prelude.{◌≡◌, ◌++◌, ◌+◌, ◌^◌, ◌≤◌, Some, length, nat_le, OnOk};
ghost use Rattle.st_base.specs.declared.line.Line.{Line};
ghost use Rattle.st_asm.specs.Assembly.{zeros, padding, argued, handled, aligned, with_item, with_statement, stated, weight, is_small};
ghost use Rattle.st_asm.specs.Reading.{seen, IsAligned, with_arguments, with_slots, added_bytes, added_instructions};

use crate::assembly::Assembled;
use crate::unit::SourceLine;
use st_base::line::Line;
use st_base::map::{MOST_DATA, MOST_INSTRUCTIONS};
use st_line::{Part, SourceIns, Statement};
use std::alloc::AllocError;

/// How many zeros bring a length to a multiple of 2^power.
fn padding(power: u32, length: usize) -> usize
    requires { power ≤ 12 }
    ensures { result ≡ padding (2 ^ power) length }
{
    let multiple = 1usize << power;
    (multiple - length % multiple) % multiple
}

/// 1 for an instruction, and 0 for `.st_fork`.
fn weight(ins: &SourceIns) -> u32
    ensures { result ≡ weight ins.now }
{
    match ins {
        SourceIns::Fork { .. } => 0,
        _ => 1,
    }
}

/// What `.st_args` leaves of the head of a function.
fn argued(part: Part) -> Part
    ensures { result ≡ argued part }
{
    match part {
        Part::Head { handles, .. } => Part::Head {
            arguments: true,
            handles,
        },
        _ => part,
    }
}

/// What `.st_handles` leaves of the head of a function.
fn handled(part: Part) -> Part
    ensures { result ≡ handled part }
{
    match part {
        Part::Head { arguments, .. } => Part::Head {
            arguments,
            handles: true,
        },
        _ => part,
    }
}

/// Adds so many zeros.
fn add_zeros(bytes: &mut Vec<u8>, count: usize) -> Result<(), AllocError>
    ensures { OnOk result (bytes.new.items ≡ bytes.old.items ++ zeros count) }
{
    for _ in 0..count {
        bytes.push(0)?;
    }
    Ok(())
}

/// How many instruction lines a statement adds.
fn added_instructions(statement: &Statement) -> u32
    ensures { result ≡ added_instructions statement.now }
{
    match statement {
        Statement::Instruction(ins) => weight(ins),
        _ => 0,
    }
}

/// How many bytes a statement adds to so many bytes of data.
fn added_bytes(statement: &Statement, in_data: bool, length: usize) -> usize
    requires { IsAligned (Some statement.now) }
    ensures { result ≡ added_bytes statement.now in_data length }
{
    match statement {
        Statement::Align { power } => if in_data { padding(*power, length) } else { 0 },
        Statement::Data(bytes) => bytes.len(),
        Statement::Zeros { count } => *count as usize,
        _ => 0,
    }
}

impl Assembled<'_> {
    /// Whether the instruction lines and the data are in their limits with this statement.
    #[tactic(auto, using(crate::proofs::Room::is_small_from_added))]
    pub(crate) fn has_room(&self, statement: &Option<Statement>) -> bool
        requires instructions { self.now.instructions ≤ 65536 }
        requires bytes { length self.now.rodata.items ≤ 1048576 }
        requires aligned { IsAligned statement.now }
        ensures { (line : Line) → result ≡ is_small (stated line statement.now (seen self.now)) }
    {
        match statement {
            Some(statement) => added_instructions(statement)
                <= MOST_INSTRUCTIONS - self.instructions
                && self.has_bytes_for(statement),
            None => true,
        }
    }

    fn has_bytes_for(&self, statement: &Statement) -> bool
        requires bytes { length self.now.rodata.items ≤ 1048576 }
        requires aligned { IsAligned (Some statement.now) }
        ensures { result ≡ nat_le (length self.now.rodata.items + added_bytes statement.now self.now.standing.in_data (length self.now.rodata.items)) 1048576 }
    {
        added_bytes(statement, self.standing.in_data, self.rodata.len())
            <= MOST_DATA - self.rodata.len()
    }

    /// Adds an instruction line, or a line `.st_fork`.
    fn add_item(&mut self, line: Line, ins: SourceIns) -> Result<(), AllocError>
        requires { self.old.instructions ≤ 65536 }
        ensures { OnOk result (seen self.new ≡ with_item line ins (seen self.old)) }
    {
        self.instructions += weight(&ins);
        if let Some(function) = &mut self.current {
            function.items.push(SourceLine {
                line,
                labelled: self.marked,
                ins,
            })?;
        }
        self.standing.part = Part::Body;
        self.marked = false;
        Ok(())
    }

    fn align(&mut self, power: u32) -> Result<(), AllocError>
        requires { power ≤ 12 }
        ensures { OnOk result (seen self.new ≡ aligned (seen self.old).standing.in_data power (seen self.old)) }
    {
        if self.standing.in_data {
            let count = padding(power, self.rodata.len());
            add_zeros(&mut self.rodata, count)?;
        }
        Ok(())
    }

    fn set_arguments(&mut self, ints: u32, handles: u32)
        ensures { seen self.new ≡ with_arguments ints handles (seen self.old) }
    {
        self.standing.part = argued(self.standing.part);
        if let Some(function) = &mut self.current {
            function.ints = ints;
            function.handles = handles;
        }
    }

    fn set_slots(&mut self, slots: u32)
        ensures { seen self.new ≡ with_slots slots (seen self.old) }
    {
        self.standing.part = handled(self.standing.part);
        if let Some(function) = &mut self.current {
            function.slots = slots;
        }
    }

    fn add_statement(&mut self, line: Line, statement: Statement) -> Result<(), AllocError>
        requires instructions { self.old.instructions ≤ 65536 }
        requires aligned { IsAligned (Some statement) }
        ensures { OnOk result (seen self.new ≡ with_statement line statement (seen self.old)) }
    {
        match statement {
            Statement::Ignored => Ok(()),
            Statement::Code => {
                self.standing.in_data = false;
                Ok(())
            }
            Statement::Rodata => {
                self.standing.in_data = true;
                Ok(())
            }
            Statement::Align { power } => self.align(power),
            Statement::Data(bytes) => self.rodata.extend_from_slice(bytes.as_slice()),
            Statement::Zeros { count } => add_zeros(&mut self.rodata, count as usize),
            Statement::Arguments { ints, handles } => {
                self.set_arguments(ints, handles);
                Ok(())
            }
            Statement::Handles { slots } => {
                self.set_slots(slots);
                Ok(())
            }
            Statement::Instruction(ins) => self.add_item(line, ins),
        }
    }

    /// Adds what a line says.
    pub(crate) fn state(
        &mut self,
        line: Line,
        statement: Option<Statement>,
    ) -> Result<(), AllocError>
        requires instructions { self.old.instructions ≤ 65536 }
        requires aligned { IsAligned statement }
        ensures { OnOk result (seen self.new ≡ stated line statement (seen self.old)) }
    {
        match statement {
            Some(statement) => self.add_statement(line, statement),
            None => Ok(()),
        }
    }
}
