//! Reading texts: their lines are checked one after another, against the labels of all files.
ghost use Rattle.std.specs.Prelude.{◌≡◌, ◌≤◌, List, length, map, IfOk, OnOk};
ghost use Rattle.st_asm.specs.Labels.{Definition};
ghost use Rattle.st_base.specs.declared.failure.Failure.TheVariants.{Fault};
ghost use Rattle.st_asm.specs.Assembly.{nothing, parts_in, checked_line, checked_lines, too_long, unit_of};
ghost use Rattle.st_asm.specs.Reading.{seen, located_view, located_views, TellsLines, IsSmall, at_line, Makes, GivesAt, GivesUnit, HasFile, IsUnitIn, parts_of};

use crate::assembly::Assembled;
use crate::error::AsmError;
use crate::labels::{Labels, definitions, is_known, is_single};
use crate::lines::{Located, lines_of};
use crate::places::{functions_in, places_of};
use crate::whole::Unit;
use st_base::line::Line;
use st_base::map::MOST_TEXT;
use st_base::path::Bytes;
use st_line::{AsmFault, AsmKind, LineError, line_label, read_line};
use std::alloc::{AllocError, Global};

/// The file in which the byte past the most bytes stands, counted from 1.
fn long_file(texts: &[Vec<u8>]) -> Option<u32>
    requires { length texts.now ≤ 64 }
    ensures { result ≡ too_long 1 0 (map (λ t. t.items) texts.now) }
{
    let mut file = 1;
    let mut left = MOST_TEXT;
    for text in texts {
        if left < text.len() {
            return Some(file);
        }
        left -= text.len();
        file += 1;
    }
    None
}

fn fault_at(line: Line, kind: AsmKind) -> AsmError
    ensures { result ≡ Fault (record { line = line; kind = kind }) }
{
    AsmError::Fault(AsmFault { line, kind })
}

/// Adds a line to what was assembled, or tells its least fault.
#[tactic(auto, unfolding(crate::specs::Assembly::checked_line), using(crate::proofs::Room::instructions_kept, crate::proofs::Room::rodata_kept, crate::proofs::ReadStatements::is_aligned_from_line))]
fn check_line<'a>(
    alloc: Global,
    labels: &Labels<'a, Line>,
    assembled: &mut Assembled<'a>,
    located: &Located<'a>,
) -> Result<(), AsmError>
    requires { IsSmall (seen assembled.old) }
    ensures made { (ds : List Definition) → TellsLines labels.now ds → Makes result (seen assembled.new) (at_line located.now.line (checked_line ds (seen assembled.old) (located_view located.now))) }
    ensures small { OnOk result (IsSmall (seen assembled.new)) }
{
    let label = line_label(alloc, located.text)?;
    assembled.begin_line(located.line)?;
    assembled.label(alloc, located.line, label)?;
    let statement = match read_line(alloc, assembled.standing, located.text) {
        Ok(statement) => statement,
        Err(LineError::Fault(kind)) => return Err(fault_at(located.line, kind)),
        Err(LineError::OutOfMemory) => return Err(AsmError::OutOfMemory),
    };
    if !is_single(labels, located.line, label) {
        return Err(fault_at(located.line, AsmKind::DoubleLabel));
    }
    if !is_known(labels, located.line.file, &statement) {
        return Err(fault_at(located.line, AsmKind::NoLabel));
    }
    if !assembled.has_room(&statement) {
        return Err(fault_at(located.line, AsmKind::TooLarge));
    }
    assembled.state(located.line, statement)?;
    Ok(())
}

/// What all lines make, or their first fault.
fn check_lines<'a>(
    alloc: Global,
    labels: &Labels<'a, Line>,
    lines: &[Located<'a>],
) -> Result<Assembled<'a>, AsmError>
    ensures { (ds : List Definition) → TellsLines labels.now ds → GivesAt seen result (checked_lines ds nothing (located_views lines.now)) }
{
    let mut assembled = Assembled::new(alloc);
    for located in lines {
        match check_line(alloc, labels, &mut assembled, located) {
            Ok(()) => {}
            Err(error) => return Err(error),
        }
    }
    Ok(assembled)
}

/// The unit of what all lines made.
fn unit_in(alloc: Global, mut assembled: Assembled<'_>) -> Result<Unit, AllocError>
    requires { IsUnitIn (parts_in (seen assembled)) }
    ensures { IfOk result (λ u. parts_of u ≡ parts_in (seen assembled.entry)) }
{
    assembled.close()?;
    let places = places_of(alloc, &assembled.labels)?;
    let functions = functions_in(alloc, &places, assembled.functions)?;
    Ok(Unit {
        functions,
        rodata: Bytes::from_vec(assembled.rodata),
    })
}

#[tactic(auto, unfolding(crate::specs::Assembly::unit_of), using(crate::proofs::Units::short_from_too_long))]
fn read_texts(alloc: Global, texts: &[Vec<u8>]) -> Result<Unit, AsmError>
    requires { length texts.now ≤ 64 }
    ensures { GivesUnit result (unit_of (map (λ t. t.items) texts.now)) }
{
    if let Some(file) = long_file(texts) {
        return Err(fault_at(Line { file, line: 1 }, AsmKind::TooLarge));
    }
    let lines = lines_of(alloc, texts)?;
    let labels = definitions(alloc, &lines)?;
    let assembled = check_lines(alloc, &labels, &lines)?;
    Ok(unit_in(alloc, assembled)?)
}

/// The unit of the texts of 1 to 64 files, in their order.
///
/// Errors: the first fault of the texts, by its line and there by the least kind, where they have one; or too little memory.
/// The fault's file is the number of its text, counted from 1.
pub fn read_unit(alloc: Global, texts: &[Vec<u8>]) -> Result<Unit, AsmError>
    requires some { 1 ≤ length texts.now }
    requires few { length texts.now ≤ 64 }
    ensures unit { GivesUnit result (unit_of (map (λ t. t.items) texts.now)) }
    ensures file { HasFile (length texts.now) result }
{
    read_texts(alloc, texts)
}
