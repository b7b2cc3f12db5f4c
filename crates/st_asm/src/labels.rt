//! Labels by their scopes and names: maps in which the first definition of a label stands.
ghost use Rattle.std.specs.Prelude.{◌≡◌, ◌++◌, ◌==◌, ◌&&◌, if◌then◌else◌, List, ℕ, Some, None, IfOk, OnOk, option_map};
ghost use Rattle.std.specs.Option.{option_or};
ghost use Rattle.std.specs.Str.{bytes_eq};
ghost use Rattle.st_asm.specs.Labels.{Definition, defined, definitions_of, scope_of, first_line, is_line, is_single, is_known};
ghost use Rattle.st_asm.specs.Assembly.{name_in_target, name_in, name_given};
ghost use Rattle.st_asm.specs.Reading.{named, names_in, value_at, TellsLines, located_views};
ghost use Rattle.st_line.specs.Statement.{line_label};

use crate::entries::{is_entry, scope_of};
use crate::lines::Located;
use st_base::line::Line;
use st_line::{SourceIns, Statement, Target, line_label};
use std::alloc::{AllocError, Global};
use std::collections::BTreeMap;

/// Values by their scope, which is the file of local labels or 0, and by the label's name.
pub(crate) type Labels<'a, V> = BTreeMap<u32, BTreeMap<&'a [u8], V>>;

/// Puts a value at a name, unless one stands there.
fn put_name<'a, V: Copy + Drop>(
    names: &mut BTreeMap<&'a [u8], V>,
    name: &'a [u8],
    value: V,
) -> Result<(), AllocError>
    ensures { OnOk result ((q : List ℕ) → named q names.new ≡ option_or (named q names.old) (if bytes_eq name.now q then Some value else None)) }
{
    if !names.contains_key(name) {
        names.insert(name, value)?;
    }
    Ok(())
}

/// Takes out the names of a scope.
fn take_names<'a, V: Copy + Drop>(
    alloc: Global,
    labels: &mut Labels<'a, V>,
    scope: u32,
) -> BTreeMap<&'a [u8], V>
    ensures taken { (q : List ℕ) → named q result ≡ value_at scope q labels.old }
    ensures others { (s : ℕ) → names_in s labels.new ≡ (if scope == s then None else names_in s labels.old) }
{
    match labels.remove(&scope) {
        Some(names) => names,
        None => BTreeMap::new(alloc),
    }
}

/// Puts a value at a label, unless one stands there.
pub(crate) fn put<'a, V: Copy + Drop>(
    alloc: Global,
    labels: &mut Labels<'a, V>,
    scope: u32,
    name: &'a [u8],
    value: V,
) -> Result<(), AllocError>
    ensures { OnOk result ((s : ℕ) (q : List ℕ) → value_at s q labels.new ≡ option_or (value_at s q labels.old) (if (scope == s) && bytes_eq name.now q then Some value else None)) }
{
    let mut names = take_names(alloc, labels, scope);
    put_name(&mut names, name, value)?;
    labels.insert(scope, names)?;
    Ok(())
}

/// The value at a label.
pub(crate) fn value_at<V: Copy>(labels: &Labels<'_, V>, scope: u32, name: &[u8]) -> Option<V>
    ensures { result ≡ value_at scope name.now labels.now }
{
    match labels.get(&scope) {
        Some(names) => names.get(name).copied(),
        None => None,
    }
}

/// Defines the label of a line.
fn define<'a>(
    alloc: Global,
    labels: &mut Labels<'a, Line>,
    located: &Located<'a>,
) -> Result<(), AllocError>
    ensures { (ds : List Definition) → TellsLines labels.old ds → OnOk result (TellsLines labels.new (ds ++ defined located.now.line (line_label located.now.text.now))) }
{
    match line_label(alloc, located.text)? {
        Some(name) => {
            put(
                alloc,
                labels,
                scope_of(located.line.file, name),
                name,
                located.line,
            )?;
            Ok(())
        }
        None => Ok(()),
    }
}

/// The line on which each label is defined first.
pub(crate) fn definitions<'a>(
    alloc: Global,
    lines: &[Located<'a>],
) -> Result<Labels<'a, Line>, AllocError>
    ensures { IfOk result (λ labels. TellsLines labels (definitions_of (located_views lines.now))) }
{
    let mut labels = BTreeMap::new(alloc);
    for located in lines {
        define(alloc, &mut labels, located)?;
    }
    Ok(labels)
}

/// Whether a line's label is no entry, and is defined on no earlier line.
pub(crate) fn is_single(labels: &Labels<'_, Line>, line: Line, label: Option<&[u8]>) -> bool
    ensures { (ds : List Definition) → TellsLines labels.now ds → result ≡ is_single ds line (option_map (λ n. n.now) label.entry) }
{
    match label {
        Some(name) => !is_entry(name) && is_first(labels, line, name),
        None => true,
    }
}

fn is_first(labels: &Labels<'_, Line>, line: Line, name: &[u8]) -> bool
    ensures { (ds : List Definition) → TellsLines labels.now ds → result ≡ is_line line (first_line (scope_of line.file name.now) name.now ds) }
{
    match value_at(labels, scope_of(line.file, name), name) {
        Some(first) => first.file == line.file && first.line == line.line,
        None => false,
    }
}

fn is_label(labels: &Labels<'_, Line>, file: u32, name: &[u8]) -> bool
    ensures { (ds : List Definition) → TellsLines labels.now ds → result ≡ is_known ds file (Some name.now) }
{
    is_entry(name) || value_at(labels, scope_of(file, name), name).is_some()
}

fn is_label_to(labels: &Labels<'_, Line>, file: u32, to: &Target) -> bool
    ensures { (ds : List Definition) → TellsLines labels.now ds → result ≡ is_known ds file (name_in_target to.now) }
{
    match to {
        Target::Name(name) => is_label(labels, file, name.as_bytes()),
        _ => true,
    }
}

fn is_known_in(labels: &Labels<'_, Line>, file: u32, ins: &SourceIns) -> bool
    ensures { (ds : List Definition) → TellsLines labels.now ds → result ≡ is_known ds file (name_in ins.now) }
{
    match ins {
        SourceIns::La { to, .. } | SourceIns::Branch { to, .. } | SourceIns::Jump { to } =>
            is_label_to(labels, file, to),
        SourceIns::Call { name } => is_label(labels, file, name.as_bytes()),
        _ => true,
    }
}

/// Whether the name that a statement gives is a label or an entry.
pub(crate) fn is_known(labels: &Labels<'_, Line>, file: u32, statement: &Option<Statement>) -> bool
    ensures { (ds : List Definition) → TellsLines labels.now ds → result ≡ is_known ds file (name_given statement.now) }
{
    match statement {
        Some(Statement::Instruction(ins)) => is_known_in(labels, file, ins),
        _ => true,
    }
}
