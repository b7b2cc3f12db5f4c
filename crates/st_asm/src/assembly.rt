//! What the lines of a text make, one line after another.
ghost use Rattle.std.specs.Prelude.{◌≡◌, IfOk, OnOk, option_map};
ghost use Rattle.st_asm.specs.Assembly.{nothing, functions_in, begin_line, with_label, data_label, function_label, local_label, new_function, labelled};
ghost use Rattle.st_asm.specs.Reading.{seen, spot_target};

use crate::entries::{is_local, scope_of};
use crate::unit::{Function, SourceLine};
use st_base::line::Line;
use st_base::lists::Listed;
use st_base::name::Name;
use st_line::{Part, SourceIns, Standing, Statement};
use std::alloc::{AllocError, Global};

/// What stands at a label.
#[derive(Clone, Copy, Debug, Drop)]
pub(crate) enum Spot {
    /// A place in a function, by the item that follows it.
    Place { function: u32, item: u32 },
    /// An offset in the read-only data.
    Data { offset: u32 },
}

/// A label of a scope, with what stands there.
#[derive(Clone, Copy, Debug, Drop)]
pub(crate) struct Marked<'a> {
    pub scope: u32,
    pub name: &'a [u8],
    pub spot: Spot,
}

/// What the lines so far have made.
#[derive(Drop)]
pub(crate) struct Assembled<'a> {
    /// Where the next line stands.
    pub standing: Standing,
    /// The functions that are whole, and the one that goes on.
    pub functions: Vec<Function>,
    pub current: Option<Function>,
    pub rodata: Vec<u8>,
    /// The instruction lines; a line `.st_fork` isn't one.
    pub instructions: u32,
    /// Whether a label stands where the next item will.
    pub marked: bool,
    pub labels: Vec<Marked<'a>>,
}

impl<'a> Assembled<'a> {
    pub(crate) fn new(alloc: Global) -> Assembled<'a>
        ensures { seen result ≡ nothing }
    {
        Assembled {
            standing: Standing {
                in_data: false,
                part: Part::Outside,
            },
            functions: Vec::new(alloc),
            current: None,
            rodata: Vec::new(alloc),
            instructions: 0,
            marked: false,
            labels: Vec::new(alloc),
        }
    }

    /// Puts the function that goes on to those that are whole.
    pub(crate) fn close(&mut self) -> Result<(), AllocError>
        ensures { OnOk result (seen self.new ≡ record (seen self.old) { functions = functions_in (seen self.old); current = None }) }
    {
        if let Some(function) = self.current.take() {
            self.functions.push(function)?;
        }
        Ok(())
    }

    /// Begins a file where the line is its first.
    pub(crate) fn begin_line(&mut self, line: Line) -> Result<(), AllocError>
        ensures { OnOk result (seen self.new ≡ begin_line line (seen self.old)) }
    {
        if line.line == 1 {
            self.close()?;
            self.standing = Standing {
                in_data: false,
                part: Part::Outside,
            };
            self.marked = false;
        }
        Ok(())
    }

    fn mark(&mut self, line: Line, name: &'a [u8], spot: Spot) -> Result<(), AllocError>
        ensures { OnOk result (seen self.new ≡ with_label line name.now (spot_target spot) (seen self.old)) }
    {
        self.labels.push(Marked {
            scope: scope_of(line.file, name),
            name,
            spot,
        })?;
        Ok(())
    }

    fn data_label(&mut self, line: Line, name: &'a [u8]) -> Result<(), AllocError>
        ensures { OnOk result (seen self.new ≡ data_label line name.now (seen self.old)) }
    {
        let offset = number(self.rodata.len())?;
        self.mark(line, name, Spot::Data { offset })?;
        Ok(())
    }

    fn function_label(
        &mut self,
        alloc: Global,
        line: Line,
        name: &'a [u8],
    ) -> Result<(), AllocError>
        ensures { OnOk result (seen self.new ≡ function_label line name.now (seen self.old)) }
    {
        self.close()?;
        let function = number(self.functions.len())?;
        self.current = Some(new_function(alloc, line, name)?);
        self.standing.part = Part::Head {
            arguments: false,
            handles: false,
        };
        self.marked = true;
        self.mark(line, name, Spot::Place { function, item: 0 })?;
        Ok(())
    }

    fn local_label(&mut self, line: Line, name: &'a [u8]) -> Result<(), AllocError>
        ensures { OnOk result (seen self.new ≡ local_label line name.now (seen self.old).current (seen self.old)) }
    {
        let Some(current) = &self.current else {
            return Ok(());
        };
        let item = number(current.items.len())?;
        let function = number(self.functions.len())?;
        self.marked = true;
        self.mark(line, name, Spot::Place { function, item })?;
        Ok(())
    }

    /// Puts a line's label where it stands.
    pub(crate) fn label(
        &mut self,
        alloc: Global,
        line: Line,
        label: Option<&'a [u8]>,
    ) -> Result<(), AllocError>
        ensures { OnOk result (seen self.new ≡ labelled line (option_map (λ n. n.now) label.entry) (seen self.old)) }
    {
        let Some(name) = label else {
            return Ok(());
        };
        if self.standing.in_data {
            self.data_label(line, name)
        } else if is_local(name) {
            self.local_label(line, name)
        } else {
            self.function_label(alloc, line, name)
        }
    }
}

/// A length as a number of a place.
fn number(length: usize) -> Result<u32, AllocError>
    ensures { IfOk result (λ n. n ≡ length) }
{
    match u32::try_from(length) {
        Ok(n) => Ok(n),
        Err(_) => Err(AllocError),
    }
}

fn new_function(alloc: Global, line: Line, name: &[u8]) -> Result<Function, AllocError>
    ensures { IfOk result (λ function. function ≡ new_function line name.now) }
{
    Ok(Function {
        name: Name::from_slice(alloc, name)?,
        ints: 0,
        handles: 0,
        slots: 0,
        line,
        items: Listed::new(alloc),
    })
}
