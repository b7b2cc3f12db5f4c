//! The numbers of a unit's labels.
ghost use Rattle.std.specs.Prelude.{◌≡◌, ◌+◌, ◌++◌, ◌∷◌, [], List, filter, IfOk, OnOk};
ghost use Rattle.std.specs.Option.{option_copied};
ghost use Rattle.st_line.specs.declared.source.Target.{Target};
ghost use Rattle.st_line.specs.declared.source.Target.TheVariants.{Place, Data};
ghost use Rattle.st_print.specs.Spots.{item_places, function_places, data_places, places_of};
ghost use Rattle.st_print.specs.Numbering.{is_held, number_of, AreLabels};

use crate::spots::Named;
use st_asm::{Function, SourceLine};
use st_line::Target;
use std::alloc::{AllocError, Global};
use std::collections::BTreeMap;

/// The label numbers of places, in the order of the text.
#[derive(Drop)]
pub(crate) struct Labels {
    pub(crate) places: BTreeMap<(usize, usize), usize>,
    pub(crate) offsets: BTreeMap<usize, usize>,
    /// How many places have a label.
    pub(crate) count: usize,
    /// Whether one of them is in the data.
    pub(crate) in_data: bool,
}

/// The number behind this one. More labels than a number can count have no room in memory.
fn next_count(count: usize) -> Result<usize, AllocError>
    ensures { IfOk result (λ next. next ≡ count + 1) }
{
    count.checked_add(1).ok_or(AllocError)
}

impl Labels {
    /// The labels of the places that are named.
    pub(crate) fn of(
        alloc: Global,
        named: &Named,
        functions: &[Function],
        rodata: &[u8],
    ) -> Result<Labels, AllocError>
        ensures { IfOk result (λ labels. AreLabels labels (filter (λ spot. is_held named.now spot) (places_of functions.now rodata.now))) }
    {
        let mut labels = Labels::new(alloc);
        labels.add_functions(named, functions)?;
        labels.add_bytes(named, rodata)?;
        Ok(labels)
    }

    fn new(alloc: Global) -> Labels
        ensures { AreLabels result [] }
    {
        Labels {
            places: BTreeMap::new(alloc),
            offsets: BTreeMap::new(alloc),
            count: 0,
            in_data: false,
        }
    }

    fn add_functions(&mut self, named: &Named, functions: &[Function]) -> Result<(), AllocError>
        ensures { OnOk result ((spots : List Target) → AreLabels self.old spots → AreLabels self.new (spots ++ filter (λ spot. is_held named.now spot) (function_places 0 functions.now))) }
    {
        for (f, function) in functions.iter().enumerate() {
            self.add_items(named, f, function.items.as_slice())?;
        }
        Ok(())
    }

    fn add_items(
        &mut self,
        named: &Named,
        function: usize,
        items: &[SourceLine],
    ) -> Result<(), AllocError>
        ensures { OnOk result ((spots : List Target) → AreLabels self.old spots → AreLabels self.new (spots ++ filter (λ spot. is_held named.now spot) (item_places function 0 items.now))) }
    {
        for (i, _) in items.iter().enumerate() {
            self.add_named_place(named, function, i)?;
        }
        self.add_named_place(named, function, items.len())
    }

    fn add_bytes(&mut self, named: &Named, rodata: &[u8]) -> Result<(), AllocError>
        ensures { OnOk result ((spots : List Target) → AreLabels self.old spots → AreLabels self.new (spots ++ filter (λ spot. is_held named.now spot) (data_places 0 rodata.now))) }
    {
        for (i, _) in rodata.iter().enumerate() {
            self.add_named_offset(named, i)?;
        }
        self.add_named_offset(named, rodata.len())
    }

    fn add_named_place(
        &mut self,
        named: &Named,
        function: usize,
        item: usize,
    ) -> Result<(), AllocError>
        ensures { OnOk result ((spots : List Target) → AreLabels self.old spots → AreLabels self.new (spots ++ filter (λ spot. is_held named.now spot) (Place function item ∷ []))) }
    {
        if named.has_place(function, item) {
            self.add_place(function, item)
        } else {
            Ok(())
        }
    }

    fn add_named_offset(&mut self, named: &Named, offset: usize) -> Result<(), AllocError>
        ensures { OnOk result ((spots : List Target) → AreLabels self.old spots → AreLabels self.new (spots ++ filter (λ spot. is_held named.now spot) (Data offset ∷ []))) }
    {
        if named.has_offset(offset) {
            self.add_offset(offset)
        } else {
            Ok(())
        }
    }

    fn add_place(&mut self, function: usize, item: usize) -> Result<(), AllocError>
        ensures { OnOk result ((spots : List Target) → AreLabels self.old spots → AreLabels self.new (spots ++ Place function item ∷ [])) }
    {
        let next = next_count(self.count)?;
        if !self.places.contains_key(&(function, item)) {
            self.places.insert((function, item), self.count)?;
            self.count = next;
            return Ok(());
        }
        self.count = next;
        Ok(())
    }

    fn add_offset(&mut self, offset: usize) -> Result<(), AllocError>
        ensures { OnOk result ((spots : List Target) → AreLabels self.old spots → AreLabels self.new (spots ++ Data offset ∷ [])) }
    {
        let next = next_count(self.count)?;
        if !self.offsets.contains_key(&offset) {
            self.offsets.insert(offset, self.count)?;
            self.count = next;
            self.in_data = true;
            return Ok(());
        }
        self.count = next;
        self.in_data = true;
        Ok(())
    }

    /// The label's number of a place in the code.
    pub(crate) fn of_place(&self, function: usize, item: usize) -> Option<usize>
        ensures { result ≡ number_of self.now (Place function item) }
    {
        self.places.get(&(function, item)).copied()
    }

    /// The label's number of an offset of the data.
    pub(crate) fn of_offset(&self, offset: usize) -> Option<usize>
        ensures { result ≡ number_of self.now (Data offset) }
    {
        self.offsets.get(&offset).copied()
    }
}
