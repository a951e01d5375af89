//! How the variables and the local functions of a function are numbered.
ghost use Rattle.std.specs.Prelude.{◌≡◌, [], ◌∷◌, ◌++◌, IfOk, List, OnOk, length, map};
ghost use Rattle.std.specs.List.{list_any};
ghost use Rattle.cu_lex.specs.Located as located;
ghost use Rattle.cu_translation.specs.LocalNames as local;
ghost use Rattle.cu_translation.specs.Meaning.{binder_meaning, position_meaning};
ghost use Rattle.cu_translation.specs.Numbering.{all_binders, all_functions, binder_number, function_number};
ghost use Rattle.cu_translation.specs.Sites.{Node};
ghost use Rattle.cu_translation.specs.declared.local_names.Binder as code;
ghost use Rattle.cu_translation.specs.declared.position.Position as positions;
ghost use Rattle.cu_sites.specs.Meaning.{Stands};
ghost use Rattle.cu_locals.specs.Text.{Text};
ghost use Rattle.cu_sites.specs.Inside.Counting.{binder_at, place_at};
ghost use Rattle.cu_locals.specs.Places.{positions_meaning};
ghost use Rattle.cu_sites.specs.Numbered.{HasNumbers, IsBinderTable, IsPlaceTable, binders_meaning, same_binder};

use crate::binders::{binders, local_functions};
use crate::sites::Sites;
use cu_translation::{Binder, Position};
use indexmap::IndexMap;
use std::alloc::{AllocError, Global};

/// The place of each variable among others, counted from 0.
#[derive(Drop)]
pub(crate) struct BinderTable {
    numbers: IndexMap<Binder, u32>,
    /// How many variables were counted.
    count: u32,
}

impl BinderTable {
    pub(crate) fn new(alloc: Global) -> BinderTable
        ensures { IsBinderTable [] result }
    {
        BinderTable {
            numbers: IndexMap::new(alloc),
            count: 0,
        }
    }

    /// The table that has counted these variables.
    fn of(alloc: Global, binders: &[Binder]) -> Result<BinderTable, AllocError>
        ensures { IfOk result (IsBinderTable binders.now) }
    {
        let mut table = BinderTable::new(alloc);
        table.add_all(binders)?;
        Ok(table)
    }

    /// Counts one more variable.
    fn add(&mut self, binder: Binder) -> Result<(), AllocError>
        ensures { (binders : List code.Binder) → IsBinderTable binders self.old
            → OnOk result (IsBinderTable (binders ++ binder ∷ []) self.new) }
    {
        let number = self.count;
        self.count = number.checked_add(1).ok_or(AllocError)?;
        if self.numbers.contains_key(&binder) {
            return Ok(());
        }
        self.numbers.insert(binder, number)?;
        Ok(())
    }

    /// Whether a variable was counted.
    pub(crate) fn has(&self, binder: Binder) -> bool
        ensures { (binders : List code.Binder) → IsBinderTable binders self.now
            → result ≡ list_any (same_binder binder) binders }
    {
        self.numbers.get(&binder).is_some()
    }

    /// Counts these variables after those that were counted.
    pub(crate) fn add_all(&mut self, binders: &[Binder]) -> Result<(), AllocError>
        ensures { (before : List code.Binder) → IsBinderTable before self.old
            → OnOk result (IsBinderTable (before ++ binders.now) self.new) }
    {
        for binder in binders {
            self.add(*binder)?;
        }
        Ok(())
    }

    /// The number of a variable, or how many were counted where it isn't among
    /// them.
    fn number(&self, binder: Binder) -> u32
        ensures { (binders : List code.Binder) → IsBinderTable binders self.now
            → result ≡ binder_at binders binder }
    {
        self.numbers.get(&binder).copied().unwrap_or(self.count)
    }
}

/// The place of each local function among others, counted from 0.
#[derive(Drop)]
struct PlaceTable {
    numbers: IndexMap<Position, u32>,
    /// How many local functions were counted.
    count: u32,
}

impl PlaceTable {
    fn new(alloc: Global) -> PlaceTable
        ensures { IsPlaceTable [] result }
    {
        PlaceTable {
            numbers: IndexMap::new(alloc),
            count: 0,
        }
    }

    /// The table that has counted these local functions.
    fn of(alloc: Global, places: &[Position]) -> Result<PlaceTable, AllocError>
        ensures { IfOk result (IsPlaceTable places.now) }
    {
        let mut table = PlaceTable::new(alloc);
        table.add_all(places)?;
        Ok(table)
    }

    /// Counts one more local function.
    fn add(&mut self, place: Position) -> Result<(), AllocError>
        ensures { (places : List positions.Position) → IsPlaceTable places self.old
            → OnOk result (IsPlaceTable (places ++ place ∷ []) self.new) }
    {
        let number = self.count;
        self.count = number.checked_add(1).ok_or(AllocError)?;
        if self.numbers.contains_key(&place) {
            return Ok(());
        }
        self.numbers.insert(place, number)?;
        Ok(())
    }

    /// Counts these local functions after those that were counted.
    fn add_all(&mut self, places: &[Position]) -> Result<(), AllocError>
        ensures { (before : List positions.Position) → IsPlaceTable before self.old
            → OnOk result (IsPlaceTable (before ++ places.now) self.new) }
    {
        for place in places {
            self.add(*place)?;
        }
        Ok(())
    }

    /// The number of a local function, or how many were counted where it isn't
    /// among them.
    fn number(&self, place: Position) -> u32
        ensures { (places : List positions.Position) → IsPlaceTable places self.now
            → result ≡ place_at places place }
    {
        self.numbers.get(&place).copied().unwrap_or(self.count)
    }
}

/// The numbers of the variables and the local functions of a function.
#[derive(Drop)]
pub struct Numbers {
    variables: BinderTable,
    functions: PlaceTable,
}

impl Numbers {
    /// Counts the variables and local functions of a text, and these variables
    /// after the text's own.
    ///
    /// # Errors
    ///
    /// An allocation failure, or numbers past those of 32 bits.
    pub fn of(alloc: Global, sites: &Sites<'_>, last: &[Binder]) -> Result<Numbers, AllocError>
        ensures { (t : Text) (nodes : List Node) → Stands t nodes sites.now
            → IfOk result
            (HasNumbers (all_binders nodes ++ map binder_meaning last.now) (all_functions nodes)) }
    {
        let found = binders(alloc, sites)?;
        let mut variables = BinderTable::of(alloc, found.as_slice())?;
        variables.add_all(last)?;
        let places = local_functions(alloc, sites)?;
        let functions = PlaceTable::of(alloc, places.as_slice())?;
        Ok(Numbers {
            variables,
            functions,
        })
    }

    /// Counts these variables and these local functions.
    ///
    /// # Errors
    ///
    /// An allocation failure, or numbers past those of 32 bits.
    pub(crate) fn counted(
        alloc: Global,
        binders: &[Binder],
        places: &[Position],
    ) -> Result<Numbers, AllocError>
        ensures { IfOk result
            (HasNumbers (binders_meaning binders.now) (positions_meaning places.now)) }
    {
        Ok(Numbers {
            variables: BinderTable::of(alloc, binders)?,
            functions: PlaceTable::of(alloc, places)?,
        })
    }

    /// How many variables were counted.
    pub(crate) fn variable_count(&self) -> u32
        ensures { (binders : List local.Binder) (functions : List located.Position)
            → HasNumbers binders functions self.now → result ≡ length binders }
    {
        self.variables.count
    }

    /// How many local functions were counted.
    pub(crate) fn function_count(&self) -> u32
        ensures { (binders : List local.Binder) (functions : List located.Position)
            → HasNumbers binders functions self.now → result ≡ length functions }
    {
        self.functions.count
    }

    /// The number of a variable. A variable that wasn't counted has the number
    /// of all that were.
    pub fn variable(&self, binder: Binder) -> u32
        ensures { (binders : List local.Binder) (functions : List located.Position)
            → HasNumbers binders functions self.now
            → result ≡ binder_number binders (binder_meaning binder) }
    {
        self.variables.number(binder)
    }

    /// The place, among the local functions, of the one whose first token
    /// stands here. A function that wasn't counted has the number of all that
    /// were.
    pub fn function(&self, at: Position) -> u32
        ensures { (binders : List local.Binder) (functions : List located.Position)
            → HasNumbers binders functions self.now
            → result ≡ function_number functions (position_meaning at) }
    {
        self.functions.number(at)
    }
}
