//! Which variables the definitions of local variables depend on.
ghost use Rattle.std.specs.Prelude.{◌≡◌, ◌++◌, [], IfOk, List, OnOk, map};
ghost use Rattle.cu_lex.specs.Located as located;
ghost use Rattle.cu_translation.specs.Dependencies.{definitions, depends, is_recursive};
ghost use Rattle.cu_translation.specs.LocalNames as local;
ghost use Rattle.cu_translation.specs.Meaning.{binder_meaning, local_meaning};
ghost use Rattle.cu_translation.specs.Sites as text;
ghost use Rattle.cu_locals.specs.Places.{positions_meaning};
ghost use Rattle.cu_locals.specs.Text.{Text};
ghost use Rattle.cu_sites.specs.Depending.{AreDependencies, is_defined};
ghost use Rattle.cu_sites.specs.Meaning.{Stands};
ghost use Rattle.cu_sites.specs.Numbered.{HasNumbers, binders_meaning};
ghost use Rattle.cu_sites.specs.Inside.Capturing.{CapturedIn};
ghost use Rattle.cu_sites.specs.Inside.Counting.{Counts};
ghost use Rattle.cu_sites.specs.Inside.Defining.{definition_meaning, definitions_meaning};
ghost use Rattle.cu_sites.specs.Inside.Needing.{IsNeeded, NeededIn, definition_pairs, defined_variables, functions_around, need_pairs, used_variables, variables_in};
ghost use Rattle.cu_sites.specs.Inside.Relating.{Gains};
ghost use Rattle.cu_sites.specs.Inside.Using.{locals_meaning, usage_of, usages_meaning};

use crate::captures::Graph;
use crate::definitions::{Definition, definitions};
use crate::numbers::Numbers;
use crate::relations::{Relation, reached};
use crate::sites::Sites;
use crate::uses::Usage;
use cu_translation::{Binder, Local, Position, captures_are_least};
use std::alloc::{AllocError, Global};

/// Adds the variables among what is used.
fn push_variables(found: &mut Vec<Binder>, used: &[Local]) -> Result<(), AllocError>
    ensures { OnOk result (Counts found.old.items
        (variables_in (locals_meaning used.now)) found.new.items) }
{
    for local in used {
        let Local::Variable(binder) = *local else {
            continue;
        };
        found.push(binder)?;
    }
    Ok(())
}

/// The variables that are used or defined.
fn variables(
    alloc: Global,
    usages: &[Usage],
    definitions: &[Definition],
) -> Result<Vec<Binder>, AllocError>
    ensures { IfOk result (λ found. binders_meaning found.items
        ≡ used_variables (usages_meaning usages.now)
        ++ defined_variables (definitions_meaning definitions.now)) }
{
    let mut found = Vec::new(alloc);
    for usage in usages {
        push_variables(&mut found, usage.used.as_slice())?;
    }
    for definition in definitions {
        found.push(definition.variable)?;
        push_variables(&mut found, definition.used.as_slice())?;
    }
    Ok(found)
}

/// The local functions around what is used and declared.
fn functions(alloc: Global, usages: &[Usage]) -> Result<Vec<Position>, AllocError>
    ensures { IfOk result (λ found. positions_meaning found.items
        ≡ functions_around (usages_meaning usages.now)) }
{
    let mut found = Vec::new(alloc);
    for usage in usages {
        let Some(function) = usage.function else {
            continue;
        };
        found.push(function)?;
    }
    Ok(found)
}

/// The numbers of the variables and of the local functions that are used or
/// defined.
fn numbered(
    alloc: Global,
    usages: &[Usage],
    definitions: &[Definition],
) -> Result<Numbers, AllocError>
    ensures { IfOk result (HasNumbers
        (used_variables (usages_meaning usages.now)
        ++ defined_variables (definitions_meaning definitions.now))
        (functions_around (usages_meaning usages.now))) }
{
    let binders = variables(alloc, usages, definitions)?;
    let places = functions(alloc, usages)?;
    Numbers::counted(alloc, binders.as_slice(), places.as_slice())
}

/// The variables that each local function captures, by numbers.
fn captured(alloc: Global, numbers: &Numbers, usages: &[Usage]) -> Result<Relation, AllocError>
    ensures { (binders : List local.Binder) (functions : List located.Position)
        → HasNumbers binders functions numbers.now
        → IfOk result (CapturedIn binders functions (usages_meaning usages.now)) }
{
    let graph = Graph::of(alloc, numbers, usages)?;
    graph.captured(alloc, numbers)
}

/// Notes that a variable needs what its definition uses: a variable, or those
/// that a function captures.
fn add_need(
    needs: &mut Relation,
    numbers: &Numbers,
    captured: &Relation,
    variable: Binder,
    used: Local,
) -> Result<(), AllocError>
    ensures { (binders : List local.Binder) (functions : List located.Position)
        → HasNumbers binders functions numbers.now
        → OnOk result (Gains
        (need_pairs binders functions captured.now (binder_meaning variable) (local_meaning used))
        needs.old needs.new) }
{
    let from = numbers.variable(variable) as usize;
    match used {
        Local::Variable(binder) => needs.add(from, numbers.variable(binder) as usize),
        Local::Function(at, _) => {
            needs.add_row(from, captured.row(numbers.function(at) as usize))
        }
    }
}

/// Notes what the definition of a variable needs.
fn add_needs(
    needs: &mut Relation,
    numbers: &Numbers,
    captured: &Relation,
    definition: &Definition,
) -> Result<(), AllocError>
    ensures { (binders : List local.Binder) (functions : List located.Position)
        → HasNumbers binders functions numbers.now
        → OnOk result (Gains
        (definition_pairs binders functions captured.now (definition_meaning definition.now))
        needs.old needs.new) }
{
    for used in &definition.used {
        add_need(needs, numbers, captured, definition.variable, *used)?;
    }
    Ok(())
}

/// The variables that the definitions of variables need, by numbers.
fn needs(
    alloc: Global,
    numbers: &Numbers,
    captured: &Relation,
    definitions: &[Definition],
) -> Result<Relation, AllocError>
    ensures { (binders : List local.Binder) (functions : List located.Position)
        → HasNumbers binders functions numbers.now
        → IfOk result
        (IsNeeded binders functions captured.now (definitions_meaning definitions.now)) }
{
    let mut needs = Relation::new(alloc, numbers.variable_count() as usize + 1)?;
    for definition in definitions {
        add_needs(&mut needs, numbers, captured, definition)?;
    }
    Ok(needs)
}

/// The variables that the definitions of variables need, by numbers, in a text
/// in which this is used.
fn needed(
    alloc: Global,
    numbers: &Numbers,
    usages: &[Usage],
    definitions: &[Definition],
) -> Result<Relation, AllocError>
    ensures { (binders : List local.Binder) (functions : List located.Position)
        → HasNumbers binders functions numbers.now
        → IfOk result (NeededIn binders functions (usages_meaning usages.now)
        (definitions_meaning definitions.now)) }
{
    let captured = captured(alloc, numbers, usages)?;
    needs(alloc, numbers, &captured, definitions)
}

/// The variables of definitions.
fn defined(alloc: Global, definitions: &[Definition]) -> Result<Vec<Binder>, AllocError>
    ensures { IfOk result (λ found. binders_meaning found.items
        ≡ map is_defined (definitions_meaning definitions.now)) }
{
    let mut found = Vec::new(alloc);
    for definition in definitions {
        found.push(definition.variable)?;
    }
    Ok(found)
}

/// Which variables the definitions of local variables depend on.
#[derive(Drop)]
pub struct Dependencies {
    /// The variables that are defined, in the order of the text.
    variables: Vec<Binder>,
    numbers: Numbers,
    /// The variables that each variable's definition needs, by numbers.
    needs: Relation,
}

impl Dependencies {
    /// The dependencies of the local variables of a text.
    ///
    /// # Errors
    ///
    /// An allocation failure, or numbers past those of 32 bits.
    pub fn of(alloc: Global, sites: &Sites<'_>) -> Result<Dependencies, AllocError>
        ensures { (t : Text) (nodes : List text.Node) → Stands t nodes sites.now
            → IfOk result (AreDependencies nodes) }
    {
        let usages = sites.usages(alloc)?;
        let definitions = definitions(alloc, sites, usages.as_slice())?;
        Dependencies::between(alloc, usages.as_slice(), definitions.as_slice())
    }

    /// The dependencies of the local variables of a text in which this is used
    /// and this is defined.
    fn between(
        alloc: Global,
        usages: &[Usage],
        found: &[Definition],
    ) -> Result<Dependencies, AllocError>
        ensures { (nodes : List text.Node) → usages_meaning usages.now ≡ map usage_of nodes
            → definitions_meaning found.now ≡ definitions nodes
            → IfOk result (AreDependencies nodes) }
    {
        // The proof rests on this law.
        captures_are_least();
        let numbers = numbered(alloc, usages, found)?;
        let needs = needed(alloc, &numbers, usages, found)?;
        let variables = defined(alloc, found)?;
        Ok(Dependencies {
            variables,
            numbers,
            needs,
        })
    }

    /// The variables that are defined, in the order of the text.
    pub fn variables(&self) -> &[Binder]
        ensures { (nodes : List text.Node) → AreDependencies nodes self.now
            → binders_meaning result.now ≡ map is_defined (definitions nodes) }
    {
        self.variables.as_slice()
    }

    /// Whether the definition of a variable depends on another variable.
    pub fn depends(&self, x: Binder, y: Binder) -> bool
        ensures { (nodes : List text.Node) → AreDependencies nodes self.now
            → result ≡ depends nodes (binder_meaning x) (binder_meaning y) }
    {
        let from = self.numbers.variable(x) as usize;
        self.needs.has(from, self.numbers.variable(y) as usize)
    }

    /// Whether a variable depends on itself, in one step or more.
    ///
    /// # Errors
    ///
    /// An allocation failure.
    pub fn is_recursive(&self, alloc: Global, x: Binder) -> Result<bool, AllocError>
        ensures { (nodes : List text.Node) → AreDependencies nodes self.now
            → IfOk result (λ found. found ≡ is_recursive nodes (binder_meaning x)) }
    {
        // The proof rests on this law.
        captures_are_least();
        let number = self.numbers.variable(x) as usize;
        let found = reached(alloc, &self.needs, self.needs.row(number), &[])?;
        Ok(found.contains(&number))
    }
}
