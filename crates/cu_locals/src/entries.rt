//! The names that blocks bring into scope.
ghost use Rattle.std.specs.Prelude.{IfOk, None, OnOk, Some};
ghost use Rattle.std.specs.List.{All};
ghost use Rattle.cu_syntax.specs.Declarations.{declaration_meaning};
ghost use Rattle.cu_syntax.specs.Names.{name_meaning};
ghost use Rattle.cu_syntax.specs.Owners.{DeclarationIsOf, NameIsOf};
ghost use Rattle.cu_translation.specs.LocalNames.{variable_entries, variable_entry};
ghost use Rattle.cu_translation.specs.Rules.{begun_by};
ghost use Rattle.cu_lex.specs.Reading.{position_of};
ghost use Rattle.cu_uses.specs.Gathered.{names_meaning};
ghost use Rattle.cu_locals.specs.Text.{Text};
ghost use Rattle.cu_locals.specs.Entries.{AreEntries, BlockIsKnown, Brings, Declares, IsEntryOf, block_brings, rule_brings, rule_enters};
ghost use Rattle.cu_locals.specs.BegunFound.{begun_meaning};

use crate::begun::{Begun, begun_by, goes_on};
use crate::declared::pattern_variables;
use cu_names::Place;
use cu_syntax::{Declaration, DeclarationNode, Name, Pattern};
use cu_translation::{Binder, Entry, Local, Position};
use std::alloc::{AllocError, Global};

/// What a variable brings into scope.
fn variable_entry(name: Name) -> Entry
    ensures { (t : Text) → NameIsOf t.owner t.names name
        → IsEntryOf t (variable_entry (name_meaning t.names name)) result }
{
    Entry {
        text: name.text,
        means: Local::Variable(Binder::At(Position::of(name.place))),
    }
}

/// What variables bring into scope, in their order.
pub fn variable_entries(alloc: Global, names: &[Name]) -> Result<Vec<Entry>, AllocError>
    ensures { (t : Text) → All (NameIsOf t.owner t.names) names.now
        → IfOk result (λ found.
        AreEntries t (variable_entries (names_meaning t.names names.now)) found.items) }
{
    let mut found = Vec::new(alloc);
    for name in names {
        found.push(variable_entry(*name))?;
    }
    Ok(found)
}

/// What declarations of a block bring into scope, in the order of the text.
#[derive(Drop)]
struct Block {
    entries: Vec<Entry>,
    /// The function whose rules may go on.
    begun: Option<Begun>,
}

impl Block {
    /// Adds what variables bring into scope.
    fn variables(&mut self, alloc: Global, names: &[Name]) -> Result<(), AllocError>
        ensures { (t : Text) → All (NameIsOf t.owner t.names) names.now
            → OnOk result (Brings t self.old
            (variable_entries (names_meaning t.names names.now)) None self.new) }
    {
        self.begun = None;
        let found = variable_entries(alloc, names)?;
        self.entries.extend_from_slice(found.as_slice())?;
        Ok(())
    }

    /// Adds what a rule declares, where it is the first of its function.
    fn rule(
        &mut self,
        place: Place,
        name: Name,
        parameters: &[Pattern<'_>],
    ) -> Result<(), AllocError>
        ensures { (t : Text) → BlockIsKnown t self.old → NameIsOf t.owner t.names name
            → OnOk result (Brings t self.old
            (rule_enters t (begun_meaning t self.old.begun) place name parameters.now)
            (Some (begun_by (begun_meaning t self.old.begun)
            (name_meaning t.names name) (position_of place)))
            self.new) }
    {
        if !goes_on(self.begun, name) {
            self.entries.push(rule_entry(place, name, parameters))?;
        }
        self.begun = Some(begun_by(self.begun, name, place));
        Ok(())
    }

    /// Adds what a declaration declares.
    fn declaration(&mut self, alloc: Global, d: Declaration<'_>) -> Result<(), AllocError>
        ensures { (t : Text) → BlockIsKnown t self.old → DeclarationIsOf t.owner t.names d.entry
            → OnOk result (Declares t self.old (declaration_meaning t.names d.entry) self.new) }
    {
        match d.node(alloc)? {
            DeclarationNode::FreeVariables(_, names) => self.variables(alloc, names.as_slice()),
            DeclarationNode::Signature(_, _functions, _) => {
                self.begun = None;
                Ok(())
            }
            DeclarationNode::FunctionRule(place, name, parameters, _) => {
                self.rule(place, name, parameters.as_slice())
            }
            DeclarationNode::PatternBinding(_, p, _) => {
                let names = pattern_variables(alloc, p)?;
                self.variables(alloc, names.as_slice())
            }
        }
    }
}

/// What the first rule of a function declares: the function.
fn rule_entry(place: Place, name: Name, parameters: &[Pattern<'_>]) -> Entry
    ensures { (t : Text) → NameIsOf t.owner t.names name
        → IsEntryOf t (rule_brings t.names place name parameters.now) result }
{
    if parameters.is_empty() {
        return variable_entry(name);
    }
    Entry {
        text: name.text,
        means: Local::Function(Position::of(place), parameters.len()),
    }
}

/// What the declarations of a block bring into scope, in the order of the text.
pub fn block_entries(alloc: Global, ds: &[Declaration<'_>]) -> Result<Vec<Entry>, AllocError>
    ensures { (t : Text) → All (DeclarationIsOf t.owner t.names) ds.now
        → IfOk result (λ found. AreEntries t (block_brings t.names ds.now) found.items) }
{
    let mut block = Block {
        entries: Vec::new(alloc),
        begun: None,
    };
    for d in ds {
        block.declaration(alloc, *d)?;
    }
    let Block { entries, begun: _ } = block;
    Ok(entries)
}
