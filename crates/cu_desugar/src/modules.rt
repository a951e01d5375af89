//! Modules, with all that is known of their names.
ghost use Rattle.std.specs.Prelude.{◌≡◌, ◌<◌, length};
ghost use Rattle.cu_desugar.specs.Modules.{AreKnown, named};
ghost use Rattle.cu_modules.specs.Ordering.{module_of};
ghost use Rattle.cu_modules.specs.Reading.{HasModule};
ghost use Rattle.cu_toplevel.specs.Readings.{IsReading};
ghost use Rattle.cu_toplevel.specs.Surrounding.{TellsNames};
ghost use Rattle.cu_translation.specs.ModuleNames.{module_at};
ghost use Rattle.cu_translation.specs.Parts.{goal_names, reading};

use cu_modules::{Module, Scopes};
use cu_names::Names;
use cu_toplevel::{Entities, Reading, TopNames};

/// Modules, each after those that it imports, with what is known of their
/// names.
#[derive(Clone, Copy)]
pub struct Modules<'a> {
    pub names: &'a Names,
    pub modules: &'a [Module],
    /// What names mean in each module.
    pub scopes: &'a Scopes,
    /// What all modules declare.
    pub entities: &'a Entities,
}

impl<'a> Modules<'a> {
    /// The module of a number.
    pub(crate) fn module(self, number: u32) -> &'a Module
        requires known { AreKnown self }
        requires number { number < length self.modules.now }
        ensures is { module_at (named self.entry) number
            ≡ module_of self.entry.names.now result.now }
        ensures has { HasModule self.entry.names.now result.now }
    {
        let modules = self.modules;
        &modules[number as usize]
    }

    /// The module of a number, with what its names refer to.
    pub(crate) fn reading(self, number: u32) -> Reading<'a>
        requires known { AreKnown self }
        requires number { number < length self.modules.now }
        ensures reads { IsReading self.entry.names.now
            (reading self.entry.names.now (named self.entry) number) result }
        ensures entities { result.top.entities.now ≡ self.entry.entities.now }
    {
        Reading::of(self.entities, self.scopes, self.names, self.modules, number)
    }

    /// What names refer to in a goal in the module of a number.
    pub(crate) fn goal_names(self, root: u32) -> TopNames<'a>
        requires known { AreKnown self }
        requires root { root < length self.modules.now }
        ensures tells { TellsNames self.entry.names.now
            (goal_names self.entry.names.now (named self.entry) root) result }
        ensures entities { result.entities.now ≡ self.entry.entities.now }
    {
        TopNames::of_goal(self.entities, self.scopes, self.names, self.modules, root)
    }
}
