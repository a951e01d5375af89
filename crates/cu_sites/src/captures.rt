//! Which variables local functions capture.
ghost use Rattle.std.specs.Prelude.{[], ◌∷◌, IfOk, List, OnOk, length, suc};
ghost use Rattle.cu_lex.specs.Located as located;
ghost use Rattle.cu_translation.specs.LocalNames as local;
ghost use Rattle.cu_translation.specs.Meaning.{binder_meaning, local_meaning, position_meaning};
ghost use Rattle.cu_sites.specs.Numbered.{HasNumbers};
ghost use Rattle.cu_sites.specs.Inside.Capturing.{IsCaptured, IsGraph, Notes, bound_pair, call_pairs, calls_in, binds_in, use_pairs, uses_in};
ghost use Rattle.cu_sites.specs.Inside.Using.{usage_meaning, usages_meaning};

use crate::numbers::Numbers;
use crate::relations::{Relation, reached};
use crate::uses::Usage;
use cu_translation::{Binder, Local, Position};
use std::alloc::{AllocError, Global};

/// What the rules of local functions use and bind, by numbers.
#[derive(Drop)]
pub(crate) struct Graph {
    /// Which functions use a variable.
    uses: Relation,
    /// Which functions bind a variable.
    binds: Relation,
    /// Which functions use a function.
    users: Relation,
}

impl Graph {
    /// The graph in which nothing is used or bound.
    fn new(alloc: Global, numbers: &Numbers) -> Result<Graph, AllocError>
        ensures { (binders : List local.Binder) (functions : List located.Position)
            → HasNumbers binders functions numbers.now
            → IfOk result (IsGraph binders functions []) }
    {
        let variables = numbers.variable_count() as usize + 1;
        let functions = numbers.function_count() as usize + 1;
        Ok(Graph {
            uses: Relation::new(alloc, variables)?,
            binds: Relation::new(alloc, variables)?,
            users: Relation::new(alloc, functions)?,
        })
    }

    /// Notes that a function uses a variable or a function.
    fn note_use(
        &mut self,
        numbers: &Numbers,
        function: Position,
        used: Local,
    ) -> Result<(), AllocError>
        ensures { (binders : List local.Binder) (functions : List located.Position)
            → HasNumbers binders functions numbers.now
            → OnOk result (Notes
            (use_pairs binders functions (position_meaning function) (local_meaning used)) []
            (call_pairs functions (position_meaning function) (local_meaning used))
            self.old self.new) }
    {
        let user = numbers.function(function) as usize;
        match used {
            Local::Variable(binder) => self.uses.add(numbers.variable(binder) as usize, user),
            Local::Function(at, _) => self.users.add(numbers.function(at) as usize, user),
        }
    }

    /// Notes that a function binds a variable.
    fn note_bound(
        &mut self,
        numbers: &Numbers,
        function: Position,
        binder: Binder,
    ) -> Result<(), AllocError>
        ensures { (binders : List local.Binder) (functions : List located.Position)
            → HasNumbers binders functions numbers.now
            → OnOk result (Notes []
            (bound_pair binders functions (position_meaning function) (binder_meaning binder) ∷ [])
            [] self.old self.new) }
    {
        let binding = numbers.function(function) as usize;
        self.binds.add(numbers.variable(binder) as usize, binding)
    }

    /// Notes what a node uses and declares in the local function around it.
    fn note(&mut self, numbers: &Numbers, usage: &Usage) -> Result<(), AllocError>
        ensures { (binders : List local.Binder) (functions : List located.Position)
            → HasNumbers binders functions numbers.now
            → OnOk result (Notes (uses_in binders functions (usage_meaning usage.now))
            (binds_in binders functions (usage_meaning usage.now))
            (calls_in functions (usage_meaning usage.now)) self.old self.new) }
    {
        let Some(function) = usage.function else {
            return Ok(());
        };
        for used in &usage.used {
            self.note_use(numbers, function, *used)?;
        }
        for binder in &usage.declared {
            self.note_bound(numbers, function, *binder)?;
        }
        Ok(())
    }

    /// What the rules of the local functions of a text use and bind.
    pub(crate) fn of(
        alloc: Global,
        numbers: &Numbers,
        usages: &[Usage],
    ) -> Result<Graph, AllocError>
        ensures { (binders : List local.Binder) (functions : List located.Position)
            → HasNumbers binders functions numbers.now
            → IfOk result (IsGraph binders functions (usages_meaning usages.now)) }
    {
        let mut graph = Graph::new(alloc, numbers)?;
        for usage in usages {
            graph.note(numbers, usage)?;
        }
        Ok(graph)
    }

    /// Which variables a function captures: those that its rules use and don't
    /// bind, and those captured by the functions that its rules use. Takes time
    /// in proportion, for each variable, to the functions that capture it and
    /// to their users.
    pub(crate) fn captured(&self, alloc: Global, numbers: &Numbers) -> Result<Relation, AllocError>
        ensures { (binders : List local.Binder) (functions : List located.Position)
            → HasNumbers binders functions numbers.now
            → IfOk result (IsCaptured (suc (length functions)) self.now) }
    {
        let mut captured = Relation::new(alloc, numbers.function_count() as usize + 1)?;
        let mut variable = 0;
        while variable < self.uses.count() {
            let uses = self.uses.row(variable);
            let binds = self.binds.row(variable);
            let found = reached(alloc, &self.users, uses, binds)?;
            captured.add_to_all(found.as_slice(), variable)?;
            variable += 1;
        }
        Ok(captured)
    }
}
