//! The type variables of variables.
ghost use Rattle.std.specs.Prelude.{◌≡◌, IfOk, OnOk, reverse};
ghost use Rattle.cu_types.specs.Equations.{bind, bind_from};
ghost use Rattle.cu_types.specs.Inside.Variables.{environment, undone};

use indexmap::IndexMap;
use std::alloc::{AllocError, Global};

/// The number of the type variable of each variable that is bound.
#[derive(Drop)]
pub(crate) struct Variables {
    /// The numbers of the type variables, by the variables.
    numbers: IndexMap<u32, u32>,
}

/// A variable, and what it was bound to before it was bound.
#[derive(Clone, Copy)]
pub(crate) struct Binding {
    /// The variable that was bound.
    variable: u32,
    /// The type variable that the variable had before.
    before: u32,
}

impl Variables {
    /// The environment in which no variable is bound.
    pub(crate) fn new(alloc: Global) -> Variables
        ensures { environment result ≡ λ x. 0 }
    {
        Variables {
            numbers: IndexMap::new(alloc),
        }
    }

    /// The type variable of a variable.
    pub(crate) fn number(&self, x: u32) -> u32
        ensures { result ≡ environment self.now x }
    {
        match self.numbers.get(&x) {
            Some(number) => *number,
            None => 0,
        }
    }

    /// Binds a variable. Gives the type variable that it had before, so that
    /// it can be bound to that again.
    pub(crate) fn bind(&mut self, x: u32, number: u32) -> Result<u32, AllocError>
        ensures bound { OnOk result (environment self.new ≡ bind (environment self.old) x number) }
        ensures before { IfOk result (λ before. before ≡ environment self.old x) }
    {
        let before = self.number(x);
        self.numbers.insert(x, number)?;
        Ok(before)
    }

    /// Binds variables to type variables, one after another. Gives what they
    /// had before.
    pub(crate) fn bind_all(
        &mut self,
        alloc: Global,
        variables: &[u32],
        first: u32,
    ) -> Result<Vec<Binding>, AllocError>
        ensures bound { OnOk result (environment self.new
            ≡ bind_from (environment self.old) first variables.now) }
        ensures before { IfOk result (λ bindings.
            undone (reverse bindings.items) (environment self.new) ≡ environment self.old) }
    {
        let mut bindings = Vec::with_capacity(alloc, variables.len())?;
        let mut next = first;
        for variable in variables {
            let before = self.bind(*variable, next)?;
            bindings.push(Binding {
                variable: *variable,
                before,
            })?;
            let Some(following) = next.checked_add(1) else {
                return Err(AllocError);
            };
            next = following;
        }
        Ok(bindings)
    }

    /// Binds variables to what they had before, the last one first.
    pub(crate) fn undo(&mut self, bindings: Vec<Binding>) -> Result<(), AllocError>
        ensures { OnOk result (environment self.new
            ≡ undone (reverse bindings.items) (environment self.old)) }
    {
        let mut left = bindings;
        while let Some(binding) = left.pop() {
            self.bind(binding.variable, binding.before)?;
        }
        Ok(())
    }
}
