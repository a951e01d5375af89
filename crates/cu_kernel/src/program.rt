//! Programs and their parts.
ghost use Rattle.std.specs.Prelude.{◌≡◌, map, option_map};
ghost use Rattle.cu_kernel.specs.Kernel.{constructor_at};
ghost use Rattle.cu_kernel.specs.KernelOf.{function_meaning, goal_meaning, kernel_of, mark_meaning, module_meaning, placed_meaning, synonym_meaning, type_meaning};
ghost use Rattle.cu_kernel.specs.Valid.{IsValid};

use crate::constructors::constructor_at;
use crate::{ConId, DataType, Function, Goal, Mark, ModuleInfo, Placed, Special, Synonym};
use std::marker::Model;

/// What a program is made of.
#[derive(Drop)]
pub struct ProgramParts {
    /// The data types: first the list, unit, the tuples of 2 to 15
    /// components, `Int` and `Char`.
    pub types: Vec<DataType>,
    /// The functions.
    pub functions: Vec<Function>,
    /// The type synonyms.
    pub synonyms: Vec<Synonym>,
    /// The modules, imports before importers; the first is the Prelude.
    pub modules: Vec<ModuleInfo>,
    /// A mark for each function, in the order of the functions.
    pub marks: Vec<Mark>,
    /// The goal, if there is one.
    pub goal: Option<Goal>,
    /// The built-in entities that the machine speaks of.
    pub special: Special,
}

/// A program. It is valid:
///
/// - Numbers name something, and arities are below 2^32 - 1.
/// - A head with all its arguments has as many as it takes, a partial
///   application has fewer, and each rule has a pattern for each parameter.
/// - Patterns are linear, and every variable is bound, a `Let`'s not in its
///   own definition.
/// - The first 18 types are the list, unit, the tuples of 2 to 15 components,
///   `Int` and `Char`, all of the first module, the Prelude.
/// - The built-in entities are there, and `&&` has its rules.
/// - Declared types have no variables beside their parameters, each function
///   has its mark, and the goal's function a parameter for each name.
///
/// [`ProgramParts::valid`] lists the rules in full.
#[derive(Drop)]
pub struct Program {
    parts: ProgramParts,
}

impl Model for Program {
    ghost use Rattle.cu_kernel.specs.Kernel.{Kernel};
    ghost use Rattle.cu_kernel.specs.KernelStored.{kernel_code};

    ghost Value = { Kernel };

    ghost coded = { kernel_code };

    ghost use Rattle.cu_kernel.specs.KernelOf.{kernel_of};
    ghost use Rattle.cu_kernel.specs.Valid.{IsValid};

    ghost view = { λ p. kernel_of p.parts };

    ghost invariant = { λ p. IsValid (kernel_of p.parts) };
}

impl Program {
    /// The program of these parts.
    pub fn new(parts: ProgramParts) -> Program
        requires { IsValid (kernel_of parts) }
        ensures { result ≡ kernel_of parts }
    {
        Program { parts }
    }

    /// The data types.
    pub fn types(&self) -> &[DataType]
        ensures types { map type_meaning result.now ≡ self.now.types }
        ensures valid { IsValid self.now }
    {
        self.parts.types.as_slice()
    }

    /// The constructor with this number, where the program has one. Takes
    /// time in proportion to the number of types before its own.
    pub fn constructor(&self, id: ConId) -> Option<Placed<'_>>
        ensures constructor { option_map placed_meaning result ≡ constructor_at self.now.types id }
        ensures valid { IsValid self.now }
    {
        constructor_at(self.parts.types.as_slice(), id)
    }

    /// The functions.
    pub fn functions(&self) -> &[Function]
        ensures functions { map function_meaning result.now ≡ self.now.functions }
        ensures valid { IsValid self.now }
    {
        self.parts.functions.as_slice()
    }

    /// The type synonyms.
    pub fn synonyms(&self) -> &[Synonym]
        ensures synonyms { map synonym_meaning result.now ≡ self.now.synonyms }
        ensures valid { IsValid self.now }
    {
        self.parts.synonyms.as_slice()
    }

    /// The modules.
    pub fn modules(&self) -> &[ModuleInfo]
        ensures modules { map module_meaning result.now ≡ self.now.modules }
        ensures valid { IsValid self.now }
    {
        self.parts.modules.as_slice()
    }

    /// The marks of the functions.
    pub fn marks(&self) -> &[Mark]
        ensures marks { map mark_meaning result.now ≡ self.now.marks }
        ensures valid { IsValid self.now }
    {
        self.parts.marks.as_slice()
    }

    /// The goal, if there is one.
    pub fn goal(&self) -> Option<&Goal>
        ensures goal { option_map (λ goal. goal_meaning goal.now) result ≡ self.now.goal }
        ensures valid { IsValid self.now }
    {
        self.parts.goal.as_ref()
    }

    /// The built-in entities.
    pub fn special(&self) -> &Special
        ensures special { result.now ≡ self.now.special }
        ensures valid { IsValid self.now }
    {
        &self.parts.special
    }
}
