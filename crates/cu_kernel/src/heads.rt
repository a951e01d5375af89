//! What the heads of a program's terms take.
ghost use Rattle.std.specs.Prelude.{◌≡◌, ◌++◌, IfOk, OnOk, map, option_map, slice_get};
ghost use Rattle.cu_calculus.specs.Program.{arity_in, constructor_of};
ghost use Rattle.cu_calculus.specs.Shape.{is_allowed, takes, takes_more};
ghost use Rattle.cu_kernel.specs.Heads.{heads_program, shape_meaning};
ghost use Rattle.cu_kernel.specs.Kernel.{constructors_from, constructors_of, program_of};
ghost use Rattle.cu_kernel.specs.KernelOf.{constructor_meaning, kernel_of, type_meaning};

use crate::{ConId, Constructor, DataType, FunId, Function, Head, Program, ProgramParts, Special};
use std::alloc::{AllocError, Global};

/// A constructor: the index of its type among the program's types, and how many
/// arguments it takes.
#[derive(Clone, Copy)]
pub struct Shape {
    /// The index of the constructor's type, counted from 0.
    pub of_type: usize,
    /// How many arguments the constructor takes.
    pub arity: usize,
}

/// The functions and constructors of a program.
#[derive(Drop)]
pub struct Heads<'a> {
    /// The functions, in order.
    pub functions: &'a [Function],
    /// The constructors of all types, in the order of the types.
    pub constructors: Vec<Shape>,
    /// The built-in entities.
    pub special: &'a Special,
}

/// Pushes the constructors of a type after those of the types before it.
fn push_shapes(
    shapes: &mut Vec<Shape>,
    place: usize,
    constructors: &[Constructor],
) -> Result<(), AllocError>
    ensures { OnOk result (map shape_meaning shapes.new.items
        ≡ map shape_meaning shapes.old.items
        ++ constructors_of place (map constructor_meaning constructors.now)) }
{
    for constructor in constructors {
        shapes.push(Shape {
            of_type: place,
            arity: constructor.fields.len(),
        })?;
    }
    Ok(())
}

/// The constructors of all types, in order.
pub fn shapes(alloc: Global, types: &[DataType]) -> Result<Vec<Shape>, AllocError>
    ensures { IfOk result (λ shapes. map shape_meaning shapes.items
        ≡ constructors_from 0 (map type_meaning types.now)) }
{
    let mut shapes = Vec::new(alloc);
    for (place, data_type) in types.iter().enumerate() {
        push_shapes(&mut shapes, place, data_type.constructors.as_slice())?;
    }
    Ok(shapes)
}

impl<'a> Heads<'a> {
    /// The functions and constructors of these parts.
    pub fn new(alloc: Global, parts: &'a ProgramParts) -> Result<Heads<'a>, AllocError>
        ensures { IfOk result (λ heads. heads_program heads ≡ program_of (kernel_of parts.now)) }
    {
        let constructors = shapes(alloc, parts.types.as_slice())?;
        Ok(Heads {
            functions: parts.functions.as_slice(),
            constructors,
            special: &parts.special,
        })
    }

    /// The functions and constructors of a program.
    #[tactic(auto, unfolding(crate::specs::Heads::heads_program, crate::specs::Kernel::program_of))]
    pub fn of(alloc: Global, program: &'a Program) -> Result<Heads<'a>, AllocError>
        ensures { IfOk result (λ heads. heads_program heads ≡ program_of program.now) }
    {
        let constructors = shapes(alloc, program.types())?;
        Ok(Heads {
            functions: program.functions(),
            constructors,
            special: program.special(),
        })
    }

    /// How many arguments a head takes, where it is the program's.
    pub fn arity(&self, head: Head) -> Option<usize>
        ensures { result ≡ arity_in (heads_program self.now) head }
    {
        match head {
            Head::Fun(f) => self.function_arity(f),
            Head::Con(c) => self.constructor_arity(c),
            Head::Set(f) => self.function_arity(f),
        }
    }

    fn function_arity(&self, f: FunId) -> Option<usize>
        ensures { result ≡ arity_in (heads_program self.now) (Head.Fun f) }
    {
        match self.functions.get(f.0) {
            Some(function) => Some(function.arity as usize),
            None => None,
        }
    }

    fn constructor_arity(&self, c: ConId) -> Option<usize>
        ensures { result ≡ arity_in (heads_program self.now) (Head.Con c) }
    {
        match self.constructors.get(c.0) {
            Some(shape) => Some(shape.arity),
            None => None,
        }
    }

    /// Whether a head is the program's and takes exactly this many arguments.
    pub fn takes(&self, head: Head, count: usize) -> bool
        ensures { result ≡ takes (arity_in (heads_program self.now) head) count }
    {
        match self.arity(head) {
            Some(arity) => arity == count,
            None => false,
        }
    }

    /// Whether a head is the program's and takes more arguments than this.
    pub fn takes_more(&self, head: Head, count: usize) -> bool
        ensures { result ≡ takes_more (arity_in (heads_program self.now) head) count }
    {
        match self.arity(head) {
            Some(arity) => count < arity,
            None => false,
        }
    }

    /// Whether a head may stand in the program. A set function may only where
    /// the program has the constructor of the values of set functions.
    #[tactic(auto, unfolding(crate::specs::Heads::heads_program))]
    pub fn allows(&self, head: Head) -> bool
        ensures { result ≡ is_allowed (heads_program self.now) head }
    {
        match head {
            Head::Fun(_) => true,
            Head::Con(_) => true,
            Head::Set(_) => match self.special.values {
                Some(_) => true,
                None => false,
            },
        }
    }

    /// The constructor of this number, where the program has one.
    pub fn constructor(&self, c: ConId) -> Option<Shape>
        ensures { option_map shape_meaning result ≡ constructor_of (heads_program self.now) c }
    {
        match self.constructors.get(c.0) {
            Some(shape) => Some(*shape),
            None => None,
        }
    }
}
