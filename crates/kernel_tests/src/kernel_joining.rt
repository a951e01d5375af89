//! Programs before lifting, and their joining.
ghost use Rattle.std.specs.Prelude.{◌≡◌, [], IfOk, length};
ghost use Rattle.cu_kernel.specs.LocalKernelOf.{local_kernel_of};
ghost use Rattle.cu_kernel.specs.LocalValid.{IsPart};

use cu_kernel::{ConId, Counts, LocalParts, LocalProgram, ModuleInfo, Special};
use cu_names::NameId;
use samples::ENTITIES;
use std::alloc::{AllocError, Global};
use std::process::Abort;

fn module_of(alloc: Global, name: NameId) -> ModuleInfo {
    ModuleInfo {
        name,
        imports: Vec::new(alloc),
        operators: Vec::new(alloc),
    }
}

/// Parts with a module alone.
#[tactic(auto, using(crate::proofs::Parts::no_functions))]
fn parts_of(
    alloc: Global,
    start: Counts,
    name: NameId,
    values: Option<ConId>,
) -> Result<LocalParts, AllocError>
    ensures right { IfOk result (λ parts. IsPart (local_kernel_of parts)) }
    ensures start { IfOk result (λ parts. parts.start ≡ start) }
    ensures types { IfOk result (λ parts. parts.types.items ≡ []) }
    ensures functions { IfOk result (λ parts. parts.functions.items ≡ []) }
    ensures synonyms { IfOk result (λ parts. parts.synonyms.items ≡ []) }
    ensures modules { IfOk result (λ parts. length parts.modules.items ≡ 1) }
{
    Ok(LocalParts {
        start,
        types: Vec::new(alloc),
        functions: Vec::new(alloc),
        synonyms: Vec::new(alloc),
        modules: vec![in alloc; module_of(alloc, name)]?,
        marks: Vec::new(alloc),
        goal: None,
        special: Special { values, ..ENTITIES },
    })
}

const NO_PARTS: Counts = Counts {
    types: 0,
    constructors: 0,
    functions: 0,
    synonyms: 0,
    modules: 0,
};

/// The constructor of the values of set functions.
const VALUES: ConId = ConId(19);

/// The parts of two modules, joined; the first has the constructor of the
/// values of set functions.
fn joined(alloc: Global) -> Result<LocalParts, AllocError> {
    let start = Counts {
        modules: 1,
        ..NO_PARTS
    };
    let second = LocalProgram::new(parts_of(alloc, start, NameId(6), None)?);
    let first = parts_of(alloc, NO_PARTS, NameId(5), Some(VALUES))?;
    let mut program = LocalProgram::new(first);
    program.join(second)?;
    Ok(program.into_parts())
}

fn module_name(modules: &[ModuleInfo], place: usize) -> Option<NameId> {
    match modules.get(place) {
        Some(module) => Some(module.name),
        None => None,
    }
}

fn expect_joined<R: Abort>(rt: &R, parts: &LocalParts) {
    assert!(rt; parts.start == NO_PARTS);
    assert_eq!(rt; parts.modules.len(), 2);
    assert_eq!(rt; module_name(parts.modules.as_slice(), 0), Some(NameId(5)));
    assert_eq!(rt; module_name(parts.modules.as_slice(), 1), Some(NameId(6)));
    assert_eq!(rt; parts.special.values, Some(VALUES));
}

#[test]
fn modules_are_joined_in_order(rt: HostRuntime) {
    match joined(rt.alloc()) {
        Ok(parts) => expect_joined(&rt, &parts),
        Err(_) => panic!(rt; "out of memory"),
    }
}
