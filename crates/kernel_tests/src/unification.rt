//! Unification.
use cu_kernel::{TypeId, TypeName, TypeTerm};
use cu_types::{Equation, Node, TypeHead, UnifyFault, unify};
use samples::{boxed, one};
use std::alloc::{AllocError, Global};

fn named(alloc: Global, id: usize) -> TypeTerm {
    TypeTerm::Named(TypeName::Data(TypeId(id)), Vec::new(alloc))
}

fn list_of(alloc: Global, x: u32) -> Result<TypeTerm, AllocError> {
    let arguments = one(alloc, Ok(TypeTerm::Var(x)))?;
    Ok(TypeTerm::Named(TypeName::Data(TypeId(0)), arguments))
}

fn arrow(alloc: Global, a: u32, b: u32) -> Result<TypeTerm, AllocError> {
    Ok(TypeTerm::Arrow(
        boxed(alloc, Ok(TypeTerm::Var(a)))?,
        boxed(alloc, Ok(TypeTerm::Var(b)))?,
    ))
}

/// x1 = x0 -> x0, x2 = x1 -> x1 and so on.
fn doubled(alloc: Global, count: u32) -> Result<Vec<Equation>, AllocError> {
    let mut equations = Vec::new(alloc);
    for k in 0..count {
        let right = arrow(alloc, k, k)?;
        equations.push(Equation {
            left: TypeTerm::Var(k.saturating_add(1)),
            right,
        })?;
    }
    Ok(equations)
}

/// x0 = [x1], x1 = [x2] and so on, and the last the list of the first.
fn ring(alloc: Global, count: u32) -> Result<Vec<Equation>, AllocError> {
    let mut equations = Vec::new(alloc);
    for k in 0..count {
        let next = k.saturating_add(1);
        let right = list_of(alloc, if next == count { 0 } else { next })?;
        equations.push(Equation {
            left: TypeTerm::Var(k),
            right,
        })?;
    }
    Ok(equations)
}

#[test]
fn chains_that_double(rt: HostRuntime) {
    let alloc = rt.alloc();
    let Ok(equations) = doubled(alloc, 2_000) else {
        panic!(rt; "no memory");
    };
    let Ok(solution) = unify(alloc, equations.as_slice()) else {
        panic!(rt; "no solution");
    };
    assert_eq!(rt; solution.types().len(), 2_001);
    let Some(place) = solution.place(3) else {
        panic!(rt; "no place");
    };
    assert!(rt; place < solution.types().len());
}

#[test]
fn rings_clash(rt: HostRuntime) {
    let alloc = rt.alloc();
    let Ok(equations) = ring(alloc, 2_000) else {
        panic!(rt; "no memory");
    };
    let Err(UnifyFault::Clash(clash)) = unify(alloc, equations.as_slice()) else {
        panic!(rt; "no clash");
    };
    assert!(rt; clash.left != clash.right);
    assert!(rt; clash.types.len() >= 5_900);
}

#[test]
fn heads_clash(rt: HostRuntime) {
    let alloc = rt.alloc();
    let mut equations = Vec::new(alloc);
    let Ok(()) = equations.push(Equation {
        left: named(alloc, 16),
        right: named(alloc, 17),
    }) else {
        panic!(rt; "no memory");
    };
    let Err(UnifyFault::Clash(_)) = unify(alloc, equations.as_slice()) else {
        panic!(rt; "no clash");
    };
}

/// x0 = Int, x0 = Char
fn int_and_char(alloc: Global) -> Result<Vec<Equation>, AllocError> {
    let mut equations = Vec::new(alloc);
    for id in [16, 17] {
        equations.push(Equation {
            left: TypeTerm::Var(0),
            right: named(alloc, id),
        })?;
    }
    Ok(equations)
}

/// Whether a type of a table is this one, without arguments.
fn is_named(types: &[Node], place: usize, id: usize) -> bool {
    match types.get(place) {
        Some(Node::Applied(TypeHead::Named(TypeName::Data(own)), arguments)) => {
            own.0 == id && arguments.is_empty()
        }
        _ => false,
    }
}

#[test]
fn a_clash_names_its_types(rt: HostRuntime) {
    let alloc = rt.alloc();
    let Ok(equations) = int_and_char(alloc) else {
        panic!(rt; "no memory");
    };
    let Err(UnifyFault::Clash(clash)) = unify(alloc, equations.as_slice()) else {
        panic!(rt; "no clash");
    };
    let types = clash.types.as_slice();
    let in_order = is_named(types, clash.left, 16) && is_named(types, clash.right, 17);
    let reversed = is_named(types, clash.left, 17) && is_named(types, clash.right, 16);
    assert!(rt; in_order || reversed);
}
