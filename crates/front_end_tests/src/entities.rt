//! What names mean where entities are bound to them.
use cu_entities::{Entity, EntitySet, Key, Meant, NameTable, Sort, Space};
use cu_names::NameId;
use std::alloc::{AllocError, Global};
use std::process::Abort;

/// A function of the module of a number.
fn function(owner: usize, name: usize) -> Entity {
    Entity {
        owner: NameId(owner),
        name: NameId(name),
        sort: Sort::Function,
    }
}

/// Functions, each by its module and its name.
const FUNCTIONS: [(usize, usize); 5] = [(0, 5), (1, 5), (0, 6), (0, 6), (2, 7)];

/// What a name means where the functions are bound.
fn meant(alloc: Global, name: usize) -> Result<Option<Meant>, AllocError> {
    let mut table = NameTable::new(alloc);
    for (owner, name) in &FUNCTIONS {
        table.bind(None, function(*owner, *name))?;
    }
    Ok(table.find(Key {
        qualifier: None,
        base: NameId(name),
        space: Space::Values,
    }))
}

/// Expects what a name means where the functions are bound.
fn expect_meant<R: Abort>(rt: &R, alloc: Global, name: usize, expected: Option<Meant>) {
    assert_eq!(rt; meant(alloc, name).ok(), Some(expected), "{name}");
}

#[test]
fn meanings_of_names(rt: HostRuntime) {
    let alloc = rt.alloc();
    expect_meant(&rt, alloc, 4, None);
    expect_meant(&rt, alloc, 5, Some(Meant::Several));
    expect_meant(&rt, alloc, 6, Some(Meant::One(function(0, 6))));
}

/// The functions as a set.
fn set(alloc: Global) -> Result<EntitySet, AllocError> {
    let mut set = EntitySet::new(alloc);
    for (owner, name) in &FUNCTIONS {
        set.add(function(*owner, *name))?;
    }
    Ok(set)
}

/// Expects the set of the functions, of which one was added twice.
fn expect_elements<R: Abort>(rt: &R, set: &EntitySet) {
    assert_eq!(rt; set.entities().len(), 4);
    assert!(rt; set.has(function(1, 5)));
    assert!(rt; !set.has(function(1, 6)));
}

#[test]
fn sets_of_entities(rt: HostRuntime) {
    match set(rt.alloc()) {
        Ok(set) => expect_elements(&rt, &set),
        Err(error) => panic!(rt; "{error}"),
    }
}
