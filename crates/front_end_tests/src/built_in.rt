//! Which modules are built in, and that the whole front end reads them.
use cu_io::ShelfLibrary;
use cu_modules::{Module, order};
use cu_names::Names;
use std::alloc::Global;

/// Whether the text of a module begins with a line.
fn begins_with(module: &str, line: &str) -> bool {
    match cu_prelude::text(module) {
        Some(text) => text.starts_with(line),
        None => false,
    }
}

/// How many items a built-in module has that is read with those that it
/// imports, and no library beside them.
fn items_of(alloc: Global, root: &str) -> Option<usize> {
    let mut names = Names::new(alloc);
    let mut library = ShelfLibrary::new(alloc, Vec::new(alloc));
    match order(alloc, &mut names, root, "nowhere", &mut library) {
        Ok(modules) => last_items(modules.as_slice()),
        Err(_) => None,
    }
}

/// How many items the last of some modules has.
fn last_items(modules: &[Module]) -> Option<usize> {
    let module = modules.last()?;
    Some(module.syntax().items().len())
}

/// Names that no built-in module has.
const OTHER_NAMES: [&str; 7] = [
    "",
    "prelude",
    "Prelud",
    "Prelude ",
    "SetFunction",
    "Data.Prelude",
    "Data.List",
];

#[test]
fn built_in_modules(rt: HostRuntime) {
    assert!(rt; begins_with("Prelude", "-- How tightly operators bind.\n"));
    assert!(rt; begins_with("SetFunctions", "module SetFunctions\n"));
    for name in &OTHER_NAMES {
        assert!(rt; cu_prelude::text(name).is_none(), "{name}");
    }
}

#[test]
fn items_of_built_in_modules(rt: HostRuntime) {
    assert_eq!(rt; items_of(rt.alloc(), "Prelude"), Some(95));
    assert_eq!(rt; items_of(rt.alloc(), "SetFunctions"), Some(6));
}
