//! Modules in memory, and which of them a root reaches.
use cu_io::ShelfLibrary;
use cu_modules::{Module, OrderFault, order};
use cu_names::{NameId, Names};
use std::alloc::{AllocError, Global};

/// The folder in which all modules lie.
pub(crate) const DIR: &str = "here";

/// A library of modules, each given by its name and its text.
fn library_of(
    alloc: Global,
    modules: &[(&str, &str)],
    failing: Vec<u64>,
) -> Result<ShelfLibrary, AllocError> {
    let mut library = ShelfLibrary::new(alloc, failing);
    for (name, text) in modules {
        library.add_module(DIR, name, text.as_bytes())?;
    }
    Ok(library)
}

/// A library of these modules, and of a module `M` of this text.
pub(crate) fn library_with(
    alloc: Global,
    modules: &[(&str, &str)],
    text: &str,
) -> Result<ShelfLibrary, AllocError> {
    let mut library = library_of(alloc, modules, Vec::new(alloc))?;
    library.add_module(DIR, "M", text.as_bytes())?;
    Ok(library)
}

/// A line on the outcome for the root `M`.
fn outcome(alloc: Global, modules: &[(&str, &str)], failing: Vec<u64>) -> Option<String> {
    let mut names = Names::new(alloc);
    let mut library = library_of(alloc, modules, failing).ok()?;
    match order(alloc, &mut names, "M", DIR, &mut library) {
        Ok(found) => names_of(alloc, &names, found.as_slice()).ok(),
        Err(fault) => told(alloc, &names, &fault).ok(),
    }
}

fn names_of(alloc: Global, names: &Names, modules: &[Module]) -> Result<String, AllocError> {
    let mut ids = Vec::new(alloc);
    for module in modules {
        ids.push(module.name())?;
    }
    joined(alloc, names, ids.as_slice())
}

/// The text of a name, if the table has it.
pub(crate) fn text_of(names: &Names, name: NameId) -> &str {
    if name.0 < names.count() {
        names.text(name)
    } else {
        ""
    }
}

/// The texts of names, joined by spaces.
fn joined(alloc: Global, names: &Names, ids: &[NameId]) -> Result<String, AllocError> {
    let mut line = String::new(alloc);
    for name in ids {
        if !line.is_empty() {
            line.push(' ')?;
        }
        line.push_str(text_of(names, *name))?;
    }
    Ok(line)
}

fn told(alloc: Global, names: &Names, fault: &OrderFault) -> Result<String, AllocError> {
    match fault {
        OrderFault::MissingModule(name) => line(alloc, "missing ", text_of(names, *name)),
        OrderFault::ImportCycle(cycle) => {
            let cycle = joined(alloc, names, cycle.as_slice())?;
            line(alloc, "cycle ", cycle.as_str())
        }
        OrderFault::HeaderName(name) => line(alloc, "header of ", text_of(names, *name)),
        OrderFault::Syntax(name, _) => line(alloc, "syntax of ", text_of(names, *name)),
        OrderFault::TooLong(name, _) => line(alloc, "length of ", text_of(names, *name)),
        OrderFault::NotUtf8(name, _) => line(alloc, "bytes of ", text_of(names, *name)),
        OrderFault::BadToken(place) => line(alloc, "token of ", text_of(names, place.module)),
        OrderFault::LiteralRange(place) => line(alloc, "literal of ", text_of(names, place.module)),
        OrderFault::Fetch => line(alloc, "fetch", ""),
        _ => line(alloc, "other", ""),
    }
}

fn line(alloc: Global, prefix: &str, end: &str) -> Result<String, AllocError> {
    let mut line = String::from_str(alloc, prefix)?;
    line.push_str(end)?;
    Ok(line)
}

fn is_outcome(alloc: Global, modules: &[(&str, &str)], failing: Vec<u64>, expected: &str) -> bool {
    match outcome(alloc, modules, failing) {
        Some(line) => line.as_str() == expected,
        None => false,
    }
}

/// Whether the outcome is so, where the library never fails.
fn gives(alloc: Global, modules: &[(&str, &str)], expected: &str) -> bool {
    is_outcome(alloc, modules, Vec::new(alloc), expected)
}

/// Modules, each by its name and its text, and the outcome for the root `M`.
type Case = (&'static [(&'static str, &'static str)], &'static str);

const IMPORTS: [Case; 4] = [
    (
        &[
            ("M", "import B\nimport C\ny = x"),
            ("B", "import C\nx = 1"),
            ("C", "module C where\nz = 2"),
        ],
        "Prelude C B M",
    ),
    (
        &[
            ("M", "import B\nx = 1"),
            ("B", "import SetFunctions\ny = 2"),
        ],
        "Prelude SetFunctions B M",
    ),
    (
        &[("M", "import A"), ("A", "import B"), ("B", "import A")],
        "cycle A B",
    ),
    (&[("M", "import M")], "cycle M"),
];

const FAULTS: [Case; 6] = [
    (&[], "missing M"),
    (&[("M", "import B")], "missing B"),
    (
        &[("M", "import B\nx = 1"), ("B", "module C where\ny = 2")],
        "header of B",
    ),
    (&[("M", "x =")], "syntax of M"),
    (&[("M", "x = \"a")], "token of M"),
    (
        &[("M", "x = 99999999999999999999999999999999999999999")],
        "literal of M",
    ),
];

/// The first outcome among these that isn't so.
fn unexpected(alloc: Global, cases: &[Case]) -> Option<&'static str> {
    for (modules, expected) in cases {
        if !gives(alloc, modules, expected) {
            return Some(expected);
        }
    }
    None
}

#[test]
fn imports_before_importers(rt: HostRuntime) {
    assert_eq!(rt; unexpected(rt.alloc(), &IMPORTS), None);
}

#[test]
fn faults_of_texts(rt: HostRuntime) {
    assert_eq!(rt; unexpected(rt.alloc(), &FAULTS), None);
}

/// The second fetch of a walk fails: that is no lack of the module.
#[test]
fn faults_of_the_library(rt: HostRuntime) {
    let alloc = rt.alloc();
    let modules = [("M", "import A"), ("A", "import B"), ("B", "import A")];
    let Ok(failing) = vec![in alloc; 1] else {
        return;
    };
    assert!(rt; is_outcome(alloc, &modules, failing, "fetch"));
}
