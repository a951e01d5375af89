//! What names mean in modules and in a goal. What is expected of each text was
//! worked out by hand from the rules of scopes.
ghost use Rattle.std.specs.Prelude.{◌<◌, IfSome, length};

use crate::goals::goal_of;
use crate::modules::{DIR, library_with, text_of};
use cu_entities::{Entity, Space};
use cu_io::ShelfLibrary;
use cu_modules::{Module, ScopeFault, Scopes, order, scope, scope_goal};
use cu_names::{NameId, Names, Place};
use cu_syntax::GoalText;
use std::alloc::{AllocError, Global};
use std::process::Abort;

/// What is said where nothing is wrong.
const RIGHT: &str = "right";

/// Modules that the texts of the tables import, each by its name and its text.
const SHELF: [(&str, &str); 12] = [
    ("B", "x = 1"),
    ("C", "x = 2"),
    // brings what B has, and more
    ("D", "module D (module B, y) where\nimport B\ny = 1"),
    // has no list, so it brings nothing of B
    ("E", "import B\nz = 1"),
    // module H's own x hides that of B, so that `module B` brings nothing
    ("H", "module H (module B) where\nimport B\nx = 3"),
    (
        "T",
        "module T (T(..), S, Y, f) where\ndata T = P | Q\ndata S = R\ntype Y = T\nf = P\ng = Q",
    ),
    // constructors that are in scope by qualified names only
    ("G", "module G (T.T(..)) where\nimport qualified T"),
    // only one of the constructors is in scope
    ("K", "module K (T(..)) where\nimport T (T(P))"),
    // another type of the name T
    ("U", "data T = V"),
    // uses a name that means nothing
    ("L", "y = q"),
    ("N", "module N (module N, x) where\nimport B\nz = 1"),
    ("O", "x !!! y = x\ninfix 4 !!!"),
];

/// Texts of a module `M`, and what is said of the names in it.
type Case = (&'static str, &'static str);

const EXPORTED: [Case; 14] = [
    ("import D\nx = 2\ny = D.x", RIGHT),
    ("import N\ny = x", RIGHT),
    ("module M (module M) where\nx = 1", RIGHT),
    ("module M (module B) where\nimport B", RIGHT),
    ("module M (B.x) where\nimport qualified B", RIGHT),
    ("module M (T(P)) where\nimport T", RIGHT),
    ("module M (x, x, module M) where\nx = 1", RIGHT),
    ("import G\ny = P", RIGHT),
    ("import K\ny = P", RIGHT),
    ("import K\ny = Q", "UnknownName M:2:5 Q"),
    ("import T\ny = P", RIGHT),
    ("import T\ny = R", "UnknownName M:2:5 R"),
    ("import E\ny = x", "UnknownName M:2:5 x"),
    ("import H\ny = x", "UnknownName M:2:5 x"),
];

/// Export lists that name what isn't there, or what means several entities.
const NOT_EXPORTED: [Case; 9] = [
    ("module M (y) where\nx = 1", "NotExported M:1:11 y"),
    ("module M (P) where\nimport T", "NotExported M:1:11 P"),
    ("module M (S(R)) where\nimport T", "NotExported M:1:13 R"),
    (
        "module M (module C) where\nimport B",
        "NotExported M:1:18 C",
    ),
    // an alias is no module
    (
        "module M (module Z) where\nimport B as Z",
        "NotExported M:1:18 Z",
    ),
    (
        "module M (x) where\nimport B\nimport C",
        "Ambiguous M:1:11 x",
    ),
    (
        "module M (T) where\nimport T\nimport U",
        "Ambiguous M:1:11 T",
    ),
    // the first place decides
    ("module M (q) where\ny = r", "NotExported M:1:11 q"),
    // the module that comes first has the first fault
    ("import L\nz = r", "UnknownName L:1:5 q"),
];

const IMPORTED: [Case; 21] = [
    ("import B\ny = B.x", RIGHT),
    ("import B (x)\ny = (x, B.x)", RIGHT),
    ("import D (y)\nz = y", RIGHT),
    ("import D (y)\nz = x", "UnknownName M:2:5 x"),
    ("import qualified B\ny = B.x", RIGHT),
    ("import qualified B\ny = x", "UnknownName M:2:5 x"),
    ("import B as Z\ny = Z.x", RIGHT),
    ("import B as Z\ny = B.x", "UnknownName M:2:5 B.x"),
    ("import T (T(P))\ny = P", RIGHT),
    ("import T (T(P))\ny = Q", "UnknownName M:2:5 Q"),
    ("import T (T)\ny = P", "UnknownName M:2:5 P"),
    ("import T (T)\ny :: T -> T\ny z = z", RIGHT),
    ("import T (T(..))\ny = Q", RIGHT),
    // all constructors that are exported, which are fewer
    ("import K (T(..))\ny = P", RIGHT),
    ("import K (T(..))\ny = Q", "UnknownName M:2:5 Q"),
    // a synonym brings no constructor
    ("import T (Y(..))\ny :: Y\ny = 1", RIGHT),
    ("import T (Y(..))\ny = P", "UnknownName M:2:5 P"),
    ("import T\ny :: S -> S\ny z = z", RIGHT),
    ("import B hiding (x)\nimport C\ny = x", RIGHT),
    ("import T hiding (T(Q), f)\ny = P\nf = y", RIGHT),
    ("import T hiding (T(Q))\ny = Q", "UnknownName M:2:5 Q"),
];

/// Import lists that name what isn't there.
const NOT_IMPORTED: [Case; 7] = [
    ("import B (z)", "NotExported M:1:11 z"),
    ("import B hiding (z)", "NotExported M:1:18 z"),
    ("import B (B.x)", "NotExported M:1:11 B.x"),
    ("import T (P)", "NotExported M:1:11 P"),
    ("import T hiding (P)", "NotExported M:1:18 P"),
    ("import T (S(R))", "NotExported M:1:13 R"),
    ("import T (g)", "NotExported M:1:11 g"),
];

/// The Prelude, and what is in scope always.
const ALWAYS: [Case; 7] = [
    ("y = not True", RIGHT),
    ("import Prelude (Bool(..))\ny = True", RIGHT),
    (
        "import Prelude (Bool(..))\ny = not True",
        "UnknownName M:2:5 not",
    ),
    (
        "import qualified Prelude\ny = Prelude.not Prelude.True",
        RIGHT,
    ),
    ("import Prelude ()\ny = (1, [2], ()) : []", RIGHT),
    (
        "import Prelude ()\ny :: [()] -> ((), [()])\ny (z : zs) = (z, zs)",
        RIGHT,
    ),
    ("import Prelude ()\ny = 1 + 2", "UnknownName M:2:7 +"),
];

const USED: [Case; 16] = [
    ("y = q", "UnknownName M:1:5 q"),
    ("y :: Foo\ny = 1", "UnknownName M:1:6 Foo"),
    ("import B\nimport C\ny = x", "Ambiguous M:3:5 x"),
    ("import B\nimport C\ny = B.x", RIGHT),
    // one entity by two ways
    ("import B\nimport D\ny = x", RIGHT),
    // the own entities hide imported ones of the unqualified name
    ("import B\nimport C\nx = 3\ny = x", RIGHT),
    ("import B\nx = 3\ny = (M.x, B.x)", RIGHT),
    ("import B as M\nx = 3\ny = M.x", "Ambiguous M:3:5 M.x"),
    ("data P = Int : Int\ny z = 1 : z", "Ambiguous M:2:9 :"),
    // a list in brackets has no use of the name
    ("data P = Int : Int\ny = [1]", RIGHT),
    // a local variable hides all outer ones
    ("import B\nimport C\ny x = x", RIGHT),
    ("import B\nimport C\ny z = x", "Ambiguous M:3:7 x"),
    ("import B\nimport C\ny = let x = 1 in x", RIGHT),
    ("import B\nimport C\ny = [x | x <- [1]]", RIGHT),
    ("y = [x | x <- x]", "UnknownName M:1:15 x"),
    ("import B\nimport C\ny z | x = z where x = True", RIGHT),
];

const TYPES: [Case; 13] = [
    // types are one name space, functions and constructors another
    ("data P = P\nf = P", RIGHT),
    ("data P = Q\ndata P = R", "Duplicate M:2:6 P"),
    ("data P = Q\ndata R = Q", "Duplicate M:2:10 Q"),
    ("data P a = P a", RIGHT),
    ("data P a = P b", "UnknownName M:1:14 b"),
    ("data P a a = P a", "Duplicate M:1:10 a"),
    ("newtype P a = P [a]", RIGHT),
    ("newtype P a = P b", "UnknownName M:1:17 b"),
    ("newtype P a a = P a", "Duplicate M:1:13 a"),
    ("type P a = a -> P a", RIGHT),
    ("type P a = [b]", "UnknownName M:1:13 b"),
    ("type P a a = [a]", "Duplicate M:1:10 a"),
    ("f :: a -> b\nf z = z", RIGHT),
];

const DECLARED: [Case; 9] = [
    ("f 0 = 1\nf 1 = 2", RIGHT),
    ("x = 1\ny = 2\nx = 3", "Duplicate M:3:1 x"),
    // what is declared twice is one entity
    ("x = 1\ny = x\nx = 2", "Duplicate M:3:1 x"),
    ("f 0 = 1\nf :: Int -> Int\nf 1 = 2", "Duplicate M:3:1 f"),
    (
        "f 0 = 1\ninfix 4 %%\nf 1 = 2\nx %% y = x",
        "Duplicate M:3:1 f",
    ),
    ("y = f where\n  f x = 1\n  f = 2", RIGHT),
    (
        "y = f where\n  f = 1\n  g = 2\n  f = 3",
        "Duplicate M:4:3 f",
    ),
    ("y = x where x, x free", "Duplicate M:1:16 x"),
    ("y = a where (a, a) = (1, 2)", RIGHT),
];

/// Signatures and fixities.
const ANNOTATED: [Case; 9] = [
    ("f :: Int", "UnknownName M:1:1 f"),
    ("infix 4 %%", "UnknownName M:1:9 %%"),
    ("infix 4 %%\nx %% y = x", RIGHT),
    ("f :: Int\nf :: Int\nf = 1", "Duplicate M:2:1 f"),
    ("infix 4 %%\ninfix 5 %%\nx %% y = x", "Duplicate M:2:9 %%"),
    ("y = z where\n  z :: Int\n  z = 1", RIGHT),
    ("y = 1 where\n  z :: Int", "UnknownName M:2:3 z"),
    ("y = z where\n  z :: Foo\n  z = 1", "UnknownName M:2:8 Foo"),
    ("import O\ny = 1 !!! 2", RIGHT),
];

/// Goals in the module of `GOALS_MODULE`, and what is said of them.
const GOALS: [Case; 8] = [
    ("z", RIGHT),
    ("(B.x, M.z)", RIGHT),
    ("\\x -> x", RIGHT),
    ("x where x free", RIGHT),
    ("x", "Ambiguous goal:1:1 x"),
    ("(z, q)", "UnknownName goal:1:5 q"),
    ("z where z, z free", "Duplicate goal:1:12 z"),
    ("E.x", "UnknownName goal:1:1 E.x"),
];

const GOALS_MODULE: &str = "import B\nimport C\nimport E\nz = 1";

/// A line on a fault: what is wrong, the place, and the name.
fn told(alloc: Global, names: &Names, fault: &ScopeFault) -> Result<String, AllocError> {
    match fault {
        ScopeFault::NotExported(place, name) => line(alloc, names, "NotExported", *place, *name),
        ScopeFault::UnknownName(place, name) => line(alloc, names, "UnknownName", *place, *name),
        ScopeFault::Ambiguous(place, name) => line(alloc, names, "Ambiguous", *place, *name),
        ScopeFault::Duplicate(place, name) => line(alloc, names, "Duplicate", *place, *name),
        ScopeFault::NoMemory => Err(AllocError),
    }
}

fn line(
    alloc: Global,
    names: &Names,
    wrong: &str,
    place: Place,
    name: NameId,
) -> Result<String, AllocError> {
    let module = text_of(names, place.module);
    let name = text_of(names, name);
    let (line, column) = (place.line, place.column);
    format!(in alloc; "{wrong} {module}:{line}:{column} {name}")
}

/// The number of the last module.
fn last(modules: &[Module]) -> Option<u32>
    ensures within { IfSome result (λ number. number < length modules.now) }
{
    u32::try_from(modules.len().checked_sub(1)?).ok()
}

/// What is said of the names in the module `M` of a library, and in a goal there.
fn said(
    alloc: Global,
    names: &mut Names,
    library: &mut ShelfLibrary,
    goal: &GoalText,
) -> Option<String> {
    let Ok(modules) = order(alloc, names, "M", DIR, library) else {
        return None;
    };
    let root = last(modules.as_slice())?;
    let scoped = match scope(alloc, names, modules.as_slice()) {
        Ok(scopes) => scope_goal(alloc, names, modules.as_slice(), root, scopes, goal),
        Err(fault) => Err(fault),
    };
    match scoped {
        Ok(_) => String::from_str(alloc, RIGHT).ok(),
        Err(fault) => told(alloc, names, &fault).ok(),
    }
}

/// What is said of the names in a module `M` of a text, and in a goal there.
fn outcome(alloc: Global, text: &str, goal: &str) -> Option<String> {
    let mut names = Names::new(alloc);
    let goal = goal_of(alloc, &mut names, goal)?;
    let mut library = library_with(alloc, &SHELF, text).ok()?;
    said(alloc, &mut names, &mut library, &goal)
}

/// Whether this is said of a module of a text, and of a goal there.
fn says(alloc: Global, text: &str, goal: &str, expected: &str) -> bool {
    match outcome(alloc, text, goal) {
        Some(line) => line.as_str() == expected,
        None => false,
    }
}

/// The first text of which something else is said.
fn unexpected(alloc: Global, cases: &[Case]) -> Option<&'static str> {
    for (text, expected) in cases {
        if !says(alloc, text, "1", expected) {
            return Some(text);
        }
    }
    None
}

/// The first goal of which something else is said.
fn unexpected_goal(alloc: Global) -> Option<&'static str> {
    for (goal, expected) in &GOALS {
        if !says(alloc, GOALS_MODULE, goal, expected) {
            return Some(goal);
        }
    }
    None
}

/// Expects that of each text is said what stands beside it.
fn expect<R: Abort>(rt: &R, alloc: Global, cases: &[Case]) {
    assert_eq!(rt; unexpected(alloc, cases), None);
}

#[test]
fn exports(rt: HostRuntime) {
    let alloc = rt.alloc();
    expect(&rt, alloc, &EXPORTED);
    expect(&rt, alloc, &NOT_EXPORTED);
}

#[test]
fn imports(rt: HostRuntime) {
    let alloc = rt.alloc();
    expect(&rt, alloc, &IMPORTED);
    expect(&rt, alloc, &NOT_IMPORTED);
}

#[test]
fn uses(rt: HostRuntime) {
    let alloc = rt.alloc();
    expect(&rt, alloc, &ALWAYS);
    expect(&rt, alloc, &USED);
}

#[test]
fn declarations(rt: HostRuntime) {
    let alloc = rt.alloc();
    expect(&rt, alloc, &TYPES);
    expect(&rt, alloc, &DECLARED);
    expect(&rt, alloc, &ANNOTATED);
}

/// The entity that a name means in a module, where the table has the name.
fn meaning(
    scopes: &Scopes,
    names: &Names,
    module: u32,
    qualifier: Option<&str>,
    base: &str,
) -> Option<Entity> {
    let qualifier = match qualifier {
        Some(text) => Some(names.find(text)?),
        None => None,
    };
    scopes.meaning(module, Space::Values, qualifier, names.find(base)?)
}

/// The entity that a name means in the module `M` of a library.
fn entity_of(
    alloc: Global,
    names: &mut Names,
    library: &mut ShelfLibrary,
    qualifier: Option<&str>,
    base: &str,
) -> Option<Entity> {
    let Ok(modules) = order(alloc, names, "M", DIR, library) else {
        return None;
    };
    let root = last(modules.as_slice())?;
    match scope(alloc, names, modules.as_slice()) {
        Ok(scopes) => meaning(&scopes, names, root, qualifier, base),
        Err(_) => None,
    }
}

/// The module of the function that a name means in a module `M` of a text.
fn owner_of(alloc: Global, text: &str, qualifier: Option<&str>, base: &str) -> Option<String> {
    let mut names = Names::new(alloc);
    let mut library = library_with(alloc, &SHELF, text).ok()?;
    let entity = entity_of(alloc, &mut names, &mut library, qualifier, base)?;
    String::from_str(alloc, text_of(&names, entity.owner)).ok()
}

/// Whether a name means a function of this module, or none alone.
fn is_owned(alloc: Global, qualifier: Option<&str>, base: &str, expected: Option<&str>) -> bool {
    let text = "import B as Z\nimport C\nimport D\nx = 3\nz = 4";
    match (owner_of(alloc, text, qualifier, base), expected) {
        (Some(owner), Some(expected)) => owner.as_str() == expected,
        (None, None) => true,
        _ => false,
    }
}

/// A qualifier and a base name, and the module of the function that they mean.
type Owned = (Option<&'static str>, &'static str, Option<&'static str>);

const OWNED: [Owned; 6] = [
    (None, "x", Some("M")),
    (Some("Z"), "x", Some("B")),
    (Some("D"), "x", Some("B")),
    (Some("B"), "x", None),
    (None, "y", Some("D")),
    (None, "Z", None),
];

#[test]
fn goals(rt: HostRuntime) {
    let alloc = rt.alloc();
    assert_eq!(rt; unexpected_goal(alloc), None);
    for (qualifier, base, expected) in &OWNED {
        assert!(rt;
            is_owned(alloc, *qualifier, base, *expected),
            "{qualifier:?} {base}"
        );
    }
}
