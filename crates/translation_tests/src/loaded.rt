//! Goals that are asked of a module that was loaded once.
ghost use Rattle.cu_front.specs.Loaded.{IsLoaded};

use crate::programs::translated;
use crate::terms::lines;
use cu_front::{AskFault, AskedModule, CompileFault, Loaded, ask, copy_names, load};
use cu_io::ShelfLibrary;
use cu_names::Names;
use std::alloc::{AllocError, Global};
use std::process::Abort;

/// The text of a module.
const MODULE: &str = "g x y = x";

/// The lines of the module's program with a goal that has a function without a
/// name.
const MAPPED: &str = "g x0 x1 = x0\ngoal = map(goal#1[],:('a',[]))\ngoal#1 x0 = x0\n";

/// The lines of the module's program with a goal that calls its function.
const CALLED: &str = "g x0 x1 = x0\ngoal = g(1,2)\n";

/// What is told of a goal: the lines of its program, or of its refusal.
fn answer(alloc: Global, names: &Names, loaded: &Loaded, goal: &[u8]) -> Result<String, AllocError>
    requires { IsLoaded names.now loaded.now }
{
    let mut table = copy_names(alloc, names)?;
    match ask(alloc, &mut table, loaded, goal) {
        Ok(found) => lines(alloc, &found.program, &table),
        Err(AskFault::Refused(refusal)) => refusal.line(alloc, &table),
        Err(AskFault::NoMemory) => Err(AllocError),
    }
}

/// What is told of goals, one after another.
fn answers(
    alloc: Global,
    names: &Names,
    loaded: &Loaded,
    goals: &[&[u8]],
) -> Result<String, AllocError>
    requires { IsLoaded names.now loaded.now }
{
    let mut text = String::new(alloc);
    for goal in goals {
        let reply = answer(alloc, names, loaded, goal)?;
        text.push_str(reply.as_str())?;
    }
    Ok(text)
}

/// What is told of goals in the module `M` of this text, or of the module where
/// it is refused.
fn told(alloc: Global, text: &str, goals: &[&[u8]]) -> Result<String, AllocError> {
    let mut library = ShelfLibrary::new(alloc, Vec::new(alloc));
    library.add_module(".", "M", text.as_bytes())?;
    let mut names = Names::new(alloc);
    let asked = AskedModule {
        root: "M",
        folder: ".",
    };
    match load(alloc, &mut names, asked, &mut library) {
        Ok(loaded) => answers(alloc, &names, &loaded, goals),
        Err(CompileFault::Refused(refusal)) => refusal.line(alloc, &names),
        Err(_) => Err(AllocError),
    }
}

#[test]
fn questions(rt: HostRuntime) {
    let alloc = rt.alloc();
    let mapped = "map (\\y -> y) \"a\"".as_bytes();
    let twice = told(alloc, MODULE, &[mapped, mapped]).expect(&rt, "memory");
    let once = MAPPED;
    let due = format!(in alloc; "{once}{once}").expect(&rt, "memory");
    assert_eq!(rt; twice.as_str(), due.as_str());
    let whole = translated(alloc, MODULE, "map (\\y -> y) \"a\"").expect(&rt, "a program");
    assert_eq!(rt; whole.as_str(), MAPPED);
}

#[test]
fn refusals(rt: HostRuntime) {
    let alloc = rt.alloc();
    let called = "g 1 2".as_bytes();
    let not_text = b"g \xff".as_slice();
    let goals = ["q".as_bytes(), called, not_text, "g 1".as_bytes(), called];
    let found = told(alloc, MODULE, &goals).expect(&rt, "memory");
    let program = CALLED;
    let unknown = "refused 12 UnknownName goal:1:1 q\n";
    let unread = "refused 1 NotUtf8 goal offset 2\n";
    let functional = "refused 24 GoalFunctional\n";
    let due = format!(in alloc; "{unknown}{program}{unread}{functional}{program}");
    assert_eq!(rt; found.as_str(), due.expect(&rt, "memory").as_str());
    let wrong_name = told(alloc, "f = q", &[called]).expect(&rt, "memory");
    assert_eq!(rt; wrong_name.as_str(), "refused 12 UnknownName M:1:5 q\n");
    let wrong_type = told(alloc, "f = not 'a'", &[called]).expect(&rt, "memory");
    assert_eq!(rt; wrong_type.as_str(), "refused 20 TypeClash M.f\n");
}
