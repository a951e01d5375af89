//! Visits of modules, and of those that they import.
ghost use Rattle.std.specs.Prelude.{◌≡◌, ◌≤◌, ℕ, Ok, Err, IfErr, IfOk, IfSome, List, MatchResult, OnOk, false, true};
ghost use Rattle.std.specs.List.{All};
ghost use Rattle.std.specs.Vec.Iter.{into_iter_items};
ghost use Rattle.cu_uses.specs.Binders.{is_among};
ghost use Rattle.cu_modules.specs.Ordering.{FaultCount, IsOwn, Tells, modules_of, texts_of};
ghost use Rattle.cu_modules.specs.Inside.Progress.{fetched_with, Came, Enters, IsCycle, IsFound, IsLacking, Stands};
ghost use Rattle.cu_modules.specs.Reading.{HasModule};
ghost use Rattle.cu_modules.specs.Walk.{is_built_in, is_there, most_modules, IsNew, Visits};
ghost use Rattle.cu_names.specs.Texts.{text_of, AllDiffer, Extends, IsKnown};
ghost use Rattle.cu_syntax.specs.Answer.{module_meaning};
ghost use Rattle.cu_syntax.specs.Owners.{ModuleIsOf};

use crate::imports::import_names;
use crate::reading::read;
use crate::{Module, OrderFault};
use cu_io::{Fetched, Library};
use cu_names::{NameId, Names};
use cu_syntax as syntax;
use std::alloc::{AllocError, Global};
use std::vec;

/// The most modules that are fetched.
const MAX_MODULES: usize = 1000;

/// A module on the path, with the imports that come after the one at hand.
#[derive(Drop)]
pub(crate) struct Frame {
    pub(crate) module: Module,
    pub(crate) left: vec::IntoIter<NameId>,
}

/// How far a walk over modules has come.
#[derive(Drop)]
pub(crate) struct Progress {
    /// The name of the Prelude.
    pub(crate) prelude: NameId,
    /// The modules on the way from the root to the one at hand.
    pub(crate) path: Vec<NameId>,
    /// The modules that are done, each after those that it imports.
    pub(crate) done: Vec<Module>,
    /// How many modules were fetched.
    pub(crate) fetched: usize,
}

impl Progress {
    ghost use Rattle.std.specs.Prelude.{◌≡◌, [], ℕ, List};
    ghost use Rattle.std.specs.List.{All};
    ghost use Rattle.std.specs.Vec.Iter.{into_iter_items};
    ghost use Rattle.cu_modules.specs.Inside.Frames.{Seeks};
    ghost use Rattle.cu_modules.specs.Ordering.{modules_of};
    ghost use Rattle.cu_modules.specs.Reading.{HasModule};
    ghost use Rattle.cu_modules.specs.Walk.{is_there};
    ghost use Rattle.cu_names.specs.Texts.{text_of, AllDiffer, IsKnown};

    pub(crate) fn new(alloc: Global, prelude: NameId) -> Progress
        ensures prelude { result.prelude ≡ prelude }
        ensures path { result.path.items ≡ [] }
        ensures done { result.done.items ≡ [] }
        ensures fetched { result.fetched ≡ 0 }
    {
        Progress {
            prelude,
            path: Vec::new(alloc),
            done: Vec::new(alloc),
            fetched: 0,
        }
    }

    fn is_done(&self, name: NameId) -> bool
        ensures { (names : List (List ℕ)) → AllDiffer names
            → All (HasModule names) self.now.done.items → IsKnown names name
            → result ≡ is_there (modules_of names self.now.done.items) (text_of names name) }
    {
        self.done.iter().any(|module| module.name == name)
    }

    /// Takes imports off a list up to the first that isn't done.
    fn first_new(&self, left: &mut vec::IntoIter<NameId>) -> Option<NameId>
        ensures { (names : List (List ℕ)) → AllDiffer names
            → All (HasModule names) self.now.done.items
            → All (IsKnown names) (into_iter_items left.old)
            → Seeks names self.now.done.items (into_iter_items left.old) result
            (into_iter_items left.new) }
    {
        'left: while let Some(name) = left.next() {
            if !self.is_done(name) {
                return Some(name);
            }
        }
        None
    }
}

/// Does a module and all that it imports, unless it is done already.
///
/// # Errors
///
/// The first refusal on the way, `Fetch`, and `NoMemory`.
pub(crate) fn visit<L: Library>(
    alloc: Global,
    names: &mut Names,
    dir: &str,
    lib: &mut L,
    progress: &mut Progress,
    name: NameId,
) -> Result<(), OrderFault>
    requires stands { Stands names.old progress.old }
    requires known { IsKnown names.old name }
    ensures came { OnOk result (Came names.new progress.old progress.new) }
    ensures there { OnOk result
        (is_there (modules_of names.new progress.new.done.items) (text_of names.old name) ≡ true) }
    ensures visited { IfSome (L.holdings lib.old) (λ held. OnOk result
        (Visits (held.module_at dir.now) (texts_of names.old progress.old.path.items)
        (modules_of names.old progress.old.done.items) (text_of names.old name)
        (Ok (modules_of names.new progress.new.done.items)))) }
    ensures refused { IfSome (L.holdings lib.old) (λ held. IfErr result (Tells names.new (λ refusal.
        Visits (held.module_at dir.now) (texts_of names.old progress.old.path.items)
        (modules_of names.old progress.old.done.items) (text_of names.old name)
        (Err refusal)))) }
    ensures names { Extends names.old names.new }
    ensures same { L.holdings lib.new ≡ L.holdings lib.old }
    ensures count { MatchResult result
        (λ _. L.fault_count lib.new ≡ L.fault_count lib.old)
        (λ fault. FaultCount fault (L.fault_count lib.old) (L.fault_count lib.new)) }
{
    if progress.is_done(name) {
        return Ok(());
    }
    let mut frames = Vec::new(alloc);
    frames.push(begin(alloc, names, dir, lib, progress, name)?)?;
    'frames: while let Some(mut frame) = frames.pop() {
        let Some(import) = progress.first_new(&mut frame.left) else {
            progress.path.pop();
            progress.done.push(frame.module)?;
            continue;
        };
        let entered = begin(alloc, names, dir, lib, progress, import)?;
        frames.push(frame)?;
        frames.push(entered)?;
    }
    Ok(())
}

/// Enters a module that isn't done, with all of its imports left.
fn begin<L: Library>(
    alloc: Global,
    names: &mut Names,
    dir: &str,
    lib: &mut L,
    progress: &mut Progress,
    name: NameId,
) -> Result<Frame, OrderFault>
    requires stands { Stands names.old progress.old }
    requires known { IsKnown names.old name }
    requires not_done { is_there (modules_of names.old progress.old.done.items)
        (text_of names.old name) ≡ false }
    ensures new { OnOk result (IsNew (texts_of names.old progress.old.path.items)
        (modules_of names.old progress.old.done.items) (text_of names.old name)) }
    ensures enters { IfOk result (λ found. Enters names.new progress.old progress.new name
        found.«module» (into_iter_items found.left)) }
    ensures found { IfSome (L.holdings lib.old) (λ held. IfOk result (λ found.
        IsFound (held.module_at dir.now) progress.old.fetched (text_of names.old name)
        (module_meaning names.new found.«module».syntax))) }
    ensures refused { IfSome (L.holdings lib.old) (λ held. IfErr result (Tells names.new (λ refusal.
        Visits (held.module_at dir.now) (texts_of names.old progress.old.path.items)
        (modules_of names.old progress.old.done.items) (text_of names.old name) (Err refusal)))) }
    ensures names { Extends names.old names.new }
    ensures same { L.holdings lib.new ≡ L.holdings lib.old }
    ensures count { MatchResult result
        (λ _. L.fault_count lib.new ≡ L.fault_count lib.old)
        (λ fault. FaultCount fault (L.fault_count lib.old) (L.fault_count lib.new)) }
{
    not_met(alloc, progress.path.as_slice(), name)?;
    let (module, imports) = enter(alloc, names, dir, lib, progress, name)?;
    Ok(Frame {
        module,
        left: imports.into_iter(),
    })
}

/// Answers nothing, if a module isn't on the path, and else the cycle that it
/// closes.
fn not_met(alloc: Global, path: &[NameId], name: NameId) -> Result<(), OrderFault>
    ensures new { (names : List (List ℕ)) → AllDiffer names → All (IsKnown names) path.now
        → IsKnown names name
        → OnOk result (is_among (texts_of names path.now) (text_of names name) ≡ false) }
    ensures met { (names : List (List ℕ)) → AllDiffer names → All (IsKnown names) path.now
        → IsKnown names name
        → IfErr result (Tells names (IsCycle (texts_of names path.now) (text_of names name))) }
    ensures count { IfErr result (λ fault. (count : ℕ) → FaultCount fault count count) }
{
    let Some(met) = path.iter().position(|on_path| *on_path == name) else {
        return Ok(());
    };
    let mut cycle = Vec::new(alloc);
    cycle.extend_from_slice(&path[met..])?;
    Err(OrderFault::ImportCycle(cycle))
}

/// Puts a new module at the end of the path, and gives the modules that it
/// imports.
fn enter<L: Library>(
    alloc: Global,
    names: &mut Names,
    dir: &str,
    lib: &mut L,
    progress: &mut Progress,
    name: NameId,
) -> Result<(Module, Vec<NameId>), OrderFault>
    requires stands { Stands names.old progress.old }
    requires known { IsKnown names.old name }
    requires new { IsNew (texts_of names.old progress.old.path.items)
        (modules_of names.old progress.old.done.items) (text_of names.old name) }
    ensures enters { IfOk result
        (λ found. Enters names.new progress.old progress.new name found.0 found.1.items) }
    ensures found { IfSome (L.holdings lib.old) (λ held. IfOk result (λ found.
        IsFound (held.module_at dir.now) progress.old.fetched (text_of names.old name)
        (module_meaning names.new found.0.syntax))) }
    ensures lacking { IfSome (L.holdings lib.old) (λ held. IfErr result (Tells names.new
        (IsLacking (held.module_at dir.now) progress.old.fetched (text_of names.old name)))) }
    ensures names { Extends names.old names.new }
    ensures same { L.holdings lib.new ≡ L.holdings lib.old }
    ensures count { MatchResult result
        (λ _. L.fault_count lib.new ≡ L.fault_count lib.old)
        (λ fault. FaultCount fault (L.fault_count lib.old) (L.fault_count lib.new)) }
{
    let syntax = look_up(alloc, names, dir, lib, &mut progress.fetched, name)?;
    let module = Module { name, syntax };
    let imports = import_names(alloc, &module, progress.prelude)?;
    progress.path.push(name)?;
    Ok((module, imports))
}

/// The syntax of a module that is built in or held by the library.
fn look_up<L: Library>(
    alloc: Global,
    names: &mut Names,
    dir: &str,
    lib: &mut L,
    fetched: &mut usize,
    name: NameId,
) -> Result<syntax::Module, OrderFault>
    requires known { IsKnown names.old name }
    requires differ { AllDiffer names.old }
    requires few { fetched.old ≤ most_modules }
    ensures owned { IfOk result (ModuleIsOf name names.new) }
    ensures own { IfOk result
        (λ found. IsOwn
        (record { name = text_of names.new name; syntax = module_meaning names.new found })) }
    ensures fetched { OnOk result (fetched.new
        ≡ fetched_with (text_of names.old name) fetched.old) }
    ensures few { OnOk result (fetched.new ≤ most_modules) }
    ensures found { IfSome (L.holdings lib.old) (λ held. IfOk result (λ found.
        IsFound (held.module_at dir.now) fetched.old (text_of names.old name)
        (module_meaning names.new found))) }
    ensures lacking { IfSome (L.holdings lib.old) (λ held. IfErr result (Tells names.new
        (IsLacking (held.module_at dir.now) fetched.old (text_of names.old name)))) }
    ensures names { Extends names.old names.new }
    ensures differ { AllDiffer names.new }
    ensures same { L.holdings lib.new ≡ L.holdings lib.old }
    ensures count { MatchResult result
        (λ _. L.fault_count lib.new ≡ L.fault_count lib.old)
        (λ fault. FaultCount fault (L.fault_count lib.old) (L.fault_count lib.new)) }
{
    if let Some(text) = cu_prelude::text(names.text(name)) {
        return read(alloc, names, name, text.as_bytes());
    }
    if *fetched == MAX_MODULES {
        return Err(OrderFault::TooManyModules(name));
    }
    *fetched += 1;
    match lib.fetch(alloc, dir, names.text(name))? {
        Fetched::Text(text) => read(alloc, names, name, text.as_slice()),
        Fetched::Absent => Err(OrderFault::MissingModule(name)),
        Fetched::Failed => Err(OrderFault::Fetch),
    }
}
