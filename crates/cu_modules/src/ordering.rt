//! Modules with imports before importers.
ghost use Rattle.std.specs.Prelude.{◌≡◌, ◌++◌, [], ◌∷◌, IfErr, IfOk, IfSome, OnErr, OnOk, Ok, Err, List, ℕ, MatchResult};
ghost use Rattle.cu_modules.specs.BuiltInEntities.{HasBuiltIn};
ghost use Rattle.cu_modules.specs.Known.{listed_texts};
ghost use Rattle.cu_modules.specs.Ordering.{AreOrdered, FaultCount, Tells, modules_of};
ghost use Rattle.cu_modules.specs.Reading.{HasModule};
ghost use Rattle.cu_modules.specs.Walk.{built_in_first, is_built_in, Walk};
ghost use Rattle.cu_names.specs.Texts.{text_of, Extends, IsKnown};
ghost use Rattle.std.specs.List.{All, Contains};

use crate::built_in::{EXTERNALS, LISTS, LITERAL_TYPES, MODULES, SET_FUNCTIONS, SINGLE_TYPES};
use crate::visits::{Progress, visit};
use crate::{Module, OrderFault};
use cu_io::Library;
use cu_names::{NameId, Names};
use std::alloc::{AllocError, Global};

/// The modules that a root reaches by its imports: each once, depth first in
/// the order of the texts, with imports before importers. The modules that are
/// built in stand before all others. It first interns the names that these have
/// without a line in their texts.
///
/// # Errors
///
/// The first refusal of the walk; `Fetch` only where the library's count of
/// faults rose; and `NoMemory`.
pub fn order<L: Library>(
    alloc: Global,
    names: &mut Names,
    root: &str,
    dir: &str,
    lib: &mut L,
) -> Result<Vec<Module>, OrderFault>
    ensures walked { IfSome (L.holdings lib.old)
        (λ held. IfOk result (λ modules. Walk (held.module_at dir.now) root.now
        (Ok (modules_of names.new modules.items)))) }
    ensures refused { IfSome (L.holdings lib.old)
        (λ held. IfErr result
        (Tells names.new (λ refusal. Walk (held.module_at dir.now) root.now (Err refusal)))) }
    ensures ordered { IfOk result (λ modules. AreOrdered (modules_of names.new modules.items)) }
    ensures known { IfOk result (λ modules. All (HasModule names.new) modules.items) }
    ensures built_in { OnOk result (HasBuiltIn names.new) }
    ensures names { Extends names.old names.new }
    ensures same { L.holdings lib.new ≡ L.holdings lib.old }
    ensures count { MatchResult result
        (λ _. L.fault_count lib.new ≡ L.fault_count lib.old)
        (λ fault. FaultCount fault (L.fault_count lib.old) (L.fault_count lib.new)) }
{
    intern_built_in(names)?;
    let prelude = names.intern("Prelude")?;
    let root = names.intern(root)?;
    let mut progress = Progress::new(alloc, prelude);
    visit(alloc, names, dir, lib, &mut progress, root)?;
    Ok(built_in_first(alloc, names, progress.done)?)
}

/// Interns the names of the built-in modules, and of what they have without a
/// declaration.
fn intern_built_in(names: &mut Names) -> Result<(), AllocError>
    ensures names { Extends names.old names.new }
    ensures built_in { OnOk result (HasBuiltIn names.new) }
{
    intern_all(names, &LISTS)?;
    intern_all(names, &SINGLE_TYPES)?;
    intern_all(names, &LITERAL_TYPES)?;
    intern_all(names, &EXTERNALS)?;
    intern_all(names, &SET_FUNCTIONS)?;
    intern_all(names, &MODULES)
}

fn intern_all(names: &mut Names, texts: &[&str]) -> Result<(), AllocError>
    ensures names { Extends names.old names.new }
    ensures there { OnOk result (All (Contains names.new) (listed_texts texts.now)) }
{
    'texts: for text in texts {
        names.intern(text)?;
    }
    Ok(())
}

/// The modules that are built in, and then the others.
fn built_in_first(
    alloc: Global,
    names: &Names,
    modules: Vec<Module>,
) -> Result<Vec<Module>, AllocError>
    requires { All (HasModule names.now) modules.items }
    ensures sorted { IfOk result (λ found. modules_of names.now found.items
        ≡ built_in_first (modules_of names.now modules.items)) }
    ensures known { IfOk result (λ found. All (HasModule names.now) found.items) }
{
    let mut built_in = Vec::new(alloc);
    let mut others = Vec::new(alloc);
    'modules: for module in modules {
        if is_built_in(names, module.name) {
            built_in.push(module)?;
            continue;
        }
        others.push(module)?;
    }
    'others: for module in others {
        built_in.push(module)?;
    }
    Ok(built_in)
}

fn is_built_in(names: &Names, name: NameId) -> bool
    requires { IsKnown names.now name }
    ensures { result ≡ is_built_in (text_of names.now name) }
{
    cu_prelude::text(names.text(name)).is_some()
}
