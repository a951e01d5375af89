//! The reading of a module.
ghost use Rattle.std.specs.Prelude.{◌≡◌, ◌∷◌, [], ◌<◌, All, IfErr, IfOk, OnOk, length, map};
ghost use Rattle.cu_names.specs.Texts.{Extends, IsKnown, text_of};
ghost use Rattle.cu_flatread.specs.FlatText.{FlatText};
ghost use Rattle.cu_flatread.specs.Inside.Declarations.{GivesAll, fault_of, module_at, whole_at};
ghost use Rattle.cu_flatread.specs.Inside.Names.{quoted_at};
ghost use Rattle.cu_flatread.specs.Inside.Words.{Gives, joined, list_at, more_elements};
ghost use Rattle.cu_flatread.specs.Meaning.{HasModule, Tells, module_of};

use crate::cursor::Cursor;
use crate::declarations::FlatModule;
use crate::fault::BadFlat;
use crate::functions::{functions, operators};
use crate::stop::Stop;
use crate::type_declarations::declarations;
use cu_names::{NameId, Names};
use std::alloc::Global;

/// The module whose text these bytes are. Types and expressions may be nested
/// 16,384 deep. How many bytes are read is the caller's to limit.
pub fn read(alloc: Global, names: &mut Names, bytes: &[u8]) -> Result<FlatModule, BadFlat>
    ensures whole { IfOk result (λ flat. FlatText bytes.now (module_of names.new flat)) }
    ensures known { IfOk result (HasModule names.new) }
    ensures fault { IfErr result (Tells bytes.now) }
    ensures names { Extends names.old names.new }
{
    match whole(alloc, names, bytes) {
        Ok(module) => Ok(module),
        Err(stop) => Err(fault_of(stop, bytes.len())),
    }
}

/// The fault of so many bytes, of which some are left where reading broke off.
fn fault_of(stop: Stop, len: usize) -> BadFlat
    ensures { result ≡ fault_of len stop }
{
    match stop {
        Stop::At(left) => BadFlat::At(len.saturating_sub(left)),
        Stop::NoMemory => BadFlat::NoMemory,
    }
}

/// The module whose text all the bytes are.
#[tactic(auto, unfolding(crate::specs::Inside::Declarations::whole_at))]
fn whole(alloc: Global, names: &mut Names, bytes: &[u8]) -> Result<FlatModule, Stop>
    ensures gives { GivesAll (module_of names.new) result (whole_at bytes.now) }
    ensures known { IfOk result (HasModule names.new) }
    ensures names { Extends names.old names.new }
{
    let mut cursor = Cursor { rest: bytes };
    let module = module(alloc, &mut cursor, names)?;
    match cursor.rest {
        [] => Ok(module),
        _ => Err(Stop::At(cursor.rest.len())),
    }
}

/// A module.
#[tactic(auto, unfolding(crate::specs::Inside::Declarations::module_at))]
fn module(alloc: Global, cursor: &mut Cursor<'_>, names: &mut Names) -> Result<FlatModule, Stop>
    ensures gives { Gives (module_of names.new) result cursor.new.rest.now
        (module_at cursor.old.rest.now) }
    ensures known { IfOk result (HasModule names.new) }
    ensures names { Extends names.old names.new }
    ensures shorter { OnOk result (length cursor.new.rest.now < length cursor.old.rest.now) }
{
    cursor.word(b"Prog ")?;
    let name = cursor.quoted(alloc, names)?;
    cursor.word(b" ")?;
    let imports = imports(alloc, cursor, names)?;
    cursor.word(b" ")?;
    let types = declarations(alloc, cursor, names)?;
    cursor.word(b" ")?;
    let functions = functions(alloc, cursor, names)?;
    cursor.word(b" ")?;
    let operators = operators(alloc, cursor, names)?;
    cursor.word(b"\n")?;
    Ok(FlatModule {
        name,
        imports,
        types,
        functions,
        operators,
    })
}

/// A list of names of modules.
#[tactic(auto, unfolding(crate::specs::Inside::Words::list_at, crate::specs::Inside::Words::list_after))]
fn imports(alloc: Global, cursor: &mut Cursor<'_>, names: &mut Names) -> Result<Vec<NameId>, Stop>
    ensures gives { Gives (λ ids. map (text_of names.new) ids.items) result cursor.new.rest.now
        (list_at quoted_at cursor.old.rest.now) }
    ensures known { IfOk result (λ ids. All (IsKnown names.new) ids.items) }
    ensures names { Extends names.old names.new }
    ensures shorter { OnOk result (length cursor.new.rest.now < length cursor.old.rest.now) }
{
    cursor.word(b"[")?;
    if cursor.is_at(b']') {
        cursor.word(b"]")?;
        return Ok(Vec::new(alloc));
    }
    let first = cursor.quoted(alloc, names)?;
    imports_after(alloc, first, cursor, names)
}

/// The rest of a list of which the first element was read.
fn imports_after(
    alloc: Global,
    first: NameId,
    cursor: &mut Cursor<'_>,
    names: &mut Names,
) -> Result<Vec<NameId>, Stop>
    requires { IsKnown names.old first }
    ensures gives { Gives (λ xs. map (text_of names.new) xs.items) result cursor.new.rest.now
        (joined (text_of names.old first ∷ [])
        (more_elements quoted_at (length cursor.old.rest.now) cursor.old.rest.now)) }
    ensures known { IfOk result (λ xs. All (IsKnown names.new) xs.items) }
    ensures names { Extends names.old names.new }
    ensures shorter { OnOk result (length cursor.new.rest.now < length cursor.old.rest.now) }
{
    let mut imports = vec![in alloc; first]?;
    while cursor.goes_on()? {
        let next = cursor.quoted(alloc, names)?;
        imports.push(next)?;
    }
    Ok(imports)
}
