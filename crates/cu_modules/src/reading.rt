//! The syntax of a module's text.
ghost use Rattle.std.specs.Prelude.{◌≡◌, ℕ, List, IfErr, IfOk, Ok, Err, true, false};
ghost use Rattle.cu_modules.specs.declared.fault.OrderFault.TheVariants.{HeaderName};
ghost use Rattle.cu_modules.specs.Ordering.{FaultCount, Tells};
ghost use Rattle.cu_modules.specs.Reading.{fault_of_layout, fault_of_syntax, fault_of_tokens, IsFaultOf};
ghost use Rattle.cu_modules.specs.Texts.{allows, IsRead};
ghost use Rattle.cu_names.specs.Texts.{AllDiffer, Extends, IsKnown, text_of};
ghost use Rattle.cu_syntax.specs.Answer.{module_meaning};
ghost use Rattle.cu_syntax.specs.Owners.{ModuleIsOf};

use crate::OrderFault;
use cu_layout::{TooDeep, block};
use cu_lex::{LexFault, lex};
use cu_names::{NameId, Names};
use cu_syntax::{Module, ParseFault, parse_module};
use std::alloc::Global;

/// What the text of a module says.
///
/// # Errors
///
/// The first fault of its tokens, of its layout or of its syntax, `HeaderName`
/// where its header has another name, and `NoMemory`.
pub(crate) fn read(
    alloc: Global,
    names: &mut Names,
    name: NameId,
    text: &[u8],
) -> Result<Module, OrderFault>
    requires known { IsKnown names.old name }
    requires differ { AllDiffer names.old }
    ensures read { IfOk result
        (λ found. IsRead (text_of names.new name) text.now (Ok (module_meaning names.new found))) }
    ensures fault { IfErr result (Tells names.new (IsFaultOf (text_of names.new name) text.now)) }
    ensures count { IfErr result (λ fault. (count : ℕ) → FaultCount fault count count) }
    ensures owned { IfOk result (ModuleIsOf name names.new) }
    ensures names { Extends names.old names.new }
    ensures differ { AllDiffer names.new }
{
    let tokens = match lex(alloc, names, name, text) {
        Ok(tokens) => tokens,
        Err(fault) => return Err(of_tokens(name, fault)),
    };
    let laid = match block(alloc, tokens, true) {
        Ok(laid) => laid,
        Err(fault) => return Err(of_layout(fault)),
    };
    match parse_module(alloc, laid.as_slice()) {
        Ok(module) => named(module, name),
        Err(fault) => Err(of_syntax(name, fault)),
    }
}

/// A module, if its header lets it have a name.
fn named(module: Module, name: NameId) -> Result<Module, OrderFault>
    ensures right { (names : List (List ℕ)) → IsKnown names name → AllDiffer names
        → ModuleIsOf name names «module»
        → IfOk result (λ found. (found ≡ «module»)
        × (allows (module_meaning names «module»).header (text_of names name) ≡ true)) }
    ensures wrong { (names : List (List ℕ)) → IsKnown names name → AllDiffer names
        → ModuleIsOf name names «module»
        → IfErr result (λ fault. (fault ≡ HeaderName name)
        × (allows (module_meaning names «module»).header (text_of names name) ≡ false)) }
    ensures count { IfErr result (λ fault. (count : ℕ) → FaultCount fault count count) }
{
    if allows(&module, name) {
        Ok(module)
    } else {
        Err(OrderFault::HeaderName(name))
    }
}

/// Whether a module's header lets it have a name.
fn allows(module: &Module, name: NameId) -> bool
    ensures { (names : List (List ℕ)) → IsKnown names name → AllDiffer names
        → ModuleIsOf name names «module».now
        → result ≡ allows (module_meaning names «module».now).header (text_of names name) }
{
    match module.header() {
        Some(header) => header.name().text == name,
        None => true,
    }
}

fn of_tokens(name: NameId, fault: LexFault) -> OrderFault
    ensures { result ≡ fault_of_tokens name fault }
{
    match fault {
        LexFault::SourceTooBig => OrderFault::SourceTooBig(name),
        LexFault::NotUtf8(offset) => OrderFault::NotUtf8(name, offset),
        LexFault::BadToken(place) => OrderFault::BadToken(place),
        LexFault::LiteralRange(place) => OrderFault::LiteralRange(place),
        LexFault::NoMemory => OrderFault::NoMemory,
    }
}

fn of_layout(fault: TooDeep) -> OrderFault
    ensures { result ≡ fault_of_layout fault }
{
    match fault {
        TooDeep::At(place) => OrderFault::TooDeep(place),
        TooDeep::NoMemory => OrderFault::NoMemory,
    }
}

fn of_syntax(name: NameId, fault: ParseFault) -> OrderFault
    ensures { result ≡ fault_of_syntax name fault }
{
    match fault {
        ParseFault::Syntax(line) => OrderFault::Syntax(name, line),
        ParseFault::TooLong(line) => OrderFault::TooLong(name, line),
        ParseFault::NoMemory => OrderFault::NoMemory,
    }
}
