//! The entities that the built-in operations and set functions speak of.
ghost use Rattle.std.specs.Prelude.{◌≡◌, List, ℕ};
ghost use Rattle.std.specs.Option.{unwrap_or};
ghost use Rattle.cu_modules.specs.BuiltInEntities.{HasBuiltIn, prelude_name};
ghost use Rattle.cu_modules.specs.Scopes.{Named};
ghost use Rattle.cu_names.specs.Texts.{IsKnown, text_of};
ghost use Rattle.cu_toplevel.specs.EntityTables.{AreEntities};
ghost use Rattle.cu_translation.specs.Meaning.{referent_meaning};
ghost use Rattle.cu_translation.specs.ModuleNames.{value_of};
ghost use Rattle.cu_translation.specs.Parts.{constructor_alone, function_in, special};

use crate::Entities;
use crate::built_in::named;
use crate::given::found;
use cu_calculus::{ConId, FunId, Head, Special};
use cu_kernel::LocalHead;
use cu_names::{NameId, Names};
use cu_translation::Referent;

/// The constructor that a name refers to, if it is one.
fn constructor_alone(referent: Referent) -> Option<ConId>
    ensures { result ≡ constructor_alone (referent_meaning referent) }
{
    match referent {
        Referent::Callable(LocalHead::Global(Head::Con(constructor)), _) => Some(constructor),
        _ => None,
    }
}

/// The function that a name refers to, or the first function, if it refers to
/// none.
fn function_in(referent: Referent) -> FunId
    ensures { result ≡ function_in (referent_meaning referent) }
{
    match referent {
        Referent::Callable(LocalHead::Global(Head::Fun(function)), _) => function,
        _ => FunId(0),
    }
}

/// The constructor that was found, or the first constructor, if none was found.
fn or_first(found: Option<ConId>) -> ConId
    ensures { result ≡ unwrap_or found (record { 0 = 0 }) }
{
    match found {
        Some(constructor) => constructor,
        None => ConId(0),
    }
}

impl Entities {
    /// The entities that the built-in operations and set functions speak of.
    pub fn special(&self, names: &Names) -> Special
        requires built_in { HasBuiltIn names.now }
        ensures { (modules : List Named) → AreEntities names.now modules self.now
            → result ≡ special modules }
    {
        let set_functions = found(names, "SetFunctions");
        Special {
            falsity: or_first(self.constructor_in(names, self.prelude, "False")),
            truth: or_first(self.constructor_in(names, self.prelude, "True")),
            nil: or_first(self.constructor_in(names, self.prelude, "[]")),
            cons: or_first(self.constructor_in(names, self.prelude, ":")),
            both: self.prelude_function(names, "&&"),
            values: self.constructor_in(names, set_functions, "Values"),
        }
    }

    /// The constructor that a module declares under a text, if it declares one.
    fn constructor_in(&self, names: &Names, owner: NameId, text: &str) -> Option<ConId>
        ensures { (modules : List Named)
            → IsKnown names.now owner → AreEntities names.now modules self.now
            → result ≡ constructor_alone (value_of modules (text_of names.now owner) text.now) }
    {
        match named(names, text) {
            Some(name) => constructor_alone(self.value_of(owner, name)),
            None => None,
        }
    }

    /// The function that the Prelude declares under a text, or the first
    /// function, if it declares none.
    fn prelude_function(&self, names: &Names, text: &str) -> FunId
        ensures { (modules : List Named) → AreEntities names.now modules self.now
            → result ≡ function_in (value_of modules prelude_name text.now) }
    {
        match named(names, text) {
            Some(name) => function_in(self.value_of(self.prelude, name)),
            None => FunId(0),
        }
    }
}
