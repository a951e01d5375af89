//! The entities of all modules as numbers.
ghost use Rattle.std.specs.Prelude.{◌≡◌, ◌&&◌, ◌++◌, ◌∷◌, [], List, ℕ, IfOk, OnOk, Some, nat_eq, take};
ghost use Rattle.std.specs.List.{All};
ghost use Rattle.cu_modules.specs.BuiltInEntities.{HasBuiltIn};
ghost use Rattle.cu_modules.specs.Ordering.{module_of, modules_of};
ghost use Rattle.cu_modules.specs.Reading.{HasModule};
ghost use Rattle.cu_modules.specs.Scopes.{Named};
ghost use Rattle.cu_names.specs.Texts.{AllDiffer, IsKnown, text_of};
ghost use Rattle.cu_toplevel.specs.EntityTables.{AreEntities, set_functions};
ghost use Rattle.cu_toplevel.specs.Listings.{IsListing, numbered_meaning};
ghost use Rattle.cu_translation.specs.Around as meant;
ghost use Rattle.cu_translation.specs.Meaning.{referent_meaning};
ghost use Rattle.cu_translation.specs.ModuleNames.{constructor_referent, fixity_of, function_referent, set_referent, synonym_named, type_named, type_of, value_of};
ghost use Rattle.cu_translation.specs.Numbered.{all_functions, all_synonyms, numbered, set_arity};
ghost use Rattle.cu_translation.specs.Parts.{counts};

use crate::declarations::Declarations;
use crate::fixities::FixityTable;
use crate::given::{SET_FUNCTIONS, add_given, found};
use crate::listing::{Listing, Numbered};
use crate::tuples::TupleNames;
use cu_calculus::{ConId, FunId, Head};
use cu_fixity::{CONS, Fixity};
use cu_kernel::{Counts, LocalHead, SynonymId, TypeId, TypeName};
use cu_modules::Module;
use cu_names::{NameId, Names};
use cu_translation::Referent;
use std::alloc::{AllocError, Global};

/// The entities of all modules as numbers, and the fixities that the modules
/// declare. Data types, constructors, synonyms and functions are each numbered
/// over all modules, in the order of the modules and then of the text; what is
/// built in comes first in its module.
#[derive(Drop)]
pub struct Entities {
    pub(crate) declarations: Declarations,
    /// The names of the functions that give all values of calls.
    pub(crate) set_functions: Listing,
    pub(crate) fixities: FixityTable,
    /// How many entities of each kind there are before each module.
    pub(crate) starts: Vec<Counts>,
    pub(crate) tuples: TupleNames,
    pub(crate) prelude: NameId,
    pub(crate) cons: NameId,
}

impl Entities {
    /// The entities of modules. The time is proportional to their texts.
    ///
    /// # Errors
    ///
    /// An allocation failure.
    pub fn of(alloc: Global, names: &Names, modules: &[Module]) -> Result<Entities, AllocError>
        requires built_in { HasBuiltIn names.now }
        requires has { All (HasModule names.now) modules.now }
        ensures { IfOk result (AreEntities names.now (modules_of names.now modules.now)) }
    {
        let mut entities = Entities::new(alloc, names)?;
        entities.add_modules(alloc, names, modules)?;
        Ok(entities)
    }

    /// The entities of no module.
    fn new(alloc: Global, names: &Names) -> Result<Entities, AllocError>
        requires built_in { HasBuiltIn names.now }
        ensures { IfOk result (AreEntities names.now []) }
    {
        // Called for its clause that the texts of the table differ.
        let _count = names.count();
        let prelude = found(names, "Prelude");
        let cons = found(names, ":");
        let tuples = TupleNames::of(alloc, names)?;
        let set_functions = set_functions(alloc, names)?;
        Ok(Entities {
            declarations: Declarations::new(alloc),
            set_functions,
            fixities: FixityTable::new(alloc),
            starts: Vec::new(alloc),
            tuples,
            prelude,
            cons,
        })
    }

    /// Adds the entities and fixities of further modules, one after another.
    fn add_modules(
        &mut self,
        alloc: Global,
        names: &Names,
        modules: &[Module],
    ) -> Result<(), AllocError>
        requires built_in { HasBuiltIn names.now }
        requires has { All (HasModule names.now) modules.now }
        ensures { (before : List Named) → AreEntities names.now before self.old
            → OnOk result
            (AreEntities names.now (before ++ modules_of names.now modules.now) self.new) }
    {
        'modules: for module in modules {
            self.add_module(alloc, names, module)?;
        }
        Ok(())
    }

    /// Adds the entities and fixities of the next module.
    fn add_module(
        &mut self,
        alloc: Global,
        names: &Names,
        module: &Module,
    ) -> Result<(), AllocError>
        requires built_in { HasBuiltIn names.now }
        requires has { HasModule names.now «module».now }
        ensures { (before : List Named) → AreEntities names.now before self.old
            → OnOk result
            (AreEntities names.now (before ++ module_of names.now «module».now ∷ []) self.new) }
    {
        let start = self.counts();
        self.starts.push(start)?;
        self.declarations.add_module(alloc, names, module)?;
        self.fixities.add(alloc, module)?;
        Ok(())
    }

    /// How many entities of each kind, and how many modules, there are.
    pub fn counts(&self) -> Counts
        ensures { (names : List (List ℕ)) (modules : List Named)
            → AreEntities names modules self.now → result ≡ counts modules }
    {
        Counts {
            types: self.declarations.types.count(),
            constructors: self.declarations.constructors.count(),
            functions: self.declarations.functions.count(),
            synonyms: self.declarations.synonyms.count(),
            modules: self.starts.len(),
        }
    }

    /// How many entities of each kind there are before the module of a number,
    /// or in all where there is no such module.
    pub fn counts_before(&self, module: u32) -> Counts
        ensures { (names : List (List ℕ)) (modules : List Named)
            → AreEntities names modules self.now → result ≡ counts (take «module» modules) }
    {
        match self.starts.get(module as usize) {
            Some(start) => *start,
            None => self.counts(),
        }
    }

    /// What the module `owner` declares under a name among functions and
    /// constructors.
    pub(crate) fn value_of(&self, owner: NameId, name: NameId) -> Referent
        ensures { (names : List (List ℕ)) (modules : List Named)
            → IsKnown names owner → IsKnown names name → AreEntities names modules self.now
            → referent_meaning result
            ≡ value_of modules (text_of names owner) (text_of names name) }
    {
        match self.declarations.constructors.find(owner, name) {
            Some(found) => constructor(found),
            None => self.function_of(owner, name),
        }
    }

    /// The function that the module `owner` declares under a name.
    fn function_of(&self, owner: NameId, name: NameId) -> Referent
        ensures { (names : List (List ℕ)) (modules : List Named)
            → IsKnown names owner → IsKnown names name → AreEntities names modules self.now
            → referent_meaning result ≡ function_referent
            (numbered (text_of names owner) (text_of names name) (all_functions modules))
            (set_referent (set_arity (text_of names owner) (text_of names name))) }
    {
        match self.declarations.functions.find(owner, name) {
            Some(found) => function(found),
            None => self.set_function_of(owner, name),
        }
    }

    /// The set functions of which a name is the name in the module `owner`.
    fn set_function_of(&self, owner: NameId, name: NameId) -> Referent
        ensures { (names : List (List ℕ)) (modules : List Named)
            → IsKnown names owner → IsKnown names name → AreEntities names modules self.now
            → referent_meaning result
            ≡ set_referent (set_arity (text_of names owner) (text_of names name)) }
    {
        match self.set_functions.find(owner, name) {
            Some(found) => Referent::SetFunction(found.arity),
            None => Referent::Nothing,
        }
    }

    /// The type that the module `owner` declares under a name.
    pub(crate) fn type_of(&self, owner: NameId, name: NameId) -> TypeName
        ensures { (names : List (List ℕ)) (modules : List Named)
            → IsKnown names owner → IsKnown names name → AreEntities names modules self.now
            → result ≡ type_of modules (text_of names owner) (text_of names name) }
    {
        match self.declarations.types.find(owner, name) {
            Some(found) => TypeName::Data(TypeId(found.number)),
            None => self.synonym_of(owner, name),
        }
    }

    /// The synonym that the module `owner` declares under a name.
    fn synonym_of(&self, owner: NameId, name: NameId) -> TypeName
        ensures { (names : List (List ℕ)) (modules : List Named)
            → IsKnown names owner → IsKnown names name → AreEntities names modules self.now
            → result ≡ synonym_named
            (numbered (text_of names owner) (text_of names name) (all_synonyms modules)) }
    {
        match self.declarations.synonyms.find(owner, name) {
            Some(found) => TypeName::Synonym(SynonymId(found.number)),
            None => TypeName::Data(TypeId(0)),
        }
    }

    /// The fixity of what the module `owner` declares under a name. That of `:`
    /// is built in.
    pub(crate) fn fixity_of(&self, owner: NameId, name: NameId) -> Fixity
        ensures { (names : List (List ℕ)) (modules : List Named)
            → IsKnown names owner → IsKnown names name → AreEntities names modules self.now
            → result ≡ fixity_of modules (text_of names owner) (text_of names name) }
    {
        if self.is_cons(owner, name) {
            return CONS;
        }
        self.fixities.find(owner, name)
    }

    /// Whether the name is that of `:` in the Prelude, the constructor that
    /// stands between a list's first element and the others.
    fn is_cons(&self, owner: NameId, name: NameId) -> bool
        ensures { result
            ≡ (nat_eq owner.0 self.now.prelude.0 && nat_eq name.0 self.now.cons.0) }
    {
        owner == self.prelude && name == self.cons
    }
}

/// The listing of the functions that give all values of calls.
fn set_functions(alloc: Global, names: &Names) -> Result<Listing, AllocError>
    requires built_in { HasBuiltIn names.now }
    ensures { IfOk result (IsListing names.now set_functions) }
{
    let mut listing = Listing::new(alloc);
    // Called for its clause that the texts of the table differ.
    let _count = names.count();
    let owner = found(names, "SetFunctions");
    add_given(names, owner, &SET_FUNCTIONS, &mut listing)?;
    Ok(listing)
}

/// The constructor of a number, as what a name refers to.
fn constructor(found: Numbered) -> Referent
    ensures { (other : meant.Referent)
        → referent_meaning result ≡ constructor_referent (Some (numbered_meaning found)) other }
{
    Referent::Callable(
        LocalHead::Global(Head::Con(ConId(found.number))),
        found.arity,
    )
}

/// The function of a number, as what a name refers to.
fn function(found: Numbered) -> Referent
    ensures { (other : meant.Referent)
        → referent_meaning result ≡ function_referent (Some (numbered_meaning found)) other }
{
    Referent::Callable(
        LocalHead::Global(Head::Fun(FunId(found.number))),
        found.arity,
    )
}
