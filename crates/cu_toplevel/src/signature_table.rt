//! The types that the signatures of modules declare.
ghost use Rattle.std.specs.Prelude.{◌≡◌, List, None, Option, ℕ, IfOk, IfSome, OnOk, map};
ghost use Rattle.std.specs.List.{All};
ghost use Rattle.std.specs.Option.{option_copied, option_map, unwrap_or};
ghost use Rattle.cu_modules.specs.Ordering.{module_of};
ghost use Rattle.cu_modules.specs.Reading.{HasModule};
ghost use Rattle.cu_names.specs.Texts.{AllDiffer, IsKnown, text_of};
ghost use Rattle.cu_names.specs.declared.names.NameId.{NameId};
ghost use Rattle.cu_syntax.specs.Answer.{item_meaning};
ghost use Rattle.cu_syntax.specs.Declarations.{declaration_meaning};
ghost use Rattle.cu_syntax.specs.Names.{name_meaning};
ghost use Rattle.cu_syntax.specs.Owners.{DeclarationIsOf, ItemIsOf, NameIsOf, TypeIsOf};
ghost use Rattle.cu_syntax.specs.Syntax as meant;
ghost use Rattle.cu_syntax.specs.Types.{type_meaning};
ghost use Rattle.cu_toplevel.specs.Inside.SignatureTables.{AreSignatures, and_one, and_several};
ghost use Rattle.cu_translation.specs.LocalFunctions.{or_else, signature_in};
ghost use Rattle.cu_translation.specs.Parts.{signature_by, signature_of};

use cu_modules::Module;
use cu_names::NameId;
use cu_syntax::{Declaration, DeclarationNode, Item, ItemNode, Name, TypeTerm};
use indexmap::IndexMap;
use std::alloc::{AllocError, Global};

/// The types that the signatures of a module declare, by the names of the
/// functions. Of two signatures of one name the first counts.
#[derive(Drop)]
pub(crate) struct Signatures<'t> {
    pub(crate) of: IndexMap<NameId, TypeTerm<'t>>,
}

/// The type that was found, or else the other.
fn found_or<'t>(found: Option<&TypeTerm<'t>>, other: TypeTerm<'t>) -> TypeTerm<'t>
    ensures { result ≡ unwrap_or (option_copied found.entry) other.entry }
{
    match found {
        Some(first) => *first,
        None => other,
    }
}

impl<'t> Signatures<'t> {
    /// No signatures.
    fn new(alloc: Global) -> Signatures<'t>
        ensures { (owner : NameId) (names : List (List ℕ))
            → AreSignatures owner names (λ text. None) result }
    {
        Signatures {
            of: IndexMap::new(alloc),
        }
    }

    /// Adds the type of a function, unless it has one.
    fn add(&mut self, function: NameId, declared: TypeTerm<'t>) -> Result<(), AllocError>
        ensures { (owner : NameId) (names : List (List ℕ))
            (told : List ℕ → Option meant.TypeTerm)
            → AllDiffer names → IsKnown names function → TypeIsOf owner names declared.entry
            → AreSignatures owner names told self.old
            → OnOk result (AreSignatures owner names (and_one (text_of names function)
            (type_meaning names declared.entry) told) self.new) }
    {
        let first = found_or(self.of.get(&function), declared);
        self.of.insert(function, first)?;
        Ok(())
    }

    /// Adds one type for several functions, except those that have one.
    fn add_all(&mut self, functions: &[Name], declared: TypeTerm<'t>) -> Result<(), AllocError>
        ensures { (owner : NameId) (names : List (List ℕ))
            (told : List ℕ → Option meant.TypeTerm)
            → AllDiffer names → All (NameIsOf owner names) functions.now
            → TypeIsOf owner names declared.entry → AreSignatures owner names told self.old
            → OnOk result (AreSignatures owner names
            (and_several (map (name_meaning names) functions.now)
            (type_meaning names declared.entry) told) self.new) }
    {
        'functions: for function in functions {
            self.add(function.text, declared)?;
        }
        Ok(())
    }

    /// Adds the types that a declaration declares.
    fn add_declaration(
        &mut self,
        alloc: Global,
        declaration: Declaration<'t>,
    ) -> Result<(), AllocError>
        ensures { (owner : NameId) (names : List (List ℕ))
            (told : List ℕ → Option meant.TypeTerm)
            → AllDiffer names → DeclarationIsOf owner names declaration.entry
            → AreSignatures owner names told self.old
            → OnOk result (AreSignatures owner names (λ text. or_else (told text)
            (signature_in text (declaration_meaning names declaration.entry))) self.new) }
    {
        match declaration.node(alloc)? {
            DeclarationNode::Signature(_, functions, declared) => {
                self.add_all(functions.as_slice(), declared)
            }
            _ => Ok(()),
        }
    }

    /// Adds the types that an item declares.
    fn add_item(&mut self, alloc: Global, item: &'t Item) -> Result<(), AllocError>
        ensures { (owner : NameId) (names : List (List ℕ))
            (told : List ℕ → Option meant.TypeTerm)
            → AllDiffer names → ItemIsOf owner names item.now
            → AreSignatures owner names told self.old
            → OnOk result (AreSignatures owner names (λ text. or_else (told text)
            (signature_by text (item_meaning names item.now))) self.new) }
    {
        match item.node(alloc)? {
            ItemNode::Declaration(declaration) => self.add_declaration(alloc, declaration),
            _ => Ok(()),
        }
    }

    /// The signatures of a module.
    ///
    /// # Errors
    ///
    /// An allocation failure.
    pub(crate) fn of(alloc: Global, module: &'t Module) -> Result<Signatures<'t>, AllocError>
        ensures { (names : List (List ℕ)) → AllDiffer names → HasModule names «module».now
            → IfOk result (AreSignatures «module».now.name names
            (λ text. signature_of text (module_of names «module».now).syntax.items)) }
    {
        let mut signatures = Signatures::new(alloc);
        'items: for item in module.syntax().items() {
            signatures.add_item(alloc, item)?;
        }
        Ok(signatures)
    }

    /// The type that a signature declares of a function, if there is one.
    pub(crate) fn find(&self, function: NameId) -> Option<TypeTerm<'t>>
        ensures meaning { (owner : NameId) (names : List (List ℕ))
            (told : List ℕ → Option meant.TypeTerm)
            → IsKnown names function → AreSignatures owner names told self.now
            → option_map (type_meaning names) result ≡ told (text_of names function) }
        ensures owned { (owner : NameId) (names : List (List ℕ))
            (told : List ℕ → Option meant.TypeTerm)
            → IsKnown names function → AreSignatures owner names told self.now
            → IfSome result (TypeIsOf owner names) }
    {
        self.of.get(&function).copied()
    }
}
