//! What the items of a module declare.
ghost use Rattle.std.specs.Prelude.{◌≡◌, ◌∷◌, ◌++◌, [], List, ℕ, IfOk, OnOk, map};
ghost use Rattle.std.specs.List.{All};
ghost use Rattle.cu_names.specs.Texts.{AllDiffer};
ghost use Rattle.cu_names.specs.declared.names.NameId.{NameId};
ghost use Rattle.cu_syntax.specs.Names.{name_meaning};
ghost use Rattle.cu_syntax.specs.Owners.{ConstructorDeclarationIsOf, ItemIsOf, NameIsOf};
ghost use Rattle.cu_uses.specs.Binders.{Names, missing, repeated, second};
ghost use Rattle.cu_uses.specs.Demands.{Lacks, Repeats};
ghost use Rattle.cu_uses.specs.Telling.{HasTexts};
ghost use Rattle.cu_uses.specs.Inside.Blocks.{IsEmpty};
ghost use Rattle.cu_uses.specs.Gathered.{names_meaning};
ghost use Rattle.cu_uses.specs.Inside.Tops.{IsTop, Reads, Top, constructor_names, item_top, items_top, top};
ghost use Rattle.cu_uses.specs.Inside.Worlds.{Told, World};

use crate::block::Block;
use crate::first_fault::FirstFault;
use crate::lists::{tell_missing, tell_repeated};
use crate::text_set::TextSet;
use cu_syntax::{ConstructorDeclaration, Item, ItemNode, Name};
use std::alloc::{AllocError, Global};

/// What items declare, in the order of the text.
#[derive(Drop)]
pub(crate) struct TopLevel {
    /// Functions and constructors, and the names that have signatures.
    values: Block,
    /// Types and synonyms.
    types: Vec<Name>,
    /// Operators that have a fixity.
    fixed: Vec<Name>,
}

impl TopLevel {
    /// What no items declare.
    fn new(alloc: Global) -> TopLevel
        ensures values { IsEmpty result.values }
        ensures types { result.types.items ≡ [] }
        ensures fixed { result.fixed.items ≡ [] }
    {
        TopLevel {
            values: Block::new(alloc),
            types: Vec::new(alloc),
            fixed: Vec::new(alloc),
        }
    }

    /// Adds the operators of a fixity declaration.
    fn fixity(&mut self, operators: &[Name]) -> Result<(), AllocError>
        ensures { (owner : NameId) (names : List (List ℕ))
            → All (NameIsOf owner names) operators.now
            → OnOk result (Reads owner names self.old
            (top (Names []) [] [] (names_meaning names operators.now)) self.new) }
    {
        self.values.other();
        self.fixed.extend_from_slice(operators)?;
        Ok(())
    }

    /// Adds what a data type declares: the type and its constructors.
    fn data(
        &mut self,
        alloc: Global,
        name: Name,
        constructors: &[ConstructorDeclaration<'_>],
    ) -> Result<(), AllocError>
        ensures { (owner : NameId) (names : List (List ℕ)) → NameIsOf owner names name
            → All (ConstructorDeclarationIsOf owner names) constructors.now
            → OnOk result (Reads owner names self.old
            (top (Names (names_meaning names (constructor_names constructors.now))) []
            (name_meaning names name ∷ []) []) self.new) }
    {
        let declared = constructor_names(alloc, constructors)?;
        self.values.names(declared.as_slice())?;
        self.types.push(name)?;
        Ok(())
    }

    /// Adds a synonym of a type.
    fn synonym(&mut self, name: Name) -> Result<(), AllocError>
        ensures { (owner : NameId) (names : List (List ℕ)) → NameIsOf owner names name
            → OnOk result (Reads owner names self.old
            (top (Names []) [] (name_meaning names name ∷ []) []) self.new) }
    {
        self.values.other();
        self.types.push(name)?;
        Ok(())
    }

    /// Adds what an item declares.
    fn item(&mut self, alloc: Global, item: &Item) -> Result<(), AllocError>
        ensures { (owner : NameId) (names : List (List ℕ)) → AllDiffer names
            → ItemIsOf owner names item.now
            → OnOk result (Reads owner names self.old (item_top names item.now) self.new) }
    {
        match item.node(alloc)? {
            ItemNode::Import(_import) => {
                self.values.other();
                Ok(())
            }
            ItemNode::Fixity(_, _, _, operators) => self.fixity(operators.as_slice()),
            ItemNode::Data(_, name, _parameters, constructors) => {
                self.data(alloc, name, constructors.as_slice())
            }
            ItemNode::Synonym(_, name, _parameters, _) => self.synonym(name),
            ItemNode::Declaration(d) => self.values.top_declaration(alloc, d),
        }
    }

    /// What these items declare.
    pub(crate) fn of(alloc: Global, items: &[Item]) -> Result<TopLevel, AllocError>
        ensures { (owner : NameId) (names : List (List ℕ)) → AllDiffer names
            → All (ItemIsOf owner names) items.now
            → IfOk result (IsTop owner names (items_top names items.now)) }
    {
        let mut declared = TopLevel::new(alloc);
        for item in items {
            declared.item(alloc, item)?;
        }
        Ok(declared)
    }

    /// Tells second declarations.
    pub(crate) fn tell_second(
        &self,
        alloc: Global,
        first: &mut FirstFault,
    ) -> Result<(), AllocError>
        ensures { (w : World) (t : Top) → AllDiffer w.names → IsTop w.owner w.names t self.now
            → OnOk result (Told w first.old
            (map Repeats (second t.declared
            ++ (repeated [] t.types ++ (repeated [] t.signs ++ repeated [] t.fixes))))
            first.new) }
    {
        tell_repeated(alloc, self.values.once.as_slice(), first)?;
        tell_repeated(alloc, self.types.as_slice(), first)?;
        tell_repeated(alloc, self.values.signed.as_slice(), first)?;
        tell_repeated(alloc, self.fixed.as_slice(), first)
    }

    /// Tells signatures and fixities of what isn't known.
    pub(crate) fn tell_lacking(&self, known: &TextSet, first: &mut FirstFault)
        ensures { (w : World) (t : Top) (texts : List (List ℕ)) → IsTop w.owner w.names t self.now
            → HasTexts w.names texts known.now
            → Told w first.old (map Lacks (missing texts t.signs ++ missing texts t.fixes))
            first.new }
    {
        tell_missing(known, self.values.signed.as_slice(), first);
        tell_missing(known, self.fixed.as_slice(), first);
    }
}

/// The names of constructors.
fn constructor_names(
    alloc: Global,
    constructors: &[ConstructorDeclaration<'_>],
) -> Result<Vec<Name>, AllocError>
    ensures { IfOk result (λ found. found.items ≡ constructor_names constructors.now) }
{
    let mut found = Vec::new(alloc);
    for constructor in constructors {
        found.push(constructor.name)?;
    }
    Ok(found)
}
