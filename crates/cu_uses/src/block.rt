//! What a block declares.
ghost use Rattle.std.specs.Prelude.{◌≡◌, ◌∷◌, ◌++◌, [], List, ℕ, IfOk, OnOk, map};
ghost use Rattle.std.specs.List.{All};
ghost use Rattle.cu_names.specs.Texts.{AllDiffer};
ghost use Rattle.cu_syntax.specs.declared.declarations.Declaration.{Declaration};
ghost use Rattle.cu_names.specs.declared.names.NameId.{NameId};
ghost use Rattle.cu_syntax.specs.Names.{name_meaning};
ghost use Rattle.cu_syntax.specs.Owners.{DeclarationIsOf, NameIsOf, PatternIsOf};
ghost use Rattle.cu_uses.specs.Binders.{Names, Rule, once};
ghost use Rattle.cu_uses.specs.Inside.Blocks.{Gathers, IsBlockOf, IsEmpty, block_asks, block_declares, block_signs, declares, is_function, signs};
ghost use Rattle.cu_uses.specs.Gathered.{Adds, names_meaning, pattern_binds};
ghost use Rattle.cu_uses.specs.Inside.Tops.{top_declares};
ghost use Rattle.cu_uses.specs.Inside.Worlds.{Told, World};

use crate::first_fault::FirstFault;
use crate::found::{Found, pattern};
use crate::lists::{first_places, tell_missing, tell_repeated, text_set};
use cu_names::NameId;
use cu_syntax::{Declaration, DeclarationNode, Name, Pattern};
use std::alloc::{AllocError, Global};

/// What declarations declare, in the order of the text.
#[derive(Drop)]
pub(crate) struct Block {
    /// The names that are declared.
    pub(crate) names: Vec<Name>,
    /// The names that are declared, where that of a function whose rules follow
    /// one another stands once.
    pub(crate) once: Vec<Name>,
    /// The function whose rules may go on in the next declaration.
    function: Option<NameId>,
    /// The names that have signatures.
    pub(crate) signed: Vec<Name>,
}

impl Block {
    /// A block without declarations.
    pub(crate) fn new(alloc: Global) -> Block
        ensures { IsEmpty result }
    {
        Block {
            names: Vec::new(alloc),
            once: Vec::new(alloc),
            function: None,
            signed: Vec::new(alloc),
        }
    }

    /// Adds a rule for a name.
    pub(crate) fn rule(&mut self, goes_on: bool, name: Name) -> Result<(), AllocError>
        ensures { (owner : NameId) (names : List (List ℕ)) → AllDiffer names
            → NameIsOf owner names name
            → OnOk result (Gathers owner names self.old
            (Rule goes_on (name_meaning names name) ∷ []) [] self.new) }
    {
        self.names.push(name)?;
        if is_function(self.function, name.text) {
            return Ok(());
        }
        self.once.push(name)?;
        self.function = if goes_on { Some(name.text) } else { None };
        Ok(())
    }

    /// Adds names that are declared together.
    pub(crate) fn names(&mut self, declared: &[Name]) -> Result<(), AllocError>
        ensures { (owner : NameId) (names : List (List ℕ)) → All (NameIsOf owner names) declared.now
            → OnOk result (Gathers owner names self.old
            (Names (names_meaning names declared.now) ∷ []) [] self.new) }
    {
        self.names.extend_from_slice(declared)?;
        self.once.extend_from_slice(declared)?;
        self.function = None;
        Ok(())
    }

    /// Notes a declaration that declares nothing: it ends the rules of the
    /// function before it.
    pub(crate) fn other(&mut self)
        ensures { (owner : NameId) (names : List (List ℕ))
            → Gathers owner names self.old (Names [] ∷ []) [] self.new }
    {
        self.function = None;
    }

    /// Adds the names of a signature.
    pub(crate) fn sign(&mut self, signed: &[Name]) -> Result<(), AllocError>
        ensures { (owner : NameId) (names : List (List ℕ)) → All (NameIsOf owner names) signed.now
            → OnOk result (Gathers owner names self.old []
            (names_meaning names signed.now) self.new) }
    {
        self.signed.extend_from_slice(signed)?;
        Ok(())
    }

    /// Adds the variables of a pattern, each once.
    fn bind(&mut self, alloc: Global, p: Pattern<'_>) -> Result<(), AllocError>
        ensures { (owner : NameId) (names : List (List ℕ)) → AllDiffer names
            → PatternIsOf owner names p.entry
            → OnOk result (Gathers owner names self.old
            (Names (once [] (pattern_binds names p.entry)) ∷ []) [] self.new) }
    {
        let mut found = Found::new(alloc);
        pattern(alloc, p, &mut found)?;
        let variables = first_places(alloc, found.variables.as_slice())?;
        self.names(variables.as_slice())
    }

    /// Adds what a declaration declares.
    pub(crate) fn declaration(
        &mut self,
        alloc: Global,
        d: Declaration<'_>,
    ) -> Result<(), AllocError>
        ensures { (owner : NameId) (names : List (List ℕ)) → AllDiffer names
            → DeclarationIsOf owner names d.entry
            → OnOk result (Gathers owner names self.old (declares names d.entry ∷ [])
            (signs names d.entry) self.new) }
    {
        match d.node(alloc)? {
            DeclarationNode::FreeVariables(_, variables) => self.names(variables.as_slice()),
            DeclarationNode::Signature(_, functions, _) => {
                self.other();
                self.sign(functions.as_slice())
            }
            DeclarationNode::FunctionRule(_, name, parameters, _) => {
                self.rule(!parameters.as_slice().is_empty(), name)
            }
            DeclarationNode::PatternBinding(_, p, _) => self.bind(alloc, p),
        }
    }

    /// Adds what a declaration declares at top level, where a name without
    /// parameters is a function's too.
    pub(crate) fn top_declaration(
        &mut self,
        alloc: Global,
        d: Declaration<'_>,
    ) -> Result<(), AllocError>
        ensures { (owner : NameId) (names : List (List ℕ)) → AllDiffer names
            → DeclarationIsOf owner names d.entry
            → OnOk result (Gathers owner names self.old (top_declares names d.entry ∷ [])
            (signs names d.entry) self.new) }
    {
        match d.node(alloc)? {
            DeclarationNode::FunctionRule(_, name, _parameters, _) => self.rule(true, name),
            DeclarationNode::Signature(_, functions, _) => {
                self.other();
                self.sign(functions.as_slice())
            }
            DeclarationNode::FreeVariables(_, _variables) => {
                self.other();
                Ok(())
            }
            DeclarationNode::PatternBinding(_, _, _) => {
                self.other();
                Ok(())
            }
        }
    }

    /// What these declarations declare.
    pub(crate) fn of(alloc: Global, ds: &[Declaration<'_>]) -> Result<Block, AllocError>
        ensures { (owner : NameId) (names : List (List ℕ)) → AllDiffer names
            → All (DeclarationIsOf owner names) ds.now
            → IfOk result (IsBlockOf owner names (block_declares names ds.now)
            (block_signs names ds.now)) }
    {
        let mut block = Block::new(alloc);
        for d in ds {
            block.declaration(alloc, *d)?;
        }
        Ok(block)
    }

    /// Tells second declarations, second signatures, and signatures without a
    /// declaration.
    pub(crate) fn tell(&self, alloc: Global, first: &mut FirstFault) -> Result<(), AllocError>
        ensures { (w : World) (ds : List Declaration) → AllDiffer w.names
            → IsBlockOf w.owner w.names (block_declares w.names ds)
            (block_signs w.names ds) self.now
            → OnOk result (Told w first.old (block_asks w.names ds) first.new) }
    {
        tell_repeated(alloc, self.once.as_slice(), first)?;
        tell_repeated(alloc, self.signed.as_slice(), first)?;
        let declared = text_set(alloc, self.names.as_slice())?;
        tell_missing(&declared, self.signed.as_slice(), first);
        Ok(())
    }
}

/// Whether a text is that of a function.
fn is_function(function: Option<NameId>, text: NameId) -> bool
    ensures { result ≡ is_function function text }
{
    match function {
        Some(function) => function == text,
        None => false,
    }
}
