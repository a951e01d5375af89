//! What modules declare, kind by kind.
ghost use Rattle.std.specs.Prelude.{◌≡◌, List, ℕ, OnOk, map};
ghost use Rattle.std.specs.List.{All};
ghost use Rattle.cu_modules.specs.BuiltInEntities.{HasBuiltIn, prelude_name};
ghost use Rattle.cu_modules.specs.Ordering.{module_of};
ghost use Rattle.cu_modules.specs.Reading.{HasModule};
ghost use Rattle.cu_names.specs.Texts.{AllDiffer, IsKnown, text_of};
ghost use Rattle.cu_syntax.specs.Answer.{item_meaning};
ghost use Rattle.cu_syntax.specs.Items.{constructor_meaning};
ghost use Rattle.cu_syntax.specs.Owners.{ConstructorDeclarationIsOf, ItemIsOf};
ghost use Rattle.cu_toplevel.specs.Declarations.{AreListed, Lists, and_module, no_lists};
ghost use Rattle.cu_toplevel.specs.Inside.Gathering.{and_constructors, and_functions, and_given, and_item, and_items};

use crate::externals::{EXTERNALS, add_externals};
use crate::function_heads::heads;
use crate::given::{FIRST_CONSTRUCTORS, FIRST_TYPES, add_given};
use crate::listing::{Declared, Listing};
use cu_modules::Module;
use cu_names::{NameId, Names};
use cu_syntax::{ConstructorDeclaration, Item, ItemNode};
use std::alloc::{AllocError, Global};

/// The entities that modules declare, those of each kind in the order of their
/// numbers.
#[derive(Drop)]
pub(crate) struct Declarations {
    pub(crate) types: Listing,
    pub(crate) constructors: Listing,
    pub(crate) synonyms: Listing,
    pub(crate) functions: Listing,
}

impl Declarations {
    /// The declarations of no module.
    pub(crate) fn new(alloc: Global) -> Declarations
        ensures { (names : List (List ℕ)) → AreListed names no_lists result }
    {
        Declarations {
            types: Listing::new(alloc),
            constructors: Listing::new(alloc),
            synonyms: Listing::new(alloc),
            functions: Listing::new(alloc),
        }
    }

    /// Adds what the next module declares.
    ///
    /// # Errors
    ///
    /// An allocation failure. The declarations are of no use then.
    pub(crate) fn add_module(
        &mut self,
        alloc: Global,
        names: &Names,
        module: &Module,
    ) -> Result<(), AllocError>
        requires built_in { HasBuiltIn names.now }
        requires has { HasModule names.now «module».now }
        ensures { (before : Lists) → AllDiffer names.now → AreListed names.now before self.old
            → OnOk result
            (AreListed names.now (and_module (module_of names.now «module».now) before) self.new) }
    {
        self.add_given(names, module.name())?;
        self.add_items(alloc, module)?;
        self.add_functions(alloc, module)
    }

    /// Adds what the Prelude has without a declaration, if this is its name.
    fn add_given(&mut self, names: &Names, owner: NameId) -> Result<(), AllocError>
        requires built_in { HasBuiltIn names.now }
        requires known { IsKnown names.now owner }
        ensures { (before : Lists) → AllDiffer names.now → AreListed names.now before self.old
            → OnOk result
            (AreListed names.now (and_given (text_of names.now owner) before) self.new) }
    {
        if names.text(owner) == "Prelude" {
            return self.add_first(names, owner);
        }
        Ok(())
    }

    /// Adds what the Prelude has without a declaration.
    fn add_first(&mut self, names: &Names, owner: NameId) -> Result<(), AllocError>
        requires built_in { HasBuiltIn names.now }
        requires known { IsKnown names.now owner }
        requires prelude { text_of names.now owner ≡ prelude_name }
        ensures { (before : Lists) → AllDiffer names.now → AreListed names.now before self.old
            → OnOk result (AreListed names.now (and_given prelude_name before) self.new) }
    {
        add_given(names, owner, &FIRST_TYPES, &mut self.types)?;
        add_given(names, owner, &FIRST_CONSTRUCTORS, &mut self.constructors)?;
        add_externals(names, owner, &EXTERNALS, &mut self.functions)?;
        Ok(())
    }

    /// Adds the types, the constructors and the synonyms of a module's text.
    fn add_items(&mut self, alloc: Global, module: &Module) -> Result<(), AllocError>
        ensures { (names : List (List ℕ)) (before : Lists)
            → AllDiffer names → HasModule names «module».now → AreListed names before self.old
            → OnOk result (AreListed names (and_items (text_of names «module».now.name)
            (module_of names «module».now).syntax.items before) self.new) }
    {
        let owner = module.name();
        'items: for item in module.syntax().items() {
            self.add_item(alloc, owner, item)?;
        }
        Ok(())
    }

    /// Adds what an item declares, but no functions.
    fn add_item(&mut self, alloc: Global, owner: NameId, item: &Item) -> Result<(), AllocError>
        ensures { (names : List (List ℕ)) (before : Lists)
            → AllDiffer names → IsKnown names owner → ItemIsOf owner names item.now
            → AreListed names before self.old
            → OnOk result (AreListed names
            (and_item (text_of names owner) (item_meaning names item.now) before) self.new) }
    {
        match item.node(alloc)? {
            ItemNode::Data(_, name, parameters, constructors) => {
                self.types.add(Declared {
                    owner,
                    name: name.text,
                    arity: parameters.len(),
                })?;
                self.add_constructors(owner, constructors.as_slice())
            }
            ItemNode::Synonym(_, name, parameters, _) => {
                self.synonyms.add(Declared {
                    owner,
                    name: name.text,
                    arity: parameters.len(),
                })?;
                Ok(())
            }
            _ => Ok(()),
        }
    }

    /// Adds the constructors of a data type.
    fn add_constructors(
        &mut self,
        owner: NameId,
        constructors: &[ConstructorDeclaration<'_>],
    ) -> Result<(), AllocError>
        ensures { (names : List (List ℕ)) (before : Lists)
            → AllDiffer names → IsKnown names owner
            → All (ConstructorDeclarationIsOf owner names) constructors.now
            → AreListed names before self.old
            → OnOk result (AreListed names (and_constructors (text_of names owner)
            (map (constructor_meaning names) constructors.now) before) self.new) }
    {
        'constructors: for constructor in constructors {
            self.constructors.add(Declared {
                owner,
                name: constructor.name.text,
                arity: constructor.fields.len(),
            })?;
        }
        Ok(())
    }

    /// Adds the functions of a module's text.
    fn add_functions(&mut self, alloc: Global, module: &Module) -> Result<(), AllocError>
        ensures { (names : List (List ℕ)) (before : Lists)
            → AllDiffer names → HasModule names «module».now → AreListed names before self.old
            → OnOk result (AreListed names
            (and_functions (module_of names «module».now) before) self.new) }
    {
        let functions = heads(alloc, module)?;
        let owner = module.name();
        'functions: for head in functions.as_slice() {
            self.functions.add(Declared {
                owner,
                name: head.name,
                arity: head.arity,
            })?;
        }
        Ok(())
    }
}
