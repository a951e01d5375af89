//! The fixities that modules declare.
ghost use Rattle.std.specs.Prelude.{◌≡◌, ◌++◌, ◌∷◌, [], List, ℕ, IfOk, OnOk, find, map};
ghost use Rattle.std.specs.List.{All};
ghost use Rattle.std.specs.Option.{option_copied, unwrap_or};
ghost use Rattle.std.specs.Str.{bytes_eq};
ghost use Rattle.cu_fixity.specs.Pieces.{undeclared};
ghost use Rattle.cu_modules.specs.Ordering.{module_of};
ghost use Rattle.cu_modules.specs.Reading.{HasModule};
ghost use Rattle.cu_modules.specs.Scopes.{Named};
ghost use Rattle.cu_names.specs.Texts.{AllDiffer, IsKnown, text_of};
ghost use Rattle.cu_syntax.specs.Answer.{item_meaning};
ghost use Rattle.cu_syntax.specs.Names.{name_meaning};
ghost use Rattle.cu_syntax.specs.Owners.{ItemIsOf, NameIsOf};
ghost use Rattle.cu_toplevel.specs.FixityTables.{AreFixities, Declares, is_named};
ghost use Rattle.cu_translation.specs.ModuleNames as meant;
ghost use Rattle.cu_translation.specs.ModuleNames.{declaration, fixities_by, fixities_in, fixity_declared};

use cu_fixity::{Fixity, UNDECLARED};
use cu_modules::Module;
use cu_names::NameId;
use cu_syntax::{Item, ItemNode, Name};
use indexmap::IndexMap;
use std::alloc::{AllocError, Global};

/// The fixities that a module declares. Of an operator that it declares twice
/// the first counts.
#[derive(Drop)]
pub(crate) struct ModuleFixities {
    pub(crate) of: IndexMap<NameId, Fixity>,
}

/// The fixities that modules declare, by the names of the modules.
#[derive(Drop)]
pub(crate) struct FixityTable {
    pub(crate) modules: IndexMap<NameId, ModuleFixities>,
}

/// The fixity that was found, or else the other.
fn found_or(found: Option<&Fixity>, other: Fixity) -> Fixity
    ensures { result ≡ unwrap_or (option_copied found.entry) other }
{
    match found {
        Some(first) => *first,
        None => other,
    }
}

impl ModuleFixities {
    /// No declarations of fixities.
    fn new(alloc: Global) -> ModuleFixities
        ensures { (names : List (List ℕ)) → Declares names [] result }
    {
        ModuleFixities {
            of: IndexMap::new(alloc),
        }
    }

    /// Adds the next declaration of a fixity.
    fn add(&mut self, operator: NameId, fixity: Fixity) -> Result<(), AllocError>
        ensures { (names : List (List ℕ)) (before : List meant.Declared)
            → AllDiffer names → IsKnown names operator → Declares names before self.old
            → OnOk result (Declares names (before
            ++ record { operator = text_of names operator; fixity = fixity } ∷ []) self.new) }
    {
        let first = found_or(self.of.get(&operator), fixity);
        self.of.insert(operator, first)?;
        Ok(())
    }

    /// Adds a declaration of one fixity for several operators.
    fn add_all(&mut self, operators: &[Name], fixity: Fixity) -> Result<(), AllocError>
        ensures { (owner : NameId) (names : List (List ℕ)) (before : List meant.Declared)
            → AllDiffer names → All (NameIsOf owner names) operators.now
            → Declares names before self.old
            → OnOk result (Declares names (before
            ++ map (declaration fixity.side fixity.level) (map (name_meaning names) operators.now))
            self.new) }
    {
        'operators: for operator in operators {
            self.add(operator.text, fixity)?;
        }
        Ok(())
    }

    /// Adds the fixities that an item declares.
    fn add_item(&mut self, alloc: Global, item: &Item) -> Result<(), AllocError>
        ensures { (owner : NameId) (names : List (List ℕ)) (before : List meant.Declared)
            → AllDiffer names → ItemIsOf owner names item.now → Declares names before self.old
            → OnOk result
            (Declares names (before ++ fixities_by (item_meaning names item.now)) self.new) }
    {
        match item.node(alloc)? {
            ItemNode::Fixity(_, side, level, operators) => {
                self.add_all(operators.as_slice(), Fixity { side, level })
            }
            _ => Ok(()),
        }
    }

    /// The fixities that a module declares.
    fn of(alloc: Global, module: &Module) -> Result<ModuleFixities, AllocError>
        ensures { (names : List (List ℕ)) → AllDiffer names → HasModule names «module».now
            → IfOk result (Declares names (fixities_in (module_of names «module».now))) }
    {
        let mut fixities = ModuleFixities::new(alloc);
        'items: for item in module.syntax().items() {
            fixities.add_item(alloc, item)?;
        }
        Ok(fixities)
    }
}

impl FixityTable {
    /// The fixities of no module.
    pub(crate) fn new(alloc: Global) -> FixityTable
        ensures { (names : List (List ℕ)) → AreFixities names [] result }
    {
        FixityTable {
            modules: IndexMap::new(alloc),
        }
    }

    /// Adds the fixities of the next module. Of two modules of one name the
    /// first counts.
    ///
    /// # Errors
    ///
    /// An allocation failure. The table is of no use then.
    pub(crate) fn add(&mut self, alloc: Global, module: &Module) -> Result<(), AllocError>
        ensures { (names : List (List ℕ)) (before : List Named)
            → AllDiffer names → HasModule names «module».now → AreFixities names before self.old
            → OnOk result
            (AreFixities names (before ++ module_of names «module».now ∷ []) self.new) }
    {
        let name = module.name();
        if self.modules.contains_key(&name) {
            return Ok(());
        }
        let fixities = ModuleFixities::of(alloc, module)?;
        self.modules.insert(name, fixities)?;
        Ok(())
    }

    /// The fixity that the module `owner` declares for what it has under a
    /// name.
    pub(crate) fn find(&self, owner: NameId, name: NameId) -> Fixity
        ensures { (names : List (List ℕ)) (modules : List Named)
            → IsKnown names owner → IsKnown names name → AreFixities names modules self.now
            → result ≡ unwrap_or (fixity_declared (text_of names name)
            (find (is_named (text_of names owner)) modules)) undeclared }
    {
        let Some(fixities) = self.modules.get(&owner) else {
            return UNDECLARED;
        };
        found_or(fixities.of.get(&name), UNDECLARED)
    }
}
