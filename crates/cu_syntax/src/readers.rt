//! What modules and goals are made of.
ghost use Rattle.std.specs.Prelude.{◌≡◌, ℕ, List, IfOk, IfSome, map};
ghost use Rattle.std.specs.List.{All};
ghost use Rattle.std.specs.Option.{option_copied, option_map};
ghost use Rattle.cu_lex.specs.Reading.{position_of};
ghost use Rattle.cu_names.specs.declared.names.NameId.{NameId};
ghost use Rattle.cu_syntax.specs.Answer.{goal_meaning, header_meaning, item_meaning, items_meaning, module_meaning};
ghost use Rattle.cu_syntax.specs.ExpressionMeaning.{expression_meaning};
ghost use Rattle.cu_syntax.specs.Items.{export_meaning, item_node};
ghost use Rattle.cu_syntax.specs.Names.{module_name_meaning, name_meaning};
ghost use Rattle.cu_syntax.specs.Owners.{ExpressionIsOf, ExportIsOf, GoalIsOf, HeaderIsOf, ItemIsOf, ItemNodeIsOf, ModuleIsOf, ModuleNameIsOf, NameIsOf, PlaceIsOf};

use crate::expressions::Expression;
use crate::item_forms::{exports, goal_variables, import, item};
use crate::items::{Export, ItemNode};
use crate::name::{ModuleName, Name};
use crate::symbol::Symbol;
use crate::text::{GoalText, Header, Item, Module};
use cu_names::Place;
use std::alloc::{AllocError, Global};

impl Module {
    /// The header, if the module has one.
    pub fn header(&self) -> Option<&Header>
        ensures meaning { (names : List (List ℕ))
            → option_map (header_meaning names) (option_copied result)
            ≡ (module_meaning names self.now).header }
        ensures owned { (owner : NameId) (names : List (List ℕ)) → ModuleIsOf owner names self.now
            → IfSome (option_copied result) (HeaderIsOf owner names) }
    {
        self.header.as_ref()
    }

    /// The items in the order of the text.
    pub fn items(&self) -> &[Item]
        ensures meaning { (names : List (List ℕ))
            → items_meaning names result.now ≡ (module_meaning names self.now).items }
        ensures owned { (owner : NameId) (names : List (List ℕ)) → ModuleIsOf owner names self.now
            → All (ItemIsOf owner names) result.now }
    {
        self.items.as_slice()
    }
}

impl Header {
    /// The place of the header's first token.
    pub fn place(&self) -> Place
        ensures position { (names : List (List ℕ))
            → position_of result ≡ (header_meaning names self.now).at }
        ensures owned { (owner : NameId) (names : List (List ℕ)) → HeaderIsOf owner names self.now
            → PlaceIsOf owner result }
    {
        self.parsed.root().place()
    }

    /// The name of the module.
    pub fn name(&self) -> ModuleName
        ensures meaning { (names : List (List ℕ))
            → module_name_meaning names result ≡ (header_meaning names self.now).name }
        ensures owned { (owner : NameId) (names : List (List ℕ)) → HeaderIsOf owner names self.now
            → ModuleNameIsOf owner names result }
    {
        self.parsed.root().part(1, Symbol::ModuleName).module_name()
    }

    /// The exports, where the header lists them.
    ///
    /// # Errors
    ///
    /// An allocation failure.
    pub fn exports(&self, alloc: Global) -> Result<Option<Vec<Export>>, AllocError>
        ensures meaning { (names : List (List ℕ))
            → IfOk result
            (λ found. option_map (λ exports. map (export_meaning names) exports.items) found
            ≡ (header_meaning names self.now).exports) }
        ensures owned { (owner : NameId) (names : List (List ℕ)) → HeaderIsOf owner names self.now
            → IfOk result (λ found. IfSome found
            (λ exports. All (ExportIsOf owner names) exports.items)) }
    {
        exports(alloc, self.parsed.root().part(2, Symbol::OptionalExports))
    }
}

impl Item {
    /// What the item is.
    ///
    /// # Errors
    ///
    /// An allocation failure.
    pub fn node(&self, alloc: Global) -> Result<ItemNode<'_>, AllocError>
        ensures meaning { (names : List (List ℕ))
            → IfOk result (λ node. item_node names node ≡ item_meaning names self.now) }
        ensures owned { (owner : NameId) (names : List (List ℕ)) → ItemIsOf owner names self.now
            → IfOk result (ItemNodeIsOf owner names) }
    {
        let tree = self.parsed.root();
        if self.is_import() {
            return Ok(ItemNode::Import(import(alloc, tree)?));
        }
        item(alloc, tree.chosen())
    }
}

impl GoalText {
    /// The goal's expression.
    pub fn expression(&self) -> Expression<'_>
        ensures meaning { (names : List (List ℕ))
            → expression_meaning names result ≡ (goal_meaning names self.now).expression }
        ensures owned { (owner : NameId) (names : List (List ℕ)) → GoalIsOf owner names self.now
            → ExpressionIsOf owner names result }
    {
        Expression::new(self.parsed.root().part(0, Symbol::Exp))
    }

    /// The variables that the goal declares free, in the order of the text.
    ///
    /// # Errors
    ///
    /// An allocation failure.
    pub fn free_variables(&self, alloc: Global) -> Result<Vec<Name>, AllocError>
        ensures meaning { (names : List (List ℕ))
            → IfOk result (λ found. map (name_meaning names) found.items
            ≡ (goal_meaning names self.now).free) }
        ensures owned { (owner : NameId) (names : List (List ℕ)) → GoalIsOf owner names self.now
            → IfOk result (λ found. All (NameIsOf owner names) found.items) }
    {
        goal_variables(alloc, self.parsed.root().part(1, Symbol::OptionalGoalWhere))
    }
}
