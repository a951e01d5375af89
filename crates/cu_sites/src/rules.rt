//! Rules of functions, as they stand in a text.
ghost use Rattle.std.specs.Prelude.{IfOk};
ghost use Rattle.cu_syntax.specs.Declarations.{declaration_meaning};
ghost use Rattle.cu_syntax.specs.Answer.{item_meaning};
ghost use Rattle.cu_syntax.specs.Owners.{DeclarationIsOf, ItemIsOf};
ghost use Rattle.cu_translation.specs.Rules.{rule_in, rule_in_item};
ghost use Rattle.cu_locals.specs.Text.{Text};
ghost use Rattle.cu_sites.specs.Inside.RulesFound.{IsRuleIn};

use cu_names::Place;
use cu_syntax::{Declaration, DeclarationNode, Item, ItemNode, Name, Pattern, RightSide};
use std::alloc::{AllocError, Global};

/// A rule of a function.
#[derive(Drop)]
pub struct Rule<'t> {
    /// The place of the rule's first token.
    pub place: Place,
    pub name: Name,
    pub parameters: Vec<Pattern<'t>>,
    pub right: RightSide<'t>,
}

/// The rules of a function that follow one another: the first, and the others.
#[derive(Drop)]
pub struct Group<'t> {
    pub first: Rule<'t>,
    pub others: Vec<Rule<'t>>,
}

/// The rule that a declaration is, if it is one.
pub(crate) fn rule_in(alloc: Global, d: Declaration<'_>) -> Result<Option<Rule<'_>>, AllocError>
    ensures { (t : Text) → DeclarationIsOf t.owner t.names d.entry
        → IfOk result (IsRuleIn t (rule_in (declaration_meaning t.names d.entry))) }
{
    match d.node(alloc)? {
        DeclarationNode::FunctionRule(place, name, parameters, right) => Ok(Some(Rule {
            place,
            name,
            parameters,
            right,
        })),
        DeclarationNode::FreeVariables(_, _variables) => Ok(None),
        DeclarationNode::Signature(_, _functions, _) => Ok(None),
        DeclarationNode::PatternBinding(_, _, _) => Ok(None),
    }
}

/// The rule that an item of a module is, if it is one.
pub(crate) fn rule_in_item(alloc: Global, item: &Item) -> Result<Option<Rule<'_>>, AllocError>
    ensures { (t : Text) → ItemIsOf t.owner t.names item.now
        → IfOk result (IsRuleIn t (rule_in_item (item_meaning t.names item.now))) }
{
    match item.node(alloc)? {
        ItemNode::Declaration(d) => rule_in(alloc, d),
        ItemNode::Import(_import) => Ok(None),
        ItemNode::Fixity(_, _, _, _operators) => Ok(None),
        ItemNode::Data(_, _, _parameters, _constructors) => Ok(None),
        ItemNode::Synonym(_, _, _parameters, _) => Ok(None),
    }
}
