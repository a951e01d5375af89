//! What the nodes of a text use and declare.
ghost use Rattle.std.specs.Prelude.{◌≡◌, [], ◌∷◌, IfOk, List, OnOk, map, option_map};
ghost use Rattle.std.specs.List.{All, flat_map};
ghost use Rattle.cu_lex.specs.Reading.{position_of};
ghost use Rattle.cu_syntax.specs.ExpressionMeaning.{expression_meaning};
ghost use Rattle.cu_syntax.specs.Names.{name_meaning};
ghost use Rattle.cu_syntax.specs.Owners.{ExpressionIsOf, NameIsOf, OperatorItemIsOf};
ghost use Rattle.cu_translation.specs.Dependencies.{operators_of, use_of, used_at};
ghost use Rattle.cu_translation.specs.LocalNames.{LocalFunction, Scope, local_named};
ghost use Rattle.cu_translation.specs.Meaning.{local_meaning};
ghost use Rattle.cu_translation.specs.Sites as text;
ghost use Rattle.cu_locals.specs.Text.{Text};
ghost use Rattle.cu_sites.specs.Meaning.{IsNode, IsScope, Stands};
ghost use Rattle.cu_sites.specs.Inside.Using.{Finds, operators_mean, usage_meaning, usage_of, usages_meaning};

use crate::binders::push_binders;
use crate::sites::{Node, Site, Sites};
use cu_names::Place;
use cu_syntax::{Expression, ExpressionNode, Name, OperatorItem};
use cu_translation::{Binder, Local, Position};
use std::alloc::{AllocError, Global};

/// What a node uses and declares, and where it stands.
#[derive(Drop)]
pub(crate) struct Usage {
    /// The place of the first token of the innermost local function around, if
    /// there is one.
    pub(crate) function: Option<Position>,
    /// How many local functions are around.
    pub(crate) depth: usize,
    pub(crate) used: Vec<Local>,
    pub(crate) declared: Vec<Binder>,
}

/// Adds the local function that begins here, on so many parameters.
fn push_function(found: &mut Vec<Local>, place: Place, parameters: usize) -> Result<(), AllocError>
    ensures { OnOk result (Finds found.old.items
        (LocalFunction (position_of place) parameters ∷ []) found.new.items) }
{
    found.push(Local::Function(Position::of(place), parameters))?;
    Ok(())
}

impl<'t> Sites<'t> {
    /// What a name means in a scope, if it is a local name.
    fn named(&self, scope: usize, name: Name) -> Option<Local>
        ensures { (t : Text) (found : Scope) → IsScope t self.now.entries.items scope found
            → NameIsOf t.owner t.names name
            → option_map local_meaning result ≡ local_named found (name_meaning t.names name) }
    {
        if name.qualifier.is_some() {
            return None;
        }
        let mut number = scope;
        while number > 0 {
            number -= 1;
            let Some(first) = self.entries.get(number) else {
                break;
            };
            if first.entry.text == name.text {
                return Some(first.entry.means);
            }
            number = first.around.min(number);
        }
        None
    }

    /// Adds what a name means in a scope, if it is a local name.
    fn push_use(&self, found: &mut Vec<Local>, scope: usize, name: Name) -> Result<(), AllocError>
        ensures { (t : Text) (names : Scope) → IsScope t self.now.entries.items scope names
            → NameIsOf t.owner t.names name
            → OnOk result (Finds found.old.items
            (use_of names (name_meaning t.names name)) found.new.items) }
    {
        if let Some(local) = self.named(scope, name) {
            found.push(local)?;
        }
        Ok(())
    }

    /// Adds what operators mean in a scope.
    fn push_operators(
        &self,
        found: &mut Vec<Local>,
        scope: usize,
        items: &[OperatorItem<'_>],
    ) -> Result<(), AllocError>
        ensures { (t : Text) (names : Scope) → IsScope t self.now.entries.items scope names
            → All (OperatorItemIsOf t.owner t.names) items.now
            → OnOk result (Finds found.old.items
            (operators_mean t.names names items.now) found.new.items) }
    {
        for item in items {
            self.push_use(found, scope, item.operator)?;
        }
        Ok(())
    }

    /// Adds what the operators of an expression mean in a scope.
    fn push_operation(
        &self,
        alloc: Global,
        found: &mut Vec<Local>,
        scope: usize,
        e: Expression<'_>,
    ) -> Result<(), AllocError>
        ensures { (t : Text) (names : Scope) → IsScope t self.now.entries.items scope names
            → ExpressionIsOf t.owner t.names e.entry
            → OnOk result (Finds found.old.items
            (flat_map (use_of names) (operators_of (expression_meaning t.names e.entry)))
            found.new.items) }
    {
        match e.node(alloc)? {
            ExpressionNode::Operators(items) => {
                self.push_operators(found, scope, items.rest.as_slice())
            }
            _ => Ok(()),
        }
    }

    /// Adds the local variables and functions that are used at a node. A lambda
    /// expression and a qualifier with a list use the function that they
    /// become.
    fn push_used(
        &self,
        alloc: Global,
        found: &mut Vec<Local>,
        node: &Node<'_>,
    ) -> Result<(), AllocError>
        ensures { (t : Text) (n : text.Node) (others : List text.Node)
            → IsNode t self.now.entries.items self.now.blocks.items node.now n others
            → OnOk result (Finds found.old.items (used_at n.spot.scope n.site) found.new.items) }
    {
        match &node.site {
            Site::Use(name, _) => self.push_use(found, node.spot.scope, *name),
            Site::Operation(e) => self.push_operation(alloc, found, node.spot.scope, *e),
            Site::Lambda(place, parameters, _) => push_function(found, *place, parameters.len()),
            Site::Generated(place, _, _, _) => push_function(found, *place, 1),
            Site::Matched(_) => Ok(()),
            Site::Function(_, _) => Ok(()),
            Site::Defined(_, _) => Ok(()),
            Site::Bound(_, _) => Ok(()),
            Site::Free(_) => Ok(()),
        }
    }

    /// What a node uses and declares.
    fn usage(&self, alloc: Global, node: &Node<'_>) -> Result<Usage, AllocError>
        ensures { (t : Text) (n : text.Node) (others : List text.Node)
            → IsNode t self.now.entries.items self.now.blocks.items node.now n others
            → IfOk result (λ found. usage_meaning found ≡ usage_of n) }
    {
        let mut used = Vec::new(alloc);
        self.push_used(alloc, &mut used, node)?;
        let mut declared = Vec::new(alloc);
        push_binders(alloc, &mut declared, &node.site)?;
        Ok(Usage {
            function: node.spot.function,
            depth: node.spot.depth,
            used,
            declared,
        })
    }

    /// What the nodes of the text use and declare, in its order.
    pub(crate) fn usages(&self, alloc: Global) -> Result<Vec<Usage>, AllocError>
        ensures { (t : Text) (nodes : List text.Node) → Stands t nodes self.now
            → IfOk result (λ found. usages_meaning found.items ≡ map usage_of nodes) }
    {
        let mut found = Vec::new(alloc);
        for node in &self.nodes {
            found.push(self.usage(alloc, node)?)?;
        }
        Ok(found)
    }
}
