//! The functions of a module, as their first rules tell.
ghost use Rattle.std.specs.Prelude.{◌≡◌, ◌++◌, List, ℕ, IfOk, IfSome, Option, map};
ghost use Rattle.std.specs.List.{All};
ghost use Rattle.std.specs.Option.{option_map};
ghost use Rattle.cu_modules.specs.Ordering.{module_of};
ghost use Rattle.cu_modules.specs.Reading.{HasModule};
ghost use Rattle.cu_names.specs.Texts.{AllDiffer, IsKnown};
ghost use Rattle.cu_names.specs.declared.names.NameId.{NameId};
ghost use Rattle.cu_syntax.specs.Answer.{item_meaning};
ghost use Rattle.cu_syntax.specs.Owners.{ItemIsOf};
ghost use Rattle.cu_toplevel.specs.Heads as meant;
ghost use Rattle.cu_toplevel.specs.Heads.{AreHeads, HeadIsOf, head_meaning, head_of_rule};
ghost use Rattle.cu_toplevel.specs.Inside.Heads.{IsBegun, begun_with, heads_with};
ghost use Rattle.cu_translation.specs.Numbered.{groups_in};
ghost use Rattle.cu_translation.specs.Rules.{Begun, rule_in_item};

use cu_modules::Module;
use cu_names::{NameId, Place};
use cu_syntax::{DeclarationNode, Item, ItemNode};
use std::alloc::{AllocError, Global};

/// A function of a module, as its first rule tells.
#[derive(Clone, Copy, Debug)]
pub struct FunctionHead {
    pub name: NameId,
    /// How many parameters the function takes.
    pub arity: usize,
    /// The place of the first token of the function's first rule.
    pub place: Place,
}

/// The functions of a module, in the order of the text. Rules of one name that
/// follow one another at once are those of one function.
///
/// # Errors
///
/// An allocation failure.
pub fn heads(alloc: Global, module: &Module) -> Result<Vec<FunctionHead>, AllocError>
    ensures { (names : List (List ℕ)) → AllDiffer names → HasModule names «module».now
        → IfOk result (λ found. AreHeads «module».now.name names
        (groups_in (module_of names «module».now)) found.items) }
{
    let mut heads = Vec::new(alloc);
    let mut begun = None;
    'items: for item in module.syntax().items() {
        begun = add_head(alloc, item, begun, &mut heads)?;
    }
    Ok(heads)
}

/// Adds the function that an item begins, if it is the first rule of one, where
/// the item before belongs to a function of this name. Gives the name of the
/// function to which the item belongs.
fn add_head(
    alloc: Global,
    item: &Item,
    begun: Option<NameId>,
    heads: &mut Vec<FunctionHead>,
) -> Result<Option<NameId>, AllocError>
    ensures name { (owner : NameId) (names : List (List ℕ)) (before : Option Begun)
        → AllDiffer names → ItemIsOf owner names item.now → IsBegun names before begun
        → IfOk result (IsBegun names
        (begun_with before (rule_in_item (item_meaning names item.now)))) }
    ensures heads { (owner : NameId) (names : List (List ℕ)) (before : Option Begun)
        (first : List meant.Head)
        → AllDiffer names → ItemIsOf owner names item.now → IsBegun names before begun
        → map (head_meaning names) heads.old.items ≡ first
        → IfOk result (λ _. map (head_meaning names) heads.new.items
        ≡ first ++ heads_with before (rule_in_item (item_meaning names item.now))) }
    ensures owned { (owner : NameId) (names : List (List ℕ))
        → ItemIsOf owner names item.now → All (HeadIsOf owner names) heads.old.items
        → IfOk result (λ _. All (HeadIsOf owner names) heads.new.items) }
{
    let Some(head) = head_of(alloc, item)? else {
        return Ok(None);
    };
    if begun == Some(head.name) {
        return Ok(begun);
    }
    heads.push(head)?;
    Ok(Some(head.name))
}

/// What an item tells of its function, if it is a rule.
fn head_of(alloc: Global, item: &Item) -> Result<Option<FunctionHead>, AllocError>
    ensures meaning { (names : List (List ℕ))
        → IfOk result (λ found. option_map (head_meaning names) found
        ≡ option_map head_of_rule (rule_in_item (item_meaning names item.now))) }
    ensures owned { (owner : NameId) (names : List (List ℕ)) → ItemIsOf owner names item.now
        → IfOk result (λ found. IfSome found (HeadIsOf owner names)) }
{
    match item.node(alloc)? {
        ItemNode::Declaration(declaration) => match declaration.node(alloc)? {
            DeclarationNode::FunctionRule(place, name, parameters, _) => Ok(Some(FunctionHead {
                name: name.text,
                arity: parameters.len(),
                place,
            })),
            _ => Ok(None),
        },
        _ => Ok(None),
    }
}
