//! The fixity declarations of modules, as programs have them.
ghost use Rattle.std.specs.Prelude.{◌≡◌, ◌++◌, List, ℕ, IfOk, OnOk, map};
ghost use Rattle.std.specs.List.{All};
ghost use Rattle.cu_modules.specs.Ordering.{module_of};
ghost use Rattle.cu_modules.specs.Reading.{HasModule};
ghost use Rattle.cu_names.specs.Texts.{AllDiffer};
ghost use Rattle.cu_names.specs.declared.names.NameId.{NameId};
ghost use Rattle.cu_syntax.specs.Answer.{item_meaning};
ghost use Rattle.cu_syntax.specs.Names.{name_meaning};
ghost use Rattle.cu_syntax.specs.Owners.{ItemIsOf, NameIsOf};
ghost use Rattle.cu_translation.specs.ModuleNames.{declaration, fixities_by, fixities_in};
ghost use Rattle.cu_translation.specs.Parts.{grouped_to, operator};

use cu_kernel::{Operator, Side};
use cu_modules::Module;
use cu_syntax as syntax;
use cu_syntax::{Item, ItemNode, Name};
use std::alloc::{AllocError, Global};

/// The side to which a fixity declaration groups, as programs have it.
fn grouped_to(side: syntax::Side) -> Side
    ensures { result ≡ grouped_to side }
{
    match side {
        syntax::Side::Left => Side::Left,
        syntax::Side::Right => Side::Right,
        syntax::Side::Neither => Side::Neither,
    }
}

/// The fixity declarations of a module, in the order of the text.
///
/// # Errors
///
/// An allocation failure.
pub fn fixity_declarations(alloc: Global, module: &Module) -> Result<Vec<Operator>, AllocError>
    ensures { (names : List (List ℕ)) → AllDiffer names → HasModule names «module».now
        → IfOk result (λ found. found.items
        ≡ map (operator names) (fixities_in (module_of names «module».now))) }
{
    let mut operators = Vec::new(alloc);
    'items: for item in module.syntax().items() {
        add_item(alloc, item, &mut operators)?;
    }
    Ok(operators)
}

/// Adds the fixity declarations of an item.
fn add_item(alloc: Global, item: &Item, operators: &mut Vec<Operator>) -> Result<(), AllocError>
    ensures { (owner : NameId) (names : List (List ℕ))
        → AllDiffer names → ItemIsOf owner names item.now
        → OnOk result (operators.new.items ≡ operators.old.items
        ++ map (operator names) (fixities_by (item_meaning names item.now))) }
{
    match item.node(alloc)? {
        ItemNode::Fixity(_, side, level, declared) => {
            add_all(declared.as_slice(), side, level, operators)
        }
        _ => Ok(()),
    }
}

/// Adds a declaration of one fixity for several operators.
fn add_all(
    declared: &[Name],
    side: syntax::Side,
    level: u32,
    operators: &mut Vec<Operator>,
) -> Result<(), AllocError>
    ensures { (owner : NameId) (names : List (List ℕ))
        → AllDiffer names → All (NameIsOf owner names) declared.now
        → OnOk result (operators.new.items ≡ operators.old.items
        ++ map (operator names) (map (declaration side level)
        (map (name_meaning names) declared.now))) }
{
    let to = grouped_to(side);
    'declared: for name in declared {
        operators.push(Operator {
            name: name.text,
            side: to,
            level,
        })?;
    }
    Ok(())
}
