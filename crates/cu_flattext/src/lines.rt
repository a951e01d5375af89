//! What stands in the lines of a module's text.
ghost use Rattle.std.specs.Prelude.{◌≡◌, ◌++◌, OnOk, codes, decimal};
ghost use Rattle.cu_flattext.specs.Inside.Stands.{entity_meaning, lowered_of};
ghost use Rattle.cu_flattext.specs.Naming.{entity_text};
ghost use Rattle.cu_flattext.specs.Text.{external_text, operator_text, side_text};
ghost use Rattle.cu_flattext.specs.TypeTexts.{parameters_text, visibility_text};

use crate::calls::push_numbers;
use crate::page::{Entity, Page};
use crate::wording::Wording;
use cu_kernel::{Operator, Side};
use std::alloc::AllocError;

/// The word for the side on which an operator associates.
fn side_word(side: Side) -> &'static str
    ensures { result.now ≡ side_text side }
{
    match side {
        Side::Left => "InfixlOp",
        Side::Right => "InfixrOp",
        Side::Neither => "InfixOp",
    }
}

/// Writes the head of a data type or a synonym: a word, its name, whether it
/// is public, and its parameters.
pub(crate) fn push_type_head(
    page: &mut Page,
    word: &str,
    entity: Entity,
    public: bool,
    arity: u32,
) -> Result<(), AllocError>
    ensures { OnOk result (page.new.text.items ≡ page.old.text.items
        ++ (word.now ++ (entity_text (entity_meaning entity.entry) ++ (codes " "
        ++ (visibility_text public ++ (codes " " ++ parameters_text arity)))))) }
{
    page.push_str(word)?;
    page.push_entity(entity)?;
    page.push_str(" ")?;
    page.push_visibility(public)?;
    page.push_str(" ")?;
    push_numbers(page, 0, arity as u64)
}

/// Writes the head of a constructor or a function: a word, its name, how many
/// arguments it takes, and whether it is public.
pub(crate) fn push_counted(
    page: &mut Page,
    word: &str,
    entity: Entity,
    count: u64,
    public: bool,
) -> Result<(), AllocError>
    ensures { OnOk result (page.new.text.items ≡ page.old.text.items
        ++ (word.now ++ (entity_text (entity_meaning entity.entry) ++ (codes " "
        ++ (decimal count ++ (codes " " ++ visibility_text public)))))) }
{
    page.push_str(word)?;
    page.push_entity(entity)?;
    page.push_str(" ")?;
    page.push_number(count)?;
    page.push_str(" ")?;
    page.push_visibility(public)
}

/// Writes the line of an operator of the module with an index.
pub(crate) fn push_operator(
    page: &mut Page,
    wording: &Wording,
    owner: u32,
    operator: Operator,
) -> Result<(), AllocError>
    ensures { OnOk result (page.new.text.items
        ≡ page.old.text.items ++ operator_text (lowered_of wording.now) owner operator) }
{
    page.push_str("Op ")?;
    page.push_entity(wording.entity(owner, operator.name))?;
    page.push_str(" ")?;
    page.push_str(side_word(operator.side))?;
    page.push_str(" ")?;
    page.push_number(operator.level as u64)
}

/// Writes what stands for the rule of a function that is built in.
#[tactic(auto, using(crate::proofs::Escaping::escaped_path))]
pub(crate) fn push_external(page: &mut Page, entity: Entity) -> Result<(), AllocError>
    ensures { OnOk result (page.new.text.items
        ≡ page.old.text.items ++ external_text (entity_meaning entity.entry)) }
{
    page.push_str("External ")?;
    page.push_str("\"")?;
    page.push_escaped(entity.owner)?;
    page.push_str(".")?;
    page.push_escaped(entity.name)?;
    page.push_str("\"")
}
