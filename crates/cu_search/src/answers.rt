//! The text of an answer by itself.
ghost use Rattle.std.specs.Prelude.{◌≡◌, IfOk, map};
ghost use Rattle.cu_names.specs.Texts.{text_of};
ghost use Rattle.cu_search.specs.Lines.{answer_text};
ghost use Rattle.cu_values.specs.ProgramLabels.{labels_of};

use crate::lines::push_bindings;
use crate::page::Page;
use crate::wording::Wording;
use cu_kernel::{Goal, Program};
use cu_names::Names;
use cu_values::Value;
use std::alloc::{AllocError, Global};

/// The text of an answer of a goal, in UTF-8, as the answer's line in a listing
/// has it after the mark of the round.
///
/// # Errors
///
/// An allocation failure.
pub fn answer_text(
    alloc: Global,
    names: &Names,
    kernel: &Program,
    goal: &Goal,
    bindings: &[Value],
    value: &Value,
) -> Result<Vec<u8>, AllocError>
    ensures { IfOk result (λ text. text.items ≡ answer_text
        (record {
          labels = labels_of names.now kernel.now;
          variables = map (text_of names.now) goal.now.names.items;
        })
        bindings.now value.now) }
{
    let wording = Wording {
        kernel,
        names,
        goal,
    };
    let mut page = Page::with_room(alloc)?;
    page.clear();
    push_bindings(&mut page, &wording, bindings)?;
    page.push_value(&wording, value)?;
    Vec::from_slice(alloc, page.line.as_slice())
}
