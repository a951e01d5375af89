//! Names in a display.
ghost use Rattle.std.specs.Prelude.{◌≡◌, ◌++◌, OnOk, codes};
ghost use Rattle.std.specs.String.{string_bytes};
ghost use Rattle.cu_values.specs.Display.{head_text, in_parentheses, is_operator};
ghost use Rattle.cu_values.specs.Inside.LabelsOf.{labels_meaning};

use crate::labels::ProgramNames;
use cu_kernel::Head;
use itoa::Buffer;
use std::alloc::AllocError;

/// The characters of operators.
const SYMBOLS: &[u8] = b"~!@#$%^&*+-=<>?./|\\:";

/// Whether this is the name of an operator.
fn is_operator(name: &[u8]) -> bool
    ensures { result ≡ is_operator name.now }
{
    match name {
        [first, ..] => SYMBOLS.contains(first),
        [] => false,
    }
}

/// Writes a constructor's name; that of an operator in parentheses.
pub(crate) fn push_constructor(text: &mut String, name: &str) -> Result<(), AllocError>
    ensures { OnOk result (string_bytes text.new
        ≡ string_bytes text.old ++ in_parentheses (is_operator name.now) name.now) }
{
    if is_operator(name.as_bytes()) {
        text.push_str("(")?;
        text.push_str(name)?;
        text.push_str(")")
    } else {
        text.push_str(name)
    }
}

/// Writes the head of a partial application.
fn push_head(text: &mut String, names: &ProgramNames, head: Head) -> Result<(), AllocError>
    ensures { OnOk result (string_bytes text.new
        ≡ string_bytes text.old ++ head_text (labels_meaning names.now) head) }
{
    match head {
        Head::Fun(f) => text.push_str(names.function(f)),
        Head::Con(c) => text.push_str(names.constructor(c)),
        Head::Set(f) => {
            text.push_str("set")?;
            let mut buffer = Buffer::new();
            text.push_str(buffer.format(names.arity(f)))
        }
    }
}

/// Writes a partial application.
pub(crate) fn push_partial(
    text: &mut String,
    names: &ProgramNames,
    head: Head,
) -> Result<(), AllocError>
    ensures { OnOk result (string_bytes text.new
        ≡ string_bytes text.old
        ++ (codes "<" ++ (head_text (labels_meaning names.now) head ++ codes ">"))) }
{
    text.push_str("<")?;
    push_head(text, names, head)?;
    text.push_str(">")
}
