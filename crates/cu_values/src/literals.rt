//! Literals and variables in a display.
ghost use Rattle.std.specs.Prelude.{◌≡◌, ◌<◌, ◌++◌, OnOk};
ghost use Rattle.std.specs.String.{string_bytes};
ghost use Rattle.cu_values.specs.Display.{escaped, is_control, is_numeric, literal_text, variable_text};

use cu_kernel::Lit;
use itoa::Buffer;
use std::alloc::AllocError;

/// Whether this is a control character: below 32, or 127.
fn is_control(c: char) -> bool
    ensures { result ≡ is_control c }
{
    c < ' ' || c == '\u{7f}'
}

/// Whether a character is escaped by its number.
pub(crate) fn is_numeric(c: char) -> bool
    ensures { result ≡ is_numeric c }
{
    is_control(c) && !(c == '\t' || c == '\n' || c == '\r')
}

/// Writes a character of a literal that stands in these quotes.
pub(crate) fn push_escaped(text: &mut String, quote: char, c: char) -> Result<(), AllocError>
    requires { quote < 128 }
    ensures { OnOk result (string_bytes text.new ≡ string_bytes text.old ++ escaped quote c) }
{
    if c == '\\' {
        text.push_str("\\\\")
    } else if c == '\n' {
        text.push_str("\\n")
    } else if c == '\t' {
        text.push_str("\\t")
    } else if c == '\r' {
        text.push_str("\\r")
    } else if c == quote {
        text.push_str("\\")?;
        text.push(c)
    } else if is_control(c) {
        text.push_str("\\")?;
        let mut buffer = Buffer::new();
        text.push_str(buffer.format(c as u32))
    } else {
        text.push(c)
    }
}

/// Writes a literal.
pub(crate) fn push_literal(text: &mut String, literal: Lit) -> Result<(), AllocError>
    ensures { OnOk result (string_bytes text.new ≡ string_bytes text.old ++ literal_text literal) }
{
    match literal {
        Lit::Int(n) => {
            let mut buffer = Buffer::new();
            text.push_str(buffer.format(n))
        }
        Lit::Char(c) => {
            text.push_str("'")?;
            push_escaped(text, '\'', c)?;
            text.push_str("'")
        }
    }
}

/// Writes an unbound variable.
pub(crate) fn push_variable(text: &mut String, number: u32) -> Result<(), AllocError>
    ensures { OnOk result (string_bytes text.new ≡ string_bytes text.old ++ variable_text number) }
{
    text.push_str("_")?;
    let mut buffer = Buffer::new();
    text.push_str(buffer.format(number))
}
