//! What is written of numbers, literals and heads.
ghost use Rattle.std.specs.Prelude.{◌≡◌, ◌++◌, OnOk, decimal};
ghost use Rattle.cu_prooftext.specs.Text.{count_text, head_text, literal_text, mode_text};

use cu_kernel::{Head, Lit, Mode};
use itoa::Buffer;
use std::alloc::AllocError;

/// Writes a number in decimal.
pub(crate) fn write_number(out: &mut Vec<u8>, number: usize) -> Result<(), AllocError>
    ensures { OnOk result (out.new.items ≡ out.old.items ++ decimal number) }
{
    let mut buffer = Buffer::new();
    out.extend_from_slice(buffer.format(number).as_bytes())
}

/// Writes how many parts follow.
pub(crate) fn write_count(out: &mut Vec<u8>, count: usize) -> Result<(), AllocError>
    ensures { OnOk result (out.new.items ≡ out.old.items ++ count_text count) }
{
    out.extend_from_slice(b"/")?;
    write_number(out, count)
}

/// Writes a literal.
pub(crate) fn write_literal(out: &mut Vec<u8>, literal: Lit) -> Result<(), AllocError>
    ensures { OnOk result (out.new.items ≡ out.old.items ++ literal_text literal) }
{
    match literal {
        Lit::Int(number) => {
            out.extend_from_slice(b"i")?;
            let mut buffer = Buffer::new();
            out.extend_from_slice(buffer.format(number).as_bytes())
        }
        Lit::Char(character) => {
            out.extend_from_slice(b"h")?;
            write_number(out, character as usize)
        }
    }
}

/// Writes a head.
pub(crate) fn write_head(out: &mut Vec<u8>, head: Head) -> Result<(), AllocError>
    ensures { OnOk result (out.new.items ≡ out.old.items ++ head_text head) }
{
    match head {
        Head::Fun(function) => {
            out.extend_from_slice(b"f")?;
            write_number(out, function.0)
        }
        Head::Con(constructor) => {
            out.extend_from_slice(b"c")?;
            write_number(out, constructor.0)
        }
        Head::Set(function) => {
            out.extend_from_slice(b"s")?;
            write_number(out, function.0)
        }
    }
}

/// Writes the mode of a case distinction.
fn write_mode(out: &mut Vec<u8>, mode: Mode) -> Result<(), AllocError>
    ensures { OnOk result (out.new.items ≡ out.old.items ++ mode_text mode) }
{
    match mode {
        Mode::Rigid => out.extend_from_slice(b"r"),
        Mode::Flex => out.extend_from_slice(b"f"),
    }
}

/// Writes the mode of a case distinction, and how many alternatives it has.
pub(crate) fn write_case(out: &mut Vec<u8>, mode: Mode, count: usize) -> Result<(), AllocError>
    ensures { OnOk result (out.new.items
        ≡ out.old.items ++ (mode_text mode ++ count_text count)) }
{
    write_mode(out, mode)?;
    write_count(out, count)
}
