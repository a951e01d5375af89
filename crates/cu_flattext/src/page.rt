//! The piece of a text that is being made.
ghost use Rattle.std.specs.Prelude.{◌≡◌, ◌++◌, [], IfOk, OnOk, decimal};
ghost use Rattle.std.specs.List.{flat_map};
ghost use Rattle.cu_flattext.specs.ExpressionTexts.{literal_text};
ghost use Rattle.cu_flattext.specs.Naming.{comma_text, entity_text, escaped_byte, quoted};
ghost use Rattle.cu_flattext.specs.TypeTexts.{visibility_text};
ghost use Rattle.cu_flattext.specs.Inside.Stands.{entity_meaning};

use cu_flat::Lit;
use itoa::Buffer;
use std::alloc::{AllocError, Global};

/// An entity: the name of the module that declares it, and its own name.
#[derive(Clone, Copy)]
pub(crate) struct Entity<'p> {
    pub(crate) owner: &'p str,
    pub(crate) name: &'p str,
}

/// The length in bytes from which on a piece is given to the output.
pub(crate) const PIECE: usize = 4096;

/// A piece of a text, before it is given to the output.
#[derive(Drop)]
pub(crate) struct Page {
    pub(crate) text: Vec<u8>,
}

impl Page {
    /// An empty page with room for a piece.
    pub(crate) fn with_room(alloc: Global) -> Result<Page, AllocError>
        ensures { IfOk result (λ page. page.text.items ≡ []) }
    {
        Ok(Page {
            text: Vec::with_capacity(alloc, PIECE)?,
        })
    }

    /// Writes a text.
    pub(crate) fn push_str(&mut self, text: &str) -> Result<(), AllocError>
        ensures { OnOk result (self.new.text.items ≡ self.old.text.items ++ text.now) }
    {
        self.text.extend_from_slice(text.as_bytes())
    }

    /// Writes a comma, where an element stands before the next one.
    pub(crate) fn push_comma(&mut self, follows: bool) -> Result<(), AllocError>
        ensures { OnOk result (self.new.text.items ≡ self.old.text.items ++ comma_text follows) }
    {
        if follows { self.push_str(",") } else { Ok(()) }
    }

    /// Writes a number.
    pub(crate) fn push_number(&mut self, number: u64) -> Result<(), AllocError>
        ensures { OnOk result (self.new.text.items ≡ self.old.text.items ++ decimal number) }
    {
        let mut buffer = Buffer::new();
        self.push_str(buffer.format(number))
    }

    /// Writes a byte, twice where it is a backslash.
    fn push_escaped_byte(&mut self, byte: u8) -> Result<(), AllocError>
        ensures { OnOk result (self.new.text.items ≡ self.old.text.items ++ escaped_byte byte) }
    {
        if byte == b'\\' {
            self.push_str("\\\\")
        } else {
            self.text.push(byte)?;
            Ok(())
        }
    }

    /// Writes a text in which a backslash stands twice.
    pub(crate) fn push_escaped(&mut self, text: &str) -> Result<(), AllocError>
        ensures { OnOk result (self.new.text.items
            ≡ self.old.text.items ++ flat_map escaped_byte text.now) }
    {
        for byte in text.as_bytes() {
            self.push_escaped_byte(*byte)?;
        }
        Ok(())
    }

    /// Writes a text in quotes.
    pub(crate) fn push_quoted(&mut self, text: &str) -> Result<(), AllocError>
        ensures { OnOk result (self.new.text.items ≡ self.old.text.items ++ quoted text.now) }
    {
        self.push_str("\"")?;
        self.push_escaped(text)?;
        self.push_str("\"")
    }

    /// Writes the name of an entity.
    pub(crate) fn push_entity(&mut self, entity: Entity) -> Result<(), AllocError>
        ensures { OnOk result (self.new.text.items
            ≡ self.old.text.items ++ entity_text (entity_meaning entity.entry)) }
    {
        self.push_str("(")?;
        self.push_quoted(entity.owner)?;
        self.push_str(",")?;
        self.push_quoted(entity.name)?;
        self.push_str(")")
    }

    /// Writes a literal.
    pub(crate) fn push_literal(&mut self, literal: Lit) -> Result<(), AllocError>
        ensures { OnOk result (self.new.text.items ≡ self.old.text.items ++ literal_text literal) }
    {
        let mut buffer = Buffer::new();
        match literal {
            Lit::Int(n) if n < 0 => {
                self.push_str("Intc (")?;
                self.push_str(buffer.format(n))?;
                self.push_str(")")
            }
            Lit::Int(n) => {
                self.push_str("Intc ")?;
                self.push_str(buffer.format(n))
            }
            Lit::Char(c) => {
                self.push_str("Charc ")?;
                self.push_str(buffer.format(c as u32))
            }
        }
    }

    /// Writes whether an entity is public.
    pub(crate) fn push_visibility(&mut self, public: bool) -> Result<(), AllocError>
        ensures { OnOk result (self.new.text.items
            ≡ self.old.text.items ++ visibility_text public) }
    {
        if public {
            self.push_str("Public")
        } else {
            self.push_str("Private")
        }
    }
}
