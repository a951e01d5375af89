//! The characters of string literals.
ghost use Rattle.std.specs.Prelude.{◌≡◌, ◌++◌, ◌∷◌, [], length, IfOk, IsTrue, OnErr, OnOk, ◌↔◌};

use std::alloc::{AllocError, Global};
use std::marker::Model;

/// A list of characters. Contracts see the list of their codes.
#[derive(Debug, Drop)]
pub struct Characters {
    items: Vec<char>,
}

impl Model for Characters {
    ghost use Rattle.std.specs.Prelude.{List, ℕ};

    ghost Value = { List ℕ };

    ghost view = { λ characters. characters.items.items };
}

impl Characters {
    /// No characters, which takes no memory yet.
    pub fn new(alloc: Global) -> Self
        ensures { result ≡ [] }
    {
        Characters {
            items: Vec::new(alloc),
        }
    }

    /// A copy of the characters.
    pub fn copy(&self, alloc: Global) -> Result<Characters, AllocError>
        ensures { IfOk result (λ copy. copy ≡ self.now) }
    {
        Ok(Characters {
            items: Vec::from_slice(alloc, self.items.as_slice())?,
        })
    }

    /// Adds a character at the end.
    pub fn push(&mut self, character: char) -> Result<(), AllocError>
        ensures ok { OnOk result (self.new ≡ self.old ++ character ∷ []) }
        ensures err { OnErr result (self.new ≡ self.old) }
    {
        self.items.push(character)?;
        Ok(())
    }

    /// The characters in order.
    pub fn as_slice(&self) -> &[char]
        ensures { result.now ≡ self.now }
    {
        self.items.as_slice()
    }

    /// How many characters there are.
    pub fn len(&self) -> usize
        ensures { result ≡ length self.now }
    {
        self.items.len()
    }

    /// Whether there are no characters.
    pub fn is_empty(&self) -> bool
        ensures { IsTrue result ↔ (self.now ≡ []) }
    {
        self.items.is_empty()
    }
}
