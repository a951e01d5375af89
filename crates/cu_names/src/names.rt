//! A table of names: each text once, in the order in which it was first seen.
ghost use Rattle.std.specs.Prelude.{◌≡◌, ◌<◌, ◌↔◌, [], length, slice_get, Some, Contains, IfOk, IfSome, IsNone, OnErr, OnOk};
ghost use Rattle.cu_names.specs.Texts.{interned, AllDiffer, IsKnown};

use indexmap::IndexSet;
use std::alloc::{AllocError, Global};
use std::marker::Model;

/// The number of a name in a table of names, from 0.
#[derive(Clone, Copy, Debug, PartialEq, Eq, PartialOrd, Ord, Hash)]
pub struct NameId(pub usize);

/// A table of names. Contracts see the list of its texts.
#[derive(Drop)]
pub struct Names {
    alloc: Global,
    texts: IndexSet<String>,
}

impl Model for Names {
    ghost use Rattle.std.specs.Prelude.{List, ℕ, map};
    ghost use Rattle.std.specs.String.{string_bytes, string_eq};
    ghost use Rattle.indexmap.specs.IndexSet.{IsUnique};

    ghost Value = { List (List ℕ) };

    ghost view = { λ names. map string_bytes names.texts.keys };

    ghost invariant = { λ names. IsUnique string_eq names.texts };
}

impl Names {
    /// An empty table, which takes no memory yet.
    pub fn new(alloc: Global) -> Self
        ensures { result ≡ [] }
    {
        Names {
            alloc,
            texts: IndexSet::new(alloc),
        }
    }

    /// How many names the table has.
    pub fn count(&self) -> usize
        ensures count { result ≡ length self.now }
        ensures differ { AllDiffer self.now }
    {
        self.texts.len()
    }

    /// The number of a text. A text that is new goes to the end of the table.
    pub fn intern(&mut self, text: &str) -> Result<NameId, AllocError>
        ensures id { IfOk result (λ id. slice_get self.new id.0 ≡ Some text.now) }
        ensures names { OnOk result (self.new ≡ interned self.old text.now) }
        ensures err { OnErr result (self.new ≡ self.old) }
        ensures differ { AllDiffer self.new }
    {
        if let Some(id) = self.find(text) {
            return Ok(id);
        }
        let owned = String::from_str(self.alloc, text)?;
        let (index, _) = self.texts.insert_full(owned)?;
        Ok(NameId(index))
    }

    /// The number of a text that the table has.
    pub fn find(&self, text: &str) -> Option<NameId>
        ensures absent { IsNone result ↔ (¬ (Contains self.now text.now)) }
        ensures found { IfSome result (λ id. slice_get self.now id.0 ≡ Some text.now) }
        ensures differ { AllDiffer self.now }
    {
        match self.texts.get_index_of(text) {
            Some(index) => Some(NameId(index)),
            None => None,
        }
    }

    /// The text of a name.
    pub fn text(&self, id: NameId) -> &str
        requires { IsKnown self.now id }
        ensures text { slice_get self.now id.0 ≡ Some result.now }
        ensures differ { AllDiffer self.now }
    {
        self.texts.as_slice()[id.0].as_str()
    }
}
