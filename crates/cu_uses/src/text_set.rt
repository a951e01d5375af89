//! Sets of texts.
ghost use Rattle.std.specs.Prelude.{◌≡◌, [], ◌∷◌, ◌++◌, List, ℕ, OnOk};
ghost use Rattle.cu_names.specs.Texts.{AllDiffer, IsKnown, text_of};
ghost use Rattle.cu_uses.specs.Binders.{is_among};
ghost use Rattle.cu_uses.specs.Telling.{HasTexts};

use cu_names::NameId;
use indexmap::IndexSet;
use std::alloc::{AllocError, Global};

/// A set of the texts of names.
#[derive(Drop)]
pub struct TextSet {
    texts: IndexSet<NameId>,
}

impl TextSet {
    /// The set without texts.
    pub fn new(alloc: Global) -> TextSet
        ensures { (names : List (List ℕ)) → HasTexts names [] result }
    {
        TextSet {
            texts: IndexSet::new(alloc),
        }
    }

    /// Adds the text of a name.
    ///
    /// # Errors
    ///
    /// An allocation failure. The set is of no use then.
    pub fn add(&mut self, name: NameId) -> Result<(), AllocError>
        ensures { (names : List (List ℕ)) (texts : List (List ℕ))
            → AllDiffer names → IsKnown names name → HasTexts names texts self.old
            → OnOk result (HasTexts names (texts ++ text_of names name ∷ []) self.new) }
    {
        self.texts.insert(name)?;
        Ok(())
    }

    /// Whether the text of a name was added.
    pub fn has(&self, name: NameId) -> bool
        ensures { (names : List (List ℕ)) (texts : List (List ℕ))
            → IsKnown names name → HasTexts names texts self.now
            → result ≡ is_among texts (text_of names name) }
    {
        self.texts.contains(&name)
    }
}
