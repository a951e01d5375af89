//! What the sites of a text tell.
ghost use Rattle.std.specs.Prelude.{◌≡◌, IfOk};
ghost use Rattle.cu_translation.specs.Sites as sites;
ghost use Rattle.cu_sites.specs.Meaning.{IsSpotIn, blocks_in, nodes_in};
ghost use Rattle.cu_locals.specs.Text.{Text};
ghost use Rattle.cu_locals.specs.Entries.{AreEntries};

use crate::sites::{Node, Sites, Spot};
use cu_syntax::Declaration;
use cu_translation::Entry;
use std::alloc::{AllocError, Global};

impl<'t> Sites<'t> {
    /// All that stands in the text, in its order.
    pub fn nodes(&self) -> &[Node<'t>]
        ensures { result.now ≡ nodes_in self.now }
    {
        self.nodes.as_slice()
    }

    /// The local names in scope at a spot, inner ones first.
    ///
    /// # Errors
    ///
    /// An allocation failure.
    pub fn scope(&self, alloc: Global, at: Spot) -> Result<Vec<Entry>, AllocError>
        ensures { (t : Text) (spot : sites.Spot) → IsSpotIn t self.now at spot
            → IfOk result (λ found. AreEntries t spot.scope found.items) }
    {
        let mut found = Vec::new(alloc);
        let mut number = at.scope;
        while number > 0 {
            number -= 1;
            let Some(first) = self.entries.get(number) else {
                return Ok(found);
            };
            found.push(first.entry)?;
            number = first.around.min(number);
        }
        Ok(found)
    }

    /// The blocks in the text. A local function tells its block by its number
    /// among them.
    pub fn blocks(&self) -> &[Vec<Declaration<'t>>]
        ensures { result.now ≡ blocks_in self.now }
    {
        self.blocks.as_slice()
    }
}
