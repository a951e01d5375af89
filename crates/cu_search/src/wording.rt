//! The names that a listing uses.
ghost use Rattle.std.specs.Prelude.{◌≡◌, [], slice_index_or};
ghost use Rattle.cu_names.specs.Texts.{text_of};
ghost use Rattle.cu_search.specs.Stands.{notation_of};

use cu_kernel::{Goal, Program};
use cu_names::{NameId, Names};

/// The names of a program's entities and of a goal's variables. A name that
/// the table of names lacks has no text.
#[derive(Clone, Copy)]
pub(crate) struct Wording<'p> {
    pub(crate) kernel: &'p Program,
    pub(crate) names: &'p Names,
    pub(crate) goal: &'p Goal,
}

/// The text of a name; none where the table lacks it.
pub(crate) fn text(names: &Names, id: NameId) -> &str
    ensures { result.now ≡ text_of names.now id }
{
    if id.0 < names.count() {
        names.text(id)
    } else {
        ""
    }
}

impl Wording<'_> {
    /// The name of a goal variable; none where there is no such variable.
    pub(crate) fn variable(&self, place: usize) -> &str
        ensures { result.now ≡ slice_index_or (notation_of self.now).variables place [] }
    {
        match self.goal.names.get(place) {
            Some(name) => text(self.names, *name),
            None => "",
        }
    }
}
