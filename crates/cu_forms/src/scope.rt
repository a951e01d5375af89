//! The local names in scope.
ghost use Rattle.std.specs.Prelude.{◌≡◌, ◌++◌};
ghost use Rattle.std.specs.Option.{option_map};
ghost use Rattle.cu_syntax.specs.Names.{name_meaning};
ghost use Rattle.cu_syntax.specs.Owners.{NameIsOf};
ghost use Rattle.cu_translation.specs.LocalNames as definitions;
ghost use Rattle.cu_translation.specs.LocalNames.{local_named};
ghost use Rattle.cu_translation.specs.Meaning.{Setting, local_meaning};
ghost use Rattle.cu_forms.specs.Scopes.{Sees, entries_in, meaning_in};

use cu_names::NameId;
use cu_syntax::Name;
use cu_translation::{Entry, Local};

/// The local names in scope at a spot of a text, inner ones first. A scope
/// names the one around it, so nothing is copied where names are bound.
#[derive(Drop)]
pub enum Scope<'s> {
    Outermost(&'s [Entry]),
    Inside(&'s [Entry], &'s Scope<'s>),
}

impl<'s> Scope<'s> {
    /// The scope of these names alone.
    #[tactic(auto, using(crate::specs::Scopes::scope_variants))]
    pub fn outermost(entries: &'s [Entry]) -> Scope<'s>
        ensures { entries_in result ≡ entries.now }
    {
        Scope::Outermost(entries)
    }

    /// The scope of these names, and around them those of another scope.
    #[tactic(auto, using(crate::specs::Scopes::scope_variants))]
    pub fn inside(entries: &'s [Entry], around: &'s Scope<'s>) -> Scope<'s>
        ensures { entries_in result ≡ entries.now ++ entries_in around.now }
    {
        Scope::Inside(entries, around)
    }

    /// What a name means, if it is a local name. A name with a qualifier isn't.
    pub fn local_named(&self, name: Name) -> Option<Local>
        ensures { (w : Setting) (local : definitions.Scope) → Sees w local self.now
            → NameIsOf w.owner w.names name
            → option_map local_meaning result ≡ local_named local (name_meaning w.names name) }
    {
        match name.qualifier {
            Some(_) => None,
            None => self.called(name.text),
        }
    }

    /// What a text means, if it is that of a local name.
    #[tactic(auto, using(crate::specs::Scopes::scope_variants))]
    fn called(&self, text: NameId) -> Option<Local>
        ensures { result ≡ meaning_in text (entries_in self.now) }
    {
        match self {
            Scope::Outermost(entries) => meaning_in(entries, text),
            Scope::Inside(entries, around) => match meaning_in(entries, text) {
                Some(local) => Some(local),
                None => around.called(text),
            },
        }
    }
}

/// What a text means among these local names, if it is that of one of them.
fn meaning_in(entries: &[Entry], text: NameId) -> Option<Local>
    ensures { result ≡ meaning_in text entries.now }
{
    for entry in entries {
        if entry.text == text {
            return Some(entry.means);
        }
    }
    None
}
