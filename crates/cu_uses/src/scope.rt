//! What names mean where they are used.
ghost use Rattle.std.specs.Prelude.{◌≡◌, false};
ghost use Rattle.std.specs.List.{list_any};
ghost use Rattle.cu_uses.specs.Inside.Scopes.{has_text, is_local, or_among, table_in};

use cu_entities::NameTable;
use cu_names::NameId;
use cu_syntax::Name;

/// What names mean at a place of a text: what a table tells of top level, and the
/// local variables. A scope names the one around it, so nothing is copied where
/// variables are bound.
#[derive(Drop)]
pub(crate) enum Scope<'a> {
    Top(&'a NameTable),
    Inside(&'a [Name], &'a Scope<'a>),
}

impl<'a> Scope<'a> {
    /// The scope without local variables.
    #[tactic(auto, using(crate::specs::Inside::Scopes::table_variants, crate::specs::Inside::Scopes::local_variants))]
    pub(crate) fn top(table: &'a NameTable) -> Scope<'a>
        ensures table { table_in result ≡ table.now }
        ensures local { is_local result ≡ (λ _. false) }
    {
        Scope::Top(table)
    }

    /// The scope around with more local variables inside it.
    #[tactic(auto, using(crate::specs::Inside::Scopes::table_variants, crate::specs::Inside::Scopes::local_variants))]
    pub(crate) fn inside(names: &'a [Name], around: &'a Scope<'a>) -> Scope<'a>
        ensures table { table_in result ≡ table_in around.now }
        ensures local { is_local result ≡ or_among names.now (is_local around.now) }
    {
        Scope::Inside(names, around)
    }

    /// What names mean at top level.
    #[tactic(auto, using(crate::specs::Inside::Scopes::table_variants))]
    pub(crate) fn table(&self) -> &'a NameTable
        ensures { result.now ≡ table_in self.now }
    {
        match self {
            Scope::Top(table) => table,
            Scope::Inside(_, around) => around.table(),
        }
    }

    /// Whether a text is that of a local variable.
    #[tactic(auto, using(crate::specs::Inside::Scopes::local_variants))]
    pub(crate) fn is_local(&self, text: NameId) -> bool
        ensures { result ≡ is_local self.now text }
    {
        match self {
            Scope::Top(_) => false,
            Scope::Inside(names, around) => has_text(names, text) || around.is_local(text),
        }
    }
}

/// Whether one of these names has a text.
fn has_text(names: &[Name], text: NameId) -> bool
    ensures { result ≡ list_any (has_text text) names.now }
{
    names.iter().any(|name| name.text == text)
}
