//! Modules under their names.
ghost use Rattle.std.specs.Prelude.{◌≡◌};

use cu_names::NameId;
use cu_syntax as syntax;

/// A module under the name by which it was looked for.
#[derive(Debug, Drop)]
pub struct Module {
    pub(crate) name: NameId,
    pub(crate) syntax: syntax::Module,
}

impl Module {
    /// The name by which the module was looked for.
    pub fn name(&self) -> NameId
        ensures { result ≡ self.now.name }
    {
        self.name
    }

    /// What the module's text says.
    pub fn syntax(&self) -> &syntax::Module
        ensures { result.now ≡ self.now.syntax }
    {
        &self.syntax
    }
}
