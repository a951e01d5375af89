//! What the translation of a text asks of the names around it.
ghost use Rattle.std.specs.Prelude.{◌≡◌};
ghost use Rattle.cu_syntax.specs.Names.{name_meaning};
ghost use Rattle.cu_syntax.specs.Owners.{NameIsOf};
ghost use Rattle.cu_translation.specs.Meaning.{Setting, binder_meaning, built_in_text, position_meaning, referent_meaning};

use crate::{Binder, BuiltIn, Position, Referent};
use cu_fixity::Fixity;
use cu_names::NameId;
use cu_syntax::Name;

/// What is known of names where a function's text is translated: what those of
/// top level refer to, and how the function's variables and local functions are
/// numbered.
pub trait Surroundings {
    /// What the surroundings stand for, of a text of a module and under a table
    /// of names.
    ghost tells: { Self → Setting → Type 0 };

    /// What a name of top level refers to, where no local name hides it.
    fn value(&self, name: Name) -> Referent
        ensures { (w : Setting) → tells self.now w → NameIsOf w.owner w.names name
            → referent_meaning result ≡ w.around.names.value (name_meaning w.names name) };

    /// The fixity of an operator of top level, where no local name hides it.
    fn fixity(&self, name: Name) -> Fixity
        ensures { (w : Setting) → tells self.now w → NameIsOf w.owner w.names name
            → result ≡ w.around.names.fixity (name_meaning w.names name) };

    /// What the Prelude has under one of the names that the translation uses.
    fn prelude(&self, what: BuiltIn) -> Referent
        ensures { (w : Setting) → tells self.now w
            → referent_meaning result ≡ w.around.names.prelude (built_in_text what) };

    /// The number of the name of the text's module.
    fn owner(&self) -> NameId
        ensures { (w : Setting) → tells self.now w → result ≡ w.around.names.owner };

    /// The number of a variable.
    fn variable(&self, binder: Binder) -> u32
        ensures { (w : Setting) → tells self.now w
            → result ≡ w.around.numbers.variable (binder_meaning binder) };

    /// The place, among the local functions, of the one whose first token
    /// stands here.
    fn function(&self, at: Position) -> u32
        ensures { (w : Setting) → tells self.now w
            → result ≡ w.around.numbers.function (position_meaning at) };

    /// Whether the definition of a variable depends on another variable.
    fn depends(&self, x: Binder, y: Binder) -> bool
        ensures { (w : Setting) → tells self.now w
            → result ≡ w.around.numbers.depends (binder_meaning x) (binder_meaning y) };
}
