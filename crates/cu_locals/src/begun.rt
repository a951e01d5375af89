//! Which rules go on with the function of the declaration before.
ghost use Rattle.std.specs.Prelude.{◌≡◌};
ghost use Rattle.cu_locals.specs.BegunFound.{begun_for, continues};

use cu_names::{NameId, Place};
use cu_syntax::Name;

/// The function to which a rule belongs: its name, and the place of its first
/// token.
#[derive(Clone, Copy)]
pub struct Begun {
    pub name: NameId,
    pub place: Place,
}

/// Whether a rule of this name goes on with a function.
pub fn goes_on(begun: Option<Begun>, name: Name) -> bool
    ensures { result ≡ continues begun name.text }
{
    match begun {
        Some(function) => function.name == name.text,
        None => false,
    }
}

/// The function to which a rule belongs.
pub fn begun_by(begun: Option<Begun>, name: Name, place: Place) -> Begun
    ensures { result ≡ begun_for begun name place }
{
    match begun {
        Some(function) if function.name == name.text => function,
        _ => Begun {
            name: name.text,
            place,
        },
    }
}
