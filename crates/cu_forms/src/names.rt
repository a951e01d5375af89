//! What names refer to where they stand.
ghost use Rattle.std.specs.Prelude.{◌≡◌, IfOk};
ghost use Rattle.std.specs.Option.{option_map};
ghost use Rattle.cu_syntax.specs.Names.{name_meaning};
ghost use Rattle.cu_syntax.specs.Owners.{ExpressionIsOf, NameIsOf};
ghost use Rattle.cu_translation.specs.Around.{fixity_at, referent, referent_of_local};
ghost use Rattle.cu_translation.specs.LocalNames as definitions;
ghost use Rattle.cu_translation.specs.Meaning.{Setting, local_meaning, referent_meaning};
ghost use Rattle.cu_forms.specs.Forms.{name_alone_form};
ghost use Rattle.cu_forms.specs.Scopes.{Sees};

use crate::scope::Scope;
use cu_fixity::{Fixity, UNDECLARED};
use cu_kernel::LocalHead;
use cu_syntax::{Expression, ExpressionNode, Name};
use cu_translation::{BuiltIn, Local, Referent, Surroundings};
use std::alloc::{AllocError, Global};

/// What a name refers to where it stands.
pub fn referent<A: Surroundings>(around: &A, scope: &Scope<'_>, name: Name) -> Referent
    ensures { (w : Setting) (local : definitions.Scope) → A.tells around.now w
        → Sees w local scope.now → NameIsOf w.owner w.names name
        → referent_meaning result ≡ referent w.around local (name_meaning w.names name) }
{
    match scope.local_named(name) {
        Some(local) => referent_of_local(around, local),
        None => around.value(name),
    }
}

/// What a local name refers to.
fn referent_of_local<A: Surroundings>(around: &A, local: Local) -> Referent
    ensures { (w : Setting) → A.tells around.now w
        → referent_meaning result ≡ referent_of_local w.around (local_meaning local) }
{
    match local {
        Local::Variable(binder) => Referent::Variable(around.variable(binder)),
        Local::Function(at, count) => {
            Referent::Callable(LocalHead::Local(around.function(at)), count)
        }
    }
}

/// The fixity of an operator where it stands. An operator that is a local name
/// has no declaration.
pub fn fixity_at<A: Surroundings>(around: &A, scope: &Scope<'_>, name: Name) -> Fixity
    ensures { (w : Setting) (local : definitions.Scope) → A.tells around.now w
        → Sees w local scope.now → NameIsOf w.owner w.names name
        → result ≡ fixity_at w.around.names local (name_meaning w.names name) }
{
    match scope.local_named(name) {
        Some(_) => UNDECLARED,
        None => around.fixity(name),
    }
}

/// What an expression refers to, if it is a name and nothing else.
///
/// # Errors
///
/// An allocation failure.
pub fn name_alone<A: Surroundings>(
    alloc: Global,
    around: &A,
    scope: &Scope<'_>,
    e: Expression<'_>,
) -> Result<Option<Referent>, AllocError>
    ensures { (w : Setting) (local : definitions.Scope) → A.tells around.now w
        → Sees w local scope.now → ExpressionIsOf w.owner w.names e.entry
        → IfOk result (λ r. option_map referent_meaning r ≡ name_alone_form w local e.entry) }
{
    match e.node(alloc)? {
        ExpressionNode::Variable(_, name) => Ok(Some(referent(around, scope, name))),
        ExpressionNode::Constructor(_, name) => Ok(Some(around.value(name))),
        ExpressionNode::TupleConstructor(_, count) => {
            Ok(Some(around.prelude(BuiltIn::Tuple(count))))
        }
        _ => Ok(None),
    }
}
