//! Declarations of types in a text.
ghost use Rattle.std.specs.Prelude.{◌∷◌, [], ◌≡◌, ◌<◌, All, IfOk, OnOk, length, map};
ghost use Rattle.cu_names.specs.Texts.{Extends};
ghost use Rattle.cu_flatread.specs.Inside.Declarations.{constructor_at, declaration_at, declaration_words, right_side_at};
ghost use Rattle.cu_flatread.specs.Inside.Words.{Gives, joined, list_at, more_elements};
ghost use Rattle.cu_flatread.specs.Meaning.{HasConstructor, HasDeclaration, HasRightSide, constructor_of, declaration_of, right_side_of};

use crate::cursor::Cursor;
use crate::declarations::{FlatConstructor, FlatDeclaration, FlatRightSide};
use crate::functions::visibility;
use crate::stop::Stop;
use crate::types::{type_at, types_at};
use cu_names::Names;
use std::alloc::Global;

/// The forms of a declaration.
#[derive(Clone, Copy)]
enum Form {
    Type,
    TypeSyn,
}

const FORMS: [(&[u8], Form); 2] = [(b"\nType ", Form::Type), (b"\nTypeSyn ", Form::TypeSyn)];

/// The words of a declaration.
fn declaration_words() -> &'static [(&'static [u8], Form)]
    ensures { map (λ w. (w.0.now, w.1)) result.now ≡ declaration_words }
{
    &FORMS
}

/// A constructor.
#[tactic(auto, unfolding(crate::specs::Inside::Declarations::constructor_at))]
fn constructor(
    alloc: Global,
    cursor: &mut Cursor<'_>,
    names: &mut Names,
) -> Result<FlatConstructor, Stop>
    ensures gives { Gives (constructor_of names.new) result cursor.new.rest.now
        (constructor_at cursor.old.rest.now) }
    ensures known { IfOk result (HasConstructor names.new) }
    ensures names { Extends names.old names.new }
    ensures shorter { OnOk result (length cursor.new.rest.now < length cursor.old.rest.now) }
{
    cursor.word(b"Cons ")?;
    let entity = cursor.entity(alloc, names)?;
    cursor.word(b" ")?;
    let arity = cursor.number()?;
    cursor.word(b" ")?;
    let public = visibility(cursor)?;
    let fields = types_at(alloc, cursor, names)?;
    Ok(FlatConstructor {
        entity,
        arity,
        public,
        fields,
    })
}

/// A list of constructors.
#[tactic(auto, unfolding(crate::specs::Inside::Words::list_at, crate::specs::Inside::Words::list_after))]
fn constructors(
    alloc: Global,
    cursor: &mut Cursor<'_>,
    names: &mut Names,
) -> Result<Vec<FlatConstructor>, Stop>
    ensures gives { Gives (λ cs. map (constructor_of names.new) cs.items) result cursor.new.rest.now
        (list_at constructor_at cursor.old.rest.now) }
    ensures known { IfOk result (λ cs. All (HasConstructor names.new) cs.items) }
    ensures names { Extends names.old names.new }
    ensures shorter { OnOk result (length cursor.new.rest.now < length cursor.old.rest.now) }
{
    cursor.word(b"[")?;
    if cursor.is_at(b']') {
        cursor.word(b"]")?;
        return Ok(Vec::new(alloc));
    }
    let first = constructor(alloc, cursor, names)?;
    constructors_after(alloc, first, cursor, names)
}

/// The rest of a list of which the first element was read.
fn constructors_after(
    alloc: Global,
    first: FlatConstructor,
    cursor: &mut Cursor<'_>,
    names: &mut Names,
) -> Result<Vec<FlatConstructor>, Stop>
    requires { HasConstructor names.old first }
    ensures gives { Gives (λ xs. map (constructor_of names.new) xs.items) result cursor.new.rest.now
        (joined (constructor_of names.old first ∷ [])
        (more_elements constructor_at (length cursor.old.rest.now) cursor.old.rest.now)) }
    ensures known { IfOk result (λ xs. All (HasConstructor names.new) xs.items) }
    ensures names { Extends names.old names.new }
    ensures shorter { OnOk result (length cursor.new.rest.now < length cursor.old.rest.now) }
{
    let mut constructors = vec![in alloc; first]?;
    while cursor.goes_on()? {
        let next = constructor(alloc, cursor, names)?;
        constructors.push(next)?;
    }
    Ok(constructors)
}

/// The right side of a declaration of this form.
#[tactic(auto, unfolding(crate::specs::Inside::Declarations::right_side_at))]
fn right_side(
    form: Form,
    alloc: Global,
    cursor: &mut Cursor<'_>,
    names: &mut Names,
) -> Result<FlatRightSide, Stop>
    ensures gives { Gives (right_side_of names.new) result cursor.new.rest.now
        (right_side_at form cursor.old.rest.now) }
    ensures known { IfOk result (HasRightSide names.new) }
    ensures names { Extends names.old names.new }
    ensures shorter { OnOk result (length cursor.new.rest.now < length cursor.old.rest.now) }
{
    match form {
        Form::Type => {
            let constructors = constructors(alloc, cursor, names)?;
            Ok(FlatRightSide::Type(constructors))
        }
        Form::TypeSyn => {
            cursor.word(b"(")?;
            let synonym = type_at(alloc, cursor, names)?;
            cursor.word(b")")?;
            Ok(FlatRightSide::TypeSyn(synonym))
        }
    }
}

/// A declaration.
#[tactic(auto, unfolding(crate::specs::Inside::Declarations::declaration_at))]
fn declaration(
    alloc: Global,
    cursor: &mut Cursor<'_>,
    names: &mut Names,
) -> Result<FlatDeclaration, Stop>
    ensures gives { Gives (declaration_of names.new) result cursor.new.rest.now
        (declaration_at cursor.old.rest.now) }
    ensures known { IfOk result (HasDeclaration names.new) }
    ensures names { Extends names.old names.new }
    ensures shorter { OnOk result (length cursor.new.rest.now < length cursor.old.rest.now) }
{
    let form = cursor.one_of(declaration_words())?;
    let entity = cursor.entity(alloc, names)?;
    cursor.word(b" ")?;
    let public = visibility(cursor)?;
    let parameters = cursor.numbers(alloc)?;
    cursor.word(b" ")?;
    let right_side = right_side(form, alloc, cursor, names)?;
    Ok(FlatDeclaration {
        entity,
        public,
        parameters,
        right_side,
    })
}

/// A list of declarations.
#[tactic(auto, unfolding(crate::specs::Inside::Words::list_at, crate::specs::Inside::Words::list_after))]
pub(crate) fn declarations(
    alloc: Global,
    cursor: &mut Cursor<'_>,
    names: &mut Names,
) -> Result<Vec<FlatDeclaration>, Stop>
    ensures gives { Gives (λ ds. map (declaration_of names.new) ds.items) result cursor.new.rest.now
        (list_at declaration_at cursor.old.rest.now) }
    ensures known { IfOk result (λ ds. All (HasDeclaration names.new) ds.items) }
    ensures names { Extends names.old names.new }
    ensures shorter { OnOk result (length cursor.new.rest.now < length cursor.old.rest.now) }
{
    cursor.word(b"[")?;
    if cursor.is_at(b']') {
        cursor.word(b"]")?;
        return Ok(Vec::new(alloc));
    }
    let first = declaration(alloc, cursor, names)?;
    declarations_after(alloc, first, cursor, names)
}

/// The rest of a list of which the first element was read.
fn declarations_after(
    alloc: Global,
    first: FlatDeclaration,
    cursor: &mut Cursor<'_>,
    names: &mut Names,
) -> Result<Vec<FlatDeclaration>, Stop>
    requires { HasDeclaration names.old first }
    ensures gives { Gives (λ xs. map (declaration_of names.new) xs.items) result cursor.new.rest.now
        (joined (declaration_of names.old first ∷ [])
        (more_elements declaration_at (length cursor.old.rest.now) cursor.old.rest.now)) }
    ensures known { IfOk result (λ xs. All (HasDeclaration names.new) xs.items) }
    ensures names { Extends names.old names.new }
    ensures shorter { OnOk result (length cursor.new.rest.now < length cursor.old.rest.now) }
{
    let mut declarations = vec![in alloc; first]?;
    while cursor.goes_on()? {
        let next = declaration(alloc, cursor, names)?;
        declarations.push(next)?;
    }
    Ok(declarations)
}
