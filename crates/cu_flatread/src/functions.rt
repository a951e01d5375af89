//! Functions and operators in a text.
ghost use Rattle.std.specs.Prelude.{◌∷◌, [], ◌≡◌, ◌≤◌, ◌<◌, All, IfOk, OnOk, length, map};
ghost use Rattle.cu_names.specs.Texts.{Extends};
ghost use Rattle.cu_flatread.specs.Inside.Declarations.{function_at, operator_at, rule_at, rule_of_form, rule_words, side_words, visibility_at, visibility_words};
ghost use Rattle.cu_flatread.specs.Inside.Words.{Gives, joined, list_at, more_elements};
ghost use Rattle.cu_flatread.specs.Meaning.{HasFunction, HasOperator, HasRule, function_of, operator_of, rule_of};

use crate::cursor::Cursor;
use crate::declarations::{FlatFunction, FlatOperator, FlatRule};
use crate::expressions::expression_at;
use crate::stop::Stop;
use crate::types::type_at;
use cu_kernel::Side;
use cu_names::Names;
use std::alloc::Global;

const VISIBILITIES: [(&[u8], bool); 2] = [(b"Public ", true), (b"Private ", false)];

/// The words of a visibility.
fn visibility_words() -> &'static [(&'static [u8], bool)]
    ensures { map (λ w. (w.0.now, w.1)) result.now ≡ visibility_words }
{
    &VISIBILITIES
}

const SIDES: [(&[u8], Side); 3] = [
    (b"InfixlOp ", Side::Left),
    (b"InfixrOp ", Side::Right),
    (b"InfixOp ", Side::Neither),
];

/// The words of a side.
fn side_words() -> &'static [(&'static [u8], Side)]
    ensures { map (λ w. (w.0.now, w.1)) result.now ≡ side_words }
{
    &SIDES
}

/// The forms of a function's rule.
#[derive(Clone, Copy)]
enum RuleForm {
    Rule,
    External,
}

const RULES: [(&[u8], RuleForm); 2] = [
    (b"Rule ", RuleForm::Rule),
    (b"External ", RuleForm::External),
];

/// The words of a rule.
fn rule_words() -> &'static [(&'static [u8], RuleForm)]
    ensures { map (λ w. (w.0.now, w.1)) result.now ≡ rule_words }
{
    &RULES
}

/// Whether an entity is public, and the space after that.
pub(crate) fn visibility(cursor: &mut Cursor<'_>) -> Result<bool, Stop>
    ensures gives { Gives (λ v. v) result cursor.new.rest.now (visibility_at cursor.old.rest.now) }
    ensures shorter { OnOk result (length cursor.new.rest.now ≤ length cursor.old.rest.now) }
{
    cursor.one_of(visibility_words())
}

/// The rule of a function.
#[tactic(auto, unfolding(crate::specs::Inside::Declarations::rule_at, crate::specs::Inside::Declarations::rule_of_form))]
fn rule(alloc: Global, cursor: &mut Cursor<'_>, names: &mut Names) -> Result<FlatRule, Stop>
    ensures gives { Gives (rule_of names.new) result cursor.new.rest.now
        (rule_at cursor.old.rest.now) }
    ensures known { IfOk result (HasRule names.new) }
    ensures names { Extends names.old names.new }
    ensures shorter { OnOk result (length cursor.new.rest.now < length cursor.old.rest.now) }
{
    match cursor.one_of(rule_words())? {
        RuleForm::Rule => {
            let parameters = cursor.numbers(alloc)?;
            cursor.word(b" (")?;
            let body = expression_at(alloc, cursor, names)?;
            cursor.word(b")")?;
            Ok(FlatRule::Rule(parameters, body))
        }
        RuleForm::External => {
            let name = cursor.quoted(alloc, names)?;
            Ok(FlatRule::External(name))
        }
    }
}

/// A function.
#[tactic(auto, unfolding(crate::specs::Inside::Declarations::function_at))]
fn function(alloc: Global, cursor: &mut Cursor<'_>, names: &mut Names) -> Result<FlatFunction, Stop>
    ensures gives { Gives (function_of names.new) result cursor.new.rest.now
        (function_at cursor.old.rest.now) }
    ensures known { IfOk result (HasFunction names.new) }
    ensures names { Extends names.old names.new }
    ensures shorter { OnOk result (length cursor.new.rest.now < length cursor.old.rest.now) }
{
    cursor.word(b"\nFunc ")?;
    let entity = cursor.entity(alloc, names)?;
    cursor.word(b" ")?;
    let arity = cursor.number()?;
    cursor.word(b" ")?;
    let public = visibility(cursor)?;
    cursor.word(b"(")?;
    let of_type = type_at(alloc, cursor, names)?;
    cursor.word(b") (")?;
    let rule = rule(alloc, cursor, names)?;
    cursor.word(b")")?;
    Ok(FlatFunction {
        entity,
        arity,
        public,
        of_type,
        rule,
    })
}

/// A list of functions.
#[tactic(auto, unfolding(crate::specs::Inside::Words::list_at, crate::specs::Inside::Words::list_after))]
pub(crate) fn functions(
    alloc: Global,
    cursor: &mut Cursor<'_>,
    names: &mut Names,
) -> Result<Vec<FlatFunction>, Stop>
    ensures gives { Gives (λ fs. map (function_of names.new) fs.items) result cursor.new.rest.now
        (list_at function_at cursor.old.rest.now) }
    ensures known { IfOk result (λ fs. All (HasFunction names.new) fs.items) }
    ensures names { Extends names.old names.new }
    ensures shorter { OnOk result (length cursor.new.rest.now < length cursor.old.rest.now) }
{
    cursor.word(b"[")?;
    if cursor.is_at(b']') {
        cursor.word(b"]")?;
        return Ok(Vec::new(alloc));
    }
    let first = function(alloc, cursor, names)?;
    functions_after(alloc, first, cursor, names)
}

/// The rest of a list of which the first element was read.
fn functions_after(
    alloc: Global,
    first: FlatFunction,
    cursor: &mut Cursor<'_>,
    names: &mut Names,
) -> Result<Vec<FlatFunction>, Stop>
    requires { HasFunction names.old first }
    ensures gives { Gives (λ xs. map (function_of names.new) xs.items) result cursor.new.rest.now
        (joined (function_of names.old first ∷ [])
        (more_elements function_at (length cursor.old.rest.now) cursor.old.rest.now)) }
    ensures known { IfOk result (λ xs. All (HasFunction names.new) xs.items) }
    ensures names { Extends names.old names.new }
    ensures shorter { OnOk result (length cursor.new.rest.now < length cursor.old.rest.now) }
{
    let mut functions = vec![in alloc; first]?;
    while cursor.goes_on()? {
        let next = function(alloc, cursor, names)?;
        functions.push(next)?;
    }
    Ok(functions)
}

/// An operator.
#[tactic(auto, unfolding(crate::specs::Inside::Declarations::operator_at))]
fn operator(alloc: Global, cursor: &mut Cursor<'_>, names: &mut Names) -> Result<FlatOperator, Stop>
    ensures gives { Gives (operator_of names.new) result cursor.new.rest.now
        (operator_at cursor.old.rest.now) }
    ensures known { IfOk result (HasOperator names.new) }
    ensures names { Extends names.old names.new }
    ensures shorter { OnOk result (length cursor.new.rest.now < length cursor.old.rest.now) }
{
    cursor.word(b"\nOp ")?;
    let entity = cursor.entity(alloc, names)?;
    cursor.word(b" ")?;
    let side = cursor.one_of(side_words())?;
    let level = cursor.level()?;
    Ok(FlatOperator {
        entity,
        side,
        level,
    })
}

/// A list of operators.
#[tactic(auto, unfolding(crate::specs::Inside::Words::list_at, crate::specs::Inside::Words::list_after))]
pub(crate) fn operators(
    alloc: Global,
    cursor: &mut Cursor<'_>,
    names: &mut Names,
) -> Result<Vec<FlatOperator>, Stop>
    ensures gives { Gives (λ os. map (operator_of names.new) os.items) result cursor.new.rest.now
        (list_at operator_at cursor.old.rest.now) }
    ensures known { IfOk result (λ os. All (HasOperator names.new) os.items) }
    ensures names { Extends names.old names.new }
    ensures shorter { OnOk result (length cursor.new.rest.now < length cursor.old.rest.now) }
{
    cursor.word(b"[")?;
    if cursor.is_at(b']') {
        cursor.word(b"]")?;
        return Ok(Vec::new(alloc));
    }
    let first = operator(alloc, cursor, names)?;
    operators_after(alloc, first, cursor, names)
}

/// The rest of a list of which the first element was read.
fn operators_after(
    alloc: Global,
    first: FlatOperator,
    cursor: &mut Cursor<'_>,
    names: &mut Names,
) -> Result<Vec<FlatOperator>, Stop>
    requires { HasOperator names.old first }
    ensures gives { Gives (λ xs. map (operator_of names.new) xs.items) result cursor.new.rest.now
        (joined (operator_of names.old first ∷ [])
        (more_elements operator_at (length cursor.old.rest.now) cursor.old.rest.now)) }
    ensures known { IfOk result (λ xs. All (HasOperator names.new) xs.items) }
    ensures names { Extends names.old names.new }
    ensures shorter { OnOk result (length cursor.new.rest.now < length cursor.old.rest.now) }
{
    let mut operators = vec![in alloc; first]?;
    while cursor.goes_on()? {
        let next = operator(alloc, cursor, names)?;
        operators.push(next)?;
    }
    Ok(operators)
}
