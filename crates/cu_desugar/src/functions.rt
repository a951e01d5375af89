//! Functions of top level by their rules.
ghost use Rattle.std.specs.Prelude.{◌≡◌, IfOk, List, [], map};
ghost use Rattle.cu_desugar.specs.Inside.Surrounding.{Surrounds};
ghost use Rattle.cu_desugar.specs.Inside.Texts.{AreTexts, IsText, function_in};
ghost use Rattle.cu_faults.specs.Telling.{setting};
ghost use Rattle.cu_forms.specs.Scopes.{Sees};
ghost use Rattle.cu_kernel.specs.LocalKernelOf.{local_rule_meaning, top_function_meaning};
ghost use Rattle.cu_locals.specs.Text.{Text};
ghost use Rattle.cu_sites.specs.Meaning.{GroupIsOf, group_meaning};
ghost use Rattle.cu_toplevel.specs.Surrounding.{TellsNames};
ghost use Rattle.cu_translation.specs.Around as meant;
ghost use Rattle.cu_translation.specs.Functions.{top_function};
ghost use Rattle.cu_translation.specs.LocalFunctions.{rule_of};
ghost use Rattle.cu_translation.specs.LocalNames as local_names;
ghost use Rattle.cu_translation.specs.Rules as written;
ghost use Rattle.cu_translation.specs.Rules.{rules_of};

use crate::around::Around;
use crate::local_functions::local_functions;
use crate::texts::FunctionText;
use cu_forms::{Scope, rule};
use cu_kernel::{LocalBody, LocalRule, TopFunction};
use cu_sites::Group;
use cu_toplevel::TopNames;
use std::alloc::{AllocError, Global};

/// A number of parameters in 32 bits. A larger one counts as an allocation
/// failure.
pub(crate) fn arity(count: usize) -> Result<u32, AllocError>
    ensures { IfOk result (λ found. found ≡ count) }
{
    match u32::try_from(count) {
        Ok(arity) => Ok(arity),
        Err(_) => Err(AllocError),
    }
}

/// The rules of a function, in the order of the text.
pub(crate) fn rules(
    alloc: Global,
    around: &Around<'_>,
    scope: &Scope<'_>,
    group: &Group<'_>,
) -> Result<Vec<LocalRule>, AllocError>
    ensures { (t : Text) (a : meant.Around) (local : local_names.Scope)
        → Surrounds (setting t a) around.now → Sees (setting t a) local scope.now
        → GroupIsOf t.owner t.names group.now
        → IfOk result (λ found. map local_rule_meaning found.items
        ≡ map (rule_of a local) (rules_of (group_meaning t.names group.now))) }
{
    let first = &group.first;
    let parameters = first.parameters.as_slice();
    let first_rule = rule(alloc, around, scope, parameters, first.right)?;
    let mut found = vec![in alloc; first_rule]?;
    for other in &group.others {
        let further = other.parameters.as_slice();
        let next = rule(alloc, around, scope, further, other.right)?;
        found.push(next)?;
    }
    Ok(found)
}

/// A function of top level, by its rules.
fn top_function(
    alloc: Global,
    top: TopNames<'_>,
    text: &FunctionText<'_>,
) -> Result<TopFunction, AllocError>
    ensures { (t : Text) (names : meant.Names) → TellsNames t.names names top.entry
        → IsText t text.now
        → IfOk result (λ f.
        top_function_meaning f ≡ top_function t.names names (function_in t text.now)) }
{
    let around = text.around(top);
    let group = &text.group;
    let scope = Scope::outermost(&[]);
    let arity = arity(group.first.parameters.len())?;
    let rules = rules(alloc, &around, &scope, group)?;
    let locals = local_functions(alloc, &around, &text.sites)?;
    Ok(TopFunction {
        name: group.first.name.text,
        arity,
        body: LocalBody::Rules(rules),
        locals,
    })
}

/// The functions of a module that have rules.
pub(crate) fn top_functions(
    alloc: Global,
    top: TopNames<'_>,
    texts: &[FunctionText<'_>],
) -> Result<Vec<TopFunction>, AllocError>
    ensures { (t : Text) (names : meant.Names) (whole : List written.Group)
        → TellsNames t.names names top.entry → AreTexts t whole texts.now
        → IfOk result (λ found.
        map top_function_meaning found.items ≡ map (top_function t.names names) whole) }
{
    let mut functions = Vec::new(alloc);
    for text in texts {
        let function = top_function(alloc, top, text)?;
        functions.push(function)?;
    }
    Ok(functions)
}
