//! The local functions of a text.
ghost use Rattle.std.specs.Prelude.{◌≡◌, ◌∷◌, [], IfOk, List, map};
ghost use Rattle.std.specs.List.{All};
ghost use Rattle.std.specs.Option.{option_map};
ghost use Rattle.cu_desugar.specs.Inside.Surrounding.{Surrounds};
ghost use Rattle.cu_faults.specs.Telling.{setting};
ghost use Rattle.cu_forms.specs.Scopes.{Sees};
ghost use Rattle.cu_kernel.specs.LocalKernelOf.{local_function_meaning};
ghost use Rattle.cu_kernel.specs.TypesOf.{type_of};
ghost use Rattle.cu_locals.specs.Text.{Text};
ghost use Rattle.cu_names.specs.Texts.{IsKnown, text_of};
ghost use Rattle.cu_sites.specs.Meaning.{GroupIsOf, IsFunction, IsSite, IsSpotIn, Stands, blocks_in, group_meaning};
ghost use Rattle.cu_syntax.specs.Declarations.{declarations_meaning};
ghost use Rattle.cu_syntax.specs.Owners.{DeclarationIsOf};
ghost use Rattle.cu_toplevel.specs.Surrounding.{TellsNames};
ghost use Rattle.cu_translation.specs.Around as meant;
ghost use Rattle.cu_translation.specs.LocalFunctions.{block_function, functions_of, local_functions, signature_of};
ghost use Rattle.cu_translation.specs.LocalNames as local_names;
ghost use Rattle.cu_translation.specs.Sites as text;
ghost use Rattle.cu_translation.specs.TypeTable.{signature_type};

use crate::around::Around;
use crate::functions::{arity, rules};
use crate::signatures::signature;
use cu_forms::{Lambda, ListQualifier, Scope, generator_function, lambda_function, selectors};
use cu_kernel::{LocalFunction, TypeTerm};
use cu_names::{NameId, Place};
use cu_sites::{Group, Node, Site, Sites, Spot};
use cu_syntax::Declaration;
use cu_toplevel::{TopNames, signature_type};
use cu_translation::Surroundings;
use std::alloc::{AllocError, Global};

/// The rules of a local function, and the number of the block in which they
/// stand.
#[derive(Clone, Copy)]
struct BlockRules<'g, 't> {
    block: usize,
    group: &'g Group<'t>,
}

/// The type that a block's signature declares for a name, if it has one.
fn declared_type(
    alloc: Global,
    top: &TopNames<'_>,
    name: NameId,
    block: &[Declaration<'_>],
) -> Result<Option<TypeTerm>, AllocError>
    ensures { (t : Text) (names : meant.Names) → TellsNames t.names names top.now
        → IsKnown t.names name → All (DeclarationIsOf t.owner t.names) block.now
        → IfOk result (λ found. option_map type_of found ≡ option_map (signature_type names)
        (signature_of (text_of t.names name) (declarations_meaning t.names block.now))) }
{
    let written = signature(alloc, name, block)?;
    match written {
        Some(declared) => {
            let found = signature_type(alloc, top, declared)?;
            Ok(Some(found))
        }
        None => Ok(None),
    }
}

/// A local function of a block, by its rules.
fn block_function(
    alloc: Global,
    around: &Around<'_>,
    scope: &Scope<'_>,
    block: &[Declaration<'_>],
    group: &Group<'_>,
) -> Result<LocalFunction, AllocError>
    ensures { (t : Text) (a : meant.Around) (local : local_names.Scope)
        → Surrounds (setting t a) around.now → Sees (setting t a) local scope.now
        → All (DeclarationIsOf t.owner t.names) block.now
        → GroupIsOf t.owner t.names group.now
        → IfOk result (λ f. local_function_meaning f ≡ block_function a local
        (declarations_meaning t.names block.now) (group_meaning t.names group.now)) }
{
    let first = &group.first;
    let declared = declared_type(alloc, &around.top, first.name.text, block)?;
    let arity = arity(first.parameters.len())?;
    let rules = rules(alloc, around, scope, group)?;
    Ok(LocalFunction {
        place: Place {
            module: around.owner(),
            line: first.place.line,
            column: first.place.column,
        },
        declared,
        arity,
        rules,
    })
}

/// The list of one function.
fn alone(alloc: Global, function: LocalFunction) -> Result<Vec<LocalFunction>, AllocError>
    ensures { IfOk result (λ found. found.items ≡ function ∷ []) }
{
    let found = vec![in alloc; function]?;
    Ok(found)
}

/// The local functions of a node.
fn functions_of(
    alloc: Global,
    around: &Around<'_>,
    sites: &Sites<'_>,
    node: &Node<'_>,
) -> Result<Vec<LocalFunction>, AllocError>
    ensures { (t : Text) (a : meant.Around) (n : text.Node)
        → Surrounds (setting t a) around.now → IsSpotIn t sites.now node.now.spot n.spot
        → IsSite t (blocks_in sites.now) node.now.site n.site
        → IfOk result (λ found. map local_function_meaning found.items ≡ functions_of a n) }
{
    match &node.site {
        Site::Lambda(place, parameters, body) => {
            let entries = sites.scope(alloc, node.spot)?;
            let scope = Scope::outermost(entries.as_slice());
            let parameters = parameters.as_slice();
            let lambda = Lambda {
                place: *place,
                parameters,
                body: *body,
            };
            let function = lambda_function(alloc, around, &scope, lambda)?;
            alone(alloc, function)
        }
        Site::Generated(place, p, whole, number) => {
            let entries = sites.scope(alloc, node.spot)?;
            let scope = Scope::outermost(entries.as_slice());
            let qualifier = ListQualifier {
                place: *place,
                pattern: *p,
                whole: *whole,
                count: *number,
            };
            let function = generator_function(alloc, around, &scope, qualifier)?;
            alone(alloc, function)
        }
        Site::Function(block, group) => {
            let placed = BlockRules {
                block: *block,
                group,
            };
            in_block(alloc, around, sites, node.spot, placed)
        }
        Site::Bound(p, _) => selectors(alloc, around, *p),
        Site::Use(_, _) => Ok(Vec::new(alloc)),
        Site::Operation(_) => Ok(Vec::new(alloc)),
        Site::Matched(_) => Ok(Vec::new(alloc)),
        Site::Defined(_, _) => Ok(Vec::new(alloc)),
        Site::Free(_) => Ok(Vec::new(alloc)),
    }
}

/// The function of these rules in their block.
fn in_block(
    alloc: Global,
    around: &Around<'_>,
    sites: &Sites<'_>,
    spot: Spot,
    placed: BlockRules<'_, '_>,
) -> Result<Vec<LocalFunction>, AllocError>
    ensures { (t : Text) (a : meant.Around) (n : text.Node)
        → Surrounds (setting t a) around.now → IsSpotIn t sites.now spot n.spot
        → IsFunction t (blocks_in sites.now) placed.entry.block placed.entry.group.now n.site
        → IfOk result (λ found. map local_function_meaning found.items ≡ functions_of a n) }
{
    let Some(ds) = sites.blocks().get(placed.block) else {
        return Ok(Vec::new(alloc));
    };
    let entries = sites.scope(alloc, spot)?;
    let scope = Scope::outermost(entries.as_slice());
    let function = block_function(alloc, around, &scope, ds.as_slice(), placed.group)?;
    alone(alloc, function)
}

/// The local functions of a text, in its order.
pub(crate) fn local_functions(
    alloc: Global,
    around: &Around<'_>,
    sites: &Sites<'_>,
) -> Result<Vec<LocalFunction>, AllocError>
    ensures { (t : Text) (a : meant.Around) (nodes : List text.Node)
        → Surrounds (setting t a) around.now → Stands t nodes sites.now
        → IfOk result (λ found.
        map local_function_meaning found.items ≡ local_functions a nodes) }
{
    let mut functions = Vec::new(alloc);
    for node in sites.nodes() {
        let mut found = functions_of(alloc, around, sites, node)?;
        functions.append(&mut found)?;
    }
    Ok(functions)
}
