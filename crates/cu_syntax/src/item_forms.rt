//! The forms of items, headers and goals in trees of the grammar.
ghost use Rattle.std.specs.Prelude.{◌≡◌, ℕ, List, [], IfOk, IfSome, map, true};
ghost use Rattle.std.specs.List.{All};
ghost use Rattle.std.specs.Option.{option_map, unwrap_or};
ghost use Rattle.cu_names.specs.declared.names.NameId.{NameId};
ghost use Rattle.cu_syntax.specs.Forms.{is_constructor_node, is_item_node};
ghost use Rattle.cu_syntax.specs.Items.{constructor_meaning, constructors_meaning, entity_meaning, export_meaning, import_list_meaning, import_meaning, item_node};
ghost use Rattle.cu_syntax.specs.Names.{module_name_meaning, name_meaning};
ghost use Rattle.cu_syntax.specs.Owners.{ConstructorDeclarationIsOf, ConstructorsAreOf, EntityIsOf, ExportIsOf, ImportIsOf, ImportListIsOf, IsOf, ItemNodeIsOf, ModuleNameIsOf, NameIsOf};
ghost use Rattle.cu_syntax.specs.Reading.{alias_of, constructor_as, constructors_named, constructors_of, digit_of, each_in, entity_of, export_of, exports_of, goal_variables, import_list, import_of, item_as, optional, side_of};
ghost use Rattle.cu_syntax.specs.SubtreeMeaning.{tree_of};
ghost use Rattle.cu_syntax.specs.declared.symbol.Symbol.TheVariants as symbol;

use crate::declaration_forms::names;
use crate::declarations::Declaration;
use crate::items::{
    ConstructorDeclaration, Constructors, Entity, Export, Import, ImportList, ItemNode, Side,
};
use crate::name::{ModuleName, Name};
use crate::subtree::Subtree;
use crate::symbol::Symbol;
use crate::type_forms;
use crate::types::TypeTerm;
use std::alloc::{AllocError, Global};

/// An item that isn't an import.
pub(crate) fn item(alloc: Global, tree: Subtree<'_>) -> Result<ItemNode<'_>, AllocError>
    requires { is_item_node tree.symbol ≡ true }
    ensures meaning { (names : List (List ℕ))
        → IfOk result (λ node. item_node names node
        ≡ item_as tree.entry.symbol (tree_of names tree.entry)) }
    ensures owned { (owner : NameId) (names : List (List ℕ)) → IsOf owner names tree.entry
        → IfOk result (ItemNodeIsOf owner names) }
{
    match tree.symbol {
        Symbol::FixityDecl => fixity(alloc, tree),
        Symbol::DataDecl => data(alloc, tree),
        Symbol::SynonymDecl => synonym(alloc, tree),
        Symbol::Signature => Ok(ItemNode::Declaration(Declaration::new(tree))),
        Symbol::TopRule => Ok(ItemNode::Declaration(Declaration::new(tree))),
        _ => unreachable!(),
    }
}

fn fixity(alloc: Global, tree: Subtree<'_>) -> Result<ItemNode<'_>, AllocError>
    requires { tree.symbol ≡ symbol.FixityDecl }
    ensures meaning { (names : List (List ℕ))
        → IfOk result (λ node. item_node names node
        ≡ item_as symbol.FixityDecl (tree_of names tree.entry)) }
    ensures owned { (owner : NameId) (names : List (List ℕ)) → IsOf owner names tree.entry
        → IfOk result (ItemNodeIsOf owner names) }
{
    let side = side(tree.part(0, Symbol::FixityWord));
    let level = level(tree.part(1, Symbol::OptionalDigit));
    let operators = names(alloc, tree.part(2, Symbol::OpList), Symbol::Op)?;
    Ok(ItemNode::Fixity(tree.place(), side, level, operators))
}

fn side(tree: Subtree<'_>) -> Side
    requires { tree.symbol ≡ symbol.FixityWord }
    ensures { (names : List (List ℕ)) → result ≡ side_of (tree_of names tree.entry) }
{
    match tree.chosen().symbol {
        Symbol::Infixl => Side::Left,
        Symbol::Infixr => Side::Right,
        _ => Side::Neither,
    }
}

/// The level of a fixity declaration: 9 where none is written.
fn level(tree: Subtree<'_>) -> u32
    requires { tree.symbol ≡ symbol.OptionalDigit }
    ensures { (names : List (List ℕ)) → result
        ≡ unwrap_or (optional digit_of (tree_of names tree.entry)) 9 }
{
    match tree.optional(Symbol::Digit) {
        Some(digit) => digit.digit(),
        None => 9,
    }
}

fn data(alloc: Global, tree: Subtree<'_>) -> Result<ItemNode<'_>, AllocError>
    requires { tree.symbol ≡ symbol.DataDecl }
    ensures meaning { (names : List (List ℕ))
        → IfOk result (λ node. item_node names node
        ≡ item_as symbol.DataDecl (tree_of names tree.entry)) }
    ensures owned { (owner : NameId) (names : List (List ℕ)) → IsOf owner names tree.entry
        → IfOk result (ItemNodeIsOf owner names) }
{
    let name = tree.part(1, Symbol::ConId).name();
    let parameters = names(alloc, tree.part(2, Symbol::TypeVars), Symbol::VarId)?;
    let constructors = constructors(alloc, tree.part(3, Symbol::OptionalConDecls))?;
    Ok(ItemNode::Data(tree.place(), name, parameters, constructors))
}

/// The constructors after the equals sign, if there are any.
fn constructors(
    alloc: Global,
    tree: Subtree<'_>,
) -> Result<Vec<ConstructorDeclaration<'_>>, AllocError>
    requires { tree.symbol ≡ symbol.OptionalConDecls }
    ensures meaning { (names : List (List ℕ))
        → IfOk result (λ found. map (constructor_meaning names) found.items
        ≡ unwrap_or (optional constructors_of (tree_of names tree.entry)) []) }
    ensures owned { (owner : NameId) (names : List (List ℕ)) → IsOf owner names tree.entry
        → IfOk result (λ found. All (ConstructorDeclarationIsOf owner names) found.items) }
{
    let mut constructors = Vec::new(alloc);
    let Some(declarations) = tree.optional(Symbol::ConDecls) else {
        return Ok(constructors);
    };
    let list = declarations.part(1, Symbol::ConDeclList);
    for declaration in list.repeated(alloc, Symbol::ConDecl)? {
        constructors.push(constructor(alloc, declaration.chosen())?)?;
    }
    Ok(constructors)
}

/// The declaration of a constructor, which stands between two types or before
/// its types.
fn constructor(alloc: Global, tree: Subtree<'_>) -> Result<ConstructorDeclaration<'_>, AllocError>
    requires { is_constructor_node tree.symbol ≡ true }
    ensures meaning { (names : List (List ℕ))
        → IfOk result (λ found. constructor_meaning names found
        ≡ constructor_as tree.entry.symbol (tree_of names tree.entry)) }
    ensures owned { (owner : NameId) (names : List (List ℕ)) → IsOf owner names tree.entry
        → IfOk result (ConstructorDeclarationIsOf owner names) }
{
    match tree.symbol {
        Symbol::InfixConDecl => {
            let left = TypeTerm::new(tree.part(0, Symbol::BType));
            let right = TypeTerm::new(tree.part(2, Symbol::BType));
            Ok(ConstructorDeclaration {
                place: tree.place(),
                name: tree.part(1, Symbol::ConOp).name(),
                fields: vec![in alloc; left, right]?,
            })
        }
        Symbol::PrefixConDecl => Ok(ConstructorDeclaration {
            place: tree.place(),
            name: tree.part(0, Symbol::Con).name(),
            fields: type_forms::all(alloc, tree.part(1, Symbol::ATypes), Symbol::AType)?,
        }),
        _ => unreachable!(),
    }
}

fn synonym(alloc: Global, tree: Subtree<'_>) -> Result<ItemNode<'_>, AllocError>
    requires { tree.symbol ≡ symbol.SynonymDecl }
    ensures meaning { (names : List (List ℕ))
        → IfOk result (λ node. item_node names node
        ≡ item_as symbol.SynonymDecl (tree_of names tree.entry)) }
    ensures owned { (owner : NameId) (names : List (List ℕ)) → IsOf owner names tree.entry
        → IfOk result (ItemNodeIsOf owner names) }
{
    let name = tree.part(1, Symbol::ConId).name();
    let parameters = names(alloc, tree.part(2, Symbol::TypeVars), Symbol::VarId)?;
    let term = TypeTerm::new(tree.part(4, Symbol::TypeExp));
    Ok(ItemNode::Synonym(tree.place(), name, parameters, term))
}

pub(crate) fn import(alloc: Global, tree: Subtree<'_>) -> Result<Import, AllocError>
    requires { tree.symbol ≡ symbol.ImportDecl }
    ensures meaning { (names : List (List ℕ))
        → IfOk result (λ import. import_meaning names import
        ≡ import_of (tree_of names tree.entry)) }
    ensures owned { (owner : NameId) (names : List (List ℕ)) → IsOf owner names tree.entry
        → IfOk result (ImportIsOf owner names) }
{
    let qualified = tree
        .part(1, Symbol::OptionalQualified)
        .optional(Symbol::Qualified)
        .is_some();
    Ok(Import {
        place: tree.place(),
        qualified,
        name: tree.part(2, Symbol::ModuleName).module_name(),
        alias: alias(tree.part(3, Symbol::OptionalAlias)),
        list: imports(alloc, tree.part(4, Symbol::OptionalImports))?,
    })
}

fn alias(tree: Subtree<'_>) -> Option<ModuleName>
    requires { tree.symbol ≡ symbol.OptionalAlias }
    ensures meaning { (names : List (List ℕ)) → option_map (module_name_meaning names) result
        ≡ optional alias_of (tree_of names tree.entry) }
    ensures owned { (owner : NameId) (names : List (List ℕ)) → IsOf owner names tree.entry
        → IfSome result (ModuleNameIsOf owner names) }
{
    let alias = tree.optional(Symbol::Alias)?;
    Some(alias.part(1, Symbol::ModuleName).module_name())
}

fn imports(alloc: Global, tree: Subtree<'_>) -> Result<Option<ImportList>, AllocError>
    requires { tree.symbol ≡ symbol.OptionalImports }
    ensures meaning { (names : List (List ℕ))
        → IfOk result (λ list. option_map (import_list_meaning names) list
        ≡ optional import_list (tree_of names tree.entry)) }
    ensures owned { (owner : NameId) (names : List (List ℕ)) → IsOf owner names tree.entry
        → IfOk result (λ found. IfSome found (ImportListIsOf owner names)) }
{
    let Some(imports) = tree.optional(Symbol::Imports) else {
        return Ok(None);
    };
    let hides = imports
        .part(0, Symbol::OptionalHiding)
        .optional(Symbol::Hiding)
        .is_some();
    let entities = entities(alloc, imports.part(2, Symbol::OptionalEntityList))?;
    Ok(Some(ImportList { hides, entities }))
}

fn entities(alloc: Global, tree: Subtree<'_>) -> Result<Vec<Entity>, AllocError>
    requires { tree.symbol ≡ symbol.OptionalEntityList }
    ensures meaning { (names : List (List ℕ))
        → IfOk result (λ found. map (entity_meaning names) found.items
        ≡ unwrap_or (optional (each_in entity_of) (tree_of names tree.entry)) []) }
    ensures owned { (owner : NameId) (names : List (List ℕ)) → IsOf owner names tree.entry
        → IfOk result (λ found. All (EntityIsOf owner names) found.items) }
{
    let mut entities = Vec::new(alloc);
    let Some(list) = tree.optional(Symbol::EntityList) else {
        return Ok(entities);
    };
    for part in list.repeated(alloc, Symbol::Entity)? {
        entities.push(entity(alloc, part)?)?;
    }
    Ok(entities)
}

fn entity(alloc: Global, tree: Subtree<'_>) -> Result<Entity, AllocError>
    requires { tree.symbol ≡ symbol.Entity }
    ensures meaning { (names : List (List ℕ))
        → IfOk result (λ entity. entity_meaning names entity
        ≡ entity_of (tree_of names tree.entry)) }
    ensures owned { (owner : NameId) (names : List (List ℕ)) → IsOf owner names tree.entry
        → IfOk result (EntityIsOf owner names) }
{
    let chosen = tree.chosen();
    match chosen.symbol {
        Symbol::QVar => Ok(Entity::Variable(chosen.place(), chosen.name())),
        _ => {
            let name = chosen.part(0, Symbol::QCon).name();
            let constructors = chosen.part(1, Symbol::OptionalConstructors);
            let constructors = named_constructors(alloc, constructors)?;
            Ok(Entity::Type(chosen.place(), name, constructors))
        }
    }
}

/// Which constructors come with a type.
fn named_constructors(alloc: Global, tree: Subtree<'_>) -> Result<Constructors, AllocError>
    requires { tree.symbol ≡ symbol.OptionalConstructors }
    ensures meaning { (names : List (List ℕ))
        → IfOk result (λ found. constructors_meaning names found
        ≡ constructors_named (tree_of names tree.entry)) }
    ensures owned { (owner : NameId) (names : List (List ℕ)) → IsOf owner names tree.entry
        → IfOk result (ConstructorsAreOf owner names) }
{
    let Some(constructors) = tree.optional(Symbol::Constructors) else {
        return Ok(Constructors::None);
    };
    let named = constructors.part(1, Symbol::ConstructorNames).chosen();
    match named.symbol {
        Symbol::DotDot => Ok(Constructors::All),
        _ => match named.optional(Symbol::ConstructorList) {
            Some(list) => Ok(Constructors::Only(names(alloc, list, Symbol::Con)?)),
            None => Ok(Constructors::Only(Vec::new(alloc))),
        },
    }
}

/// The exports of a header, if it lists them.
pub(crate) fn exports(alloc: Global, tree: Subtree<'_>) -> Result<Option<Vec<Export>>, AllocError>
    requires { tree.symbol ≡ symbol.OptionalExports }
    ensures meaning { (names : List (List ℕ))
        → IfOk result
        (λ found. option_map (λ exports. map (export_meaning names) exports.items) found
        ≡ optional exports_of (tree_of names tree.entry)) }
    ensures owned { (owner : NameId) (names : List (List ℕ)) → IsOf owner names tree.entry
        → IfOk result (λ found. IfSome found
        (λ exports. All (ExportIsOf owner names) exports.items)) }
{
    match tree.optional(Symbol::Exports) {
        Some(exports) => {
            let list = exports.part(1, Symbol::OptionalExportList);
            Ok(Some(export_list(alloc, list)?))
        }
        None => Ok(None),
    }
}

/// The exports between the parentheses.
fn export_list(alloc: Global, tree: Subtree<'_>) -> Result<Vec<Export>, AllocError>
    requires { tree.symbol ≡ symbol.OptionalExportList }
    ensures meaning { (names : List (List ℕ))
        → IfOk result (λ found. map (export_meaning names) found.items
        ≡ unwrap_or (optional (each_in export_of) (tree_of names tree.entry)) []) }
    ensures owned { (owner : NameId) (names : List (List ℕ)) → IsOf owner names tree.entry
        → IfOk result (λ found. All (ExportIsOf owner names) found.items) }
{
    let mut exports = Vec::new(alloc);
    let Some(list) = tree.optional(Symbol::ExportList) else {
        return Ok(exports);
    };
    for part in list.repeated(alloc, Symbol::Export)? {
        exports.push(export(alloc, part)?)?;
    }
    Ok(exports)
}

fn export(alloc: Global, tree: Subtree<'_>) -> Result<Export, AllocError>
    requires { tree.symbol ≡ symbol.Export }
    ensures meaning { (names : List (List ℕ))
        → IfOk result (λ export. export_meaning names export
        ≡ export_of (tree_of names tree.entry)) }
    ensures owned { (owner : NameId) (names : List (List ℕ)) → IsOf owner names tree.entry
        → IfOk result (ExportIsOf owner names) }
{
    let chosen = tree.chosen();
    match chosen.symbol {
        Symbol::ModuleExport => Ok(Export::Module(
            chosen.place(),
            chosen.part(1, Symbol::ModuleName).module_name(),
        )),
        _ => Ok(Export::Entity(entity(alloc, chosen)?)),
    }
}

/// The variables that a goal declares free.
pub(crate) fn goal_variables(alloc: Global, tree: Subtree<'_>) -> Result<Vec<Name>, AllocError>
    requires { tree.symbol ≡ symbol.OptionalGoalWhere }
    ensures meaning { (names : List (List ℕ))
        → IfOk result (λ found. map (name_meaning names) found.items
        ≡ goal_variables (tree_of names tree.entry)) }
    ensures owned { (owner : NameId) (names : List (List ℕ)) → IsOf owner names tree.entry
        → IfOk result (λ found. All (NameIsOf owner names) found.items) }
{
    let mut variables = Vec::new(alloc);
    let Some(declarations) = tree.optional(Symbol::GoalWhere) else {
        return Ok(variables);
    };
    let list = declarations.part(2, Symbol::FreeDeclList);
    for declaration in list.repeated(alloc, Symbol::FreeDecl)? {
        let declared = names(alloc, declaration.part(0, Symbol::VarIdList), Symbol::VarId)?;
        variables.extend_from_slice(declared.as_slice())?;
    }
    Ok(variables)
}
