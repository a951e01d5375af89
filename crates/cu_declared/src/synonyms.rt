//! The synonyms of a module, and which of them lead to themselves.
ghost use Rattle.std.specs.Prelude.{◌≡◌, [], List, ℕ, IfOk, OnOk, length, map};
ghost use Rattle.std.specs.List.{All};
ghost use Rattle.cu_cycles.specs.Graph.{rows_in};
ghost use Rattle.cu_names.specs.Texts.{AllDiffer, IsKnown, text_of};
ghost use Rattle.cu_names.specs.declared.names.NameId.{NameId};
ghost use Rattle.cu_syntax.specs.Owners.{ItemIsOf};
ghost use Rattle.cu_declared.specs.Inside.Gathered.{UseIsOf, use_meaning, uses_meaning};
ghost use Rattle.cu_declared.specs.Inside.Items.{item_synonyms, items_synonyms};
ghost use Rattle.cu_declared.specs.Inside.Numbers.{Have};
ghost use Rattle.cu_declared.specs.Inside.Synonyms.{AreCycles, AreKept, AreSynonyms, IsKept, SynonymIsOf, flagged_fault, flagged_faults, kept_by, kept_numbers, row_of, target_of, targets};
ghost use Rattle.cu_declared.specs.Inside.Told.{IsAt, Told, World, bindings_of};
ghost use Rattle.cu_declared.specs.Parameters.{Numbered};
ghost use Rattle.cu_declared.specs.TypeFaults as meant;

use crate::arities::ModuleScope;
use crate::first_fault::FirstFault;
use crate::found::{Fault, TypeUse, Wrong};
use crate::numbers::Numbers;
use crate::types::type_term;
use cu_cycles::on_cycles;
use cu_names::{NameId, Place};
use cu_syntax::{Item, ItemNode};
use std::alloc::{AllocError, Global};

/// A synonym: where it is declared, its name, and the names of types on its
/// right.
#[derive(Drop)]
pub(crate) struct Synonym {
    pub(crate) place: Place,
    pub(crate) name: NameId,
    pub(crate) uses: Vec<TypeUse>,
}

/// The synonyms that items declare.
pub(crate) fn synonyms(alloc: Global, items: &[Item]) -> Result<Vec<Synonym>, AllocError>
    ensures { (owner : NameId) (names : List (List ℕ)) → All (ItemIsOf owner names) items.now
        → IfOk result (λ found. AreKept owner names (items_synonyms names items.now) found.items) }
{
    let mut found = Vec::new(alloc);
    'items: for item in items {
        let Some(synonym) = synonym_in(alloc, item)? else {
            continue;
        };
        found.push(synonym)?;
    }
    Ok(found)
}

/// The synonym that an item declares, if it declares one.
fn synonym_in(alloc: Global, item: &Item) -> Result<Option<Synonym>, AllocError>
    ensures { (owner : NameId) (names : List (List ℕ)) → ItemIsOf owner names item.now
        → IfOk result (λ found. IsKept owner names (item_synonyms names item.now) found) }
{
    let node = item.node(alloc)?;
    match node {
        ItemNode::Import(_import) => Ok(None),
        ItemNode::Fixity(_, _, _, _operators) => Ok(None),
        ItemNode::Data(_, _, _parameters, _constructors) => Ok(None),
        ItemNode::Synonym(place, name, _parameters, meant) => {
            let mut uses = Vec::new(alloc);
            type_term(alloc, meant, &mut uses)?;
            Ok(Some(Synonym {
                place,
                name: name.text,
                uses,
            }))
        }
        ItemNode::Declaration(_) => Ok(None),
    }
}

/// The numbers of a module's synonyms, in the order of the text.
fn synonym_numbers(
    alloc: Global,
    owner: NameId,
    synonyms: &[Synonym],
) -> Result<Numbers, AllocError>
    ensures { (of : NameId) (names : List (List ℕ)) → AllDiffer names → IsKnown names owner
        → All (SynonymIsOf of names) synonyms.now
        → IfOk result
        (Have names (kept_numbers 0 (text_of names owner) (map (kept_by names) synonyms.now))) }
{
    let mut numbers = Numbers::new(alloc);
    for number in 0..synonyms.len() {
        numbers.add(owner, synonyms[number].name, number)?;
    }
    Ok(numbers)
}

/// The number of the synonym that a name means, if it means one.
fn target(scope: ModuleScope<'_>, numbers: &Numbers, used: TypeUse) -> Option<usize>
    ensures { (w : World) (kept : List Numbered) → IsAt w scope.entry.number scope.entry.scopes.now
        → UseIsOf w.owner w.names used → Have w.names kept numbers.now
        → result ≡ target_of kept (bindings_of w) (use_meaning w.names used) }
{
    match scope.meaning(used) {
        None => None,
        Some(entity) => numbers.of(entity),
    }
}

/// The numbers of the synonyms that names mean.
fn row(
    alloc: Global,
    scope: ModuleScope<'_>,
    numbers: &Numbers,
    uses: &[TypeUse],
) -> Result<Vec<usize>, AllocError>
    ensures { (w : World) (kept : List Numbered) → IsAt w scope.entry.number scope.entry.scopes.now
        → All (UseIsOf w.owner w.names) uses.now → Have w.names kept numbers.now
        → IfOk result (λ row. row.items
        ≡ targets kept (bindings_of w) (uses_meaning w.names uses.now)) }
{
    let mut row = Vec::new(alloc);
    'uses: for used in uses {
        let Some(target) = target(scope, numbers, *used) else {
            continue;
        };
        row.push(target)?;
    }
    Ok(row)
}

/// For each synonym the numbers of those that the names on its right mean.
fn graph(
    alloc: Global,
    scope: ModuleScope<'_>,
    numbers: &Numbers,
    synonyms: &[Synonym],
) -> Result<Vec<Vec<usize>>, AllocError>
    ensures { (w : World) (kept : List Numbered) → IsAt w scope.entry.number scope.entry.scopes.now
        → All (SynonymIsOf w.owner w.names) synonyms.now → Have w.names kept numbers.now
        → IfOk result (λ rows. rows_in rows.items
        ≡ map (row_of kept (bindings_of w)) (map (kept_by w.names) synonyms.now)) }
{
    let mut rows = Vec::new(alloc);
    for synonym in synonyms {
        let row = row(alloc, scope, numbers, synonym.uses.as_slice())?;
        rows.push(row)?;
    }
    Ok(rows)
}

/// Tells a synonym that is flagged.
fn tell_flagged(flag: bool, synonym: &Synonym, first: &mut FirstFault)
    ensures { (w : World) → SynonymIsOf w.owner w.names synonym.now
        → Told w first.old (flagged_fault flag (kept_by w.names synonym.now)) first.new }
{
    if flag {
        first.tell(Fault {
            wrong: Wrong::SynonymCycle(synonym.name),
            place: synonym.place,
        });
    }
}

/// Tells the synonyms that are flagged.
fn tell_all_flagged(flags: &[bool], synonyms: &[Synonym], first: &mut FirstFault)
    requires { length flags.now ≡ length synonyms.now }
    ensures { (w : World) → All (SynonymIsOf w.owner w.names) synonyms.now
        → Told w first.old (flagged_faults flags.now (map (kept_by w.names) synonyms.now))
        first.new }
{
    for number in 0..synonyms.len() {
        tell_flagged(flags[number], &synonyms[number], first);
    }
}

/// Tells the synonyms that lead to themselves.
pub(crate) fn tell_cycles(
    alloc: Global,
    scope: ModuleScope<'_>,
    owner: NameId,
    synonyms: &[Synonym],
    first: &mut FirstFault,
) -> Result<(), AllocError>
    requires { (w : World) × AreSynonyms w scope.number owner scope.scopes.now synonyms.now }
    ensures { (w : World)
        → AreSynonyms w scope.entry.number owner scope.entry.scopes.now synonyms.now
        → OnOk result ((faults : List meant.Fault) × AreCycles w faults
        × Told w first.old faults first.new) }
{
    let numbers = synonym_numbers(alloc, owner, synonyms)?;
    let graph = graph(alloc, scope, &numbers, synonyms)?;
    let flags = on_cycles(alloc, graph.as_slice())?;
    tell_all_flagged(flags.as_slice(), synonyms, first);
    Ok(())
}
