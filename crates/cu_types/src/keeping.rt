//! Whether a solution keeps to the declared types of a group.
ghost use Rattle.std.specs.Prelude.{◌≡◌, ◌<◌, ◌+◌, ◌↔◌, [], ℕ, false, IfOk, IfSome, IsTrue, List, Some, length, map, option_map, slice_get, slice_index_or};
ghost use Rattle.std.specs.List.{list_any};
ghost use Rattle.cu_calculus.specs.declared.FunId.{FunId};
ghost use Rattle.cu_kernel.specs.Kernel.{Kernel};
ghost use Rattle.cu_types.specs.Equations as asked;
ghost use Rattle.cu_types.specs.Equations.{members};
ghost use Rattle.cu_types.specs.Inference.{KeepsDeclared};
ghost use Rattle.cu_types.specs.Inside.Keeping.{Told, became, joined, joined_if, meets, numbers_from, shape_meets, shape_variable, some_meets, variable_of, with_declared, with_member, with_members};
ghost use Rattle.cu_types.specs.Inside.Knowing.{AreMembers, IsMember};
ghost use Rattle.cu_types.specs.Meaning.{HasPlaces, subst_of, types_of_subst};
ghost use Rattle.cu_types.specs.Table.{IsTable, MayStand, shape_of, trees};

use crate::known::{Known, Member};
use crate::{Node, SharedType, Subst};
use cu_kernel::FunId;
use indexmap::IndexSet;
use std::alloc::{AllocError, Global};

/// The variable that a type of a table is, if it is one.
fn variable_at(node: &Node) -> Option<u32>
    ensures { result ≡ shape_variable (shape_of node.now) }
{
    match node {
        Node::Variable(x) => Some(*x),
        Node::Applied(_, _) => None,
    }
}

/// The variable that a variable became, if it became one.
fn variable(subst: &Subst, x: u32) -> Option<u32>
    requires table { IsTable (types_of_subst subst.now) }
    requires places { HasPlaces subst.now }
    ensures { result ≡ variable_of (subst_of subst.now x) }
{
    match subst.place(x) {
        Some(place) => variable_at(&subst.types[place]),
        None => Some(x),
    }
}

/// The variables that so many variables became, from a number on, if all
/// became variables.
fn rigid(
    alloc: Global,
    subst: &Subst,
    first: u32,
    count: u32,
) -> Result<Option<Vec<u32>>, AllocError>
    requires table { IsTable (types_of_subst subst.now) }
    requires places { HasPlaces subst.now }
    ensures { IfOk result (λ found. option_map (λ ys. ys.items) found
        ≡ became (subst_of subst.now) (numbers_from first count)) }
{
    let mut found = Vec::new(alloc);
    for offset in 0..count {
        let Some(x) = first.checked_add(offset) else {
            return Err(AllocError);
        };
        let Some(y) = variable(subst, x) else {
            return Ok(None);
        };
        found.push(y)?;
    }
    Ok(Some(found))
}

/// Adds numbers to a set. Tells whether all of them were new.
fn join(seen: &mut IndexSet<u32>, numbers: &[u32]) -> Result<bool, AllocError>
    ensures { IfOk result (λ new. Told new seen.new.keys (joined seen.old.keys numbers.now)) }
{
    for number in numbers {
        let is_new = seen.insert(*number)?;
        if !is_new {
            return Ok(false);
        }
    }
    Ok(true)
}

/// Whether something was found at one of these places.
fn some_found(found: &[bool], places: &[usize]) -> bool
    requires { (k a : ℕ) → slice_get places.now k ≡ Some a → a < length found.now }
    ensures { result ≡ list_any (λ a. slice_index_or found.now a false) places.now }
{
    for place in places {
        let is_found = found[*place];
        if is_found {
            return true;
        }
    }
    false
}

/// Whether some of these variables stand in a type of a table, where that is
/// known of the types before it.
fn node_meets(node: &Node, found: &[bool], variables: &[u32]) -> bool
    requires { MayStand (length found.now) (shape_of node.now) }
    ensures { result ≡ shape_meets (λ a. slice_index_or found.now a false) variables.now
        (shape_of node.now) }
{
    match node {
        Node::Variable(x) => variables.contains(x),
        Node::Applied(_, arguments) => some_found(found, arguments.as_slice()),
    }
}

/// Whether some of these variables stand in each type of a table.
fn meeting(alloc: Global, types: &[Node], variables: &[u32]) -> Result<Vec<bool>, AllocError>
    requires { IsTable (map shape_of types.now) }
    ensures { IfOk result (λ found. found.items
        ≡ map (meets variables.now) (trees (map shape_of types.now))) }
{
    let mut found = Vec::with_capacity(alloc, types.len())?;
    for node in types {
        let is_met = node_meets(node, found.as_slice(), variables);
        found.push(is_met)?;
    }
    Ok(found)
}

/// Whether some of these variables stand in what a variable became.
fn variable_meets(subst: &Subst, found: &[bool], variables: &[u32], x: u32) -> bool
    requires places { HasPlaces subst.now }
    requires found { found.now ≡ map (meets variables.now) (trees (types_of_subst subst.now)) }
    ensures { result ≡ meets variables.now (subst_of subst.now x) }
{
    match subst.place(x) {
        Some(place) => found[place],
        None => variables.contains(&x),
    }
}

/// Whether some of these variables stand in what so many variables became,
/// from a number on.
fn range_meets(
    alloc: Global,
    subst: &Subst,
    variables: &[u32],
    first: u32,
    count: u32,
) -> Result<bool, AllocError>
    requires table { IsTable (types_of_subst subst.now) }
    requires places { HasPlaces subst.now }
    ensures { IfOk result (λ met. met
        ≡ some_meets (subst_of subst.now) variables.now (numbers_from first count)) }
{
    let found = meeting(alloc, subst.types(), variables)?;
    for offset in 0..count {
        let Some(x) = first.checked_add(offset) else {
            return Err(AllocError);
        };
        if variable_meets(subst, found.as_slice(), variables, x) {
            return Ok(true);
        }
    }
    Ok(false)
}

/// Whether some of these variables stand in what a function captured, whose
/// first parameters these are.
fn captured_meets(
    alloc: Global,
    subst: &Subst,
    variables: &[u32],
    first: u32,
    captured: u32,
) -> Result<bool, AllocError>
    requires table { IsTable (types_of_subst subst.now) }
    requires places { HasPlaces subst.now }
    ensures { IfOk result (λ met. met
        ≡ some_meets (subst_of subst.now) variables.now (numbers_from first captured)) }
{
    if variables.is_empty() {
        return Ok(false);
    }
    if captured == 0 {
        return Ok(false);
    }
    let met = range_meets(alloc, subst, variables, first, captured)?;
    Ok(met)
}

impl Member {
    /// Where the variables of the member's declared type begin, unless the
    /// numbers run out.
    fn first_declared(&self) -> Option<u32>
        ensures { IfSome result (λ x. x ≡ self.now.first + self.now.arity + 1) }
    {
        let Some(last) = self.first.checked_add(self.arity) else {
            return None;
        };
        let Some(first) = last.checked_add(1) else {
            return None;
        };
        Some(first)
    }

    /// Adds the variables that those of the member's declared type became,
    /// unless some of them stand in what it captured. Tells whether all were
    /// added, and each was new.
    fn keeps_variables(
        &self,
        alloc: Global,
        subst: &Subst,
        seen: &mut IndexSet<u32>,
        variables: &[u32],
    ) -> Result<bool, AllocError>
        requires table { IsTable (types_of_subst subst.now) }
        requires places { HasPlaces subst.now }
        ensures { IfOk result (λ kept. Told kept seen.new.keys (joined_if (subst_of subst.now)
            seen.old.keys self.now.first self.now.captured (Some variables.now))) }
    {
        let met = captured_meets(alloc, subst, variables, self.first, self.captured)?;
        if met {
            return Ok(false);
        }
        let kept = join(seen, variables)?;
        Ok(kept)
    }

    /// Adds the variables that those of the member's declared type became, if
    /// all became variables and none stands in what it captured. Tells whether
    /// all were added, and each was new.
    fn keeps_became(
        &self,
        alloc: Global,
        subst: &Subst,
        seen: &mut IndexSet<u32>,
        became: Option<Vec<u32>>,
    ) -> Result<bool, AllocError>
        requires table { IsTable (types_of_subst subst.now) }
        requires places { HasPlaces subst.now }
        ensures { IfOk result (λ kept. Told kept seen.new.keys (joined_if (subst_of subst.now)
            seen.old.keys self.now.first self.now.captured
            (option_map (λ ys. ys.items) became))) }
    {
        match &became {
            Some(variables) => {
                let kept = self.keeps_variables(alloc, subst, seen, variables.as_slice())?;
                Ok(kept)
            }
            None => Ok(false),
        }
    }

    /// Whether the member keeps to this declared type, beside the members
    /// before it.
    fn keeps_type(
        &self,
        alloc: Global,
        subst: &Subst,
        seen: &mut IndexSet<u32>,
        declared: &SharedType,
    ) -> Result<bool, AllocError>
        requires table { IsTable (types_of_subst subst.now) }
        requires places { HasPlaces subst.now }
        ensures { IfOk result (λ kept. Told kept seen.new.keys (with_declared (subst_of subst.now)
            seen.old.keys self.now.first self.now.arity self.now.captured (Some declared.now))) }
    {
        let Some(first) = self.first_declared() else {
            return Err(AllocError);
        };
        let found = declared.breadth(alloc)?;
        let Ok(count) = u32::try_from(found) else {
            return Err(AllocError);
        };
        let became = rigid(alloc, subst, first, count)?;
        let kept = self.keeps_became(alloc, subst, seen, became)?;
        Ok(kept)
    }

    /// Whether the member keeps to its declared type, if it has one, beside the
    /// members before it.
    fn keeps(
        &self,
        alloc: Global,
        subst: &Subst,
        seen: &mut IndexSet<u32>,
    ) -> Result<bool, AllocError>
        requires table { IsTable (types_of_subst subst.now) }
        requires places { HasPlaces subst.now }
        ensures { IfOk result (λ kept. Told kept seen.new.keys (with_declared (subst_of subst.now)
            seen.old.keys self.now.first self.now.arity self.now.captured self.now.declared)) }
    {
        match &self.declared {
            Some(declared) => {
                let kept = self.keeps_type(alloc, subst, seen, declared)?;
                Ok(kept)
            }
            None => Ok(true),
        }
    }
}

impl Known {
    /// Whether a function keeps to its declared type, if it is a member of the
    /// group and has one, beside the members before it.
    fn keeps(
        &self,
        alloc: Global,
        subst: &Subst,
        seen: &mut IndexSet<u32>,
    ) -> Result<bool, AllocError>
        requires table { IsTable (types_of_subst subst.now) }
        requires places { HasPlaces subst.now }
        ensures { IfOk result (λ kept. (kernel : Kernel) (f : FunId) (m : asked.Member)
            → IsMember kernel (Some self.now) f m
            → Told kept seen.new.keys (with_member (subst_of subst.now) seen.old.keys m)) }
    {
        match self {
            Known::Nothing => Ok(true),
            Known::Typed(_) => Ok(true),
            Known::Member(member) => {
                let kept = member.keeps(alloc, subst, seen)?;
                Ok(kept)
            }
        }
    }
}

/// Whether the function of this number keeps to its declared type, if it is a
/// member of the group and has one, beside the members before it.
fn known_keeps(
    alloc: Global,
    known: &[Known],
    f: FunId,
    subst: &Subst,
    seen: &mut IndexSet<u32>,
) -> Result<bool, AllocError>
    requires table { IsTable (types_of_subst subst.now) }
    requires places { HasPlaces subst.now }
    ensures { IfOk result (λ kept. (kernel : Kernel) (m : asked.Member)
        → IsMember kernel (slice_get known.now f.0) f m
        → Told kept seen.new.keys (with_member (subst_of subst.now) seen.old.keys m)) }
{
    match known.get(f.0) {
        Some(function) => {
            let kept = function.keeps(alloc, subst, seen)?;
            Ok(kept)
        }
        None => Ok(true),
    }
}

/// A set of no numbers.
fn nothing_seen(alloc: Global) -> IndexSet<u32>
    ensures { result.keys ≡ [] }
{
    IndexSet::new(alloc)
}

/// Whether a solution keeps to the declared types of a group, one member
/// after another.
fn all_keep(
    alloc: Global,
    known: &[Known],
    group: &[FunId],
    subst: &Subst,
) -> Result<bool, AllocError>
    requires table { IsTable (types_of_subst subst.now) }
    requires places { HasPlaces subst.now }
    ensures { IfOk result (λ kept. (kernel : Kernel) (ms : List asked.Member)
        → AreMembers kernel known.now group.now ms
        → (keys : List ℕ) × Told kept keys (with_members (subst_of subst.now) [] ms)) }
{
    let mut seen = nothing_seen(alloc);
    for f in group {
        let kept = known_keeps(alloc, known, *f, subst, &mut seen)?;
        if !kept {
            return Ok(false);
        }
    }
    Ok(true)
}

/// Whether a solution keeps to the declared types of a group.
pub(crate) fn keeps(
    alloc: Global,
    known: &[Known],
    group: &[FunId],
    subst: &Subst,
) -> Result<bool, AllocError>
    requires table { IsTable (types_of_subst subst.now) }
    requires places { HasPlaces subst.now }
    ensures { IfOk result (λ kept. (kernel : Kernel)
        → AreMembers kernel known.now group.now (members kernel group.now)
        → (IsTrue kept ↔ KeepsDeclared (subst_of subst.now) (members kernel group.now))) }
{
    let kept = all_keep(alloc, known, group, subst)?;
    Ok(kept)
}
