//! The names in patterns and types.
ghost use Rattle.std.specs.Prelude.{◌≡◌, [], ◌∷◌, List, ℕ, OnOk};
ghost use Rattle.std.specs.List.{All};
ghost use Rattle.cu_names.specs.declared.names.NameId.{NameId};
ghost use Rattle.cu_syntax.specs.Names.{name_meaning};
ghost use Rattle.cu_syntax.specs.Owners.{ConstructorItemIsOf, NameIsOf, PatternIsOf, TypeIsOf};
ghost use Rattle.cu_uses.specs.Gathered.{Finds, operands_bind, operands_build, pattern_binds, pattern_builds, patterns_bind, patterns_build, type_binds, type_builds, types_bind, types_build};

use cu_syntax::{ConstructorItem, Name, Pattern, PatternNode, TypeNode, TypeTerm};
use std::alloc::{AllocError, Global};

/// The variables and the constructors that were found, in the order of the text.
#[derive(Drop)]
pub(crate) struct Found {
    pub(crate) variables: Vec<Name>,
    pub(crate) constructors: Vec<Name>,
}

impl Found {
    pub(crate) fn new(alloc: Global) -> Found
        ensures variables { result.variables.items ≡ [] }
        ensures constructors { result.constructors.items ≡ [] }
    {
        Found {
            variables: Vec::new(alloc),
            constructors: Vec::new(alloc),
        }
    }

    fn variable(&mut self, name: Name) -> Result<(), AllocError>
        ensures { (owner : NameId) (names : List (List ℕ)) → NameIsOf owner names name
            → OnOk result (Finds owner names self.old (name_meaning names name ∷ []) [] self.new) }
    {
        self.variables.push(name)?;
        Ok(())
    }

    fn constructor(&mut self, name: Name) -> Result<(), AllocError>
        ensures { (owner : NameId) (names : List (List ℕ)) → NameIsOf owner names name
            → OnOk result (Finds owner names self.old [] (name_meaning names name ∷ []) self.new) }
    {
        self.constructors.push(name)?;
        Ok(())
    }
}

/// Finds what a pattern binds and which constructors it has.
#[cycle(patterns)]
pub(crate) fn pattern(alloc: Global, p: Pattern<'_>, found: &mut Found) -> Result<(), AllocError>
    ensures { (owner : NameId) (names : List (List ℕ)) → PatternIsOf owner names p.entry
        → OnOk result (Finds owner names found.old
        (pattern_binds names p.entry) (pattern_builds names p.entry) found.new) }
{
    match p.node(alloc)? {
        PatternNode::Variable(name) => found.variable(name),
        PatternNode::Alias(name, inner) => {
            found.variable(name)?;
            pattern(alloc, inner, found)
        }
        PatternNode::Wildcard(_) | PatternNode::Literal(_, _) | PatternNode::Negative(_, _) => {
            Ok(())
        }
        PatternNode::Constructed(_, name, arguments) => {
            found.constructor(name)?;
            patterns(alloc, arguments.as_slice(), found)
        }
        PatternNode::Tuple(_, components) => patterns(alloc, components.as_slice(), found),
        PatternNode::List(_, elements) => patterns(alloc, elements.as_slice(), found),
        PatternNode::Operators(items) => {
            pattern(alloc, items.first, found)?;
            operands(alloc, items.rest.as_slice(), found)
        }
    }
}

/// Finds the names in several patterns.
#[cycle(patterns)]
pub(crate) fn patterns(
    alloc: Global,
    ps: &[Pattern<'_>],
    found: &mut Found,
) -> Result<(), AllocError>
    ensures { (owner : NameId) (names : List (List ℕ)) → All (PatternIsOf owner names) ps.now
        → OnOk result (Finds owner names found.old
        (patterns_bind names ps.now) (patterns_build names ps.now) found.new) }
{
    for p in ps {
        pattern(alloc, *p, found)?;
    }
    Ok(())
}

/// Finds the names in operators and the operands after them.
#[cycle(patterns)]
fn operands(
    alloc: Global,
    items: &[ConstructorItem<'_>],
    found: &mut Found,
) -> Result<(), AllocError>
    ensures { (owner : NameId) (names : List (List ℕ))
        → All (ConstructorItemIsOf owner names) items.now
        → OnOk result (Finds owner names found.old
        (operands_bind names items.now) (operands_build names items.now) found.new) }
{
    for item in items {
        found.constructor(item.operator)?;
        pattern(alloc, item.operand, found)?;
    }
    Ok(())
}

/// Finds the names in a type.
#[cycle(types)]
pub(crate) fn type_term(alloc: Global, t: TypeTerm<'_>, found: &mut Found) -> Result<(), AllocError>
    ensures { (owner : NameId) (names : List (List ℕ)) → TypeIsOf owner names t.entry
        → OnOk result (Finds owner names found.old
        (type_binds names t.entry) (type_builds names t.entry) found.new) }
{
    match t.node(alloc)? {
        TypeNode::Variable(name) => found.variable(name),
        TypeNode::Named(name, arguments) => {
            found.constructor(name)?;
            types(alloc, arguments.as_slice(), found)
        }
        TypeNode::Function(first, further, result) => {
            type_term(alloc, first, found)?;
            types(alloc, further.as_slice(), found)?;
            type_term(alloc, result, found)
        }
        TypeNode::Tuple(_, components) => types(alloc, components.as_slice(), found),
        TypeNode::List(_, element) => type_term(alloc, element, found),
    }
}

/// Finds the names in several types.
#[cycle(types)]
pub(crate) fn types(alloc: Global, ts: &[TypeTerm<'_>], found: &mut Found) -> Result<(), AllocError>
    ensures { (owner : NameId) (names : List (List ℕ)) → All (TypeIsOf owner names) ts.now
        → OnOk result (Finds owner names found.old
        (types_bind names ts.now) (types_build names ts.now) found.new) }
{
    for t in ts {
        type_term(alloc, *t, found)?;
    }
    Ok(())
}
