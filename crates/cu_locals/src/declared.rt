//! The variables and the wildcards of patterns.
ghost use Rattle.std.specs.Prelude.{◌≡◌, [], ◌∷◌, IfOk, OnOk};
ghost use Rattle.std.specs.List.{All};
ghost use Rattle.cu_lex.specs.Reading.{position_of};
ghost use Rattle.cu_names.specs.declared.place.Place.{Place};
ghost use Rattle.cu_syntax.specs.Names.{name_meaning};
ghost use Rattle.cu_syntax.specs.Owners.{ConstructorItemIsOf, NameIsOf, PatternIsOf};
ghost use Rattle.cu_uses.specs.Gathered.{Adds, operands_bind, pattern_binds, patterns_bind};
ghost use Rattle.cu_locals.specs.Text.{Text};
ghost use Rattle.cu_locals.specs.Places.{Finds, operands_place, pattern_places, patterns_place, positions_meaning};

use cu_names::Place;
use cu_syntax::{ConstructorItem, Name, Pattern, PatternNode};
use cu_translation::Position;
use std::alloc::{AllocError, Global};

/// What patterns declare, in the order of the text.
#[derive(Drop)]
pub(crate) struct Declared {
    /// The variables of the patterns.
    pub(crate) names: Vec<Name>,
    /// The places of the variables and the wildcards.
    pub(crate) places: Vec<Position>,
}

impl Declared {
    pub(crate) fn new(alloc: Global) -> Declared
        ensures names { result.names.items ≡ [] }
        ensures places { result.places.items ≡ [] }
    {
        Declared {
            names: Vec::new(alloc),
            places: Vec::new(alloc),
        }
    }

    fn variable(&mut self, name: Name) -> Result<(), AllocError>
        ensures { (t : Text) → NameIsOf t.owner t.names name
            → OnOk result (Finds t self.old
            (name_meaning t.names name ∷ []) (position_of name.place ∷ []) self.new) }
    {
        self.names.push(name)?;
        self.places.push(Position::of(name.place))?;
        Ok(())
    }

    fn wildcard(&mut self, place: Place) -> Result<(), AllocError>
        ensures { (t : Text)
            → OnOk result (Finds t self.old [] (position_of place ∷ []) self.new) }
    {
        self.places.push(Position::of(place))?;
        Ok(())
    }
}

/// Finds what a pattern declares.
#[cycle(patterns)]
pub(crate) fn pattern(alloc: Global, p: Pattern<'_>, found: &mut Declared) -> Result<(), AllocError>
    ensures { (t : Text) → PatternIsOf t.owner t.names p.entry
        → OnOk result (Finds t found.old
        (pattern_binds t.names p.entry) (pattern_places t.names p.entry) found.new) }
{
    match p.node(alloc)? {
        PatternNode::Variable(name) => found.variable(name),
        PatternNode::Alias(name, inner) => {
            found.variable(name)?;
            pattern(alloc, inner, found)
        }
        PatternNode::Wildcard(place) => found.wildcard(place),
        PatternNode::Literal(_, _) => Ok(()),
        PatternNode::Negative(_, _) => Ok(()),
        PatternNode::Constructed(_, _, arguments) => patterns(alloc, arguments.as_slice(), found),
        PatternNode::Tuple(_, components) => patterns(alloc, components.as_slice(), found),
        PatternNode::List(_, elements) => patterns(alloc, elements.as_slice(), found),
        PatternNode::Operators(items) => {
            pattern(alloc, items.first, found)?;
            operands(alloc, items.rest.as_slice(), found)
        }
    }
}

/// Finds what several patterns declare.
#[cycle(patterns)]
pub(crate) fn patterns(
    alloc: Global,
    ps: &[Pattern<'_>],
    found: &mut Declared,
) -> Result<(), AllocError>
    ensures { (t : Text) → All (PatternIsOf t.owner t.names) ps.now
        → OnOk result (Finds t found.old
        (patterns_bind t.names ps.now) (patterns_place t.names ps.now) found.new) }
{
    for p in ps {
        pattern(alloc, *p, found)?;
    }
    Ok(())
}

/// Finds what the operands declare that follow operators.
#[cycle(patterns)]
fn operands(
    alloc: Global,
    items: &[ConstructorItem<'_>],
    found: &mut Declared,
) -> Result<(), AllocError>
    ensures { (t : Text) → All (ConstructorItemIsOf t.owner t.names) items.now
        → OnOk result (Finds t found.old
        (operands_bind t.names items.now) (operands_place t.names items.now) found.new) }
{
    for item in items {
        pattern(alloc, item.operand, found)?;
    }
    Ok(())
}

/// The variables of a pattern.
pub fn pattern_variables(alloc: Global, p: Pattern<'_>) -> Result<Vec<Name>, AllocError>
    ensures { (t : Text) → PatternIsOf t.owner t.names p.entry
        → IfOk result (λ found. Adds t.owner t.names []
        (pattern_binds t.names p.entry) found.items) }
{
    let mut found = Declared::new(alloc);
    pattern(alloc, p, &mut found)?;
    Ok(found.names)
}

/// The variables of several patterns.
pub fn variables(alloc: Global, ps: &[Pattern<'_>]) -> Result<Vec<Name>, AllocError>
    ensures { (t : Text) → All (PatternIsOf t.owner t.names) ps.now
        → IfOk result (λ found. Adds t.owner t.names []
        (patterns_bind t.names ps.now) found.items) }
{
    let mut found = Declared::new(alloc);
    patterns(alloc, ps, &mut found)?;
    Ok(found.names)
}

/// The places of the variables and the wildcards of a pattern.
pub fn pattern_places(alloc: Global, p: Pattern<'_>) -> Result<Vec<Position>, AllocError>
    ensures { (t : Text) → PatternIsOf t.owner t.names p.entry
        → IfOk result (λ found.
        positions_meaning found.items ≡ pattern_places t.names p.entry) }
{
    let mut found = Declared::new(alloc);
    pattern(alloc, p, &mut found)?;
    Ok(found.places)
}

/// The places of the variables and the wildcards of several patterns.
pub fn places(alloc: Global, ps: &[Pattern<'_>]) -> Result<Vec<Position>, AllocError>
    ensures { (t : Text) → All (PatternIsOf t.owner t.names) ps.now
        → IfOk result (λ found.
        positions_meaning found.items ≡ patterns_place t.names ps.now) }
{
    let mut found = Declared::new(alloc);
    patterns(alloc, ps, &mut found)?;
    Ok(found.places)
}
