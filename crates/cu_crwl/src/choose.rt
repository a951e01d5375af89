//! Which alternative of a case distinction a value takes.
ghost use Rattle.std.specs.Prelude.{◌≡◌, ◌∷◌, [], ◌++◌, ◌<◌, ◌≤◌, Bool, IfOk, IsTrue, List, OnOk, filter, length, map, option_map, take, drop, slice_get};
ghost use Rattle.cu_calculus.specs.Choose as calculus;
ghost use Rattle.cu_calculus.specs.Choose.{demand_at, has_variable, specialized_row, not_literal, rows_from, spliced};
ghost use Rattle.cu_calculus.specs.Chosen.{chosen};
ghost use Rattle.cu_kernel.specs.Heads.{heads_program};
ghost use Rattle.cu_kernel.specs.TermsOf.{alternatives_of};
ghost use Rattle.cu_matrix.specs.Meaning.{demand_meaning};
ghost use Rattle.cu_crwl.specs.Inside.Rows.{keeps, look_meaning, row_meaning, rows_meaning};

use cu_kernel::{ConId, Heads, Lit, Pattern, Term};
use cu_matrix::{Demand, demanded, leftmost, of_one_type, opened_patterns};
use cu_values::{Cell, Value};
use std::alloc::{AllocError, Global};

/// A row of the clause matrix: the patterns of an alternative that are still to
/// be looked at, one for each value that is looked at.
#[derive(Drop)]
pub(crate) struct Row<'a> {
    pub(crate) patterns: Vec<&'a Pattern>,
    /// The number of the alternative, counted from 0.
    pub(crate) choice: usize,
}

/// A column of the clause matrix at which the first row demands something.
#[derive(Clone, Copy)]
struct Column<'m, 'a> {
    rows: &'m [Row<'a>],
    /// The values with which the rows are matched, one for each pattern of a
    /// row.
    values: &'m [Value],
    /// The position of the column's patterns in the rows, and that of the value
    /// that they are matched with.
    position: usize,
    /// What the first row demands at the position.
    first: Demand,
}

/// A test that says which rows stay, by what they demand at a position.
#[derive(Clone, Copy)]
pub(crate) enum Keep {
    OnlyLiteral(Lit),
    LiteralOrNothing(Lit),
    NotLiteral(Lit),
    OnlyConstructor(ConId),
    ConstructorOrNothing(ConId),
}

/// What one look at rows finds out.
#[derive(Drop)]
pub(crate) enum Look<'a> {
    /// No alternative is taken.
    Nowhere,
    /// The alternative of this number is taken.
    Take(usize),
    /// Fewer rows are left, over the same values.
    Again(Vec<Row<'a>>),
    /// Fewer rows are left, over the arguments of the value that was looked at.
    Specialize(Vec<Row<'a>>, Vec<Value>),
}

impl Keep {
    /// Whether a row with this demand stays by the test.
    fn admits(self, demand: Demand) -> bool
        ensures { result ≡ keeps self (demand_meaning demand) }
    {
        match (self, demand) {
            (Keep::OnlyLiteral(literal), Demand::Literal(other)) => literal == other,
            (Keep::OnlyLiteral(_), Demand::Nothing) => false,
            (Keep::OnlyLiteral(_), Demand::Constructor(_)) => false,
            (Keep::LiteralOrNothing(literal), Demand::Literal(other)) => literal == other,
            (Keep::LiteralOrNothing(_), Demand::Nothing) => true,
            (Keep::LiteralOrNothing(_), Demand::Constructor(_)) => false,
            (Keep::NotLiteral(literal), Demand::Literal(other)) => literal != other,
            (Keep::NotLiteral(_), Demand::Nothing) => true,
            (Keep::NotLiteral(_), Demand::Constructor(_)) => true,
            (Keep::OnlyConstructor(constructor), Demand::Constructor(other)) => constructor.0
                == other.0,
            (Keep::OnlyConstructor(_), Demand::Nothing) => false,
            (Keep::OnlyConstructor(_), Demand::Literal(_)) => false,
            (Keep::ConstructorOrNothing(constructor), Demand::Constructor(other)) => constructor.0
                == other.0,
            (Keep::ConstructorOrNothing(_), Demand::Nothing) => true,
            (Keep::ConstructorOrNothing(_), Demand::Literal(_)) => false,
        }
    }
}

impl<'a> Row<'a> {
    /// What the row demands at a position.
    fn demand_at(&self, position: usize) -> Demand
        ensures { demand_meaning result ≡ demand_at position (row_meaning self.now) }
    {
        if position < self.patterns.len() {
            demanded(self.patterns[position])
        } else {
            Demand::Nothing
        }
    }

    /// A copy of the row.
    fn copied(&self, alloc: Global) -> Result<Row<'a>, AllocError>
        ensures { IfOk result (λ row. row_meaning row ≡ row_meaning self.now) }
    {
        let mut patterns = Vec::new(alloc);
        patterns.extend_from_slice(self.patterns.as_slice())?;
        Ok(Row {
            patterns,
            choice: self.choice,
        })
    }

    /// The row over the arguments of what stands at a position; there are
    /// `count` of them.
    fn specialized_row(
        &self,
        alloc: Global,
        position: usize,
        count: usize,
    ) -> Result<Row<'a>, AllocError>
        ensures { IfOk result (λ row. row_meaning row ≡ specialized_row position count
            (row_meaning self.now)) }
    {
        if position >= self.patterns.len() {
            return self.copied(alloc);
        }
        let patterns = opened_patterns(alloc, self.patterns.as_slice(), position, count)?;
        Ok(Row {
            patterns,
            choice: self.choice,
        })
    }
}

/// Whether some row demands nothing at a position.
fn some_is_free(rows: &[Row], position: usize) -> bool
    ensures { result ≡ has_variable position (rows_meaning rows.now) }
{
    for row in rows {
        if !row.demand_at(position).is_some() {
            return true;
        }
    }
    false
}

/// Adds copies of values.
fn push_values(values: &mut Vec<Value>, more: &[Value]) -> Result<(), AllocError>
    ensures { OnOk result (values.new.items ≡ values.old.items ++ more.now) }
{
    for value in more {
        values.push(value.clone()?)?;
    }
    Ok(())
}

/// The values, with arguments in place of what stands at a position.
fn spliced(
    alloc: Global,
    values: &[Value],
    position: usize,
    arguments: &[Value],
) -> Result<Vec<Value>, AllocError>
    requires { position < length values.now }
    ensures { IfOk result (λ all. all.items ≡ spliced position arguments.now values.now) }
{
    let mut all = Vec::new(alloc);
    push_values(&mut all, &values[..position])?;
    push_values(&mut all, arguments)?;
    push_values(&mut all, &values[position + 1..])?;
    Ok(all)
}

/// The rows that stay by the test at a position.
fn kept<'a>(
    alloc: Global,
    rows: &[Row<'a>],
    position: usize,
    keep: Keep,
) -> Result<Vec<Row<'a>>, AllocError>
    ensures { IfOk result (λ some. rows_meaning some.items ≡ filter
        (λ row. keeps keep (demand_at position row)) (rows_meaning rows.now)) }
{
    let mut some = Vec::new(alloc);
    for row in rows {
        if keep.admits(row.demand_at(position)) {
            some.push(row.copied(alloc)?)?;
        }
    }
    Ok(some)
}

/// The rows that stay by the test, over the arguments of what stands at a
/// position.
fn all_specialized<'a>(
    alloc: Global,
    rows: &[Row<'a>],
    position: usize,
    count: usize,
) -> Result<Vec<Row<'a>>, AllocError>
    ensures { IfOk result (λ all. rows_meaning all.items ≡ map (specialized_row position count)
        (rows_meaning rows.now)) }
{
    let mut all = Vec::new(alloc);
    for row in rows {
        all.push(row.specialized_row(alloc, position, count)?)?;
    }
    Ok(all)
}

impl<'a> Column<'_, 'a> {
    /// The rows that stay by the test, and the values, over the arguments of
    /// the column's value: specialization of the clause matrix.
    fn specialized_look(
        self,
        alloc: Global,
        keep: Keep,
        arguments: &[Value],
    ) -> Result<Look<'a>, AllocError>
        requires { self.position < length self.values.now }
        ensures { IfOk result (λ look. look_meaning look
            ≡ calculus.specialized_look self.entry.position (keeps keep)
            (rows_meaning self.entry.rows.now) arguments.now self.entry.values.now) }
    {
        let some = kept(alloc, self.rows, self.position, keep)?;
        let fewer = all_specialized(alloc, some.as_slice(), self.position, arguments.len())?;
        let parts = spliced(alloc, self.values, self.position, arguments)?;
        Ok(Look::Specialize(fewer, parts))
    }

    /// The rows that don't demand this literal, over the same values.
    fn again(self, alloc: Global, literal: Lit) -> Result<Look<'a>, AllocError>
        ensures { IfOk result (λ look. look_meaning look
            ≡ calculus.Again (filter (λ row. not_literal literal
            (demand_at self.entry.position row)) (rows_meaning self.entry.rows.now))) }
    {
        let fewer = kept(alloc, self.rows, self.position, Keep::NotLiteral(literal))?;
        Ok(Look::Again(fewer))
    }

    /// A look at the column, where its value is a literal.
    fn at_literal(self, alloc: Global, literal: Lit) -> Result<Look<'a>, AllocError>
        requires { self.position < length self.values.now }
        ensures { IfOk result (λ look. look_meaning look
            ≡ calculus.at_literal self.entry.position literal (demand_meaning self.entry.first)
            (has_variable self.entry.position (rows_meaning self.entry.rows.now))
            (rows_meaning self.entry.rows.now) self.entry.values.now) }
    {
        if !some_is_free(self.rows, self.position) {
            return self.specialized_look(alloc, Keep::OnlyLiteral(literal), &[]);
        }
        match self.first {
            Demand::Nothing => Ok(Look::Nowhere),
            Demand::Constructor(_) => Ok(Look::Nowhere),
            Demand::Literal(demanded) => {
                if literal == demanded {
                    self.specialized_look(alloc, Keep::LiteralOrNothing(literal), &[])
                } else {
                    self.again(alloc, demanded)
                }
            }
        }
    }

    /// A look at the column, where its value is a constructor on arguments.
    fn at_constructor(
        self,
        alloc: Global,
        heads: &Heads,
        constructor: ConId,
        arguments: &[Value],
    ) -> Result<Look<'a>, AllocError>
        requires { self.position < length self.values.now }
        ensures { IfOk result (λ look. look_meaning look
            ≡ calculus.at_constructor (heads_program heads.now) self.entry.position constructor
            (demand_meaning self.entry.first)
            (has_variable self.entry.position (rows_meaning self.entry.rows.now))
            (rows_meaning self.entry.rows.now) arguments.now self.entry.values.now) }
    {
        if !some_is_free(self.rows, self.position) {
            return self.specialized_look(alloc, Keep::OnlyConstructor(constructor), arguments);
        }
        match self.first {
            Demand::Nothing => Ok(Look::Nowhere),
            Demand::Constructor(demanded) => {
                if of_one_type(heads, constructor, demanded) {
                    self.specialized_look(alloc, Keep::ConstructorOrNothing(constructor), arguments)
                } else {
                    Ok(Look::Nowhere)
                }
            }
            Demand::Literal(demanded) => self.again(alloc, demanded),
        }
    }

    /// A look at the column.
    fn look(self, alloc: Global, heads: &Heads) -> Result<Look<'a>, AllocError>
        ensures { IfOk result (λ look. (row : calculus.Row)
            → demand_at self.entry.position row ≡ demand_meaning self.entry.first
            → look_meaning look ≡ calculus.look_at (heads_program heads.now) self.entry.position row
            (rows_meaning self.entry.rows.now) self.entry.values.now
            (slice_get self.entry.values.now self.entry.position)) }
    {
        if self.position >= self.values.len() {
            return Ok(Look::Nowhere);
        }
        match self.values[self.position].head() {
            Cell::Lit(literal) => self.at_literal(alloc, literal),
            Cell::Con(constructor, _) => {
                let arguments = self.values[self.position].arguments()?;
                self.at_constructor(alloc, heads, constructor, &arguments)
            }
            _ => Ok(Look::Nowhere),
        }
    }
}

/// One look at rows over values.
fn one_look<'a>(
    alloc: Global,
    heads: &Heads,
    rows: &[Row<'a>],
    values: &[Value],
) -> Result<Look<'a>, AllocError>
    ensures { IfOk result (λ look. look_meaning look ≡ calculus.look (heads_program heads.now)
        (rows_meaning rows.now) values.now) }
{
    if rows.is_empty() {
        return Ok(Look::Nowhere);
    }
    let first = &rows[0];
    match leftmost(first.patterns.as_slice()) {
        None => Ok(Look::Take(first.choice)),
        Some(position) => {
            let column = Column {
                rows,
                values,
                position,
                first: first.demand_at(position),
            };
            column.look(alloc, heads)
        }
    }
}

/// The clause matrix of alternatives: a row for each.
fn rows_of(alloc: Global, alternatives: &[(Pattern, Term)]) -> Result<Vec<Row<'_>>, AllocError>
    ensures { IfOk result (λ rows. rows_meaning rows.items ≡ rows_from 0
        (alternatives_of alternatives.now)) }
{
    let mut rows = Vec::new(alloc);
    for (choice, alternative) in alternatives.iter().enumerate() {
        let mut patterns = Vec::new(alloc);
        patterns.push(&alternative.0)?;
        rows.push(Row { patterns, choice })?;
    }
    Ok(rows)
}

/// The number of the alternative that a value takes, if it takes one.
pub(crate) fn chosen(
    alloc: Global,
    heads: &Heads,
    alternatives: &[(Pattern, Term)],
    value: &Value,
) -> Result<Option<usize>, AllocError>
    ensures { IfOk result (λ choice. choice ≡ chosen (heads_program heads.now)
        (rows_from 0 (alternatives_of alternatives.now)) (value.now ∷ [])) }
{
    let mut rows = rows_of(alloc, alternatives)?;
    let mut values = Vec::new(alloc);
    values.push(value.clone()?)?;
    loop {
        match one_look(alloc, heads, rows.as_slice(), values.as_slice())? {
            Look::Nowhere => return Ok(None),
            Look::Take(choice) => return Ok(Some(choice)),
            Look::Again(fewer) => rows = fewer,
            Look::Specialize(fewer, parts) => {
                rows = fewer;
                values = parts;
            }
        }
    }
}
