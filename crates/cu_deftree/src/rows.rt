//! Clause matrices: rows of patterns over positions.
ghost use Rattle.std.specs.Prelude.{◌≡◌, ◌<◌, ◌++◌, ◌∷◌, [], IfOk, OnOk, false, filter, length, map, not};
ghost use Rattle.std.specs.List.{list_all, list_any};
ghost use Rattle.cu_calculus.specs.Choose.{spliced};
ghost use Rattle.cu_deftree.specs.Inside.Groups.{AreAt, picked};
ghost use Rattle.cu_deftree.specs.Inside.NamesOf.{names_of};
ghost use Rattle.cu_deftree.specs.Inside.RowsOf.{all_rows, alternative_row, keeps, row_of, demands_choice};
ghost use Rattle.cu_deftree.specs.Lowering.{goes_on};
ghost use Rattle.cu_deftree.specs.Rows.{argument_names, demand_at, demanded_by_all, demands, row_of_rule, rows_of, specialize, specialized};
ghost use Rattle.cu_kernel.specs.KernelOf.{rule_meaning};
ghost use Rattle.cu_kernel.specs.TermsOf.{alternatives_of, pattern_of, term_of};
ghost use Rattle.cu_matrix.specs.Meaning.{demand_meaning};

use crate::names::Names;
use crate::patterns::{Choice, Keep, push_all_names, push_argument_names, push_names};
use cu_kernel::{Pattern, Rule, Term};
use cu_matrix::{Demand, demanded, opened_patterns, push_all};
use std::alloc::{AllocError, Global};

/// A row of a clause matrix: the patterns of a rule or an alternative at the
/// positions, the names of its variables that stand for the whole value at a
/// position, and its right side.
#[derive(Drop)]
pub(crate) struct Row<'a> {
    /// A pattern for each position.
    pub(crate) patterns: Vec<&'a Pattern>,
    /// The names of the row's variables that stand for the whole value at a
    /// position. Of two names of one variable the first counts.
    pub(crate) own: Vec<(u32, u32)>,
    /// The names of the variables around the rule or the alternative.
    pub(crate) around: &'a Names<'a>,
    /// The right side of the rule or the alternative.
    pub(crate) body: &'a Term,
}

/// The names of a pattern's variables that stand for a whole argument of a
/// constructor, and these names after them.
fn opened_names(
    alloc: Global,
    arguments: &[u32],
    pattern: &Pattern,
    names: &[(u32, u32)],
) -> Result<Vec<(u32, u32)>, AllocError>
    ensures { IfOk result (λ opened. opened.items
        ≡ argument_names arguments.now (pattern_of pattern.now) ++ names.now) }
{
    let mut opened = Vec::new(alloc);
    push_argument_names(&mut opened, arguments, pattern)?;
    opened.extend_from_slice(names)?;
    Ok(opened)
}

impl<'a> Row<'a> {
    /// What the row demands at a position.
    pub(crate) fn demand_at(&self, position: usize) -> Demand
        ensures { demand_meaning result ≡ demand_at position (row_of self.now) }
    {
        if position < self.patterns.len() {
            demanded(self.patterns[position])
        } else {
            Demand::Nothing
        }
    }

    /// A copy of this row.
    fn copied(&self, alloc: Global) -> Result<Row<'a>, AllocError>
        ensures { IfOk result (λ row. row_of row ≡ row_of self.now) }
    {
        let mut patterns = Vec::new(alloc);
        patterns.extend_from_slice(self.patterns.as_slice())?;
        let mut own = Vec::new(alloc);
        own.extend_from_slice(self.own.as_slice())?;
        Ok(Row {
            patterns,
            own,
            around: self.around,
            body: self.body,
        })
    }

    /// The row specialized to a constructor or literal at a position: what its
    /// pattern there has for the arguments takes the place of that pattern.
    /// The arguments have these positions; a literal has none.
    fn specialized(
        &self,
        alloc: Global,
        position: usize,
        arguments: &[u32],
    ) -> Result<Row<'a>, AllocError>
        ensures { IfOk result (λ row. row_of row
            ≡ specialized position arguments.now (row_of self.now)) }
    {
        if position >= self.patterns.len() {
            return self.copied(alloc);
        }
        let patterns = opened_patterns(alloc, self.patterns.as_slice(), position, arguments.len())?;
        let own = opened_names(
            alloc,
            arguments,
            self.patterns[position],
            self.own.as_slice(),
        )?;
        Ok(Row {
            patterns,
            own,
            around: self.around,
            body: self.body,
        })
    }
}

/// Whether all rows demand something at a position.
pub(crate) fn all_demand(rows: &[Row], position: usize) -> bool
    ensures { result ≡ list_all (demands position) (all_rows rows.now) }
{
    for row in rows {
        if !row.demand_at(position).is_some() {
            return false;
        }
    }
    true
}

/// Whether some row demands nothing at a position.
pub(crate) fn some_is_free(rows: &[Row], position: usize) -> bool
    ensures { result ≡ list_any (λ row. not (demands position row)) (all_rows rows.now) }
{
    for row in rows {
        if !row.demand_at(position).is_some() {
            return true;
        }
    }
    false
}

/// The leftmost position that all rows demand.
pub(crate) fn demanded_by_all(rows: &[Row]) -> Option<usize>
    ensures { result ≡ demanded_by_all (all_rows rows.now) }
{
    if rows.is_empty() {
        return None;
    }
    let count = rows[0].patterns.len();
    for position in 0..count {
        if all_demand(rows, position) {
            return Some(position);
        }
    }
    None
}

/// Copies of the rows that are kept.
pub(crate) fn kept<'a>(
    alloc: Global,
    rows: &[Row<'a>],
    position: usize,
    keep: Keep,
) -> Result<Vec<Row<'a>>, AllocError>
    ensures { IfOk result (λ some. all_rows some.items
        ≡ filter (λ row. keeps keep (demand_at position row)) (all_rows rows.now)) }
{
    let mut some = Vec::new(alloc);
    for row in rows {
        if keep.admits(row.demand_at(position)) {
            some.push(row.copied(alloc)?)?;
        }
    }
    Ok(some)
}

/// The rows that are kept, each specialized to a constructor or literal at a
/// position. The arguments have these positions.
fn specialize<'a>(
    alloc: Global,
    rows: &[Row<'a>],
    position: usize,
    arguments: &[u32],
    keep: Keep,
) -> Result<Vec<Row<'a>>, AllocError>
    ensures { IfOk result (λ some. all_rows some.items
        ≡ specialize position arguments.now (keeps keep) (all_rows rows.now)) }
{
    let mut some = Vec::new(alloc);
    for row in rows {
        if keep.admits(row.demand_at(position)) {
            some.push(row.specialized(alloc, position, arguments)?)?;
        }
    }
    Ok(some)
}

/// The rows with these indices, each specialized to a constructor or literal
/// at a position. The arguments have these positions.
fn specialized_at<'a>(
    alloc: Global,
    rows: &[Row<'a>],
    indices: &[usize],
    position: usize,
    arguments: &[u32],
) -> Result<Vec<Row<'a>>, AllocError>
    ensures { IfOk result (λ some. all_rows some.items
        ≡ map (specialized position arguments.now) (picked (all_rows rows.now) indices.now)) }
{
    let mut some = Vec::new(alloc);
    for index in indices {
        if *index >= rows.len() {
            continue;
        }
        some.push(rows[*index].specialized(alloc, position, arguments)?)?;
    }
    Ok(some)
}

/// Rows of which some go on into the branch of a choice.
#[derive(Clone, Copy)]
pub(crate) struct Candidates<'m, 'a> {
    pub(crate) rows: &'m [Row<'a>],
    /// The indices of the rows that demand the choice, where these alone go on.
    pub(crate) indices: &'m [usize],
    /// Whether the rows that demand nothing go on too.
    pub(crate) has_variables: bool,
}

/// The rows that go on into the branch of a choice, each specialized to it.
/// Where rows that demand nothing go on into it, all rows are looked through;
/// otherwise those that go on are found by their indices.
pub(crate) fn branch_rows<'a>(
    alloc: Global,
    candidates: &Candidates<'_, 'a>,
    position: usize,
    arguments: &[u32],
    choice: Choice,
) -> Result<Vec<Row<'a>>, AllocError>
    requires { candidates.now.has_variables ≡ false → AreAt position choice
        candidates.now.indices.now (all_rows candidates.now.rows.now) }
    ensures { IfOk result (λ some. all_rows some.items ≡ specialize position arguments.now
        (goes_on candidates.now.has_variables (demands_choice choice))
        (all_rows candidates.now.rows.now)) }
{
    let has_variables = candidates.has_variables;
    if has_variables {
        let keep = Keep::Branch(choice, has_variables);
        return specialize(alloc, candidates.rows, position, arguments, keep);
    }
    specialized_at(
        alloc,
        candidates.rows,
        candidates.indices,
        position,
        arguments,
    )
}

/// Positions, with those of a constructor's arguments in place of one of them.
pub(crate) fn spliced(
    alloc: Global,
    positions: &[u32],
    position: usize,
    arguments: &[u32],
) -> Result<Vec<u32>, AllocError>
    requires { position < length positions.now }
    ensures { IfOk result (λ all. all.items ≡ spliced position arguments.now positions.now) }
{
    let mut all = Vec::new(alloc);
    all.extend_from_slice(&positions[..position])?;
    all.extend_from_slice(arguments)?;
    all.extend_from_slice(&positions[position + 1..])?;
    Ok(all)
}

/// The row of an alternative of a case distinction.
fn alternative_row<'a>(
    alloc: Global,
    pattern: &'a Pattern,
    body: &'a Term,
    position: u32,
    around: &'a Names<'a>,
) -> Result<Row<'a>, AllocError>
    ensures { IfOk result (λ row. row_of row
        ≡ alternative_row (names_of around.now) position (pattern_of pattern.now)
        (term_of body.now)) }
{
    let mut patterns = Vec::new(alloc);
    patterns.push(pattern)?;
    let mut own = Vec::new(alloc);
    push_names(&mut own, position, pattern)?;
    Ok(Row {
        patterns,
        own,
        around,
        body,
    })
}

/// The rows of the alternatives of a case distinction on a variable.
pub(crate) fn alternative_rows<'a>(
    alloc: Global,
    alternatives: &'a [(Pattern, Term)],
    position: u32,
    around: &'a Names<'a>,
) -> Result<Vec<Row<'a>>, AllocError>
    ensures { IfOk result (λ rows. all_rows rows.items
        ≡ rows_of (names_of around.now) position (alternatives_of alternatives.now)) }
{
    let mut rows = Vec::new(alloc);
    for alternative in alternatives {
        let row = alternative_row(alloc, &alternative.0, &alternative.1, position, around)?;
        rows.push(row)?;
    }
    Ok(rows)
}

/// The row of a rule of a function that has these parameters.
fn rule_row<'a>(
    alloc: Global,
    rule: &'a Rule,
    parameters: &[u32],
    around: &'a Names<'a>,
) -> Result<Row<'a>, AllocError>
    requires { names_of around.now ≡ [] }
    ensures { IfOk result (λ row. row_of row ≡ row_of_rule parameters.now (rule_meaning rule.now)) }
{
    let params = rule.params.as_slice();
    let mut patterns = Vec::new(alloc);
    push_all(&mut patterns, params)?;
    let mut own = Vec::new(alloc);
    push_all_names(&mut own, parameters, params)?;
    Ok(Row {
        patterns,
        own,
        around,
        body: &rule.body,
    })
}

/// The rows of the rules of a function that has these parameters.
pub(crate) fn rule_rows<'a>(
    alloc: Global,
    rules: &'a [Rule],
    parameters: &[u32],
    around: &'a Names<'a>,
) -> Result<Vec<Row<'a>>, AllocError>
    requires { names_of around.now ≡ [] }
    ensures { IfOk result (λ rows. all_rows rows.items
        ≡ map (row_of_rule parameters.now) (map rule_meaning rules.now)) }
{
    let mut rows = Vec::new(alloc);
    for rule in rules {
        rows.push(rule_row(alloc, rule, parameters, around)?)?;
    }
    Ok(rows)
}
