//! Heads on as many values as they take.
ghost use Rattle.std.specs.Prelude.{◌≡◌, IfOk, length, map, option_map};
ghost use Rattle.cu_calculus.specs.Answered.{same_head, same_values};
ghost use Rattle.cu_calculus.specs.Gives.{collected};
ghost use Rattle.cu_calculus.specs.Program.{function_of};
ghost use Rattle.cu_calculus.specs.Proof as proof;
ghost use Rattle.cu_calculus.specs.Shape.{are_ground};
ghost use Rattle.cu_calculus.specs.Value.{values_of};
ghost use Rattle.cu_kernel.specs.Heads.{heads_program};
ghost use Rattle.cu_kernel.specs.Kernel.{plain_function};
ghost use Rattle.cu_kernel.specs.KernelOf.{body_meaning, function_meaning, rule_meaning};
ghost use Rattle.cu_crwl.specs.Environments.{values_said};
ghost use Rattle.cu_crwl.specs.Meaning.{claim_of, statement_of, statements_at};
ghost use Rattle.cu_crwl.specs.Table.{applies, body_gives, claim_gives, claims_give, is_built, is_part, none_cited, one_cited, rule_gives, rules_give, two_cited};

use crate::answer::is_answer;
use crate::checker::Checker;
use crate::environment::{states, value_is};
use crate::matching::match_patterns;
use crate::{Claim, Statement};
use cu_kernel::{Body, ConId, FunId, Function, Head, Heads, Rule};
use cu_values::{Cell, Value};
use std::alloc::{AllocError, Global};

/// Whether values are the same in pairs.
pub(crate) fn values_are(left: &[Value], right: &[Value]) -> bool
    ensures { result ≡ same_values (values_of left.now) (values_of right.now) }
{
    if left.len() != right.len() {
        return false;
    }
    for i in 0..left.len() {
        if !value_is(&left[i], &right[i]) {
            return false;
        }
    }
    true
}

/// Whether a value is a constructor on these values.
fn is_constructed(
    constructor: ConId,
    arguments: &[Value],
    value: &Value,
) -> Result<bool, AllocError>
    ensures { IfOk result (λ yes. yes ≡ is_built constructor (values_of arguments.now) value.now) }
{
    match value.head() {
        Cell::Con(other, _) => {
            let parts = value.arguments()?;
            if other.0 != constructor.0 {
                return Ok(false);
            }
            Ok(values_are(&parts, arguments))
        }
        _ => Ok(false),
    }
}

/// Whether two heads are the same.
fn heads_are(left: Head, right: Head) -> bool
    ensures { result ≡ same_head left right }
{
    match (left, right) {
        (Head::Fun(f), Head::Fun(g)) => f == g,
        (Head::Con(c), Head::Con(d)) => c == d,
        (Head::Set(f), Head::Set(g)) => f == g,
        _ => false,
    }
}

/// Whether a value is the partial application of a head to these values.
pub(crate) fn is_applied(head: Head, arguments: &[Value], value: &Value) -> Result<bool, AllocError>
    ensures { IfOk result (λ yes. yes ≡ is_part head (values_of arguments.now) value.now) }
{
    match value.head() {
        Cell::Part(other, _) => {
            let parts = value.arguments()?;
            if !heads_are(other, head) {
                return Ok(false);
            }
            Ok(values_are(&parts, arguments))
        }
        _ => Ok(false),
    }
}

/// The cited statement, where exactly one is cited.
pub(crate) fn one<'a>(cited: &[&'a Statement]) -> Option<&'a Statement>
    ensures { option_map (λ s. statement_of s.now) result ≡ one_cited (statements_at cited.now) }
{
    if cited.len() == 1 {
        Some(cited[0])
    } else {
        None
    }
}

/// The cited statements, where exactly two are cited.
pub(crate) fn two<'a>(cited: &[&'a Statement]) -> Option<(&'a Statement, &'a Statement)>
    ensures { option_map (λ pair. (statement_of pair.0.now, statement_of pair.1.now)) result
        ≡ two_cited (statements_at cited.now) }
{
    if cited.len() == 2 {
        Some((cited[0], cited[1]))
    } else {
        None
    }
}

/// Whether nothing is cited.
pub(crate) fn none(cited: &[&Statement]) -> bool
    ensures { result ≡ none_cited (statements_at cited.now) }
{
    cited.is_empty()
}

/// The values that statements give.
pub(crate) fn given_values(
    alloc: Global,
    statements: &[&Statement],
) -> Result<Vec<Value>, AllocError>
    ensures { IfOk result (λ values. values_of values.items ≡ values_said
        (statements_at statements.now)) }
{
    let mut values = Vec::new(alloc);
    for statement in statements {
        values.push(statement.value.clone()?)?;
    }
    Ok(values)
}

/// Whether a rule's patterns match values, and a statement gives its right
/// side's value under the bindings of the match.
fn rule_gives(
    alloc: Global,
    rule: &Rule,
    values: &[Value],
    statement: &Statement,
    value: &Value,
) -> Result<bool, AllocError>
    ensures { IfOk result (λ yes. yes ≡ rule_gives (values_of values.now)
        (statement_of statement.now) value.now (rule_meaning rule.now)) }
{
    match match_patterns(alloc, &rule.params, values)? {
        Some(bindings) => Ok(states(statement, &bindings, &[], &rule.body, value)),
        None => Ok(false),
    }
}

/// Whether the one cited statement gives the value of the right side of a rule
/// that matches.
fn rules_give(
    alloc: Global,
    rules: &[Rule],
    values: &[Value],
    statement: Option<&Statement>,
    value: &Value,
) -> Result<bool, AllocError>
    ensures { IfOk result (λ yes. yes
        ≡ rules_give (values_of values.now)
        (option_map (λ s. statement_of s.now) statement.entry) value.now
        (map rule_meaning rules.now)) }
{
    let Some(cited) = statement else {
        return Ok(false);
    };
    for rule in rules {
        if rule_gives(alloc, rule, values, cited, value)? {
            return Ok(true);
        }
    }
    Ok(false)
}

/// A function, where it is the program's.
pub(crate) fn function<'a>(heads: &Heads<'a>, f: FunId) -> Option<&'a Function>
    ensures { option_map (λ g. plain_function (function_meaning g.now)) result ≡ function_of
        (heads_program heads.now) f }
{
    match heads.functions.get(f.0) {
        Some(function) => Some(function),
        None => None,
    }
}

/// The value of a set call: the constructor of the values of set functions, on
/// the list of the values. The cells are written in one pass.
fn collected(
    alloc: Global,
    heads: &Heads,
    constructor: ConId,
    values: &[Value],
) -> Result<Value, AllocError>
    ensures { IfOk result (λ all. all
        ≡ collected (heads_program heads.now) constructor values.now) }
{
    let mut cells = Vec::new(alloc);
    cells.push(Cell::Con(constructor, 1))?;
    for value in values {
        cells.push(Cell::Con(heads.special.cons, 2))?;
        cells.extend_from_slice(value.cells())?;
    }
    cells.push(Cell::Con(heads.special.nil, 0))?;
    Ok(Value::spelled(cells))
}

/// Whether all values are ground data.
fn all_ground(values: &[Value]) -> bool
    ensures { result ≡ are_ground (values_of values.now) }
{
    for value in values {
        if !value.is_ground_data() {
            return false;
        }
    }
    true
}

/// A call of a set function: the function of which all values are asked for,
/// and its arguments.
#[derive(Clone, Copy)]
struct SetCall<'a> {
    function: FunId,
    arguments: &'a [Value],
}

impl Checker<'_> {
    /// Whether a function's body on values gives a value, by the cited
    /// statements.
    fn body_gives(
        self,
        body: &Body,
        values: &[Value],
        last: &[&Statement],
        value: &Value,
    ) -> Result<bool, AllocError>
        ensures { IfOk result (λ yes. yes
            ≡ body_gives (heads_program self.entry.heads.now) (values_of values.now)
            (statements_at last.now) value.now (body_meaning body.now)) }
    {
        match body {
            Body::Rules(rules) => rules_give(self.alloc, rules, values, one(last), value),
            Body::External(operation) => {
                if none(last) {
                    is_answer(self.alloc, self.heads, *operation, values, value)
                } else {
                    Ok(false)
                }
            }
        }
    }

    /// Whether a claim is about the function and the arguments of a set call,
    /// and its list is at least a value. The constructor is that of the values
    /// of set functions.
    fn claim_gives(
        self,
        constructor: ConId,
        call: SetCall<'_>,
        value: &Value,
        claim: &Claim,
    ) -> Result<bool, AllocError>
        ensures { IfOk result (λ yes. yes
            ≡ claim_gives (heads_program self.entry.heads.now) constructor call.entry.function
            (values_of call.entry.arguments.now) value.now (claim_of claim.now)) }
    {
        if claim.function.0 != call.function.0 {
            return Ok(false);
        }
        if !values_are(&claim.arguments, call.arguments) {
            return Ok(false);
        }
        let all = collected(self.alloc, self.heads, constructor, &claim.values)?;
        Ok(value.leq(&all))
    }

    /// Whether some claim is about the function and the arguments of a set
    /// call, and its list is at least a value.
    #[tactic(auto, unfolding(cu_kernel::specs::Heads::heads_program))]
    fn claims_give(self, call: SetCall<'_>, value: &Value) -> Result<bool, AllocError>
        ensures { IfOk result (λ yes. yes ≡ claims_give (heads_program self.entry.heads.now)
            (heads_program self.entry.heads.now).special.values
            (map claim_of self.entry.claims.now) call.entry.function
            (values_of call.entry.arguments.now) value.now) }
    {
        let Some(constructor) = self.heads.special.values else {
            return Ok(false);
        };
        for claim in self.claims {
            if self.claim_gives(constructor, call, value, claim)? {
                return Ok(true);
            }
        }
        Ok(false)
    }

    /// Whether a head on as many values as it takes has a value, where these
    /// statements are cited last.
    #[tactic(auto, unfolding(crate::specs::Table::applies))]
    pub(crate) fn applies(
        self,
        head: Head,
        values: &[Value],
        last: &[&Statement],
        value: &Value,
    ) -> Result<bool, AllocError>
        ensures { IfOk result (λ yes. yes ≡ applies (heads_program self.entry.heads.now)
            (map claim_of self.entry.claims.now) head (values_of values.now)
            (statements_at last.now) value.now) }
    {
        match head {
            Head::Con(constructor) => {
                if none(last) {
                    is_constructed(constructor, values, value)
                } else {
                    Ok(false)
                }
            }
            Head::Fun(f) => match function(self.heads, f) {
                Some(function) => self.body_gives(&function.body, values, last, value),
                None => Ok(false),
            },
            Head::Set(f) => {
                if none(last) && all_ground(values) {
                    let call = SetCall {
                        function: f,
                        arguments: values,
                    };
                    self.claims_give(call, value)
                } else {
                    Ok(false)
                }
            }
        }
    }
}
