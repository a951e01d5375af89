//! All that stands in expressions and declarations.
ghost use Rattle.std.specs.Prelude.{◌≡◌, ◌∷◌, IfOk, IfSome, List, None, OnOk, ℕ};
ghost use Rattle.std.specs.List.{All};
ghost use Rattle.cu_names.specs.Texts.{AllDiffer};
ghost use Rattle.cu_names.specs.declared.names.NameId.{NameId};
ghost use Rattle.cu_syntax.specs.Answer.{goal_meaning};
ghost use Rattle.cu_syntax.specs.Declarations.{declaration_meaning};
ghost use Rattle.cu_syntax.specs.ExpressionMeaning.{expression_meaning};
ghost use Rattle.cu_syntax.specs.Owners.{AlternativeIsOf, BodyIsOf, DeclarationIsOf, EnumerationIsOf, ExpressionIsOf, GoalIsOf, GuardIsOf, NameIsOf, OperatorItemIsOf, PatternIsOf, PlaceIsOf, QualifierIsOf, RightSideIsOf};
ghost use Rattle.cu_syntax.specs.Syntax as syntax;
ghost use Rattle.cu_translation.specs.Functions.{goal_nodes, group_nodes};
ghost use Rattle.cu_translation.specs.Rules.{begun_in};
ghost use Rattle.cu_translation.specs.Sites as sites;
ghost use Rattle.cu_sites.specs.Meaning.{GroupIsOf, IsSite, RuleIsOf, Stands, group_meaning, inside_at, rule_meaning};
ghost use Rattle.cu_locals.specs.Text.{Text, text};
ghost use Rattle.cu_sites.specs.Inside.Entering.{IsAt, IsEmpty, Writes};
ghost use Rattle.cu_locals.specs.BegunFound.{BegunIsKnown, begun_meaning};
ghost use Rattle.cu_sites.specs.Inside.Walked.{IsComprehension, IsInner, IsStep, Walks, alternative_has, alternatives_have, applied_has, body_has, comprehension_has, declaration_has, declarations_have, enumeration_has, expression_has, expressions_have, function_has, guards_have, inner_rule_has, lambda_has, let_has, maybe_has, operands_have, qualifier_has, qualifiers_have, right_has, rule_has, use_has};

use crate::grouping::leading;
use crate::rules::{Group, Rule};
use crate::sites::{Site, Sites, Spot};
use cu_locals::{Begun, begun_by, goes_on, pattern_variables, variables};
use cu_names::Place;
use cu_syntax::{
    Alternative, Body, Declaration, DeclarationNode, Enumeration, Expression, ExpressionNode,
    GoalText, Guard, Name, OperatorItem, Pattern, Qualifier, RightSide,
};
use std::alloc::{AllocError, Global};

/// Where the declarations of a block stand: a spot in its scope, and the block's
/// number.
#[derive(Clone, Copy)]
struct BlockSpot {
    at: Spot,
    block: usize,
}

/// What stands beside a declaration in its block: the function whose rules may
/// go on with it, and the declarations after it.
#[derive(Clone, Copy)]
struct Neighbours<'d, 't> {
    begun: Option<Begun>,
    others: &'d [Declaration<'t>],
}

/// A lambda expression.
#[derive(Drop)]
struct Lambda<'t> {
    /// The place of its first token.
    place: Place,
    parameters: Vec<Pattern<'t>>,
    body: Expression<'t>,
}

/// A comprehension: the whole of it, its element and its qualifiers.
#[derive(Clone, Copy)]
struct Comprehension<'q, 't> {
    whole: Expression<'t>,
    element: Expression<'t>,
    qualifiers: &'q [Qualifier<'t>],
}

/// Where a qualifier stands: the spots before and after it, the comprehension,
/// and how many qualifiers of the comprehension there are up to this one.
#[derive(Clone, Copy)]
struct Step<'t> {
    before: Spot,
    after: Spot,
    whole: Expression<'t>,
    number: usize,
}

impl<'t> Sites<'t> {
    /// Notes a name that is used on arguments, and what stands in these.
    fn use_of(
        &mut self,
        alloc: Global,
        at: Spot,
        name: Name,
        arguments: &[Expression<'t>],
    ) -> Result<(), AllocError>
        ensures { (t : Text) (spot : sites.Spot) → IsAt t self.old at spot
            → NameIsOf t.owner t.names name
            → All (ExpressionIsOf t.owner t.names) arguments.now
            → OnOk result (Writes t self.old (use_has t.names spot name arguments.now) self.new) }
    {
        let arguments = Vec::from_slice(alloc, arguments)?;
        self.push(at, Site::Use(name, arguments))
    }

    /// Notes what stands in an expression on arguments.
    #[cycle(walk)]
    fn applied(
        &mut self,
        alloc: Global,
        at: Spot,
        arguments: &[Expression<'t>],
        e: Expression<'t>,
    ) -> Result<(), AllocError>
        ensures { (t : Text) (spot : sites.Spot) → IsAt t self.old at spot
            → All (ExpressionIsOf t.owner t.names) arguments.now
            → ExpressionIsOf t.owner t.names e.entry
            → OnOk result (Writes t self.old
            (applied_has t.names spot arguments.now e.entry) self.new) }
    {
        match e.node(alloc)? {
            ExpressionNode::Variable(_, name) => self.use_of(alloc, at, name, arguments),
            ExpressionNode::Constructor(_, _) => Ok(()),
            ExpressionNode::Literal(_, _) => Ok(()),
            ExpressionNode::TupleConstructor(_, _) => Ok(()),
            ExpressionNode::Application(_, function, others) => {
                self.applied(alloc, at, others.as_slice(), function)?;
                self.expressions(alloc, at, others.as_slice())
            }
            ExpressionNode::Operators(items) => {
                self.push(at, Site::Operation(e))?;
                self.expression(alloc, at, items.first)?;
                self.operands(alloc, at, items.rest.as_slice())
            }
            ExpressionNode::Lambda(place, parameters, body) => {
                let lambda = Lambda {
                    place,
                    parameters,
                    body,
                };
                self.lambda(alloc, at, lambda)
            }
            ExpressionNode::Let(_, ds, body) => self.let_in(alloc, at, ds.as_slice(), body),
            ExpressionNode::If(_, condition, chosen, other) => {
                self.expression(alloc, at, condition)?;
                self.expression(alloc, at, chosen)?;
                self.expression(alloc, at, other)
            }
            ExpressionNode::Case(_, _, subject, cases) => {
                self.expression(alloc, at, subject)?;
                self.alternatives(alloc, at, cases.as_slice())
            }
            ExpressionNode::Tuple(_, components) => {
                self.expressions(alloc, at, components.as_slice())
            }
            ExpressionNode::LeftSection(_, operand, operator) => {
                self.expression(alloc, at, operand)?;
                self.use_of(alloc, at, operator, &[operand])
            }
            ExpressionNode::RightSection(_, operator, operand) => {
                self.use_of(alloc, at, operator, &[])?;
                self.expression(alloc, at, operand)
            }
            ExpressionNode::List(_, elements) => self.expressions(alloc, at, elements.as_slice()),
            ExpressionNode::Enumeration(_, numbers) => self.enumeration(alloc, at, numbers),
            ExpressionNode::Comprehension(_, element, qualifiers) => {
                let comprehension = Comprehension {
                    whole: e,
                    element,
                    qualifiers: qualifiers.as_slice(),
                };
                self.comprehension(alloc, at, comprehension)
            }
        }
    }

    /// Notes what stands in an expression.
    #[cycle(walk)]
    pub(crate) fn expression(
        &mut self,
        alloc: Global,
        at: Spot,
        e: Expression<'t>,
    ) -> Result<(), AllocError>
        ensures { (t : Text) (spot : sites.Spot) → IsAt t self.old at spot
            → ExpressionIsOf t.owner t.names e.entry
            → OnOk result (Writes t self.old (expression_has t.names spot e.entry) self.new) }
    {
        self.applied(alloc, at, &[], e)
    }

    /// Notes what stands in several expressions.
    #[cycle(walk)]
    fn expressions(
        &mut self,
        alloc: Global,
        at: Spot,
        es: &[Expression<'t>],
    ) -> Result<(), AllocError>
        ensures { (t : Text) (spot : sites.Spot) → IsAt t self.old at spot
            → All (ExpressionIsOf t.owner t.names) es.now
            → OnOk result (Writes t self.old (expressions_have t.names spot es.now) self.new) }
    {
        for e in es {
            self.expression(alloc, at, *e)?;
        }
        Ok(())
    }

    /// Notes what stands in the operands after operators.
    #[cycle(walk)]
    fn operands(
        &mut self,
        alloc: Global,
        at: Spot,
        items: &[OperatorItem<'t>],
    ) -> Result<(), AllocError>
        ensures { (t : Text) (spot : sites.Spot) → IsAt t self.old at spot
            → All (OperatorItemIsOf t.owner t.names) items.now
            → OnOk result (Writes t self.old (operands_have t.names spot items.now) self.new) }
    {
        for item in items {
            self.expression(alloc, at, item.operand)?;
        }
        Ok(())
    }

    /// Notes a lambda expression, and what stands in it.
    #[cycle(walk)]
    fn lambda(&mut self, alloc: Global, at: Spot, lambda: Lambda<'t>) -> Result<(), AllocError>
        ensures { (t : Text) (spot : sites.Spot) → IsAt t self.old at spot
            → PlaceIsOf t.owner lambda.entry.place
            → All (PatternIsOf t.owner t.names) lambda.entry.parameters.items
            → ExpressionIsOf t.owner t.names lambda.entry.body
            → OnOk result (Writes t self.old (lambda_has t.names spot lambda.entry.place
            lambda.entry.parameters.items lambda.entry.body) self.new) }
    {
        let Lambda {
            place,
            parameters,
            body,
        } = lambda;
        let inner = self.in_rule(alloc, at, place, parameters.as_slice())?;
        let copy = Vec::from_slice(alloc, parameters.as_slice())?;
        self.push(at, Site::Lambda(place, copy, body))?;
        self.push(inner, Site::Matched(parameters))?;
        self.expression(alloc, inner, body)
    }

    /// Notes what stands in local declarations, and in the expression in which
    /// they hold.
    #[cycle(walk)]
    fn let_in(
        &mut self,
        alloc: Global,
        at: Spot,
        ds: &[Declaration<'t>],
        body: Expression<'t>,
    ) -> Result<(), AllocError>
        ensures { (t : Text) (spot : sites.Spot) → IsAt t self.old at spot
            → All (DeclarationIsOf t.owner t.names) ds.now
            → ExpressionIsOf t.owner t.names body.entry
            → OnOk result (Writes t self.old (let_has t.names spot ds.now body.entry) self.new) }
    {
        let inner = self.in_block(alloc, at, ds)?;
        let block = self.note_block(alloc, ds)?;
        self.declarations(alloc, BlockSpot { at: inner, block }, ds)?;
        self.expression(alloc, inner, body)
    }

    /// Notes what stands in several alternatives.
    #[cycle(walk)]
    fn alternatives(
        &mut self,
        alloc: Global,
        at: Spot,
        cases: &[Alternative<'t>],
    ) -> Result<(), AllocError>
        ensures { (t : Text) (spot : sites.Spot) → IsAt t self.old at spot
            → All (AlternativeIsOf t.owner t.names) cases.now
            → OnOk result (Writes t self.old (alternatives_have t.names spot cases.now) self.new) }
    {
        for a in cases {
            self.alternative(alloc, at, *a)?;
        }
        Ok(())
    }

    /// Notes what stands in an alternative.
    #[cycle(walk)]
    fn alternative(&mut self, alloc: Global, at: Spot, a: Alternative<'t>) -> Result<(), AllocError>
        ensures { (t : Text) (spot : sites.Spot) → IsAt t self.old at spot
            → AlternativeIsOf t.owner t.names a.entry
            → OnOk result (Writes t self.old (alternative_has t.names spot a.entry) self.new) }
    {
        let names = pattern_variables(alloc, a.pattern)?;
        let inner = self.with(alloc, at, names.as_slice())?;
        let matched = Vec::from_slice(alloc, &[a.pattern])?;
        self.push(inner, Site::Matched(matched))?;
        self.right_side(alloc, inner, a.right)
    }

    /// Notes what stands in an enumeration: in the first number, the second and
    /// the last.
    #[cycle(walk)]
    fn enumeration(
        &mut self,
        alloc: Global,
        at: Spot,
        numbers: Enumeration<'t>,
    ) -> Result<(), AllocError>
        ensures { (t : Text) (spot : sites.Spot) → IsAt t self.old at spot
            → EnumerationIsOf t.owner t.names numbers.entry
            → OnOk result (Writes t self.old
            (enumeration_has t.names spot numbers.entry) self.new) }
    {
        self.expression(alloc, at, numbers.first)?;
        self.maybe(alloc, at, numbers.second)?;
        self.maybe(alloc, at, numbers.last)
    }

    /// Notes what stands in an expression, if it is there.
    #[cycle(walk)]
    fn maybe(
        &mut self,
        alloc: Global,
        at: Spot,
        e: Option<Expression<'t>>,
    ) -> Result<(), AllocError>
        ensures { (t : Text) (spot : sites.Spot) → IsAt t self.old at spot
            → IfSome e.entry (ExpressionIsOf t.owner t.names)
            → OnOk result (Writes t self.old (maybe_has t.names spot e.entry) self.new) }
    {
        match e {
            None => Ok(()),
            Some(e) => self.expression(alloc, at, e),
        }
    }

    /// Notes what stands in the element of a comprehension, after all
    /// qualifiers, and what stands in these.
    #[cycle(walk)]
    fn comprehension(
        &mut self,
        alloc: Global,
        at: Spot,
        found: Comprehension<'_, 't>,
    ) -> Result<(), AllocError>
        ensures { (t : Text) (spot : sites.Spot) → IsAt t self.old at spot
            → ExpressionIsOf t.owner t.names found.entry.element
            → IsComprehension t found.entry.whole
            (expression_meaning t.names found.entry.element) found.entry.qualifiers.now
            → OnOk result (Writes t self.old (comprehension_has t.names spot found.entry.element
            found.entry.qualifiers.now) self.new) }
    {
        let inner = self.past_all(alloc, at, found.qualifiers)?;
        self.expression(alloc, inner, found.element)?;
        self.qualifiers(alloc, at, found.whole, found.qualifiers)
    }

    /// Notes what stands in the qualifiers of a comprehension, each in the
    /// scope of those before it.
    #[cycle(walk)]
    fn qualifiers(
        &mut self,
        alloc: Global,
        at: Spot,
        whole: Expression<'t>,
        qualifiers: &[Qualifier<'t>],
    ) -> Result<(), AllocError>
        ensures { (t : Text) (spot : sites.Spot) (element : syntax.Expression)
            → IsAt t self.old at spot
            → IsComprehension t whole.entry element qualifiers.now
            → OnOk result (Writes t self.old
            (qualifiers_have t.names spot element qualifiers.now) self.new) }
    {
        let mut before = at;
        for (i, q) in qualifiers.iter().enumerate() {
            let after = self.past(alloc, before, q)?;
            let step = Step {
                before,
                after,
                whole,
                number: i + 1,
            };
            self.qualifier(alloc, step, q)?;
            before = after;
        }
        Ok(())
    }

    /// Notes what stands in a qualifier.
    #[cycle(walk)]
    fn qualifier(
        &mut self,
        alloc: Global,
        step: Step<'t>,
        q: &Qualifier<'t>,
    ) -> Result<(), AllocError>
        ensures { (t : Text) (spot : sites.Spot) (element : syntax.Expression)
            (others : syntax.Qualifiers)
            → IsStep t self.old step.entry spot element others q.now
            → QualifierIsOf t.owner t.names q.now
            → OnOk result (Writes t self.old
            (qualifier_has t.names spot element others q.now) self.new) }
    {
        match q {
            Qualifier::Generator(place, p, list) => {
                let matched = Vec::from_slice(alloc, &[*p])?;
                self.push(
                    step.before,
                    Site::Generated(*place, *p, step.whole, step.number),
                )?;
                self.push(step.after, Site::Matched(matched))?;
                self.expression(alloc, step.before, *list)
            }
            Qualifier::Declarations(_, ds) => {
                let block = self.note_block(alloc, ds.as_slice())?;
                let inner = BlockSpot {
                    at: step.after,
                    block,
                };
                self.declarations(alloc, inner, ds.as_slice())
            }
            Qualifier::Condition(_, condition) => self.expression(alloc, step.before, *condition),
        }
    }

    /// Notes what stands in a right-hand side. The names after `where` are in
    /// scope in the guards too.
    #[cycle(walk)]
    pub(crate) fn right_side(
        &mut self,
        alloc: Global,
        at: Spot,
        right: RightSide<'t>,
    ) -> Result<(), AllocError>
        ensures { (t : Text) (spot : sites.Spot) → IsAt t self.old at spot
            → RightSideIsOf t.owner t.names right.entry
            → OnOk result (Writes t self.old (right_has t.names spot right.entry) self.new) }
    {
        let node = right.node(alloc)?;
        let inner = self.in_block(alloc, at, node.local.as_slice())?;
        let block = self.note_block(alloc, node.local.as_slice())?;
        self.body(alloc, inner, &node.body)?;
        self.declarations(alloc, BlockSpot { at: inner, block }, node.local.as_slice())
    }

    /// Notes what stands in an expression, or in guards.
    #[cycle(walk)]
    fn body(&mut self, alloc: Global, at: Spot, b: &Body<'t>) -> Result<(), AllocError>
        ensures { (t : Text) (spot : sites.Spot) → IsAt t self.old at spot
            → BodyIsOf t.owner t.names b.now
            → OnOk result (Writes t self.old (body_has t.names spot b.now) self.new) }
    {
        match b {
            Body::Plain(e) => self.expression(alloc, at, *e),
            Body::Guarded(cases) => self.guards(alloc, at, cases.as_slice()),
        }
    }

    /// Notes what stands in guards, and in the expressions after them.
    #[cycle(walk)]
    fn guards(&mut self, alloc: Global, at: Spot, cases: &[Guard<'t>]) -> Result<(), AllocError>
        ensures { (t : Text) (spot : sites.Spot) → IsAt t self.old at spot
            → All (GuardIsOf t.owner t.names) cases.now
            → OnOk result (Writes t self.old (guards_have t.names spot cases.now) self.new) }
    {
        for g in cases {
            self.expression(alloc, at, g.condition)?;
            self.expression(alloc, at, g.expression)?;
        }
        Ok(())
    }

    /// Notes what stands in the declarations of a block.
    #[cycle(walk)]
    fn declarations(
        &mut self,
        alloc: Global,
        inner: BlockSpot,
        ds: &[Declaration<'t>],
    ) -> Result<(), AllocError>
        ensures { (t : Text) (spot : sites.Spot) (block : syntax.Declarations)
            → IsInner t self.old inner spot block
            → All (DeclarationIsOf t.owner t.names) ds.now
            → OnOk result (Writes t self.old
            (declarations_have t.names spot block None ds.now) self.new) }
    {
        let mut begun = None;
        for (i, d) in ds.iter().enumerate() {
            let beside = Neighbours {
                begun,
                others: &ds[i + 1..],
            };
            begun = self.declaration(alloc, inner, beside, *d)?;
        }
        Ok(())
    }

    /// Notes what stands in a declaration of a block. Gives the function whose
    /// rules may go on.
    #[cycle(walk)]
    fn declaration(
        &mut self,
        alloc: Global,
        inner: BlockSpot,
        beside: Neighbours<'_, 't>,
        d: Declaration<'t>,
    ) -> Result<Option<Begun>, AllocError>
        ensures { (t : Text) (spot : sites.Spot) (block : syntax.Declarations)
            → IsInner t self.old inner spot block → BegunIsKnown t beside.entry.begun
            → All (DeclarationIsOf t.owner t.names) beside.entry.others.now
            → DeclarationIsOf t.owner t.names d.entry
            → IfOk result (λ next. Walks t self.old
            (declaration_has t.names spot block (begun_meaning t beside.entry.begun)
            beside.entry.others.now d.entry)
            (begun_in (begun_meaning t beside.entry.begun) (declaration_meaning t.names d.entry))
            next self.new) }
    {
        match d.node(alloc)? {
            DeclarationNode::FreeVariables(_, names) => {
                self.push(inner.at, Site::Free(names))?;
                Ok(None)
            }
            DeclarationNode::Signature(_, _functions, _) => Ok(None),
            DeclarationNode::FunctionRule(place, name, parameters, right) => {
                let rule = Rule {
                    place,
                    name,
                    parameters,
                    right,
                };
                self.rule(alloc, inner, beside, rule)?;
                Ok(Some(begun_by(beside.begun, name, place)))
            }
            DeclarationNode::PatternBinding(_, p, right) => {
                self.definition(alloc, inner.at, Site::Bound(p, right), right)?;
                Ok(None)
            }
        }
    }

    /// Notes a rule of a block: that of a variable, or one of a function.
    #[cycle(walk)]
    fn rule(
        &mut self,
        alloc: Global,
        inner: BlockSpot,
        beside: Neighbours<'_, 't>,
        rule: Rule<'t>,
    ) -> Result<(), AllocError>
        ensures { (t : Text) (spot : sites.Spot) (block : syntax.Declarations)
            → IsInner t self.old inner spot block → BegunIsKnown t beside.entry.begun
            → All (DeclarationIsOf t.owner t.names) beside.entry.others.now
            → RuleIsOf t.owner t.names rule.entry
            → OnOk result (Writes t self.old
            (rule_has t.names spot block (begun_meaning t beside.entry.begun)
            beside.entry.others.now rule.entry) self.new) }
    {
        if goes_on(beside.begun, rule.name) {
            let function = begun_by(beside.begun, rule.name, rule.place);
            return self.function_rule(alloc, inner.at, function.place, rule);
        }
        if rule.parameters.is_empty() {
            let site = Site::Defined(rule.name, rule.right);
            return self.definition(alloc, inner.at, site, rule.right);
        }
        self.first_rule(alloc, inner, beside.others, &rule)?;
        self.function_rule(alloc, inner.at, rule.place, rule)
    }

    /// Notes a local function, at its first rule.
    fn first_rule(
        &mut self,
        alloc: Global,
        inner: BlockSpot,
        others: &[Declaration<'t>],
        rule: &Rule<'t>,
    ) -> Result<(), AllocError>
        ensures { (t : Text) (spot : sites.Spot) (block : syntax.Declarations)
            → IsInner t self.old inner spot block
            → All (DeclarationIsOf t.owner t.names) others.now → RuleIsOf t.owner t.names rule.now
            → OnOk result (Writes t self.old
            (function_has t.names spot block others.now rule.now) self.new) }
    {
        let first = Rule {
            place: rule.place,
            name: rule.name,
            parameters: Vec::from_slice(alloc, rule.parameters.as_slice())?,
            right: rule.right,
        };
        let others = leading(alloc, rule.name, others)?;
        self.push(
            inner.at,
            Site::Function(inner.block, Group { first, others }),
        )
    }

    /// Notes what stands in a rule of a local function, whose first token
    /// stands at this place.
    #[cycle(walk)]
    fn function_rule(
        &mut self,
        alloc: Global,
        at: Spot,
        function: Place,
        rule: Rule<'t>,
    ) -> Result<(), AllocError>
        ensures { (t : Text) (spot : sites.Spot) → IsAt t self.old at spot
            → RuleIsOf t.owner t.names rule.entry
            → OnOk result (Writes t self.old
            (inner_rule_has t.names spot function rule.entry) self.new) }
    {
        let inner = self.in_rule(alloc, at, function, rule.parameters.as_slice())?;
        let Rule {
            place: _,
            name: _,
            parameters,
            right,
        } = rule;
        self.push(inner, Site::Matched(parameters))?;
        self.right_side(alloc, inner, right)
    }

    /// Notes a definition, and what stands in its right side.
    #[cycle(walk)]
    fn definition(
        &mut self,
        alloc: Global,
        at: Spot,
        site: Site<'t>,
        right: RightSide<'t>,
    ) -> Result<(), AllocError>
        ensures { (t : Text) (spot : sites.Spot) (found : sites.Site) → IsAt t self.old at spot
            → IsSite t self.old.blocks.items site.entry found
            → RightSideIsOf t.owner t.names right.entry
            → inside_at spot found ≡ right_has t.names spot right.entry
            → OnOk result (Writes t self.old
            (sites.node spot found ∷ right_has t.names spot right.entry) self.new) }
    {
        let number = self.nodes.len();
        self.push(at, site)?;
        self.right_side(alloc, at, right)?;
        self.close(number);
        Ok(())
    }

    /// Notes what stands in a rule of a top-level function.
    pub(crate) fn top_rule(&mut self, alloc: Global, rule: &Rule<'t>) -> Result<(), AllocError>
        ensures { (t : Text) → RuleIsOf t.owner t.names rule.now
            → OnOk result (Writes t self.old
            (sites.rule_nodes (rule_meaning t.names rule.now)) self.new) }
    {
        let top = Spot {
            function: None,
            depth: 0,
            scope: 0,
        };
        let names = variables(alloc, rule.parameters.as_slice())?;
        let inner = self.with(alloc, top, names.as_slice())?;
        let matched = Vec::from_slice(alloc, rule.parameters.as_slice())?;
        self.push(inner, Site::Matched(matched))?;
        self.right_side(alloc, inner, rule.right)
    }

    /// All that stands in the rules of a top-level function.
    ///
    /// # Errors
    ///
    /// An allocation failure.
    pub fn of_group(alloc: Global, group: &Group<'t>) -> Result<Sites<'t>, AllocError>
        ensures { (owner : NameId) (names : List (List ℕ)) (differ : AllDiffer names)
            → GroupIsOf owner names group.now
            → IfOk result (Stands (text owner names differ)
            (group_nodes (group_meaning names group.now))) }
    {
        let mut found = Sites::new(alloc);
        found.top_rule(alloc, &group.first)?;
        for rule in &group.others {
            found.top_rule(alloc, rule)?;
        }
        Ok(found)
    }

    /// All that stands in a goal.
    ///
    /// # Errors
    ///
    /// An allocation failure.
    pub fn of_goal(alloc: Global, goal: &'t GoalText) -> Result<Sites<'t>, AllocError>
        ensures { (owner : NameId) (names : List (List ℕ)) (differ : AllDiffer names)
            → GoalIsOf owner names goal.now
            → IfOk result (Stands (text owner names differ)
            (goal_nodes (goal_meaning names goal.now))) }
    {
        let mut found = Sites::new(alloc);
        let top = Spot {
            function: None,
            depth: 0,
            scope: 0,
        };
        let free = goal.free_variables(alloc)?;
        let spot = found.with(alloc, top, free.as_slice())?;
        found.expression(alloc, spot, goal.expression())?;
        Ok(found)
    }

    fn new(alloc: Global) -> Sites<'t>
        ensures { IsEmpty result }
    {
        Sites {
            nodes: Vec::new(alloc),
            entries: Vec::new(alloc),
            blocks: Vec::new(alloc),
        }
    }
}
