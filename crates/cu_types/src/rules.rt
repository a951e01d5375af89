//! Reading equations off the rules of a group's functions.
ghost use Rattle.std.specs.Prelude.{◌+◌, OnOk, Some, drop, map, slice_get};
ghost use Rattle.cu_calculus.specs.Program as calculus;
ghost use Rattle.cu_kernel.specs.KernelOf.{body_meaning, rule_meaning};
ghost use Rattle.cu_kernel.specs.TypeExpr as type;
ghost use Rattle.cu_types.specs.BuiltInTypes.{arrows, variables_from};
ghost use Rattle.cu_types.specs.Equations.{asking, function_body, renamed};
ghost use Rattle.cu_types.specs.Inside.Members.{body_between, declared_asks, function_asks, group_asks, known_asks, member_asks, rule_between, rules_between};
ghost use Rattle.cu_types.specs.Inside.Reading.{IsReader};
ghost use Rattle.cu_types.specs.Inside.Walking.{Walks, heads, scope};

use crate::SharedType;
use crate::asking::VariableRange;
use crate::builtin::external_type;
use crate::known::{Known, Member, Scheme};
use crate::walk::Walk;
use cu_calculus::Primitive;
use cu_kernel::{Body, FunId, Rule, push_all_variables};
use std::alloc::AllocError;

impl Walk<'_> {
    /// Reads off the equations of a rule whose parameters have the type
    /// variables from `first` on, and whose right-hand side has the type
    /// variable `right`.
    fn rule(&mut self, first: u32, right: u32, rule: &Rule) -> Result<(), AllocError>
        requires { IsReader self.old.asking.reader }
        ensures { OnOk result (Walks self.old self.new
            (rule_between (heads self.old) (scope self.old) first right (rule_meaning rule.now))) }
    {
        let mut variables = Vec::new(self.alloc);
        push_all_variables(&mut variables, rule.params.as_slice())?;
        let Ok(count) = u32::try_from(variables.len()) else {
            return Err(AllocError);
        };
        let next = self.asking.take(count)?;
        let bindings = self
            .variables
            .bind_all(self.alloc, variables.as_slice(), next)?;
        self.patterns(first, rule.params.as_slice())?;
        self.term(right, &rule.body)?;
        self.variables.undo(bindings)?;
        Ok(())
    }

    /// Reads off the equations of the rules of a function.
    fn rules(&mut self, first: u32, right: u32, rules: &[Rule]) -> Result<(), AllocError>
        requires { IsReader self.old.asking.reader }
        ensures { OnOk result (Walks self.old self.new (rules_between (heads self.old)
            (scope self.old) first right (map rule_meaning rules.now))) }
    {
        for rule in rules {
            self.rule(first, right, rule)?;
        }
        Ok(())
    }

    /// Reads off the equations of a built-in operation.
    fn external(&mut self, m: &Member, operation: Primitive) -> Result<(), AllocError>
        requires { IsReader self.old.asking.reader }
        ensures { OnOk result (Walks self.old self.new
            (body_between self.old.signing.program.now (heads self.old) (scope self.old)
            m.now.first m.now.arity (calculus.External operation))) }
    {
        let right = m.right()?;
        let place = self.asking.variable(right)?;
        let parameters = VariableRange {
            first: m.first,
            count: m.arity,
        };
        let whole = self.asking.arrows_to(self.alloc, parameters, place)?;
        let shared = external_type(self.alloc, self.signing.program, operation)?;
        let scheme = Scheme::Polymorphic(0, 0, &shared);
        self.asking.scheme(self.alloc, scheme, whole)?;
        Ok(())
    }

    /// Reads off the equations of what a function computes.
    fn body(&mut self, m: &Member, body: &Body) -> Result<(), AllocError>
        requires { IsReader self.old.asking.reader }
        ensures { OnOk result (Walks self.old self.new
            (body_between self.old.signing.program.now (heads self.old) (scope self.old)
            m.now.first m.now.arity (body_meaning body.now))) }
    {
        match body {
            Body::Rules(rules) => {
                let right = m.right()?;
                self.rules(m.first, right, rules.as_slice())
            }
            Body::External(operation) => self.external(m, *operation),
        }
    }

    /// Asks that the declared type of a function is that of its parameters
    /// after those that it captured, and of its result.
    fn declared(&mut self, m: &Member, declared: &SharedType) -> Result<(), AllocError>
        requires { IsReader self.old.asking.reader }
        ensures { OnOk result (Walks self.old self.new (asking (arrows
            (drop m.now.captured (variables_from m.now.first m.now.arity))
            (type.Variable (m.now.first + m.now.arity)))
            (renamed (m.now.first + m.now.arity + 1) declared.now))) }
    {
        let right = m.right()?;
        let Some(own) = right.checked_add(1) else {
            return Err(AllocError);
        };
        let skipped = m.captured.min(m.arity);
        let Some(first) = m.first.checked_add(skipped) else {
            return Err(AllocError);
        };
        let place = self.asking.variable(right)?;
        let others = VariableRange {
            first,
            count: m.arity - skipped,
        };
        let left = self.asking.arrows_to(self.alloc, others, place)?;
        let made = self.asking.instance(self.alloc, declared, own)?;
        self.asking.ask(left, made)?;
        Ok(())
    }

    /// Reads off the equation of the declared type of a function, if it has
    /// one.
    fn signature(&mut self, m: &Member) -> Result<(), AllocError>
        requires { IsReader self.old.asking.reader }
        ensures { OnOk result (Walks self.old self.new (declared_asks m.now m.now.declared)) }
    {
        match &m.declared {
            Some(declared) => self.declared(m, declared),
            None => Ok(()),
        }
    }

    /// Reads off the equations of a function of the group, with what it
    /// computes.
    fn member(&mut self, m: &Member, body: &Body) -> Result<(), AllocError>
        requires { IsReader self.old.asking.reader }
        ensures { OnOk result (Walks self.old self.new
            (member_asks self.old.signing.program.now (heads self.old) (scope self.old)
            (body_meaning body.now) m.now)) }
    {
        self.signature(m)?;
        self.body(m, body)
    }

    /// Reads off the equations of a function of the group, by its number.
    fn member_at(&mut self, f: FunId, m: &Member) -> Result<(), AllocError>
        requires { IsReader self.old.asking.reader }
        ensures { OnOk result (Walks self.old self.new
            (member_asks self.old.signing.program.now (heads self.old) (scope self.old)
            (function_body (slice_get self.old.signing.program.now.functions f.0)) m.now)) }
    {
        let program = self.signing.program;
        match program.functions().get(f.0) {
            Some(function) => self.member(m, &function.body),
            None => self.signature(m),
        }
    }

    /// Reads off the equations of a function of which this is known: there are
    /// none where it isn't of the group.
    fn known(&mut self, f: FunId, known: &Known) -> Result<(), AllocError>
        requires { IsReader self.old.asking.reader }
        ensures { OnOk result (Walks self.old self.new
            (known_asks self.old.signing.program.now (heads self.old) (scope self.old)
            (function_body (slice_get self.old.signing.program.now.functions f.0))
            (Some known.now))) }
    {
        match known {
            Known::Nothing => Ok(()),
            Known::Typed(_) => Ok(()),
            Known::Member(m) => self.member_at(f, m),
        }
    }

    /// Reads off the equations of a function, if it is of the group.
    fn function(&mut self, f: FunId) -> Result<(), AllocError>
        requires { IsReader self.old.asking.reader }
        ensures { OnOk result (Walks self.old self.new
            (function_asks self.old.signing.program.now (heads self.old) (scope self.old)
            self.old.signing.known.now f)) }
    {
        let known = self.signing.known;
        match known.get(f.0) {
            Some(own) => self.known(f, own),
            None => Ok(()),
        }
    }

    /// Reads off the equations of the functions of a group.
    pub(crate) fn members(&mut self, group: &[FunId]) -> Result<(), AllocError>
        requires { IsReader self.old.asking.reader }
        ensures { OnOk result (Walks self.old self.new
            (group_asks self.old.signing.program.now (heads self.old) (scope self.old)
            self.old.signing.known.now group.now)) }
    {
        for f in group {
            self.function(*f)?;
        }
        Ok(())
    }
}
