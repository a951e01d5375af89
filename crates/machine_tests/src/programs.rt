//! Programs for tests, which are put together expression by expression.
ghost use Rattle.std.specs.Prelude.{◌≡◌, ◌<◌, ◌+◌, [], ◌∷◌, ◌++◌, IsTrue, map};
ghost use Rattle.cu_calculus.specs.Code as code;
ghost use Rattle.cu_calculus.specs.WellFormed.{is_well_formed};
ghost use Rattle.cu_calculus.specs.declared.Head.TheVariants as head;
ghost use Rattle.cu_calculus.specs.declared.Lit.TheVariants as lit;
ghost use Rattle.cu_calculus.specs.declared.Mode.TheVariants as mode;
ghost use Rattle.cu_flat.specs.Meaning.{branch_meaning, expr_meaning};
ghost use Rattle.machine_tests.specs.Samples.{sample, sample_with_sets};

use cu_flat::{
    ConId, Entry, Expr, ExprId, FlatBody, FlatConstructor, FlatFunction, FlatProgram, FunId, Head,
    Int, Lit, Mode, Pattern, Prim, Special,
};
use std::alloc::Global;
use std::marker::Model;
use std::process::Abort;

pub(crate) const FALSE: ConId = ConId(0);

pub(crate) const TRUE: ConId = ConId(1);

pub(crate) const NIL: ConId = ConId(2);

pub(crate) const CONS: ConId = ConId(3);

/// The constructor of the values of set functions.
pub(crate) const VALUES: ConId = ConId(4);

/// `&&`
pub(crate) const BOTH: FunId = FunId(0);

pub(crate) const SPECIAL: Special = Special {
    falsity: FALSE,
    truth: TRUE,
    nil: NIL,
    cons: CONS,
    both: BOTH,
    values: None,
};

pub(crate) const SPECIAL_WITH_SETS: Special = Special {
    falsity: FALSE,
    truth: TRUE,
    nil: NIL,
    cons: CONS,
    both: BOTH,
    values: Some(VALUES),
};

/// The functions and the expressions of a program, as far as it is put
/// together.
#[derive(Drop)]
pub(crate) struct Parts {
    functions: Vec<FlatFunction>,
    entries: Vec<Entry>,
    alloc: Global,
}

impl Model for Parts {
    ghost use Rattle.std.specs.Prelude.{List, map};
    ghost use Rattle.cu_calculus.specs.Code as code;
    ghost use Rattle.cu_flat.specs.Meaning.{entry_meaning, function_meaning};

    ghost Value = { List code.Function × List code.Expr };

    ghost view = { λ p. (
      map function_meaning p.functions.items,
      map entry_meaning p.entries.items,
    ) };
}

/// A branch for a constructor.
pub(crate) fn branch<R: Abort>(
    rt: &R,
    alloc: Global,
    c: ConId,
    variables: &[u32],
    body: ExprId,
) -> (Pattern, ExprId)
    ensures { branch_meaning result ≡ record { pattern = code.Built c variables.now; body = body } }
{
    let variables = Vec::from_slice(alloc, variables).expect(rt, "memory");
    (Pattern::Con(c, variables), body)
}

/// A branch for an integer.
pub(crate) fn branch_on(n: Int, body: ExprId) -> (Pattern, ExprId)
    ensures { branch_meaning result ≡ record { pattern = code.Exactly (lit.Int n); body = body } }
{
    (Pattern::Lit(Lit::Int(n)), body)
}

fn constructor(of_type: usize, arity: u32) -> FlatConstructor
    ensures { result ≡ record { of_type = of_type; arity = arity } }
{
    FlatConstructor { of_type, arity }
}

impl Parts {
    /// A program without functions and expressions.
    fn new(alloc: Global) -> Parts
        ensures { result ≡ ([], []) }
    {
        Parts {
            functions: Vec::new(alloc),
            entries: Vec::new(alloc),
            alloc,
        }
    }

    fn push<R: Abort>(&mut self, rt: &R, expr: Expr)
        ensures { self.new ≡ (self.old.0, self.old.1 ++ expr_meaning [] expr ∷ []) }
    {
        let kept = Vec::new(self.alloc);
        self.entries.push(Entry { expr, kept }).expect(rt, "memory");
    }

    pub(crate) fn variable<R: Abort>(&mut self, rt: &R, x: u32)
        ensures { self.new ≡ (self.old.0, self.old.1 ++ code.Variable x ∷ []) }
    {
        self.push(rt, Expr::Var(x));
    }

    pub(crate) fn integer<R: Abort>(&mut self, rt: &R, n: Int)
        ensures { self.new ≡ (self.old.0, self.old.1 ++ code.Literal (lit.Int n) ∷ []) }
    {
        self.push(rt, Expr::Lit(Lit::Int(n)));
    }

    pub(crate) fn character<R: Abort>(&mut self, rt: &R, c: char)
        ensures { self.new ≡ (self.old.0, self.old.1 ++ code.Literal (lit.Char c) ∷ []) }
    {
        self.push(rt, Expr::Lit(Lit::Char(c)));
    }

    pub(crate) fn whole<R: Abort>(&mut self, rt: &R, head: Head, parts: &[ExprId])
        ensures { self.new ≡ (self.old.0, self.old.1 ++ code.Whole head parts.now ∷ []) }
    {
        let parts = Vec::from_slice(self.alloc, parts).expect(rt, "memory");
        self.push(rt, Expr::Whole(head, parts));
    }

    pub(crate) fn constructed<R: Abort>(&mut self, rt: &R, c: ConId, parts: &[ExprId])
        ensures { self.new ≡ (self.old.0, self.old.1 ++ code.Whole (head.Con c) parts.now ∷ []) }
    {
        self.whole(rt, Head::Con(c), parts);
    }

    pub(crate) fn call<R: Abort>(&mut self, rt: &R, f: FunId, parts: &[ExprId])
        ensures { self.new ≡ (self.old.0, self.old.1 ++ code.Whole (head.Fun f) parts.now ∷ []) }
    {
        self.whole(rt, Head::Fun(f), parts);
    }

    pub(crate) fn partial<R: Abort>(&mut self, rt: &R, f: FunId, parts: &[ExprId])
        ensures { self.new ≡ (self.old.0, self.old.1 ++ code.Part (head.Fun f) parts.now ∷ []) }
    {
        let parts = Vec::from_slice(self.alloc, parts).expect(rt, "memory");
        self.push(rt, Expr::Part(Head::Fun(f), parts));
    }

    pub(crate) fn apply<R: Abort>(&mut self, rt: &R, function: ExprId, argument: ExprId)
        ensures { self.new ≡ (self.old.0, self.old.1 ++ code.Apply function argument ∷ []) }
    {
        self.push(rt, Expr::Apply(function, argument));
    }

    pub(crate) fn bind<R: Abort>(&mut self, rt: &R, x: u32, bound: ExprId, body: ExprId)
        ensures { self.new ≡ (self.old.0, self.old.1 ++ code.Let x bound body ∷ []) }
    {
        self.push(rt, Expr::Let(x, bound, body));
    }

    pub(crate) fn free<R: Abort>(&mut self, rt: &R, x: u32, body: ExprId)
        ensures { self.new ≡ (self.old.0, self.old.1 ++ code.Free x body ∷ []) }
    {
        self.push(rt, Expr::Free(x, body));
    }

    pub(crate) fn choice<R: Abort>(&mut self, rt: &R, left: ExprId, right: ExprId)
        ensures { self.new ≡ (self.old.0, self.old.1 ++ code.Or left right ∷ []) }
    {
        self.push(rt, Expr::Or(left, right));
    }

    pub(crate) fn case<R: Abort>(
        &mut self,
        rt: &R,
        mode: Mode,
        kept: &[u32],
        scrutinee: ExprId,
        branches: Vec<(Pattern, ExprId)>,
    )
        ensures { self.new ≡ (
          self.old.0,
          self.old.1 ++ code.Case mode kept.now scrutinee (map branch_meaning branches.items) ∷ [],
        ) }
    {
        let kept = Vec::from_slice(self.alloc, kept).expect(rt, "memory");
        let expr = Expr::Case(mode, scrutinee, branches);
        self.entries.push(Entry { expr, kept }).expect(rt, "memory");
    }

    pub(crate) fn function<R: Abort>(&mut self, rt: &R, arity: u32, params: &[u32], body: ExprId)
        ensures { self.new
            ≡ (
              self.old.0 ++ record { arity = arity; body = code.Rule params.now body } ∷ [],
              self.old.1,
            ) }
    {
        let params = Vec::from_slice(self.alloc, params).expect(rt, "memory");
        let body = FlatBody::Rule(params, body);
        self.functions
            .push(FlatFunction { arity, body })
            .expect(rt, "memory");
    }

    /// A function of one parameter that calls another twice. Its calls are the
    /// expression with this index and the next one.
    pub(crate) fn twice<R: Abort>(&mut self, rt: &R, f: FunId, place: usize)
        requires { place < 1000 }
        ensures { self.new ≡ (
          self.old.0 ++ record { arity = 1; body = code.Rule (0 ∷ []) (record { 0 = place + 1 }) }
              ∷ [],
          self.old.1 ++ code.Whole (head.Fun f) (record { 0 = 0 } ∷ [])
              ∷ code.Whole (head.Fun f) (record { 0 = place } ∷ []) ∷ [],
        ) }
    {
        self.call(rt, f, &[ExprId(0)]);
        self.call(rt, f, &[ExprId(place)]);
        self.function(rt, 1, &[0], ExprId(place + 1));
    }

    pub(crate) fn external<R: Abort>(&mut self, rt: &R, arity: u32, operation: Prim)
        ensures { self.new
            ≡ (
              self.old.0 ++ record { arity = arity; body = code.External operation } ∷ [],
              self.old.1,
            ) }
    {
        let body = FlatBody::External(operation);
        self.functions
            .push(FlatFunction { arity, body })
            .expect(rt, "memory");
    }

    /// The program of all functions and expressions.
    pub(crate) fn program<R: Abort>(self, rt: &R) -> FlatProgram
        requires { IsTrue (is_well_formed (sample self.0 self.1)) }
        ensures { result ≡ sample self.0 self.1 }
    {
        let constructors = vec![in self.alloc;
            constructor(0, 0),
            constructor(0, 0),
            constructor(1, 0),
            constructor(1, 2),
        ]
        .expect(rt, "memory");
        FlatProgram::new(self.functions, constructors, SPECIAL, self.entries)
    }

    /// The program of all functions and expressions, which may have set
    /// functions.
    pub(crate) fn program_with_sets<R: Abort>(self, rt: &R) -> FlatProgram
        requires { IsTrue (is_well_formed (sample_with_sets self.0 self.1)) }
        ensures { result ≡ sample_with_sets self.0 self.1 }
    {
        let constructors = vec![in self.alloc;
            constructor(0, 0),
            constructor(0, 0),
            constructor(1, 0),
            constructor(1, 2),
            constructor(2, 1),
        ]
        .expect(rt, "memory");
        FlatProgram::new(
            self.functions,
            constructors,
            SPECIAL_WITH_SETS,
            self.entries,
        )
    }
}

/// `&&`, whose body has the first four expressions: two variables, False and
/// a case distinction.
pub(crate) fn both<R: Abort>(rt: &R, alloc: Global) -> Parts
    ensures { result ≡ (
      record { arity = 2; body = code.Rule (0 ∷ 1 ∷ []) (record { 0 = 3 }) } ∷ [],
      code.Variable 0 ∷ code.Variable 1 ∷ code.Whole (head.Con (record { 0 = 0 })) []
          ∷ code.Case mode.Flex (1 ∷ []) (record { 0 = 0 }) (
          record { pattern = code.Built (record { 0 = 0 }) []; body = record { 0 = 2 } }
          ∷ record { pattern = code.Built (record { 0 = 1 }) []; body = record { 0 = 1 } } ∷ [])
          ∷ [],
    ) }
{
    let mut parts = Parts::new(alloc);
    parts.variable(rt, 0);
    parts.variable(rt, 1);
    parts.constructed(rt, FALSE, &[]);
    let branches = vec![in alloc;
        branch(rt, alloc, FALSE, &[], ExprId(2)),
        branch(rt, alloc, TRUE, &[], ExprId(1)),
    ]
    .expect(rt, "memory");
    parts.case(rt, Mode::Flex, &[1], ExprId(0), branches);
    parts.function(rt, 2, &[0, 1], ExprId(3));
    parts
}
