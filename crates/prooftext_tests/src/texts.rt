//! The text of a proof with every form of term, pattern and value, written out
//! by hand. The proof needn't check.
use cu_crwl::{Claim, Claims, Proof, Statement, Step};
use cu_kernel::{ConId, FunId, Head, Int, Lit, Mode, Pattern, Term};
use cu_prooftext::write_proof;
use cu_values::Value;
use std::alloc::{AllocError, Global};
use std::process::Abort;

const TEXT: &[u8] = b"claims 2\n\
    f3 : - : -\n\
    f4 : i1,k2/2 h97 _ : pf1/1 v3,ps3/0\n\
    steps 3\n\
    - : - : x0 => _\n\
    0 : 0=_,4294967295=k1/0 : @ l0 x1 n2 o i-1 h55295 qc1/2 x1 x2 => _\n\
    0,1 : - : r/2 i0 x1 i1 k2/2 a3 x4 i-170141183460469231731687303715884105728 f/0 wf9/0 \
    => i170141183460469231731687303715884105727\n";

fn number(n: Int) -> Lit {
    Lit::Int(n)
}

fn boxed(alloc: Global, term: Term) -> Result<Box<Term>, AllocError> {
    Ok(Box::new(alloc, term)?)
}

/// Two claims.
fn claims(alloc: Global) -> Result<Claims, AllocError> {
    let letter = Value::literal(alloc, Lit::Char('a'))?;
    let pair = Value::constructed(alloc, ConId(2), &[letter, Value::bottom(alloc)?])?;
    let one = Value::literal(alloc, number(1))?;
    let variable = Value::variable(alloc, 3)?;
    let applied = Value::partial(alloc, Head::Fun(FunId(1)), &[variable])?;
    let set = Value::partial(alloc, Head::Set(FunId(3)), &[])?;
    let none = Claim {
        function: FunId(3),
        arguments: Vec::new(alloc),
        values: Vec::new(alloc),
    };
    let some = Claim {
        function: FunId(4),
        arguments: vec![in alloc; one, pair]?,
        values: vec![in alloc; applied, set]?,
    };
    let rows = vec![in alloc; none, some]?;
    Ok(Claims { rows })
}

/// `@ l0 x1 n2 o i-1 h55295 qc1/2 x1 x2`
fn first_term(alloc: Global) -> Result<Term, AllocError> {
    let left = boxed(alloc, Term::Lit(number(-1)))?;
    let right = boxed(alloc, Term::Lit(Lit::Char('\u{d7ff}')))?;
    let choice = boxed(alloc, Term::Or(left, right))?;
    let body = boxed(alloc, Term::Free(2, choice))?;
    let definition = boxed(alloc, Term::Var(1))?;
    let function = boxed(alloc, Term::Let(0, definition, body))?;
    let terms = vec![in alloc; Term::Var(1), Term::Var(2)]?;
    let argument = boxed(alloc, Term::Part(Head::Con(ConId(1)), terms))?;
    Ok(Term::Apply(function, argument))
}

/// `k2/2 a3 x4 iN`
fn pattern(alloc: Global) -> Result<Pattern, AllocError> {
    let inner = Box::new(alloc, Pattern::Var(4))?;
    let patterns = vec![in alloc; Pattern::Alias(3, inner), Pattern::Lit(number(Int::MIN))]?;
    Ok(Pattern::Con(ConId(2), patterns))
}

/// `r/2 i0 x1 i1 k2/2 a3 x4 iN f/0 wf9/0`
fn second_term(alloc: Global) -> Result<Term, AllocError> {
    let call = boxed(alloc, Term::Whole(Head::Fun(FunId(9)), Vec::new(alloc)))?;
    let inner = Term::Case(Mode::Flex, call, Vec::new(alloc));
    let scrutinee = boxed(alloc, Term::Lit(number(0)))?;
    let first = (Pattern::Var(1), Term::Lit(number(1)));
    let second = (pattern(alloc)?, inner);
    let rows = vec![in alloc; first, second]?;
    Ok(Term::Case(Mode::Rigid, scrutinee, rows))
}

/// Three steps.
fn proof(alloc: Global) -> Result<Vec<Step>, AllocError> {
    let mut steps = Vec::new(alloc);
    let statement = Statement {
        env: Vec::new(alloc),
        term: Term::Var(0),
        value: Value::bottom(alloc)?,
    };
    let cites = Vec::new(alloc);
    steps.push(Step { cites, statement })?;
    let low = (0, Value::bottom(alloc)?);
    let high = (u32::MAX, Value::constructed(alloc, ConId(1), &[])?);
    let statement = Statement {
        env: vec![in alloc; low, high]?,
        term: first_term(alloc)?,
        value: Value::bottom(alloc)?,
    };
    let cites = vec![in alloc; 0]?;
    steps.push(Step { cites, statement })?;
    let statement = Statement {
        env: Vec::new(alloc),
        term: second_term(alloc)?,
        value: Value::literal(alloc, number(Int::MAX))?,
    };
    let cites = vec![in alloc; 0, 1]?;
    steps.push(Step { cites, statement })?;
    Ok(steps)
}

/// What is written after a word that stands there already.
fn written(alloc: Global) -> Result<Option<Vec<u8>>, AllocError> {
    let steps = proof(alloc)?;
    if steps.is_empty() {
        return Ok(None);
    }
    let mut out = Vec::from_slice(alloc, b"> ")?;
    write_proof(&Proof::new(steps), &claims(alloc)?, &mut out)?;
    Ok(Some(out))
}

#[test]
fn a_text_has_every_form(rt: HostRuntime) {
    let alloc = rt.alloc();
    match written(alloc) {
        Ok(Some(out)) => {
            let (before, text) = out.as_slice().split_at(out.len().min(2));
            assert!(rt; before == b"> ".as_slice());
            assert!(rt; text == TEXT);
        }
        _ => assert!(rt; false),
    }
}
