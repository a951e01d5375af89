//! Searches of a lowered program, as the text that they write.
ghost use Rattle.std.specs.Prelude.{◌≡◌, IfSome};
ghost use Rattle.cu_search.specs.Rounds.{IsWorkerCount};
ghost use Rattle.cu_search.specs.Standing.{IsGoing};
ghost use Rattle.cu_search.specs.Stands.{standing_of};

use crate::searched::parts;
use cu_flat::{FlatBody, FlatProgram, FunId, Head};
use cu_graph::Store;
use cu_io::VecSink;
use cu_kernel::{Goal, Program};
use cu_machine::{Limits, SearchLimits};
use cu_names::Names;
use cu_pile::Gate;
use cu_search::Search;
use samples::{lowered, program_of};
use std::alloc::Global;
use std::process::Abort;
use std::thread::Threads;

/// How many bytes a listing may have.
pub(crate) const ROOM: usize = 4096;

/// The programs, and the names of their parts.
#[derive(Drop)]
pub(crate) struct Bench {
    pub(crate) alloc: Global,
    pub(crate) code: FlatProgram,
    pub(crate) kernel: Program,
    pub(crate) names: Names,
}

impl Bench {
    pub(crate) fn new<R: Abort>(rt: &R, alloc: Global) -> Bench {
        let mut names = Names::new(alloc);
        names.intern("f").expect(rt, "memory");
        let parts = parts(alloc, &mut names).expect(rt, "memory");
        let made = program_of(parts).expect(rt, "memory");
        let kernel = made.expect(rt, "a valid program");
        let lowered = lowered(alloc, &kernel).expect(rt, "operations");
        let code = lowered.ok().expect(rt, "code");
        Bench {
            alloc,
            code,
            kernel,
            names,
        }
    }

    /// The goal of this function, whose variables have these names.
    pub(crate) fn goal<R: Abort>(&mut self, rt: &R, function: usize, variables: &[&str]) -> Goal {
        let mut names = Vec::new(self.alloc);
        for variable in variables {
            let name = self.names.intern(variable).expect(rt, "memory");
            names.push(name).expect(rt, "memory");
        }
        Goal {
            function: FunId(function),
            names,
        }
    }
}

/// Limits that aren't reached.
pub(crate) const AMPLE: SearchLimits = SearchLimits {
    rounds: 100,
    answers: None,
    stride: 1,
    step: Limits {
        nodes: 1000,
        width: 100,
    },
};

/// The search for a goal, where its function has rules and a parameter for
/// each of its names.
pub(crate) fn open<'p, S: Store>(
    bench: &'p Bench,
    goal: &'p Goal,
    limits: SearchLimits,
) -> Option<Search<'p, S>>
    ensures going { IfSome result (λ search. IsGoing (standing_of S.content search)) }
    ensures code { IfSome result (λ search.
        (standing_of S.content search).code ≡ bench.entry.now.code) }
{
    let arity = bench.code.arity_if_known(Head::Fun(goal.function))?;
    let Some(FlatBody::Rule(_, _)) = bench.code.body(goal.function) else {
        return None;
    };
    if arity as usize != goal.names.len() || limits.step.width > 1_048_576 {
        return None;
    }
    Search::open(
        bench.alloc,
        &bench.code,
        &bench.kernel,
        &bench.names,
        goal,
        limits,
    )
    .ok()
}

/// What a search over a store writes by these workers, at a gate.
pub(crate) fn written<S: Store + Send + Sync, R: Threads + Abort + Sync, G: Gate + Sync>(
    rt: &R,
    bench: &Bench,
    goal: &Goal,
    limits: SearchLimits,
    workers: Option<u32>,
    gate: &G,
) -> VecSink
    requires { IsWorkerCount workers }
{
    let failing = Vec::new(bench.alloc);
    let mut sink = VecSink::new(bench.alloc, ROOM, failing).expect(rt, "memory");
    let mut search = open::<S>(bench, goal, limits).expect(rt, "a goal");
    let end = search.list(rt, workers, gate, &mut sink);
    assert!(rt; end.is_ok() && search.ended());
    sink
}
