//! Texts of modules, worked out by hand.
use crate::printed_declarations::{ENTITIES, modules, names, synonyms, types};
use crate::printed_functions::{functions, marks};
use cu_flat::FlatProgram;
use cu_flattext::{PrintFault, print};
use cu_io::VecSink;
use cu_kernel::{Program, ProgramParts};
use cu_names::{NameId, Names};
use cu_types::{Interface, infer};
use samples::{lowered, program_of};
use std::alloc::{AllocError, Global};
use std::process::Abort;

const PRELUDE: &str = "Prog \"Prelude\" [] [\n\
    Type (\"Prelude\",\"Bool\") Public [] [Cons (\"Prelude\",\"False\") 0 Public [],\
    Cons (\"Prelude\",\"True\") 0 Public []]] [\n\
    Func (\"Prelude\",\"&&\") 2 Public (FuncType (TCons (\"Prelude\",\"Bool\") []) \
    (FuncType (TCons (\"Prelude\",\"Bool\") []) (TCons (\"Prelude\",\"Bool\") []))) \
    (Rule [1,2] (Case Flex (Var 1) \
    [Branch (Pattern (\"Prelude\",\"False\") []) (Comb ConsCall (\"Prelude\",\"False\") []),\
    Branch (Pattern (\"Prelude\",\"True\") []) (Var 2)])),\n\
    Func (\"Prelude\",\"failed\") 0 Public (TVar 0) (External \"Prelude.failed\"),\n\
    Func (\"Prelude\",\"==\") 2 Public (FuncType (TVar 0) (FuncType (TVar 0) \
    (TCons (\"Prelude\",\"Bool\") []))) (External \"Prelude.==\")] [\n\
    Op (\"Prelude\",\"&&\") InfixrOp 3]\n";

const B: &str = "Prog \"B\" [\"Prelude\"] [\n\
    Type (\"B\",\"V\") Public [0] \
    [Cons (\"B\",\"V\") 1 Public [TCons (\"Prelude\",\"[]\") [TVar 0]]]] [\n\
    Func (\"B\",\"b\") 0 Private (TCons (\"Prelude\",\"[]\") [TCons (\"Prelude\",\"Int\") []]) \
    (Rule [] (Comb ConsCall (\"Prelude\",\":\") \
    [Lit (Intc 1),Comb ConsCall (\"Prelude\",\"[]\") []]))] [\n\
    Op (\"B\",\"b\") InfixOp 4]\n";

const A: &str = "Prog \"A\" [\"B\",\"Prelude\"] [\n\
    Type (\"A\",\"T\") Public [0,1] [\
    Cons (\"A\",\"C\") 2 Public [TVar 1,TCons (\"Prelude\",\"[]\") [TVar 0]],\
    Cons (\"A\",\"D\") 1 Private \
    [TCons (\"Prelude\",\"(,)\") [TCons (\"A\",\"X\") [],TCons (\"Prelude\",\"Int\") []]],\
    Cons (\"A\",\"E\") 2 Public [TCons (\"A\",\"L\") [TVar 0,TVar 1],\
    FuncType (TVar 0) (TVar 1)]],\n\
    TypeSyn (\"A\",\"L\") Public [0] (TCons (\"Prelude\",\"[]\") [TVar 0]),\n\
    TypeSyn (\"A\",\"X\") Private [] (TCons (\"A\",\"Y\") []),\n\
    TypeSyn (\"A\",\"Y\") Private [] (TCons (\"A\",\"X\") []),\n\
    TypeSyn (\"A\",\"Z\") Public [0] (TCons (\"Prelude\",\"(,)\") [TCons (\"A\",\"X\") [],TVar 0])\
    ] [\n\
    Func (\"A\",\"\\\\\\\\\") 2 Public (FuncType (TVar 0) (FuncType (TVar 0) (TVar 0))) \
    (Rule [1,2] (Or (Var 1) (Var 2))),\n\
    Func (\"A\",\"p\") 0 Private (TCons (\"Prelude\",\"Int\") []) (Rule [] (Lit (Intc (-5)))),\n\
    Func (\"A\",\"q\") 1 Public \
    (FuncType (TCons (\"Prelude\",\"Char\") []) (TCons (\"Prelude\",\"[]\") [TVar 0])) \
    (Rule [1] (Case Rigid (Var 1) \
    [Branch (LPattern (Charc 97)) (Comb ConsCall (\"Prelude\",\"[]\") [])])),\n\
    Func (\"A\",\"r\") 0 Public (TCons (\"Prelude\",\"[]\") [TVar 0]) \
    (Rule [] (Let [(1,Comb (FuncPartCall 1) (\"A\",\"q\") [])] \
    (Free [2] (Comb FuncCall (\"Prelude\",\"apply\") [Var 1,Var 2])))),\n\
    Func (\"A\",\"s\") 1 Public (FuncType (TCons (\"Prelude\",\"[]\") [TVar 0]) \
    (TCons (\"Prelude\",\"(,)\") [TVar 0,FuncType (TCons (\"Prelude\",\"[]\") [TVar 0]) \
    (TCons (\"Prelude\",\"[]\") [TVar 0])])) (Rule [1] (Case Flex (Var 1) \
    [Branch (Pattern (\"Prelude\",\":\") [2,3]) (Comb ConsCall (\"Prelude\",\"(,)\") \
    [Var 2,Comb (FuncPartCall 1) (\"A\",\"\\\\\\\\\") [Var 3]])])),\n\
    Func (\"A\",\"t\") 1 Public (FuncType (TCons (\"Prelude\",\"Char\") []) \
    (TCons (\"B\",\"V\") [TCons (\"Prelude\",\"[]\") [TVar 0]])) \
    (Rule [1] (Comb FuncCall (\"SetFunctions\",\"set1\") \
    [Comb (FuncPartCall 1) (\"A\",\"q\") [],Var 1])),\n\
    Func (\"A\",\"u\") 0 Public (TCons (\"Prelude\",\"(,)\") [FuncType (TVar 0) \
    (FuncType (TCons (\"Prelude\",\"[]\") [TVar 0]) (TCons (\"Prelude\",\"[]\") [TVar 0])),\
    TCons (\"B\",\"V\") [TCons (\"Prelude\",\"Int\") []]]) \
    (Rule [] (Comb ConsCall (\"Prelude\",\"(,)\") [Comb (ConsPartCall 2) (\"Prelude\",\":\") [],\
    Or (Or (Comb FuncCall (\"SetFunctions\",\"set0\") [Comb FuncCall (\"A\",\"p\") []]) \
    (Free [1] (Var 1))) (Free [2] (Var 2))])),\n\
    Func (\"A\",\"v\") 2 Public (FuncType (TVar 0) (FuncType (TVar 1) (TVar 0))) \
    (Rule [1,2] (Var 1)),\n\
    Func (\"A\",\"w\") 2 Public (FuncType (TVar 0) (FuncType \
    (TCons (\"Prelude\",\"[]\") [TVar 1]) (TCons (\"A\",\"T\") [TVar 1,TVar 0]))) \
    (Rule [1,2] (Comb ConsCall (\"A\",\"C\") [Var 1,Var 2]))] [\n\
    Op (\"A\",\"\\\\\\\\\") InfixlOp 6]\n";

/// How many bytes a text may have.
const ROOM: usize = 65536;

/// A program, the types of its functions, and the names of its parts.
#[derive(Drop)]
struct Bench {
    alloc: Global,
    names: Names,
    kernel: Program,
    flat: FlatProgram,
    interface: Interface,
}

fn parts(alloc: Global, names: &mut Names, count: u32) -> Result<ProgramParts, AllocError> {
    Ok(ProgramParts {
        types: types(alloc, names)?,
        functions: functions(alloc, count)?,
        synonyms: synonyms(alloc)?,
        modules: modules(alloc)?,
        marks: marks(alloc)?,
        goal: None,
        special: ENTITIES,
    })
}

impl Bench {
    /// The program whose function `b` is a list of so many elements.
    fn new<R: Abort>(rt: &R, alloc: Global, count: u32) -> Bench {
        let mut names = names(alloc).expect(rt, "memory");
        let parts = parts(alloc, &mut names, count).expect(rt, "memory");
        let made = program_of(parts).expect(rt, "memory");
        let kernel = made.expect(rt, "a valid program");
        let lowered = lowered(alloc, &kernel).expect(rt, "operations");
        let flat = lowered.ok().expect(rt, "code");
        let interface = infer(alloc, &kernel).ok().expect(rt, "types");
        Bench {
            alloc,
            names,
            kernel,
            flat,
            interface,
        }
    }

    /// Prints the module of a name.
    fn print(&self, name: usize, sink: &mut VecSink) -> Result<(), PrintFault> {
        print(
            self.alloc,
            NameId(name),
            &self.kernel,
            &self.flat,
            &self.interface,
            &self.names,
            sink,
        )
    }
}

/// A sink of which the call of that number fails, if there is one.
fn sink<R: Abort>(rt: &R, alloc: Global, failing: Option<(u64, usize)>) -> VecSink {
    let mut calls = Vec::new(alloc);
    if let Some(call) = failing {
        calls.push(call).expect(rt, "memory");
    }
    VecSink::new(alloc, ROOM, calls).expect(rt, "memory")
}

/// Expects the text of the module of a name.
fn expect<R: Abort>(rt: &R, bench: &Bench, name: usize, text: &str) {
    let mut sink = sink(rt, bench.alloc, None);
    let printed = bench.print(name, &mut sink);
    assert!(rt; printed.is_ok());
    assert_eq!(rt; sink.bytes(), text.as_bytes());
}

#[test]
fn modules_have_texts(rt: HostRuntime) {
    let bench = Bench::new(&rt, rt.alloc(), 1);
    expect(&rt, &bench, 0, PRELUDE);
    expect(&rt, &bench, 1, B);
    expect(&rt, &bench, 2, A);
}

/// A text of two pieces, of which the second one fails.
#[test]
fn long_texts_go_out_in_pieces(rt: HostRuntime) {
    let bench = Bench::new(&rt, rt.alloc(), 100);
    let mut whole = sink(&rt, rt.alloc(), None);
    assert!(rt; bench.print(1, &mut whole).is_ok());
    let mut broken = sink(&rt, rt.alloc(), Some((1, 3)));
    let fault = bench.print(1, &mut broken);
    assert!(rt; matches!(fault, Err(PrintFault::Write)));
    let count = broken.bytes().len();
    assert!(rt; 4096 < count && count < whole.bytes().len());
    assert!(rt; whole.bytes().starts_with(broken.bytes()));
}
