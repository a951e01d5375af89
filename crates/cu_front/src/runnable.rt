//! Programs that can be run: with local functions lifted, with set levels and
//! types, and with definitional trees in place of rules.
ghost use Rattle.std.specs.Prelude.{◌≡◌, ◌∷◌, List, IfErr, IfOk, IfSome, IsTrue, OnOk, Ok, nat_lt};
ghost use Rattle.std.specs.List.{list_all};
ghost use Rattle.cu_calculus.specs.FlatProgram as flats;
ghost use Rattle.cu_calculus.specs.declared.FunId.{FunId};
ghost use Rattle.cu_deftree.specs.LoweredProgram.{Lowering};
ghost use Rattle.cu_deftree.specs.NotLowered.{IsLowerFault};
ghost use Rattle.cu_flat.specs.Layout.{laid_out};
ghost use Rattle.cu_front.specs.Inside.Typings.{IsTyping};
ghost use Rattle.cu_front.specs.Programs.{CanRun, CannotRun, HasLevels, IsLifted, IsTypable};
ghost use Rattle.cu_front.specs.Programs as programs;
ghost use Rattle.cu_front.specs.Refusal as meant;
ghost use Rattle.cu_front.specs.RefusalMeaning.{FunctionIsKnown, function_named};
ghost use Rattle.cu_front.specs.Inside.Runnable.{IsNotRunnable};
ghost use Rattle.cu_front.specs.Inside.StageFaults.{Tells};
ghost use Rattle.cu_front.specs.declared.fault.StageFault.TheVariants.{NoMemory};
ghost use Rattle.cu_kernel.specs.Kernel.{program_of};
ghost use Rattle.cu_lift.specs.Lifting.{AreNamed};
ghost use Rattle.cu_lift.specs.SetCycles.{IsLevelFault};
ghost use Rattle.cu_names.specs.Texts.{Extends, IsKnown, text_of};

use crate::fault::StageFault;
use crate::refusal::Refusal;
use cu_calculus::FunId;
use cu_deftree::{LowerFault, has_operations, lower};
use cu_flat::FlatProgram;
use cu_kernel::{LocalProgram, Program, TopFunction};
use cu_lift::{LevelFault, levels, lift};
use cu_names::{NameId, Names};
use cu_parts::is_joined;
use cu_types::{Interface, TypeFault, clashes_leave_no_solution, infer};
use std::alloc::Global;

/// A program that can be run.
#[derive(Drop)]
pub struct Compiled {
    pub program: Program,
    /// The types of the program's functions.
    pub interface: Interface,
    /// The flat program: the program with definitional trees in place of rules.
    pub flat: FlatProgram,
}

/// The program that another becomes by lifting, where it can be run. The names
/// of the lifted functions are interned.
///
/// # Errors
///
/// The first function on a recursion through set functions, or else the first
/// of the first dependency group that can't be typed, or else the first whose
/// definitional tree is too big, or else that the goal holds functions; an
/// allocation failure.
pub(crate) fn runnable(
    alloc: Global,
    names: &mut Names,
    local: LocalProgram,
) -> Result<Compiled, StageFault>
    ensures lifted { IfOk result (λ found.
        IsLifted names.old local names.new found.program) }
    ensures runs { IfOk result (λ found.
        CanRun found.program found.interface (flats.program_of found.flat)) }
    ensures layout { IfOk result (λ found. found.flat ≡ laid_out (flats.program_of found.flat)) }
    ensures fault { IfErr result (Tells names.new (IsNotRunnable names.old local names.new)) }
    ensures names { Extends names.old names.new }
{
    let program = lifted(alloc, names, local)?;
    test_levels(alloc, names, &program)?;
    let typing = typed(alloc, names, &program)?;
    let flat = lowered(alloc, names, &program)?;
    // Called for its clause that the program is valid.
    let _functions = program.functions();
    match typing {
        Typing::Data(interface) => Ok(Compiled {
            program,
            interface,
            flat,
        }),
        Typing::Functional => Err(StageFault::Refused(Refusal::GoalFunctional)),
    }
}

/// The program that another becomes by lifting. That all parts of it fit
/// together is tested here once more: parts that don't are answered as an
/// allocation failure.
fn lifted(alloc: Global, names: &mut Names, local: LocalProgram) -> Result<Program, StageFault>
    ensures lifted { IfOk result (IsLifted names.old local names.new) }
    ensures fault { IfErr result (λ fault. fault ≡ NoMemory) }
    ensures names { Extends names.old names.new }
{
    if !is_joined(alloc, &local)? || !are_named(names, &local) {
        return Err(StageFault::NoMemory);
    }
    let program = lift(alloc, names, local)?;
    // Called for its clause that the texts of the table differ.
    let _count = names.count();
    Ok(program)
}

/// Whether the table has the names of all functions.
fn are_named(names: &Names, local: &LocalProgram) -> bool
    ensures { IsTrue result → AreNamed names.now local.now }
{
    let count = names.count();
    let functions = local.parts().functions.as_slice();
    all_below(functions, count)
}

/// Whether the names of all functions are among the first so many of a table.
fn all_below(functions: &[TopFunction], count: usize) -> bool
    ensures { result ≡ list_all (λ f. nat_lt f.name.0 count) functions.now }
{
    functions.iter().all(|f| f.name.0 < count)
}

/// Tests that a program has set levels.
fn test_levels(alloc: Global, names: &Names, program: &Program) -> Result<(), StageFault>
    ensures levels { OnOk result (HasLevels program.now) }
    ensures fault { IfErr result (Tells names.now (CannotRun names.now program.now)) }
{
    match levels(alloc, program) {
        Ok(_) => Ok(()),
        Err(fault) => Err(of_levels(names, program, fault)),
    }
}

fn of_levels(names: &Names, program: &Program, fault: LevelFault) -> StageFault
    requires { IsLevelFault (program_of program.now) fault }
    ensures { Tells names.now (CannotRun names.now program.now) result }
{
    match fault {
        LevelFault::SetRecursion(cycle) => of_recursion(names, program, cycle.as_slice()),
        LevelFault::NoMemory => StageFault::NoMemory,
    }
}

fn of_recursion(names: &Names, program: &Program, cycle: &[FunId]) -> StageFault
    ensures { (first : FunId) (others : List FunId) → cycle.now ≡ first ∷ others
        → Tells names.now (λ refusal. refusal
        ≡ meant.SetRecursion (programs.function_text names.now program.now first)) result }
{
    let Some(first) = cycle.first() else {
        return StageFault::NoMemory;
    };
    match function_names(names, program, *first) {
        Some((owner, f)) => StageFault::Refused(Refusal::SetRecursion(owner, f)),
        None => StageFault::NoMemory,
    }
}

/// What inference says of a program that has types.
#[derive(Drop)]
enum Typing {
    /// The goal is data, where there is one.
    Data(Interface),
    /// The goal, or a variable of it, holds functions.
    Functional,
}

/// The types of the functions of a program with set levels.
///
/// # Errors
///
/// The first function of the first dependency group that can't be typed; an
/// allocation failure.
fn typed(alloc: Global, names: &Names, program: &Program) -> Result<Typing, StageFault>
    requires levels { HasLevels program.now }
    ensures types { IfOk result (IsTyping program.now) }
    ensures fault { IfErr result (Tells names.now (CannotRun names.now program.now)) }
{
    clashes_leave_no_solution();
    match infer(alloc, program) {
        Ok(interface) => Ok(Typing::Data(interface)),
        Err(TypeFault::TypeClash(f, _)) => Err(of_clash(names, program, f)),
        Err(TypeFault::Signature(f)) => Err(of_signature(names, program, f)),
        Err(TypeFault::GoalFunctional) => Ok(Typing::Functional),
        Err(TypeFault::NoMemory) => Err(StageFault::NoMemory),
    }
}

fn of_clash(names: &Names, program: &Program, f: FunId) -> StageFault
    ensures { Tells names.now (λ refusal. refusal
        ≡ meant.TypeClash (programs.function_text names.now program.now f)) result }
{
    match function_names(names, program, f) {
        Some((owner, f)) => StageFault::Refused(Refusal::TypeClash(owner, f)),
        None => StageFault::NoMemory,
    }
}

fn of_signature(names: &Names, program: &Program, f: FunId) -> StageFault
    ensures { Tells names.now (λ refusal. refusal
        ≡ meant.Signature (programs.function_text names.now program.now f)) result }
{
    match function_names(names, program, f) {
        Some((owner, f)) => StageFault::Refused(Refusal::Signature(owner, f)),
        None => StageFault::NoMemory,
    }
}

/// The flat program of a program with set levels and types.
fn lowered(alloc: Global, names: &Names, program: &Program) -> Result<FlatProgram, StageFault>
    requires levels { HasLevels program.now }
    requires types { IsTypable program.now }
    ensures flat { IfOk result (λ flat.
        Lowering (program_of program.now) (Ok (flats.program_of flat))) }
    ensures layout { IfOk result (λ flat. flat ≡ laid_out (flats.program_of flat)) }
    ensures fault { IfErr result (Tells names.now (CannotRun names.now program.now)) }
{
    if !has_operations(program) {
        return Err(StageFault::NoMemory);
    }
    match lower(alloc, program) {
        Ok(flat) => Ok(flat),
        Err(fault) => Err(of_lowering(names, program, fault)),
    }
}

fn of_lowering(names: &Names, program: &Program, fault: LowerFault) -> StageFault
    requires levels { HasLevels program.now }
    requires types { IsTypable program.now }
    requires fault { IsLowerFault (program_of program.now) fault }
    ensures { Tells names.now (CannotRun names.now program.now) result }
{
    match fault {
        LowerFault::TreeTooBig(f) => of_tree(names, program, f),
        LowerFault::NoMemory => StageFault::NoMemory,
    }
}

fn of_tree(names: &Names, program: &Program, f: FunId) -> StageFault
    ensures { Tells names.now (λ refusal. refusal
        ≡ meant.TreeTooBig (programs.function_text names.now program.now f)) result }
{
    match function_names(names, program, f) {
        Some((owner, f)) => StageFault::Refused(Refusal::TreeTooBig(owner, f)),
        None => StageFault::NoMemory,
    }
}

/// The name of a function's module, unless the function is the goal's, and the
/// function's own name.
fn function_names(names: &Names, program: &Program, f: FunId) -> Option<(Option<NameId>, NameId)>
    ensures text { IfSome result (λ found. function_named names.now found.0 found.1
        ≡ programs.function_text names.now program.now f) }
    ensures known { IfSome result (λ found. FunctionIsKnown names.now found.0 found.1) }
{
    let own = own_name(names, program, f)?;
    if is_of_goal(program, f) {
        return Some((None, own));
    }
    let owner = owner_name(names, program, f)?;
    Some((Some(owner), own))
}

/// Whether a function is the goal's, or is lifted from it.
fn is_of_goal(program: &Program, f: FunId) -> bool
    ensures { result ≡ programs.is_of_goal program.now.goal f }
{
    match program.goal() {
        Some(goal) => goal.function.0 <= f.0,
        None => false,
    }
}

fn own_name(names: &Names, program: &Program, f: FunId) -> Option<NameId>
    ensures { IfSome result (λ id. (text_of names.now id
        ≡ programs.own_name names.now program.now f) × IsKnown names.now id) }
{
    let function = program.functions().get(f.0)?;
    known(names, function.name)
}

/// The name of a function's module.
fn owner_name(names: &Names, program: &Program, f: FunId) -> Option<NameId>
    ensures { IfSome result (λ id. (text_of names.now id
        ≡ programs.module_name names.now program.now (programs.owner_of program.now f))
        × IsKnown names.now id) }
{
    let mark = program.marks().get(f.0)?;
    let owner = program.modules().get(mark.module as usize)?;
    known(names, owner.name)
}

/// A name, if the table has it.
fn known(names: &Names, id: NameId) -> Option<NameId>
    ensures { IfSome result (λ found. (found ≡ id) × IsKnown names.now id) }
{
    if id.0 < names.count() { Some(id) } else { None }
}
