//! The command `check`.
ghost use Rattle.std.specs.Prelude.{◌≡◌, ◌≤◌, ◌++◌, IfOk, IfSome, List, OnErr, OnOk, Some, codes, decimal, length, map, string_bytes, ℕ};
ghost use Rattle.cu_cmd.specs.Checking.{CheckReport, FileReport, HasProof, ProofReport, bad_proof_line, missing_file_line, no_line, yes_line};
ghost use Rattle.cu_cmd.specs.Inside.Runs.{Ends, EndsWhole, HasRunCause, HasWriteCause, IsCompleted};
ghost use Rattle.cu_cmd.specs.declared.status.Status.TheVariants.{Done, Refused};
ghost use Rattle.cu_crwl.specs.Meaning.{claim_of};
ghost use Rattle.cu_front.specs.CompileAnswers.{HasGoal};
ghost use Rattle.cu_front.specs.Compiling.{Folder};
ghost use Rattle.cu_front.specs.Loaded.{AreLoaded, IsLoaded};
ghost use Rattle.cu_kernel.specs.Kernel.{Goal};
ghost use Rattle.cu_search.specs.Written.{Adds, AddsPrefix};
ghost use Rattle.cu_words.specs.Words as words;
ghost use Rattle.cu_words.specs.Words.{Checking, check_of};

use crate::fault::RunFault;
use crate::pieces::{write_bytes, write_piece};
use crate::solving::refuse;
use crate::status::Status;
use cu_front::{AskFault, AskedModule, CompileFault, Compiled, Loaded, ask, load};
use cu_io::{Fetched, Library, Sink};
use cu_names::Names;
use cu_prooftext::{File, ProofFault, read_file};
use cu_search::answer_text;
use cu_verdict::proved_answer;
use cu_words::Check;
use std::alloc::{AllocError, Global};

/// Writes what is due for a check, the line of the refusal or whether the
/// file's proof proves an answer, and answers how the run ends.
pub(crate) fn check<L: Library, S: Sink>(
    alloc: Global,
    check: Check<'_>,
    library: &mut L,
    output: &mut S,
) -> Result<Status, RunFault>
    ensures ends { IfSome (L.holdings library.old) (λ held.
        Ends result (CheckReport held (check_of check.entry))
        (S.written output.old) (S.written output.new)) }
    ensures whole { EndsWhole result (Checking (check_of check.entry))
        (S.written output.old) (S.written output.new) }
    ensures solved { IfOk result IsCompleted }
    ensures cause { HasRunCause result
        (record { library = L.fault_count library.old; output = S.fault_count output.old })
        (record { library = L.fault_count library.new; output = S.fault_count output.new }) }
{
    let mut names = Names::new(alloc);
    let asked = AskedModule {
        root: check.module,
        folder: check.folder,
    };
    match load(alloc, &mut names, asked, library) {
        Ok(loaded) => check_file(alloc, &mut names, &loaded, check, library, output),
        Err(CompileFault::Refused(refusal)) => refuse(alloc, &names, &refusal, output),
        Err(CompileFault::Fetch) => Err(RunFault::Read),
        Err(CompileFault::NoMemory) => Err(RunFault::NoMemory),
    }
}

/// Writes what is due for a check whose modules are loaded.
fn check_file<L: Library, S: Sink>(
    alloc: Global,
    names: &mut Names,
    loaded: &Loaded,
    check: Check<'_>,
    library: &mut L,
    output: &mut S,
) -> Result<Status, RunFault>
    requires loaded { IsLoaded names.old loaded.now }
    ensures ends { IfSome (L.holdings library.old) (λ held.
        AreLoaded (held.module_at (check_of check.entry).folder) (check_of check.entry).name
        names.old loaded.now → Ends result (CheckReport held (check_of check.entry))
        (S.written output.old) (S.written output.new)) }
    ensures whole { EndsWhole result (Checking (check_of check.entry))
        (S.written output.old) (S.written output.new) }
    ensures solved { IfOk result IsCompleted }
    ensures cause { HasRunCause result
        (record { library = L.fault_count library.old; output = S.fault_count output.old })
        (record { library = L.fault_count library.new; output = S.fault_count output.new }) }
{
    match library.file(alloc, check.path)? {
        Fetched::Text(bytes) => check_text(alloc, names, loaded, &bytes, output),
        Fetched::Absent => refuse_path(alloc, check.path, output),
        Fetched::Failed => Err(RunFault::Read),
    }
}

/// Writes what is due for the bytes of a file.
fn check_text<S: Sink>(
    alloc: Global,
    names: &mut Names,
    loaded: &Loaded,
    bytes: &[u8],
    output: &mut S,
) -> Result<Status, RunFault>
    requires loaded { IsLoaded names.old loaded.now }
    ensures ends { (held : Folder) (root : List ℕ) → AreLoaded held root names.old loaded.now
        → Ends result (FileReport held root bytes.now)
        (S.written output.old) (S.written output.new) }
    ensures whole { (check : words.Check) → EndsWhole result (Checking check)
        (S.written output.old) (S.written output.new) }
    ensures solved { IfOk result IsCompleted }
    ensures cause { HasWriteCause result (S.fault_count output.old) (S.fault_count output.new) }
{
    match read_file(alloc, bytes) {
        Ok(file) => check_goal(alloc, names, loaded, &file, output),
        Err(ProofFault::BadProof(offset)) => refuse_proof(alloc, offset, output),
        Err(ProofFault::NoMemory) => Err(RunFault::NoMemory),
    }
}

/// Writes what is due for what a file says.
fn check_goal<S: Sink>(
    alloc: Global,
    names: &mut Names,
    loaded: &Loaded,
    file: &File<'_>,
    output: &mut S,
) -> Result<Status, RunFault>
    requires loaded { IsLoaded names.old loaded.now }
    ensures ends { (held : Folder) (root bytes : List ℕ) → AreLoaded held root names.old loaded.now
        → HasProof file.now.goal.now (map claim_of file.now.claims.rows.items) file.now.proof bytes
        → Ends result (FileReport held root bytes)
        (S.written output.old) (S.written output.new) }
    ensures whole { (check : words.Check) → EndsWhole result (Checking check)
        (S.written output.old) (S.written output.new) }
    ensures solved { IfOk result IsCompleted }
    ensures cause { HasWriteCause result (S.fault_count output.old) (S.fault_count output.new) }
{
    match ask(alloc, names, loaded, file.goal) {
        Ok(compiled) => check_proof(alloc, names, &compiled, file, output),
        Err(AskFault::Refused(refusal)) => refuse(alloc, names, &refusal, output),
        Err(AskFault::NoMemory) => Err(RunFault::NoMemory),
    }
}

/// Writes whether a file's proof proves an answer of its goal, and which one.
fn check_proof<S: Sink>(
    alloc: Global,
    names: &Names,
    compiled: &Compiled,
    file: &File<'_>,
    output: &mut S,
) -> Result<Status, RunFault>
    ensures ends { (goal : Goal) → compiled.now.program.goal ≡ Some goal
        → Ends result (ProofReport names.now compiled.now.program goal
        (map claim_of file.now.claims.rows.items) file.now.proof)
        (S.written output.old) (S.written output.new) }
    ensures whole { (check : words.Check) → EndsWhole result (Checking check)
        (S.written output.old) (S.written output.new) }
    ensures solved { IfOk result IsCompleted }
    ensures cause { HasWriteCause result (S.fault_count output.old) (S.fault_count output.new) }
{
    let program = &compiled.program;
    // The program always has the goal, which is tested here once more.
    let Some(goal) = program.goal() else {
        return Err(RunFault::NoMemory);
    };
    let found = proved_answer(alloc, program, goal, &file.claims, &file.proof)?;
    match found {
        Some(answer) => {
            let text = answer_text(alloc, names, program, goal, &answer.bindings, &answer.value)?;
            write_yes(alloc, &text, file.claims.rows.len(), output)
        }
        None => write_no(output),
    }
}

/// Writes the line for a proof of an answer of this text that is given so many
/// claims.
fn write_yes<S: Sink>(
    alloc: Global,
    answer: &[u8],
    claims: usize,
    output: &mut S,
) -> Result<Status, RunFault>
    ensures status { IfOk result (λ status. status ≡ Done) }
    ensures whole { OnOk result (Adds (S.written output.old) (S.written output.new)
        (yes_line answer.now claims)) }
    ensures prefix { OnErr result (AddsPrefix (S.written output.old) (S.written output.new)
        (yes_line answer.now claims)) }
    ensures cause { HasWriteCause result (S.fault_count output.old) (S.fault_count output.new) }
{
    let line = yes_line(alloc, answer, claims)?;
    write_bytes(output, &line)?;
    Ok(Status::Done)
}

fn yes_line(alloc: Global, answer: &[u8], claims: usize) -> Result<Vec<u8>, AllocError>
    ensures { IfOk result (λ line. line.items ≡ yes_line answer.now claims) }
{
    let given = format!(in alloc; " given {claims} claims\n")?;
    let mut line = Vec::from_slice(alloc, b"yes ")?;
    line.extend_from_slice(answer)?;
    line.extend_from_slice(given.as_bytes())?;
    Ok(line)
}

/// Writes the line for a proof of no answer.
fn write_no<S: Sink>(output: &mut S) -> Result<Status, RunFault>
    ensures status { IfOk result (λ status. status ≡ Done) }
    ensures whole { OnOk result (Adds (S.written output.old) (S.written output.new) no_line) }
    ensures prefix { OnErr result
        (AddsPrefix (S.written output.old) (S.written output.new) no_line) }
    ensures cause { HasWriteCause result (S.fault_count output.old) (S.fault_count output.new) }
{
    write_piece(output, "no\n")?;
    Ok(Status::Done)
}

/// Writes the line for a file that isn't there.
fn refuse_path<S: Sink>(alloc: Global, path: &str, output: &mut S) -> Result<Status, RunFault>
    ensures status { IfOk result (λ status. status ≡ Refused) }
    ensures whole { OnOk result (Adds (S.written output.old) (S.written output.new)
        (missing_file_line path.now)) }
    ensures prefix { OnErr result (AddsPrefix (S.written output.old) (S.written output.new)
        (missing_file_line path.now)) }
    ensures cause { HasWriteCause result (S.fault_count output.old) (S.fault_count output.new) }
{
    let line = missing_file_line(alloc, path)?;
    write_piece(output, line.as_str())?;
    Ok(Status::Refused)
}

fn missing_file_line(alloc: Global, path: &str) -> Result<String, AllocError>
    ensures { IfOk result (λ line. string_bytes line ≡ missing_file_line path.now) }
{
    format!(in alloc; "refused 32 MissingFile {path}\n")
}

/// Writes the line for a file whose text has its fault at this byte.
fn refuse_proof<S: Sink>(alloc: Global, offset: usize, output: &mut S) -> Result<Status, RunFault>
    ensures status { IfOk result (λ status. status ≡ Refused) }
    ensures whole { OnOk result (Adds (S.written output.old) (S.written output.new)
        (bad_proof_line offset)) }
    ensures prefix { OnErr result (AddsPrefix (S.written output.old) (S.written output.new)
        (bad_proof_line offset)) }
    ensures cause { HasWriteCause result (S.fault_count output.old) (S.fault_count output.new) }
{
    let line = bad_proof_line(alloc, offset)?;
    write_piece(output, line.as_str())?;
    Ok(Status::Refused)
}

fn bad_proof_line(alloc: Global, offset: usize) -> Result<String, AllocError>
    ensures { IfOk result (λ line. string_bytes line ≡ bad_proof_line offset) }
{
    format!(in alloc; "refused 26 BadProof offset {offset}\n")
}
