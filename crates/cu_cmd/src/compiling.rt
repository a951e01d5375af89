//! The command `compile`.
ghost use Rattle.std.specs.Prelude.{◌≡◌, IfOk, IfSome, OnErr, OnOk};
ghost use Rattle.cu_cmd.specs.Report.{CompileReport};
ghost use Rattle.cu_cmd.specs.Inside.Runs.{Ends, EndsWhole, HasRunCause, HasWriteCause, IsCompleted};
ghost use Rattle.cu_cmd.specs.declared.status.Status.TheVariants.{Done};
ghost use Rattle.cu_flattext.specs.Text.{lowered, text_of_module};
ghost use Rattle.cu_search.specs.Written.{Adds, AddsPrefix};
ghost use Rattle.cu_words.specs.Words.{Compiling, compile_of};

use crate::fault::RunFault;
use crate::solving::refuse;
use crate::status::Status;
use cu_flattext::print;
use cu_front::{AskedModule, CompileFault, Compiled, compile_module};
use cu_io::{Library, Sink};
use cu_names::{NameId, Names};
use cu_words::Compile;
use std::alloc::Global;

/// Writes what is due for a module, the line of the refusal or its text, and
/// answers how the run ends.
pub(crate) fn compile<L: Library, S: Sink>(
    alloc: Global,
    compile: Compile<'_>,
    library: &mut L,
    output: &mut S,
) -> Result<Status, RunFault>
    ensures ends { IfSome (L.holdings library.old) (λ held.
        Ends result (CompileReport held (compile_of compile.entry))
        (S.written output.old) (S.written output.new)) }
    ensures whole { EndsWhole result (Compiling (compile_of compile.entry))
        (S.written output.old) (S.written output.new) }
    ensures solved { IfOk result IsCompleted }
    ensures cause { HasRunCause result
        (record { library = L.fault_count library.old; output = S.fault_count output.old })
        (record { library = L.fault_count library.new; output = S.fault_count output.new }) }
{
    let mut names = Names::new(alloc);
    let asked = AskedModule {
        root: compile.module,
        folder: compile.folder,
    };
    match compile_module(alloc, &mut names, asked, library) {
        Ok(compiled) => {
            // The table always has the name, which is tested here once more.
            let Some(id) = names.find(compile.module) else {
                return Err(RunFault::NoMemory);
            };
            write_module(alloc, id, &names, &compiled, output)
        }
        Err(CompileFault::Refused(refusal)) => refuse(alloc, &names, &refusal, output),
        Err(CompileFault::Fetch) => Err(RunFault::Read),
        Err(CompileFault::NoMemory) => Err(RunFault::NoMemory),
    }
}

/// Writes the text of the module of a name.
fn write_module<S: Sink>(
    alloc: Global,
    id: NameId,
    names: &Names,
    compiled: &Compiled,
    output: &mut S,
) -> Result<Status, RunFault>
    ensures status { IfOk result (λ status. status ≡ Done) }
    ensures whole { OnOk result (Adds (S.written output.old) (S.written output.new)
        (text_of_module (lowered names.now compiled.now.program compiled.now.interface
        compiled.now.flat) id)) }
    ensures prefix { OnErr result (AddsPrefix (S.written output.old) (S.written output.new)
        (text_of_module (lowered names.now compiled.now.program compiled.now.interface
        compiled.now.flat) id)) }
    ensures cause { HasWriteCause result (S.fault_count output.old) (S.fault_count output.new) }
{
    print(
        alloc,
        id,
        &compiled.program,
        &compiled.flat,
        &compiled.interface,
        names,
        output,
    )?;
    Ok(Status::Done)
}
