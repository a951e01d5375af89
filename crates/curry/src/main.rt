//! The program `curry`: it makes the real library, input and output, runs the
//! command that its words say, and ends with the status's number.
#![tactic(auto)]

mod progress;

ghost use Rattle.std.specs.Prelude.{◌≡◌};
ghost use Rattle.std.specs.Process.{exit_status};
ghost use Rattle.cu_cmd.specs.Numbers.{number_of};

use cu_cmd::{Status, top};
use cu_io::{FolderLibrary, InputSource, OutputSink};
use progress::{ClearedSink, Progress};
use std::alloc::AllocError;
use std::env;
use std::io::{ErrorKind, IsTerminal};
use std::process::ExitCode;
use std::rt::{Clock, Env, Files};
use std::thread::{self, Builder, Threads};

/// The stack on which the command runs, in bytes. Translation recurses over one
/// item of a text, whose 4,096 tokens bound it; the forms that were measured
/// need up to 9.4 MiB, and the main thread often has no more than 8.
const STACK: usize = 64 * 1024 * 1024;

fn main(rt: HostRuntime) -> ExitCode {
    let Ok(words) = words(&rt) else {
        return exit_code(Status::NoMemory);
    };
    let is_terminal = rt.stderr().is_terminal();
    let status = thread::scope(thread::scope_env(), &rt, |scope| {
        match Builder::new()
            .stack_size(STACK)
            .spawn_scoped(scope, || run(&rt, words.as_slice(), is_terminal))
        {
            Ok(command) => command.join(&rt),
            Err(_) => Status::NoMemory,
        }
    });
    if is_terminal && let Some(advice) = advice_on(status) {
        let _ = eprintln!(rt; "curry: {advice}");
    }
    exit_code(status)
}

/// Runs the command over the folder, the input and the output that the process
/// has. Where standard error is a terminal, the progress of a long search is
/// shown there.
fn run<R: AllocGlobal + Files + Input + Print + Eprint + Clock + Threads + Sync>(
    rt: &R,
    words: &[String],
    is_terminal: bool,
) -> Status {
    let alloc = rt.alloc();
    let progress = Progress::new(rt, is_terminal);
    let status = top(
        rt,
        alloc,
        words,
        &mut FolderLibrary::new(rt),
        &mut InputSource::new(rt.reader()),
        &mut ClearedSink::new(&progress, OutputSink::new(rt)),
        &progress,
    );
    progress.wipe();
    status
}

/// What to do after a run with this status, where the report doesn't say.
fn advice_on(status: Status) -> Option<&'static str> {
    match status {
        Status::Usage => Some(
            "these words are no command; docs/MANUAL.md lists the commands and options",
        ),
        Status::ReadFault => Some(
            "a file could not be read; see that it is a regular file that you may read",
        ),
        Status::WriteFault => Some(
            "standard output took no more; what it took is the beginning of the report",
        ),
        Status::NoMemory => Some("memory ran out; --nodes and --width bound what a search takes"),
        _ => None,
    }
}

/// The words after the program's name, or none where one of them isn't UTF-8.
fn words<R: Env + AllocGlobal>(rt: &R) -> Result<Vec<String>, AllocError> {
    match env::args(rt) {
        Ok(words) => words.skip(1).collect(rt.alloc()),
        Err(error) if error.kind() == ErrorKind::OutOfMemory => Err(AllocError),
        Err(_) => Ok(Vec::new(rt.alloc())),
    }
}

/// The end of the process that a status stands for.
fn exit_code(status: Status) -> ExitCode
    ensures { exit_status result ≡ number_of status }
{
    ExitCode::from(status.number())
}
