//! The standard output as a sink.
ghost use Rattle.std.specs.Prelude.{◌≡◌, None};
ghost use Rattle.cu_io.specs.Inside.Outside.{gone, Writes};
ghost use Rattle.cu_io.specs.Once.{put_faults};
ghost use Rattle.cu_io.specs.Puts.{PutCount, Puts};

use crate::sink::{Put, Sink};
use std::io;
use std::io::Write;
use std::marker::Model;

/// Writes a whole piece, unbuffered. A writer that fails, or takes nothing of
/// what is left of the piece, ends it.
fn write_whole<W: Write>(writer: &mut W, piece: &[u8]) -> Put
    ensures { Writes result piece.now (W.contents writer.old) (W.contents writer.new) }
{
    let mut done = 0;
    while done < piece.len() {
        let Some(count) = gone(writer.write(&piece[done..])) else {
            return Put::Failed;
        };
        done += count;
    }
    Put::Done
}

/// How many bytes went out, one at least, by what a write of more than none
/// said: an error and taking none are faults.
fn gone(said: io::Result<usize>) -> Option<usize>
    ensures { result ≡ gone said }
{
    match said {
        Ok(0) | Err(_) => None,
        Ok(count) => Some(count),
    }
}

/// The standard output of a runtime as a sink. It doesn't tell what it wrote.
/// A clause sees its count of faults.
#[derive(Drop)]
pub struct OutputSink<R> {
    output: R,
    faults: u64,
}

impl<R> Model for OutputSink<R> {
    ghost use Rattle.std.specs.Prelude.{ℕ};

    ghost Value = { ℕ };

    ghost view = { λ s. s.faults };
}

impl<R: Print> OutputSink<R> {
    /// A sink over a runtime, or over a reference to one.
    pub fn new(output: R) -> OutputSink<R>
        ensures { result ≡ 0 }
    {
        OutputSink { output, faults: 0 }
    }
}

impl<R: Print> Sink for OutputSink<R> {
    ghost fault_count = { λ s. s };

    ghost written = { λ _. None };

    fn faults(&self) -> u64 {
        self.faults
    }

    fn put(&mut self, piece: &[u8]) -> Put
        ensures told { Puts result piece.now None None }
        ensures count { PutCount result self.old self.new }
        ensures once { self.new ≡ put_faults result self.old }
    {
        let put = write_whole(&mut io::writer(&self.output), piece);
        if put == Put::Failed {
            self.faults = self.faults.saturating_add(1);
        }
        put
    }
}
