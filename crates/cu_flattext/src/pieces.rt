//! Giving pieces of the text to the output.
use crate::fault::PrintFault;
use crate::page::{PIECE, Page};
use cu_io::{Put, Sink};

impl Page {
    ghost use Rattle.std.specs.Prelude.{◌≡◌, [], OnErr, OnOk};
    ghost use Rattle.cu_flattext.specs.Inside.Progress.{Continues};
    ghost use Rattle.cu_flattext.specs.Written.{Adds, AddsPrefix, HasCause};

    /// Gives the piece to the output, and begins a new one.
    pub(crate) fn flush<S: Sink>(&mut self, sink: &mut S) -> Result<(), PrintFault>
        ensures whole { OnOk result (Adds (S.written sink.old) (S.written sink.new)
            self.old.text.items) }
        ensures prefix { OnErr result (AddsPrefix (S.written sink.old) (S.written sink.new)
            self.old.text.items) }
        ensures cause { HasCause result (S.fault_count sink.old) (S.fault_count sink.new) }
        ensures empty { OnOk result (self.new.text.items ≡ []) }
    {
        match sink.put(self.text.as_slice()) {
            Put::Done => {
                self.text.clear();
                Ok(())
            }
            Put::Failed => Err(PrintFault::Write),
        }
    }

    /// Gives the piece to the output, and begins a new one, where the piece is
    /// long.
    pub(crate) fn flush_long<S: Sink>(&mut self, sink: &mut S) -> Result<(), PrintFault>
        ensures whole { OnOk result (Continues (S.written sink.old) (S.written sink.new)
            self.old.text.items self.new.text.items) }
        ensures prefix { OnErr result (AddsPrefix (S.written sink.old) (S.written sink.new)
            self.old.text.items) }
        ensures cause { HasCause result (S.fault_count sink.old) (S.fault_count sink.new) }
    {
        if self.text.len() < PIECE {
            return Ok(());
        }
        self.flush(sink)
    }
}
