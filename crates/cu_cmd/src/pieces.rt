//! Writing a piece of the output.
ghost use Rattle.std.specs.Prelude.{OnErr, OnOk};
ghost use Rattle.cu_cmd.specs.Inside.Runs.{HasWriteCause};
ghost use Rattle.cu_search.specs.Written.{Adds, AddsPrefix};

use crate::fault::RunFault;
use cu_io::{Put, Sink};

/// Writes a piece of text at the end of the output.
pub(crate) fn write_piece<K: Sink>(sink: &mut K, piece: &str) -> Result<(), RunFault>
    ensures whole { OnOk result (Adds (K.written sink.old) (K.written sink.new) piece.now) }
    ensures prefix { OnErr result
        (AddsPrefix (K.written sink.old) (K.written sink.new) piece.now) }
    ensures cause { HasWriteCause result (K.fault_count sink.old) (K.fault_count sink.new) }
{
    write_bytes(sink, piece.as_bytes())
}

/// Writes a piece at the end of the output.
pub(crate) fn write_bytes<K: Sink>(sink: &mut K, piece: &[u8]) -> Result<(), RunFault>
    ensures whole { OnOk result (Adds (K.written sink.old) (K.written sink.new) piece.now) }
    ensures prefix { OnErr result
        (AddsPrefix (K.written sink.old) (K.written sink.new) piece.now) }
    ensures cause { HasWriteCause result (K.fault_count sink.old) (K.fault_count sink.new) }
{
    match sink.put(piece) {
        Put::Done => Ok(()),
        Put::Failed => Err(RunFault::Write),
    }
}
