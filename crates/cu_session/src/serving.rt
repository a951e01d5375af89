//! Sessions.
ghost use Rattle.std.specs.Prelude.{◌≡◌, [], ℕ, ◌≤◌, ◌<◌, ◌++◌, ◌∷◌, Bool, false, List, Some, IfOk, IfNone, OnOk};
ghost use Rattle.cu_io.specs.Puts.{PutCount, Puts};
ghost use Rattle.cu_session.specs.Ends.{AskerCount, Ends, HasEnd, SinkCount, SourceCount};
ghost use Rattle.cu_session.specs.Ends.{WritesPrefix};
ghost use Rattle.cu_session.specs.Inside.Parts.{AskerPart, Closes, Goes, IsBegun, Keeps};
ghost use Rattle.cu_session.specs.Inside.Parts.{SinkPart, SourcePart, ended};
ghost use Rattle.cu_session.specs.Lines.{Line, content, has_long_line, is_too_long, lines_of};

use crate::asker::{Asker, Turn};
use crate::end::SessionEnd;
use crate::lines::{LF, MAX_LINE_BYTES, without_cr};
use cu_io::{Put, Sink, Source, Took};
use std::alloc::{AllocError, Global};

/// The most bytes that one read takes.
const PIECE: usize = 8192;

/// Writes a reply as one piece, unless it is empty.
fn put_reply<S: Sink>(reply: &[u8], sink: &mut S) -> Put
    ensures told { Puts result reply.now (S.written sink.old) (S.written sink.new) }
    ensures count { PutCount result (S.fault_count sink.old) (S.fault_count sink.new) }
    ensures empty { reply.now ≡ [] → result ≡ Put.Done }
{
    if reply.is_empty() {
        return Put::Done;
    }
    sink.put(reply)
}

/// How a session ends after a reply, where it does.
fn ended(put: Put, turn: Turn) -> Option<SessionEnd>
    ensures { result ≡ ended put turn }
{
    match put {
        Put::Failed => Some(SessionEnd::WriteFault),
        Put::Done => match turn {
            Turn::Go => None,
            Turn::Quit => Some(SessionEnd::Quit),
        },
    }
}

/// Answers what a line says, and says how the session ends where it does.
fn answer<S: Sink, A: Asker>(
    alloc: Global,
    line: &[u8],
    sink: &mut S,
    asker: &mut A,
) -> Result<Option<SessionEnd>, AllocError>
    requires { A.is_ready asker.old }
    ensures told { (state : A.State) (first : Line) (later : List Line)
        → A.state asker.old ≡ Some state → is_too_long first ≡ false → content first ≡ line.now
        → Goes result A.answers state (first ∷ later) later
        (A.state asker.new) (A.fault_count asker.old) (A.fault_count asker.new)
        (S.written sink.old) (S.written sink.new) }
    ensures lines { (long : Bool) → Keeps result long long }
    ensures ready { OnOk result (A.is_ready asker.new) }
    ensures kept { A.kept asker.new ≡ A.kept asker.old }
    ensures asker_count { A.fault_count asker.old ≤ A.fault_count asker.new }
    ensures asker_stands { AskerPart result (A.fault_count asker.old) (A.fault_count asker.new) }
    ensures sink_count { SinkPart result (S.fault_count sink.old) (S.fault_count sink.new) }
    ensures source_count { (count : ℕ) → SourcePart result count count }
{
    let mut reply = Vec::new(alloc);
    let turn = asker.reply(alloc, line, &mut reply)?;
    let put = put_reply(reply.as_slice(), sink);
    Ok(ended(put, turn))
}

/// Takes the next byte of the input: the end of a line, which is answered, or
/// a byte of it.
fn take_byte<S: Sink, A: Asker>(
    alloc: Global,
    byte: u8,
    line: &mut Vec<u8>,
    sink: &mut S,
    asker: &mut A,
) -> Result<Option<SessionEnd>, AllocError>
    requires begun { IsBegun line.old.items }
    requires ready { A.is_ready asker.old }
    ensures told { (state : A.State) (rest : List ℕ) → A.state asker.old ≡ Some state
        → Goes result A.answers state (lines_of (line.old.items ++ byte ∷ rest))
        (lines_of (line.new.items ++ rest))
        (A.state asker.new) (A.fault_count asker.old) (A.fault_count asker.new)
        (S.written sink.old) (S.written sink.new) }
    ensures lines { (rest : List ℕ) → Keeps result
        (has_long_line (line.old.items ++ byte ∷ rest)) (has_long_line (line.new.items ++ rest)) }
    ensures begun { IsBegun line.new.items }
    ensures ready { OnOk result (A.is_ready asker.new) }
    ensures kept { A.kept asker.new ≡ A.kept asker.old }
    ensures asker_count { A.fault_count asker.old ≤ A.fault_count asker.new }
    ensures asker_stands { AskerPart result (A.fault_count asker.old) (A.fault_count asker.new) }
    ensures sink_count { SinkPart result (S.fault_count sink.old) (S.fault_count sink.new) }
    ensures source_count { (count : ℕ) → SourcePart result count count }
{
    if byte == LF {
        let ended = answer(alloc, without_cr(line), sink, asker)?;
        line.clear();
        return Ok(ended);
    }
    if line.len() == MAX_LINE_BYTES {
        return Ok(Some(SessionEnd::LineTooLong));
    }
    line.push(byte)?;
    Ok(None)
}

/// Takes the next bytes of the input.
fn take_piece<S: Sink, A: Asker>(
    alloc: Global,
    piece: &[u8],
    line: &mut Vec<u8>,
    sink: &mut S,
    asker: &mut A,
) -> Result<Option<SessionEnd>, AllocError>
    requires begun { IsBegun line.old.items }
    requires ready { A.is_ready asker.old }
    ensures told { (state : A.State) (rest : List ℕ) → A.state asker.old ≡ Some state
        → Goes result A.answers state (lines_of (line.old.items ++ (piece.now ++ rest)))
        (lines_of (line.new.items ++ rest))
        (A.state asker.new) (A.fault_count asker.old) (A.fault_count asker.new)
        (S.written sink.old) (S.written sink.new) }
    ensures lines { (rest : List ℕ) → Keeps result
        (has_long_line (line.old.items ++ (piece.now ++ rest)))
        (has_long_line (line.new.items ++ rest)) }
    ensures begun { IsBegun line.new.items }
    ensures ready { OnOk result (A.is_ready asker.new) }
    ensures kept { A.kept asker.new ≡ A.kept asker.old }
    ensures asker_count { A.fault_count asker.old ≤ A.fault_count asker.new }
    ensures asker_stands { AskerPart result (A.fault_count asker.old) (A.fault_count asker.new) }
    ensures sink_count { SinkPart result (S.fault_count sink.old) (S.fault_count sink.new) }
    ensures source_count { (count : ℕ) → SourcePart result count count }
{
    for byte in piece {
        let end = take_byte(alloc, *byte, line, sink, asker)?;
        if end.is_some() {
            return Ok(end);
        }
    }
    Ok(None)
}

/// Ends a session at the end of the input, where the last line may lack its LF.
fn take_end<S: Sink, A: Asker>(
    alloc: Global,
    line: &[u8],
    sink: &mut S,
    asker: &mut A,
) -> Result<SessionEnd, AllocError>
    requires begun { IsBegun line.now }
    requires ready { A.is_ready asker.old }
    ensures told { (state : A.State) → A.state asker.old ≡ Some state
        → Closes result A.answers state (lines_of line.now)
        (A.fault_count asker.old) (A.fault_count asker.new)
        (S.written sink.old) (S.written sink.new) }
    ensures lines { IfOk result (λ said. HasEnd said (has_long_line line.now)) }
    ensures ready { OnOk result (A.is_ready asker.new) }
    ensures kept { A.kept asker.new ≡ A.kept asker.old }
    ensures asker_count { A.fault_count asker.old ≤ A.fault_count asker.new }
    ensures asker_stands { AskerCount result (A.fault_count asker.old) (A.fault_count asker.new) }
    ensures sink_count { SinkCount result (S.fault_count sink.old) (S.fault_count sink.new) }
    ensures source_count { (count : ℕ) → SourceCount result count count }
{
    if line.is_empty() {
        return Ok(SessionEnd::EndOfInput);
    }
    let end = answer(alloc, line, sink, asker)?;
    Ok(end.unwrap_or(SessionEnd::EndOfInput))
}

/// Reads once, and takes the bytes that came, or the end of the input.
fn take_read<O: Source, S: Sink, A: Asker>(
    alloc: Global,
    source: &mut O,
    line: &mut Vec<u8>,
    sink: &mut S,
    asker: &mut A,
) -> Result<Option<SessionEnd>, AllocError>
    requires begun { IsBegun line.old.items }
    requires ready { A.is_ready asker.old }
    ensures told { (text : List ℕ) (state : A.State) → O.remaining source.old ≡ Some text
        → A.state asker.old ≡ Some state → (rest : List ℕ) × (O.remaining source.new ≡ Some rest)
        × Goes result A.answers state (lines_of (line.old.items ++ text))
        (lines_of (line.new.items ++ rest))
        (A.state asker.new) (A.fault_count asker.old) (A.fault_count asker.new)
        (S.written sink.old) (S.written sink.new) }
    ensures lines { (text : List ℕ) → O.remaining source.old ≡ Some text
        → (rest : List ℕ) × (O.remaining source.new ≡ Some rest) × Keeps result
        (has_long_line (line.old.items ++ text)) (has_long_line (line.new.items ++ rest)) }
    ensures begun { IsBegun line.new.items }
    ensures ready { OnOk result (A.is_ready asker.new) }
    ensures fewer { IfOk result (λ end. IfNone end
        (O.reads_left source.new < O.reads_left source.old)) }
    ensures kept { A.kept asker.new ≡ A.kept asker.old }
    ensures asker_count { A.fault_count asker.old ≤ A.fault_count asker.new }
    ensures asker_stands { AskerPart result (A.fault_count asker.old) (A.fault_count asker.new) }
    ensures source_count { SourcePart result (O.fault_count source.old) (O.fault_count source.new) }
    ensures sink_count { SinkPart result (S.fault_count sink.old) (S.fault_count sink.new) }
{
    let mut room = [0; PIECE];
    match source.read(&mut room) {
        Took::Failed => Ok(Some(SessionEnd::ReadFault)),
        Took::Bytes(0) => {
            let end = take_end(alloc, line, sink, asker)?;
            Ok(Some(end))
        }
        Took::Bytes(count) => take_piece(alloc, &room[..count], line, sink, asker),
    }
}

/// Answers the lines of the input in order, up to and with the first reply
/// that quits, the end of the input, or a line that is too long. Each reply is
/// written as one piece, before the next line is read; an empty one isn't
/// written. A line ends at LF, and one CR before the LF is dropped; a last line
/// without LF counts if it has a byte, and keeps its CR. At most one line and
/// one piece of the input are kept.
///
/// # Errors
///
/// Answers an allocation failure. The asker isn't asked again then.
pub fn serve<O: Source, S: Sink, A: Asker>(
    alloc: Global,
    source: &mut O,
    sink: &mut S,
    asker: &mut A,
) -> Result<SessionEnd, AllocError>
    requires { A.is_ready asker.old }
    ensures whole { (text : List ℕ) (state : A.State) → O.remaining source.old ≡ Some text
        → A.state asker.old ≡ Some state
        → IfOk result (λ said. Ends said A.answers state (lines_of text)
        (A.fault_count asker.old) (A.fault_count asker.new)
        (S.written sink.old) (S.written sink.new)) }
    ensures prefix { (text : List ℕ) (state : A.State) → O.remaining source.old ≡ Some text
        → A.state asker.old ≡ Some state
        → WritesPrefix A.answers state (lines_of text) (S.written sink.old) (S.written sink.new) }
    ensures lines { (text : List ℕ) → O.remaining source.old ≡ Some text
        → IfOk result (λ said. HasEnd said (has_long_line text)) }
    ensures ready { OnOk result (A.is_ready asker.new) }
    ensures kept { A.kept asker.new ≡ A.kept asker.old }
    ensures asker_count { A.fault_count asker.old ≤ A.fault_count asker.new }
    ensures asker_stands { AskerCount result (A.fault_count asker.old) (A.fault_count asker.new) }
    ensures source_count { SourceCount result
        (O.fault_count source.old) (O.fault_count source.new) }
    ensures sink_count { SinkCount result (S.fault_count sink.old) (S.fault_count sink.new) }
{
    let mut line = Vec::new(alloc);
    loop {
        let end = take_read(alloc, source, &mut line, sink, asker)?;
        if let Some(end) = end {
            return Ok(end);
        }
    }
}
