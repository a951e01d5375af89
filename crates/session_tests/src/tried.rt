//! Sessions over an asker that replies what it is asked.
use crate::echo::Echo;
use crate::slow::Slow;
use cu_io::{Source, VecSink, VecSource};
use cu_session::{SessionEnd, serve};
use std::alloc::{AllocError, Global};

/// The most bytes of a line.
pub const LIMIT: usize = 1_048_576;

/// How a session ended, what was written, and how many lines were asked.
#[derive(Drop)]
pub struct Tried {
    /// How it ended.
    pub end: SessionEnd,
    /// What was written.
    pub bytes: Vec<u8>,
    /// How many lines were asked.
    pub asked: u64,
}

/// A session over a source, of which the writes with these numbers fail after
/// so many bytes.
pub fn try_source<O: Source>(
    alloc: Global,
    source: &mut O,
    failing: Vec<(u64, usize)>,
) -> Result<Tried, AllocError> {
    let mut sink = VecSink::new(alloc, 2 * LIMIT, failing)?;
    let mut asker = Echo { asked: 0 };
    let end = serve(alloc, source, &mut sink, &mut asker)?;
    Ok(Tried {
        end,
        bytes: Vec::from_slice(alloc, sink.bytes())?,
        asked: asker.asked,
    })
}

/// A session over an input that comes in pieces of so many bytes.
pub fn try_input(alloc: Global, input: &[u8], piece: usize) -> Result<Tried, AllocError> {
    let source = VecSource::new(Vec::from_slice(alloc, input)?, Vec::new(alloc));
    try_source(alloc, &mut Slow { source, piece }, Vec::new(alloc))
}
