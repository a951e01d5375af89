//! The line that is being written.
ghost use Rattle.std.specs.Prelude.{◌≡◌, ◌++◌, [], OnErr, OnOk, decimal};
ghost use Rattle.cu_values.specs.Display.{display};
ghost use Rattle.cu_search.specs.Stands.{notation_of};
ghost use Rattle.cu_search.specs.Written.{Adds, AddsPrefix, HasCause};

use crate::fault::SearchFault;
use crate::wording::Wording;
use cu_io::{Put, Sink};
use cu_values::{Value, Workspace};
use itoa::Buffer;
use std::alloc::{AllocError, Global};

/// The length in bytes of the lines for which a page takes room.
const LINE: usize = 4096;

/// A line that is being written, and the memory that displaying its values
/// takes. Both are kept from one line to the next.
#[derive(Drop)]
pub(crate) struct Page {
    pub(crate) line: Vec<u8>,
    workspace: Workspace,
}

impl Page {
    /// An empty page with room for lines of 4,096 bytes: writing one takes no
    /// memory.
    pub(crate) fn with_room(alloc: Global) -> Result<Page, AllocError> {
        Ok(Page {
            line: Vec::with_capacity(alloc, LINE)?,
            workspace: Workspace::with_room(alloc)?,
        })
    }

    /// Begins a new line.
    pub(crate) fn clear(&mut self)
        ensures { self.new.line.items ≡ [] }
    {
        self.line.clear();
    }

    /// Writes a text at the end of the line.
    pub(crate) fn push_str(&mut self, text: &str) -> Result<(), AllocError>
        ensures { OnOk result (self.new.line.items ≡ self.old.line.items ++ text.now) }
    {
        self.line.extend_from_slice(text.as_bytes())
    }

    /// Writes a number at the end of the line.
    pub(crate) fn push_number(&mut self, number: u64) -> Result<(), AllocError>
        ensures { OnOk result (self.new.line.items ≡ self.old.line.items ++ decimal number) }
    {
        let mut buffer = Buffer::new();
        self.push_str(buffer.format(number))
    }

    /// Writes a value at the end of the line.
    pub(crate) fn push_value(&mut self, wording: &Wording, value: &Value) -> Result<(), AllocError>
        ensures { OnOk result (self.new.line.items
            ≡ self.old.line.items ++ display (notation_of wording.now).labels value.now) }
    {
        self.workspace
            .show(value, wording.kernel, wording.names, &mut self.line)
    }

    /// Gives the line to the output, as one piece.
    pub(crate) fn write<K: Sink>(&self, sink: &mut K) -> Result<(), SearchFault>
        ensures whole { OnOk result
            (Adds (K.written sink.old) (K.written sink.new) self.now.line.items) }
        ensures prefix { OnErr result
            (AddsPrefix (K.written sink.old) (K.written sink.new) self.now.line.items) }
        ensures cause { HasCause result (K.fault_count sink.old) (K.fault_count sink.new) }
    {
        match sink.put(self.line.as_slice()) {
            Put::Done => Ok(()),
            Put::Failed => Err(SearchFault::Write),
        }
    }
}
