//! A sink over an output that takes little at a time.
use cu_io::{OutputSink, Put, Sink};
use std::cell::{Cell, RefCell};
use std::fmt::Display;
use std::io;
use std::io::ErrorKind;
use std::test::Fail;

/// How many bytes each write takes, in turn; after these it fails.
const TAKES: [usize; 3] = [2, 1, 0];

/// A runtime that writes little at a time.
#[derive(Drop)]
struct Slow {
    writes: Cell<usize>,
    out: RefCell<Vec<u8>>,
}

impl Print for Slow {
    fn print<D: Display + Drop>(&self, _value: D) -> io::Result<()> {
        Err(io::Error::from(ErrorKind::Unsupported))
    }

    fn println<D: Display + Drop>(&self, _value: D) -> io::Result<()> {
        Err(io::Error::from(ErrorKind::Unsupported))
    }

    fn write_all(&self, _bytes: &[u8]) -> io::Result<()> {
        Err(io::Error::from(ErrorKind::Unsupported))
    }

    fn write_some(&self, bytes: &[u8]) -> io::Result<usize> {
        let write = self.writes.get();
        self.writes.set(write.saturating_add(1));
        let Some(takes) = TAKES.get(write) else {
            return Err(io::Error::from(ErrorKind::BrokenPipe));
        };
        let count = (*takes).min(bytes.len());
        if let Ok(mut out) = self.out.try_borrow_mut() {
            out.extend_from_slice(&bytes[..count])?;
        }
        Ok(count)
    }
}

#[test]
fn an_output_writes_whole_pieces_and_counts_faults(rt: HostRuntime) -> Result<(), Fail> {
    let slow = Slow {
        writes: Cell::new(0),
        out: RefCell::new(Vec::new(rt.alloc())),
    };
    let mut sink = OutputSink::new(&slow);
    let rows = [
        ("abc", Put::Done, 0),
        ("", Put::Done, 0),
        ("de", Put::Failed, 1),
        ("f", Put::Failed, 2),
    ];
    for (piece, expected, faults) in &rows {
        assert_eq!(rt; sink.put(piece.as_bytes()), *expected, "{piece}");
        assert_eq!(rt; sink.faults(), *faults);
    }
    let out = slow.out.try_borrow().ok().expect(&rt, "no other borrow");
    assert_eq!(rt; out.as_slice(), b"abc".as_slice());
    Ok(())
}
