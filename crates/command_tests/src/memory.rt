//! Libraries, sources and sinks in memory.
use cu_io::{Fetched, Library, Put, ShelfLibrary, Sink, Source, Took, VecSink, VecSource};
use std::test::Fail;

/// A text, or the name of another answer.
pub(crate) fn told(fetched: &Fetched) -> &[u8] {
    match fetched {
        Fetched::Text(text) => text.as_slice(),
        Fetched::Absent => b"absent",
        Fetched::Failed => b"failed",
    }
}

#[test]
fn a_shelf_gives_the_newest_text_and_fails_where_listed(rt: HostRuntime) -> Result<(), Fail> {
    let alloc = rt.alloc();
    let mut shelf = ShelfLibrary::new(alloc, vec![in alloc; 2, 4]?);
    shelf.add_module(".", "M", b"old")?;
    shelf.add_module(".", "M", b"new")?;
    shelf.add_module("lib", "M", b"other")?;
    shelf.add_file("M", b"flat")?;
    let rows = [
        (".", "M", "new"),
        ("lib", "M", "other"),
        (".", "M", "failed"),
        (".", "N", "absent"),
    ];
    for (dir, name, expected) in &rows {
        let fetched = shelf.fetch(alloc, dir, name)?;
        assert_eq!(rt; told(&fetched), expected.as_bytes(), "{dir} {name}");
    }
    for expected in &["failed", "flat"] {
        assert_eq!(rt; told(&shelf.file(alloc, "M")?), expected.as_bytes());
    }
    assert_eq!(rt; shelf.faults(), 2);
    Ok(())
}

#[test]
fn a_source_gives_the_bytes_in_turn_and_fails_where_listed(rt: HostRuntime) -> Result<(), Fail> {
    let alloc = rt.alloc();
    let bytes = b"abcde".to_vec(alloc)?;
    let mut source = VecSource::new(bytes, vec![in alloc; 1]?);
    let rows = [
        (Took::Bytes(3), "abc"),
        (Took::Failed, "abc"),
        (Took::Bytes(2), "dec"),
        (Took::Bytes(0), "dec"),
    ];
    let mut room = [0; 3];
    for (expected, filled) in &rows {
        assert_eq!(rt; source.read(&mut room), *expected);
        assert_eq!(rt; room.as_slice(), filled.as_bytes());
    }
    assert_eq!(rt; source.faults(), 1);
    Ok(())
}

#[test]
fn a_sink_takes_what_fits_and_fails_where_listed(rt: HostRuntime) -> Result<(), Fail> {
    let alloc = rt.alloc();
    let mut sink = VecSink::new(alloc, 6, vec![in alloc; (1, 1), (4, 9)]?)?;
    let rows = [
        ("ab", Put::Done, "ab", 0),
        ("cd", Put::Failed, "abc", 1),
        ("defg", Put::Failed, "abc", 2),
        ("", Put::Done, "abc", 2),
        ("xyzw", Put::Failed, "abcxyz", 3),
    ];
    for (piece, expected, bytes, faults) in &rows {
        assert_eq!(rt; sink.put(piece.as_bytes()), *expected, "{piece}");
        assert_eq!(rt; sink.bytes(), bytes.as_bytes());
        assert_eq!(rt; sink.faults(), *faults);
    }
    Ok(())
}
