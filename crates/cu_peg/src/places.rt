//! The places that are finished, of which few ends are kept.
ghost use Rattle.std.specs.Prelude.{◌≡◌, ◌<◌, ◌≤◌, suc, length, true, slice_index_or, IfOk, OnOk};
ghost use Rattle.cu_peg.specs.Inside.Places.{cell, span_at, unpacked, usual, KeepsOne, Packs, Rising};

use crate::closure::is_marked;
use crate::table::End;
use std::alloc::{AllocError, Global};

/// The end of a row at a place.
#[derive(Clone, Copy, Debug)]
pub struct Entry {
    row: u32,
    /// How many tokens are left after the end.
    left: u32,
    /// How many nodes the tree has, and 0 where the row doesn't match.
    nodes: u32,
}

/// A number in 32 bits. A text whose numbers don't fit fits no memory.
fn in_32_bits(number: usize) -> Result<u32, AllocError>
    ensures { IfOk result (λ short. short ≡ number) }
{
    match u32::try_from(number) {
        Ok(short) => Ok(short),
        Err(_) => Err(AllocError),
    }
}

fn pack(row: usize, end: Option<End>) -> Result<Entry, AllocError>
    ensures row { IfOk result (λ entry. entry.row ≡ row) }
    ensures end { IfOk result (λ entry. unpacked entry ≡ end) }
{
    let row = in_32_bits(row)?;
    let end = match end {
        Some(end) => end,
        None => {
            return Ok(Entry {
                row,
                left: 0,
                nodes: 0,
            });
        }
    };
    if end.nodes == 0 {
        return Err(AllocError);
    }
    let left = in_32_bits(end.left)?;
    let nodes = in_32_bits(end.nodes)?;
    Ok(Entry { row, left, nodes })
}

fn unpack(entry: Entry) -> Option<End>
    ensures { result ≡ unpacked entry }
{
    if entry.nodes == 0 {
        return None;
    }
    Some(End {
        left: entry.left as usize,
        nodes: entry.nodes as usize,
    })
}

/// The end of a row of which nothing is kept: a row that always matches takes
/// nothing there, and another doesn't match.
fn usual(certain: &[bool], row: usize, left: usize) -> Option<End>
    ensures { result ≡ usual certain.now left row }
{
    if is_marked(certain, row) {
        return Some(End { left, nodes: 1 });
    }
    None
}

fn is_usual(certain: &[bool], row: usize, left: usize, end: Option<End>) -> bool
    ensures { result ≡ true → end ≡ usual certain.now left row }
{
    match end {
        Some(end) => is_marked(certain, row) && end.left == left && end.nodes == 1,
        None => !is_marked(certain, row),
    }
}

/// Where the entries of a place begin and end, of so many entries.
fn bounds(begins: &[usize], count: usize, place: usize) -> (usize, usize)
    requires within { place < length begins.now }
    requires rising { Rising begins.now count }
    ensures begin { result.0 ≡ slice_index_or begins.now place 0 }
    ensures end { result.1 ≡ slice_index_or begins.now (suc place) count }
    ensures order { result.0 ≤ result.1 }
    ensures fits { result.1 ≤ count }
{
    let begin = begins[place];
    if place + 1 < begins.len() {
        return (begin, begins[place + 1]);
    }
    (begin, count)
}

/// The entries of a place.
pub fn entries_at<'a>(entries: &'a [Entry], begins: &[usize], place: usize) -> &'a [Entry]
    requires within { place < length begins.now }
    requires rising { Rising begins.now (length entries.now) }
    ensures { result.now ≡ span_at entries.now begins.now place }
{
    let (begin, end) = bounds(begins, entries.len(), place);
    &entries[begin..end]
}

/// The end of a row by the entries of a place.
pub fn end_in(entries: &[Entry], certain: &[bool], row: usize, left: usize) -> Option<End>
    ensures { result ≡ cell certain.now left entries.now row }
{
    for entry in entries {
        if entry.row as usize == row {
            return unpack(*entry);
        }
    }
    usual(certain, row, left)
}

/// Keeps the ends of all rows at one more place, of which so many tokens are
/// left.
pub fn keep(
    entries: &mut Vec<Entry>,
    certain: &[bool],
    ends: &[Option<End>],
    left: usize,
) -> Result<(), AllocError>
    requires { length ends.now ≡ length certain.now }
    ensures kept { OnOk result
        (Packs certain.now ends.now left entries.old.items entries.new.items) }
    ensures grows { length entries.old.items ≤ length entries.new.items }
{
    for row in 0..ends.len() {
        keep_one(entries, certain, row, left, ends[row])?;
    }
    Ok(())
}

/// Keeps the end of a row, where it isn't the usual one.
fn keep_one(
    entries: &mut Vec<Entry>,
    certain: &[bool],
    row: usize,
    left: usize,
    end: Option<End>,
) -> Result<(), AllocError>
    ensures kept { OnOk result
        (KeepsOne certain.now left row end entries.old.items entries.new.items) }
    ensures grows { length entries.old.items ≤ length entries.new.items }
{
    if is_usual(certain, row, left, end) {
        return Ok(());
    }
    let entry = pack(row, end)?;
    entries.push(entry)?;
    Ok(())
}
