//! The standard input as a source.
ghost use Rattle.std.specs.Prelude.{◌≡◌, ◌^◌, ◌<◌, ◌≤◌, None, IsTrue, false, length};
ghost use Rattle.cu_io.specs.Inside.Outside.{answer_of};
ghost use Rattle.cu_io.specs.Intake.{after_took};
ghost use Rattle.cu_io.specs.Reads.{ReadCount, Reads, ReadsLeft};

use crate::source::{Source, Took};
use std::io;
use std::io::Read;
use std::marker::Model;

/// The most bytes that one read takes.
const PIECE: usize = 8192;

/// How many reads of an input may take bytes.
const MAX_READS: u64 = 1 << 63;

/// Reads once into the start of a room, which stays as it was where the read
/// fails.
fn read_once<I: Read>(reader: &mut I, room: &mut [u8]) -> Took
    requires { 0 < length room.old }
    ensures { Reads result room.old room.new None None }
{
    let mut piece = [0; PIECE];
    let most = room.len().min(PIECE);
    let said = reader.read(&mut piece[..most]);
    if let Ok(count) = &said {
        room[..*count].copy_from_slice(&piece[..*count]);
    }
    answer_of(said)
}

/// What a source answers, by what a read said: an error is a fault.
fn answer_of(said: io::Result<usize>) -> Took
    ensures { result ≡ answer_of said }
{
    match said {
        Ok(count) => Took::Bytes(count),
        Err(_) => Took::Failed,
    }
}

/// A reader, as that of the standard input, as a source. Each read asks the
/// reader once, until the end of the input was answered; it is kept then. It
/// doesn't tell what is left. A clause sees how many reads may still take bytes,
/// whether the input has ended, and the count of faults.
#[derive(Drop)]
pub struct InputSource<I> {
    reader: I,
    reads: u64,
    ended: bool,
    faults: u64,
}

impl<I> Model for InputSource<I> {
    ghost use Rattle.cu_io.specs.Intake.{Intake};
    ghost use Rattle.std.specs.Prelude.{◌≤◌, ◌^◌};

    ghost Value = { Intake };

    ghost view = { λ s. record { reads = s.reads; ended = s.ended; faults = s.faults } };

    ghost invariant = { λ s. s.reads ≤ 2 ^ 63 };
}

impl<I: Read> InputSource<I> {
    /// A source over a reader that hasn't ended.
    pub fn new(reader: I) -> InputSource<I>
        ensures { result ≡ record { reads = 2 ^ 63; ended = false; faults = 0 } }
    {
        InputSource {
            reader,
            reads: MAX_READS,
            ended: false,
            faults: 0,
        }
    }

    /// Asks the reader once, if the input hasn't ended and a read may still
    /// take bytes.
    fn ask(&mut self, room: &mut [u8]) -> Took
        requires { 0 < length room.old }
        ensures told { Reads result room.old room.new None None }
        ensures same { self.new ≡ self.old }
        ensures bounded { self.old.reads ≤ 2 ^ 63 }
        ensures ended { IsTrue self.old.ended → result ≡ Took.Bytes 0 }
        ensures spent { self.old.ended ≡ false → self.old.reads ≡ 0 → result ≡ Took.Failed }
    {
        if self.ended {
            return Took::Bytes(0);
        }
        if self.reads == 0 {
            return Took::Failed;
        }
        read_once(&mut self.reader, room)
    }

    /// Keeps what an answer changes.
    fn keep(&mut self, took: Took)
        ensures { self.new ≡ after_took self.old took }
    {
        match took {
            Took::Bytes(0) => self.ended = true,
            Took::Bytes(_) => self.reads = self.reads.saturating_sub(1),
            Took::Failed => self.faults = self.faults.saturating_add(1),
        }
    }
}

impl<I: Read> Source for InputSource<I> {
    ghost fault_count = { λ s. s.faults };

    ghost remaining = { λ _. None };

    ghost reads_left = { λ s. s.reads };

    fn faults(&self) -> u64 {
        self.faults
    }

    fn read(&mut self, room: &mut [u8]) -> Took
        requires { 0 < length room.old }
        ensures told { Reads result room.old room.new None None }
        ensures ends { ReadsLeft result self.old.reads self.new.reads }
        ensures count { ReadCount result self.old.faults self.new.faults }
        ensures ended { IsTrue self.old.ended → result ≡ Took.Bytes 0 }
        ensures spent { self.old.ended ≡ false → self.old.reads ≡ 0 → result ≡ Took.Failed }
        ensures after { self.new ≡ after_took self.old result }
    {
        let took = self.ask(room);
        self.keep(took);
        took
    }
}
