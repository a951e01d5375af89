//! A source in memory.
ghost use Rattle.std.specs.Prelude.{◌≡◌, ◌-◌, ◌^◌, ◌<◌, ◌≤◌, ◌++◌, ◌==◌, Some, drop, false, length, min, take, if◌then◌else◌};
ghost use Rattle.cu_io.specs.Calls.{no_calls};
ghost use Rattle.cu_io.specs.Input.{after_read, read_answer, read_fails};
ghost use Rattle.cu_io.specs.Reads.{ReadCount, Reads, ReadsLeft};

use crate::calls::Calls;
use crate::source::{Source, Took};
use std::marker::Model;

/// How many reads of a source in memory may take bytes.
const MAX_READS: u64 = 1 << 63;

/// A source in memory. Some of its reads fail.
#[derive(Drop)]
pub struct VecSource {
    bytes: Vec<u8>,
    at: usize,
    reads: u64,
    failing: Vec<u64>,
    calls: Calls,
}

impl Model for VecSource {
    ghost use Rattle.cu_io.specs.Input.{Input};
    ghost use Rattle.std.specs.Prelude.{◌≤◌, ◌^◌, drop};
    ghost use Rattle.std.specs.Vec.{vec_len};

    ghost Value = { Input };

    ghost view = { λ s. record {
      left = drop s.at s.bytes.items;
      reads = s.reads;
      failing = s.failing.items;
      calls = s.calls;
    } };

    ghost invariant = { λ s. (s.at ≤ vec_len s.bytes) × (s.reads ≤ 2 ^ 63) };
}

impl VecSource {
    /// A source of these bytes. Its reads are numbered from 0; those in
    /// `failing` fail.
    pub fn new(bytes: Vec<u8>, failing: Vec<u64>) -> VecSource
        ensures { result ≡ record {
          left = bytes.items;
          reads = 2 ^ 63;
          failing = failing.items;
          calls = no_calls;
        } }
    {
        VecSource {
            bytes,
            at: 0,
            reads: MAX_READS,
            failing,
            calls: Calls::new(),
        }
    }

    fn fails_next(&self) -> bool
        ensures value { result ≡ read_fails self.now }
        ensures bounded { self.now.reads ≤ 2 ^ 63 }
    {
        self.failing.contains(&self.calls.next) || (self.reads == 0 && self.at < self.bytes.len())
    }

    /// Takes bytes into the start of the room, as many as are left and fit.
    fn take(&mut self, room: &mut [u8]) -> usize
        requires { read_fails self.old ≡ false }
        ensures count { result ≡ min (length self.old.left) (length room.old) }
        ensures moved { room.new ≡ take result self.old.left ++ drop result room.old }
        ensures rest { self.new ≡ record self.old {
          left = drop result self.old.left;
          reads = if result == 0 then self.old.reads else self.old.reads - 1;
        } }
        ensures lowered { 0 < result → self.new.reads < self.old.reads }
    {
        let rest = &self.bytes[self.at..];
        let count = rest.len().min(room.len());
        room[..count].copy_from_slice(&rest[..count]);
        self.at += count;
        if count > 0 {
            self.reads -= 1;
        }
        count
    }
}

impl Source for VecSource {
    ghost fault_count = { λ s. s.calls.faults };

    ghost remaining = { λ s. Some s.left };

    ghost reads_left = { λ s. s.reads };

    fn faults(&self) -> u64 {
        self.calls.faults
    }

    fn read(&mut self, room: &mut [u8]) -> Took
        requires { 0 < length room.old }
        ensures told { Reads result room.old room.new (Some self.old.left) (Some self.new.left) }
        ensures ends { ReadsLeft result self.old.reads self.new.reads }
        ensures count { ReadCount result self.old.calls.faults self.new.calls.faults }
        ensures answer { result ≡ read_answer self.old room.old }
        ensures after { self.new ≡ after_read self.old room.old }
    {
        if self.fails_next() {
            self.calls.count(true);
            return Took::Failed;
        }
        let count = self.take(room);
        self.calls.count(false);
        Took::Bytes(count)
    }
}
