//! A sink in memory.
ghost use Rattle.std.specs.Prelude.{◌≡◌, ◌-◌, ◌≤◌, ◌++◌, [], Some, IfOk, length, if◌then◌else◌};
ghost use Rattle.cu_io.specs.Calls.{no_calls};
ghost use Rattle.cu_io.specs.Output.{after_put, count_at, gone_of, put_fails};
ghost use Rattle.cu_io.specs.Puts.{PutCount, Puts};

use crate::calls::Calls;
use crate::sink::{Put, Sink};
use std::alloc::{AllocError, Global};
use std::marker::Model;

/// A sink in memory. It has room for a number of bytes, and some of its calls
/// of `put` fail.
#[derive(Drop)]
pub struct VecSink {
    bytes: Vec<u8>,
    room: usize,
    failing: Vec<(u64, usize)>,
    calls: Calls,
}

impl Model for VecSink {
    ghost use Rattle.cu_io.specs.Output.{Output};
    ghost use Rattle.std.specs.Prelude.{◌+◌, ◌≤◌};
    ghost use Rattle.std.specs.Vec.{vec_capacity, vec_len};

    ghost Value = { Output };

    ghost view = { λ s. record {
      written = s.bytes.items;
      room = s.room;
      failing = s.failing.items;
      calls = s.calls;
    } };

    ghost invariant = { λ s. vec_len s.bytes + s.room ≤ vec_capacity s.bytes };
}

/// How many bytes the call of a number takes, where it is to fail.
fn count_at(failing: &[(u64, usize)], call: u64) -> Option<usize>
    ensures { result ≡ count_at failing.now call }
{
    failing
        .iter()
        .find(|entry| entry.0 == call)
        .map(|entry| entry.1)
}

/// How many bytes go out of a piece of a length into a room.
fn gone_of(listed: Option<usize>, piece: &[u8], room: usize) -> usize
    ensures value { result ≡ gone_of listed piece.now room }
    ensures in_piece { result ≤ length piece.now }
    ensures in_room { result ≤ room }
{
    match listed {
        Some(count) => count.min(piece.len().min(room)),
        None if room < piece.len() => 0,
        None => piece.len(),
    }
}

impl VecSink {
    /// A sink with room for a number of bytes, whose memory is taken here. Its
    /// calls of `put` are numbered from 0; those whose numbers are in `failing`
    /// fail, and take so many bytes of their piece, as far as it and the room
    /// go. The first entry of a number counts.
    pub fn new(
        alloc: Global,
        room: usize,
        failing: Vec<(u64, usize)>,
    ) -> Result<VecSink, AllocError>
        ensures { IfOk result (λ sink. sink
            ≡ record { written = []; room = room; failing = failing.items; calls = no_calls }) }
    {
        Ok(VecSink {
            bytes: Vec::with_capacity(alloc, room)?,
            room,
            failing,
            calls: Calls::new(),
        })
    }

    /// The bytes that went out.
    pub fn bytes(&self) -> &[u8]
        ensures { result.now ≡ self.now.written }
    {
        self.bytes.as_slice()
    }

    /// Adds bytes that fit.
    fn add(&mut self, bytes: &[u8])
        requires { length bytes.now ≤ self.old.room }
        ensures { self.new ≡ record self.old {
          written = self.old.written ++ bytes.now;
          room = self.old.room - length bytes.now;
        } }
    {
        self.bytes.extend_from_slice(bytes).unwrap();
        self.room -= bytes.len();
    }
}

impl Sink for VecSink {
    ghost fault_count = { λ s. s.calls.faults };

    ghost written = { λ s. Some s.written };

    fn faults(&self) -> u64 {
        self.calls.faults
    }

    fn put(&mut self, piece: &[u8]) -> Put
        ensures told { Puts result piece.now (Some self.old.written) (Some self.new.written) }
        ensures count { PutCount result self.old.calls.faults self.new.calls.faults }
        ensures fails { result ≡ (if put_fails self.old piece.now then Put.Failed else Put.Done) }
        ensures after { self.new ≡ after_put self.old piece.now }
    {
        let listed = count_at(&self.failing, self.calls.next);
        let failed = listed.is_some() || self.room < piece.len();
        let gone = gone_of(listed, piece, self.room);
        self.add(&piece[..gone]);
        self.calls.count(failed);
        if failed { Put::Failed } else { Put::Done }
    }
}
