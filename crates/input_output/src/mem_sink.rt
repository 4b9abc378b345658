ghost use Rattle.std.specs.Prelude.{◌≡◌, ◌<◌, ◌-◌, ℕ, None, Some, [], length, min};
ghost use Rattle.input_output.specs.Sink.{IsPut, PutCounts, Puts, mem_put, sink_after};

use crate::sink::{Put, Sink};
use label_base::{Bytes, Row};
use std::alloc::Global;
use std::marker::Model;

/// A sink in memory, some of whose calls fail. A call that finds no memory fails too.
#[derive(Drop)]
pub struct MemSink {
    bytes: Bytes,
    piece: usize,
    failing: Row<u64>,
    calls: u64,
    faults: u64,
}

impl Model for MemSink {
    ghost use Rattle.std.specs.Prelude.{◌<◌};
    ghost use Rattle.input_output.specs.Sink.{MemSinkValue};

    ghost Value = { MemSinkValue };

    ghost view = { λ s. record {
      written = s.bytes;
      piece = s.piece;
      failing = s.failing;
      calls = s.calls;
      faults = s.faults;
    } };

    ghost invariant = { λ s. 0 < s.piece };
}

impl MemSink {
    /// An empty sink. No call takes more than `piece` bytes, which has to be at least 1, and the
    /// calls whose numbers, from 1 on, are among `failing` fail.
    pub fn new(alloc: Global, piece: usize, failing: Row<u64>) -> MemSink
        requires { 0 < piece }
        ensures { result
            ≡ record { written = []; piece = piece; failing = failing; calls = 0; faults = 0 } }
    {
        MemSink {
            bytes: Bytes::new(alloc),
            piece,
            failing,
            calls: 0,
            faults: 0,
        }
    }

    /// The bytes that it has taken.
    pub fn written(&self) -> &[u8]
        ensures { result.now ≡ self.now.written }
    {
        self.bytes.as_slice()
    }
}

impl Sink for MemSink {
    ghost written = { λ s. Some s.written };

    ghost faults = { λ s. s.faults };

    fn write(&mut self, bytes: &[u8]) -> Put
        requires { 0 < length bytes.now }
        ensures put { Puts (Some self.old.written) (Some self.new.written) result bytes.now }
        ensures counts { PutCounts self.old.faults self.new.faults result }
        ensures answer { IsPut result (mem_put self.old (length bytes.now)) }
        ensures after { self.new ≡ sink_after self.old bytes.now result }
    {
        self.calls = self.calls.saturating_add(1);
        let count = self.piece.min(bytes.len());
        let listed = self.failing.as_slice().contains(&self.calls);
        if listed || self.bytes.push(&bytes[..count]).is_err() {
            self.faults = self.faults.saturating_add(1);
            return Put::Failed;
        }
        Put::Took(count)
    }
}

/// A sink that never fails. It keeps no bytes, and tells no content.
#[derive(Drop)]
pub struct SureSink {
    piece: usize,
}

impl Model for SureSink {
    ghost use Rattle.std.specs.Prelude.{◌<◌, ℕ};

    ghost Value = { ℕ };

    ghost view = { λ s. s.piece };

    ghost invariant = { λ s. 0 < s.piece };
}

impl SureSink {
    /// A sink, seen as its piece. No call takes more than `piece` bytes, which has to be at least
    /// 1.
    pub fn new(piece: usize) -> SureSink
        requires { 0 < piece }
        ensures { result ≡ piece }
    {
        SureSink { piece }
    }
}

impl Sink for SureSink {
    ghost written = { λ _. None };

    ghost faults = { λ _. 0 };

    fn write(&mut self, bytes: &[u8]) -> Put
        requires { 0 < length bytes.now }
        ensures put { Puts None None result bytes.now }
        ensures counts { PutCounts 0 0 result }
        ensures answer { result ≡ Put.Took (min self.old (length bytes.now)) }
        ensures after { self.new ≡ self.old }
    {
        Put::Took(self.piece.min(bytes.len()))
    }
}
