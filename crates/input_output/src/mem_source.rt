ghost use Rattle.std.specs.Prelude.{◌≡◌, ◌≤◌, ◌<◌, ◌+◌, ◌-◌, Some, length, take, min};
ghost use Rattle.input_output.specs.Source.{TakesInput, TakeCounts, mem_after, mem_take};
ghost use Rattle.input_output.specs.Source.{sure_after, sure_take};

use crate::source::{Source, Take};
use label_base::{Bytes, Row};
use std::marker::Model;

/// A source in memory that never fails.
#[derive(Drop)]
pub struct SureSource {
    bytes: Bytes,
    at: usize,
    piece: usize,
}

impl Model for SureSource {
    ghost use Rattle.std.specs.Prelude.{◌≤◌, ◌<◌, drop, length};
    ghost use Rattle.input_output.specs.Source.{SureSourceValue};

    ghost Value = { SureSourceValue };

    ghost view = { λ s. record { left = drop s.at s.bytes; piece = s.piece } };

    ghost invariant = { λ s. (s.at ≤ length s.bytes) × (0 < s.piece) };
}

impl SureSource {
    /// A source of these bytes. No call gives more than `piece` of them, which has to be at least
    /// 1.
    pub fn new(left: Bytes, piece: usize) -> SureSource
        requires { 0 < piece }
        ensures { result ≡ record { left = left; piece = piece } }
    {
        SureSource {
            bytes: left,
            at: 0,
            piece,
        }
    }

    /// The bytes that it has left.
    pub fn left(&self) -> &[u8]
        ensures { result.now ≡ self.now.left }
    {
        &self.bytes.as_slice()[self.at..]
    }
}

// Copies as much as both hold and the piece allows, and says how much that is.
fn give(from: &[u8], piece: usize, buf: &mut [u8]) -> usize
    requires piece { 0 < piece }
    requires room { 0 < length buf.old }
    ensures count { result ≡ min (min piece (length from.now)) (length buf.new) }
    ensures bytes { take result buf.new ≡ take result from.now }
{
    let count = piece.min(from.len()).min(buf.len());
    buf[..count].copy_from_slice(&from[..count]);
    count
}

impl Source for SureSource {
    ghost left = { λ s. Some s.left };

    ghost faults = { λ _. 0 };

    fn read(&mut self, buf: &mut [u8]) -> Take
        requires { 0 < length buf.old }
        ensures took { TakesInput (Some self.old.left) (Some self.new.left) result buf.new }
        ensures counts { TakeCounts 0 0 result }
        ensures answer { result ≡ sure_take self.old (length buf.new) }
        ensures after { self.new ≡ sure_after self.old result }
    {
        let left = &self.bytes.as_slice()[self.at..];
        if left.is_empty() {
            return Take::End;
        }
        let count = give(left, self.piece, buf);
        self.at += count;
        Take::Got(count)
    }
}

/// A source in memory, some of whose calls fail.
#[derive(Drop)]
pub struct MemSource {
    inner: SureSource,
    failing: Row<u64>,
    calls: u64,
    faults: u64,
}

impl Model for MemSource {
    ghost use Rattle.input_output.specs.Source.{MemSourceValue};

    ghost Value = { MemSourceValue };

    ghost view = { λ s. record {
      left = s.inner.left;
      piece = s.inner.piece;
      failing = s.failing;
      calls = s.calls;
      faults = s.faults;
    } };
}

impl MemSource {
    /// A source of these bytes. No call gives more than `piece` of them, which has to be at least
    /// 1, and the calls whose numbers, from 1 on, are among `failing` fail.
    pub fn new(left: Bytes, piece: usize, failing: Row<u64>) -> MemSource
        requires { 0 < piece }
        ensures { result
            ≡ record { left = left; piece = piece; failing = failing; calls = 0; faults = 0 } }
    {
        MemSource {
            inner: SureSource::new(left, piece),
            failing,
            calls: 0,
            faults: 0,
        }
    }

    /// The bytes that it has left.
    pub fn left(&self) -> &[u8]
        ensures { result.now ≡ self.now.left }
    {
        self.inner.left()
    }
}

impl Source for MemSource {
    ghost left = { λ s. Some s.left };

    ghost faults = { λ s. s.faults };

    fn read(&mut self, buf: &mut [u8]) -> Take
        requires { 0 < length buf.old }
        ensures took { TakesInput (Some self.old.left) (Some self.new.left) result buf.new }
        ensures counts { TakeCounts self.old.faults self.new.faults result }
        ensures answer { result ≡ mem_take self.old (length buf.new) }
        ensures after { self.new ≡ mem_after self.old result }
    {
        self.calls = self.calls.saturating_add(1);
        if self.failing.as_slice().contains(&self.calls) {
            self.faults = self.faults.saturating_add(1);
            return Take::Failed;
        }
        self.inner.read(buf)
    }
}
