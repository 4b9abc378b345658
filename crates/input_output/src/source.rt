ghost use Rattle.std.specs.Prelude.{◌≡◌, ◌<◌, ◌≤◌, IfOk, OnErr, List, ℕ, Option, length, take};
ghost use Rattle.std.specs.Io.KnownBytes.{Consumes, IsAtEnd, Keeps};
ghost use Rattle.input_output.specs.Objects.{reader_faults, reader_left};
ghost use Rattle.input_output.specs.Source.{TakesInput, TakeCounts};

use std::io;
use std::io::{ErrorKind, Read};

/// A count of faults stands still at this value.
pub const LAST_COUNT: u64 = u64::MAX;

/// The answer of a source.
#[derive(Clone, Copy, Debug, PartialEq, Eq)]
pub enum Take {
    /// So many bytes stand at the front of the buffer, at least one.
    Got(usize),
    /// Nothing is left.
    End,
    /// The call failed, and took nothing.
    Failed,
}

/// What gives bytes in pieces, as read(2) does.
pub trait Source {
    /// The bytes that it has left, where it tells them.
    ghost left: { Self → Option (List ℕ) };

    /// How often it has failed. The count never falls, and stands still at its last value.
    ghost faults: { Self → ℕ };

    /// Takes some bytes from the front of what is left into the front of the buffer.
    fn read(&mut self, buf: &mut [u8]) -> Take
        requires { 0 < length buf.old }
        ensures took { TakesInput (left self.old) (left self.new) result buf.new }
        ensures counts { TakeCounts (faults self.old) (faults self.new) result };
}

/// How often a call that a signal interrupts is tried again.
pub(crate) const MOST_TRIES: u32 = 1000;

// A read that a signal interrupted before any byte was given is tried again.
fn read_again<R: Read>(inner: &mut R, buf: &mut [u8]) -> io::Result<usize>
    ensures count { IfOk result (λ count. count ≤ length buf.new) }
    ensures took { IfOk result (λ count.
        Consumes (R.remaining inner.old) (R.remaining inner.new) (take count buf.new)) }
    ensures end { IfOk result (λ count. count ≡ 0 → 0 < length buf.old
        → IsAtEnd (R.remaining inner.new)) }
    ensures err { OnErr result (Keeps (R.remaining inner.old) (R.remaining inner.new)) }
{
    'tries: for _ in 0..MOST_TRIES {
        match inner.read(buf) {
            Err(error) if error.kind() == ErrorKind::Interrupted => {}
            answer => return answer,
        }
    }
    inner.read(buf)
}

/// A source over any reader, which counts each error. It tells what it has left where the reader
/// does, as a slice does. A read that a signal interrupts isn't an error.
#[derive(Drop)]
pub struct ReadSource<R> {
    inner: R,
    faults: u64,
}

impl<R: Read> ReadSource<R> {
    /// A source that has not failed.
    pub fn new(inner: R) -> ReadSource<R>
        ensures left { reader_left R.remaining result ≡ R.remaining inner }
        ensures faults { reader_faults result ≡ 0 }
    {
        ReadSource { inner, faults: 0 }
    }
}

impl<R: Read> Source for ReadSource<R> {
    ghost left = { reader_left R.remaining };

    ghost faults = { reader_faults };

    fn read(&mut self, buf: &mut [u8]) -> Take {
        match read_again(&mut self.inner, buf) {
            Ok(0) => Take::End,
            Ok(count) => Take::Got(count),
            Err(_) => {
                self.faults = self.faults.saturating_add(1);
                Take::Failed
            }
        }
    }
}
