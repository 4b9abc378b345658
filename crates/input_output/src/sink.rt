ghost use Rattle.std.specs.Prelude.{◌≡◌, ◌≤◌, ◌<◌, IfOk, OnOk, OnErr, List, ℕ, Option};
ghost use Rattle.std.specs.Prelude.{length, take};
ghost use Rattle.std.specs.Io.KnownBytes.{Appends, Keeps};
ghost use Rattle.input_output.specs.Objects.{writer_faults, writer_written};
ghost use Rattle.input_output.specs.Sink.{Puts, PutCounts, AppendsFront};
ghost use Rattle.input_output.specs.Source.{Rose};

use crate::source::MOST_TRIES;
use label_base::PiecedText;
use std::io;
use std::io::{ErrorKind, Write};

/// The answer of a sink.
#[derive(Clone, Copy, Debug, PartialEq, Eq)]
pub enum Put {
    /// So many bytes were taken from the front, at least one.
    Took(usize),
    /// The call failed, and took nothing.
    Failed,
}

/// What takes bytes in pieces, as write(2) does.
pub trait Sink {
    /// The bytes that it has taken, where it tells them.
    ghost written: { Self → Option (List ℕ) };

    /// How often it has failed. The count never falls, and stands still at its last value.
    ghost faults: { Self → ℕ };

    /// Takes some bytes from the front.
    fn write(&mut self, bytes: &[u8]) -> Put
        requires { 0 < length bytes.now }
        ensures put { Puts (written self.old) (written self.new) result bytes.now }
        ensures counts { PutCounts (faults self.old) (faults self.new) result };
}

/// A sink failed.
#[derive(Clone, Copy, Debug, PartialEq, Eq)]
pub struct WriteFailed;

/// Writes all of the bytes. After a failure some front of them was written.
pub fn write_all<O: Sink>(out: &mut O, bytes: &[u8]) -> Result<(), WriteFailed>
    ensures ok { OnOk result (Appends (O.written out.old) (O.written out.new) bytes.now) }
    ensures calm { OnOk result (O.faults out.new ≡ O.faults out.old) }
    ensures err { OnErr result (AppendsFront (O.written out.old) (O.written out.new) bytes.now) }
    ensures rose { OnErr result (Rose (O.faults out.old) (O.faults out.new)) }
    ensures later { O.faults out.old ≤ O.faults out.new }
{
    let mut done = 0;
    while done < bytes.len() {
        match out.write(&bytes[done..]) {
            Put::Took(count) => done += count,
            Put::Failed => return Err(WriteFailed),
        }
    }
    Ok(())
}

/// Writes all of a text, piece after piece. After a failure some front of it was written.
pub fn write_text<O: Sink>(out: &mut O, text: &PiecedText) -> Result<(), WriteFailed>
    ensures ok { OnOk result (Appends (O.written out.old) (O.written out.new) text.now) }
    ensures calm { OnOk result (O.faults out.new ≡ O.faults out.old) }
    ensures err { OnErr result (AppendsFront (O.written out.old) (O.written out.new) text.now) }
    ensures rose { OnErr result (Rose (O.faults out.old) (O.faults out.new)) }
    ensures later { O.faults out.old ≤ O.faults out.new }
{
    let pieces = text.pieces();
    'pieces: for piece in pieces {
        write_all(out, piece.as_slice())?;
    }
    Ok(())
}

// A write that a signal interrupted before any byte was taken is tried again.
fn write_again<W: Write>(inner: &mut W, bytes: &[u8]) -> io::Result<usize>
    ensures count { IfOk result (λ count. count ≤ length bytes.now) }
    ensures took { IfOk result (λ count.
        Appends (W.contents inner.old) (W.contents inner.new) (take count bytes.now)) }
    ensures err { OnErr result (Keeps (W.contents inner.old) (W.contents inner.new)) }
{
    'tries: for _ in 0..MOST_TRIES {
        match inner.write(bytes) {
            Err(error) if error.kind() == ErrorKind::Interrupted => {}
            answer => return answer,
        }
    }
    inner.write(bytes)
}

/// A sink over any writer, which counts each error and each write of no bytes. It tells what was
/// written where the writer does, as a vector does. A write that a signal interrupts isn't an
/// error.
#[derive(Drop)]
pub struct WriteSink<W> {
    inner: W,
    faults: u64,
}

impl<W: Write> WriteSink<W> {
    /// A sink that has not failed.
    pub fn new(inner: W) -> WriteSink<W>
        ensures written { writer_written W.contents result ≡ W.contents inner }
        ensures faults { writer_faults result ≡ 0 }
    {
        WriteSink { inner, faults: 0 }
    }
}

impl<W: Write> Sink for WriteSink<W> {
    ghost written = { writer_written W.contents };

    ghost faults = { writer_faults };

    fn write(&mut self, bytes: &[u8]) -> Put {
        match write_again(&mut self.inner, bytes) {
            Ok(0) | Err(_) => {
                self.faults = self.faults.saturating_add(1);
                Put::Failed
            }
            Ok(count) => Put::Took(count),
        }
    }
}
