ghost use Rattle.std.specs.Prelude.{◌≡◌, ◌<◌, ◌+◌, ◌-◌, ◌^◌, vec_len, IfOk, min};
ghost use Rattle.input_output.specs.Reading.{AllTaken, AllCounts};
ghost use Rattle.input_output.specs.declared.reading.AllFault.TheVariants.{OutOfMemory};

use crate::source::{Source, Take};
use label_base::Bytes;
use std::alloc::Global;

/// Why a source was not read to its end.
#[derive(Clone, Copy, Debug, PartialEq, Eq)]
pub enum AllFault {
    /// A call of the source failed.
    ReadFault,
    /// The source has more bytes than the limit.
    TooLong,
    /// There was not enough memory.
    OutOfMemory,
}

impl From<label_base::OutOfMemory> for AllFault {
    ghost from_gives = { λ _ e. e ≡ OutOfMemory };

    fn from(_refused: label_base::OutOfMemory) -> AllFault {
        AllFault::OutOfMemory
    }
}

// The most bytes that one call of the source is asked for.
const PIECE: usize = 65536;

// A buffer for the pieces.
fn buffer_for(alloc: Global, limit: usize) -> Result<Vec<u8>, label_base::OutOfMemory>
    requires { limit < 2 ^ 64 - 1 }
    ensures { IfOk result (λ buf. vec_len buf ≡ min (limit + 1) PIECE) }
{
    Ok(vec![in alloc; 0; (limit + 1).min(PIECE)]?)
}

/// Reads a source to its end, if it has at most `limit` bytes. At most `limit + 1` bytes are taken,
/// and the answer is `TooLong` where that many were. After a fault the bytes that were taken are
/// lost.
pub fn read_all<I: Source>(alloc: Global, source: &mut I, limit: usize) -> Result<Bytes, AllFault>
    requires { limit < 2 ^ 64 - 1 }
    ensures bytes { AllTaken (I.left source.old) (I.left source.new) limit result }
    ensures counts { AllCounts (I.faults source.old) (I.faults source.new) result }
{
    let mut buf = buffer_for(alloc, limit)?;
    let mut bytes = Bytes::new(alloc);
    'pieces: while bytes.len() <= limit {
        let room = (limit - bytes.len() + 1).min(buf.len());
        let piece = &mut buf[..room];
        match source.read(piece) {
            Take::Got(count) => bytes.push(&piece[..count])?,
            Take::End => return Ok(bytes),
            Take::Failed => return Err(AllFault::ReadFault),
        }
    }
    Err(AllFault::TooLong)
}
