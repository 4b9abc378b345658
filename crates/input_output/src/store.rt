ghost use Rattle.std.specs.Prelude.{◌≡◌, ◌≤◌, IfOk, length, ℕ, Option};
ghost use Rattle.input_output.specs.Store.{Calls, FileCounts, FileAsKnown, Files, SaveCounts};
ghost use Rattle.input_output.specs.Store.{SaveAsKnown};

use label_base::{Bytes, PiecedText};
use std::alloc::Global;

/// Why a file gave no bytes.
#[derive(Clone, Copy, Debug, PartialEq, Eq)]
pub enum FileFault {
    /// There is no file of this name.
    NotThere,
    /// The file could not be read.
    Failed,
    /// The file has more bytes than the limit.
    TooLong,
    /// There was not enough memory.
    OutOfMemory,
}

/// Why a file wasn't written.
#[derive(Clone, Copy, Debug, PartialEq, Eq)]
pub enum SaveFault {
    /// The file could not be written. It may hold anything then, or be absent.
    Failed,
    /// There was not enough memory.
    OutOfMemory,
}

/// Files by name.
pub trait Store {
    /// The files, where the store tells them.
    ghost files: { Self → Option Files };

    /// How often a read has failed. The count never falls, and stands still at its last value.
    ghost read_faults: { Self → ℕ };

    /// How often a write has failed. The count never falls, and stands still at its last value.
    ghost write_faults: { Self → ℕ };

    /// How many reads and writes it was asked for, where the store tells it. The count never falls,
    /// and stands still at its last value.
    ghost calls: { Self → Option ℕ };

    /// The whole content of a file of at most `limit` bytes.
    fn read_file(&mut self, alloc: Global, name: &str, limit: usize) -> Result<Bytes, FileFault>
        ensures files { files self.new ≡ files self.old }
        ensures within { IfOk result (λ bytes. length bytes ≤ limit) }
        ensures content { FileAsKnown (files self.old) name.now limit result }
        ensures counts { FileCounts (read_faults self.old) (read_faults self.new) result }
        ensures calls { Calls (calls self.old) (calls self.new) 1 }
        ensures writes { write_faults self.new ≡ write_faults self.old };

    /// Makes a file hold exactly this text, also where there was none. All other files stay.
    fn write_file(&mut self, alloc: Global, name: &str, text: &PiecedText) -> Result<(), SaveFault>
        ensures files { SaveAsKnown (files self.old) (files self.new) name.now text.now result }
        ensures counts { SaveCounts (write_faults self.old) (write_faults self.new) result }
        ensures calls { Calls (calls self.old) (calls self.new) 1 }
        ensures reads { read_faults self.new ≡ read_faults self.old };
}
