ghost use Rattle.std.specs.Prelude.{◌≡◌};
ghost use Rattle.run_faults.specs.declared.cause.Cause.TheVariants as causes;

use crate::finding::Finding;
use file_roles::FileRole;
use find_records::RecordWhy;
use label_base::{Name, OutOfMemory};
use setfattr_dump::DumpWhy;
use spec_reader::SpecWhy;
use tool_words::UsageWhy;

/// A quantity that has a greatest value.
#[derive(Clone, Copy, Debug, PartialEq, Eq)]
pub enum LimitKind {
    /// The bytes of a file.
    File(FileRole),
    /// The specifications of all files together.
    Specs,
    /// The records of the input.
    Records,
    /// The bytes of the input.
    RecordBytes,
}

/// How a run ended.
#[derive(Debug, Drop)]
pub enum Cause {
    /// The report was written, and no error was met.
    Done,
    /// This word is the first that is wrong; words count from 0, and where they end too early the
    /// index is their number.
    Usage {
        index: u32,
        why: UsageWhy,
    },
    /// A file that may not be absent does not exist.
    Missing {
        name: Name,
    },
    /// This line of a file of specifications is the first that is none; lines count from 1.
    SpecRefused {
        role: FileRole,
        line: u32,
        why: SpecWhy,
    },
    /// This line of a file of substitutions is the first that is none; lines count from 1.
    SubRefused {
        role: FileRole,
        line: u32,
    },
    /// This line of the file of customizable types is the first that is none; lines count from 1.
    CustomRefused {
        line: u32,
    },
    /// This line of the file of stored digests is the first that is refused; lines count from 1.
    DumpRefused {
        line: u32,
        why: DumpWhy,
    },
    /// This line of the template of a file of homes is the first that gives a refused line; lines
    /// count from 1.
    TemplateRefused {
        line: u32,
        why: SpecWhy,
    },
    /// This line of the file of users is the first that is none; lines count from 1.
    UsersRefused {
        line: u32,
    },
    /// This record of the input is the first that is none; records count from 1.
    RecordRefused {
        number: u32,
        why: RecordWhy,
    },
    /// The last record of the input has no NUL, and this number.
    Unended {
        number: u32,
    },
    /// The second record is the first whose path an earlier one has for another entry, and the
    /// first one is the first with that path.
    Doubled {
        first: u32,
        second: u32,
    },
    /// A quantity is past its greatest value.
    Limit {
        which: LimitKind,
    },
    /// The report was written, and the walk met so many errors.
    WalkErrors {
        count: u32,
    },
    /// The report was written, and so many paths differ or have no record.
    Differs {
        count: u32,
    },
    /// The report was written, and what was audited differs from what it should be: this finding
    /// isn't [`Finding::Agrees`].
    Denied {
        finding: Finding,
    },
    /// A file or the input could not be read.
    ReadFault,
    /// The dump or the report could not be written.
    WriteFault,
    /// There was not enough memory.
    OutOfMemory,
}

/// What a run answers.
#[derive(Debug, Drop)]
pub struct Outcome {
    /// The exit status.
    pub status: u8,
    /// How the run ended.
    pub cause: Cause,
}

impl From<OutOfMemory> for Cause {
    ghost from_gives = { λ _ cause. cause ≡ causes.OutOfMemory };

    fn from(_refused: OutOfMemory) -> Cause {
        Cause::OutOfMemory
    }
}
