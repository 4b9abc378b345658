ghost use Rattle.std.specs.Prelude.{◌≡◌};
ghost use Rattle.find_records.specs.declared.fault.RecordsFault.TheVariants.{OutOfMemory};

use file_paths::PathWhy;

/// What is wrong with a record that has its NUL.
#[derive(Clone, Copy, Debug, PartialEq, Eq)]
pub enum RecordWhy {
    /// It has fewer spaces than its format: four, or five with a link count.
    MissingField,
    /// Its type is no letter that find(1) prints for `%y`.
    BadType,
    /// Its device, inode or link count is no decimal number of at most 64 bits.
    BadNumber,
    /// Its path is no absolute path.
    BadPath(PathWhy),
}

/// Why a source gave no records. Records are numbered from 1.
#[derive(Clone, Copy, Debug, PartialEq, Eq)]
pub enum RecordsFault {
    /// The source failed.
    ReadFault,
    /// The source has more bytes than the limit.
    TooLong,
    /// There are more records than the limit.
    TooMany,
    /// The first bad record is outside its grammar.
    Refused { number: u32, why: RecordWhy },
    /// The first bad record is the last one, which lacks its NUL.
    Unended { number: u32 },
    /// There was not enough memory.
    OutOfMemory,
}

impl From<label_base::OutOfMemory> for RecordsFault {
    ghost from_gives = { λ _ e. e ≡ OutOfMemory };

    fn from(_refused: label_base::OutOfMemory) -> RecordsFault {
        RecordsFault::OutOfMemory
    }
}
