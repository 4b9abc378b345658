use context_syntax::Label;
use file_paths::PathRef;
use label_base::EntryKind;

/// A record, borrowed: what find(1) prints for `%y %D %i %n %Z %p`.
#[derive(Clone, Copy, Debug)]
pub struct Entry<'a> {
    pub kind: EntryKind,
    /// The number of the device on which the entry lies.
    pub device: u64,
    /// The number of its inode on that device.
    pub inode: u64,
    /// How many names the inode has, where that is told.
    pub links: Option<u64>,
    pub label: &'a Label,
    pub path: PathRef<'a>,
}

/// What is told of an entry, before its label and path are read.
#[derive(Clone, Copy, Debug)]
pub struct RawRecord<'a> {
    pub kind: EntryKind,
    /// The number of the device on which the entry lies.
    pub device: u64,
    /// The number of its inode on that device.
    pub inode: u64,
    /// How many names the inode has, where that is told.
    pub links: Option<u64>,
    pub label: &'a [u8],
    pub path: &'a [u8],
}
