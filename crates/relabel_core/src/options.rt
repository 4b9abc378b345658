use find_records::Format;

/// How a tree is walked.
#[derive(Clone, Copy, Debug)]
pub struct Options {
    /// The whole context is given, and customizable types give way too.
    pub force: bool,
    /// Nothing is changed; the report tells what would be.
    pub dry: bool,
    /// Directories whose stored digest is the one that they have are skipped, and the others get
    /// theirs anew.
    pub digests: bool,
    /// No directory is skipped, and all get their digests anew.
    pub ignore_digests: bool,
    /// The report has a line for each label that changes or is kept as customized, and for each
    /// entry that no specification decides.
    pub verbose: bool,
    /// The report has a line for each specification that decides no entry.
    pub warn_unmatched: bool,
    /// A name that is decided to another context than its inode gets is an error.
    pub strict_links: bool,
    /// An operand without an entry is no error, and has no line.
    pub ignore_absent: bool,
    /// Which fields the records of the tree have. With link counts, a directory has a digest only
    /// where all names of its inodes are known to lie at or below it.
    pub format: Format,
}
