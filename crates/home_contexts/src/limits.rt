/// The most lines that may be given: so many specifications may stand in one file.
pub const MOST_SPECS: u32 = 65_536;

/// The most bytes that the text may have, and a given line alone.
pub const MOST_TEXT_BYTES: u64 = 67_108_864;
