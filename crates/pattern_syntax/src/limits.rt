//! The limits of this dialect.

/// How many groups may be open at once.
pub const MOST_GROUPS: u32 = 50;

/// How many positions a pattern may have: its bytes and sets, those in repeats counted as often as
/// they are written out.
pub const MOST_POSITIONS: u32 = 2_000;

/// The greatest number in a repeat, as in pcrepattern(3), "Repetition".
pub const MOST_TIMES: u32 = 65_535;
