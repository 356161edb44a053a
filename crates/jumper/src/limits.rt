// What is accepted (01, "Numbers we accept", and 02, #105 and #106), said once in code; specs/Limits.antt says it once for the promises. The limits of an offset are
// constants of range::OffsetRange.
pub const MAX_PAIRS: usize = 2048;

pub const FIRST_COLUMN: i32 = -65535;

pub const LAST_COLUMN: i32 = 65535;

pub const MAX_TRACKS: usize = 2049;

pub const MAX_LINES: usize = 64;

// The ladder of MAX_PAIRS pairs: 12 levels, two places each.
pub const MAX_LADDER: usize = 24;
