// Document 01, "Sizes": the numbers of rules/specs/Plan.antt, for code.
pub const MOST_COLUMNS: usize = 24;

pub const MOST_RUNS: usize = 256;

// The entries of the largest table.
pub const MOST_ENTRIES: usize = 6_144;

pub const LOWEST_LEVEL: u8 = 1;

pub const HIGHEST_LEVEL: u8 = 16;

pub const HIGHEST_PRODUCT: u64 = 2_000_000_000;

pub const LONGEST_TEXT: usize = 32_768;
