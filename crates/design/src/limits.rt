// The limits of a cut, document 01's refusals 5 to 8. Other code goes by these names, or by the four pairs of a design.

// alpha
pub const LEAST_INITIAL_BITS: u32 = 2;

pub const MOST_INITIAL_BITS: u32 = 13;

// m
pub const MOST_TABLES: u32 = 4;

// b of a table, and a + b
pub const MOST_OFFSET_BITS: u32 = 8;

pub const MOST_TABLE_BITS: u64 = 12;

// What follows: tables of these lengths hold every legal set. That is proved where a program lends its tables.
pub const MOST_INITIAL: usize = 8192;

pub const MOST_OFFSETS: usize = 16384;
