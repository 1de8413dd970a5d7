//! The limits of HRDB, each of which is said here once.

/// How many replicas may lie at most; there are `2f + 1` of them in all.
pub const MAX_F: u32 = 3;

/// How many sessions there are at most.
pub const MAX_SESSIONS: u32 = 64;

/// How many statements may be submitted in one history. Here the life of a shepherd ends: it takes no statement more.
pub const MAX_SUBMITS: u64 = 4000;

/// How many statements a transaction may have.
pub const MAX_STATEMENTS: u32 = 100;

/// How many columns a table may have.
pub const MAX_COLUMNS: usize = 8;

/// How many columns an answer may have.
pub const MAX_ITEMS: usize = 8;

/// How many rows an answer may have.
pub const MAX_ROWS: usize = 128;

/// How many bytes a text value may have.
pub const MAX_TEXT_BYTES: usize = 64;

/// How many bytes the name of a table or a column may have.
pub const MAX_NAME_BYTES: usize = 32;

/// How many bytes the text of an SQL statement may have.
pub const MAX_SQL_BYTES: usize = 1024;

/// The largest number that SQL text may write without its sign: 2 to the 63, whose negation is the least number of a
/// column.
pub const MAX_NUMBER: u64 = 9_223_372_036_854_775_808;

/// How many lines the script of a session may have.
pub const MAX_SCRIPT_LINES: usize = 100;

/// How many bytes a scenario may have: 1 MiB.
pub const MAX_SCENARIO_BYTES: usize = 1_048_576;
