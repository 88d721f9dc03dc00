// The limits of a table, each in one place.

/// Tests in a statement.
pub const MAX_TESTS: usize = 12;

/// Actions in a branch of a statement, THEN or ELSE.
pub const MAX_ACTIONS: usize = 8;

/// Statements are named, and action plans numbered, from 1 to this; so a table has at most this many of each, and a plan
/// lists at most this many names.
pub const LAST_NAME: u8 = 100;

/// The same number, as the size of a list.
pub const MAX_NAMES: usize = LAST_NAME as usize;

/// The longest sum of the DELAYs of a branch, in tenths of a second.
pub const MAX_DELAY: u16 = 2047;

/// Cells of the input buffer.
pub const INPUT_CELLS: u16 = 576;

/// Cells of the output buffer.
pub const OUTPUT_CELLS: u16 = 768;

/// Flags are numbered from 1 to this.
pub const LAST_FLAG: u8 = 64;

/// Vehicle detectors are numbered from 1 to this.
pub const LAST_DETECTOR: u8 = 64;
