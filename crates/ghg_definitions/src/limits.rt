//! The limits of a workbook.

use ghg_cell::MOST_PARTS;

/// The most lines: as many as a total adds.
pub const MOST_LINES: usize = MOST_PARTS;

/// The most records.
pub const MOST_RECORDS: usize = 500_000;

/// The most years that the last may be after the first.
pub const LONGEST_SPAN: u32 = 150;

/// The most bytes of all kept bodies together.
pub const MOST_KEPT_BYTES: u64 = 536_870_912;
