// Where each number of a report stands. specs/Places has the same words.
use numbers::limit;

pub type Report = [u8; limit::REPORT];

pub const STOPPED: usize = 0;

pub const TOTAL_BITS: usize = 1;

pub const MODE_BITS: usize = 2;

pub const PADDING_BITS: usize = 3;

pub const ANSWERED: usize = 4;
// The line of all names that have none.
pub const OTHER: usize = 68;

pub const FIRST_LINE: usize = 72;
// The numbers of a line: name, seen, own bits, blanked bits.
pub const LINE: usize = 4;
