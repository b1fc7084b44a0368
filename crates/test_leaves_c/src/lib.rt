// The leaves as C calls them, each the function of the library `test_leaves`, which says what a call answers: libtest_leaves.a has
// these alone, as an archive exports only its own crate's functions, and no crate can stand on an archive.
#![tactic(auto)]

mod dates; // dates.rt: the calendar
mod reading; // reading.rt: codes and texts of a payload, below a wall
mod tables; // tables.rt: the check of a table, and its rows
mod words; // words.rt: widths, sizes and signed words
mod writing; // writing.rt: codes and texts into a lent buffer
