// The simple kinds, and what the word p of a Value is; its word q is 0, but of a date.

// 0 or 1.
pub const BOOLEAN: u32 = 0;
// From b to c, all three in two's complement.
pub const RANGED: u32 = 1;
// 0 to MOST_WORD.
pub const UNSIGNED: u32 = 2;
// In two's complement.
pub const SIGNED: u32 = 3;
// One of b, from 0.
pub const ENUMERATION: u32 = 4;
// Its bytes of UTF-8, which stand in the texts.
pub const TEXT: u32 = 5;
// The bits of an IEEE 754 single.
pub const FLOAT: u32 = 6;
// A day and a time of it: p is 16 * year + month, q 2^27 * day + milliseconds.
pub const DATE_TIME: u32 = 7;
// A day: the same, with no milliseconds.
pub const DATE: u32 = 8;
