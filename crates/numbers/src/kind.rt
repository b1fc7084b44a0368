// An event's kind, the first of its four words; and what its words p and q then are (else 0).

// An element begins: p its name, q 1 where a length is coded.
pub const START: u32 = 1;
// An attribute: p its name, q 1 present (its Value follows) or 0 absent (none does).
pub const ATTRIBUTE: u32 = 2;
// A value: p as its simple kind has it; of a text its bytes, next in the texts.
pub const VALUE: u32 = 3;
// A branch of a choice: p which, from 0.
pub const PICK: u32 = 4;
// A count: p how often the row occurs that comes next.
pub const TIMES: u32 = 5;
// The element that was begun last ends.
pub const END: u32 = 6;
// An element stepped over, as its type is not held: p its name, q its effective type.
pub const BLANK: u32 = 7;
// The codes of the element that was begun: p its effective type, q its substitute from 1, or 0.
pub const CAST: u32 = 8;
