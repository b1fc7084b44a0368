// The particle rows, and their words p, q and r (else 0).

// Name, type.
pub const ELEMENT: u32 = 0;
// First child row, number of child rows: each in turn.
pub const SEQUENCE: u32 = 1;
// First child row, number of child rows: one of them.
pub const CHOICE: u32 = 2;
// Child row, least, most.
pub const OCCURS: u32 = 3;
