// The flags of a start-up message, as a number of seven bits.

// Child elements may be inserted.
pub const INSERT_FLAG: u32 = 64;
// Advanced optimised decoders are used.
pub const ADVANCED_DECODERS_FLAG: u32 = 32;
// Additional schemas are sent.
pub const ADDITIONAL_SCHEMA_FLAG: u32 = 16;
// Nothing but updates of them is sent.
pub const SCHEMA_UPDATES_FLAG: u32 = 8;
// Fragments may be references, in the formats listed.
pub const FRAGMENT_REFERENCE_FLAG: u32 = 4;
// Positions are coded by MPC alone.
pub const MPC_ONLY_FLAG: u32 = 2;
// Substitutions are coded by hierarchy.
pub const HIERARCHY_FLAG: u32 = 1;
