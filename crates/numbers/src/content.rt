// What a type's elements contain.

// Nothing.
pub const EMPTY: u32 = 0;
// One simple value: a, b and c are its kind and parameters.
pub const SIMPLE: u32 = 1;
// What a particle row lets come: a is that row.
pub const PARTICLES: u32 = 2;
