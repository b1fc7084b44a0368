// Length coding, as a number and as the byte that a payload begins with.

// No element has a length.
pub const NEVER: u32 = 0;
// A flag says whether an element has one.
pub const OPTIONAL: u32 = 1;
// Every element has one.
pub const ALWAYS: u32 = 2;
// Added to any of them: type codes are sent.
pub const CASTING: u32 = 4;

pub const NEVER_BYTE: u8 = 0x0F;

pub const OPTIONAL_BYTE: u8 = 0x4F;

pub const ALWAYS_BYTE: u8 = 0x8F;
// Added to any of them.
pub const CASTING_BYTE: u8 = 0x10;
