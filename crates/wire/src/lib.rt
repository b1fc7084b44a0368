// Codes on the wire: bits of a payload, the most significant first; fixed widths, vluimsbf5, vluimsbf8; read below a wall, and written.
#![tactic(auto)]

pub mod reading; // reading.rt: from a place, below a wall
pub mod choices; // choices.rt: how many bits tell n choices apart
pub mod writing; // writing.rt: into a lent buffer, at a place
mod window; // window.rt: whole words of a payload

use numbers::refusal::Refusal;

// A count of bits, or a place: bits from the payload's start. TheLength is one.
#[derive(Clone, Copy)]
pub struct Bits(pub u32);

// A count of bytes: a text's size, room.
#[derive(Clone, Copy)]
pub struct Bytes(pub u32);

// A code as a number: the lowest bits of it, so many of them, the highest first.
#[derive(Clone, Copy)]
pub struct Coded {
    pub size: u32,
    pub bits: u64,
}

// A code's value and the place past it, or why it is refused.
pub type Read = Result<(u32, Bits), Refusal>;

// A number's value, the place past it, and whether it was in shortest form.
#[derive(Clone, Copy)]
pub struct Number {
    pub value: u32,
    pub next: Bits,
    pub short: bool,
}
