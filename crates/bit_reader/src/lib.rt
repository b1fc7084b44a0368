// A bit reader lent to the host's own small parsers: it holds a slice and a place in it, and reads one code at a time.
#![tactic(auto)]

pub mod codes; // codes.rt: the work, over a plain slice and a place

ghost use Rattle.std.specs.Prelude.{◌≡◌};
ghost use Rattle.bit_reader.specs.Codes.{reading_is, reading_at, left_at};

use codes::{Coding, Reading, code_at, left_at};
use wire::Bits;

// The slice, and the place in it of the next bit.
#[derive(Clone, Copy)]
pub struct BitReader<'a> {
    pub src: &'a [u8],
    pub at: Bits,
}

// A reader over a slice, at a place.
pub fn over<'a>(src: &'a [u8], at: Bits) -> BitReader<'a>
    ensures { (result.src ≡ src.entry) × (result.at ≡ at) }
{
    BitReader { src, at }
}

// The code that stands at the reader's place, and the place past it.
pub fn read<'a>(r: BitReader<'a>, coding: Coding) -> Reading
    ensures { reading_is result ≡ reading_at r.entry.src.now r.entry.at.0 coding }
{
    code_at(r.src, r.at, coding)
}

// The place of the next bit.
pub fn place<'a>(r: BitReader<'a>) -> Bits
    ensures { result ≡ r.entry.at }
{
    r.at
}

// How many bits are left.
pub fn left<'a>(r: BitReader<'a>) -> Bits
    ensures { result.0 ≡ left_at r.entry.src.now r.entry.at.0 }
{
    left_at(r.src, r.at)
}

// The same slice, at another place.
pub fn move_to<'a>(r: BitReader<'a>, at: Bits) -> BitReader<'a>
    ensures { (result.src ≡ r.entry.src) × (result.at ≡ at) }
{
    BitReader { src: r.src, at }
}

// The next code: the reader goes past it, or stays where it is refused.
pub fn take<'s, 'a>(r: &'s mut BitReader<'a>, coding: Coding) -> Reading
    ensures { (reading_is result ≡ reading_at r.old.src.now r.old.at.0 coding)
        × (r.new.src ≡ r.old.src)
        × (r.new.at ≡ result.place) }
{
    let a = code_at(r.src, r.at, coding);
    r.at = a.place;
    a
}

// What a reader over a plain slice at a place reads: who calls this holds no struct, and its proof needs no walk.
pub fn code(src: &[u8], at: Bits, coding: Coding) -> Reading
    ensures { reading_is result ≡ reading_at src.now at.0 coding }
{
    read(over(src, at), coding)
}
