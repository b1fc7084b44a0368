// One code of a slice, from a place on, below the slice's end.
ghost use Rattle.std.specs.Prelude.{◌≡◌, ◌*◌, ◌≤◌, length};
ghost use Rattle.wire.specs.Bits.{bit_at};
ghost use Rattle.wire.specs.Answer.{read_is};
ghost use Rattle.bit_reader.specs.Codes as meaning;

use numbers::limit;
use numbers::refusal::Refusal;
use wire::reading::{fixed, vlu5, vlu8};
use wire::{Bits, Read};

// How a number is coded: in so many bits, as a vluimsbf5, as a vluimsbf8 of at most two bytes.
#[derive(Clone, Copy)]
pub enum Coding {
    Fixed(u32),
    Five,
    Eight,
}

// A code's value, or why it is refused; the place past the code, or that of the refused one; the bits left from there.
#[derive(Clone, Copy)]
pub struct Reading {
    pub code: Result<u32, Refusal>,
    pub place: Bits,
    pub left: Bits,
}

// The first bit that is not fetched: the slice's end, or 2^32 - 1, where places stop.
pub fn wall(src: &[u8]) -> Bits
    ensures { (result.0 ≡ meaning.wall_of src.now) × (result.0 ≤ 8 * length src.now) }
{
    let n = src.len();
    if n < 536870912 {
        return Bits(8 * (n as u32));
    }
    Bits(limit::MOST_WORD)
}

// How many bits there are from a place on.
pub fn left_at(src: &[u8], at: Bits) -> Bits
    ensures { result.0 ≡ meaning.left_at src.now at.0 }
{
    Bits(wall(src).0.saturating_sub(at.0))
}

// The code as the wire has it.
#[tactic(auto, unfolding(crate::specs::Codes::coded))]
fn read_code(src: &[u8], wall: Bits, at: Bits, coding: Coding) -> Read
    requires { wall.0 ≤ 8 * length src.now }
    ensures { read_is result ≡ meaning.coded coding (bit_at src.now) wall.0 at.0 }
{
    match coding {
        Coding::Fixed(w) => fixed(src, wall, at, w),
        Coding::Five => vlu5(src, wall, at),
        Coding::Eight => vlu8(src, wall, at),
    }
}

// The code at a place, and the place past it.
pub fn code_at(src: &[u8], at: Bits, coding: Coding) -> Reading
    ensures { meaning.reading_is result ≡ meaning.reading_at src.now at.0 coding }
{
    let wall = wall(src);
    match read_code(src, wall, at, coding) {
        Err(why) => Reading {
            code: Err(why),
            place: at,
            left: left_at(src, at),
        },
        Ok((value, place)) => Reading {
            code: Ok(value),
            place,
            left: left_at(src, place),
        },
    }
}
