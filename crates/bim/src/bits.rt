// The lent bit reader for a C host: one code of bytes at a place. The number is given back; value, place and bits
// left stand in an area.
ghost use Rattle.std.specs.Prelude.{◌≡◌, [], length};
ghost use Rattle.numbers.specs.Refused.{answered};
ghost use Rattle.bit_reader.specs.Codes.{left_at, value_in};
ghost use Rattle.bit_reader.specs.declared.codes.Coding.TheVariants as coding;
ghost use Rattle.call_parts.specs.Calls.{back};
ghost use Rattle.bim.specs.Bits.{bits_call};

use bit_reader::code;
use bit_reader::codes::{Coding, left_at};
use buffers::{clear, store};
use numbers::refusal::Refusal;
use numbers::{limit, refusal};
use wire::Bits;

// A code read, and told in an area of BITS_AREA bytes.
fn read_code(bytes: &[u8], place: u32, coding: Coding, area: &mut [u8]) -> u32
    ensures { back result area.new []
        ≡ bits_call bytes.now place coding (length area.old) }
{
    if area.len() != limit::BITS_AREA {
        clear(area);
        return Refusal::AreaSize.number();
    }
    let a = code(bytes, Bits(place), coding);
    let (number, value) = number_and_value(a.code);
    store(&[value, a.place.0, a.left.0], area);
    number
}

// 0 and a code's value; or the number of a refusal, and 0.
fn number_and_value(code: Result<u32, Refusal>) -> (u32, u32)
    ensures { result ≡ (answered code, value_in code) }
{
    match code {
        Ok(value) => (refusal::ACCEPTED, value),
        Err(why) => (why.number(), 0),
    }
}

// A number in so many bits.
pub fn bim_bits_fixed(bytes: &[u8], place: u32, width: u32, area: &mut [u8]) -> u32
    ensures { back result area.new []
        ≡ bits_call bytes.now place (coding.Fixed width) (length area.old) }
{
    read_code(bytes, place, Coding::Fixed(width), area)
}

// A vluimsbf5 in shortest form.
pub fn bim_bits_vlu5(bytes: &[u8], place: u32, area: &mut [u8]) -> u32
    ensures { back result area.new []
        ≡ bits_call bytes.now place coding.Five (length area.old) }
{
    read_code(bytes, place, Coding::Five, area)
}

// A vluimsbf8 of at most two bytes in shortest form.
pub fn bim_bits_vlu8(bytes: &[u8], place: u32, area: &mut [u8]) -> u32
    ensures { back result area.new []
        ≡ bits_call bytes.now place coding.Eight (length area.old) }
{
    read_code(bytes, place, Coding::Eight, area)
}

// How many bits there are from a place on.
pub fn bim_bits_left(bytes: &[u8], place: u32) -> u32
    ensures { result ≡ left_at bytes.now place }
{
    left_at(bytes, Bits(place)).0
}
