// Codes and texts of a payload, below a wall.
ghost use Rattle.std.specs.Prelude.{◌≡◌};
ghost use Rattle.numbers.specs.Refused.{answered};
ghost use Rattle.utf8.specs.Text.{text_fault};

use super::{OUTSIDE, accepted, reach, refused, told, told_number};
use numbers::refusal;
use numbers::refusal::Refusal;
use value::Value;
use value::forms::{range, simple, times};
use wire::{Bits, Bytes};

pub fn probe_bit(s: &[u8], at: u32, out: &mut [u32; 4]) -> u32 {
    if reach(s.len()) <= at {
        return refused(OUTSIDE, out);
    }
    accepted(wire::reading::bit(s, at), 0, 0, out)
}

pub fn probe_fixed(s: &[u8], end: u32, at: u32, w: u32, out: &mut [u32; 4]) -> u32 {
    if reach(s.len()) < end {
        return refused(OUTSIDE, out);
    }
    told(wire::reading::fixed(s, Bits(end), Bits(at), w), out)
}

pub fn probe_any5(s: &[u8], end: u32, at: u32, out: &mut [u32; 4]) -> u32 {
    if reach(s.len()) < end {
        return refused(OUTSIDE, out);
    }
    told_number(wire::reading::any5(s, Bits(end), Bits(at)), out)
}

pub fn probe_any8(s: &[u8], end: u32, at: u32, out: &mut [u32; 4]) -> u32 {
    if reach(s.len()) < end {
        return refused(OUTSIDE, out);
    }
    told_number(wire::reading::any8(s, Bits(end), Bits(at)), out)
}

pub fn probe_vlu5(s: &[u8], end: u32, at: u32, out: &mut [u32; 4]) -> u32 {
    if reach(s.len()) < end {
        return refused(OUTSIDE, out);
    }
    told(wire::reading::vlu5(s, Bits(end), Bits(at)), out)
}

pub fn probe_vlu8(s: &[u8], end: u32, at: u32, out: &mut [u32; 4]) -> u32 {
    if reach(s.len()) < end {
        return refused(OUTSIDE, out);
    }
    told(wire::reading::vlu8(s, Bits(end), Bits(at)), out)
}

pub fn probe_choice(s: &[u8], end: u32, at: u32, n: u32, out: &mut [u32; 4]) -> u32 {
    if reach(s.len()) < end {
        return refused(OUTSIDE, out);
    }
    told(value::reading::choice(s, Bits(end), Bits(at), n), out)
}

pub fn probe_number(s: &[u8], end: u32, at: u32, most: u32, out: &mut [u32; 4]) -> u32 {
    if reach(s.len()) < end {
        return refused(OUTSIDE, out);
    }
    told(value::reading::number(s, Bits(end), Bits(at), most), out)
}

// A value from b to c.
pub fn probe_range(s: &[u8], end: u32, at: u32, b: u32, c: u32, out: &mut [u32; 4]) -> u32 {
    if reach(s.len()) < end {
        return refused(OUTSIDE, out);
    }
    told(
        value::reading::code(s, Bits(end), Bits(at), range(b, c)),
        out,
    )
}

// A count of an occurs row.
pub fn probe_times(s: &[u8], end: u32, at: u32, least: u32, most: u32, out: &mut [u32; 4]) -> u32 {
    if reach(s.len()) < end {
        return refused(OUTSIDE, out);
    }
    told(
        value::reading::code(s, Bits(end), Bits(at), times(least, most)),
        out,
    )
}

// A simple value: its word and its place, then a text's bytes, then a date's second word.
pub fn probe_simple(
    s: &[u8],
    end: u32,
    at: u32,
    kind: u32,
    b: u32,
    c: u32,
    out: &mut [u32; 4],
) -> u32 {
    if reach(s.len()) < end {
        return refused(OUTSIDE, out);
    }
    match value::reading::simple(s, Bits(end), Bits(at), simple(kind, b, c)) {
        Err(why) => refused(why.number(), out),
        Ok(Value::Read { word, text, next }) => accepted(word, next.0, text.0, out),
        Ok(Value::Dated { p, q, next }) => {
            accepted(p, next.0, 0, out);
            out[3] = q;
            refusal::ACCEPTED
        }
    }
}

pub fn probe_byte(s: &[u8], at: u32, out: &mut [u32; 4]) -> u32 {
    let most = reach(s.len());
    if most < at {
        return refused(OUTSIDE, out);
    }
    if most - at < 8 {
        return refused(OUTSIDE, out);
    }
    accepted(u32::from(value::reading::byte(s, Bits(at))), 0, 0, out)
}

// What is wrong with n bytes from a place, aligned or not.
pub fn probe_text_fault(s: &[u8], at: u32, n: u32, out: &mut [u32; 4]) -> u32 {
    let most = reach(s.len());
    if most < at {
        return refused(OUTSIDE, out);
    }
    if (most - at) / 8 < n {
        return refused(OUTSIDE, out);
    }
    refused(
        judged(value::reading::text_fault(s, Bits(at), Bytes(n))),
        out,
    )
}

pub fn probe_utf8(text: &[u8]) -> u32
    ensures { result ≡ text_fault text.now }
{
    judged(utf8::check(text))
}

// The number of what is wrong, 0 for nothing.
fn judged(r: Result<(), Refusal>) -> u32
    ensures { result ≡ answered r }
{
    match r {
        Ok(()) => refusal::ACCEPTED,
        Err(why) => why.number(),
    }
}
