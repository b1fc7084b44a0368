// Codes and texts into a lent buffer, at a place. A code's value goes the writer's own way: sized, noted, put down by the pen.
ghost use Rattle.std.specs.Prelude.{◌≡◌, length};
ghost use Rattle.wire.specs.Number.{code8};

use super::noted::{put_noted, put_spelt};
use super::{OUTSIDE, accepted, reach, refused, told};
use numbers::limit;
use value::forms::{range, simple, times};
use value::writing::size;
use value::{Code, Form, Inner};
use wire::Bits;
use writer_parts::Spot;
use writer_parts::notes::{count, number};
use writer_parts::values::note_date;

pub fn probe_put(buf: &mut [u8], at: u32, w: u32, v: u32, out: &mut [u32; 4]) -> u32 {
    let most = reach(buf.len());
    if most < at {
        return refused(OUTSIDE, out);
    }
    if most - at < w {
        return refused(OUTSIDE, out);
    }
    let p = wire::writing::put(buf, Bits(at), w, v);
    accepted(v, p.0, 0, out)
}

pub fn probe_put5(buf: &mut [u8], at: u32, v: u32, out: &mut [u32; 4]) -> u32 {
    let most = reach(buf.len());
    if most < at {
        return refused(OUTSIDE, out);
    }
    let n = wire::writing::size5(v);
    if most - at < n.0 {
        return refused(OUTSIDE, out);
    }
    let p = wire::writing::put5(buf, Bits(at), v);
    accepted(v, p.0, 0, out)
}

// The bits of the shortest vluimsbf8 of v, if a third byte does not come.
fn size8(v: u32) -> u32
    ensures { result ≡ length (code8 v) }
{
    if v < 128 { 8 } else { 16 }
}

pub fn probe_put8(buf: &mut [u8], at: u32, v: u32, out: &mut [u32; 4]) -> u32 {
    let most = reach(buf.len());
    if most < at {
        return refused(OUTSIDE, out);
    }
    if most - at < size8(v) {
        return refused(OUTSIDE, out);
    }
    told(wire::writing::put8(buf, Bits(at), v), out)
}

// The code of a simple kind's number: a text's is its count, a date has none.
fn number_of(kind: u32, b: u32, c: u32) -> Code {
    match simple(kind, b, c) {
        Form::Number(code) => code,
        Form::Text => Code::Plain(Inner::Five(limit::MOST_TEXT)),
        Form::Dated(_) => Code::Plain(Inner::Choice(0)),
    }
}

// How many bits a value takes; or 20.
fn sized(c: Code, v: u32, out: &mut [u32; 4]) -> u32 {
    match size(c, v) {
        Err(why) => refused(why.number(), out),
        Ok(n) => accepted(n.0, 0, 0, out),
    }
}

pub fn probe_size_range(b: u32, c: u32, v: u32, out: &mut [u32; 4]) -> u32 {
    sized(range(b, c), v, out)
}

pub fn probe_size_times(least: u32, most: u32, v: u32, out: &mut [u32; 4]) -> u32 {
    sized(times(least, most), v, out)
}

pub fn probe_size_simple(kind: u32, b: u32, c: u32, v: u32, out: &mut [u32; 4]) -> u32 {
    sized(number_of(kind, b, c), v, out)
}

fn put_in_room(buf: &mut [u8], at: u32, c: Code, v: u32, out: &mut [u32; 4]) -> u32 {
    put_spelt(buf, at, c, v, number(c, v), out)
}

// A date as the writer puts it, of the kind DATE_TIME or else DATE; the bits it takes, and the place past it.
pub fn probe_put_date(
    buf: &mut [u8],
    at: u32,
    kind: u32,
    p: u32,
    q: u32,
    out: &mut [u32; 4],
) -> u32 {
    let list = [3, p, q, 0];
    let start = Spot {
        event: 0,
        used: 0,
        bits: 0,
    };
    let mut notes = [0u64; 1];
    let clocked = kind == numbers::simple::DATE_TIME;
    match note_date(&list, b"", &mut notes, start, clocked, p, q) {
        Err(fault) => refused(fault.why.number(), out),
        Ok(end) => put_noted(buf, at, end.bits, &notes, end, out),
    }
}

pub fn probe_put_range(buf: &mut [u8], at: u32, b: u32, c: u32, v: u32, out: &mut [u32; 4]) -> u32 {
    put_in_room(buf, at, range(b, c), v, out)
}

pub fn probe_put_times(
    buf: &mut [u8],
    at: u32,
    least: u32,
    most: u32,
    v: u32,
    out: &mut [u32; 4],
) -> u32 {
    put_spelt(buf, at, times(least, most), v, count(least, most, v), out)
}

pub fn probe_put_simple(
    buf: &mut [u8],
    at: u32,
    kind: u32,
    b: u32,
    c: u32,
    v: u32,
    out: &mut [u32; 4],
) -> u32 {
    put_in_room(buf, at, number_of(kind, b, c), v, out)
}

pub fn probe_put_bytes(buf: &mut [u8], at: u32, text: &[u8], out: &mut [u32; 4]) -> u32 {
    let most = reach(buf.len());
    if most < at {
        return refused(OUTSIDE, out);
    }
    let left = ((most - at) / 8) as usize;
    if left < text.len() {
        return refused(OUTSIDE, out);
    }
    let p = value::writing::put_bytes(buf, Bits(at), text);
    accepted(0, p.0, 0, out)
}
