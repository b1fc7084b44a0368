// Notes into a lent buffer, one after another, by whole words: bits wait until there are 64 of them.
ghost use Rattle.std.specs.Prelude.{◌≡◌, ◌+◌, ◌*◌, ◌≤◌, ◌<◌, length, take, drop};
ghost use Rattle.wire.specs.Bits.{bit_at, num, digits};
ghost use Rattle.wire.specs.Put.{Room, Wrote};
ghost use Rattle.value.specs.Simple.{bytes};
ghost use Rattle.writer_parts.specs.Notes.{note_bits, text_bits, date_bits, spells};
ghost use Rattle.writer_parts.specs.Pen.{waits, Spare, Drawn, Begun};

use wire::Bits;
use wire::writing::{coded5, put, put_whole, whole};

// The bytes before one stand; from there on wait the lowest bits of a number, so many of them.
#[derive(Clone, Copy)]
pub struct Pen {
    pub next: usize,
    pub waiting: u64,
    pub count: u64,
}

// At a place: the bits of its byte before it wait.
#[tactic(auto, using(crate::proofs::PenWays::begin_ways))]
fn begin(payload: &[u8], at: Bits) -> Pen
    requires { at.0 ≤ 8 * length payload.now }
    ensures { Begun payload.now at.0 result }
{
    let a = at.0;
    let next = (a / 8) as usize;
    let count = (a % 8) as u64;
    if count == 0 {
        return Pen {
            next,
            waiting: 0,
            count,
        };
    }
    let x = u64::from(payload[next]);
    Pen {
        next,
        waiting: x >> (8 - count),
        count,
    }
}

// The w lowest bits of v.
#[tactic(auto, using(crate::proofs::PenWays::code_ways))]
fn put_code(payload: &mut [u8], p: Pen, w: u64, v: u64) -> Pen
    requires { (Spare payload.old p w) × (w < 64) }
    ensures { Drawn payload.old payload.new p result (digits w v) }
{
    let x = v % (1u64 << w);
    let sum = p.count + w;
    if sum < 64 {
        return Pen {
            next: p.next,
            waiting: (p.waiting << w) + x,
            count: sum,
        };
    }
    let rest = sum - 64;
    let free = w - rest;
    put_whole(payload, p.next, (p.waiting << free) + (x >> rest));
    Pen {
        next: p.next + 8,
        waiting: x,
        count: rest,
    }
}

// The 64 bits of v.
#[tactic(auto, using(crate::proofs::PenWays::eight_ways))]
fn put_eight(payload: &mut [u8], p: Pen, v: u64) -> Pen
    requires { Spare payload.old p 64 }
    ensures { Drawn payload.old payload.new p result (digits 64 v) }
{
    let n = p.count;
    put_whole(payload, p.next, ((p.waiting << (63 - n)) << 1) + (v >> n));
    Pen {
        next: p.next + 8,
        waiting: v,
        count: n,
    }
}

// The number that fewer than eight bytes are.
#[tactic(auto, using(crate::proofs::PenWays::few_ways))]
fn few(text: &[u8]) -> u64
    requires { length text.now < 8 }
    ensures { digits (8 * length text.now) result ≡ bytes text.now }
{
    let mut x: u64 = 0;
    for &b in text {
        x = x * 256 + u64::from(b);
    }
    x
}

// A text, eight bytes at once as long as there are eight. No chunks of it: `whole` reads at a place.
#[tactic(auto, using(crate::proofs::PenWays::rest_ways))]
fn put_rest(payload: &mut [u8], p: Pen, text: &[u8]) -> Pen
    requires { Spare payload.old p (8 * length text.now) }
    ensures { Drawn payload.old payload.new p result (bytes text.now) }
{
    let n = text.len();
    let mut q = p;
    for i in 0..n / 8 {
        let x = whole(text, 8 * i);
        q = put_eight(payload, q, x);
    }
    let left = n % 8;
    if left == 0 {
        return q;
    }
    let x = few(&text[n - left..]);
    put_code(payload, q, (8 * left) as u64, x)
}

// Sixteen bytes of a text, by two words. The second is loaded when the first is stored: of two stores in a row the compiler
// makes sixteen.
#[tactic(auto, using(crate::proofs::PenWays::sixteen_ways))]
fn put_sixteen(payload: &mut [u8], p: Pen, text: &[u8], at: usize) -> Pen
    requires { (Spare payload.old p 128) × (at + 16 ≤ length text.now) }
    ensures { Drawn payload.old payload.new p result (bytes (take 16 (drop at text.now))) }
{
    let x = whole(text, at);
    let q = put_eight(payload, p, x);
    let y = whole(text, at + 8);
    put_eight(payload, q, y)
}

// A text, sixteen bytes at once as long as there are sixteen.
#[tactic(auto, using(crate::proofs::PenWays::text_pen_ways))]
fn put_text(payload: &mut [u8], p: Pen, text: &[u8]) -> Pen
    requires { Spare payload.old p (8 * length text.now) }
    ensures { Drawn payload.old payload.new p result (bytes text.now) }
{
    let n = text.len();
    let mut q = p;
    for i in 0..n / 16 {
        q = put_sixteen(payload, q, text, 16 * i);
    }
    put_rest(payload, q, &text[n - n % 16..])
}

// A text's count, then its bytes, as far as there are such.
#[tactic(auto, using(crate::proofs::PenWays::counted_ways))]
fn put_counted(payload: &mut [u8], p: Pen, texts: &[u8], y: u64) -> Pen
    requires { Spare payload.old p (length (text_bits texts.now y)) }
    ensures { Drawn payload.old payload.new p result (text_bits texts.now y) }
{
    let n = (y % 4096) as u32;
    let count = coded5(n);
    let q = put_code(payload, p, count.size as u64, count.bits);
    let from = ((y / 4096) as usize).min(texts.len());
    let m = (n as usize).min(texts.len() - from);
    put_text(payload, q, &texts[from..from + m])
}

// The days of a date and its milliseconds.
#[tactic(auto, using(crate::proofs::PenWays::date_pen_ways))]
fn put_date(payload: &mut [u8], p: Pen, y: u64) -> Pen
    requires { Spare payload.old p 64 }
    ensures { Drawn payload.old payload.new p result (date_bits y) }
{
    let q = put_code(payload, p, 32, y / 134217728);
    put_code(payload, q, 32, y % 134217728)
}

// A note. Most are a code of few bits.
#[tactic(auto, using(crate::proofs::PenWays::put_note_ways))]
fn put_note(payload: &mut [u8], p: Pen, texts: &[u8], x: u64) -> Pen
    requires { Spare payload.old p (length (note_bits texts.now x)) }
    ensures { Drawn payload.old payload.new p result (note_bits texts.now x) }
{
    if x < 140737488355328 {
        return put_code(payload, p, x >> 41, x);
    }
    if x < 9223372036854775808 {
        return put_counted(payload, p, texts, x - 140737488355328);
    }
    put_date(payload, p, x - 9223372036854775808)
}

// What waits, bit by bit where fewer than eight bytes are left, and the place past it.
#[tactic(auto, using(crate::proofs::PenWays::last_ways))]
fn put_last(payload: &mut [u8], p: Pen) -> Bits
    requires { Spare payload.old p 0 }
    ensures { Wrote payload.old payload.new (8 * p.next) (waits p) result.0 }
{
    let at = Bits((8 * p.next) as u32);
    let n = p.count as u32;
    let low = (p.waiting % 4294967296) as u32;
    if n <= 32 {
        return put(payload, at, n, low);
    }
    let high = (p.waiting >> 32) as u32;
    let q = put(payload, at, n - 32, high);
    put(payload, q, 32, low)
}

// What waits, and the place past it. Where eight bytes are left, what stands behind it is put once more with it.
#[tactic(auto, using(crate::proofs::PenWays::end_ways))]
fn end(payload: &mut [u8], p: Pen) -> Bits
    requires { Spare payload.old p 0 }
    ensures { Wrote payload.old payload.new (8 * p.next) (waits p) result.0 }
{
    let at = (8 * p.next) as u32;
    let n = p.count;
    if n == 0 {
        return Bits(at);
    }
    let next = p.next;
    if next + 8 <= payload.len() {
        let free = 64 - n;
        let behind = whole(payload, next) % (1u64 << free);
        put_whole(payload, next, (p.waiting << free) + behind);
        return Bits(at + (n as u32));
    }
    put_last(payload, p)
}

// The notes of the first n events, and the place past them.
#[tactic(auto, using(crate::proofs::PenWays::put_notes_ways))]
pub fn put_notes(payload: &mut [u8], at: Bits, texts: &[u8], notes: &[u64], n: usize) -> Bits
    requires { (Room payload.old at.0 (length (spells texts.now notes.now 0 n)))
        × (n ≤ length notes.now) }
    ensures { Wrote payload.old payload.new at.0
        (spells texts.now notes.now 0 n) result.0 }
{
    let mut p = begin(payload, at);
    for &x in &notes[..n] {
        if 0 < x {
            p = put_note(payload, p, texts, x);
        }
    }
    end(payload, p)
}
