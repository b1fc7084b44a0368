// Codes written into a lent buffer at a place; no other bit changes.
ghost use Rattle.std.specs.Prelude.{◌≡◌, [], ◌∷◌, ◌+◌, ◌*◌, ◌/◌, ◌%◌, ◌^◌, ◌≤◌, ◌<◌, length};
ghost use Rattle.wire.specs.Bits.{bit_at, num, digits};
ghost use Rattle.wire.specs.Coded.{Codes};
ghost use Rattle.wire.specs.Number.{code5, code8, more};
ghost use Rattle.wire.specs.Put.{Put, Room, Wrote, Wrote8};

use super::window::{eight, store};
use super::{Bits, Coded, Read};
use numbers::refusal::Refusal;

// One bit.
fn put_bit(buf: &mut [u8], at: u32, x: u8)
    requires { (at < 8 * length buf.old) × (x < 2) }
    ensures { Put (bit_at buf.old) (bit_at buf.new) at (x ∷ []) }
{
    let q = (at / 8) as usize;
    let k = 7 - at % 8;
    let y = buf[q];
    let old = (y >> k) % 2;
    if old < x {
        buf[q] = y + (1u8 << k);
    } else if x < old {
        buf[q] = y - (1u8 << k);
    }
}

// Bit k of v, from its lowest.
fn digit(v: u64, k: u32) -> u8
    ensures { result ≡ v / 2 ^ k % 2 }
{
    if 64 <= k {
        return 0;
    }
    ((v >> k) % 2) as u8
}

// The w lowest bits of v, the highest first, one by one: where no word can be stored over them.
fn put_slow(buf: &mut [u8], at: u32, w: u32, v: u64)
    requires { Room buf.old at w }
    ensures { Put (bit_at buf.old) (bit_at buf.new) at (digits w v) }
{
    for i in 0..w {
        put_bit(buf, at + i, digit(v, w - i - 1));
    }
}

// Where eight bytes begin that hold the w bits from a place on.
fn base(n: usize, at: u32, w: u32) -> u32
    requires { (8 ≤ n) × (at + w ≤ 8 * n) × (w ≤ 40) }
    ensures { (result + 8 ≤ n) × (8 * result ≤ at) × (at + w ≤ 8 * result + 64) }
{
    let q = at / 8;
    let last = n - 8;
    if last < (q as usize) {
        return last as u32;
    }
    q
}

// The w lowest bits of v as the field of a word of eight bytes.
fn put_word(buf: &mut [u8], at: u32, w: u32, v: u64)
    requires { (8 ≤ length buf.old) × (at + w ≤ 8 * length buf.old) × (0 < w) × (w ≤ 40) }
    ensures { Put (bit_at buf.old) (bit_at buf.new) at (digits w v) }
{
    let q = base(buf.len(), at, w);
    let i = q as usize;
    let d = 64 - (at - 8 * q) - w;
    let x = eight(buf, i);
    let m = 1u64 << w;
    let old = ((x >> d) % m) << d;
    let new = (v % m) << d;
    store(buf, i, x - old + new);
}

// The w lowest bits of v, the highest first.
fn put_bits(buf: &mut [u8], at: u32, w: u32, v: u64)
    requires { Room buf.old at w }
    ensures { Put (bit_at buf.old) (bit_at buf.new) at (digits w v) }
{
    if w == 0 {
        return;
    }
    if 40 < w {
        put_slow(buf, at, w, v);
        return;
    }
    if buf.len() < 8 {
        put_slow(buf, at, w, v);
        return;
    }
    put_word(buf, at, w, v);
}

// The w lowest bits of v, the highest first; the place past them.
pub fn put(buf: &mut [u8], at: Bits, w: u32, v: u32) -> Bits
    requires { Room buf.old at.0 w }
    ensures { Wrote buf.old buf.new at.0 (digits w v) result.0 }
{
    let a = at.0;
    put_bits(buf, a, w, v as u64);
    Bits(a + w)
}

// How many groups of four bits v needs besides the first.
fn extra(v: u32) -> u32
    ensures { (result ≡ more 7 v) × (result ≤ 7) }
{
    if v < 16 {
        return 0;
    }
    if v < 256 {
        return 1;
    }
    if v < 4096 {
        return 2;
    }
    if v < 65536 {
        return 3;
    }
    if v < 1048576 {
        return 4;
    }
    if v < 16777216 {
        return 5;
    }
    if v < 268435456 {
        return 6;
    }
    7
}

// The bits of the shortest vluimsbf5 of v.
pub fn size5(v: u32) -> Bits
    ensures { result.0 ≡ length (code5 v) }
{
    let n = extra(v);
    Bits(5 * (n + 1))
}

// The shortest vluimsbf5 of v, as a number.
pub fn coded5(v: u32) -> Coded
    ensures { Codes result (code5 v) }
{
    let m = extra(v) + 1;
    let ones = (1u64 << m) - 2;
    Coded {
        size: 5 * m,
        bits: (ones << (4 * m)) + (v as u64),
    }
}

// The shortest vluimsbf5 of v; the place past it.
pub fn put5(buf: &mut [u8], at: Bits, v: u32) -> Bits
    requires { Room buf.old at.0 (length (code5 v)) }
    ensures { Wrote buf.old buf.new at.0 (code5 v) result.0 }
{
    let a = at.0;
    let m = extra(v) + 1;
    let ones = (1u64 << m) - 2;
    put_bits(buf, a, 5 * m, (ones << (4 * m)) + (v as u64));
    Bits(a + 5 * m)
}

// The shortest vluimsbf8 of v and the place past it; more than two bytes are OUTSIDE_ROW, and nothing is written.
pub fn put8(buf: &mut [u8], at: Bits, v: u32) -> Read
    requires { Room buf.old at.0 (length (code8 v)) }
    ensures { Wrote8 buf.old buf.new at.0 v result }
{
    if 16384 <= v {
        return Err(Refusal::OutsideRow);
    }
    if v < 128 {
        let p = put(buf, at, 8, v);
        return Ok((v, p));
    }
    let p = put(buf, at, 16, (128 + v / 128) * 256 + v % 128);
    Ok((v, p))
}

// The number that the eight bytes from byte i on are.
pub fn whole(s: &[u8], i: usize) -> u64
    requires { i + 8 ≤ length s.now }
    ensures { result ≡ num (bit_at s.now) (8 * i) 64 }
{
    eight(s, i)
}

// The 64 bits of v, the highest first, as the eight bytes from byte i on.
pub fn put_whole(buf: &mut [u8], i: usize, v: u64)
    requires { i + 8 ≤ length buf.old }
    ensures { Put (bit_at buf.old) (bit_at buf.new) (8 * i) (digits 64 v) }
{
    store(buf, i, v);
}
