// Codes read from a place of a payload, below a wall.
ghost use Rattle.std.specs.Prelude.{ℕ, ◌≡◌, ◌+◌, ◌*◌, ◌≤◌, ◌<◌, length};
ghost use Rattle.wire.specs.Bits.{bit_at};
ghost use Rattle.wire.specs.Number.{is_short, second8_at, number5, number8, strict, read5, read8};
ghost use Rattle.wire.specs.Answer.{Tells, read_by, number_by, read_is, number_is, fixed32};
ghost use Rattle.wire.specs.Res.{got};
ghost use Rattle.wire.specs.Leading.{Leading, cut_groups};

use super::window::{cut, window};
use super::{Bits, Number, Read};
use numbers::refusal::Refusal;

// The bit at a place.
pub fn bit(s: &[u8], at: u32) -> u32
    requires { at < 8 * length s.now }
    ensures { result ≡ bit_at s.now at }
{
    let i = (at / 8) as usize;
    let k = 7 - at % 8;
    let x = s[i] as u32;
    (x >> k) % 2
}

// The number that w bits are; more than 32 are TOO_LARGE, as no word holds them.
pub fn fixed(s: &[u8], wall: Bits, at: Bits, w: u32) -> Read
    requires { wall.0 ≤ 8 * length s.now }
    ensures { read_is result ≡ fixed32 (bit_at s.now) wall.0 at.0 w }
{
    let a = at.0;
    let e = wall.0;
    if w > 32 {
        return Err(Refusal::TooLarge);
    }
    if e < a {
        return Err(Refusal::PastEnd);
    }
    if e - a < w {
        return Err(Refusal::PastEnd);
    }
    let v = cut(s, a, w) as u32;
    Ok((v, Bits(a + w)))
}

// The ones that eight bits begin with: the zeros that what is left to eight ones begins with.
fn leading(y: u64) -> u32
    requires { y < 256 }
    ensures { Leading y result }
{
    let x = (255 - y) as u32;
    u32::leading_zeros(x) - 24
}

// The groups after n ones and the zero with which a window begins.
fn cut5(x: u64, n: u32, next: Bits) -> Number
    requires { (0 < n) × (n < 8) }
    ensures { number_is (Ok result) ≡ got (cut_groups x n, next.0, is_short n (cut_groups x n)) }
{
    let m = n + 1;
    let value = ((x >> (57 - 5 * m)) % (1u64 << (4 * m))) as u32;
    Number {
        value,
        next,
        short: value >> (4 * n) != 0,
    }
}

// vluimsbf5, in shortest form or not: all of it lies in one window.
pub fn any5(s: &[u8], wall: Bits, at: Bits) -> Result<Number, Refusal>
    requires { wall.0 ≤ 8 * length s.now }
    ensures { number_is result ≡ number5 (bit_at s.now) wall.0 at.0 }
{
    let a = at.0;
    let e = wall.0;
    if e < a {
        return Err(Refusal::PastEnd);
    }
    let left = e - a;
    let x = window(s, a);
    if x < 72057594037927936 {
        if left < 5 {
            return Err(Refusal::PastEnd);
        }
        return Ok(Number {
            value: (x >> 52) as u32,
            next: Bits(a + 5),
            short: true,
        });
    }
    let n = leading(x >> 49);
    if 8 <= n {
        if left < 8 {
            return Err(Refusal::PastEnd);
        }
        return Err(Refusal::TooLarge);
    }
    if left < 5 * (n + 1) {
        return Err(Refusal::PastEnd);
    }
    Ok(cut5(x, n, Bits(a + 5 * (n + 1))))
}

// vluimsbf8 of at most two bytes, in shortest form or not.
pub fn any8(s: &[u8], wall: Bits, at: Bits) -> Result<Number, Refusal>
    requires { wall.0 ≤ 8 * length s.now }
    ensures { number_is result ≡ number8 (bit_at s.now) wall.0 at.0 }
{
    let (value, next) = fixed(s, wall, at, 8)?;
    if value < 128 {
        return Ok(Number {
            value,
            next,
            short: true,
        });
    }
    second8(s, wall, value - 128, next)
}

// The second byte of a vluimsbf8 whose first holds the seven bits x.
fn second8(s: &[u8], wall: Bits, x: u32, at: Bits) -> Result<Number, Refusal>
    requires { (wall.0 ≤ 8 * length s.now) × (x < 128) }
    ensures { number_is result ≡ second8_at (bit_at s.now) wall.0 x at.0 }
{
    let (y, next) = fixed(s, wall, at, 8)?;
    if 128 <= y {
        return Err(Refusal::TooLarge);
    }
    Ok(Number {
        value: x * 128 + y,
        next,
        short: 0 < x,
    })
}

// A number in shortest form; any other is NOT_SHORTEST. A refusal stays, be it told by name or by any number: `number` says which number a refusal has.
pub fn shortest<E: Copy + From<Refusal>>(n: Result<Number, E>) -> Result<(u32, Bits), E>
    ensures { (number : E → ℕ) → Tells number E.from_gives → read_by number result ≡ strict (number_by number n) }
{
    match n {
        Err(why) => Err(why),
        Ok(Number { value, next, short }) => {
            if short {
                return Ok((value, next));
            }
            Err(E::from(Refusal::NotShortest))
        }
    }
}

// vluimsbf5 in shortest form.
pub fn vlu5(s: &[u8], wall: Bits, at: Bits) -> Read
    requires { wall.0 ≤ 8 * length s.now }
    ensures { read_is result ≡ read5 (bit_at s.now) wall.0 at.0 }
{
    shortest(any5(s, wall, at))
}

// vluimsbf8 in shortest form.
pub fn vlu8(s: &[u8], wall: Bits, at: Bits) -> Read
    requires { wall.0 ≤ 8 * length s.now }
    ensures { read_is result ≡ read8 (bit_at s.now) wall.0 at.0 }
{
    shortest(any8(s, wall, at))
}
