// Whole words of a payload: a stretch of its bits as one number, so that a code is cut out of it and not gathered bit by bit.
ghost use Rattle.std.specs.Prelude.{◌≡◌, ◌+◌, ◌*◌, ◌^◌, ◌≤◌, ◌<◌, length, get_or};
ghost use Rattle.wire.specs.Bits.{bit_at, num};
ghost use Rattle.wire.specs.Store.{Stored};

// A byte as a word.
fn wide(x: u8) -> u64
    ensures { (result ≡ x) × (result < 256) }
{
    x as u64
}

// The number that four bytes are, in the form that the back end loads at once.
fn four(s: &[u8], i: usize) -> u64
    requires { i + 4 ≤ length s.now }
    ensures { result ≡ num (bit_at s.now) (8 * i) 32 }
{
    let a = wide(s[i]);
    let b = wide(s[i + 1]);
    let c = wide(s[i + 2]);
    let d = wide(s[i + 3]);
    ((a * 256 + b) * 256 + c) * 256 + d
}

// The number that eight bytes are.
pub fn eight(s: &[u8], i: usize) -> u64
    requires { i + 8 ≤ length s.now }
    ensures { result ≡ num (bit_at s.now) (8 * i) 64 }
{
    let high = four(s, i);
    let low = four(s, i + 4);
    high * 4294967296 + low
}

// The byte at a place, 0 past the end.
fn byte(s: &[u8], i: usize) -> u64
    ensures { (result ≡ get_or s.now i 0) × (result < 256) }
{
    if i < s.len() {
        return wide(s[i]);
    }
    0
}

// What `eight` gives, of a slice of fewer than eight bytes: zeros follow the last one.
fn few(s: &[u8], i: usize) -> u64
    requires { i < 2 ^ 32 }
    ensures { result ≡ num (bit_at s.now) (8 * i) 64 }
{
    let mut v: u64 = 0;
    for k in 0..8 {
        v = v * 256 + byte(s, i + k);
    }
    v
}

// And near the end of any: the last eight bytes, shifted left past those before byte i.
fn last(s: &[u8], i: usize) -> u64
    requires { (i < 2 ^ 32) × (length s.now < i + 8) }
    ensures { result ≡ num (bit_at s.now) (8 * i) 64 }
{
    let n = s.len();
    if n <= i {
        return 0;
    }
    if n < 8 {
        return few(s, i);
    }
    eight(s, n - 8) << (8 * (i + 8 - n))
}

// The 57 bits from a place on, as many as eight bytes hold wherever it lies in the first. Those past the payload's end are 0.
pub fn window(s: &[u8], at: u32) -> u64
    ensures { result ≡ num (bit_at s.now) at 57 }
{
    let i = (at / 8) as usize;
    let r = at % 8;
    if i + 8 <= s.len() {
        return (eight(s, i) << r) >> 7;
    }
    (last(s, i) << r) >> 7
}

// The number that w bits are from a place on; those past the payload's end are 0. Not by `window`, so that `last` has two callers and the
// back end keeps it out of both.
pub fn cut(s: &[u8], at: u32, w: u32) -> u64
    requires { w ≤ 57 }
    ensures { result ≡ num (bit_at s.now) at w }
{
    let i = (at / 8) as usize;
    let r = at % 8;
    if i + 8 <= s.len() {
        return ((eight(s, i) << r) >> 7) >> (57 - w);
    }
    ((last(s, i) << r) >> 7) >> (57 - w)
}

// Eight bytes that are the number y, in the form that the back end stores at once.
pub fn store(buf: &mut [u8], i: usize, y: u64)
    requires { i + 8 ≤ length buf.old }
    ensures { Stored buf.old buf.new i 8 y }
{
    buf[i] = ((y >> 56) % 256) as u8;
    buf[i + 1] = ((y >> 48) % 256) as u8;
    buf[i + 2] = ((y >> 40) % 256) as u8;
    buf[i + 3] = ((y >> 32) % 256) as u8;
    buf[i + 4] = ((y >> 24) % 256) as u8;
    buf[i + 5] = ((y >> 16) % 256) as u8;
    buf[i + 6] = ((y >> 8) % 256) as u8;
    buf[i + 7] = (y % 256) as u8;
}
