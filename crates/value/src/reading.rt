// Codes and simple values read from a place of a payload, below a wall. Payload, wall and place are three arguments, as wire and docs/PROMISES.md have them.
ghost use Rattle.std.specs.Prelude.{◌≡◌, ◌+◌, ◌*◌, ◌≤◌, ◌<◌, length};
ghost use Rattle.numbers.specs.Limit.{most_text};
ghost use Rattle.wire.specs.Bits.{bit_at, num};
ghost use Rattle.numbers.specs.Refused.{answered};
ghost use Rattle.wire.specs.Answer.{read_is};
ghost use Rattle.utf8.specs.Text.{text_fault};
ghost use Rattle.value.specs.Code.{choice_at, number_at, signed_of, some_of, code_at, signed, some, shifted};
ghost use Rattle.value.specs.Simple.{text, bytes_at, text_of, words_of};
ghost use Rattle.value.specs.Kinds.{Raises};
ghost use Rattle.value.specs.Answer.{inner_is, code_is, form_is, value_is, ReadsSimple};

use super::{Code, Form, Inner, Value, dates};
use numbers::limit;
use numbers::refusal::Refusal;
use signed::{raised, with_sign};
use utf8::slanted;
use utf8::slanted::octet;
use wire::choices::width;
use wire::reading::{fixed, vlu5};
use wire::{Bits, Bytes, Read};

// One of n choices.
#[tactic(auto, using(crate::proofs::ReadWays::choice_ways))]
pub fn choice(s: &[u8], wall: Bits, at: Bits, n: u32) -> Read
    requires { wall.0 ≤ 8 * length s.now }
    ensures { read_is result ≡ choice_at (bit_at s.now) n wall.0 at.0 }
{
    let (v, next) = fixed(s, wall, at, width(n))?;
    if v < n {
        return Ok((v, next));
    }
    Err(Refusal::NoSuchCode)
}

// A number up to a limit.
#[tactic(auto, using(crate::proofs::ReadWays::number_ways))]
pub fn number(s: &[u8], wall: Bits, at: Bits, most: u32) -> Read
    requires { wall.0 ≤ 8 * length s.now }
    ensures { read_is result ≡ number_at (bit_at s.now) most wall.0 at.0 }
{
    let (v, next) = vlu5(s, wall, at)?;
    if v <= most {
        return Ok((v, next));
    }
    Err(Refusal::TooLarge)
}

// A code that another holds.
#[tactic(auto, using(crate::proofs::ReadWays::inner_ways))]
fn inner(s: &[u8], wall: Bits, at: Bits, i: Inner) -> Read
    requires { wall.0 ≤ 8 * length s.now }
    ensures { read_is result ≡ code_at (inner_is i) (bit_at s.now) wall.0 at.0 }
{
    match i {
        Inner::Choice(n) => choice(s, wall, at, n),
        Inner::Five(most) => number(s, wall, at, most),
    }
}

// The word of a sign and a magnitude: the limit is judged before minus zero.
#[tactic(auto, using(crate::proofs::ReadWays::join_ways))]
fn join(sign: u32, magnitude: u32, next: Bits) -> Read
    ensures { read_is result ≡ signed_of sign magnitude next.0 }
{
    if sign == 0 {
        if magnitude < 2147483648 {
            return Ok((with_sign(false, magnitude), next));
        }
        return Err(Refusal::TooLarge);
    }
    if 2147483648 < magnitude {
        return Err(Refusal::TooLarge);
    }
    if magnitude == 0 {
        return Err(Refusal::MinusZero);
    }
    Ok((with_sign(true, magnitude), next))
}

// A sign bit and a magnitude.
#[tactic(auto, using(crate::proofs::ReadWays::signed_ways))]
pub fn signed_number(s: &[u8], wall: Bits, at: Bits) -> Read
    requires { wall.0 ≤ 8 * length s.now }
    ensures { read_is result ≡ code_at signed (bit_at s.now) wall.0 at.0 }
{
    let (sign, p) = choice(s, wall, at, 2)?;
    let (magnitude, q) = vlu5(s, wall, p)?;
    join(sign, magnitude, q)
}

// None, or some and how many, where 0 names nothing.
#[tactic(auto, using(crate::proofs::ReadWays::some_ways))]
fn some_number(s: &[u8], wall: Bits, at: Bits, i: Inner) -> Read
    requires { wall.0 ≤ 8 * length s.now }
    ensures { read_is result ≡ code_at (some (inner_is i)) (bit_at s.now) wall.0 at.0 }
{
    let (flag, p) = choice(s, wall, at, 2)?;
    if flag == 0 {
        return Ok((0, p));
    }
    let (v, q) = inner(s, wall, p, i)?;
    if v == 0 {
        return Err(Refusal::NoSuchCode);
    }
    Ok((v, q))
}

// A number from lo on.
#[tactic(auto, using(crate::proofs::ReadWays::raise_ways))]
pub(crate) fn raise(lo: u32, r: Read) -> Read
    ensures { Raises lo r result }
{
    let (k, next) = r?;
    Ok((raised(lo, k), next))
}

// A word from lo on.
pub fn shifted_number(s: &[u8], wall: Bits, at: Bits, lo: u32, i: Inner) -> Read
    requires { wall.0 ≤ 8 * length s.now }
    ensures { read_is result ≡ code_at (shifted lo (inner_is i)) (bit_at s.now) wall.0 at.0 }
{
    raise(lo, inner(s, wall, at, i))
}

// One number by its code.
#[tactic(auto, using(crate::proofs::ReadWays::code_ways))]
pub fn code(s: &[u8], wall: Bits, at: Bits, c: Code) -> Read
    requires { wall.0 ≤ 8 * length s.now }
    ensures { read_is result ≡ code_at (code_is c) (bit_at s.now) wall.0 at.0 }
{
    match c {
        Code::Plain(i) => inner(s, wall, at, i),
        Code::Word => fixed(s, wall, at, 32),
        Code::Signed => signed_number(s, wall, at),
        Code::Some(i) => some_number(s, wall, at, i),
        Code::Shifted(lo, i) => shifted_number(s, wall, at, lo, i),
    }
}

// The byte that the 8 bits from a place are.
pub fn byte(s: &[u8], at: Bits) -> u8
    requires { (at.0 + 8 ≤ 8 * length s.now) × (at.0 + 8 < 4294967296) }
    ensures { result ≡ num (bit_at s.now) at.0 8 }
{
    let a = at.0;
    let i = (a / 8) as usize;
    octet(s, a % 8, i)
}

// What is wrong with the n bytes from a place.
pub fn text_fault(s: &[u8], at: Bits, n: Bytes) -> Result<(), Refusal>
    requires { (at.0 + 8 * n.0 ≤ 8 * length s.now) × (at.0 + 8 * n.0 < 4294967296) }
    ensures { answered result ≡ text_fault (bytes_at (bit_at s.now) at.0 n.0) }
{
    let a = at.0;
    let m = n.0 as usize;
    let from = (a / 8) as usize;
    let to = from + m;
    slanted::text_fault(s, from, to, a % 8)
}

// A text's bytes after its count: the wall is judged before what is wrong with them.
#[tactic(auto, using(crate::proofs::ReadWays::text_ways))]
fn text_after(s: &[u8], wall: Bits, n: u32, p: Bits) -> Result<Value, Refusal>
    requires { (wall.0 ≤ 8 * length s.now) × (n ≤ most_text) }
    ensures { value_is (bit_at s.now) result ≡ words_of text (text_of (bit_at s.now) wall.0 n p.0) }
{
    let e = wall.0;
    let from = p.0;
    if e < from {
        return Err(Refusal::PastEnd);
    }
    if e - from < 8 * n {
        return Err(Refusal::PastEnd);
    }
    let text = Bytes(n);
    text_fault(s, p, text)?;
    Ok(Value::Read {
        word: n,
        text,
        next: Bits(from + 8 * n),
    })
}

// A simple value by its form.
#[tactic(auto, using(crate::proofs::ReadWays::simple_ways))]
pub fn simple(s: &[u8], wall: Bits, at: Bits, f: Form) -> Result<Value, Refusal>
    requires { wall.0 ≤ 8 * length s.now }
    ensures { ReadsSimple s.now result (form_is f) wall.0 at.0 }
{
    match f {
        Form::Number(c) => {
            let (word, next) = code(s, wall, at, c)?;
            Ok(Value::word(word, next))
        }
        Form::Text => {
            let (n, p) = number(s, wall, at, limit::MOST_TEXT)?;
            text_after(s, wall, n, p)
        }
        Form::Dated(clocked) => dates::read(s, wall, at, clocked),
    }
}
