// How many bits a value takes in its code, and a text's bytes into a lent buffer at a place.
ghost use Rattle.std.specs.Prelude.{◌≡◌, ◌+◌, ◌*◌, ◌≤◌, ◌<◌, length};
ghost use Rattle.wire.specs.Put.{Room, Wrote};
ghost use Rattle.value.specs.Code.{size_out, some};
ghost use Rattle.value.specs.Simple.{bytes};
ghost use Rattle.value.specs.Answer.{inner_is, code_is, size_is, Under};

use super::octets::{lay, lay_slanted};
use super::{Code, Inner};
use numbers::refusal::Refusal;
use signed::{lowered, magnitude};
use wire::Bits;
use wire::choices::width;
use wire::writing::size5;

// The size of a code that another holds, or OUTSIDE_ROW.
#[tactic(auto, using(crate::proofs::WriteWays::inner_size_ways))]
fn inner_size(i: Inner, v: u32) -> Result<Bits, Refusal>
    ensures { (size_is result ≡ size_out (inner_is i) v) × Under 40 result }
{
    match i {
        Inner::Choice(n) => {
            if v < n {
                return Ok(Bits(width(n)));
            }
            Err(Refusal::OutsideRow)
        }
        Inner::Five(most) => {
            if v <= most {
                return Ok(size5(v));
            }
            Err(Refusal::OutsideRow)
        }
    }
}

// The size of none, or of some and how many.
#[tactic(auto, using(crate::proofs::WriteWays::some_size_ways))]
fn some_size(i: Inner, v: u32) -> Result<Bits, Refusal>
    ensures { (size_is result ≡ size_out (some (inner_is i)) v) × Under 41 result }
{
    if v == 0 {
        return Ok(Bits(1));
    }
    let n = inner_size(i, v)?;
    Ok(Bits(n.0 + 1))
}

// How many bits a code takes for a value, or OUTSIDE_ROW.
#[tactic(auto, using(crate::proofs::WriteWays::size_ways))]
pub fn size(c: Code, v: u32) -> Result<Bits, Refusal>
    ensures { (size_is result ≡ size_out (code_is c) v) × Under 41 result }
{
    match c {
        Code::Plain(i) => inner_size(i, v),
        Code::Word => Ok(Bits(32)),
        Code::Signed => Ok(Bits(size5(magnitude(v).magnitude).0 + 1)),
        Code::Some(i) => some_size(i, v),
        Code::Shifted(lo, i) => inner_size(i, lowered(lo, v)),
    }
}

// Bytes, and the place past them.
pub fn put_bytes(buf: &mut [u8], at: Bits, text: &[u8]) -> Bits
    requires { Room buf.old at.0 (8 * length text.now) }
    ensures { Wrote buf.old buf.new at.0 (bytes text.now) result.0 }
{
    let a = at.0;
    let n = text.len() as u32;
    let i = (a / 8) as usize;
    let k = a % 8;
    let next = Bits(a + 8 * n);
    if k == 0 {
        lay(buf, i, text);
        return next;
    }
    lay_slanted(buf, i, k, text);
    next
}
