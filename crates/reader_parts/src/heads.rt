// An element's head: its flag and its length, by the length coding.
ghost use Rattle.std.specs.Prelude.{◌*◌, ◌≤◌, length};
ghost use Rattle.wire.specs.Bits.{bit_at};
ghost use Rattle.reader_parts.specs.Heads.{Measured, Heads};

use crate::Head;
use model::Lengths;
use numbers::refusal::Refusal;
use value::reading::choice;
use wire::reading::any5;
use wire::{Bits, Number};

// TheLength, which need not be in shortest form, and the end that it says, which is not past the wall.
fn read_length(payload: &[u8], wall: Bits, at: Bits) -> Result<Head, Refusal>
    requires { wall.0 ≤ 8 * length payload.now }
    ensures { Measured (bit_at payload.now) wall.0 at.0 result }
{
    let w = wall.0;
    let Number {
        value: n,
        next: body,
        ..
    } = any5(payload, wall, at)?;
    let b = body.0;
    if w < b {
        return Err(Refusal::Length);
    }
    if w - b < n {
        return Err(Refusal::Length);
    }
    Ok(Head::Sized(body, Bits(b + n)))
}

// By a flag: none, or a length.
fn read_flag(payload: &[u8], wall: Bits, at: Bits) -> Result<Head, Refusal>
    requires { wall.0 ≤ 8 * length payload.now }
    ensures { Heads Lengths.Optional (bit_at payload.now) wall.0 at.0 result }
{
    let (flag, next) = choice(payload, wall, at, 2)?;
    if flag == 0 {
        return Ok(Head::Bare(next));
    }
    read_length(payload, wall, next)
}

// A head at a place, below a wall.
pub fn head(payload: &[u8], lengths: Lengths, wall: Bits, at: Bits) -> Result<Head, Refusal>
    requires { wall.0 ≤ 8 * length payload.now }
    ensures { Heads lengths (bit_at payload.now) wall.0 at.0 result }
{
    match lengths {
        Lengths::Never => Ok(Head::Bare(at)),
        Lengths::Optional => read_flag(payload, wall, at),
        Lengths::Always => read_length(payload, wall, at),
    }
}
