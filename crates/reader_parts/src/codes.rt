// An element's codes, behind its head: which substitute stands for it, which derived type it has; and the event that tells them.
ghost use Rattle.std.specs.Prelude.{◌≡◌, ◌*◌, ◌≤◌, ◌<◌, length};
ghost use Rattle.wire.specs.Bits.{bit_at};
ghost use Rattle.wire.specs.Answer.{read_is};
ghost use Rattle.value.specs.Code.{code_at};
ghost use Rattle.value.specs.Simple.{one_of};
ghost use Rattle.model.specs.Modes.{types_by};
ghost use Rattle.reader_parts.specs.Codes.{sends_of, Picks, Says, Tells};

use crate::storing::store_seldom;
use crate::{Cast, Coded, Cursor, Step};
use model::Choices;
use numbers::kind;
use numbers::refusal::Refusal;
use table::{TypeList, rows};
use value::reading::choice;
use wire::{Bits, Read};

// A type that was picked, its number in the list (from 1, or 0 where it is not of the list) and the place past its code; or why it is refused.
type Picked = Result<(u32, u32, Bits), Refusal>;

// None, or one of n.
fn one_of(payload: &[u8], wall: Bits, at: Bits, n: u32) -> Read
    requires { wall.0 ≤ 8 * length payload.now }
    ensures { read_is result ≡ code_at (one_of n) (bit_at payload.now) wall.0 at.0 }
{
    if n == 0 {
        return choice(payload, wall, at, 1);
    }
    let (flag, p) = choice(payload, wall, at, 2)?;
    if flag == 0 {
        return Ok((0, p));
    }
    let (v, q) = choice(payload, wall, p, n)?;
    Ok((v + 1, q))
}

// A type, or one of a list in its place.
fn pick(table: &[u32], payload: &[u8], wall: Bits, at: Bits, own: u32, list: TypeList) -> Picked
    requires { (wall.0 ≤ 8 * length payload.now) × (list.first < 4398046511104) }
    ensures { Picks table.now (bit_at payload.now) wall.0 at.0 own list result }
{
    let (k, next) = one_of(payload, wall, at, list.count)?;
    if k == 0 {
        return Ok((own, 0, next));
    }
    Ok((rows::listed(table, list, k - 1), k, next))
}

// A flag bit is sent where there is something to choose from.
fn sends(swaps: u32, casts: u32) -> bool
    ensures { result ≡ sends_of swaps casts }
{
    0 < swaps || 0 < casts
}

// An element's codes, from a place on: which substitute, then which derived type of the type that it then has.
pub fn codes(
    table: &[u32],
    payload: &[u8],
    choices: Choices,
    t: u32,
    row: u32,
    wall: Bits,
    at: Bits,
) -> Coded
    requires { wall.0 ≤ 8 * length payload.now }
    ensures { Says (types_by table.now choices t row) (bit_at payload.now) wall.0 at.0 result }
{
    let swaps = choices.substitutes_of(table, row);
    let (own, substitute, p) = pick(table, payload, wall, at, t, swaps)?;
    let casts = choices.derived_of(table, own);
    let (effective, _, next) = pick(table, payload, wall, p, own, casts)?;
    let sent = sends(swaps.count, casts.count);
    Ok(Cast {
        effective,
        substitute,
        next,
        sent,
    })
}

// The event of an element's codes, where a flag bit was sent.
pub fn tell(events: &mut [u32], c: Cursor, x: Cast) -> Step
    ensures { Tells x c events.old result events.new }
{
    let next = x.next;
    if x.sent {
        return store_seldom(events, c, kind::CAST, x.effective, x.substitute, next);
    }
    Ok(Cursor { at: next, ..c })
}
