// What becomes of an element behind its head: its codes are read, then it is open, a Blank, or refused. An element that has nothing to choose
// from has no codes and goes no way of theirs.
ghost use Rattle.std.specs.Prelude.{◌≡◌, ◌*◌, ◌≤◌, length};
ghost use Rattle.wire.specs.Bits.{bit_at};
ghost use Rattle.table.specs.Rows.{held_of};
ghost use Rattle.model.specs.Model.{flag_of};
ghost use Rattle.model.specs.Modes.{row_choices, types_by, Choosing};
ghost use Rattle.reader_parts.specs.Opening.{Begins, OpensPlain, Opens};

use crate::codes::{codes, tell};
use crate::storing::{store, store_seldom};
use crate::{Cursor, Inner, Opened};
use model::Choices;
use numbers::kind;
use numbers::refusal::{Fault, Refusal};
use table::rows;
use wire::Bits;

// A Start's second word.
fn flag(coded: bool) -> u32
    ensures { result ≡ flag_of coded }
{
    u32::from(coded)
}

// An element of a type, held or not: Start, a Blank, or a refusal.
fn begin(
    events: &mut [u32],
    c: Cursor,
    name: u32,
    t: u32,
    held: bool,
    coded: bool,
    body: Bits,
    wall: Bits,
) -> Opened
    ensures { Begins name coded body.0 wall.0 t held c events.old result events.new }
{
    if held {
        return match store(events, c, kind::START, name, flag(coded), body) {
            Err(fault) => Opened::Refuse(fault),
            Ok(cursor) => Opened::In(Inner {
                cursor,
                effective: t,
            }),
        };
    }
    if coded {
        return match store_seldom(events, c, kind::BLANK, name, t, wall) {
            Err(fault) => Opened::Refuse(fault),
            Ok(cursor) => Opened::Blank(cursor),
        };
    }
    Opened::Refuse(Fault {
        why: Refusal::NotHeld,
        at: c.at,
    })
}

// An element that has nothing to choose from: codes of no bits, which have to stand before the wall.
fn open_plain(
    events: &mut [u32],
    c: Cursor,
    name: u32,
    t: u32,
    held: bool,
    coded: bool,
    body: Bits,
    wall: Bits,
) -> Opened
    ensures { OpensPlain name coded body.0 wall.0 t held c events.old result events.new }
{
    if wall.0 < body.0 {
        return Opened::Refuse(Fault {
            why: Refusal::PastEnd,
            at: body,
        });
    }
    begin(events, c, name, t, held, coded, body, wall)
}

// An element that may have something to choose from: its codes, and behind Start their event.
fn open_cast(
    table: &[u32],
    party: u32,
    payload: &[u8],
    events: &mut [u32],
    choices: Choices,
    c: Cursor,
    name: u32,
    t: u32,
    row: u32,
    coded: bool,
    body: Bits,
    wall: Bits,
) -> Opened
    requires { wall.0 ≤ 8 * length payload.now }
    ensures { Opens name coded body.0 wall.0 (types_by table.now (row_choices choices row) t row)
        (bit_at payload.now) (held_of table.now party) c events.old result
        events.new }
{
    let own = choices.of_row(row);
    match codes(table, payload, own, t, row, wall, body) {
        Err(why) => Opened::Refuse(Fault { why, at: body }),
        Ok(cast) => {
            let effective = cast.effective;
            let held = rows::held(table, party, effective);
            let opened = begin(events, c, name, effective, held, coded, body, wall);
            let Opened::In(x) = opened else {
                return opened;
            };
            match tell(events, x.cursor, cast) {
                Err(fault) => Opened::Full(fault),
                Ok(cursor) => Opened::In(Inner { cursor, effective }),
            }
        }
    }
}

// An element of a name, a type and a row, behind its head; whether its own type is held by the party is known, as who calls can look before it reads.
pub fn open(
    table: &[u32],
    party: u32,
    payload: &[u8],
    events: &mut [u32],
    choices: Choices,
    c: Cursor,
    name: u32,
    t: u32,
    row: u32,
    held: bool,
    coded: bool,
    body: Bits,
    wall: Bits,
) -> Opened
    requires { (wall.0 ≤ 8 * length payload.now) × (Choosing table.now choices) × (held ≡ held_of table.now party t) }
    ensures { Opens name coded body.0 wall.0 (types_by table.now (row_choices choices row) t row)
        (bit_at payload.now) (held_of table.now party) c events.old result
        events.new }
{
    if choices.any {
        return open_cast(
            table, party, payload, events, choices, c, name, t, row, coded, body, wall,
        );
    }
    open_plain(events, c, name, t, held, coded, body, wall)
}
