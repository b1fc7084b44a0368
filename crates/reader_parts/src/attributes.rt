// What stands before the rows of an element, part by part: its attributes in the table's order, the value of one that is present, no value of one that
// is absent; then the value that its content is, if it is one. `with_value` alone calls `value`, at one place for both, so that the back end inlines it.
// Behind `lead_before_rows` are an attribute with its value, the attributes of a type, and both parts by a content that is given (`one`, `all`,
// `before_rows`): the same readings for who has a type's rows only, whatever the table is.
ghost use Rattle.std.specs.Prelude.{◌≡◌, true, ◌+◌, ◌*◌, ◌≤◌, ◌<◌, length};
ghost use Rattle.wire.specs.Bits.{bit_at};
ghost use Rattle.table.specs.First.Verdict.{right};
ghost use Rattle.table.specs.Valid.{verdict};
ghost use Rattle.table.specs.Words.{types_in};
ghost use Rattle.table.specs.Inside.{TypeInside, AttributeInside};
ghost use Rattle.table.specs.Rows.{table_of, first_of, count_of};
ghost use Rattle.table.specs.Views.{attribute_is, content_is};
ghost use Rattle.model.specs.Model as model;
ghost use Rattle.model.specs.Model.Plan.{done};
ghost use Rattle.reader_parts.specs.Out.{Reads, own_value};
ghost use Rattle.reader_parts.specs.Parts.{own_lead, part_at, before_rows, Leads, LeadNotes, Finishes};

use crate::storing::store;
use crate::values::value;
use crate::{Cursor, Step};
use numbers::kind;
use numbers::refusal::Fault;
use table::{Attribute, Content, inside, rows};
use value::reading::choice;
use wire::Bits;

// A value that is next: where the reading is, and the value's simple kind with its parameters. The cursor stands first, as it does in `Lead::Go`: where
// cases hold it at one place the back end keeps it in registers.
#[derive(Clone, Copy)]
pub struct Due {
    pub cursor: Cursor,
    pub simple: u32,
    pub x: u32,
    pub y: u32,
}

// What a part came to before its value: refused, and where; read, as it has none; or its value is next. One enum and no Result of it: with that and `?`,
// 2,048 events read cost 14 in 100 more (its guard is 1.31).
#[derive(Clone, Copy)]
pub enum Lead {
    Refuse(Fault<Bits>),
    Go(Cursor),
    Value(Due),
}

// The event of an attribute, with 1 where it is present; then its value is next.
#[tactic(auto, using(crate::proofs::AttributeWays::noted_ways))]
fn lead_attribute(events: &mut [u32], c: Cursor, a: Attribute, present: u32, next: Bits) -> Lead
    ensures { LeadNotes present next.0 (attribute_is a) c events.old result events.new }
{
    // No `?`, as it is on the way of every attribute: see `Lead`.
    let cursor = match store(events, c, kind::ATTRIBUTE, a.name, present, next) {
        Err(fault) => return Lead::Refuse(fault),
        Ok(cursor) => cursor,
    };
    if present == 0 {
        return Lead::Go(cursor);
    }
    Lead::Value(Due {
        cursor,
        simple: a.simple,
        x: a.b,
        y: a.c,
    })
}

// An attribute: of one that must be there no bits tell it; of one that may be absent a flag does.
fn lead_one(payload: &[u8], events: &mut [u32], wall: Bits, c: Cursor, a: Attribute) -> Lead
    requires { wall.0 ≤ 8 * length payload.now }
    ensures { Leads (model.attribute a.must (attribute_is a) done) (bit_at payload.now) wall.0 c
        events.old result events.new }
{
    let at = c.at;
    let must = a.must;
    if must {
        return lead_attribute(events, c, a, 1, at);
    }
    // No `.map_err(..)?`, for the same reason.
    match choice(payload, wall, at, 2) {
        Err(why) => Lead::Refuse(Fault { why, at }),
        Ok((flag, next)) => lead_attribute(events, c, a, flag, next),
    }
}

// The value that a content is, if it is one, is next.
fn own_value(c: Cursor, k: Content) -> Lead
    ensures { result ≡ own_lead c k }
{
    match k {
        Content::Empty => Lead::Go(c),
        Content::Simple(simple, x, y) => {
            let v = Due {
                cursor: c,
                simple,
                x,
                y,
            };
            Lead::Value(v)
        }
        Content::Particles(_) => Lead::Go(c),
    }
}

// A part of an element of type t, up to its value: the attribute of a row, or behind the last the value that the content is. The type's row is read again
// for that: held all the while it would be kept in memory.
fn before_value(
    table: &[u32],
    payload: &[u8],
    events: &mut [u32],
    wall: Bits,
    c: Cursor,
    t: u32,
    row: u32,
    more: bool,
) -> Lead
    requires { (wall.0 ≤ 8 * length payload.now)
        × (TypeInside table.now t)
        × (more ≡ true → AttributeInside table.now row) }
    ensures { Leads (part_at table.now t row more) (bit_at payload.now) wall.0 c
        events.old result events.new }
{
    if more {
        let a = inside::attribute(table, row);
        return lead_one(payload, events, wall, c, a);
    }
    let k = inside::content(table, t);
    own_value(c, k)
}

// What a part came to before its value, and that, if one is next.
fn with_value(payload: &[u8], events: &mut [u32], texts: &mut [u8], wall: Bits, lead: Lead) -> Step
    requires { wall.0 ≤ 8 * length payload.now }
    ensures { Finishes lead (bit_at payload.now) wall.0 events.old texts.old result events.new texts.new }
{
    match lead {
        Lead::Refuse(fault) => Err(fault),
        Lead::Go(cursor) => Ok(cursor),
        Lead::Value(due) => value(
            payload, events, texts, wall, due.cursor, due.simple, due.x, due.y,
        ),
    }
}

// A part, with its value.
fn part(
    table: &[u32],
    payload: &[u8],
    events: &mut [u32],
    texts: &mut [u8],
    wall: Bits,
    c: Cursor,
    t: u32,
    row: u32,
    more: bool,
) -> Step
    requires { (wall.0 ≤ 8 * length payload.now)
        × (TypeInside table.now t)
        × (more ≡ true → AttributeInside table.now row) }
    ensures { Reads (part_at table.now t row more) (bit_at payload.now) wall.0 c events.old
        texts.old result events.new texts.new }
{
    let lead = before_value(table, payload, events, wall, c, t, row, more);
    with_value(payload, events, texts, wall, lead)
}

// What stands before the rows of an element of type t: its attributes, then the value that its content is, if it is one. Not by `all`, as its reading of a
// right table tests no row, and calls `value` at one place for both.
pub fn lead_before_rows(
    table: &[u32],
    payload: &[u8],
    events: &mut [u32],
    texts: &mut [u8],
    wall: Bits,
    c: Cursor,
    t: u32,
) -> Step
    requires { (wall.0 ≤ 8 * length payload.now) × (verdict table.now ≡ right) × (t < types_in table.now) }
    ensures { Reads (before_rows table.now t) (bit_at payload.now) wall.0 c events.old
        texts.old result events.new texts.new }
{
    let rows = inside::span(table, t);
    let end = rows.first + rows.count;
    let mut cursor = c;
    // No `for` over `rows.first..end + 1`: with it 2,048 events read cost 5 in 100 more, a guide 3 (1.325 at a guard of 1.31; else 1.262).
    let mut row = rows.first;
    loop {
        let more = row < end;
        let read = part(table, payload, events, texts, wall, cursor, t, row, more);
        // No `?`, as it is on the way of every part: see `Lead`.
        let Ok(next) = read else {
            return read;
        };
        if !more {
            return Ok(next);
        }
        cursor = next;
        row += 1;
    }
}

// An attribute, with its value: of one that must be there no bits tell it; of one that may be absent a flag does.
pub fn one(
    payload: &[u8],
    events: &mut [u32],
    texts: &mut [u8],
    wall: Bits,
    c: Cursor,
    a: Attribute,
) -> Step
    requires { wall.0 ≤ 8 * length payload.now }
    ensures { Reads (model.attribute a.must (attribute_is a) done) (bit_at payload.now) wall.0 c
        events.old texts.old result events.new texts.new }
{
    let lead = lead_one(payload, events, wall, c, a);
    with_value(payload, events, texts, wall, lead)
}

// The attributes of type t.
pub fn all(
    table: &[u32],
    payload: &[u8],
    events: &mut [u32],
    texts: &mut [u8],
    wall: Bits,
    c: Cursor,
    t: u32,
) -> Step
    requires { (wall.0 ≤ 8 * length payload.now) × (first_of table.now t + count_of table.now t < 4294967296) }
    ensures { Reads (model.attributes ((table_of table.now).attributes t) done) (bit_at payload.now)
        wall.0 c events.old texts.old result events.new texts.new }
{
    let own = rows::span(table, t);
    let mut cursor = c;
    for row in own.first..own.first + own.count {
        let a = rows::attribute(table, row);
        cursor = one(payload, events, texts, wall, cursor, a)?;
    }
    Ok(cursor)
}

// What stands before the rows of an element of type t: its attributes, then the value that its content k is, if it is one.
pub fn before_rows(
    table: &[u32],
    payload: &[u8],
    events: &mut [u32],
    texts: &mut [u8],
    wall: Bits,
    c: Cursor,
    t: u32,
    k: Content,
) -> Step
    requires { (wall.0 ≤ 8 * length payload.now) × (first_of table.now t + count_of table.now t < 4294967296) }
    ensures { Reads (model.attributes ((table_of table.now).attributes t) (own_value (content_is k)))
        (bit_at payload.now) wall.0 c events.old texts.old result events.new texts.new }
{
    let cursor = all(table, payload, events, texts, wall, c, t)?;
    with_value(payload, events, texts, wall, own_value(cursor, k))
}
