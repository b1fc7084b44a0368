// An element is entered: its head, what becomes of it behind that, and where it is open what stands before its rows; one that has none is read
// to its end. Nothing here opens a row, so the answers are for every depth and every path.
ghost use Rattle.std.specs.Prelude.{◌≡◌, ◌≤◌, ◌<◌};
ghost use Rattle.table.specs.Words.{types_in, particles_in};
ghost use Rattle.table.specs.Rows.{table_of};
ghost use Rattle.table.specs.Views.{content_is, row_is};
ghost use Rattle.model.specs.Modes.{types_by, row_choices};
ghost use Rattle.reader.specs.Meaning.{ReadyFor, Owned, reach_of};
ghost use Rattle.reader.specs.Entering.{filled_by, rows_of, entry_of, Fills, Enters};

use crate::groups::Run;
use model::Mode;
use numbers::refusal::Fault;
use reader_parts::attributes::lead_before_rows;
use reader_parts::ends::close;
use reader_parts::heads::head;
use reader_parts::opening::open;
use reader_parts::{Cursor, Head, Opened};
use table::{Content, Particle, inside};
use wire::Bits;

// What a head says: whether a length is coded, where the body begins (told either way, so this is no Option), and the wall of what is inside.
#[derive(Clone, Copy)]
pub struct Extent {
    pub coded: bool,
    pub body: Bits,
    pub wall: Bits,
}

// An element that has rows, up to these: where the reading is (first, as in `Entered::Done`, so that the back end keeps it in registers) and the rows, how
// many rows are opened around them, and what its head says.
#[derive(Clone, Copy)]
pub struct Entry {
    pub rows: Run,
    pub opens: u32,
    pub extent: Extent,
}

// What an element came to: refused with its name not in the path, read to its end, refused with the name in the path, or it has rows.
// One enum and no Result of it: with that and `?`, 2,048 events read cost 14 in 100 more (its guard is 1.31).
#[derive(Clone, Copy)]
pub enum Entered {
    Refuse(Fault<Bits>),
    Done(Cursor),
    Full(Fault<Bits>),
    In(Entry),
}

// What a head below a wall says of an element.
#[tactic(auto, using(crate::proofs::EnterWays::reached_ways))]
fn extent_of(h: Head, wall: Bits) -> Extent
    ensures { result ≡ reach_of h wall }
{
    match h {
        Head::Bare(body) => Extent {
            coded: false,
            body,
            wall,
        },
        Head::Sized(body, wall) => Extent {
            coded: true,
            body,
            wall,
        },
    }
}

// What the last part of an element leaves of it.
#[tactic(auto, using(crate::proofs::EnterWays::filled_ways))]
fn filled(end: Result<Cursor, Fault<Bits>>) -> Entered
    ensures { result ≡ filled_by end }
{
    match end {
        Ok(c) => Entered::Done(c),
        Err(fault) => Entered::Full(fault),
    }
}

// What is left of an element with a content row of a number: this row, or where it is a sequence the rows of that, with the sequence open.
#[tactic(auto, using(crate::proofs::EnterWays::rows_ways))]
fn with_rows(cursor: Cursor, row: u32, p: Particle, extent: Extent) -> Entry
    ensures { result ≡ entry_of cursor (rows_of row (row_is p)) extent }
{
    let Particle::Sequence(first, count) = p else {
        return Entry {
            rows: Run {
                cursor,
                first: row,
                step: 0,
                count: 1,
            },
            opens: 0,
            extent,
        };
    };
    Entry {
        rows: Run {
            cursor,
            first,
            step: 1,
            count,
        },
        opens: 1,
        extent,
    }
}

// An open element of a type: what stands before its rows; its End, where it has none.
fn fill(
    table: &[u32],
    payload: &[u8],
    events: &mut [u32],
    texts: &mut [u8],
    mode: Mode,
    c: Cursor,
    t: u32,
    extent: Extent,
) -> Entered
    requires { (ReadyFor table.now payload.now mode extent.wall.0 0 0) × (t < types_in table.now) }
    ensures { Fills table.now payload.now mode t extent.coded extent.body.0 extent.wall.0 c
        events.old texts.old result events.new texts.new }
{
    let s = lead_before_rows(table, payload, events, texts, extent.wall, c, t);
    let Ok(d) = s else {
        return filled(s);
    };
    let k = inside::content(table, t);
    let Content::Particles(row) = k else {
        return filled(close(events, extent.coded, extent.body, extent.wall, d));
    };
    let p = inside::particle(table, row);
    let x = with_rows(d, row, p, extent);
    Entered::In(x)
}

// An element of a name, a type and a row.
pub fn enter(
    table: &[u32],
    payload: &[u8],
    events: &mut [u32],
    texts: &mut [u8],
    mode: Mode,
    wall: Bits,
    c: Cursor,
    name: u32,
    t: u32,
    row: u32,
) -> Entered
    requires { (ReadyFor table.now payload.now mode wall.0 0 0)
        × (t < types_in table.now)
        × (Owned (particles_in table.now) row) }
    ensures { Enters table.now payload.now mode name
        (types_by table.now (row_choices mode.choices row) t row) wall.0 c events.old
        texts.old result events.new texts.new }
{
    let at = c.at;
    let party = mode.party;
    let held = inside::held(table, party, t);
    let lengths = mode.lengths;
    match head(payload, lengths, wall, at) {
        Err(why) => Entered::Refuse(Fault { why, at }),
        Ok(h) => {
            let extent = extent_of(h, wall);
            let choices = mode.choices;
            let o = open(
                table,
                party,
                payload,
                events,
                choices,
                c,
                name,
                t,
                row,
                held,
                extent.coded,
                extent.body,
                extent.wall,
            );
            match o {
                Opened::Refuse(fault) => Entered::Refuse(fault),
                Opened::Blank(d) => Entered::Done(d),
                Opened::Full(fault) => Entered::Full(fault),
                Opened::In(y) => fill(
                    table,
                    payload,
                    events,
                    texts,
                    mode,
                    y.cursor,
                    y.effective,
                    extent,
                ),
            }
        }
    }
}
