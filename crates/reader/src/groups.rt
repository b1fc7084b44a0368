// What a row comes to: the rows that it holds, which are those of a sequence, the branch of a choice, a row that occurs; or an element, its own or the only
// one of those rows. Nothing here opens a row, so the answers are for every path.
ghost use Rattle.std.specs.Prelude.{◌≡◌, ◌+◌, ◌*◌, ◌≤◌, ◌<◌, length};
ghost use Rattle.wire.specs.Bits.{bit_at};
ghost use Rattle.table.specs.First.Verdict.{right};
ghost use Rattle.table.specs.Valid.{verdict};
ghost use Rattle.table.specs.Words.{types_in, particles_in};
ghost use Rattle.table.specs.Views.{row_is};
ghost use Rattle.reader.specs.Meaning.{Fits, Holds, Lies};
ghost use Rattle.reader.specs.Groups.{run_by, Groups, Narrows, Aims};

use numbers::kind;
use numbers::refusal::{Fault, Refusal};
use reader_parts::Cursor;
use reader_parts::storing::store;
use table::{Particle, inside};
use value::forms::times;
use value::reading::{choice, code};
use wire::Bits;

// Where the reading is; and rows: so many from one on, each a step past the one before.
#[derive(Clone, Copy)]
pub struct Run {
    pub cursor: Cursor,
    pub first: u32,
    pub step: u32,
    pub count: u32,
}

// Rows, once the event of a branch or of a count is stored.
fn after_event(
    stored: Result<Cursor, Fault<Bits>>,
    first: u32,
    step: u32,
    count: u32,
) -> Result<Run, Fault<Bits>>
    ensures { result ≡ run_by stored first step count }
{
    // No `?`, as on the way of every row (see `Aim`).
    match stored {
        Err(fault) => Err(fault),
        Ok(cursor) => Ok(Run {
            cursor,
            first,
            step,
            count,
        }),
    }
}

// The rows of a row that is no element; an element holds none here.
pub fn rows_of(
    payload: &[u8],
    events: &mut [u32],
    wall: Bits,
    c: Cursor,
    row: Particle,
) -> Result<Run, Fault<Bits>>
    requires { (wall.0 ≤ 8 * length payload.now) × (Holds (row_is row)) }
    ensures { Groups (row_is row) (bit_at payload.now) wall.0 c events.old result events.new }
{
    let at = c.at;
    match row {
        Particle::Element(_, _, _) => after_event(Ok(c), 0, 0, 0),
        Particle::Sequence(first, n) => after_event(Ok(c), first, 1, n),
        Particle::Choice(first, n) => match choice(payload, wall, at, n) {
            Err(why) => Err(Fault { why, at }),
            Ok((v, next)) => after_event(store(events, c, kind::PICK, v, 0, next), first + v, 0, 1),
        },
        Particle::Occurs(child, least, most) => match code(payload, wall, at, times(least, most)) {
            Err(why) => Err(Fault { why, at }),
            Ok((v, next)) => after_event(store(events, c, kind::TIMES, v, 0, next), child, 0, v),
        },
    }
}

// An element that is next: where the reading is, its name, type and row, and how many rows may be opened inside it.
#[derive(Clone, Copy)]
pub struct Target {
    pub cursor: Cursor,
    pub name: u32,
    pub t: u32,
    pub own: u32,
    pub depth: u32,
}

// What a row came to: refused; read, as it holds none; an element; or rows.
// One enum and no Result of it: with that and `?`, 2,048 events read cost 14 in 100 more (its guard is 1.31).
#[derive(Clone, Copy)]
pub enum Aim {
    Refuse(Fault<Bits>),
    Go(Cursor),
    Element(Target),
    Rows(Run),
}

// Rows inside which so many may be opened: where they are one element it is read with one row less, no call for the row around it.
fn narrowed(table: &[u32], depth: u32, x: Run) -> Aim
    requires { (verdict table.now ≡ right) × (Lies (particles_in table.now) x.first x.step x.count) }
    ensures { Narrows table.now depth x result }
{
    let c = x.cursor;
    let n = x.count;
    if n == 0 {
        return Aim::Go(c);
    }
    if n == 1 {
        let p = inside::particle(table, x.first);
        if let Particle::Element(name, t, own) = p {
            if depth == 0 {
                let at = c.at;
                return Aim::Refuse(Fault {
                    why: Refusal::Depth,
                    at,
                });
            }
            let y = Target {
                cursor: c,
                name,
                t,
                own,
                depth: depth - 1,
            };
            return Aim::Element(y);
        }
    }
    Aim::Rows(x)
}

// What a row comes to, where so many rows may be opened inside it.
pub fn reached(
    table: &[u32],
    payload: &[u8],
    events: &mut [u32],
    depth: u32,
    wall: Bits,
    c: Cursor,
    row: Particle,
) -> Aim
    requires { (verdict table.now ≡ right)
        × (wall.0 ≤ 8 * length payload.now)
        × (Fits (types_in table.now) (particles_in table.now) (row_is row)) }
    ensures { Aims table.now payload.now depth (row_is row) wall.0 c events.old result
        events.new }
{
    match row {
        Particle::Element(name, t, own) => {
            let y = Target {
                cursor: c,
                name,
                t,
                own,
                depth,
            };
            Aim::Element(y)
        }
        _ => {
            match rows_of(payload, events, wall, c, row) {
                Err(fault) => Aim::Refuse(fault),
                Ok(x) => narrowed(table, depth, x),
            }
        }
    }
}
