// What a row comes to: an element, its own or the only one of the rows that it holds; or these rows, which are those of a sequence, the branch of a choice, a
// row that occurs. Nothing here opens a row.
ghost use Rattle.std.specs.Prelude.{◌≡◌};
ghost use Rattle.table.specs.First.Verdict.{right};
ghost use Rattle.table.specs.Valid.{verdict};
ghost use Rattle.writer_parts.specs.Walk.{Ready};
ghost use Rattle.writer.specs.Meaning.{Within};
ghost use Rattle.writer.specs.Groups.{Fits, Narrows, Aims};

use numbers::refusal::Fault;
use table::{Particle, inside};
use writer_parts::Spot;
use writer_parts::values::{count, pick};

// Where the walk is; and rows: so many from one on, each a step past the one before. The reader's stand over its own cursor, and what its rows come to has one
// case more: a type for both would be no plainer.
#[derive(Clone, Copy)]
pub struct Run {
    pub cursor: Spot,
    pub first: u32,
    pub step: u32,
    pub count: u32,
}

// An element that is next: where the walk is, its name, type and row, and how many rows may be opened inside it.
#[derive(Clone, Copy)]
pub struct Target {
    pub cursor: Spot,
    pub name: u32,
    pub t: u32,
    pub row: u32,
    pub depth: u32,
}

// What a row came to: an element; or rows, which may be none. No case of its own for no rows: all cases would pay for it.
#[derive(Clone, Copy)]
pub enum Aim {
    Element(Target),
    Rows(Run),
}

// Rows inside which so many may be opened: where they are one element it is walked with one row less, no call for the row around it.
fn narrowed(table: &[u32], depth: u32, x: Run) -> Aim
    requires { (verdict table.now ≡ right) × (Within table.now x.first x.step x.count) }
    ensures { Narrows table.now depth x result }
{
    let c = x.cursor;
    let n = x.count;
    if n == 1 {
        if 0 < depth {
            let p = inside::particle(table, x.first);
            if let Particle::Element(name, t, row) = p {
                let y = Target {
                    cursor: c,
                    name,
                    t,
                    row,
                    depth: depth - 1,
                };
                return Aim::Element(y);
            }
        }
    }
    Aim::Rows(x)
}

// What a row comes to, where so many rows may be opened inside it.
pub fn reached(
    table: &[u32],
    events: &[u32],
    texts: &[u8],
    notes: &mut [u64],
    depth: u32,
    c: Spot,
    row: Particle,
) -> Result<Aim, Fault<usize>>
    requires { (Ready events.now texts.now notes.old c)
        × (verdict table.now ≡ right)
        × (Fits table.now row) }
    ensures { Aims table.now events.now texts.now depth row c notes.old result
        notes.new }
{
    let at = c.event;
    match row {
        Particle::Element(name, t, own) => {
            let y = Target {
                cursor: c,
                name,
                t,
                row: own,
                depth,
            };
            Ok(Aim::Element(y))
        }
        Particle::Sequence(first, n) => {
            let x = Run {
                cursor: c,
                first,
                step: 1,
                count: n,
            };
            Ok(Aim::Rows(x))
        }
        // A refusal goes up as it is, as in cycle.rt.
        Particle::Choice(first, n) => match pick(events, texts, notes, c, n) {
            Err(fault) => Err(fault),
            Ok(cursor) => {
                let v = events[4 * at + 1];
                let x = Run {
                    cursor,
                    first: first + v,
                    step: 0,
                    count: 1,
                };
                Ok(narrowed(table, depth, x))
            }
        },
        Particle::Occurs(child, least, most) => match count(events, texts, notes, c, least, most) {
            Err(fault) => Err(fault),
            Ok(cursor) => {
                let v = events[4 * at + 1];
                let x = Run {
                    cursor,
                    first: child,
                    step: 0,
                    count: v,
                };
                Ok(narrowed(table, depth, x))
            }
        },
    }
}
