// The cycle: particle rows are read one after another, an element's content where it has rows, and that reads particle rows. `depth` rows may
// still be opened; it falls at each row, so the cycle ends. The path goes down by value, copied where rows inside a row are read and pushed where
// what is inside an element holds rows; a success hands none back, as who called has its own.
//
// LLVM makes one function of all this, in which an element without rows is no call, and that is fragile. Each function has one call site. What
// takes the path has no other work before it, else a copy of the path for each element is not seen to be needless: so `enter` and `reached`, which have
// the work, take none, and a refusal is told in `particle`. `rows_in` is a function of its own so that `particle` calls itself only when
// the rest is in it: LLVM keeps a large function out of one that calls itself.
// Table, payload, buffers, mode and depth go down one by one and not as a struct, whose fields would be read from memory at each row.
// No `?` on the way of every row: with it and enums in a Result, 2,048 events read cost 14 in 100 more (its guard is 1.31).
ghost use Rattle.std.specs.Prelude.{◌≡◌, ◌∷◌, ◌+◌, ◌≤◌, ◌<◌, length};
ghost use Rattle.numbers.specs.Limit.{most_name, most_names};
ghost use Rattle.table.specs.First.Verdict.{right};
ghost use Rattle.table.specs.Valid.{verdict};
ghost use Rattle.table.specs.Words.{types_in, particles_in};
ghost use Rattle.table.specs.Views.{row_is};
ghost use Rattle.reader_parts.specs.Paths.{names_of};
ghost use Rattle.reader.specs.Meaning.{ReadyFor, Owned, KnownRows, Walks, row_for, list·, rest_by·};

use crate::entering::{Entered, Entry, enter};
use crate::groups::{Aim, Run, reached};
use crate::refusal_path::{Halt, tell};
use model::{Mode, NO_ROW};
use numbers::limit;
use numbers::refusal::{Fault, Refusal};
use reader_parts::ends::close;
use reader_parts::{Cursor, Path};
use table::{Particle, inside};
use wire::Bits;

// What is left of an element of a name that is entered and has rows: these, with so many rows less that may be opened as are open around them, and its
// End.
#[cycle(content_element_particle_rows_in)]
fn element(
    table: &[u32],
    payload: &[u8],
    events: &mut [u32],
    texts: &mut [u8],
    told: &mut [u16; limit::MOST_NAMES],
    mode: Mode,
    depth: u32,
    path: Path,
    name: u32,
    x: Entry,
) -> Result<Cursor, Halt>
    requires { (ReadyFor table.now payload.now mode x.extent.wall.0 (path.count + 1) depth)
        × (name ≤ most_name)
        × (KnownRows table.now 0 0 x.rows.first x.rows.step x.rows.count) }
    ensures { Walks (rest_by· table.now payload.now mode depth x) x.extent.wall.0
        x.rows.cursor (name ∷ names_of path) events.old texts.old result told.new
        events.new texts.new }
{
    let wall = x.extent.wall;
    let rows = x.rows;
    let opens = x.opens;
    if depth < opens {
        return Err(Halt::Untold(Fault {
            why: Refusal::Depth,
            at: rows.cursor.at,
        }));
    }
    let w = content(
        table,
        payload,
        events,
        texts,
        told,
        mode,
        depth - opens,
        wall,
        path,
        name,
        rows,
    );
    // No `?` here, nor at `close` (the head of this file says why).
    let Ok(e) = w else {
        return w;
    };
    match close(events, x.extent.coded, x.extent.body, wall, e) {
        Ok(f) => Ok(f),
        Err(fault) => Err(Halt::Untold(fault)),
    }
}

// The rows of an element of a name, read with the path that has the name. It is pushed here and not by a function, which would copy the path once more.
#[cycle(content_element_particle_rows_in)]
fn content(
    table: &[u32],
    payload: &[u8],
    events: &mut [u32],
    texts: &mut [u8],
    told: &mut [u16; limit::MOST_NAMES],
    mode: Mode,
    depth: u32,
    wall: Bits,
    mut path: Path,
    name: u32,
    x: Run,
) -> Result<Cursor, Halt>
    requires { (ReadyFor table.now payload.now mode wall.0 (path.count + 1) depth)
        × (path.count < most_names)
        × (name ≤ most_name)
        × (KnownRows table.now 0 0 x.first x.step x.count) }
    ensures { Walks (list· table.now payload.now mode 0 0 depth x.first x.step x.count)
        wall.0 x.cursor (name ∷ names_of path) events.old texts.old result told.new
        events.new texts.new }
{
    let n = path.count;
    path.names[n] = name as u16;
    path.count = n + 1;
    rows_in(
        table, payload, events, texts, told, mode, depth, wall, path, x,
    )
}

// The rows that a row holds.
#[cycle(content_element_particle_rows_in)]
fn rows_in(
    table: &[u32],
    payload: &[u8],
    events: &mut [u32],
    texts: &mut [u8],
    told: &mut [u16; limit::MOST_NAMES],
    mode: Mode,
    depth: u32,
    wall: Bits,
    path: Path,
    x: Run,
) -> Result<Cursor, Halt>
    requires { (ReadyFor table.now payload.now mode wall.0 path.count depth)
        × (KnownRows table.now 0 0 x.first x.step x.count) }
    ensures { Walks (list· table.now payload.now mode 0 0 depth x.first x.step x.count)
        wall.0 x.cursor (names_of path) events.old texts.old result told.new
        events.new texts.new }
{
    let c = x.cursor;
    particle(
        table, payload, events, texts, told, mode, depth, wall, c, path, 0, 0, x.first, x.step,
        x.count,
    )
}

// The row of a number; the root, of a name and a type, is of none.
#[tactic(auto, using(crate::proofs::Ways::row_ways))]
fn row_for(table: &[u32], name: u32, t: u32, i: u32) -> Particle
    requires { (verdict table.now ≡ right) × (Owned (particles_in table.now) i) }
    ensures { row_is result ≡ row_for table.now name t i }
{
    if i == NO_ROW {
        return Particle::Element(name, t, NO_ROW);
    }
    inside::particle(table, i)
}

// Particle rows, where some may still be opened: so many from one on, each a step past the one before. The root has a name and a type.
#[cycle(content_element_particle_rows_in)]
pub fn particle(
    table: &[u32],
    payload: &[u8],
    events: &mut [u32],
    texts: &mut [u8],
    told: &mut [u16; limit::MOST_NAMES],
    mode: Mode,
    depth: u32,
    wall: Bits,
    c: Cursor,
    path: Path,
    name: u32,
    t: u32,
    first: u32,
    step: u32,
    count: u32,
) -> Result<Cursor, Halt>
    requires { (ReadyFor table.now payload.now mode wall.0 path.count depth)
        × (KnownRows table.now name t first step count) }
    ensures { Walks (list· table.now payload.now mode name t depth first step count) wall.0 c
        (names_of path) events.old texts.old result told.new events.new
        texts.new }
{
    let mut cursor = c;
    let mut i = first;
    for j in 0..count {
        if depth == 0 {
            return Err(Halt::Untold(Fault {
                why: Refusal::Depth,
                at: cursor.at,
            }));
        }
        let d = depth - 1;
        let row = row_for(table, name, t, i);
        i += step;
        let g = reached(table, payload, events, d, wall, cursor, row);
        match g {
            Aim::Refuse(fault) => {
                return Err(Halt::Untold(fault));
            }
            Aim::Go(f) => {
                cursor = f;
            }
            Aim::Element(y) => {
                let x = y.name;
                let e = enter(
                    table, payload, events, texts, mode, wall, y.cursor, x, y.t, y.own,
                );
                match e {
                    Entered::Refuse(fault) => {
                        return Err(Halt::Untold(fault));
                    }
                    Entered::Full(fault) => {
                        return Err(tell(told, path, x, fault));
                    }
                    Entered::Done(f) => {
                        cursor = f;
                    }
                    Entered::In(z) => {
                        let w = element(
                            table, payload, events, texts, told, mode, y.depth, path, x, z,
                        );
                        match w {
                            Ok(f) => {
                                cursor = f;
                            }
                            Err(Halt::Untold(fault)) => {
                                return Err(tell(told, path, x, fault));
                            }
                            // Named case by case: the check does not tell from `Err(halt)` that it is not the case above.
                            Err(Halt::Told(fault, k)) => {
                                return Err(Halt::Told(fault, k));
                            }
                        }
                    }
                }
            }
            Aim::Rows(x) => {
                let w = rows_in(table, payload, events, texts, told, mode, d, wall, path, x);
                // No `?`, as above.
                let Ok(f) = w else {
                    return w;
                };
                cursor = f;
            }
        }
    }
    Ok(cursor)
}
