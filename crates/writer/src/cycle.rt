// The cycle: particle rows are walked one after another, an element's content where it has rows, and that walks particle rows. `depth` rows may
// still be opened; it falls at each row, so the cycle ends.
//
// LLVM makes one function of all this, in which an element without rows is no call, and that is fragile. Each large function has one call site. The
// calls back to `particle` stand in `content` and `rows_in`, which do nothing else: where a slice's address is taken beside other work, every row copies it.
// A refusal goes up as it is, and not by `?`, which makes it anew at each level: 4 to 8 in 100 more instructions (the guide written, 2,048 events written).
ghost use Rattle.std.specs.Prelude.{◌≡◌, ◌<◌, ◌≤◌};
ghost use Rattle.numbers.specs.Limit.{most_open};
ghost use Rattle.table.specs.First.Verdict.{right};
ghost use Rattle.table.specs.Valid.{verdict};
ghost use Rattle.table.specs.Words.{types_in, particles_in};
ghost use Rattle.model.specs.Modes.{types_by, row_choices};
ghost use Rattle.writer_parts.specs.Walk.{Ready, Walks};
ghost use Rattle.writer.specs.Meaning.{RightFor, Within, Owned, Known, Rounds, Given};
ghost use Rattle.writer.specs.Meaning.{deep_at, element·, particle·, rounds·, row·, list·};

use crate::groups::{Aim, reached};
use model::{Mode, NO_ROW};
use numbers::refusal::{Fault, Refusal};
use table::{Content, Particle, inside};
use writer_parts::attributes::before_rows;
use writer_parts::codes::note_codes;
use writer_parts::ends::close;
use writer_parts::heads::unlike_start;
use writer_parts::{Judgement, Spot};

// An element of a name, a row and a type: its Start, its codes, what is inside it by its effective type, its End.
#[cycle(content_element_one_row_particle_rows_in)]
fn element(
    table: &[u32],
    events: &[u32],
    texts: &[u8],
    notes: &mut [u64],
    mode: Mode,
    depth: u32,
    c: Spot,
    name: u32,
    t: u32,
    row: u32,
) -> Judgement
    requires { (Ready events.now texts.now notes.old c)
        × (RightFor table.now mode)
        × (Owned table.now row)
        × (t < types_in table.now)
        × (depth ≤ most_open) }
    ensures { Walks events.now texts.now
        (element· table.now mode depth name
        (types_by table.now (row_choices mode.choices row) t row)) c
        notes.old result notes.new }
{
    let at = c.event;
    let lengths = mode.lengths;
    if let Err(why) = unlike_start(events, lengths, at, name) {
        return Err(Fault { why, at });
    }
    let q = events[4 * at + 2];
    let past = at + 1;
    let o = Spot {
        event: past,
        used: c.used,
        bits: c.bits,
    };
    let choices = mode.choices.of_row(row);
    let mut f = o;
    let mut ty = t;
    if choices.any {
        match note_codes(table, events, texts, notes, choices, o, t, row) {
            Err(fault) => {
                return Err(fault);
            }
            Ok((u, g)) => {
                ty = u;
                f = g;
            }
        }
    }
    let party = mode.party;
    let held = inside::held(table, party, ty);
    if !held {
        let why = Refusal::NotHeld;
        return Err(Fault { why, at });
    }
    let r = before_rows(table, events, texts, notes, f, ty);
    let Ok(e) = r else {
        return r;
    };
    let mut end = e;
    if let Content::Particles(i) = inside::content(table, ty) {
        let s = content(table, events, texts, notes, mode, depth, e, i);
        let Ok(g) = s else {
            return s;
        };
        end = g;
    }
    close(events, texts, notes, lengths, q, c, end)
}

// The content row of an element; where it is a sequence, the rows of that with one row less, no call for the sequence.
#[cycle(content_element_one_row_particle_rows_in)]
fn content(
    table: &[u32],
    events: &[u32],
    texts: &[u8],
    notes: &mut [u64],
    mode: Mode,
    depth: u32,
    c: Spot,
    i: u32,
) -> Judgement
    requires { (Ready events.now texts.now notes.old c)
        × (RightFor table.now mode)
        × (i < particles_in table.now)
        × (depth ≤ most_open) }
    ensures { Walks events.now texts.now (particle· table.now mode depth i) c
        notes.old result notes.new }
{
    if 0 < depth {
        let p = inside::particle(table, i);
        if let Particle::Sequence(first, n) = p {
            let d = depth - 1;
            return particle(table, events, texts, notes, mode, d, c, 0, 0, first, 1, n);
        }
    }
    particle(table, events, texts, notes, mode, depth, c, 0, 0, i, 0, 1)
}

// The rows that a row holds: so many from one on, each a step past the one before, 1 for a sequence, 0 for a branch and for the child of an occurs row.
#[cycle(content_element_one_row_particle_rows_in)]
fn rows_in(
    table: &[u32],
    events: &[u32],
    texts: &[u8],
    notes: &mut [u64],
    mode: Mode,
    depth: u32,
    c: Spot,
    first: u32,
    step: u32,
    count: u32,
) -> Judgement
    requires { (Ready events.now texts.now notes.old c)
        × (RightFor table.now mode)
        × (Within table.now first step count)
        × (depth ≤ most_open) }
    ensures { Walks events.now texts.now (rounds· table.now mode depth first step count) c
        notes.old result notes.new }
{
    particle(
        table, events, texts, notes, mode, depth, c, 0, 0, first, step, count,
    )
}

// The row of a number; the root, of a name and a type, is of none.
fn row_for(table: &[u32], name: u32, t: u32, i: u32) -> Particle
    requires { (verdict table.now ≡ right) × (Known table.now t i) }
    ensures { Given table.now name t i result }
{
    if i == NO_ROW {
        return Particle::Element(name, t, NO_ROW);
    }
    inside::particle(table, i)
}

// Depth, where an event is left.
fn too_deep(events: &[u32], at: usize) -> Fault<usize>
    ensures { result ≡ deep_at events.now at }
{
    if at < events.len() / 4 {
        let why = Refusal::Depth;
        return Fault { why, at };
    }
    let why = Refusal::NoReading;
    Fault { why, at }
}

// The row of a number, where one may still be opened.
#[cycle(content_element_one_row_particle_rows_in)]
fn one_row(
    table: &[u32],
    events: &[u32],
    texts: &[u8],
    notes: &mut [u64],
    mode: Mode,
    depth: u32,
    c: Spot,
    name: u32,
    t: u32,
    i: u32,
) -> Judgement
    requires { (Ready events.now texts.now notes.old c)
        × (RightFor table.now mode)
        × (Known table.now t i)
        × (depth ≤ most_open) }
    ensures { Walks events.now texts.now (row· table.now mode depth name t i) c
        notes.old result notes.new }
{
    if depth == 0 {
        return Err(too_deep(events, c.event));
    }
    let d = depth - 1;
    let row = row_for(table, name, t, i);
    match reached(table, events, texts, notes, d, c, row) {
        Ok(Aim::Element(x)) => {
            let e = x.cursor;
            element(
                table, events, texts, notes, mode, x.depth, e, x.name, x.t, x.row,
            )
        }
        Ok(Aim::Rows(x)) => {
            let e = x.cursor;
            let n = x.count;
            if n == 0 {
                return Ok(e);
            }
            rows_in(table, events, texts, notes, mode, d, e, x.first, x.step, n)
        }
        Err(fault) => Err(fault),
    }
}

// Particle rows, so many from one on, each a step past the one before. The root has a name and a type.
#[cycle(content_element_one_row_particle_rows_in)]
pub fn particle(
    table: &[u32],
    events: &[u32],
    texts: &[u8],
    notes: &mut [u64],
    mode: Mode,
    depth: u32,
    c: Spot,
    name: u32,
    t: u32,
    first: u32,
    step: u32,
    count: u32,
) -> Judgement
    requires { (Ready events.now texts.now notes.old c)
        × (RightFor table.now mode)
        × (Rounds table.now t first step count)
        × (depth ≤ most_open) }
    ensures { Walks events.now texts.now
        (list· table.now mode depth name t first step count) c notes.old result notes.new }
{
    let mut cursor = c;
    let mut i = first;
    for j in 0..count {
        let r = one_row(table, events, texts, notes, mode, depth, cursor, name, t, i);
        let Ok(e) = r else {
            return r;
        };
        cursor = e;
        // By a step of 0 or 1: `first + step * j` would be a multiplication a row.
        i += step;
    }
    Ok(cursor)
}
