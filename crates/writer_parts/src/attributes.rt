// What stands before an element's rows: its attributes in the table's order, with the value of one that is present, then its own value. They go
// through one loop as slots, so that `value` has one call site, where LLVM takes it in.
ghost use Rattle.std.specs.Prelude.{◌≡◌, false, ◌+◌, ◌≤◌, ◌<◌};
ghost use Rattle.table.specs.First.Verdict.{right};
ghost use Rattle.table.specs.Valid.{verdict};
ghost use Rattle.table.specs.Words.{types_in, attributes_in};
ghost use Rattle.writer_parts.specs.Walk.{Ready, Walks, alone};
ghost use Rattle.writer_parts.specs.Parts.{flag_item, slot·, values·, Slots, Marks};

use crate::judging::{keep, of_kind};
use crate::values::value;
use crate::{Judgement, Spot};
use numbers::kind;
use numbers::refusal::{Fault, Refusal};
use table::{Content, inside};

// An attribute with a flag event, of a name; or the type's own value, which has no flag. It is valued where a value may come.
#[derive(Clone, Copy)]
pub struct Slot {
    pub flagged: bool,
    pub name: u32,
    pub must: bool,
    pub valued: bool,
    pub simple: u32,
    pub b: u32,
    pub c: u32,
}

// A slot's flag judged: its value comes next, or none.
#[derive(Clone, Copy)]
pub enum Marked {
    Value(Spot),
    Nothing(Spot),
}

// The flag event of an attribute of a name: of one that must be there it takes no bits.
#[tactic(auto, using(crate::proofs::AttributeWays::note_attribute_ways))]
fn note_attribute(
    events: &[u32],
    texts: &[u8],
    notes: &mut [u64],
    c: Spot,
    name: u32,
    must: bool,
) -> Judgement
    requires { Ready events.now texts.now notes.old c }
    ensures { Walks events.now texts.now (alone (flag_item must name)) c notes.old result
        notes.new }
{
    let at = c.event;
    let e = of_kind(events, at, kind::ATTRIBUTE).map_err(|why| Fault { why, at })?;
    let q = e.q;
    if e.p != name {
        return Err(Fault {
            why: Refusal::NoReading,
            at,
        });
    }
    if 1 < q {
        return Err(Fault {
            why: Refusal::NoReading,
            at,
        });
    }
    if must {
        if q == 0 {
            return Err(Fault {
                why: Refusal::NoReading,
                at,
            });
        }
        keep(notes, at, 0);
        return Ok(Spot { event: at + 1, ..c });
    }
    keep(notes, at, 2199023255552 + (q as u64));
    Ok(Spot {
        event: at + 1,
        bits: c.bits + 1,
        ..c
    })
}

// A type's own value where it has none.
fn no_value() -> Slot
    ensures { (result.flagged ≡ false) × (result.valued ≡ false) }
{
    Slot {
        flagged: false,
        name: 0,
        must: false,
        valued: false,
        simple: 0,
        b: 0,
        c: 0,
    }
}

// The slot i of type t, which has n attribute rows from first on: the last one is its own value.
#[tactic(auto, using(crate::proofs::AttributeWays::slot_ways))]
fn slot_at(table: &[u32], t: u32, first: u32, n: u32, i: u32) -> Slot
    requires { (verdict table.now ≡ right) × (t < types_in table.now) × (first + n ≤ attributes_in table.now) }
    ensures { Slots table.now t first n i result }
{
    if i < n {
        let a = inside::attribute(table, first + i);
        return Slot {
            flagged: true,
            name: a.name,
            must: a.must,
            valued: true,
            simple: a.simple,
            b: a.b,
            c: a.c,
        };
    }
    match inside::content(table, t) {
        Content::Empty => no_value(),
        Content::Simple(simple, b, c) => Slot {
            flagged: false,
            name: 0,
            must: false,
            valued: true,
            simple,
            b,
            c,
        },
        Content::Particles(_) => no_value(),
    }
}

// A slot up to its value: its flag, where it has one.
#[tactic(auto, using(crate::proofs::AttributeWays::before_value_ways))]
fn before_value(
    events: &[u32],
    texts: &[u8],
    notes: &mut [u64],
    c: Spot,
    s: Slot,
) -> Result<Marked, Fault<usize>>
    requires { Ready events.now texts.now notes.old c }
    ensures { Marks events.now texts.now s c notes.old result notes.new }
{
    if s.flagged {
        let at = c.event;
        // No `?` here and below: with three of them 2,048 events written cost 9 in 100 more.
        return match note_attribute(events, texts, notes, c, s.name, s.must) {
            Err(fault) => Err(fault),
            Ok(e) => {
                let q = events[4 * at + 2];
                if q == 1 {
                    return Ok(Marked::Value(e));
                }
                Ok(Marked::Nothing(e))
            }
        };
    }
    if s.valued {
        return Ok(Marked::Value(c));
    }
    Ok(Marked::Nothing(c))
}

// A slot: its flag, then its value if it is there.
#[tactic(auto, using(crate::proofs::AttributeWays::part_ways))]
fn part(events: &[u32], texts: &[u8], notes: &mut [u64], c: Spot, s: Slot) -> Judgement
    requires { Ready events.now texts.now notes.old c }
    ensures { Walks events.now texts.now (slot· s) c notes.old result notes.new }
{
    match before_value(events, texts, notes, c, s) {
        Err(fault) => Err(fault),
        Ok(Marked::Nothing(e)) => Ok(e),
        Ok(Marked::Value(e)) => value(events, texts, notes, e, s.simple, s.b, s.c),
    }
}

// What stands before the rows of an element of type t: its attributes, then its own value.
#[tactic(auto, using(crate::proofs::AttributeWays::before_rows_ways))]
pub fn before_rows(
    table: &[u32],
    events: &[u32],
    texts: &[u8],
    notes: &mut [u64],
    c: Spot,
    t: u32,
) -> Judgement
    requires { (Ready events.now texts.now notes.old c)
        × (verdict table.now ≡ right)
        × (t < types_in table.now) }
    ensures { Walks events.now texts.now (values· table.now t) c notes.old result
        notes.new }
{
    let s = inside::span(table, t);
    let first = s.first;
    let n = s.count;
    let mut cursor = c;
    for i in 0..n + 1 {
        let z = slot_at(table, t, first, n, i);
        let r = part(events, texts, notes, cursor, z);
        let Ok(e) = r else {
            return r;
        };
        cursor = e;
    }
    Ok(cursor)
}
