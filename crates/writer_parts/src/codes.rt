// An element's codes: which substitute it is and which derived type it has. Their event stands behind Start, where there is something to choose from.
ghost use Rattle.std.specs.Prelude.{◌≡◌, true, ◌++◌, ◌^◌, ◌≤◌, ◌<◌};
ghost use Rattle.wire.specs.Bits.{digits};
ghost use Rattle.value.specs.Code.{bits_of};
ghost use Rattle.value.specs.Simple.{one_of};
ghost use Rattle.table.specs.First.Verdict.{right};
ghost use Rattle.table.specs.Valid.{verdict};
ghost use Rattle.table.specs.Words.{types_in};
ghost use Rattle.model.specs.Model.{codes};
ghost use Rattle.model.specs.Modes.{types_by};
ghost use Rattle.writer_parts.specs.Notes.{Short, most_choices};
ghost use Rattle.writer_parts.specs.Walk.{Ready};
ghost use Rattle.writer_parts.specs.Codes.{Rowed, Chosen, Placed, Stands, Spells, Casts};

use crate::judging::{keep, of_kind};
use crate::notes::{flagged, note_of};
use crate::{Cast, Spelling, Spot};
use model::Choices;
use numbers::kind;
use numbers::refusal::{Fault, Refusal};
use table::{TypeList, rows};
use wire::Coded;
use wire::choices::width;

// None, or one of n, counted from 1: a bit for none, or a bit and the number less one; no bits where there are none.
#[tactic(auto, using(crate::proofs::CodeWays::one_of_ways))]
pub fn one_of(n: u32, k: u32) -> Coded
    requires { (n ≤ most_choices) × (k ≤ n) }
    ensures { Short 11 result (bits_of (one_of n) k) }
{
    if n == 0 {
        return Coded { size: 0, bits: 0 };
    }
    if k == 0 {
        return Coded { size: 1, bits: 0 };
    }
    let size = width(n);
    let bits = (k - 1) as u64;
    let which = Coded { size, bits };
    flagged(1, which)
}

// One code behind another.
#[tactic(auto, using(crate::proofs::CodeWays::pair_ways))]
pub fn pair(a: Coded, b: Coded) -> Coded
    requires { (a.size ≤ 11) × (b.size ≤ 11) × (a.bits < 2 ^ a.size) × (b.bits < 2 ^ b.size) }
    ensures { Short 22 result (digits a.size a.bits ++ digits b.size b.bits) }
{
    let size = a.size + b.size;
    let bits = (a.bits << b.size) + b.bits;
    Coded { size, bits }
}

// The type of substitute q, counted from 1; t where there is none.
#[tactic(auto, using(crate::proofs::CodeWays::default_ways))]
fn default_type(table: &[u32], swaps: TypeList, t: u32, q: u32) -> u32
    requires { (swaps.first < 4398046511104) × (q ≤ swaps.count) }
    ensures { Chosen table.now swaps t q result }
{
    if q == 0 {
        return t;
    }
    rows::listed(table, swaps, q - 1)
}

// Where type p stands in a list, counted from 1; past the list where it is nowhere.
#[tactic(auto, using(crate::proofs::CodeWays::place_ways))]
fn place_in(table: &[u32], types: TypeList, p: u32) -> u32
    requires { (types.first < 4398046511104) × (types.count ≤ most_choices) }
    ensures { Placed table.now types p result }
{
    for i in 0..types.count {
        if p == rows::listed(table, types, i) {
            return i + 1;
        }
    }
    types.count + 1
}

// The same where a type t comes before the list, as 0.
#[tactic(auto, using(crate::proofs::CodeWays::standing_ways))]
fn standing(table: &[u32], types: TypeList, t: u32, p: u32) -> u32
    requires { (types.first < 4398046511104) × (types.count ≤ most_choices) }
    ensures { Stands table.now types t p result }
{
    if p == t {
        return 0;
    }
    place_in(table, types, p)
}

// Whether an element of a row and a type has codes.
#[tactic(auto, using(crate::proofs::CodeWays::due_ways))]
fn due(table: &[u32], choices: Choices, t: u32, row: u32) -> bool
    requires { Rowed table.now choices row }
    ensures { result ≡ codes (types_by table.now choices t row) }
{
    if !choices.any {
        return false;
    }
    let swaps = choices.substitutes_of(table, row);
    if 0 < swaps.count {
        return true;
    }
    let types = choices.derived_of(table, t);
    0 < types.count
}

// The codes of substitute q and effective type p; OUTSIDE_ROW where there is no such substitute, or p is neither its type nor derived from that.
#[tactic(auto, using(crate::proofs::CodeWays::spell_ways))]
fn spell(table: &[u32], choices: Choices, t: u32, row: u32, p: u32, q: u32) -> Spelling
    requires { (verdict table.now ≡ right) × (t < types_in table.now) × (Rowed table.now choices row) }
    ensures { Spells table.now (types_by table.now choices t row) p q result }
{
    let swaps = choices.substitutes_of(table, row);
    let n = swaps.count;
    if n < q {
        return Err(Refusal::OutsideRow);
    }
    let own = default_type(table, swaps, t, q);
    let types = choices.derived_of(table, own);
    let m = types.count;
    let k = standing(table, types, own, p);
    if m < k {
        return Err(Refusal::OutsideRow);
    }
    let one = one_of(n, q);
    let two = one_of(m, k);
    let both = pair(one, two);
    Ok(both)
}

// The codes' event, where it is due: judged and noted.
#[tactic(auto, using(crate::proofs::CodeWays::note_due_ways))]
fn note_due(
    table: &[u32],
    events: &[u32],
    texts: &[u8],
    notes: &mut [u64],
    choices: Choices,
    c: Spot,
    t: u32,
    row: u32,
) -> Cast
    requires { (Ready events.now texts.now notes.old c)
        × (verdict table.now ≡ right)
        × (t < types_in table.now)
        × (Rowed table.now choices row)
        × (codes (types_by table.now choices t row) ≡ true) }
    ensures { Casts table.now events.now texts.now
        (types_by table.now choices t row) c notes.old result notes.new }
{
    let at = c.event;
    let e = of_kind(events, at, kind::CAST).map_err(|why| Fault { why, at })?;
    let p = e.p;
    let both = spell(table, choices, t, row, p, e.q).map_err(|why| Fault { why, at })?;
    let note = note_of(both);
    keep(notes, at, note);
    let next = Spot {
        event: at + 1,
        bits: c.bits + both.size,
        ..c
    };
    Ok((p, next))
}

// The codes of an element of a row and a type whose Start was taken.
#[tactic(auto, using(crate::proofs::CodeWays::codes_ways))]
pub fn note_codes(
    table: &[u32],
    events: &[u32],
    texts: &[u8],
    notes: &mut [u64],
    choices: Choices,
    c: Spot,
    t: u32,
    row: u32,
) -> Cast
    requires { (Ready events.now texts.now notes.old c)
        × (verdict table.now ≡ right)
        × (t < types_in table.now)
        × (Rowed table.now choices row) }
    ensures { Casts table.now events.now texts.now
        (types_by table.now choices t row) c notes.old result notes.new }
{
    if due(table, choices, t, row) {
        return note_due(table, events, texts, notes, choices, c, t, row);
    }
    Ok((t, c))
}
