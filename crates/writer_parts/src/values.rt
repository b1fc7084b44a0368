// One event with a code: a simple value with its text, a branch, a count. Its kind is judged first, so that its words are read without a test.
ghost use Rattle.std.specs.Prelude.{◌≡◌, ◌^◌, ◌≤◌, ◌<◌, length};
ghost use Rattle.numbers.specs.Kind as kinds;
ghost use Rattle.numbers.specs.Limit.{most_text};
ghost use Rattle.numbers.specs.Refused.{answered};
ghost use Rattle.value.specs.Code.{stamp, code_out};
ghost use Rattle.value.specs.Dates.{joined};
ghost use Rattle.value.specs.Simple.{plain, text, dated};
ghost use Rattle.value.specs.Answer.{code_is};
ghost use Rattle.model.specs.Model.Item.{valued, picked, counted};
ghost use Rattle.model.specs.Write.{simple_out};
ghost use Rattle.writer_parts.specs.Notes.{text_note, Spelt};
ghost use Rattle.writer_parts.specs.Walk.{events_at, texts_at, Ready, Walked, Walks, wanted, noted, text_wrong, alone};

use crate::judging::{keep, of_kind, unlike};
use crate::notes::{date, note_of};
use crate::{Judgement, Spelling, Spot, notes};
use numbers::refusal::{Fault, Refusal};
use numbers::{kind, limit};
use utf8::check;
use value::dates::stamp_of;
use value::{Code, Form, Inner, forms};
use wire::writing::size5;

// What is wrong with a text of n bytes at a place of the texts: too many bytes, more than are left, no UTF-8, a control character, in this order.
#[tactic(auto, using(crate::proofs::ValueWays::text_fault_ways))]
fn text_fault(texts: &[u8], used: usize, v: u32) -> Result<(), Refusal>
    requires { used ≤ length texts.now }
    ensures { answered result ≡ text_wrong texts.now used v }
{
    if limit::MOST_TEXT < v {
        return Err(Refusal::OutsideRow);
    }
    let n = v as usize;
    if texts.len() - used < n {
        return Err(Refusal::TextBytes);
    }
    let to = used + n;
    check(&texts[used..to])
}

// The note of a text.
fn text_note(v: u32, from: usize) -> u64
    requires { (v ≤ most_text) × (from < 2 ^ 32) }
    ensures { result ≡ text_note v from }
{
    140737488355328 + (from as u64) * 4096 + (v as u64)
}

// A text's event, of v bytes.
#[tactic(auto, using(crate::proofs::ValueWays::text_ways))]
pub fn note_text(events: &[u32], texts: &[u8], notes: &mut [u64], c: Spot, v: u32) -> Judgement
    requires { Ready events.now texts.now notes.old c }
    ensures { Walked events.now texts.now
        (noted (wanted kinds.value v 0) (simple_out text v (texts_at texts.now c.used))
        (events_at events.now c.event))
        c notes.old result notes.new }
{
    let at = c.event;
    let used = c.used;
    unlike(events, at, kind::VALUE, v, 0).map_err(|why| Fault { why, at })?;
    text_fault(texts, used, v).map_err(|why| Fault { why, at })?;
    let note = text_note(v, used);
    keep(notes, at, note);
    let count = size5(v);
    Ok(Spot {
        event: at + 1,
        used: used + (v as usize),
        bits: c.bits + count.0 + 8 * v,
    })
}

// An event whose value v is written in a code, as was worked out: the code may have no such value.
#[tactic(auto, using(crate::proofs::ValueWays::coded_ways))]
pub fn note_number(
    events: &[u32],
    texts: &[u8],
    notes: &mut [u64],
    c: Spot,
    kind: u32,
    p: u32,
    q: u32,
    code: Code,
    v: u32,
    s: Spelling,
) -> Judgement
    requires { (Ready events.now texts.now notes.old c) × (Spelt 41 (code_out (code_is code) v) s) }
    ensures { Walked events.now texts.now
        (noted (wanted kind p q) (simple_out (plain (code_is code)) v (texts_at texts.now c.used))
        (events_at events.now c.event))
        c notes.old result notes.new }
{
    let at = c.event;
    unlike(events, at, kind, p, q).map_err(|why| Fault { why, at })?;
    let n = s.map_err(|why| Fault { why, at })?;
    let note = note_of(n);
    keep(notes, at, note);
    Ok(Spot {
        event: at + 1,
        bits: c.bits + n.size,
        ..c
    })
}

// A date's event, of the words p and q, which may be no date.
#[tactic(auto, using(crate::proofs::ValueWays::date_ways))]
pub fn note_date(
    events: &[u32],
    texts: &[u8],
    notes: &mut [u64],
    c: Spot,
    clocked: bool,
    p: u32,
    q: u32,
) -> Judgement
    requires { Ready events.now texts.now notes.old c }
    ensures { Walked events.now texts.now
        (noted (wanted kinds.value p q) (simple_out (dated (stamp clocked)) (joined p q)
        (texts_at texts.now c.used)) (events_at events.now c.event)) c
        notes.old result notes.new }
{
    let at = c.event;
    unlike(events, at, kind::VALUE, p, q).map_err(|why| Fault { why, at })?;
    let stamp = stamp_of(clocked, p, q).map_err(|why| Fault { why, at })?;
    let h = date(clocked, stamp.days, q % 134217728);
    let note = h.note;
    keep(notes, at, note);
    Ok(Spot {
        event: at + 1,
        bits: c.bits + h.bits,
        ..c
    })
}

// A simple value.
#[tactic(auto, using(crate::proofs::ValueWays::value_ways))]
pub fn value(
    events: &[u32],
    texts: &[u8],
    notes: &mut [u64],
    c: Spot,
    simple: u32,
    x: u32,
    y: u32,
) -> Judgement
    requires { Ready events.now texts.now notes.old c }
    ensures { Walks events.now texts.now (alone (valued simple x y)) c notes.old result
        notes.new }
{
    let at = c.event;
    let e = of_kind(events, at, kind::VALUE).map_err(|why| Fault { why, at })?;
    let v = e.p;
    match forms::simple(simple, x, y) {
        Form::Number(code) => {
            let s = notes::number(code, v);
            note_number(events, texts, notes, c, kind::VALUE, v, 0, code, v, s)
        }
        Form::Text => note_text(events, texts, notes, c, v),
        Form::Dated(clocked) => note_date(events, texts, notes, c, clocked, v, e.q),
    }
}

// A branch of a choice of n.
#[tactic(auto, using(crate::proofs::ValueWays::pick_ways))]
pub fn pick(events: &[u32], texts: &[u8], notes: &mut [u64], c: Spot, n: u32) -> Judgement
    requires { Ready events.now texts.now notes.old c }
    ensures { Walks events.now texts.now (alone (picked n)) c notes.old result
        notes.new }
{
    let at = c.event;
    let e = of_kind(events, at, kind::PICK).map_err(|why| Fault { why, at })?;
    let v = e.p;
    let code = Code::Plain(Inner::Choice(n));
    let s = notes::inner(Inner::Choice(n), v);
    note_number(events, texts, notes, c, kind::PICK, v, 0, code, v, s)
}

// A count of an occurs row.
#[tactic(auto, using(crate::proofs::ValueWays::count_ways))]
pub fn count(
    events: &[u32],
    texts: &[u8],
    notes: &mut [u64],
    c: Spot,
    least: u32,
    most: u32,
) -> Judgement
    requires { Ready events.now texts.now notes.old c }
    ensures { Walks events.now texts.now (alone (counted least most)) c notes.old result
        notes.new }
{
    let at = c.event;
    let e = of_kind(events, at, kind::TIMES).map_err(|why| Fault { why, at })?;
    let v = e.p;
    let code = forms::times(least, most);
    let s = notes::count(least, most, v);
    note_number(events, texts, notes, c, kind::TIMES, v, 0, code, v, s)
}
