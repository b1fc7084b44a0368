// One event judged and noted: an event without bits, a value in a code; and under this name the others, which stand where their subject is.
ghost use Rattle.std.specs.Prelude.{[]};
ghost use Rattle.wire.specs.Res.{got};
ghost use Rattle.value.specs.Simple.{plain};
ghost use Rattle.value.specs.Answer.{code_is};
ghost use Rattle.model.specs.Write.{simple_out};
ghost use Rattle.writer_parts.specs.Walk.{events_at, texts_at, Ready, Walked, wanted, noted};

pub use crate::ends::close;
pub use crate::judging::{keep, unlike};
use crate::notes::number;
use crate::values::note_number;
pub use crate::values::{note_date, note_text};
use crate::{Judgement, Spot};
use numbers::kind;
use numbers::refusal::Fault;
use value::Code;

// An event that takes no bits.
#[tactic(auto, using(crate::proofs::LeafWays::mark_ways))]
pub fn mark(
    events: &[u32],
    texts: &[u8],
    notes: &mut [u64],
    c: Spot,
    kind: u32,
    p: u32,
    q: u32,
) -> Judgement
    requires { Ready events.now texts.now notes.old c }
    ensures { Walked events.now texts.now
        (noted (wanted kind p q) (got ([], texts_at texts.now c.used))
        (events_at events.now c.event))
        c notes.old result notes.new }
{
    let at = c.event;
    unlike(events, at, kind, p, q).map_err(|why| Fault { why, at })?;
    keep(notes, at, 0);
    Ok(Spot { event: at + 1, ..c })
}

// An event whose value v is written in a code, which may have no such value.
pub fn note_code(
    events: &[u32],
    texts: &[u8],
    notes: &mut [u64],
    c: Spot,
    kind: u32,
    p: u32,
    q: u32,
    code: Code,
    v: u32,
) -> Judgement
    requires { Ready events.now texts.now notes.old c }
    ensures { Walked events.now texts.now
        (noted (wanted kind p q) (simple_out (plain (code_is code)) v (texts_at texts.now c.used))
        (events_at events.now c.event))
        c notes.old result notes.new }
{
    let s = number(code, v);
    note_number(events, texts, notes, c, kind, p, q, code, v, s)
}
