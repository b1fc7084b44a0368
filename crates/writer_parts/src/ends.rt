// The end of an element.
ghost use Rattle.std.specs.Prelude.{[], ◌+◌};
ghost use Rattle.model.specs.Modes.{lengths_is};
ghost use Rattle.model.specs.Write.{wrote, sealed};
ghost use Rattle.writer_parts.specs.Walk.{events_at, texts_at, between, Ready, Walked, Sealing};

use crate::heads::head;
use crate::judging::{keep, unlike};
use crate::notes::note_of;
use crate::{Judgement, Spot};
use model::Lengths;
use numbers::kind;
use numbers::refusal::Fault;

// The end of an element whose Start, with the second word q, is at c, and inside which the walk went on to e: End, then the head noted at Start.
#[tactic(auto, using(crate::proofs::EndWays::close_ways))]
pub fn close(
    events: &[u32],
    texts: &[u8],
    notes: &mut [u64],
    lengths: Lengths,
    q: u32,
    c: Spot,
    e: Spot,
) -> Judgement
    requires { (Ready events.now texts.now notes.old c) × Sealing events.now texts.now notes.old c e }
    ensures { Walked events.now texts.now
        (sealed (lengths_is lengths) q [] (wrote (between texts.now notes.old
        (record { event = c.event + 1; used = c.used; bits = c.bits }) e)
        (events_at events.now e.event) (texts_at texts.now e.used))) c
        notes.old result notes.new }
{
    let at = c.event;
    let to = e.event;
    unlike(events, to, kind::END, 0, 0).map_err(|why| Fault { why, at: to })?;
    keep(notes, to, 0);
    let h = head(lengths, q, e.bits - c.bits);
    let note = note_of(h);
    keep(notes, at, note);
    Ok(Spot {
        event: to + 1,
        bits: e.bits + h.size,
        ..e
    })
}
