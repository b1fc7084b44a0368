// The writer: a walk over the list of events that judges each and notes its bits, then the pen.
#![tactic(auto)]

mod cycle; // cycle.rt: elements, what is inside them, particle rows
mod front; // front.rt: what is judged before the walk, and after it
mod groups; // groups.rt: what a row comes to
mod ink; // ink.rt: the mode byte and the notes, into the payload

ghost use Rattle.std.specs.Prelude.{◌≡◌, ◌≤◌, min, length};
ghost use Rattle.numbers.specs.Limit.{most_events};
ghost use Rattle.model.specs.Write.{wrote};
ghost use Rattle.model.specs.Modes.{mode_is};
ghost use Rattle.model.specs.Whole.{roomed, spent, writing};
ghost use Rattle.writer_parts.specs.Walk.{events_in, events_at, texts_at, between, Ready};
ghost use Rattle.writer.specs.Answers.{Writes, origin};
ghost use Rattle.writer.specs.Cleared.{Zeros};

use buffers::clear;
use cycle::particle;
use front::{Order, judge_after, judge_before};
use ink::draw;
use model::{Mode, NO_ROW};
use numbers::limit;
use numbers::refusal::Fault;
use wire::{Bits, Bytes};
use writer_parts::Spot;

// What was written: the number of the mode, the events and text bytes taken, the bits of the payload.
#[derive(Clone, Copy)]
pub struct Written {
    pub mode: u32,
    pub events: u32,
    pub text: Bytes,
    pub bits: Bits,
}

// After the walk in the mode of a number, which came to c: what is left over, the room, and then the bits into a payload that is zero.
fn finish(
    events: &[u32],
    texts: &[u8],
    notes: &[u64],
    number: u32,
    mode: Mode,
    c: Spot,
    payload: &mut [u8],
) -> Result<Written, Fault<usize>>
    requires { (Ready events.now texts.now notes.now c)
        × (c.bits ≡ length (between texts.now notes.now origin c))
        × (Zeros payload.old) }
    ensures { Writes (spent (events_in events.now)
        (wrote (between texts.now notes.now origin c)
        (events_at events.now c.event) (texts_at texts.now c.used))
        (roomed (length payload.old) (mode_is mode))) number (events_in events.now)
        (length texts.now) (length payload.old) result payload.new }
{
    judge_after(events, texts, c, payload.len())?;
    let n = c.event;
    draw(payload, mode, texts, notes, n);
    Ok(Written {
        mode: number,
        events: n as u32,
        text: Bytes(c.used as u32),
        bits: Bits(8 + c.bits),
    })
}

// Events of a list that is short, and their words: its notes are lent less room, as room is zeroed whole before it is used. The room is no const parameter
// of `write_with_notes`, which is to call the cycle at one place.
const LEAST_EVENTS: usize = 16;

const LEAST_WORDS: usize = 4 * LEAST_EVENTS;

const FEW_EVENTS: usize = 128;

const FEW_WORDS: usize = 4 * FEW_EVENTS;

// What is judged before the walk, then the walk from the root in the mode of its number, with room for every event's note, and what it came to.
fn write_with_notes(
    table: &[u32],
    by: Order,
    events: &[u32],
    texts: &[u8],
    notes: &mut [u64],
    payload: &mut [u8],
) -> Result<Written, Fault<usize>>
    requires { min (events_in events.now) most_events ≤ length notes.old }
    ensures { Writes
        (writing table.now by.party by.name by.t by.mode events.now texts.now
        (length payload.old))
        by.mode (events_in events.now) (length texts.now) (length payload.old) result
        payload.new }
{
    clear(payload);
    let mode = judge_before(table, by, events)?;
    let start = Spot {
        event: 0,
        used: 0,
        bits: 0,
    };
    let c = particle(
        table,
        events,
        texts,
        notes,
        mode,
        limit::MOST_OPEN,
        start,
        by.name,
        by.t,
        NO_ROW,
        0,
        1,
    )?;
    finish(events, texts, notes, by.mode, mode, c, payload)
}

// THE WRITER: a list of events and texts, for a party, into a payload whose root has a name and a type of the table. It asks nothing of what it is given.
pub fn write(
    table: &[u32],
    party: u32,
    root_name: u32,
    root_type: u32,
    mode: u32,
    events: &[u32],
    texts: &[u8],
    payload: &mut [u8],
) -> Result<Written, Fault<usize>>
    ensures { Writes
        (writing table.now party root_name root_type mode events.now texts.now
        (length payload.old))
        mode (events_in events.now) (length texts.now) (length payload.old) result
        payload.new }
{
    let by = Order {
        party,
        name: root_name,
        t: root_type,
        mode,
    };
    if events.len() <= LEAST_WORDS {
        let mut least = [0u64; LEAST_EVENTS];
        return write_with_notes(table, by, events, texts, &mut least, payload);
    }
    if events.len() <= FEW_WORDS {
        let mut few = [0u64; FEW_EVENTS];
        return write_with_notes(table, by, events, texts, &mut few, payload);
    }
    let mut all = [0u64; limit::MOST_EVENTS];
    write_with_notes(table, by, events, texts, &mut all, payload)
}
