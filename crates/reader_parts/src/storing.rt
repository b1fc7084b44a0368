// One event stored, where it has room.
ghost use Rattle.std.specs.Prelude.{◌≡◌, ◌-◌, ◌*◌, ◌≤◌};
ghost use Rattle.reader_parts.specs.Out.{slots_in, Stores};

use crate::{Cursor, Step};
use numbers::refusal::{Fault, Refusal};
use numbers::{kind, limit};
use wire::Bits;

// The events that so many words hold, at most MOST_EVENTS.
fn slots(words: usize) -> u32
    ensures { (result ≡ slots_in words) × (4 * result ≤ words) }
{
    (words / 4).min(limit::MOST_EVENTS) as u32
}

// The event kind, p, q, whose code ends at next. It has no text.
pub fn store(events: &mut [u32], c: Cursor, kind: u32, p: u32, q: u32, next: Bits) -> Step
    ensures { Stores kind p q next.0 c events.old result events.new }
{
    let count = c.count;
    let at = c.at;
    let room = slots(events.len());
    if room <= count {
        return Err(Fault {
            why: Refusal::EventRoom,
            at,
        });
    }
    let bits = next.0.saturating_sub(at.0);
    let i = 4 * (count as usize);
    events[i] = kind;
    events[i + 1] = p;
    events[i + 2] = q;
    events[i + 3] = bits;
    Ok(Cursor {
        at: next,
        count: count + 1,
        ..c
    })
}

// The same of an event that is seldom. Its kind is stored last, so that the back end does not make one code of it and of the events that are not, which
// would then be the slower.
pub fn store_seldom(events: &mut [u32], c: Cursor, kind: u32, p: u32, q: u32, next: Bits) -> Step
    ensures { Stores kind p q next.0 c events.old result events.new }
{
    let count = c.count;
    let at = c.at;
    let room = slots(events.len());
    if room <= count {
        return Err(Fault {
            why: Refusal::EventRoom,
            at,
        });
    }
    let bits = next.0.saturating_sub(at.0);
    let i = 4 * (count as usize);
    events[i + 1] = p;
    events[i + 2] = q;
    events[i + 3] = bits;
    events[i] = kind;
    Ok(Cursor {
        at: next,
        count: count + 1,
        ..c
    })
}
