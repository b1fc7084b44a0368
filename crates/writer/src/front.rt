// What is judged before the walk: table, root, party, mode, the list's shape; and after it: what is left over, the room.
ghost use Rattle.std.specs.Prelude.{◌≡◌, ◌≤◌, ◌*◌, length};
ghost use Rattle.numbers.specs.Limit.{most_events};
ghost use Rattle.table.specs.First.Verdict.{right};
ghost use Rattle.table.specs.Valid.{verdict};
ghost use Rattle.writer_parts.specs.Walk.{events_in};
ghost use Rattle.writer.specs.Front.{Moded, Fronted, Settled};

use model::{Lengths, Mode, offered};
use numbers::mode::{ALWAYS, CASTING, NEVER, OPTIONAL};
use numbers::refusal::{Fault, Refusal};
use numbers::{kind, limit};
use table::rows::{derivations, swaps, types, word};
use table::{Flaw, check};
use writer_parts::Spot;

// Who writes, the root's name and type, and the number of the mode.
#[derive(Clone, Copy)]
pub struct Order {
    pub party: u32,
    pub name: u32,
    pub t: u32,
    pub mode: u32,
}

// The mode of a number, as a walk over a table goes by it for a party: type codes are sent only where the table has derivations.
fn mode_of(table: &[u32], party: u32, number: u32) -> Result<Mode, Refusal>
    ensures { Moded table.now party number result }
{
    let casting = CASTING <= number;
    if casting && derivations(table) == 0 {
        return Err(Refusal::WriteMode);
    }
    if CASTING + ALWAYS < number {
        return Err(Refusal::WriteMode);
    }
    let lengths = match number % CASTING {
        NEVER => Lengths::Never,
        OPTIONAL => Lengths::Optional,
        ALWAYS => Lengths::Always,
        _ => return Err(Refusal::WriteMode),
    };
    let choices = offered(0 < swaps(table), casting);
    Ok(Mode {
        lengths,
        choices,
        party,
    })
}

// By a table that is right: root, party, the number of the mode, the list's shape.
fn judge_checked(table: &[u32], by: Order, events: &[u32]) -> Result<Mode, Fault<usize>>
    requires { verdict table.now ≡ right }
    ensures { Fronted table.now by.party by.name by.t by.mode events.now result }
{
    if types(table) <= by.t || limit::MOST_NAME < by.name {
        return Err(Fault {
            why: Refusal::Root,
            at: 0,
        });
    }
    if limit::PARTIES <= by.party {
        return Err(Fault {
            why: Refusal::Party,
            at: 0,
        });
    }
    let mode = mode_of(table, by.party, by.mode).map_err(|why| Fault { why, at: 0 })?;
    let at = events.len() / 4;
    if events.len() % 4 != 0 || limit::MOST_EVENTS < at {
        return Err(Fault {
            why: Refusal::NoReading,
            at,
        });
    }
    Ok(mode)
}

// The table, then the rest.
pub fn judge_before(table: &[u32], by: Order, events: &[u32]) -> Result<Mode, Fault<usize>>
    ensures { Fronted table.now by.party by.name by.t by.mode events.now result }
{
    match check(table) {
        Err(Flaw(at)) => Err(Fault {
            why: Refusal::Table,
            at,
        }),
        Ok(()) => judge_checked(table, by, events),
    }
}

// No event may be left over, then no text; then the room.
pub fn judge_after(events: &[u32], texts: &[u8], c: Spot, room: usize) -> Result<(), Fault<usize>>
    requires { (c.event ≤ events_in events.now)
        × (c.used ≤ length texts.now)
        × (c.event ≤ most_events)
        × (c.bits ≤ 40000 * c.event) }
    ensures { Settled events.now texts.now c room result }
{
    let at = c.event;
    if at < events.len() / 4 {
        let why = if word(events, 4 * at) == kind::BLANK {
            Refusal::Blank
        } else {
            Refusal::NoReading
        };
        return Err(Fault { why, at });
    }
    if c.used < texts.len() {
        return Err(Fault {
            why: Refusal::TextBytes,
            at,
        });
    }
    let size = (1 + (c.bits + 7) / 8) as usize;
    if room.min(limit::MOST_PAYLOAD) < size {
        return Err(Fault {
            why: Refusal::PayloadRoom,
            at: 0,
        });
    }
    Ok(())
}
