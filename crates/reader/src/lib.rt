// The reader: a payload, by a schema table, into events and texts.
#![tactic(auto)]

mod clear; // clear.rt: lent buffers made zero
mod cycle; // cycle.rt: elements, what is inside them, particle rows
mod entering; // entering.rt: an element up to its rows
mod front; // front.rt: the mode byte
mod groups; // groups.rt: the rows that a row holds
mod rest; // rest.rt: what is left after the root
mod refusal_path; // refusal_path.rt: what a walk answers, and the path of a refusal

ghost use Rattle.std.specs.Prelude.{◌≡◌, ◌<◌, [], Ok, Err, length};
ghost use Rattle.numbers.specs.Refused.{number_of};
ghost use Rattle.wire.specs.Res.{got};
ghost use Rattle.table.specs.First.Verdict.{right};
ghost use Rattle.table.specs.Valid.{verdict};
ghost use Rattle.model.specs.Entries.{Entered};
ghost use Rattle.model.specs.Modes.{lengths_is, mode_is, Choosing};
ghost use Rattle.model.specs.Whole.{lengths_number, mode_number, mode_of, declines, reading};
ghost use Rattle.table.specs.Rows.{table_of};
ghost use Rattle.reader_parts.specs.Paths.{back, names_of};
ghost use Rattle.reader.specs.Answers.{answer_is, told, Replies};
ghost use Rattle.reader.specs.Cleared.{Zeros};

use clear::both;
use cycle::particle;
use front::mode_of;
use model::{Lengths, Mode, NO_ROW};
use numbers::limit;
use numbers::refusal::{Fault, Refusal};
use reader_parts::{Cursor, Path};
use refusal_path::Halt;
use rest::padding;
use table::rows::types;
use table::{Flaw, check};
use wire::{Bits, Bytes};

// What a payload was read as: its mode's number, how many events and how many bytes of text were stored, and how many bits were used.
#[derive(Clone, Copy)]
pub struct Reading {
    pub mode: u32,
    pub events: u32,
    pub text: Bytes,
    pub bits: Bits,
}

// Why a payload, or what was asked of it, is refused and at which place; and the names of the elements that are open there.
#[derive(Clone, Copy)]
pub struct Refused {
    pub fault: Fault<usize>,
    pub path: Path,
}

// No open element.
fn nowhere() -> Path
    ensures { result.count ≡ 0 }
{
    Path {
        names: [0u16; limit::MOST_NAMES],
        count: 0,
    }
}

// Refused where no element is open.
fn unopened(why: Refusal, at: usize) -> Refused
    ensures { answer_is (Err result) ≡ declines (number_of why) at [] }
{
    Refused {
        fault: Fault { why, at },
        path: nowhere(),
    }
}

// A length coding as document 01's number; no `From`, as `Lengths` is another crate's.
#[tactic(auto, using(crate::proofs::Answers::lengths_ways))]
fn lengths_number(lengths: Lengths) -> u32
    ensures { result ≡ lengths_number (lengths_is lengths) }
{
    match lengths {
        Lengths::Never => numbers::mode::NEVER,
        Lengths::Optional => numbers::mode::OPTIONAL,
        Lengths::Always => numbers::mode::ALWAYS,
    }
}

// The mode as document 01's number.
#[tactic(auto, using(crate::proofs::Answers::number_ways))]
fn number_of(mode: Mode) -> u32
    ensures { result ≡ mode_number (mode_is mode) }
{
    let lengths = mode.lengths;
    let n = lengths_number(lengths);
    let choices = mode.choices;
    if choices.derived {
        n + numbers::mode::CASTING
    } else {
        n
    }
}

#[tactic(auto, using(crate::proofs::Answers::told_all))]
fn accepted(mode: Mode, c: Cursor) -> Reading
    requires { c.used < 4294967296 }
    ensures { answer_is (Ok result) ≡ told mode c }
{
    Reading {
        mode: number_of(mode),
        events: c.count,
        text: Bytes(c.used as u32),
        bits: c.at,
    }
}

// The root at bit 8, an element of no row, into buffers that are zero; then what is left after it.
fn root(
    table: &[u32],
    party: u32,
    payload: &[u8],
    events: &mut [u32],
    texts: &mut [u8],
    mode: Mode,
    name: u32,
    t: u32,
) -> Result<Reading, Refused>
    requires { (Entered table.now party name t)
        × (mode_of (table_of table.now).derivations payload.now ≡ got (mode_is mode))
        × (Choosing table.now mode.choices)
        × Zeros events.old
        × Zeros texts.old
        × (mode.party ≡ party) }
    ensures { Replies
        (reading table.now party name t payload.now (length events.old)
        (length texts.old))
        (length events.old) (length texts.old) result events.new texts.new }
{
    let wall = Bits((8 * payload.len()) as u32);
    let start = Bits(8);
    let c = Cursor {
        at: start,
        count: 0,
        used: 0,
    };
    let path = nowhere();
    let mut told = [0u16; limit::MOST_NAMES];
    let w = particle(
        table,
        payload,
        events,
        texts,
        &mut told,
        mode,
        limit::MOST_OPEN,
        wall,
        c,
        path,
        name,
        t,
        NO_ROW,
        0,
        1,
    );
    let refused = match w {
        Err(Halt::Untold(fault)) => unopened(fault.why, fault.at.0 as usize),
        Err(Halt::Told(fault, count)) => Refused {
            fault: Fault {
                why: fault.why,
                at: fault.at.0 as usize,
            },
            path: Path { names: told, count },
        },
        Ok(d) => {
            let at = d.at;
            let ok = padding(payload, at);
            if ok {
                return Ok(accepted(mode, d));
            }
            unopened(Refusal::LeftOver, at.0 as usize)
        }
    };
    both(events, texts);
    Err(refused)
}

// A payload by a table that is right, into buffers that are zero.
#[tactic(auto, using(crate::proofs::RootLaws::entry_ways))]
fn read_checked(
    table: &[u32],
    party: u32,
    root_name: u32,
    root_type: u32,
    payload: &[u8],
    events: &mut [u32],
    texts: &mut [u8],
) -> Result<Reading, Refused>
    requires { (verdict table.now ≡ right) × Zeros events.old × Zeros texts.old }
    ensures { Replies (reading table.now party root_name root_type payload.now
        (length events.old) (length texts.old)) (length events.old)
        (length texts.old) result events.new texts.new }
{
    let known = types(table);
    if known <= root_type {
        return Err(unopened(Refusal::Root, 0));
    }
    if limit::MOST_NAME < root_name {
        return Err(unopened(Refusal::Root, 0));
    }
    if limit::PARTIES <= party {
        return Err(unopened(Refusal::Party, 0));
    }
    match mode_of(table, party, payload) {
        Err(why) => Err(unopened(why, 0)),
        Ok(mode) => root(
            table, party, payload, events, texts, mode, root_name, root_type,
        ),
    }
}

// THE READER: a payload, for a party, whose root has a name and a type of the table. It asks nothing of what it is given.
#[tactic(auto, using(crate::proofs::RootLaws::entry_ways))]
pub fn read(
    table: &[u32],
    party: u32,
    root_name: u32,
    root_type: u32,
    payload: &[u8],
    events: &mut [u32],
    texts: &mut [u8],
) -> Result<Reading, Refused>
    ensures { Replies (reading table.now party root_name root_type payload.now
        (length events.old) (length texts.old)) (length events.old)
        (length texts.old) result events.new texts.new }
{
    both(events, texts);
    match check(table) {
        Err(Flaw(word)) => Err(unopened(Refusal::Table, word)),
        Ok(()) => read_checked(table, party, root_name, root_type, payload, events, texts),
    }
}
