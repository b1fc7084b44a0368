// What a walk over one event notes, put down by the pen: no call of C's, as both ask something of who calls.
ghost use Rattle.std.specs.Prelude.{◌≡◌, [], ◌≤◌, length};
ghost use Rattle.value.specs.Code.{code_out};
ghost use Rattle.value.specs.Answer.{code_is};
ghost use Rattle.writer_parts.specs.Notes.{spells, Spelt};

use super::{OUTSIDE, accepted, reach, refused};
use value::Code;
use wire::Bits;
use writer_parts::pen::put_notes;
use writer_parts::values::note_number;
use writer_parts::{Spelling, Spot};

// What a walk over one event noted, put down by the pen where its bits have room.
pub fn put_noted(
    buf: &mut [u8],
    at: u32,
    v: u32,
    notes: &[u64],
    end: Spot,
    out: &mut [u32; 4],
) -> u32
    requires { (end.bits ≡ length (spells [] notes.now 0 end.event)) × (end.event ≤ length notes.now) }
{
    let most = reach(buf.len());
    if most < at {
        return refused(OUTSIDE, out);
    }
    if most - at < end.bits {
        return refused(OUTSIDE, out);
    }
    let n = end.event;
    let p = put_notes(buf, Bits(at), b"", notes, n);
    accepted(v, p.0, 0, out)
}

// A value as the writer puts it, by a code and as this spells it: judged and noted as the one event of a list, and put down.
pub fn put_spelt(buf: &mut [u8], at: u32, c: Code, v: u32, s: Spelling, out: &mut [u32; 4]) -> u32
    requires { Spelt 41 (code_out (code_is c) v) s }
{
    let list = [3, v, 0, 0];
    let start = Spot {
        event: 0,
        used: 0,
        bits: 0,
    };
    let mut notes = [0u64; 1];
    match note_number(&list, b"", &mut notes, start, 3, v, 0, c, v, s) {
        Err(fault) => refused(fault.why.number(), out),
        Ok(end) => put_noted(buf, at, v, &notes, end, out),
    }
}
