// A code's value as a number, and the notes of such.
ghost use Rattle.std.specs.Prelude.{◌≡◌, ◌^◌, ◌≤◌, ◌<◌};
ghost use Rattle.wire.specs.Bits.{digits};
ghost use Rattle.value.specs.Code.{bits_of, code_out, signed, some};
ghost use Rattle.value.specs.Dates.{stamp_bits};
ghost use Rattle.value.specs.Simple.{times_code};
ghost use Rattle.value.specs.Answer.{inner_is, code_is};
ghost use Rattle.writer_parts.specs.Notes.{Spelt, Short, Flagged, Noted, DateNote};

pub use crate::codes::{one_of, pair};
pub use crate::heads::head;
use crate::{SizedNote, Spelling};
use numbers::refusal::Refusal;
use signed::{lowered, magnitude};
use value::forms::times;
use value::{Code, Inner};
use wire::Coded;
use wire::choices::width;
use wire::writing::coded5;

// A flag before a code.
#[tactic(auto, using(crate::proofs::NoteWays::flag_ways))]
pub fn flagged(flag: u32, c: Coded) -> Coded
    requires { (flag < 2) × (c.size ≤ 40) × (c.bits < 2 ^ c.size) }
    ensures { Flagged flag c result }
{
    let size = c.size + 1;
    let bits = ((flag as u64) << c.size) + c.bits;
    Coded { size, bits }
}

// A code that another holds.
#[tactic(auto, using(crate::proofs::NoteWays::inner_ways))]
pub fn inner(i: Inner, v: u32) -> Spelling
    ensures { Spelt 40 (code_out (inner_is i) v) result }
{
    match i {
        Inner::Choice(n) => {
            if v < n {
                let size = width(n);
                let bits = v as u64;
                let c = Coded { size, bits };
                return Ok(c);
            }
            Err(Refusal::OutsideRow)
        }
        Inner::Five(most) => {
            if v <= most {
                let c = coded5(v);
                return Ok(c);
            }
            Err(Refusal::OutsideRow)
        }
    }
}

// A sign bit and a magnitude.
#[tactic(auto, using(crate::proofs::NoteWays::signed_ways))]
fn signed_number(v: u32) -> Coded
    ensures { Short 41 result (bits_of signed v) }
{
    let m = magnitude(v);
    let far = coded5(m.magnitude);
    if m.negative {
        return flagged(1, far);
    }
    flagged(0, far)
}

// None, or some and how many.
#[tactic(auto, using(crate::proofs::NoteWays::some_ways))]
fn some_number(i: Inner, v: u32) -> Spelling
    ensures { Spelt 41 (code_out (some (inner_is i)) v) result }
{
    if v == 0 {
        let none = Coded { size: 1, bits: 0 };
        return Ok(none);
    }
    let c = inner(i, v)?;
    Ok(flagged(1, c))
}

// A value by its code, which may have no such value.
#[tactic(auto, using(crate::proofs::NoteWays::number_ways))]
pub fn number(c: Code, v: u32) -> Spelling
    ensures { Spelt 41 (code_out (code_is c) v) result }
{
    match c {
        Code::Plain(i) => inner(i, v),
        Code::Word => {
            let bits = v as u64;
            let word = Coded { size: 32, bits };
            Ok(word)
        }
        Code::Signed => Ok(signed_number(v)),
        Code::Some(i) => some_number(i, v),
        Code::Shifted(lo, i) => inner(i, lowered(lo, v)),
    }
}

// A count of an occurs row, which may let no such count come. A code of its own, so that `number` is called at one place.
#[tactic(auto, using(crate::proofs::NoteWays::count_ways))]
pub fn count(least: u32, most: u32, v: u32) -> Spelling
    ensures { Spelt 41 (code_out (times_code least most) v) result }
{
    match times(least, most) {
        Code::Plain(i) => inner(i, v),
        Code::Some(i) => some_number(i, v),
        Code::Shifted(lo, i) => inner(i, lowered(lo, v)),
        Code::Word => Err(Refusal::OutsideRow),
        Code::Signed => Err(Refusal::OutsideRow),
    }
}

// The note of a code.
#[tactic(auto, using(crate::proofs::NoteWays::note_of_ways))]
pub fn note_of(c: Coded) -> u64
    requires { (c.size ≤ 41) × (c.bits < 2 ^ c.size) }
    ensures { Noted result (digits c.size c.bits) }
{
    (c.size as u64) * 2199023255552 + c.bits
}

// The days of a date and, with a clock, its milliseconds.
#[tactic(auto, using(crate::proofs::NoteWays::date_note_ways))]
pub fn date(clocked: bool, days: u32, ms: u32) -> SizedNote
    requires { ms < 2 ^ 27 }
    ensures { DateNote result (stamp_bits clocked days ms) }
{
    if clocked {
        let note = 9223372036854775808 + (days as u64) * 134217728 + (ms as u64);
        return SizedNote { note, bits: 64 };
    }
    let note = 32 * 2199023255552 + (days as u64);
    SizedNote { note, bits: 32 }
}
