// A date: read from a place, below a wall, as the two words of its Value; and what two words are on the wire.
ghost use Rattle.std.specs.Prelude.{◌≡◌, true, [], ◌*◌, ◌≤◌, ◌<◌, length};
ghost use Rattle.numbers.specs.Limit.{day_milliseconds};
ghost use Rattle.wire.specs.Res.{got};
ghost use Rattle.wire.specs.Bits.{bit_at};
ghost use Rattle.calendar.specs.Plain.{date_of};
ghost use Rattle.value.specs.Code.{stamp, code_out, clock_at};
ghost use Rattle.value.specs.Dates.{joined, month_word, day_word};
ghost use Rattle.value.specs.Simple.{dated};
ghost use Rattle.value.specs.Answer.{value_is, stamp_is, ReadsSimple, ReadsClock};

use super::{Stamp, Value};
use calendar::{date_of, day_of};
use numbers::limit;
use numbers::refusal::Refusal;
use wire::Bits;
use wire::reading::fixed;

// A day number and milliseconds as the words of a Value.
#[tactic(auto, using(crate::proofs::DateWays::found_small))]
fn in_words(days: u32, ms: u32, next: Bits) -> Value
    requires { ms < day_milliseconds }
    ensures { result ≡ Value.Dated (month_word (date_of days)) (day_word (date_of days) ms) next }
{
    let d = date_of(days);
    let p = 16 * d.year + d.month;
    let q = 134217728 * d.day + ms;
    Value::Dated { p, q, next }
}

// After the days: the milliseconds of the day, all bits of which are there before they are judged.
#[tactic(auto, using(crate::proofs::DateWays::clock_ways))]
fn clock(s: &[u8], wall: Bits, at: Bits, days: u32) -> Result<Value, Refusal>
    requires { wall.0 ≤ 8 * length s.now }
    ensures { ReadsClock s.now result true wall.0 days at.0 }
{
    let (ms, next) = fixed(s, wall, at, 32)?;
    if limit::DAY_MILLISECONDS <= ms {
        return Err(Refusal::NoSuchCode);
    }
    Ok(in_words(days, ms, next))
}

// A date, with a clock or without.
#[tactic(auto, using(crate::proofs::DateWays::date_ways))]
pub fn read(s: &[u8], wall: Bits, at: Bits, clocked: bool) -> Result<Value, Refusal>
    requires { wall.0 ≤ 8 * length s.now }
    ensures { ReadsSimple s.now result (dated (stamp clocked)) wall.0 at.0 }
{
    let (days, next) = fixed(s, wall, at, 32)?;
    if clocked {
        return clock(s, wall, next, days);
    }
    Ok(in_words(days, 0, next))
}

// What the words p and q are on the wire; OUTSIDE_ROW where they are no date.
#[tactic(auto, using(crate::proofs::DateWays::stamp_ways))]
pub fn stamp_of(clocked: bool, p: u32, q: u32) -> Result<Stamp, Refusal>
    ensures { stamp_is clocked result ≡ code_out (stamp clocked) (joined p q) }
{
    let ms = q % 134217728;
    let end = if clocked { limit::DAY_MILLISECONDS } else { 1 };
    match day_of(p / 16, p % 16, q / 134217728) {
        Some(days) if ms < end => Ok(Stamp { days, ms }),
        _ => Err(Refusal::OutsideRow),
    }
}
