// The leaves as calls for C, which `test_leaves_c` exports, for whoever runs them against another implementation. A call asks nothing
// of its caller: what a leaf asks is tested, and where it does not hold the answer is OUTSIDE. A call answers a refusal's number, 0 for
// none, and leaves its numbers in `out`: the value, the place past it, and two more by the call; all are 0 where it is refused.
#![tactic(auto)]

pub mod dates; // dates.rt: the calendar
mod noted; // noted.rt: one event noted, and put down
pub mod reading; // reading.rt: codes and texts of a payload, below a wall
pub mod tables; // tables.rt: the check of a table, and its rows
pub mod words; // words.rt: widths, sizes and signed words
pub mod writing; // writing.rt: codes and texts into a lent buffer

ghost use Rattle.std.specs.Prelude.{◌*◌, ◌≤◌};

use numbers::refusal::Refusal;
use numbers::{limit, refusal};
use wire::{Number, Read};

// A wall past the payload's end, or less room than the bits take.
pub const OUTSIDE: u32 = 99;

// The bits of so many bytes, as far as a place can tell.
fn reach(bytes: usize) -> u32
    ensures { result ≤ 8 * bytes }
{
    if bytes < 536870912 {
        (bytes as u32) * 8
    } else {
        limit::MOST_WORD
    }
}

fn refused(number: u32, out: &mut [u32; 4]) -> u32 {
    *out = [0; 4];
    number
}

fn accepted(value: u32, place: u32, more: u32, out: &mut [u32; 4]) -> u32 {
    *out = [value, place, more, 0];
    refusal::ACCEPTED
}

fn told(r: Read, out: &mut [u32; 4]) -> u32 {
    match r {
        Err(why) => refused(why.number(), out),
        Ok((value, next)) => accepted(value, next.0, 0, out),
    }
}

fn told_number(n: Result<Number, Refusal>, out: &mut [u32; 4]) -> u32 {
    match n {
        Err(why) => refused(why.number(), out),
        Ok(n) => accepted(n.value, n.next.0, u32::from(n.short), out),
    }
}
