// Where the bits go: a report of numbers that is added to, payload by payload.
#![tactic(auto)]

mod counting; // counting.rt: the events of a payload
mod eights; // eights.rt: numbers of eight bytes
mod lines; // lines.rt: a name's line, and sums
mod places; // places.rt: where each number stands
mod stack; // stack.rt: the lines of the elements that are open

ghost use Rattle.std.specs.Prelude.{◌≡◌, [], ◌*◌, ◌/◌, ◌<◌, ◌≤◌, length};
ghost use Rattle.numbers.specs.Limit.{most_events, most_payload};
ghost use Rattle.report.specs.Eights.{bytes_of};
ghost use Rattle.report.specs.Places.{report_bytes};
ghost use Rattle.report.specs.Report.{at, adds};
ghost use Rattle.report.specs.Sums.{sum_of, numbers_in, events_in, accepts_in};
ghost use Rattle.report.specs.Answers.{bits_used, events_read, words_read};
ghost use Rattle.numbers.specs.Refused.{answered, number_of};

use counting::count_events;
use eights::{number, put_number};
use lines::plus;
use numbers::refusal::Refusal;
use places::Report;

// What was read of an accepted payload: how many bits it used, and the words of its events.
#[derive(Clone, Copy)]
pub struct Used<'a> {
    pub bits: u64,
    pub words: &'a [u32],
}

// What an accepted payload of so many bytes adds, of which it used so many bits; nothing where a number would pass.
#[tactic(auto, unfolding(crate::specs::Sums::accepts_in, crate::specs::Sums::and_then))]
fn accept(s: &mut Report, bytes: u64, bits: u64, words: &[u32]) -> Option<()>
    requires few { length words.now / 4 ≤ most_events }
    requires used { bits ≤ 8 * bytes }
    requires most { bytes ≤ most_payload }
    ensures { sum_of result s.new
        ≡ accepts_in bytes bits (events_in words.now 0 (length words.now / 4)) (numbers_in s.old) }
{
    plus(s, places::TOTAL_BITS, 8 * bytes)?;
    plus(s, places::MODE_BITS, 8)?;
    plus(s, places::PADDING_BITS, 8 * bytes - bits)?;
    plus(s, places::ANSWERED, 1)?;
    count_events(s, words)
}

// A payload that was accepted. Where a number passes, the report is again as it was, and has stopped.
fn add_accepted(report: &mut Report, bytes: u64, bits: u64, words: &[u32])
    requires few { length words.now / 4 ≤ most_events }
    requires used { bits ≤ 8 * bytes }
    requires most { bytes ≤ most_payload }
    requires goes { at (numbers_in report.old) 0 ≡ 0 }
    ensures { numbers_in report.new
        ≡ adds 0 bytes bits (events_in words.now 0 (length words.now / 4)) (numbers_in report.old) }
{
    let was = *report;
    if accept(report, bytes, bits, words).is_none() {
        *report = was;
        put_number(report, places::STOPPED, 1);
    }
}

// A payload that was refused. Every refusal has its place.
fn add_refused(report: &mut Report, why: Refusal)
    requires goes { at (numbers_in report.old) 0 ≡ 0 }
    ensures { numbers_in report.new ≡ adds (number_of why) 0 0 [] (numbers_in report.old) }
{
    let i = places::ANSWERED + why.number() as usize;
    match number(report, i).checked_add(1) {
        None => put_number(report, places::STOPPED, 1),
        Some(sum) => put_number(report, i, sum),
    }
}

// What the reading of a payload of so many bytes adds: of an accepted one the bits used and the events, else its refusal.
// A report that has stopped stays as it is. Never inlined, so that the rooms in which it counts do not stand in the frame
// from which a payload is read before.
#[inline(never)]
pub fn add(report: &mut [u8], bytes: u64, read: Result<Used<'_>, Refusal>)
    requires size { length report.old ≡ report_bytes }
    requires few { length (words_read read) / 4 ≤ most_events }
    requires used { bits_used read ≤ 8 * bytes }
    requires most { answered read ≡ 0 → bytes ≤ most_payload }
    ensures { report.new
        ≡ bytes_of (adds (answered read.entry) bytes (bits_used read.entry) (events_read read.entry) (numbers_in report.old)) }
{
    let Some(s) = report.as_mut_array() else {
        unreachable!()
    };
    if number(s, places::STOPPED) != 0 {
        return;
    }
    match read {
        Ok(used) => add_accepted(s, bytes, used.bits, used.words),
        Err(why) => add_refused(s, why),
    }
}
