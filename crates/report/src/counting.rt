// The events of a payload, counted in turn.
ghost use Rattle.std.specs.Prelude.{◌≡◌, [], ◌/◌, ◌<◌, ◌≤◌, length};
ghost use Rattle.numbers.specs.Limit.{most_events};
ghost use Rattle.report.specs.Report.{sort_of, line_for, open_after};
ghost use Rattle.report.specs.Sums.{sum_of, numbers_in, sort_is, events_in, counted_in, counts_in};

use crate::lines::{Line, line_of, meet, plus};
use crate::places::Report;
use crate::stack::Stack;
use numbers::kind;

// What an event does: it begins an element, is one that was stepped over, ends one, or belongs to the one that is open.
#[derive(Clone, Copy)]
enum Sort {
    Begins,
    Blank,
    Ends,
    Inside,
}

#[tactic(auto, unfolding(crate::specs::Report::sort_of, crate::specs::Sums::sort_is))]
fn sort_of(kind: u32) -> Sort
    ensures { sort_is result ≡ sort_of kind }
{
    if kind == kind::START {
        return Sort::Begins;
    }
    if kind == kind::BLANK {
        return Sort::Blank;
    }
    if kind == kind::END {
        return Sort::Ends;
    }
    Sort::Inside
}

// The line that an event belongs to: its own element's, or that of the innermost element that is open.
#[tactic(auto, unfolding(crate::specs::Report::line_for, crate::specs::Sums::sort_is))]
fn line_for(s: &Report, stack: &Stack, sort: Sort, name: u64) -> Line
    ensures { result ≡ line_for (sort_is sort) name stack.now (numbers_in s.now) }
{
    match sort {
        Sort::Begins | Sort::Blank => line_of(s, name),
        Sort::Ends | Sort::Inside => stack.top(),
    }
}

// An event of a line: an element that begins or is stepped over has been seen, and the bits are its own or blanked.
#[tactic(auto, unfolding(crate::specs::Sums::counted_in, crate::specs::Sums::met_in, crate::specs::Sums::and_then, crate::specs::Sums::sort_is, crate::specs::Report::bits_to))]
fn count_event(s: &mut Report, line: Line, sort: Sort, name: u64, bits: u64) -> Option<()>
    ensures { sum_of result s.new ≡ counted_in (sort_is sort) name bits line (numbers_in s.old) }
{
    match sort {
        Sort::Begins => {
            meet(s, line, name)?;
            plus(s, line.place() + 2, bits)
        }
        Sort::Blank => {
            meet(s, line, name)?;
            plus(s, line.place() + 3, bits)
        }
        Sort::Ends | Sort::Inside => plus(s, line.place() + 2, bits),
    }
}

// The stack of open elements' lines after an event.
#[tactic(auto, unfolding(crate::specs::Report::open_after, crate::specs::Sums::sort_is))]
fn open_after(stack: &mut Stack, sort: Sort, line: Line)
    requires { length stack.old < most_events }
    ensures { stack.new ≡ open_after (sort_is sort) line stack.old }
{
    match sort {
        Sort::Begins => stack.push(line),
        Sort::Ends => stack.pop(),
        Sort::Blank | Sort::Inside => {}
    }
}

// The events of words, four words each, in turn.
pub fn count_events(s: &mut Report, words: &[u32]) -> Option<()>
    requires { length words.now / 4 ≤ most_events }
    ensures { sum_of result s.new ≡ counts_in (events_in words.now 0 (length words.now / 4)) [] (numbers_in s.old) }
{
    let (events, _) = words.as_chunks::<4>();
    let mut stack = Stack::new();
    for &[kind, name, _, bits] in events {
        let sort = sort_of(kind);
        let name = u64::from(name);
        let bits = u64::from(bits);
        let line = line_for(s, &stack, sort, name);
        count_event(s, line, sort, name, bits)?;
        open_after(&mut stack, sort, line);
    }
    Some(())
}
