// The lines of a report: which one is a name's, and what is added to it.
ghost use Rattle.std.specs.Prelude.{◌≡◌, ◌+◌, ◌*◌, ◌<◌};
ghost use Rattle.report.specs.Places as place;
ghost use Rattle.report.specs.Places.{numbers, other, first_line, lines, line_numbers};
ghost use Rattle.report.specs.Report.{line_of, named};
ghost use Rattle.report.specs.Sums as sums;
ghost use Rattle.report.specs.Sums.{put, sum_of, numbers_in};

use crate::eights::{number, put_number};
use crate::places;
use crate::places::Report;
use numbers::limit;
use std::marker::Model;

// A line by its number, the first of which is the line of all names that have none. A clause sees where its numbers begin.
#[derive(Clone, Copy)]
pub struct Line {
    number: u32,
}

impl Model for Line {
    ghost use Rattle.std.specs.Prelude.{ℕ, ◌+◌, ◌-◌, ◌*◌, ◌/◌, ◌≤◌};
    ghost use Rattle.report.specs.Places.{other, lines, line_numbers};

    ghost Value = { ℕ };

    ghost view = { λ l. other + line_numbers * l.number };

    ghost invariant = { λ l. l.number ≤ lines };

    ghost inverse = { λ i. record { number = (i - other) / line_numbers } };
}

impl Line {
    // The line of all names that have none.
    pub fn other() -> Line
        ensures { result ≡ other }
    {
        Line { number: 0 }
    }

    // The k-th of the lines of names.
    fn of_names(k: usize) -> Line
        requires { k < lines }
        ensures { result ≡ first_line + line_numbers * k }
    {
        Line {
            number: k as u32 + 1,
        }
    }

    // Where its numbers begin.
    pub fn place(self) -> usize
        ensures is { result ≡ self }
        ensures line { sums.Line result }
    {
        places::OTHER + places::LINE * self.number as usize
    }
}

// Adds to a number, unless it would pass.
#[tactic(auto, unfolding(crate::specs::Sums::put))]
pub fn plus(s: &mut Report, i: usize, n: u64) -> Option<()>
    requires { i < numbers }
    ensures { sum_of result s.new ≡ put i n (numbers_in s.old) }
{
    let sum = number(s, i).checked_add(n)?;
    put_number(s, i, sum);
    Some(())
}

// The line of a name: the first that is free or has it, else the line of all others.
pub fn line_of(s: &Report, name: u64) -> Line
    ensures { result ≡ line_of (numbers_in s.now) name }
{
    for k in 0..limit::REPORT_LINES {
        let i = places::FIRST_LINE + places::LINE * k;
        if number(s, i + 1) == 0 || number(s, i) == name {
            return Line::of_names(k);
        }
    }
    Line::other()
}

// A line found for a name has it, and has been seen once more.
#[tactic(auto, unfolding(crate::specs::Report::named))]
pub fn meet(s: &mut Report, line: Line, name: u64) -> Option<()>
    ensures { sum_of result s.new ≡ put (place.seen line) 1 (named line name (numbers_in s.old)) }
{
    let i = line.place();
    if i != places::OTHER {
        put_number(s, i, name);
    }
    plus(s, i + 1, 1)
}
