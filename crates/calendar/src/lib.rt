// The calendar: a day number, counted from 1858-11-17, as year, month and day; and back, where a date has a number of 32 bits.
// By formulas, without a loop over days or years. Days before 1858 added to a day number pass a word: the sums are u64's.
#![tactic(auto)]

ghost use Rattle.std.specs.Prelude.{◌≡◌, ◌+◌, ◌-◌, ◌*◌, ◌≤◌, ◌<◌};
ghost use Rattle.calendar.specs.Plain.{date_of, days_in, leap};
ghost use Rattle.calendar.specs.Formulas.{from_march, monthly, yearly, in_word, day_by, year_start, month_start};

#[derive(Clone, Copy)]
pub struct Date {
    pub year: u32,
    pub month: u32,
    pub day: u32,
}

// The days from 1 March of year 0 to day 0.
const BEFORE: u64 = 678881;

// A month counted from March, 0, as one counted from January, 1: the last two belong to the next year.
#[tactic(auto, unfolding(crate::specs::Formulas::from_march))]
fn from_march(year: u32, month: u32, day: u32) -> Date
    requires { (year < 4294967295) × (month < 4294967293) }
    ensures { result ≡ from_march year month day }
{
    if month < 10 {
        return Date {
            year,
            month: month + 3,
            day,
        };
    }
    Date {
        year: year + 1,
        month: month - 9,
        day,
    }
}

// Of a year counted from March five times its days that have passed, and 2: months of 31, 30, 31, 30, 31 days are 153 together.
#[tactic(auto, unfolding(crate::specs::Formulas::monthly))]
fn month_of(year: u32, rest: u32) -> Date
    requires { (year < 4294967295) × (rest < 4294967293) }
    ensures { result ≡ monthly year rest }
{
    from_march(year, rest / 153, rest % 153 / 5 + 1)
}

// Of a century four times its days that have passed, and 3: four years are 1461 days together.
#[tactic(auto, unfolding(crate::specs::Formulas::yearly))]
fn year_of(century: u32, rest: u32) -> Date
    requires { (century < 1000000) × (rest < 1000000) }
    ensures { result ≡ yearly century rest }
{
    month_of(100 * century + rest / 1461, 5 * (rest % 1461 / 4) + 2)
}

// The date of a day number: four centuries are 146097 days together.
#[tactic(auto, using(crate::proofs::Laws::date_by_steps))]
pub fn date_of(days: u32) -> Date
    ensures { result ≡ date_of days }
{
    let quarters = 4 * (u64::from(days) + BEFORE) + 3;
    let century = quarters / 146097;
    let rest = 4 * (quarters % 146097 / 4) + 3;
    year_of(century as u32, rest as u32)
}

#[tactic(auto, unfolding(crate::specs::Plain::leap))]
fn is_leap(year: u32) -> bool
    ensures { result ≡ leap year }
{
    if year % 100 == 0 {
        return year % 400 == 0;
    }
    year % 4 == 0
}

// The days of a month; of what is no month none.
#[tactic(auto, unfolding(crate::specs::Plain::days_in))]
fn days_in(year: u32, month: u32) -> u32
    ensures { result ≡ days_in year month }
{
    match month {
        1 | 3 | 5 | 7 | 8 | 10 | 12 => 31,
        4 | 6 | 9 | 11 => 30,
        2 if is_leap(year) => 29,
        2 => 28,
        _ => 0,
    }
}

// Days from 1 March of year 0 as a day number, where it is one.
#[tactic(auto, unfolding(crate::specs::Formulas::in_word))]
fn in_word(days: u64) -> Option<u32>
    ensures { result ≡ in_word days }
{
    let n = days.checked_sub(BEFORE)?;
    u32::try_from(n).ok()
}

// The day that lies so many days after the first of a month, of a year counted from March.
#[tactic(auto, unfolding(crate::specs::Formulas::year_start, crate::specs::Formulas::month_start))]
fn from_first(year: u64, month: u64, days: u64) -> Option<u32>
    requires { (year < 4294967296) × (month < 4294967296) × (days < 4294967296) }
    ensures { result ≡ in_word (year_start year + month_start month + days) }
{
    let before_year = 365 * year + year / 4 + year / 400 - year / 100;
    let before_month = (153 * month + 2) / 5;
    in_word(before_year + before_month + days)
}

// The day number of a date, or none: of what is no calendar day, and of a day before 1858-11-17 or after 11761079-12-06.
#[tactic(auto, using(crate::proofs::Laws::early_none), unfolding(crate::specs::Formulas::day_by, crate::specs::Formulas::days_to))]
pub fn day_of(year: u32, month: u32, day: u32) -> Option<u32>
    ensures { result ≡ day_by year month day }
{
    if day < 1 || days_in(year, month) < day || year < 1858 {
        return None;
    }
    let y = u64::from(year);
    let m = u64::from(month);
    let d = u64::from(day);
    if month < 3 {
        return from_first(y - 1, m + 9, d - 1);
    }
    from_first(y, m - 3, d - 1)
}
