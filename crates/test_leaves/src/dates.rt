// The calendar.
use super::{accepted, refused};
use calendar::{date_of, day_of};
use numbers::refusal::Refusal;

// Year, month and day of a day number.
pub fn probe_date_of(days: u32, out: &mut [u32; 4]) -> u32 {
    let d = date_of(days);
    accepted(d.year, d.month, d.day, out)
}

// The day number of a date; or 20.
pub fn probe_day_of(year: u32, month: u32, day: u32, out: &mut [u32; 4]) -> u32 {
    match day_of(year, month, day) {
        None => refused(Refusal::OutsideRow.number(), out),
        Some(n) => accepted(n, 0, 0, out),
    }
}
