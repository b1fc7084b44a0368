// The calendar.
// Year, month and day of a day number.
#[unsafe(no_mangle)]
pub extern "C" fn probe_date_of(days: u32, out: &mut [u32; 4]) -> u32 {
    test_leaves::dates::probe_date_of(days, out)
}

// The day number of a date; or 20.
#[unsafe(no_mangle)]
pub extern "C" fn probe_day_of(year: u32, month: u32, day: u32, out: &mut [u32; 4]) -> u32 {
    test_leaves::dates::probe_day_of(year, month, day, out)
}
