// Codes and texts into a lent buffer, at a place.
#[unsafe(no_mangle)]
pub extern "C" fn probe_put(buf: &mut [u8], at: u32, w: u32, v: u32, out: &mut [u32; 4]) -> u32 {
    test_leaves::writing::probe_put(buf, at, w, v, out)
}

#[unsafe(no_mangle)]
pub extern "C" fn probe_put5(buf: &mut [u8], at: u32, v: u32, out: &mut [u32; 4]) -> u32 {
    test_leaves::writing::probe_put5(buf, at, v, out)
}

#[unsafe(no_mangle)]
pub extern "C" fn probe_put8(buf: &mut [u8], at: u32, v: u32, out: &mut [u32; 4]) -> u32 {
    test_leaves::writing::probe_put8(buf, at, v, out)
}

#[unsafe(no_mangle)]
pub extern "C" fn probe_size_range(b: u32, c: u32, v: u32, out: &mut [u32; 4]) -> u32 {
    test_leaves::writing::probe_size_range(b, c, v, out)
}

#[unsafe(no_mangle)]
pub extern "C" fn probe_size_times(least: u32, most: u32, v: u32, out: &mut [u32; 4]) -> u32 {
    test_leaves::writing::probe_size_times(least, most, v, out)
}

#[unsafe(no_mangle)]
pub extern "C" fn probe_size_simple(kind: u32, b: u32, c: u32, v: u32, out: &mut [u32; 4]) -> u32 {
    test_leaves::writing::probe_size_simple(kind, b, c, v, out)
}

// A date as the writer puts it, of the kind DATE_TIME or else DATE; the bits it takes, and the place past it.
#[unsafe(no_mangle)]
pub extern "C" fn probe_put_date(
    buf: &mut [u8],
    at: u32,
    kind: u32,
    p: u32,
    q: u32,
    out: &mut [u32; 4],
) -> u32 {
    test_leaves::writing::probe_put_date(buf, at, kind, p, q, out)
}

#[unsafe(no_mangle)]
pub extern "C" fn probe_put_range(
    buf: &mut [u8],
    at: u32,
    b: u32,
    c: u32,
    v: u32,
    out: &mut [u32; 4],
) -> u32 {
    test_leaves::writing::probe_put_range(buf, at, b, c, v, out)
}

#[unsafe(no_mangle)]
pub extern "C" fn probe_put_times(
    buf: &mut [u8],
    at: u32,
    least: u32,
    most: u32,
    v: u32,
    out: &mut [u32; 4],
) -> u32 {
    test_leaves::writing::probe_put_times(buf, at, least, most, v, out)
}

#[unsafe(no_mangle)]
pub extern "C" fn probe_put_simple(
    buf: &mut [u8],
    at: u32,
    kind: u32,
    b: u32,
    c: u32,
    v: u32,
    out: &mut [u32; 4],
) -> u32 {
    test_leaves::writing::probe_put_simple(buf, at, kind, b, c, v, out)
}

#[unsafe(no_mangle)]
pub extern "C" fn probe_put_bytes(buf: &mut [u8], at: u32, text: &[u8], out: &mut [u32; 4]) -> u32 {
    test_leaves::writing::probe_put_bytes(buf, at, text, out)
}
