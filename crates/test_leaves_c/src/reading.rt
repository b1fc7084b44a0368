// Codes and texts of a payload, below a wall.
ghost use Rattle.std.specs.Prelude.{◌≡◌};
ghost use Rattle.utf8.specs.Text.{text_fault};

#[unsafe(no_mangle)]
pub extern "C" fn probe_bit(s: &[u8], at: u32, out: &mut [u32; 4]) -> u32 {
    test_leaves::reading::probe_bit(s, at, out)
}

#[unsafe(no_mangle)]
pub extern "C" fn probe_fixed(s: &[u8], end: u32, at: u32, w: u32, out: &mut [u32; 4]) -> u32 {
    test_leaves::reading::probe_fixed(s, end, at, w, out)
}

#[unsafe(no_mangle)]
pub extern "C" fn probe_any5(s: &[u8], end: u32, at: u32, out: &mut [u32; 4]) -> u32 {
    test_leaves::reading::probe_any5(s, end, at, out)
}

#[unsafe(no_mangle)]
pub extern "C" fn probe_any8(s: &[u8], end: u32, at: u32, out: &mut [u32; 4]) -> u32 {
    test_leaves::reading::probe_any8(s, end, at, out)
}

#[unsafe(no_mangle)]
pub extern "C" fn probe_vlu5(s: &[u8], end: u32, at: u32, out: &mut [u32; 4]) -> u32 {
    test_leaves::reading::probe_vlu5(s, end, at, out)
}

#[unsafe(no_mangle)]
pub extern "C" fn probe_vlu8(s: &[u8], end: u32, at: u32, out: &mut [u32; 4]) -> u32 {
    test_leaves::reading::probe_vlu8(s, end, at, out)
}

#[unsafe(no_mangle)]
pub extern "C" fn probe_choice(s: &[u8], end: u32, at: u32, n: u32, out: &mut [u32; 4]) -> u32 {
    test_leaves::reading::probe_choice(s, end, at, n, out)
}

#[unsafe(no_mangle)]
pub extern "C" fn probe_number(s: &[u8], end: u32, at: u32, most: u32, out: &mut [u32; 4]) -> u32 {
    test_leaves::reading::probe_number(s, end, at, most, out)
}

// A value from b to c.
#[unsafe(no_mangle)]
pub extern "C" fn probe_range(
    s: &[u8],
    end: u32,
    at: u32,
    b: u32,
    c: u32,
    out: &mut [u32; 4],
) -> u32 {
    test_leaves::reading::probe_range(s, end, at, b, c, out)
}

// A count of an occurs row.
#[unsafe(no_mangle)]
pub extern "C" fn probe_times(
    s: &[u8],
    end: u32,
    at: u32,
    least: u32,
    most: u32,
    out: &mut [u32; 4],
) -> u32 {
    test_leaves::reading::probe_times(s, end, at, least, most, out)
}

// A simple value: its word and its place, then a text's bytes, then a date's second word.
#[unsafe(no_mangle)]
pub extern "C" fn probe_simple(
    s: &[u8],
    end: u32,
    at: u32,
    kind: u32,
    b: u32,
    c: u32,
    out: &mut [u32; 4],
) -> u32 {
    test_leaves::reading::probe_simple(s, end, at, kind, b, c, out)
}

#[unsafe(no_mangle)]
pub extern "C" fn probe_byte(s: &[u8], at: u32, out: &mut [u32; 4]) -> u32 {
    test_leaves::reading::probe_byte(s, at, out)
}

// What is wrong with n bytes from a place, aligned or not.
#[unsafe(no_mangle)]
pub extern "C" fn probe_text_fault(s: &[u8], at: u32, n: u32, out: &mut [u32; 4]) -> u32 {
    test_leaves::reading::probe_text_fault(s, at, n, out)
}

#[unsafe(no_mangle)]
pub extern "C" fn probe_utf8(text: &[u8]) -> u32
    ensures { result ≡ text_fault text.now }
{
    test_leaves::reading::probe_utf8(text)
}
