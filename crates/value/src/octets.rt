// Bytes into a lent buffer, a byte at a time: from a byte on, or from a bit of one, the highest of which is bit 0.
ghost use Rattle.std.specs.Prelude.{◌+◌, ◌*◌, ◌≤◌, ◌<◌, length};
ghost use Rattle.value.specs.Answer.{WroteBytes};

// From byte q on. Not by `copy_from_slice`, of which the compiler makes a memmove here, a name that an archive for C would newly need from outside.
pub fn lay(buf: &mut [u8], q: usize, text: &[u8])
    requires { q + length text.now ≤ length buf.old }
    ensures { WroteBytes buf.old buf.new (8 * q) text.now }
{
    for (i, &x) in text.iter().enumerate() {
        buf[q + i] = x;
    }
}

// From bit k of byte q on: each byte stored has the low bits of one octet, c, and the high bits of the next.
pub fn lay_slanted(buf: &mut [u8], q: usize, k: u32, text: &[u8])
    requires { (0 < k) × (k < 8) × (q + length text.now < length buf.old) }
    ensures { WroteBytes buf.old buf.new (8 * q + k) text.now }
{
    let h = 8 - k;
    let mut c = buf[q] >> h;
    for (i, &x) in text.iter().enumerate() {
        buf[q + i] = (c << h) + (x >> k);
        c = x;
    }
    let p = q + text.len();
    buf[p] = (c << h) + ((buf[p] << k) >> k);
}
