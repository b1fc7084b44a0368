// The numbers of a report's bytes, of 8 big-endian bytes each.
ghost use Rattle.std.specs.Prelude.{◌≡◌, ◌+◌, ◌*◌, ◌<◌, length, set};
ghost use Rattle.std.proofs.lemmas.List.Edits.{sets};
ghost use Rattle.report.specs.Eights.{number_from, eight};
ghost use Rattle.report.specs.Places.{numbers};
ghost use Rattle.report.specs.Report.{at};
ghost use Rattle.report.specs.Sums.{numbers_in};

use crate::places::Report;
use buffers::word;

// The number of the eight bytes from a place on. By its halves, the compiler sees that it is one load, whatever is then done with the number.
fn load(s: &[u8], p: usize) -> u64
    requires { p + 7 < length s.now }
    ensures { result ≡ number_from s.now p }
{
    let high = u64::from(word(s, p));
    let low = u64::from(word(s, p + 4));
    high * 4294967296 + low
}

// A number as eight bytes from a place on.
fn store(s: &mut [u8], p: usize, n: u64)
    requires { p + 7 < length s.old }
    ensures { s.new ≡ sets s.old p (eight n) }
{
    s[p..p + 8].copy_from_slice(&n.to_be_bytes());
}

// The number at an index of a report.
pub fn number(s: &Report, i: usize) -> u64
    requires { i < numbers }
    ensures { result ≡ at (numbers_in s.now) i }
{
    load(s, 8 * i)
}

// A number stored at an index of a report.
pub fn put_number(s: &mut Report, i: usize, n: u64)
    requires { i < numbers }
    ensures { numbers_in s.new ≡ set (numbers_in s.old) i n }
{
    store(s, 8 * i, n);
}
