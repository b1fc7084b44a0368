// Octets that are printable ASCII, 20 to 7F, passed 16 at a time and then one by one. They begin at bit k of each byte. What is passed is surely so; where a
// test that costs less is not sure, it leaves an octet to the states.
ghost use Rattle.std.specs.Prelude.{◌≡◌, true, ◌+◌, ◌≤◌, ◌<◌};
ghost use Rattle.utf8.specs.Rfc.{In};
ghost use Rattle.utf8.specs.Slanted.{octet_at, Printable, Passed};

use super::slanted::Slanted;

fn printable(octet: u8) -> bool
    ensures { result ≡ true → In 0x20 0x7F octet }
{
    matches!(octet, 0x20..=0x7F)
}

impl Slanted<'_> {
    // The octet; or, where the first byte has the bits that tell, its bits there, with zeros behind them.
    fn head(self, i: usize) -> u8
        requires { i < self.to }
        ensures { In 0x20 0x7F result → In 0x20 0x7F (octet_at self.entry.s.now self.entry.k i) }
    {
        if self.k < 6 {
            return self.s[i] << self.k;
        }
        self.octet(i)
    }

    // Whether the 16 octets from i on are printable: no way out of the loop before its end, so that it is one test of 16 octets.
    fn sixteen(self, i: usize) -> bool
        requires { i + 16 ≤ self.to }
        ensures { result ≡ true → Printable self.entry.s.now self.entry.k i (i + 16) }
    {
        let mut all = true;
        for j in 0..16 {
            all &= printable(self.head(i + j));
        }
        all
    }

    // Past printable octets, 16 at a time; the last 16 may be partly those before. By hand and not by step_by, with which a text written
    // costs 7 in 100 more.
    fn by_sixteens(self, from: usize) -> usize
        requires { from ≤ self.to }
        ensures { Passed self.entry.s.now self.entry.k from self.entry.to result }
    {
        if self.to - from < 16 {
            return from;
        }
        let last = self.to - 16;
        let mut i = from;
        while i < self.to {
            let at = i.min(last);
            if !self.sixteen(at) {
                return i;
            }
            i = at + 16;
        }
        i
    }

    // Whether an octet is surely printable, by two tests of a few bits: its first, and the next two or what the second byte has.
    fn lone(self, i: usize) -> bool
        requires { i < self.to }
        ensures { result ≡ true → In 0x20 0x7F (octet_at self.entry.s.now self.entry.k i) }
    {
        let y = self.s[i];
        if (y >> (7 - self.k)) % 2 != 0 {
            return false;
        }
        if self.k < 6 {
            return (y >> (5 - self.k)) % 4 != 0;
        }
        self.s[i + 1] >> (13 - self.k) != 0
    }

    // Past printable octets, one by one.
    fn by_ones(self, from: usize) -> usize
        requires { from ≤ self.to }
        ensures { Passed self.entry.s.now self.entry.k from self.entry.to result }
    {
        for i in from..self.to {
            if !self.lone(i) {
                return i;
            }
        }
        self.to
    }

    // Past printable octets.
    pub(crate) fn past(self, from: usize) -> usize
        requires { from ≤ self.to }
        ensures { Passed self.entry.s.now self.entry.k from self.entry.to result }
    {
        self.by_ones(self.by_sixteens(from))
    }
}
