// A text whose octets begin at a bit of each byte, as texts stand in a payload; its highest bit is bit 0.
// `octet` and `text_fault` are passed its parts and no `Slanted`: docs/PROMISES.md names them with the bounds that they ask for.
ghost use Rattle.std.specs.Prelude.{◌≡◌, true, ◌+◌, ◌-◌, ◌≤◌, ◌<◌};
ghost use Rattle.numbers.specs.Refused.{answered};
ghost use Rattle.utf8.specs.Text.{text_fault};
ghost use Rattle.utf8.specs.Slanted.{octet_at, octets_at, AllBytes, Within, Went, Skipped};

use super::{State, control, fault, step};
use numbers::refusal::Refusal;

// The octet from bit k of byte i on.
pub fn octet(s: &[u8], k: u32, i: usize) -> u8
    requires { (k < 8) × Within s.now k (i + 1) }
    ensures { result ≡ octet_at s.now k i }
{
    if k == 0 {
        return s[i];
    }
    let high = s[i] << k;
    let low = s[i + 1] >> (8 - k);
    high + low
}

// The octets up to bit k of byte `to`, all of them there.
#[derive(Clone, Copy)]
pub(crate) struct Slanted<'a> {
    pub(crate) s: &'a [u8],
    pub(crate) k: u32,
    pub(crate) to: usize,
    ghost bytes: { AllBytes s.now },
    ghost bit: { k < 8 },
    ghost within: { Within s.now k to },
}

impl Slanted<'_> {
    // The octet from byte i on.
    pub(crate) fn octet(self, i: usize) -> u8
        requires { i < self.to }
        ensures { result ≡ octet_at self.entry.s.now self.entry.k i }
    {
        octet(self.s, self.k, i)
    }

    // Whether a character of two octets begins at i.
    fn pair(self, i: usize) -> bool
        requires { i ≤ self.to }
        ensures { result ≡ true → Went self.entry.s.now self.entry.k i self.entry.to (i + 2) }
    {
        if self.to - i < 2 {
            return false;
        }
        match self.octet(i) {
            0xC2..=0xDF => matches!(self.octet(i + 1), 0x80..=0xBF),
            _ => false,
        }
    }

    // Past characters of one octet and of two. A loop and no `for`: `past` says where each turn begins.
    fn characters(self, from: usize) -> usize
        requires { from ≤ self.to }
        ensures { Went self.entry.s.now self.entry.k from self.entry.to result }
    {
        let mut i = from;
        loop {
            i = self.past(i);
            if !self.pair(i) {
                return i;
            }
            i += 2;
        }
    }

    // The octet to look at next, from i on: between two characters, past those that nothing is wrong with.
    fn skip(self, state: State, i: usize) -> usize
        requires { i ≤ self.to }
        ensures { Skipped self.entry.s.now self.entry.k i self.entry.to state result }
    {
        match state {
            State::Start => self.characters(i),
            _ => i,
        }
    }
}

// What is wrong with the text from bit k of byte from on, up to bit k of byte to. A `while` and no `for`: `skip` says which octet comes next.
pub fn text_fault(s: &[u8], from: usize, to: usize, k: u32) -> Result<(), Refusal>
    requires { (from ≤ to) × (k < 8) × Within s.now k to }
    ensures { answered result ≡ text_fault (octets_at s.now k from (to - from)) }
{
    let text = Slanted { s, k, to };
    let mut state = State::Start;
    let mut found = false;
    let mut i = from;
    while i < to {
        i = text.skip(state, i);
        if i < to {
            let x = text.octet(i);
            found |= control(x);
            state = step(state, x);
            i += 1;
        }
    }
    fault(state, found)
}
