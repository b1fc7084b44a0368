// Lines of text: numbers in decimal, and words between them.
ghost use Rattle.std.specs.Prelude.{◌≡◌, [], ◌++◌, ◌+◌, ◌≤◌, ℕ, List, length, take};
ghost use Rattle.list.specs.Text as meaning;

use crate::digits::decimal;
use std::marker::Model;

// A line as far as it is put together: none takes more than 128 bytes.
#[derive(Drop)]
pub struct Line {
    bytes: [u8; 128],
    filled: usize,
}

impl Model for Line {
    ghost Value = { List ℕ };

    ghost view = { λ l. take l.filled l.bytes };

    ghost invariant = { λ l. l.filled ≤ 128 };
}

impl Line {
    fn new() -> Self
        ensures { result ≡ [] }
    {
        Line {
            bytes: [0; 128],
            filled: 0,
        }
    }

    // Its bytes.
    pub fn text(&self) -> &[u8]
        ensures { result.now ≡ self.now }
    {
        &self.bytes[..self.filled]
    }

    // Bytes behind those that stand.
    fn put(&mut self, s: &[u8])
        requires { length self.old + length s.now ≤ 128 }
        ensures { self.new ≡ self.old ++ s.now }
    {
        let end = self.filled + s.len();
        self.bytes[self.filled..end].copy_from_slice(s);
        self.filled = end;
    }

    // A number in decimal.
    fn put_number(&mut self, n: u64)
        requires { length self.old + 20 ≤ 128 }
        ensures most { length self.new ≤ length self.old + 20 }
        ensures added { self.new ≡ self.old ++ meaning.decimal n }
    {
        let mut digits = [0u8; 20];
        let k = decimal(n, &mut digits);
        self.put(&digits[..k]);
    }

    // A word, and a number.
    fn put_after(&mut self, s: &[u8], n: u64)
        requires { length self.old + length s.now + 20 ≤ 128 }
        ensures most { length self.new ≤ length self.old + length s.now + 20 }
        ensures added { self.new ≡ self.old ++ (s.now ++ meaning.decimal n) }
    {
        self.put(s);
        self.put_number(n);
    }
}

// An event's line.
pub fn event_line(kind: u32, p: u32, q: u32, bits: u32) -> Line
    ensures { result ≡ meaning.event_line kind p q bits }
{
    let mut line = Line::new();
    line.put_number(kind as u64);
    line.put_after(b" ", p as u64);
    line.put_after(b" ", q as u64);
    line.put_after(b" ", bits as u64);
    line.put(b"\n");
    line
}

// The first line of a reading.
pub fn heading(events: u32, text: u32, bits: u32) -> Line
    ensures { result ≡ meaning.heading events text bits }
{
    let mut line = Line::new();
    line.put_after(b"events ", events as u64);
    line.put_after(b" text ", text as u64);
    line.put_after(b" bits ", bits as u64);
    line.put(b"\n");
    line
}

// The line of a refusal.
pub fn refusal(number: u32, place: usize) -> Line
    ensures { result ≡ meaning.refusal number place }
{
    let mut line = Line::new();
    line.put_after(b"refused ", number as u64);
    line.put_after(b" ", place as u64);
    line.put(b"\n");
    line
}
