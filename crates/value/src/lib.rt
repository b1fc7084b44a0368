// Values: which code a row of the table asks for, such a code read and sized, a text read and written.
#![tactic(auto)]

ghost use Rattle.std.specs.Prelude.{◌≡◌};

pub mod dates; // dates.rt: a date read from a place, and what its two words are on the wire
pub mod forms; // forms.rt: the code that a range, an occurs row or a simple kind asks for
pub mod kinds; // kinds.rt: a simple value read by its kind at once
mod octets; // octets.rt: bytes into a lent buffer, from a byte or from a bit of one on
pub mod reading; // reading.rt: a code or a simple value from a place, below a wall
pub mod writing; // writing.rt: how many bits a code takes, and a text's bytes into a lent buffer

use wire::{Bits, Bytes};

// A code that another holds: one of n, in the width of n; or vluimsbf5 up to a limit.
#[derive(Clone, Copy)]
pub enum Inner {
    Choice(u32),
    Five(u32),
}

// A code of one number: an inner one; 32 bits; a sign and a magnitude; a bit for none, or a bit and a number that is not 0; a word less another.
#[derive(Clone, Copy)]
pub enum Code {
    Plain(Inner),
    Word,
    Signed,
    Some(Inner),
    Shifted(u32, Inner),
}

// What a simple kind asks for: a number, a text, or a date, with a clock or without.
#[derive(Clone, Copy)]
pub enum Form {
    Number(Code),
    Text,
    Dated(bool),
}

// A simple value that was read: its word, its text's bytes and the place past it; or a date's two words.
#[derive(Clone, Copy)]
pub enum Value {
    Read { word: u32, text: Bytes, next: Bits },
    Dated { p: u32, q: u32, next: Bits },
}

impl Value {
    // One that has no text.
    pub fn word(word: u32, next: Bits) -> Value
        ensures { result ≡ Value.Read word (record { 0 = 0 }) next }
    {
        Value::Read {
            word,
            text: Bytes(0),
            next,
        }
    }
}

// The day number and the milliseconds that a date's words are.
#[derive(Clone, Copy)]
pub struct Stamp {
    pub days: u32,
    pub ms: u32,
}
