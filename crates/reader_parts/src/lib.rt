// The reader's parts: what it stores, and each part of an element that holds no element. They speak for every path; who opens elements holds it.
#![tactic(auto)]

ghost use Rattle.std.specs.Prelude.{◌<◌};
ghost use Rattle.numbers.specs.Limit.{most_names};
ghost use Rattle.reader_parts.specs.Paths.{Pushed};

pub mod attributes; // attributes.rt: one attribute, and all of a type
pub mod codes; // codes.rt: an element's substitution code and type code, and their event
pub mod ends; // ends.rt: the end of an element
pub mod heads; // heads.rt: an element's flag and length
pub mod opening; // opening.rt: behind its head an element is opened, a Blank, or refused
pub mod storing; // storing.rt: one event
pub mod values; // values.rt: a simple value, with its text

use numbers::limit;
use numbers::refusal::{Fault, Refusal};
use wire::Bits;

// Where a reading is: the place in the payload, how many events and how many text bytes are stored.
#[derive(Clone, Copy)]
pub struct Cursor {
    pub at: Bits,
    pub count: u32,
    pub used: usize,
}

// A part was read; or what is refused, and where.
pub type Step = Result<Cursor, Fault<Bits>>;

// The names of the open elements, the outermost first. By value: who opened an element has, at its End, the path without it.
#[derive(Clone, Copy)]
pub struct Path {
    pub names: [u16; limit::MOST_NAMES],
    pub count: usize,
}

// An element's head: where its body begins; or that and its declared end.
#[derive(Clone, Copy)]
pub enum Head {
    Bare(Bits),
    Sized(Bits, Bits),
}

// An element's codes: its effective type, its substitute (from 1, or 0), the place past them, and whether a flag bit was sent.
#[derive(Clone, Copy)]
pub struct Cast {
    pub effective: u32,
    pub substitute: u32,
    pub next: Bits,
    pub sent: bool,
}

// What an element's codes say; or why they are refused.
pub type Coded = Result<Cast, Refusal>;

// An element that is open: its effective type, and where the reading is.
#[derive(Clone, Copy)]
pub struct Inner {
    pub cursor: Cursor,
    pub effective: u32,
}

// What becomes of an element behind its head: refused before it is in the path; a Blank; refused once it is in the path, as for lack of room for its codes'
// event; open. One enum and no Result of it: with that and `?`, 2,048 events read cost 14 in 100 more (its guard is 1.31).
#[derive(Clone, Copy)]
pub enum Opened {
    Refuse(Fault<Bits>),
    Blank(Cursor),
    Full(Fault<Bits>),
    In(Inner),
}

impl Path {
    // An element is opened.
    pub fn push(mut self, name: u16) -> Path
        requires { self.count < most_names }
        ensures { Pushed self name result }
    {
        let n = self.count;
        self.names[n] = name;
        self.count = n + 1;
        self
    }
}
