// The writer's parts: what is noted for an event, as one number; each part of an element that holds no element; the pen that writes notes down.
#![tactic(auto)]

pub mod attributes; // attributes.rt: one attribute, and all of a type
pub mod codes; // codes.rt: an element's codes, judged and noted
pub mod ends; // ends.rt: the end of an element
pub mod heads; // heads.rt: an element's Start judged, its flag and length as a code
pub mod judging; // judging.rt: one event judged, and its note kept
pub mod leaves; // leaves.rt: one event judged and noted
pub mod notes; // notes.rt: a code as a number, and the note of one
pub mod pen; // pen.rt: notes into a lent buffer
pub mod values; // values.rt: a simple value with its text, a branch, a count

use numbers::refusal::{Fault, Refusal};
use wire::Coded;

// A code as a number, or why there is none.
pub type Spelling = Result<Coded, Refusal>;

// A date's note, and how many bits that is.
#[derive(Clone, Copy)]
pub struct SizedNote {
    pub note: u64,
    pub bits: u32,
}

// Where a walk over the list of events is: the next event, the text bytes used, the bits of what was noted.
#[derive(Clone, Copy)]
pub struct Spot {
    pub event: usize,
    pub used: usize,
    pub bits: u32,
}

// One event judged, or several: where the walk goes on; or what is refused, and its event.
pub type Judgement = Result<Spot, Fault<usize>>;

// An element's codes judged: its effective type, and where the walk goes on; or what is refused, and its event.
pub type Cast = Result<(u32, Spot), Fault<usize>>;
