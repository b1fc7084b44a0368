// The start-up message (DecoderInit of 001, 7.2): what it says as words, read from bytes and written as bytes.
// A message is a run of items, each of which says one thing; which comes next hangs on what the ones before it said.
#![tactic(auto)]

pub mod calls; // calls.rt: the calls for a C host
pub mod items; // items.rt: an item's number, judged, and its words
mod lent; // lent.rt: what a reading leaves
mod page; // page.rt: a message's bytes, as far as there is room
pub mod phases; // phases.rt: which item comes next, and where its words stand
pub mod reading; // reading.rt: a message read
pub mod writing; // writing.rt: a message written

// What an item is. Its number is a vluimsbf8 of at most two bytes, but for the unit, the flags and the formats, where it is a byte.
#[derive(Clone, Copy)]
pub enum Item {
    // A number that the host compares: profile, number of codecs, number of types, a type.
    Number,
    // The unit byte: unit size code, NoAdvancedFeatures, reserved bits.
    UnitByte,
    // The bytes that the flags take.
    Length,
    // The flags, in so many bytes; the first of them has all seven flags.
    Flags(u32),
    // The number of schemas.
    Schemas,
    // A count of bytes, and that many: one at least.
    Uri,
    // A count of bytes, and that many.
    Text,
    // A count that is a byte, and that many bytes.
    Formats,
    // No flags: nothing on the wire, and zero words.
    NoFlags,
    // No formats: the same.
    NoFormats,
}

// Where an item's words stand: from a word of init on, or next in codecs.
#[derive(Clone, Copy)]
pub enum Slot {
    Init(usize),
    Codecs,
}

// What of the schemas is still to come: a schema's place in init, and how many schemas, codecs and types follow.
#[derive(Clone, Copy)]
pub struct Left {
    pub slot: usize,
    pub schemas: u32,
    pub codecs: u32,
    pub types: u32,
    pub formats: bool,
}

// Which item is next.
#[derive(Clone, Copy)]
pub enum Phase {
    Profile,
    UnitByte,
    NoFlags,
    Length,
    Flags(u32),
    Schemas(bool),
    Uri(Left),
    Hint(Left),
    Codecs(Left),
    Codec(Left),
    Types(Left),
    OneType(Left),
    Formats,
    NoFormats,
    Description,
    End,
}
