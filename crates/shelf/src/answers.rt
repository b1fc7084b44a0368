// What the functions on streams and files answer.
use numbers::refusal::{Fault, Refusal};

// Where the next record of a stream begins, and how many were passed.
#[derive(Clone, Copy)]
pub struct Reached {
    pub place: usize,
    pub count: usize,
}

// How far records could be followed; or where one begins whose length is too great.
pub type Walk = Result<Reached, usize>;

// How many records a stream is; or the block at fault, where it is no whole records.
pub type Soundness = Result<usize, usize>;

// Where the stream has come to behind a block that is in step with it.
pub type Stepped = Option<Reached>;

// The bytes and the records of a file's stream; or what is refused, and the block.
pub type Scan = Result<Reached, Fault<usize>>;

// How many records, bytes of the stream, bytes of the file.
#[derive(Clone, Copy)]
pub struct Sizes {
    pub records: usize,
    pub stream: usize,
    pub file: usize,
}

// What writing or reading answers; what is refused is so at a block.
pub type Answer = Result<Sizes, Fault<usize>>;

// Where the first record begins that was named in a stretch of good blocks, and how far the records are followed from it.
#[derive(Clone, Copy)]
pub struct Trail {
    pub start: usize,
    pub reached: Reached,
}

// What is known before a block of a damaged file; of no record's start, nothing.
pub type Known = Option<Trail>;

// A block judged with what stands before it: what is known behind it; or why it is bad.
pub type Judged = Result<Known, Refusal>;

// The records that are kept of a stretch of good blocks: where the first begins, where the last ends, and how many they are.
#[derive(Clone, Copy)]
pub struct Kept {
    pub start: usize,
    pub stop: usize,
    pub count: usize,
}

// The entries of a list, and the bytes that they tell of.
#[derive(Clone, Copy)]
pub struct Listed {
    pub entries: usize,
    pub dropped: usize,
}

// What was salvaged so far: records, their bytes, and what was listed.
#[derive(Clone, Copy)]
pub struct Tally {
    pub records: usize,
    pub stream: usize,
    pub listed: Listed,
}

// Before a block: where its stretch begins, what is known, and what was salvaged of the stretches before.
#[derive(Clone, Copy)]
pub struct Stand {
    pub first: usize,
    pub known: Known,
    pub tally: Tally,
}

// What a salvage gives: the new file's sizes, and the list of what is dropped.
#[derive(Clone, Copy)]
pub struct Saved {
    pub sizes: Sizes,
    pub listed: Listed,
}

// What a salvage answers.
pub type Rescued = Result<Saved, Fault<usize>>;
