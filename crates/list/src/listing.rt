// The input taken apart, and read.
ghost use Rattle.std.specs.Prelude.{◌≡◌, ◌+◌, ◌≤◌, min, length};
ghost use Rattle.numbers.specs.Limit.{most_table_words};
ghost use Rattle.list.specs.Listing as meaning;

use buffers::{half, load, word};
use numbers::limit;
use reader::{Reading, Refused, read};

// The listing is party 0's.
const LISTED_FOR: u32 = 0;

// A table of no words.
fn unread(input: &[u8], events: &mut [u32], texts: &mut [u8]) -> Result<Reading, Refused>
    ensures { meaning.Answers meaning.unread
        events.old texts.old result events.new texts.new }
{
    let words = [0u32; 4];
    read(&words[..0], LISTED_FOR, 0, 0, input, events, texts)
}

// One payload byte more than is allowed is looked at, so that PAYLOAD_SIZE shows.
const LOOKED_AT: usize = limit::MOST_PAYLOAD + 1;

// Where the payload ends, as far as it is looked at.
fn payload_end(from: usize, size: usize) -> usize
    requires { from ≤ size }
    ensures { result ≡ min size (from + 8193) }
{
    if size - from < LOOKED_AT {
        return size;
    }
    from + LOOKED_AT
}

// The parts behind a count of n words.
fn read_parts(
    input: &[u8],
    n: usize,
    events: &mut [u32],
    texts: &mut [u8],
) -> Result<Reading, Refused>
    requires { (n ≤ most_table_words) × (meaning.payload_at n ≤ length input.now) }
    ensures { meaning.Answers (meaning.listed input.now n)
        events.old texts.old result events.new texts.new }
{
    let at = 4 + 4 * n;
    let root_name = half(input, at);
    let root_type = half(input, at + 2);
    let mut words = [0u32; limit::MOST_TABLE_WORDS];
    load(&input[4..at], &mut words, n);
    let from = at + 4;
    let to = payload_end(from, input.len());
    read(
        &words[..n],
        LISTED_FOR,
        root_name,
        root_type,
        &input[from..to],
        events,
        texts,
    )
}

// The whole input.
pub fn read_input(input: &[u8], events: &mut [u32], texts: &mut [u8]) -> Result<Reading, Refused>
    ensures { meaning.Answers (meaning.listing input.now)
        events.old texts.old result events.new texts.new }
{
    let size = input.len();
    if size < 8 {
        return unread(input, events, texts);
    }
    let n = word(input, 0) as usize;
    if limit::MOST_TABLE_WORDS < n {
        return unread(input, events, texts);
    }
    if size < 8 + 4 * n {
        return unread(input, events, texts);
    }
    read_parts(input, n, events, texts)
}
