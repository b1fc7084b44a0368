// Following the records of a stream, from start to start.
ghost use Rattle.std.specs.Prelude.{◌≡◌, ℕ, ◌+◌, ◌*◌, ◌<◌, ◌≤◌, length};
ghost use Rattle.numbers.specs.Limit.{block_data};
ghost use Rattle.shelf.specs.Answers.{walk_of, soundness_of};
ghost use Rattle.shelf.specs.Stream as meaning;
ghost use Rattle.shelf.specs.Stream.{byte_at, fault, named, first_from};
ghost use Rattle.shelf.specs.Block as blocks;
ghost use Rattle.shelf.specs.Promises as promises;
ghost use Rattle.shelf.specs.Promises.{Fewer, Followed};

use crate::answers::{Reached, Soundness, Walk};
use buffers::half;
use numbers::limit;

// The bytes of a stream, wherever they lie. A place that can be read is below 2^63, as no slice is longer.
pub trait Stream: Copy {
    ghost size: { Self → ℕ };

    ghost bytes: { Self → ℕ → ℕ };

    // The length of the record that begins at p.
    fn length_at(self, p: usize) -> usize
        requires { p + 1 < size self }
        ensures { (result ≡ meaning.length_at (bytes self) p) × (result < 65536) × (p < 9223372036854775808) };

    // The same where the length ends at `last` or before it.
    fn length_by(self, last: usize, p: usize) -> usize
        requires { (p < last) × (last < size self) }
        ensures { (result ≡ meaning.length_at (bytes self) p) × (result < 65536) × (p < 9223372036854775808) };
}

impl Stream for &[u8] {
    ghost size = { λ s. length s.now };

    ghost bytes = { λ s. byte_at s.now };

    fn length_at(self, p: usize) -> usize {
        half(self, p) as usize
    }

    fn length_by(self, _last: usize, p: usize) -> usize {
        self.length_at(p)
    }
}

// Follows records on from where they are reached, while a length's second byte lies before end.
pub fn walk<S: Stream>(s: S, end: usize, from: Reached) -> Walk
    requires { (0 < end) × (end ≤ S.size s) × (from.count ≤ from.place) }
    ensures { walk_of result ≡ meaning.walk (S.bytes s) end from.place from.count }
{
    let last = end - 1;
    let mut place = from.place;
    let mut count = from.count;
    // The next place hangs on the bytes read, so that no iterator gives it.
    while place < last {
        let n = s.length_by(last, place);
        if limit::MOST_PAYLOAD < n {
            return Err(place);
        }
        place = place + limit::RECORD_HEAD + n;
        count += 1;
    }
    Ok(Reached { place, count })
}

// Whether a stream is whole records, where following them to its end came to w.
pub fn judged(s: &[u8], w: Walk) -> Soundness
    requires { walk_of w ≡ meaning.walk (byte_at s.now) (length s.now) 0 0 }
    ensures { soundness_of result ≡ fault (byte_at s.now) (length s.now) }
{
    let n = s.len();
    match w {
        Err(p) => Err((p + 1) / limit::BLOCK_DATA),
        Ok(reached) => {
            if reached.place == n {
                return Ok(reached.count);
            }
            Err((n - 1) / limit::BLOCK_DATA)
        }
    }
}

// Whether a stream is whole records.
pub fn soundness(s: &[u8]) -> Soundness
    ensures { soundness_of result ≡ fault (byte_at s.now) (length s.now) }
{
    let n = s.len();
    if n == 0 {
        return Ok(0);
    }
    judged(s, walk(s, n, Reached { place: 0, count: 0 }))
}

// Where a record begins, as a block names it that has the bytes from lo up to hi.
pub fn name_start(lo: usize, hi: usize, p: usize) -> u32
    requires { (lo ≤ p) × (hi ≤ lo + 498) }
    ensures { (result ≡ named lo hi p) × (result < 65536) }
{
    if p < hi {
        return (p - lo) as u32;
    }
    limit::NO_START
}

// The first record that the block with the bytes from lo up to hi names; p as in the definition.
#[tactic(auto, unfolding(crate::specs::Stream::first_from))]
pub fn first_in<S: Stream>(s: S, lo: usize, hi: usize, p: usize) -> u32
    requires { (lo < hi) × (hi ≤ lo + 498) × (hi ≤ S.size s) × (lo ≤ p + 1) }
    ensures { (result ≡ first_from (S.bytes s) lo hi p) × (result < 65536) }
{
    if p < lo {
        let n = s.length_at(p);
        return name_start(lo, hi, p + limit::RECORD_HEAD + n);
    }
    name_start(lo, hi, p)
}

// What block i names, which has the bytes up to hi, where following the records up to it came to w.
#[tactic(auto, unfolding(crate::specs::Block::name_after))]
pub fn name_after<S: Stream>(s: S, i: usize, hi: usize, w: Walk) -> u32
    requires { (block_data * i < hi) × (hi ≤ block_data * i + 498) × (hi ≤ S.size s) × Followed i (walk_of w) }
    ensures { (result ≡ blocks.name_after (S.bytes s) (block_data * i) hi (walk_of w)) × (result < 65536) }
{
    let Ok(reached) = w else {
        return limit::NO_START;
    };
    first_in(s, limit::BLOCK_DATA * i, hi, reached.place)
}

// Follows the records on, up to hi.
pub fn walk_on<S: Stream>(s: S, hi: usize, w: Walk) -> Walk
    requires { (0 < hi) × (hi ≤ S.size s) × Fewer (walk_of w) }
    ensures { walk_of result ≡ promises.walk_on (S.bytes s) hi (walk_of w) }
{
    walk(s, hi, w?)
}
