// Judging the blocks of a file.
ghost use Rattle.std.specs.Prelude.{◌≡◌, ◌+◌, ◌-◌, ◌*◌, ◌/◌, ◌<◌, ◌≤◌, length};
ghost use Rattle.numbers.specs.Limit.{block_data};
ghost use Rattle.numbers.specs.Refused.{answered};
ghost use Rattle.shelf.specs.Answers.{walk_of, stepped_of, scan_of};
ghost use Rattle.shelf.specs.Judge as meanings;
ghost use Rattle.shelf.specs.Rescue.{many_blocks};
ghost use Rattle.shelf.specs.Judge.{place_of, byte_of, blocks, zeros_from, used_at, end_at};
ghost use Rattle.shelf.specs.Shelf as shelf;

use crate::answers::{Reached, Scan, Stepped, Walk};
use crate::stream::{Stream, first_in, walk};
use crate::sums::sum_words;
use buffers::{half, word};
use numbers::limit;
use numbers::refusal::{Fault, Refusal};

// A file, read as its stream.
#[derive(Clone, Copy)]
pub struct File<'a>(pub &'a [u8]);

// Where byte k of a stream lies in its file.
pub fn place_of(k: usize) -> usize
    requires { k / block_data < many_blocks }
    ensures { result ≡ place_of k }
{
    limit::BLOCK_BYTES * (k / limit::BLOCK_DATA) + limit::BLOCK_HEAD + k % limit::BLOCK_DATA
}

// Byte k of a file's stream.
fn stream_byte(f: &[u8], k: usize) -> usize
    requires { k < block_data * blocks f.now }
    ensures { (result ≡ byte_of f.now k) × (result < 256) }
{
    usize::from(f[place_of(k)])
}

impl Stream for File<'_> {
    ghost size = { λ f. block_data * blocks f.0.now };

    ghost bytes = { λ f. byte_of f.0.now };

    fn length_at(self, p: usize) -> usize {
        let high = stream_byte(self.0, p);
        let low = stream_byte(self.0, p + 1);
        high * 256 + low
    }

    // Most records lie in the block in which `last` does, and for them no number is divided.
    fn length_by(self, last: usize, p: usize) -> usize {
        let i = last / limit::BLOCK_DATA;
        let lo = limit::BLOCK_DATA * i;
        if p < lo {
            return self.length_at(p);
        }
        let at = limit::BLOCK_BYTES * i + limit::BLOCK_HEAD + (p - lo);
        self.0.length_at(at)
    }
}

// Whether the k bytes from a place on are 0: whether the largest is, which LLVM finds 16 bytes at a time.
fn zeros_from(f: &[u8], from: usize, k: usize) -> bool
    requires { from + k ≤ length f.now }
    ensures { result ≡ zeros_from f.now from k }
{
    f[from..from + k].iter().fold(0, |most: u8, x| most.max(*x)) == 0
}

pub fn used_at(f: &[u8], i: usize) -> usize
    requires { i < blocks f.now }
    ensures { (result ≡ used_at f.now i) × (result < 65536) }
{
    half(f, limit::BLOCK_BYTES * i + 4) as usize
}

pub fn first_at(f: &[u8], i: usize) -> u32
    requires { i < blocks f.now }
    ensures { result ≡ meanings.first_at f.now i }
{
    half(f, limit::BLOCK_BYTES * i + 6)
}

pub fn number_at(f: &[u8], i: usize) -> usize
    requires { i < blocks f.now }
    ensures { result ≡ meanings.number_at f.now i }
{
    word(f, limit::BLOCK_BYTES * i) as usize
}

// Whether as many bytes are used as may be.
#[tactic(auto, unfolding(crate::specs::Judge::some_used))]
fn some_used(f: &[u8], i: usize) -> bool
    requires { i < blocks f.now }
    ensures { result ≡ meanings.some_used f.now i }
{
    let used = used_at(f, i);
    let last = f.len() / limit::BLOCK_BYTES <= i + 1;
    used == limit::BLOCK_DATA || 0 < used && used < limit::BLOCK_DATA && last
}

// Whether what is not used of a block is 0.
fn rest_zero(f: &[u8], i: usize) -> bool
    requires { (i < blocks f.now) × (used_at f.now i ≤ block_data) }
    ensures { result ≡ meanings.rest_zero f.now i }
{
    let used = used_at(f, i);
    if used == limit::BLOCK_DATA {
        return half(f, limit::BLOCK_BYTES * i + 506) == 0;
    }
    zeros_from(
        f,
        limit::BLOCK_BYTES * i + limit::BLOCK_HEAD + used,
        500 - used,
    )
}

// Whether the first record begins in the used bytes, or in none of them.
#[tactic(auto, unfolding(crate::specs::Judge::first_inside))]
fn first_inside(f: &[u8], i: usize) -> bool
    requires { i < blocks f.now }
    ensures { result ≡ meanings.first_inside f.now i }
{
    let first = first_at(f, i);
    (first as usize) < used_at(f, i) || first == limit::NO_START
}

// Whether block 0 begins with a record.
#[tactic(auto, unfolding(crate::specs::Judge::zero_first))]
fn zero_first(f: &[u8], i: usize) -> bool
    requires { i < blocks f.now }
    ensures { result ≡ meanings.zero_first f.now i }
{
    number_at(f, i) != 0 || first_at(f, i) == 0
}

// What can be judged of a block alone, its sum apart.
#[tactic(auto, unfolding(crate::specs::Judge::alone))]
fn alone(f: &[u8], i: usize) -> bool
    requires { i < blocks f.now }
    ensures { result ≡ meanings.alone f.now i }
{
    some_used(f, i) && rest_zero(f, i) && first_inside(f, i) && zero_first(f, i)
}

// Why a block is refused before the stream is asked, in the order of document 02.
#[tactic(auto, unfolding(crate::specs::Judge::reason))]
pub fn reason(f: &[u8], i: usize, want: usize) -> Result<(), Refusal>
    requires { i < blocks f.now }
    ensures { answered result ≡ meanings.reason f.now i want }
{
    let from = limit::BLOCK_BYTES * i;
    if sum_words(f, from) != word(f, from + limit::BLOCK_BODY) {
        return Err(Refusal::BlockCheck);
    }
    if number_at(f, i) != want {
        return Err(Refusal::BlockTurn);
    }
    if !alone(f, i) {
        return Err(Refusal::BlockLayout);
    }
    Ok(())
}

// Whether no record may go on past the used bytes of a block.
#[tactic(auto, unfolding(crate::specs::Judge::closes))]
fn closes(f: &[u8], i: usize) -> bool
    requires { i < blocks f.now }
    ensures { result ≡ meanings.closes f.now i }
{
    used_at(f, i) < limit::BLOCK_DATA || f.len() <= limit::BLOCK_BYTES * (i + 1)
}

// What following the records up to the end of a block came to.
#[tactic(auto, unfolding(crate::specs::Judge::walked))]
pub fn walked(f: &[u8], i: usize, w: Walk) -> Stepped
    requires { i < blocks f.now }
    ensures { stepped_of result ≡ meanings.walked f.now i (walk_of w) }
{
    let Ok(reached) = w else {
        return None;
    };
    if closes(f, i) {
        if reached.place == limit::BLOCK_DATA * i + used_at(f, i) {
            return Some(reached);
        }
        return None;
    }
    Some(reached)
}

// Whether a block is in step with the stream before it, whose records are reached so far.
#[tactic(auto, unfolding(crate::specs::Judge::in_step))]
pub fn in_step(f: &[u8], i: usize, reached: Reached) -> Stepped
    requires block { i < blocks f.now }
    requires used { 0 < used_at f.now i }
    requires most { used_at f.now i ≤ block_data }
    requires first { reached.count ≤ reached.place }
    requires reached { block_data * i ≤ reached.place + 1 }
    ensures { stepped_of result ≡ meanings.in_step f.now i reached.place reached.count }
{
    let lo = limit::BLOCK_DATA * i;
    let hi = lo + used_at(f, i);
    if first_at(f, i) == first_in(File(f), lo, hi, reached.place) {
        return walked(f, i, walk(File(f), hi, reached));
    }
    None
}

// Judges block by block.
pub fn scan(f: &[u8]) -> Scan
    ensures { scan_of result ≡ shelf.scan f.now }
{
    let m = f.len() / limit::BLOCK_BYTES;
    let mut reached = Reached { place: 0, count: 0 };
    for i in 0..m {
        reason(f, i, i).map_err(|why| Fault { why, at: i })?;
        reached = in_step(f, i, reached).ok_or(Fault {
            why: Refusal::BlockLayout,
            at: i,
        })?;
    }
    if f.len() % limit::BLOCK_BYTES == 0 {
        return Ok(reached);
    }
    Err(Fault {
        why: Refusal::BlockLayout,
        at: m,
    })
}
