// Making the blocks of a file.
ghost use Rattle.std.specs.Prelude.{◌≡◌, ◌+◌, ◌*◌, ◌<◌, ◌≤◌, ◌++◌, length, take, drop};
ghost use Rattle.numbers.specs.Limit.{block_bytes, block_data, most_blocks};
ghost use Rattle.shelf.specs.Answers.{walk_of};
ghost use Rattle.shelf.specs.Block.{bytes_from, head_of, block, used_in, blocks_for, block_in, cut};
ghost use Rattle.shelf.specs.Stream.{byte_at, walk};

use crate::answers::{Reached, Walk};
use crate::stream::{name_after, walk_on};
use crate::sums::sum_words;
use buffers::{clear, put_half, put_word};
use numbers::limit;

// k bytes copied from a place of one buffer to a place of another. Not by `copy_from_slice`: the compiler does not see that the two are apart and makes a
// memmove of it, a name that the archive for C would newly need from outside.
pub fn copy_bytes(s: &[u8], from: usize, d: &mut [u8], to: usize, k: usize)
    requires { (from + k ≤ length s.now) × (to + k ≤ length d.old) }
    ensures { d.new
        ≡ take to d.old ++ bytes_from (byte_at s.now) from k ++ drop (to + k) d.old }
{
    for i in 0..k {
        d[to + i] = s[from + i];
    }
}

// A block's head.
fn put_head(b: &mut [u8], number: u32, used: u16, first: u16)
    requires { length b.old ≡ block_bytes }
    ensures { b.new ≡ head_of number used first ++ drop 8 b.old }
{
    put_word(b, 0, number);
    put_half(b, 4, used);
    put_half(b, 6, first);
}

// Makes a block of the used bytes that stand behind its head already.
pub fn seal(b: &mut [u8], number: u32, used: usize, first: u32)
    requires { (length b.old ≡ block_bytes) × (used ≤ block_data) × (first < 65536) }
    ensures { b.new ≡ block number first (bytes_from (byte_at b.old) 8 used) }
{
    put_head(b, number, used as u16, first as u16);
    let end = limit::BLOCK_HEAD + used;
    clear(&mut b[end..limit::BLOCK_BODY]);
    let sum = sum_words(b, 0);
    put_word(b, limit::BLOCK_BODY, sum);
}

// Makes the block of used bytes of a stream from a place on.
fn fill(b: &mut [u8], s: &[u8], from: usize, used: usize, number: u32, first: u32)
    requires { (length b.old ≡ block_bytes) × (used ≤ block_data) × (first < 65536) × (from + used ≤ length s.now) }
    ensures { b.new ≡ block number first (bytes_from (byte_at s.now) from used) }
{
    copy_bytes(s, from, b, limit::BLOCK_HEAD, used);
    seal(b, number, used, first);
}

// The bytes of a stream of n that block i has.
pub fn used_in(n: usize, i: usize) -> usize
    requires { block_data * i < n }
    ensures { (result ≡ used_in n i) × (0 < result) × (result ≤ block_data) × (block_data * i + result ≤ n) }
{
    let left = n - limit::BLOCK_DATA * i;
    left.min(limit::BLOCK_DATA)
}

// Makes block i, where following the records up to it came to w, and follows them to its end.
fn cut_block(s: &[u8], b: &mut [u8], i: usize, w: Walk) -> Walk
    requires whole { length b.old ≡ block_bytes }
    requires begun { block_data * i < length s.now }
    requires count { i < most_blocks }
    requires walked { walk_of w ≡ walk (byte_at s.now) (block_data * i) 0 0 }
    ensures made { b.new ≡ block_in (byte_at s.now) (length s.now) i }
    ensures followed { walk_of result ≡ walk (byte_at s.now) (block_data * i + used_in (length s.now) i) 0 0 }
{
    let lo = limit::BLOCK_DATA * i;
    let used = used_in(s.len(), i);
    let hi = lo + used;
    let first = name_after(s, i, hi, w);
    fill(b, s, lo, used, i as u32, first);
    walk_on(s, hi, w)
}

// Makes the m blocks of a stream, and follows its records to the end.
pub fn cut_blocks(s: &[u8], file: &mut [u8], m: usize) -> Walk
    requires { (m ≡ blocks_for (length s.now)) × (m ≤ most_blocks) × (block_bytes * m ≤ length file.old) }
    ensures made { file.new
        ≡ cut (byte_at s.now) (length s.now) m ++ drop (block_bytes * m) file.old }
    ensures followed { walk_of result ≡ walk (byte_at s.now) (length s.now) 0 0 }
{
    let mut w = Ok(Reached { place: 0, count: 0 });
    for i in 0..m {
        let from = limit::BLOCK_BYTES * i;
        let to = from + limit::BLOCK_BYTES;
        w = cut_block(s, &mut file[from..to], i, w);
    }
    w
}
