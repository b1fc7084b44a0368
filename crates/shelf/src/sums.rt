// The sum of a block's words. Four words are added at once: a word's bytes stand apart, in lanes of 16 bits, where the sums of as many bytes as a block
// has find room; so LLVM adds 16 bytes by one instruction.
ghost use Rattle.std.specs.Prelude.{◌≡◌, ◌+◌, ◌*◌, ◌/◌, ◌%◌, ◌<◌, ◌≤◌, length};
ghost use Rattle.numbers.specs.Limit.{block_body, block_words};
ghost use Rattle.shelf.specs.Block.{sum_to};
ghost use Rattle.shelf.specs.Sums.{Little, apart, together};

use buffers::word;
use numbers::limit;

// The words that are added in lanes: a multiple of four, and of eight.
const LANED: usize = 120;

// The word of the four bytes from a place on, the least significant first, which is one load.
fn little(s: &[u8], at: usize) -> u32
    requires { at + 3 < length s.now }
    ensures { Little s.now at result }
{
    u32::from_le_bytes([s[at], s[at + 1], s[at + 2], s[at + 3]])
}

// Every other byte of a word, from the least significant on, each in a lane of its own.
fn lanes(w: u32) -> u32
    ensures { result ≡ apart w }
{
    w % 256 + w / 65536 % 256 * 65536
}

// What the sums of the lanes come to, each with its byte's weight.
fn sum_lanes(even: u32, odd: u32) -> u32
    ensures { result ≡ together even odd }
{
    let first = even % 256 * 16777216;
    let second = odd % 65536 * 65536;
    let third = even / 65536 * 256;
    let upper = first.wrapping_add(second);
    let lower = third.wrapping_add(odd / 65536);
    upper.wrapping_add(lower)
}

// The sum of a block's words but the last, modulo 2^32.
pub fn sum_words(s: &[u8], from: usize) -> u32
    requires { from + block_body ≤ length s.now }
    ensures { result ≡ sum_to s.now from block_words }
{
    let mut even = 0;
    let mut odd = 0;
    for i in 0..LANED {
        let w = little(s, from + 4 * i);
        even += lanes(w);
        odd += lanes(w / 256);
    }
    let mut sum = sum_lanes(even, odd);
    for i in LANED..limit::BLOCK_WORDS {
        sum = sum.wrapping_add(word(s, from + 4 * i));
    }
    sum
}
