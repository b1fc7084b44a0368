// Two's complement words: what a word is as a signed number, differences and sums of such numbers, sign and magnitude.
// The arithmetic is i64's and not of wrapping words, as differences are asked for in a wider signed type (docs/DECISIONS.md): there none of these wraps. A gap is
// that of two ranks.
#![tactic(auto)]

mod answers;

ghost use Rattle.std.specs.Prelude.{◌≡◌};
ghost use Rattle.std.specs.Int.{w32};
ghost use Rattle.std.proofs.Common.{to_z};
ghost use Rattle.signed.specs.Words.{rank, gap_of, up, down, word_of, wrapped};
ghost use Rattle.signed.specs.Views.{gap_is, bit, Parts};

pub use answers::Magnitude;

// The signed number that a word stands for.
pub fn value(word: u32) -> i64
    ensures { result ≡ to_z w32 word }
{
    i64::from(word.cast_signed())
}

// The word that a number wraps to.
pub fn word(v: i64) -> u32
    ensures { result ≡ wrapped v }
{
    (v.cast_unsigned() % 4294967296) as u32
}

// A word's rank among the words in the order of their numbers. Ranks need no wider word, as differences of numbers do.
fn rank_of(word: u32) -> u32
    ensures { result ≡ rank word }
{
    word.wrapping_add(2147483648)
}

// From the word `b` up to the word `c`: the other lies under it, or over it by so much.
#[tactic(auto, unfolding(crate::specs::Words::gap_of))]
pub fn gap(b: u32, c: u32) -> Option<u32>
    ensures { gap_is result ≡ gap_of b c }
{
    rank_of(c).checked_sub(rank_of(b))
}

// The word that lies `k` over the word `b`.
#[tactic(auto, using(crate::proofs::Ways::ways))]
pub fn raised(b: u32, k: u32) -> u32
    ensures { result ≡ up b k }
{
    word(value(b) + i64::from(k))
}

// The word that the word `v` lies over the word `b`.
#[tactic(auto, using(crate::proofs::Ways::ways))]
pub fn lowered(b: u32, v: u32) -> u32
    ensures { result ≡ down b v }
{
    word(value(v) - value(b))
}

// The sign and the magnitude of a word.
pub fn magnitude(word: u32) -> Magnitude
    ensures { Parts word result.negative result.magnitude }
{
    let v = value(word);
    Magnitude {
        negative: v < 0,
        magnitude: v.unsigned_abs() as u32,
    }
}

// The word of a sign and a magnitude.
#[tactic(auto, using(crate::proofs::Ways::ways))]
pub fn with_sign(negative: bool, magnitude: u32) -> u32
    ensures { result ≡ word_of (bit negative) magnitude }
{
    let m = i64::from(magnitude);
    if negative { word(-m) } else { word(m) }
}
