// Widths, sizes and signed words.
ghost use Rattle.std.specs.Prelude.{◌≡◌, length};
ghost use Rattle.std.specs.Int.{w32};
ghost use Rattle.std.proofs.Common.{to_z};
ghost use Rattle.wire.specs.Number.{code5};
ghost use Rattle.wire.specs.Width as meaning;
ghost use Rattle.signed.specs.Words.{up, down, word_of};
ghost use Rattle.signed.specs.Views.{bit};

pub fn probe_width(n: u32) -> u32
    ensures { result ≡ meaning.width n }
{
    wire::choices::width(n)
}

pub fn probe_size5(v: u32) -> u32
    ensures { result ≡ length (code5 v) }
{
    wire::writing::size5(v).0
}

pub fn probe_value(word: u32) -> i64
    ensures { result ≡ to_z w32 word }
{
    signed::value(word)
}

pub fn probe_word(v: i64) -> u32 {
    signed::word(v)
}

// 1 where c lies under b, and else how far it lies over b.
pub fn probe_gap(b: u32, c: u32, by: &mut u32) -> u32 {
    match signed::gap(b, c) {
        None => {
            *by = 0;
            1
        }
        Some(k) => {
            *by = k;
            0
        }
    }
}

pub fn probe_raised(b: u32, k: u32) -> u32
    ensures { result ≡ up b k }
{
    signed::raised(b, k)
}

pub fn probe_lowered(b: u32, v: u32) -> u32
    ensures { result ≡ down b v }
{
    signed::lowered(b, v)
}

// 1 where the word is negative, and the magnitude.
pub fn probe_magnitude(word: u32, magnitude: &mut u32) -> u32 {
    let m = signed::magnitude(word);
    *magnitude = m.magnitude;
    m.negative as u32
}

pub fn probe_with_sign(negative: bool, magnitude: u32) -> u32
    ensures { result ≡ word_of (bit negative) magnitude }
{
    signed::with_sign(negative, magnitude)
}
