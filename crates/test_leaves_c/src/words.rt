// Widths, sizes and signed words.
ghost use Rattle.std.specs.Prelude.{◌≡◌, length};
ghost use Rattle.std.specs.Int.{w32};
ghost use Rattle.std.proofs.Common.{to_z};
ghost use Rattle.wire.specs.Number.{code5};
ghost use Rattle.wire.specs.Width as meaning;
ghost use Rattle.signed.specs.Words.{up, down, word_of};
ghost use Rattle.signed.specs.Views.{bit};

#[unsafe(no_mangle)]
pub extern "C" fn probe_width(n: u32) -> u32
    ensures { result ≡ meaning.width n }
{
    test_leaves::words::probe_width(n)
}

#[unsafe(no_mangle)]
pub extern "C" fn probe_size5(v: u32) -> u32
    ensures { result ≡ length (code5 v) }
{
    test_leaves::words::probe_size5(v)
}

#[unsafe(no_mangle)]
pub extern "C" fn probe_value(word: u32) -> i64
    ensures { result ≡ to_z w32 word }
{
    test_leaves::words::probe_value(word)
}

#[unsafe(no_mangle)]
pub extern "C" fn probe_word(v: i64) -> u32 {
    test_leaves::words::probe_word(v)
}

// 1 where c lies under b, and else how far it lies over b.
#[unsafe(no_mangle)]
pub extern "C" fn probe_gap(b: u32, c: u32, by: &mut u32) -> u32 {
    test_leaves::words::probe_gap(b, c, by)
}

#[unsafe(no_mangle)]
pub extern "C" fn probe_raised(b: u32, k: u32) -> u32
    ensures { result ≡ up b k }
{
    test_leaves::words::probe_raised(b, k)
}

#[unsafe(no_mangle)]
pub extern "C" fn probe_lowered(b: u32, v: u32) -> u32
    ensures { result ≡ down b v }
{
    test_leaves::words::probe_lowered(b, v)
}

// 1 where the word is negative, and the magnitude.
#[unsafe(no_mangle)]
pub extern "C" fn probe_magnitude(word: u32, magnitude: &mut u32) -> u32 {
    test_leaves::words::probe_magnitude(word, magnitude)
}

#[unsafe(no_mangle)]
pub extern "C" fn probe_with_sign(negative: bool, magnitude: u32) -> u32
    ensures { result ≡ word_of (bit negative) magnitude }
{
    test_leaves::words::probe_with_sign(negative, magnitude)
}
