// Lent buffers: bytes as words and words as bytes, the most significant byte first; zeros.
#![tactic(auto)]

ghost use Rattle.std.specs.Prelude.{◌≡◌, [], ◌∷◌, ◌++◌, ◌+◌, ◌*◌, ◌/◌, ◌%◌, ◌≤◌, ◌<◌, length, get_or, take, drop, replicate};
ghost use Rattle.std.proofs.lemmas.List.Edits.{sets};
ghost use Rattle.buffers.specs.Bytes.{word_from, half_from, four, two, words_of, stored};

// The word of the four bytes from a place on.
pub fn word(s: &[u8], at: usize) -> u32
    requires { at + 3 < length s.now }
    ensures { result ≡ word_from s.now at }
{
    u32::from_be_bytes([s[at], s[at + 1], s[at + 2], s[at + 3]])
}

// The number of the two bytes from a place on.
pub fn half(s: &[u8], at: usize) -> u32
    requires { at + 1 < length s.now }
    ensures { result ≡ half_from s.now at }
{
    u32::from(u16::from_be_bytes([s[at], s[at + 1]]))
}

// Two words at i, of the eight bytes that they are: the compiler makes one load of them, and one store.
fn load_two(s: &[u8], words: &mut [u32], i: usize)
    requires bytes { 4 * i + 7 < length s.now }
    requires room { i + 1 < length words.old }
    ensures { words.new
        ≡ sets words.old i
        (word_from s.now (4 * i) ∷ word_from s.now (4 * i + 4) ∷ []) }
{
    let at = 4 * i;
    let both = u64::from_be_bytes([
        s[at],
        s[at + 1],
        s[at + 2],
        s[at + 3],
        s[at + 4],
        s[at + 5],
        s[at + 6],
        s[at + 7],
    ]);
    words[i] = (both / 4294967296) as u32;
    words[i + 1] = (both % 4294967296) as u32;
}

// The first n words of bytes at the front of a buffer; what stands behind them stays. Eight a round and the rest one by one: one a turn, also by
// `chunks_exact`, costs 76,849 instructions where this costs 71,179 (a call that reads 8,964 words).
pub fn load(s: &[u8], words: &mut [u32], n: usize)
    requires { (n ≤ length s.now / 4) × (n ≤ length words.old) }
    ensures { words.new ≡ take n (words_of s.now) ++ drop n words.old }
{
    let rounds = n / 8;
    for round in 0..rounds {
        let i = 8 * round;
        load_two(s, words, i);
        load_two(s, words, i + 2);
        load_two(s, words, i + 4);
        load_two(s, words, i + 6);
    }
    for i in 8 * rounds..n {
        words[i] = word(s, 4 * i);
    }
}

// A word as four bytes from a place on.
pub fn put_word(s: &mut [u8], at: usize, w: u32)
    requires { at + 3 < length s.old }
    ensures { s.new ≡ sets s.old at (four w) }
{
    s[at..at + 4].copy_from_slice(&w.to_be_bytes());
}

// Words as bytes at the front of a buffer.
pub fn store(words: &[u32], s: &mut [u8])
    requires { 4 * length words.now ≤ length s.old }
    ensures { s.new ≡ stored words.now s.old }
{
    for (i, w) in words.iter().enumerate() {
        put_word(s, 4 * i, *w);
    }
}

// A name as two bytes from a place on.
pub fn put_half(s: &mut [u8], at: usize, name: u16)
    requires { at + 1 < length s.old }
    ensures { s.new ≡ sets s.old at (two name) }
{
    s[at..at + 2].copy_from_slice(&name.to_be_bytes());
}

// Zeros throughout.
pub fn clear(s: &mut [u8])
    ensures { s.new ≡ replicate (length s.old) 0 }
{
    s.fill(0);
}

// Zero words throughout.
pub fn clear_words(a: &mut [u32])
    ensures { a.new ≡ replicate (length a.old) 0 }
{
    a.fill(0);
}
