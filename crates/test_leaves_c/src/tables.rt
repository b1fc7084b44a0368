// The check of a table, and what stands in its rows.
ghost use Rattle.std.specs.Prelude.{◌≡◌};
ghost use Rattle.table.specs.Words.{word_at};

// 0 where the table is right; 1, and the place of the first word at fault.
#[unsafe(no_mangle)]
pub extern "C" fn probe_table(words: &[u32], place: &mut usize) -> u32 {
    test_leaves::tables::probe_table(words, place)
}

#[unsafe(no_mangle)]
pub extern "C" fn probe_table_word(words: &[u32], i: usize) -> u32
    ensures { result ≡ word_at words.now i }
{
    test_leaves::tables::probe_table_word(words, i)
}

#[unsafe(no_mangle)]
pub extern "C" fn probe_types(words: &[u32]) -> u32 {
    test_leaves::tables::probe_types(words)
}

#[unsafe(no_mangle)]
pub extern "C" fn probe_held(words: &[u32], party: u32, t: u32) -> u32 {
    test_leaves::tables::probe_held(words, party, t)
}

// The content of type t: 0 nothing; 1 a simple kind with its parameters; 2 a particle row.
#[unsafe(no_mangle)]
pub extern "C" fn probe_content(words: &[u32], t: u32, out: &mut [u32; 4]) -> u32 {
    test_leaves::tables::probe_content(words, t, out)
}

// The first attribute row of type t, and their number.
#[unsafe(no_mangle)]
pub extern "C" fn probe_span(words: &[u32], t: u32, out: &mut [u32; 4]) -> u32 {
    test_leaves::tables::probe_span(words, t, out)
}

// The attribute row i: 1 where it is required; its name, and the simple kind of its type with its parameters.
#[unsafe(no_mangle)]
pub extern "C" fn probe_attribute(words: &[u32], i: u32, out: &mut [u32; 4]) -> u32 {
    test_leaves::tables::probe_attribute(words, i, out)
}

// The particle row i: 0 element, 1 sequence, 2 choice, 3 occurs; and its words.
#[unsafe(no_mangle)]
pub extern "C" fn probe_particle(words: &[u32], i: u32, out: &mut [u32; 4]) -> u32 {
    test_leaves::tables::probe_particle(words, i, out)
}
