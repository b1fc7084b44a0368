// A party's mark set in a table's bytes.
ghost use Rattle.std.specs.Prelude.{◌≡◌, ◌≤◌, length, take};
ghost use Rattle.numbers.specs.Limit.{most_table_words};
ghost use Rattle.table.specs.Setting.{setting};
ghost use Rattle.table.specs.Views.{setting_is};
ghost use Rattle.call_parts.specs.Promises.{Holds, mark_stored, SetByBytes};
ghost use Rattle.call_parts.specs.TableRoom as room;
ghost use Rattle.call_parts.specs.TableRoom.{Lends};

use crate::rooms::with_table_room;
use crate::tables::{place_in_table, words_lent};
use buffers::load;
use numbers::refusal::Fault;
use table::marks::set_held;

// Sets a mark in the first n words.
fn set_in_words(
    words: &mut [u32],
    n: usize,
    party: u32,
    ty: u32,
    mark: u32,
) -> Result<(), Fault<usize>>
    requires { n ≤ length words.old }
    ensures { setting_is result (take n words.new) ≡ setting (take n words.old) party ty mark }
{
    set_held(&mut words[..n], party, ty, mark)
}

// Stores the lowest byte of a type's held word: of a word of one byte it is the one that can change.
fn store_mark(t: &mut [u8], words: &[u32], ty: u32)
    requires { Holds ty (length t.old) (length words.now) }
    ensures { t.new ≡ mark_stored t.old words.now ty }
{
    let i = 4 + 7 * (ty as usize);
    let held = words[i] % 256;
    t[4 * i + 3] = held as u8;
}

// Sets a mark by a table's bytes: the n words of it that are looked at, in room lent for them.
fn set_with_table_room(
    t: &mut [u8],
    n: usize,
    words: &mut [u32],
    party: u32,
    ty: u32,
    mark: u32,
) -> Result<(), Fault<usize>>
    requires { Lends n (length t.old) (length words.old) }
    ensures { SetByBytes t.old party ty mark result t.new }
{
    load(t, words, n);
    set_in_words(words, n, party, ty, mark).map_err(|Fault { why, at }| Fault {
        why,
        at: place_in_table(n, t.len() / 4, at),
    })?;
    store_mark(t, words, ty);
    Ok(())
}

// Sets a mark by a table's bytes, in room for the words of it that are looked at.
pub fn set_bytes(t: &mut [u8], party: u32, ty: u32, mark: u32) -> Result<(), Fault<usize>>
    ensures { SetByBytes t.old party ty mark result t.new }
{
    let n = words_lent(t.len());
    with_table_room(
        n,
        &mut |room| set_with_table_room(t, n, room, party, ty, mark),
    )
}
