// A table's bytes, judged as words.
ghost use Rattle.std.specs.Prelude.{◌≡◌, ◌≤◌, length};
ghost use Rattle.numbers.specs.Limit as limit;
ghost use Rattle.numbers.specs.Limit.{most_table_words};
ghost use Rattle.table.specs.Views.{verdict_is};
ghost use Rattle.call_parts.specs.Calls.{judged, table_verdict};
ghost use Rattle.call_parts.specs.Promises.{Told};
ghost use Rattle.call_parts.specs.TableRoom as room;

use crate::area::tell_place;
use crate::rooms::with_table_room;
use buffers::load;
use numbers::limit::MOST_TABLE_WORDS;
use numbers::refusal::{ACCEPTED, Refusal};
use table::{Flaw, check};

// How many words of so many bytes are looked at: all, or four at most where no table has that length.
pub fn words_lent(bytes: usize) -> usize
    ensures { room.Lends result bytes most_table_words }
{
    let n = bytes / 4;
    if is_whole(bytes) { n } else { n.min(4) }
}

// Whether a table can have so many bytes.
pub fn is_whole(bytes: usize) -> bool
    ensures { result ≡ room.is_whole bytes }
{
    bytes % 4 == 0 && bytes / 4 <= MOST_TABLE_WORDS
}

// A fault at the number of words looked at is one at the number of words given.
pub fn place_in_table(seen: usize, given: usize, place: usize) -> usize
    ensures { result ≡ room.place_in_table seen given place }
{
    if place == seen { given } else { place }
}

// Checks a table's bytes: the n words of it that are looked at, in room lent for them.
fn check_with_table_room(t: &[u8], n: usize, words: &mut [u32]) -> Result<(), Flaw>
    requires { room.Lends n (length t.now) (length words.old) }
    ensures { verdict_is result ≡ table_verdict t.now }
{
    load(t, words, n);
    check(&words[..n]).map_err(|Flaw(i)| Flaw(place_in_table(n, t.len() / 4, i)))
}

// Checks a table's bytes, in room for the words of it that are looked at.
pub fn check_bytes(t: &[u8]) -> Result<(), Flaw>
    ensures { verdict_is result ≡ table_verdict t.now }
{
    let n = words_lent(t.len());
    with_table_room(n, &mut |room| check_with_table_room(t, n, room))
}

// Judges a table's bytes, and tells the verdict.
pub fn judge_and_tell(t: &[u8], area: &mut [u8]) -> u32
    requires { length area.old ≡ limit.area }
    ensures { Told area (judged (table_verdict t.now)) result }
{
    match check_bytes(t) {
        Ok(()) => {
            tell_place(area, 0);
            ACCEPTED
        }
        Err(Flaw(i)) => {
            tell_place(area, i);
            Refusal::Table.number()
        }
    }
}
